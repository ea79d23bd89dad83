// The limit of the system on the sizes of files, as one of which a standard stream is written.
ghost use Rattle.std.specs.Prelude.{◌≤◌, IfOk, length};

use std::io::Read;
use std::rt::Files;
use std::{fs, str};

/// The bit of a descriptor's flags under which each write goes behind the file's last byte.
const APPENDS: u32 = 0o2000;

/// How far the file may be written that a standard stream is. A write that begins at the system's
/// limit would end the process by a signal, SIGXFSZ, so its place is asked for before.
///
/// Linux tells both in `/proc`. Where it doesn't, there is no limit that is known.
#[derive(Drop)]
pub struct SizeLimit<'a, R: Files> {
    files: &'a R,
    stream: &'static str,
    state: &'static str,
    most: Option<u64>,
}

impl<'a, R: Files> SizeLimit<'a, R> {
    /// That of standard output, as the limit stands now.
    pub fn of_output(files: &'a R) -> SizeLimit<'a, R> {
        SizeLimit {
            files,
            stream: "/proc/self/fd/1",
            state: "/proc/self/fdinfo/1",
            most: most_told(files),
        }
    }

    /// That of standard error, as the limit stands now.
    pub fn of_errors(files: &'a R) -> SizeLimit<'a, R> {
        SizeLimit {
            files,
            stream: "/proc/self/fd/2",
            state: "/proc/self/fdinfo/2",
            most: most_told(files),
        }
    }

    /// Whether the stream may get a byte more, as far as the system tells.
    pub fn has_room(&self) -> bool {
        let Some(most) = self.most else {
            return true;
        };
        self.place().is_none_or(|place| place < most)
    }

    /// Where the next byte goes, if the stream is a file.
    fn place(&self) -> Option<u64> {
        let stream = fs::metadata(self.files, self.stream).ok()?;
        if !stream.is_file() {
            return None;
        }
        let mut buffer = [0; 1024];
        place_in(told(self.files, self.state, &mut buffer)?, stream.len())
    }
}

/// The most bytes that the system lets a file have, if it tells of a limit.
fn most_told<R: Files>(files: &R) -> Option<u64> {
    let mut buffer = [0; 4096];
    most_in(told(files, "/proc/self/limits", &mut buffer)?)
}

/// What the system tells under a name of `/proc`, as one read of it gives.
fn told<'b, R: Files>(files: &R, name: &str, buffer: &'b mut [u8]) -> Option<&'b str> {
    let mut file = fs::open(files, name).ok()?;
    let length = file.read(buffer).ok()?;
    str::from_utf8(&buffer[..length]).ok()
}

/// What stands behind a name at the start of a line, without blanks at its ends.
fn field<'t>(text: &'t str, name: &str) -> Option<&'t str> {
    for line in text.lines() {
        if let Some(value) = line.strip_prefix(name) {
            return Some(value.trim());
        }
    }
    None
}

/// The limit on a file's size, in bytes, by the text of `/proc/self/limits`; none for `unlimited`.
fn most_in(limits: &str) -> Option<u64> {
    let values = field(limits, "Max file size")?;
    values.split_whitespace().next()?.parse().ok()
}

/// The place of the next byte, by the text of a descriptor's `/proc/self/fdinfo` and its file's length.
fn place_in(state: &str, length: u64) -> Option<u64> {
    let flags = u32::from_str_radix(field(state, "flags:")?, 8).ok()?;
    if flags & APPENDS != 0 {
        return Some(length);
    }
    field(state, "pos:")?.parse().ok()
}

#[cfg(test)]
mod tests;
