// Which words are values, and what they mean.

ghost use Rattle.std.specs.Prelude.{◌≡◌, true};
ghost use Rattle.std.specs.Str.Parse.{digits_value};
ghost use Rattle.spd_command.specs.Values.{is_name, is_decimal, is_number, is_value, is_scheme, scheme_called};

use crate::argument::ValueKind;
use spd_words::Scheme;

/// The most digits of a number.
const MOST_DIGITS: usize = 10;

/// Whether a word has a byte, and doesn't begin with `-`.
fn is_name(word: &[u8]) -> bool
    ensures { result ≡ is_name word.now }
{
    match word {
        [] => false,
        [first, ..] => *first != b'-',
    }
}

/// Whether each byte is a decimal digit.
fn is_decimal(word: &[u8]) -> bool
    ensures { result ≡ is_decimal word.now }
{
    let mut digits = word;
    while let [digit, rest @ ..] = digits {
        if *digit < b'0' || *digit > b'9' {
            return false;
        }
        digits = rest;
    }
    true
}

/// Whether a word is one to ten digits whose value is from `least` to `most`.
fn is_number(least: u32, most: u32, word: &str) -> bool
    ensures { result ≡ is_number least most word.now }
{
    if word.len() < 1 || word.len() > MOST_DIGITS || !is_decimal(word.as_bytes()) {
        return false;
    }
    match word.parse::<u32>() {
        Ok(value) => least <= value && value <= most,
        Err(_) => false,
    }
}

/// Whether a word is `flat`, `level` or `grow`.
fn is_scheme(word: &str) -> bool
    ensures { result ≡ is_scheme word.now }
{
    matches!(word, "flat" | "level" | "grow")
}

impl ValueKind {
    /// Whether an argument of this kind takes a word as its value.
    pub fn takes(self, word: &str) -> bool
        ensures { result ≡ is_value self word.now }
    {
        match self {
            ValueKind::Name => is_name(word.as_bytes()),
            ValueKind::Number { least, most } => is_number(least, most, word),
            ValueKind::Scheme => is_scheme(word),
            ValueKind::Flag => word == "true",
        }
    }
}

/// The value of a number's digits.
pub(crate) fn number_of(word: &str) -> u32
    requires { is_number 0 4294967295 word.now ≡ true }
    ensures { result ≡ digits_value 10 word.now }
{
    match word.parse::<u32>() {
        Ok(value) => value,
        Err(_) => unreachable!(),
    }
}

/// The scheme that a word names.
pub(crate) fn scheme_called(word: &str) -> Scheme
    ensures { result ≡ scheme_called word.now }
{
    match word {
        "flat" => Scheme::Flat,
        "level" => Scheme::Level,
        _ => Scheme::Grow,
    }
}
