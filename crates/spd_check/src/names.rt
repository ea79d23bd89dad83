// The names that are visible at a place.

ghost use Rattle.std.specs.Prelude.{◌≡◌, ◌++◌, ◌∷◌, [], take, IfOk, OnOk};
ghost use Rattle.spd_check.specs.declared.faults.CheckKind.TheVariants.{Unknown};
ghost use Rattle.spd_code.specs.Places as places;
ghost use Rattle.spd_check.specs.Names as spec;
ghost use Rattle.spd_check.specs.Names.{name_texts};
ghost use Rattle.spd_check.specs.Faults.{Passes, fault_unless};
ghost use Rattle.spd_check.specs.Checks.{twice, assigned_faults};

use crate::faults::{CheckFault, CheckKind, unless};
use std::alloc::AllocError;

/// A name is among those that are visible.
fn is_visible(names: &[&[u8]], name: &[u8]) -> bool
    ensures { result ≡ spec.is_visible (name_texts names.now) name.now }
{
    for other in names {
        if *other == name {
            return true;
        }
    }
    false
}

/// The place of a name among those that are visible, or their number where it isn't.
pub(crate) fn place_of(names: &[&[u8]], name: &[u8]) -> usize
    ensures { result ≡ places.place_of (name_texts names.now) name.now }
{
    for (place, other) in names.iter().enumerate() {
        if *other == name {
            return place;
        }
    }
    names.len()
}

/// Checks a variable that is read.
pub(crate) fn check_read(names: &[&[u8]], line: u32, name: &[u8]) -> Result<(), CheckFault>
    ensures { Passes result (fault_unless (spec.is_visible (name_texts names.now) name.now) line Unknown) }
{
    unless(is_visible(names, name), line, CheckKind::Unknown)
}

/// Checks a variable that is assigned where so many names stood outside the innermost finish or async block.
pub(crate) fn check_assigned(
    names: &[&[u8]],
    outer: usize,
    line: u32,
    name: &[u8],
) -> Result<(), CheckFault>
    ensures { Passes result (assigned_faults (name_texts names.now) outer name.now line) }
{
    if !is_visible(names, name) {
        return Err(CheckFault {
            line,
            kind: CheckKind::Unknown,
        });
    }
    unless(outer <= place_of(names, name), line, CheckKind::AssignOuter)
}

/// Makes a name visible.
pub(crate) fn bind<'a>(
    names: &mut Vec<&'a [u8]>,
    name: &'a [u8],
    line: u32,
) -> Result<(), CheckFault>
    ensures answer { Passes result (twice (name_texts names.old.items) name.now line) }
    ensures names { OnOk result (name_texts names.new.items ≡ name_texts names.old.items ++ name.now ∷ []) }
{
    if is_visible(names, name) {
        return Err(CheckFault {
            line,
            kind: CheckKind::Twice,
        });
    }
    names.push(name)?;
    Ok(())
}

/// Keeps the first names alone, of which there are so many.
pub(crate) fn keep_first(names: &mut Vec<&[u8]>, count: usize)
    ensures { name_texts names.new.items ≡ take count (name_texts names.old.items) }
{
    names.truncate(count);
}

/// A place or a number as code has it. One beyond 32 bits is told as want of memory.
pub(crate) fn to_u32(number: usize) -> Result<u32, AllocError>
    ensures { IfOk result (λ small. small ≡ number) }
{
    if number > u32::MAX as usize {
        return Err(AllocError);
    }
    Ok(number as u32)
}
