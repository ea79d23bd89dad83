// The numbers that cells stand for.

ghost use Rattle.std.specs.Prelude.{◌≡◌};
ghost use Rattle.spd_cols.specs.Values as spec;

/// What one or more digits stand for, if it is at most some number.
fn magnitude(digits: &[u8], most: u64) -> Option<u64>
    ensures { result ≡ spec.magnitude most digits.now }
{
    if digits.is_empty() {
        return None;
    }
    let mut value: u64 = 0;
    for digit in digits {
        if !digit.is_ascii_digit() {
            return None;
        }
        let digit = u64::from(*digit - b'0');
        value = value.checked_mul(10)?.checked_add(digit)?;
    }
    if value <= most { Some(value) } else { None }
}

/// The number that a cell stands for: digits with at most one `-` before them, of a number from
/// -2^63 to 2^63 - 1.
pub(crate) fn int_of(cell: &[u8]) -> Option<i64>
    ensures { result ≡ spec.int_of cell.now }
{
    match cell {
        [b'-', digits @ ..] => {
            let value = magnitude(digits, 1 << 63)?;
            i64::try_from(-i128::from(value)).ok()
        }
        digits => {
            let value = magnitude(digits, i64::MAX as u64)?;
            i64::try_from(value).ok()
        }
    }
}
