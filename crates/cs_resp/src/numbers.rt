//! Numbers in decimal digits, and line breaks.
ghost use Rattle.std.specs.Prelude.{◌≡◌};
ghost use Rattle.cs_resp.specs.Reading.{Gives, byte_at, line_end_at, with_digit, digits_at, number_at};

use crate::faults::{End, Fault};

/// What follows this byte, or this fault if another one stands there.
pub fn byte(bytes: &[u8], wanted: u8, fault: Fault) -> Result<&[u8], End>
    ensures { Gives (λ rest. rest.now) result (byte_at wanted fault bytes.now) }
{
    match bytes {
        [] => Err(End::More),
        [first, rest @ ..] => {
            if *first == wanted {
                Ok(rest)
            } else {
                Err(End::Wrong(fault))
            }
        }
    }
}

/// What follows a line break, or this fault if something else stands there.
pub fn line_end(bytes: &[u8], fault: Fault) -> Result<&[u8], End>
    ensures { Gives (λ rest. rest.now) result (line_end_at fault bytes.now) }
{
    let rest = byte(bytes, b'\r', fault)?;
    byte(rest, b'\n', fault)
}

/// The number in decimal digits, without leading zeros, before a line break, and what follows that. If it is greater
/// than `most`, it is this fault.
#[tactic(auto, unfolding(crate::specs::Reading::number_at))]
pub fn number(bytes: &[u8], most: u32, fault: Fault) -> Result<(u32, &[u8]), End>
    ensures { Gives (λ x. (x.0, x.1.now)) result (number_at most fault bytes.now) }
{
    match bytes {
        [] => Err(End::More),
        [b'0', rest @ ..] => {
            let rest = line_end(rest, Fault::BadLength)?;
            Ok((0, rest))
        }
        [digit, rest @ ..] => {
            let first = with_digit(0, *digit, most, fault)?;
            more_digits(first, rest, most, fault)
        }
    }
}

/// The number whose first digits were read, and what follows its line break.
#[tactic(auto, unfolding(crate::specs::Reading::digits_at))]
fn more_digits(first: u32, bytes: &[u8], most: u32, fault: Fault) -> Result<(u32, &[u8]), End>
    ensures { Gives (λ x. (x.0, x.1.now)) result (digits_at most fault first bytes.now) }
{
    let mut number = first;
    let mut rest = bytes;
    while let [digit, after @ ..] = rest {
        if *digit == b'\r' {
            let after = byte(after, b'\n', Fault::BadLength)?;
            return Ok((number, after));
        }
        number = with_digit(number, *digit, most, fault)?;
        rest = after;
    }
    Err(End::More)
}

/// The number with one more digit.
fn with_digit(number: u32, digit: u8, most: u32, fault: Fault) -> Result<u32, End>
    ensures { Gives (λ n. n) result (with_digit most fault number digit) }
{
    if !digit.is_ascii_digit() {
        return Err(End::Wrong(Fault::BadLength));
    }
    let number = u64::from(number) * 10 + u64::from(digit - b'0');
    if number > u64::from(most) {
        return Err(End::Wrong(fault));
    }
    Ok(number as u32)
}
