//! Sizes as they are written on a command line: `64M` for 67,108,864 bytes.
ghost use Rattle.std.specs.Prelude.{◌≡◌, ◌-◌, length, slice_get};
ghost use Rattle.std.specs.Char.{is_ascii_digit};
ghost use Rattle.std.specs.List.{list_all};
ghost use Rattle.cs_script.specs.Lines.{decimal_of};
ghost use Rattle.cs_options.specs.Sizes.{digits_before, letter_unit, size_of, unit_behind};

use std::str;

/// The number of bytes that a text stands for: decimal digits, and behind them K, M, G or T, each of which is 1,024 of
/// the one before, or none of these. None for any other text, and from 2^64 on.
pub fn size_of(text: &str) -> Option<u64>
    ensures { result ≡ size_of text.now }
{
    let text = text.as_bytes();
    let unit = unit_behind(text);
    read_number(digits_before(text, unit))?.checked_mul(unit)
}

/// The unit that the last letter of a text stands for, 1 where it is none of them.
fn unit_behind(text: &[u8]) -> u64
    ensures { result ≡ unit_behind text.now }
{
    match text.last() {
        Some(b'K') => 1_024,
        Some(b'M') => 1_048_576,
        Some(b'G') => 1_073_741_824,
        Some(b'T') => 1_099_511_627_776,
        _ => 1,
    }
}

/// The text without the letter of its unit.
fn digits_before(text: &[u8], unit: u64) -> &[u8]
    requires { unit ≡ unit_behind text.now }
    ensures { result.now ≡ digits_before text.now }
{
    if unit == 1 {
        text
    } else {
        &text[..text.len() - 1]
    }
}

/// The number that decimal digits stand for, where it is below 2^64.
fn read_number(word: &[u8]) -> Option<u64>
    ensures { result ≡ decimal_of word.now }
{
    if !are_digits(word) {
        return None;
    }
    match str::from_utf8(word) {
        Ok(digits) => digits.parse().ok(),
        Err(_) => None,
    }
}

/// Whether all bytes are decimal digits.
fn are_digits(word: &[u8]) -> bool
    ensures { result ≡ list_all is_ascii_digit word.now }
{
    word.iter().all(|byte| byte.is_ascii_digit())
}
