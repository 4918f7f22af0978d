//! Why lines aren't readable.
ghost use Rattle.std.specs.Prelude.{◌≡◌};
ghost use Rattle.cs_script.specs.BadLines.{IsWhy, first_of, is_mask, stands_alone, why_alone, why_crash, why_one, why_put, why_words};
ghost use Rattle.cs_script.specs.Lines.{words};
ghost use Rattle.cs_script.specs.declared.bad_lines.BadLine.{BadLine as Why};

use crate::lines::{are_binary, read_id, take_word};
use std::str;
use thiserror::Error;

/// Why a line isn't readable.
#[derive(Clone, Copy, Debug, PartialEq, Eq, Error)]
pub enum BadLine {
    /// It isn't UTF-8.
    #[error("it isn't UTF-8")]
    NotUtf8,
    /// Its first word is no command.
    #[error("no such command")]
    NoCommand,
    /// It ends too early.
    #[error("a word is missing")]
    MissingWord,
    /// It ends too late.
    #[error("one word too many")]
    ExtraWord,
    /// An identifier was wanted.
    #[error("the second word is no identifier (a UUID)")]
    NoIdentifier,
    /// Bytes were wanted.
    #[error("the payload is no even number of hex digits (- for no byte)")]
    NoPayload,
    /// The number of an extent was wanted.
    #[error("the second word is no decimal number below 2^64")]
    NoNumber,
    /// The digits of a crash were wanted.
    #[error("the second word is no row of digits 0 and 1 (- for none)")]
    NoMask,
    /// The store is in a file, where no line can step or crash.
    #[error("step and crash need a store in memory")]
    NotInMemory,
    /// A crash has too few digits, or too many.
    #[error("the crash has too many digits or too few: one for each volatile write")]
    MaskLength,
}

impl BadLine {
    /// Why a line that isn't readable isn't, over a disk that can crash, or one that can't, as in a file. Of a line
    /// that is readable what it gives means nothing.
    pub fn of(text: &[u8], crashable: bool) -> BadLine
        ensures { IsWhy crashable text.now result }
    {
        match str::from_utf8(text) {
            Ok(_) => why(text, crashable),
            Err(_) => BadLine::NotUtf8,
        }
    }
}

/// The first word of a line, or no byte where it has none.
pub fn first_word(text: &[u8]) -> &[u8]
    ensures { result.now ≡ first_of (words text.now) }
{
    match take_word(text) {
        Some((word, _)) => word,
        None => &[],
    }
}

/// Why a line isn't readable, by its words.
fn why(text: &[u8], crashable: bool) -> BadLine
    ensures { result ≡ why_words crashable (words text.now) }
{
    let Some((word, rest)) = take_word(text) else {
        return BadLine::MissingWord;
    };
    if word == b"put".as_slice() {
        why_put(rest)
    } else if word == b"get".as_slice() || word == b"del".as_slice() {
        why_one(rest, BadLine::NoIdentifier)
    } else if word == b"sweep".as_slice() {
        why_one(rest, BadLine::NoNumber)
    } else if word == b"crash".as_slice() {
        why_crash(rest, crashable)
    } else if stands_alone(word) {
        why_alone(rest)
    } else {
        BadLine::NoCommand
    }
}

/// Whether a word is a command that stands alone.
fn stands_alone(word: &[u8]) -> bool
    ensures { result ≡ stands_alone word.now }
{
    word == b"sync".as_slice()
        || word == b"step".as_slice()
        || word == b"plan".as_slice()
        || word == b"document".as_slice()
}

/// Why a line isn't readable with these words after `put`.
fn why_put(rest: &[u8]) -> BadLine
    ensures { result ≡ why_put (words rest.now) }
{
    let Some((id, rest)) = take_word(rest) else {
        return BadLine::MissingWord;
    };
    let Some((_, rest)) = take_word(rest) else {
        return BadLine::MissingWord;
    };
    if take_word(rest).is_some() {
        return BadLine::ExtraWord;
    }
    match read_id(id) {
        Some(_) => BadLine::NoPayload,
        None => BadLine::NoIdentifier,
    }
}

/// Why a line isn't readable where one word of a kind was wanted, by what it is where there is one word.
fn why_one(rest: &[u8], otherwise: BadLine) -> BadLine
    ensures { result ≡ why_one otherwise (words rest.now) }
{
    let Some((_, rest)) = take_word(rest) else {
        return BadLine::MissingWord;
    };
    match take_word(rest) {
        Some(_) => BadLine::ExtraWord,
        None => otherwise,
    }
}

/// Why a line isn't readable with these words after `crash`.
fn why_crash(rest: &[u8], crashable: bool) -> BadLine
    ensures { result ≡ why_crash crashable (words rest.now) }
{
    let Some((digits, rest)) = take_word(rest) else {
        return BadLine::MissingWord;
    };
    if take_word(rest).is_some() {
        return BadLine::ExtraWord;
    }
    if !is_mask(digits) {
        return BadLine::NoMask;
    }
    if crashable {
        BadLine::MaskLength
    } else {
        BadLine::NotInMemory
    }
}

/// Whether a word is binary digits, or `-`.
fn is_mask(word: &[u8]) -> bool
    ensures { result ≡ is_mask word.now }
{
    word == b"-".as_slice() || are_binary(word)
}

/// Why a line isn't readable with these words after a command that stands alone.
fn why_alone(rest: &[u8]) -> BadLine
    ensures { result ≡ why_alone (words rest.now) }
{
    match take_word(rest) {
        Some(_) => BadLine::ExtraWord,
        None => BadLine::NotInMemory,
    }
}
