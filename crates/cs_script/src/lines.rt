//! The lines of a script.
ghost use Rattle.std.specs.Prelude.{◌≡◌, ◌==◌, ◌∷◌, [], IfOk, MatchOption, map, option_map, not};
ghost use Rattle.std.specs.Prelude.{position};
ghost use Rattle.std.specs.Char.{is_ascii_digit};
ghost use Rattle.std.specs.List.{list_all};
ghost use Rattle.uuid.specs.Text.{parsed};
ghost use Rattle.cs_script.specs.Lines.{said_by, is_silent, words, payload_of, one_id, one_number, decimal_of, is_one, is_binary, mask_of, said_put, said_get, said_delete, said_sweep, said_crash, said_alone, said_by_word, said_of};

use hex::FromHexError;
use std::alloc::{AllocError, Global};
use std::str;
use uuid::Uuid;

/// The byte that parts words.
const SPACE: u8 = b' ';

/// What a line says.
#[derive(Debug, Drop)]
pub enum Line {
    /// Puts a shard.
    Put { id: [u8; 16], bytes: Vec<u8> },
    /// Prints the bytes of a shard.
    Get { id: [u8; 16] },
    /// Deletes a shard.
    Delete { id: [u8; 16] },
    /// Moves what is live on an extent, and empties it.
    Sweep { extent: usize },
    /// Makes all that was put and deleted persistent.
    Sync,
    /// Makes one event of writeback.
    Step,
    /// Prints how all that was put would be made persistent.
    Plan,
    /// Prints the plan document of all that waits.
    Document,
    /// Crashes the disk, keeps those of its volatile writes for which the mask says true, and opens what is left.
    Crash { mask: Vec<bool> },
    /// An empty line, or a remark.
    Nothing,
    /// Not readable.
    Bad,
}

impl Line {
    /// Reads a line without its line feed. Words are parted by spaces alone: a tab belongs to its word. An identifier
    /// is any text that `uuid` reads, a payload is hex digits in either case, or `-` for no byte, an extent is decimal
    /// digits of a number below 2^64, and a mask is binary digits, or `-` for none. The only memory that it takes is
    /// for a payload or a mask.
    pub fn read(alloc: Global, text: &[u8]) -> Result<Line, AllocError>
        ensures { IfOk result (λ line. said_by line ≡ said_of text.now) }
    {
        if is_silent(text) {
            return Ok(Line::Nothing);
        }
        let Some((word, rest)) = take_word(text) else {
            return Ok(Line::Bad);
        };
        if word == b"put".as_slice() {
            read_put(alloc, rest)
        } else if word == b"get".as_slice() {
            Ok(read_get(rest))
        } else if word == b"del".as_slice() {
            Ok(read_delete(rest))
        } else if word == b"sweep".as_slice() {
            Ok(read_sweep(rest))
        } else if word == b"crash".as_slice() {
            read_crash(alloc, rest)
        } else {
            Ok(read_alone(read_word(word), rest))
        }
    }
}

/// Whether a line is empty or a remark.
fn is_silent(text: &[u8]) -> bool
    ensures { result ≡ is_silent text.now }
{
    text.is_empty() || text[0] == b'#'
}

/// The first word, and what follows it.
pub fn take_word(text: &[u8]) -> Option<(&[u8], &[u8])>
    ensures { MatchOption result (words text.now ≡ []) (λ r. words text.now ≡ r.0.now ∷ words r.1.now) }
{
    let start = word_start(text)?;
    let (_, text) = text.split_at(start);
    let end = word_end(text).unwrap_or(text.len());
    Some(text.split_at(end))
}

/// The place of the first byte that is no space.
fn word_start(text: &[u8]) -> Option<usize>
    ensures { result ≡ position (λ b. not (b == SPACE)) text.now }
{
    text.iter().position(|byte| *byte != SPACE)
}

/// The place of the first space.
fn word_end(text: &[u8]) -> Option<usize>
    ensures { result ≡ position (λ b. b == SPACE) text.now }
{
    text.iter().position(|byte| *byte == SPACE)
}

/// The line of a word that stands alone.
fn read_word(word: &[u8]) -> Line
    ensures { said_by result ≡ said_by_word word.now }
{
    if word == b"sync".as_slice() {
        Line::Sync
    } else if word == b"step".as_slice() {
        Line::Step
    } else if word == b"plan".as_slice() {
        Line::Plan
    } else if word == b"document".as_slice() {
        Line::Document
    } else {
        Line::Bad
    }
}

/// The line of a word that stands alone, with these words behind it.
fn read_alone(line: Line, rest: &[u8]) -> Line
    ensures { said_by result ≡ said_alone (said_by line) (words rest.now) }
{
    match take_word(rest) {
        None => line,
        Some(_) => Line::Bad,
    }
}

/// The line with these words behind `put`.
fn read_put(alloc: Global, rest: &[u8]) -> Result<Line, AllocError>
    ensures { IfOk result (λ line. said_by line ≡ said_put (words rest.now)) }
{
    let Some((id, rest)) = take_word(rest) else {
        return Ok(Line::Bad);
    };
    let Some((payload, rest)) = take_word(rest) else {
        return Ok(Line::Bad);
    };
    if take_word(rest).is_some() {
        return Ok(Line::Bad);
    }
    let Some(id) = read_id(id) else {
        return Ok(Line::Bad);
    };
    match read_payload(alloc, payload)? {
        Some(bytes) => Ok(Line::Put { id, bytes }),
        None => Ok(Line::Bad),
    }
}

/// The line with these words behind `get`.
fn read_get(rest: &[u8]) -> Line
    ensures { said_by result ≡ said_get (words rest.now) }
{
    match read_one_id(rest) {
        Some(id) => Line::Get { id },
        None => Line::Bad,
    }
}

/// The line with these words behind `del`.
fn read_delete(rest: &[u8]) -> Line
    ensures { said_by result ≡ said_delete (words rest.now) }
{
    match read_one_id(rest) {
        Some(id) => Line::Delete { id },
        None => Line::Bad,
    }
}

/// The line with these words behind `sweep`.
fn read_sweep(rest: &[u8]) -> Line
    ensures { said_by result ≡ said_sweep (words rest.now) }
{
    match read_one_number(rest) {
        Some(extent) => Line::Sweep { extent },
        None => Line::Bad,
    }
}

/// The number that these words are, where there is one word alone and it is one.
fn read_one_number(rest: &[u8]) -> Option<usize>
    ensures { result ≡ one_number (words rest.now) }
{
    let (number, rest) = take_word(rest)?;
    match take_word(rest) {
        None => read_number(number),
        Some(_) => None,
    }
}

/// The number that a word of decimal digits stands for, where it is below 2^64.
fn read_number(word: &[u8]) -> Option<usize>
    ensures { result ≡ decimal_of word.now }
{
    if !are_digits(word) {
        return None;
    }
    match str::from_utf8(word) {
        Ok(digits) => digits.parse().ok(),
        Err(_) => None,
    }
}

/// Whether all bytes are decimal digits.
fn are_digits(word: &[u8]) -> bool
    ensures { result ≡ list_all is_ascii_digit word.now }
{
    word.iter().all(|byte| byte.is_ascii_digit())
}

/// The identifier that these words are, where there is one word alone and it is one.
fn read_one_id(rest: &[u8]) -> Option<[u8; 16]>
    ensures { result ≡ one_id (words rest.now) }
{
    let (id, rest) = take_word(rest)?;
    match take_word(rest) {
        None => read_id(id),
        Some(_) => None,
    }
}

/// The identifier that a word stands for.
pub fn read_id(word: &[u8]) -> Option<[u8; 16]>
    ensures { result ≡ parsed word.now }
{
    match Uuid::try_parse_ascii(word) {
        Ok(id) => Some(id.into_bytes()),
        Err(_) => None,
    }
}

/// The bytes that a word of hex digits stands for, `-` for none.
fn read_payload(alloc: Global, word: &[u8]) -> Result<Option<Vec<u8>>, AllocError>
    ensures { IfOk result (λ found. option_map (λ bytes. bytes.items) found ≡ payload_of word.now) }
{
    if word == b"-".as_slice() {
        return Ok(Some(Vec::new(alloc)));
    }
    match hex::decode(alloc, word) {
        Ok(bytes) => Ok(Some(bytes)),
        Err(FromHexError::OutOfMemory) => Err(AllocError),
        Err(_) => Ok(None),
    }
}

/// The line with these words behind `crash`.
fn read_crash(alloc: Global, rest: &[u8]) -> Result<Line, AllocError>
    ensures { IfOk result (λ line. said_by line ≡ said_crash (words rest.now)) }
{
    let Some((digits, rest)) = take_word(rest) else {
        return Ok(Line::Bad);
    };
    if take_word(rest).is_some() {
        return Ok(Line::Bad);
    }
    match read_mask(alloc, digits)? {
        Some(mask) => Ok(Line::Crash { mask }),
        None => Ok(Line::Bad),
    }
}

/// The truth values that a word of binary digits stands for, `-` for none.
fn read_mask(alloc: Global, word: &[u8]) -> Result<Option<Vec<bool>>, AllocError>
    ensures { IfOk result (λ found. option_map (λ mask. mask.items) found ≡ mask_of word.now) }
{
    if word == b"-".as_slice() {
        return Ok(Some(Vec::new(alloc)));
    }
    if !are_binary(word) {
        return Ok(None);
    }
    let mask = truth_values(alloc, word)?;
    Ok(Some(mask))
}

/// Whether all bytes are binary digits.
pub fn are_binary(word: &[u8]) -> bool
    ensures { result ≡ list_all is_binary word.now }
{
    word.iter().all(|byte| *byte == b'0' || *byte == b'1')
}

/// For each byte whether it is the digit 1.
fn truth_values(alloc: Global, word: &[u8]) -> Result<Vec<bool>, AllocError>
    ensures { IfOk result (λ mask. mask.items ≡ map is_one word.now) }
{
    let mut mask = Vec::new(alloc);
    for byte in word {
        mask.push(*byte == b'1')?;
    }
    Ok(mask)
}
