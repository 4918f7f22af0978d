//! Requests and replies as bytes. Each of these calls appends. If memory runs out, part of the bytes may have been
//! appended.
ghost use Rattle.std.specs.Prelude.{◌≡◌, ◌++◌, OnOk};
ghost use Rattle.std.specs.List.{flat_map};
ghost use Rattle.cs_resp.specs.Spelling.{spelled_bulk, spelled_count, spelled_request, texts};
ghost use Rattle.cs_resp.specs.Replies.{blank, spelled_element, spelled_elements, spelled_integer, spelled_item, spelled_items, spelled_line, spelled_null, spelled_reply};

use crate::replies::{Element, Item, Reply};
use itoa::Buffer;
use std::alloc::AllocError;

/// Appends a request of these arguments.
pub fn spell_request(out: &mut Vec<u8>, request: &[Vec<u8>]) -> Result<(), AllocError>
    ensures { OnOk result (out.new.items ≡ out.old.items ++ spelled_request (texts request.now)) }
{
    spell_array(out, request.len())?;
    for argument in request {
        spell_bulk(out, argument)?;
    }
    Ok(())
}

/// Appends a reply.
pub fn spell_reply(out: &mut Vec<u8>, reply: &Reply) -> Result<(), AllocError>
    ensures { OnOk result (out.new.items ≡ out.old.items ++ spelled_reply reply.now) }
{
    match reply {
        Reply::One(item) => spell_item(out, item),
        Reply::Array(elements) => spell_elements(out, elements),
    }
}

/// Appends an array.
fn spell_elements(out: &mut Vec<u8>, elements: &[Element]) -> Result<(), AllocError>
    ensures { OnOk result (out.new.items ≡ out.old.items ++ spelled_elements elements.now) }
{
    spell_array(out, elements.len())?;
    for element in elements {
        spell_element(out, element)?;
    }
    Ok(())
}

/// Appends an element of an array.
fn spell_element(out: &mut Vec<u8>, element: &Element) -> Result<(), AllocError>
    ensures { OnOk result (out.new.items ≡ out.old.items ++ spelled_element element.now) }
{
    match element {
        Element::One(item) => spell_item(out, item),
        Element::Array(items) => spell_items(out, items),
    }
}

/// Appends an array of what isn't an array.
fn spell_items(out: &mut Vec<u8>, items: &[Item]) -> Result<(), AllocError>
    ensures { OnOk result (out.new.items ≡ out.old.items ++ spelled_items items.now) }
{
    spell_array(out, items.len())?;
    for item in items {
        spell_item(out, item)?;
    }
    Ok(())
}

/// Appends what isn't an array.
fn spell_item(out: &mut Vec<u8>, item: &Item) -> Result<(), AllocError>
    ensures { OnOk result (out.new.items ≡ out.old.items ++ spelled_item item.now) }
{
    match item {
        Item::Simple(text) => spell_simple(out, text),
        Item::Error(text) => spell_error(out, text),
        Item::Integer(n) => spell_integer(out, *n),
        Item::Bulk(bytes) => spell_bulk(out, bytes),
        Item::Null => spell_null(out),
    }
}

/// Appends the beginning of an array of so many elements, which are to follow.
pub fn spell_array(out: &mut Vec<u8>, count: usize) -> Result<(), AllocError>
    ensures { OnOk result (out.new.items ≡ out.old.items ++ spelled_count 42 count) }
{
    spell_count(out, b'*', count)
}

/// Appends a line of text. CR and LF, which would end it, become spaces.
pub fn spell_simple(out: &mut Vec<u8>, text: &[u8]) -> Result<(), AllocError>
    ensures { OnOk result (out.new.items ≡ out.old.items ++ spelled_line 43 text.now) }
{
    spell_line(out, b'+', text)
}

/// Appends a line of text that says why a request was refused. CR and LF, which would end it, become spaces.
pub fn spell_error(out: &mut Vec<u8>, text: &[u8]) -> Result<(), AllocError>
    ensures { OnOk result (out.new.items ≡ out.old.items ++ spelled_line 45 text.now) }
{
    spell_line(out, b'-', text)
}

/// Appends a number.
pub fn spell_integer(out: &mut Vec<u8>, number: i64) -> Result<(), AllocError>
    ensures { OnOk result (out.new.items ≡ out.old.items ++ spelled_integer number) }
{
    let mut buffer = Buffer::new();
    out.push(b':')?;
    out.extend_from_slice(buffer.format(number).as_bytes())?;
    out.extend_from_slice(b"\r\n")
}

/// Appends a bulk string.
pub fn spell_bulk(out: &mut Vec<u8>, bytes: &[u8]) -> Result<(), AllocError>
    ensures { OnOk result (out.new.items ≡ out.old.items ++ spelled_bulk bytes.now) }
{
    spell_count(out, b'$', bytes.len())?;
    out.extend_from_slice(bytes)?;
    out.extend_from_slice(b"\r\n")
}

/// Appends a bulk string that isn't there.
pub fn spell_null(out: &mut Vec<u8>) -> Result<(), AllocError>
    ensures { OnOk result (out.new.items ≡ out.old.items ++ spelled_null) }
{
    out.extend_from_slice(b"$-1\r\n")
}

/// Appends a sign, a number and a line break.
fn spell_count(out: &mut Vec<u8>, sign: u8, count: usize) -> Result<(), AllocError>
    ensures { OnOk result (out.new.items ≡ out.old.items ++ spelled_count sign count) }
{
    let mut buffer = Buffer::new();
    out.push(sign)?;
    out.extend_from_slice(buffer.format(count).as_bytes())?;
    out.extend_from_slice(b"\r\n")
}

/// Appends a sign, a text and a line break.
fn spell_line(out: &mut Vec<u8>, sign: u8, text: &[u8]) -> Result<(), AllocError>
    ensures { OnOk result (out.new.items ≡ out.old.items ++ spelled_line sign text.now) }
{
    out.push(sign)?;
    for byte in text {
        out.push(blank(*byte))?;
    }
    out.extend_from_slice(b"\r\n")
}

/// A byte of a line.
fn blank(byte: u8) -> u8
    ensures { result ≡ blank byte }
{
    if byte == b'\r' || byte == b'\n' {
        b' '
    } else {
        byte
    }
}
