//! What several commands print. Any write may fail, and nothing says when, so each of these may answer an error.
ghost use Rattle.std.specs.Prelude.{length, OnOk, ◌≤◌};
ghost use Rattle.std.specs.Io.KnownBytes.{Appends};
ghost use Rattle.hex.specs.Hex.{encode_lower};
ghost use Rattle.cs_advice.specs.Members.{number_text};
ghost use Rattle.cs_advice.specs.Outputs.{id_text, identity_text, payload_text, refusal_text};

use cs_frame::{ShardId, StoreId};
use cs_refusal::Refusal;
use std::io;
use std::io::Write;
use uuid::Uuid;

/// For whom is printed.
#[derive(Clone, Copy)]
pub enum Style {
    /// For a reader.
    Text,
    /// For a program: JSON objects, one a line.
    Json,
}

/// An identifier, as a UUID in lower case with hyphens.
pub fn print_id<W: Write>(writer: &mut W, id: ShardId) -> io::Result<()>
    ensures { OnOk result (Appends (W.contents writer.old) (W.contents writer.new) (id_text id)) }
{
    let name = Uuid::from_bytes(id.0).hyphenated();
    write!(writer, "{name}")
}

/// The identity of a store, as 32 hex digits.
pub fn print_identity<W: Write>(writer: &mut W, store: StoreId) -> io::Result<()>
    ensures { OnOk result (Appends (W.contents writer.old) (W.contents writer.new) (identity_text store.0)) }
{
    print_bytes(writer, &store.0)
}

/// `refused`, the number and the name of a refusal.
pub fn print_refusal<W: Write>(writer: &mut W, refusal: Refusal) -> io::Result<()>
    ensures { OnOk result (Appends (W.contents writer.old) (W.contents writer.new) (refusal_text refusal)) }
{
    let number = refusal.number();
    let name = refusal.name();
    write!(writer, "refused {number} {name}")
}

/// Two hex digits for each byte, a dash for none.
pub fn print_payload<W: Write>(writer: &mut W, bytes: &[u8]) -> io::Result<()>
    ensures { OnOk result (Appends (W.contents writer.old) (W.contents writer.new) (payload_text bytes.now)) }
{
    if bytes.is_empty() {
        return write!(writer, "-");
    }
    print_bytes(writer, bytes)
}

/// Two hex digits for each byte.
fn print_bytes<W: Write>(writer: &mut W, bytes: &[u8]) -> io::Result<()>
    ensures { OnOk result (Appends (W.contents writer.old) (W.contents writer.new) (encode_lower bytes.now)) }
{
    for piece in bytes.chunks(64) {
        print_piece(writer, piece)?;
    }
    Ok(())
}

/// Two hex digits for each of at most 64 bytes.
fn print_piece<W: Write>(writer: &mut W, bytes: &[u8]) -> io::Result<()>
    requires { length bytes.now ≤ 64 }
    ensures { OnOk result (Appends (W.contents writer.old) (W.contents writer.new) (encode_lower bytes.now)) }
{
    let mut digits = [0; 128];
    let digits = &mut digits[..2 * bytes.len()];
    match hex::encode_to_slice(bytes, digits) {
        Ok(()) => writer.write_all(digits),
        Err(_) => unreachable!(),
    }
}

/// A number after this text.
pub fn print_number<W: Write>(writer: &mut W, before: &str, number: u64) -> io::Result<()>
    ensures { OnOk result (Appends (W.contents writer.old) (W.contents writer.new) (number_text before.now number)) }
{
    write!(writer, "{before}{number}")
}
