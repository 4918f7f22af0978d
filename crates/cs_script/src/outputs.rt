//! The lines that a script prints. Any write may fail, and nothing says when, so each of these may answer an error.
ghost use Rattle.std.specs.Prelude.{◌≡◌, ◌⊎◌, OnOk, ◌≤◌, length};
ghost use Rattle.std.specs.Io.KnownBytes.{Appends};
ghost use Rattle.hex.specs.Hex.{encode_lower};
ghost use Rattle.cs_script.specs.Outputs.{absent_line, acknowledged_line, bad_line, begin_line, chain_line, crash_line, delete_line, element_name, element_names, end_line, flushes_line, idle_line, issue_line, open_line, optimal_line, put_line, refusal_line, round_line, swept_line, value_line};

use crate::letters::letter_of;
use cs_deps::Element;
use cs_refusal::Refusal;
use cs_writeback::Swept;
use std::io;
use std::io::Write;

/// `put n`.
pub fn print_put<W: Write>(writer: &mut W, number: u64) -> io::Result<()>
    ensures { OnOk result (Appends (W.contents writer.old) (W.contents writer.new) (put_line number)) }
{
    writeln!(writer, "put {number}")
}

/// `value` and the bytes in hex digits, lower case, or a dash for no byte.
pub fn print_value<W: Write>(writer: &mut W, bytes: &[u8]) -> io::Result<()>
    ensures { OnOk result (Appends (W.contents writer.old) (W.contents writer.new) (value_line bytes.now)) }
{
    if bytes.is_empty() {
        return writeln!(writer, "value -");
    }
    write!(writer, "value ")?;
    print_bytes(writer, bytes)?;
    writeln!(writer)
}

/// `absent`.
pub fn print_absent<W: Write>(writer: &mut W) -> io::Result<()>
    ensures { OnOk result (Appends (W.contents writer.old) (W.contents writer.new) absent_line) }
{
    writeln!(writer, "absent")
}

/// `del n`.
pub fn print_delete<W: Write>(writer: &mut W, number: u64) -> io::Result<()>
    ensures { OnOk result (Appends (W.contents writer.old) (W.contents writer.new) (delete_line number)) }
{
    writeln!(writer, "del {number}")
}

/// `sweep E moved k root rN`.
pub fn print_swept<W: Write>(writer: &mut W, extent: usize, swept: Swept) -> io::Result<()>
    ensures { OnOk result (Appends (W.contents writer.old) (W.contents writer.new) (swept_line extent swept.moved swept.root)) }
{
    let Swept { moved, root } = swept;
    writeln!(writer, "sweep {extent} moved {moved} root r{root}")
}

/// `bad line`.
pub fn print_bad_line<W: Write>(writer: &mut W) -> io::Result<()>
    ensures { OnOk result (Appends (W.contents writer.old) (W.contents writer.new) bad_line) }
{
    writeln!(writer, "bad line")
}

/// `crash kept k of v`.
pub fn print_crash<W: Write>(writer: &mut W, kept: usize, volatile: usize) -> io::Result<()>
    ensures { OnOk result (Appends (W.contents writer.old) (W.contents writer.new) (crash_line kept volatile)) }
{
    writeln!(writer, "crash kept {kept} of {volatile}")
}

/// `open commands n shards m`.
pub fn print_open<W: Write>(writer: &mut W, commands: u64, shards: usize) -> io::Result<()>
    ensures { OnOk result (Appends (W.contents writer.old) (W.contents writer.new) (open_line commands shards)) }
{
    writeln!(writer, "open commands {commands} shards {shards}")
}

/// `refused N Name`.
pub fn print_refusal<W: Write>(writer: &mut W, refusal: Refusal) -> io::Result<()>
    ensures { OnOk result (Appends (W.contents writer.old) (W.contents writer.new) (refusal_line refusal)) }
{
    let number = refusal.number();
    let name = refusal.name();
    writeln!(writer, "refused {number} {name}")
}

/// Prints as the last line why there is no store, and gives the exit status.
pub fn print_no_store<W: Write>(writer: &mut W, refusal: Refusal) -> u8
    ensures { ((result ≡ 3) × Appends (W.contents writer.old) (W.contents writer.new) (refusal_line refusal)) ⊎ (result ≡ 4) }
{
    match print_last(writer, refusal) {
        Ok(()) => cs_words::NO_STORE,
        Err(_) => cs_words::STREAM,
    }
}

/// Prints a refusal as the last line. Where that doesn't reach the output, it ends with the writer's error.
pub fn print_last<W: Write>(writer: &mut W, refusal: Refusal) -> io::Result<()>
    ensures { OnOk result (Appends (W.contents writer.old) (W.contents writer.new) (refusal_line refusal)) }
{
    print_refusal(writer, refusal)?;
    writer.flush()
}

/// `end acknowledged n`.
pub fn print_end<W: Write>(writer: &mut W, number: u64) -> io::Result<()>
    ensures { OnOk result (Appends (W.contents writer.old) (W.contents writer.new) (end_line number)) }
{
    writeln!(writer, "end acknowledged {number}")
}

/// `begin:` and the elements of the round that begins.
pub fn print_begin<W: Write>(writer: &mut W, round: &[Element]) -> io::Result<()>
    ensures { OnOk result (Appends (W.contents writer.old) (W.contents writer.new) (begin_line round.now)) }
{
    write!(writer, "begin:")?;
    print_elements(writer, round)?;
    writeln!(writer)
}

/// `issue`, the element and the page that it was written to.
pub fn print_issue<W: Write>(writer: &mut W, element: Element, page: u64) -> io::Result<()>
    ensures { OnOk result (Appends (W.contents writer.old) (W.contents writer.new) (issue_line element page)) }
{
    write!(writer, "issue ")?;
    print_element(writer, element)?;
    writeln!(writer, " page {page}")
}

/// `idle`.
pub fn print_idle<W: Write>(writer: &mut W) -> io::Result<()>
    ensures { OnOk result (Appends (W.contents writer.old) (W.contents writer.new) idle_line) }
{
    writeln!(writer, "idle")
}

/// `round i:` and its elements.
pub fn print_round<W: Write>(writer: &mut W, index: usize, round: &[Element]) -> io::Result<()>
    ensures { OnOk result (Appends (W.contents writer.old) (W.contents writer.new) (round_line index round.now)) }
{
    write!(writer, "round {index}:")?;
    print_elements(writer, round)?;
    writeln!(writer)
}

/// `chain:` and its elements, or a dash.
pub fn print_chain<W: Write>(writer: &mut W, chain: &[Element]) -> io::Result<()>
    ensures { OnOk result (Appends (W.contents writer.old) (W.contents writer.new) (chain_line chain.now)) }
{
    if chain.is_empty() {
        return writeln!(writer, "chain: -");
    }
    write!(writer, "chain:")?;
    print_elements(writer, chain)?;
    writeln!(writer)
}

/// `flushes n`.
pub fn print_flushes<W: Write>(writer: &mut W, number: usize) -> io::Result<()>
    ensures { OnOk result (Appends (W.contents writer.old) (W.contents writer.new) (flushes_line number)) }
{
    writeln!(writer, "flushes {number}")
}

/// `acknowledged n`.
pub fn print_acknowledged<W: Write>(writer: &mut W, number: u64) -> io::Result<()>
    ensures { OnOk result (Appends (W.contents writer.old) (W.contents writer.new) (acknowledged_line number)) }
{
    writeln!(writer, "acknowledged {number}")
}

/// `optimal n`.
pub fn print_optimal<W: Write>(writer: &mut W, flushes: usize) -> io::Result<()>
    ensures { OnOk result (Appends (W.contents writer.old) (W.contents writer.new) (optimal_line flushes)) }
{
    writeln!(writer, "optimal {flushes}")
}

/// Two hex digits for each byte.
fn print_bytes<W: Write>(writer: &mut W, bytes: &[u8]) -> io::Result<()>
    ensures { OnOk result (Appends (W.contents writer.old) (W.contents writer.new) (encode_lower bytes.now)) }
{
    for piece in bytes.chunks(64) {
        print_piece(writer, piece)?;
    }
    Ok(())
}

/// Two hex digits for each of at most 64 bytes.
fn print_piece<W: Write>(writer: &mut W, bytes: &[u8]) -> io::Result<()>
    requires { length bytes.now ≤ 64 }
    ensures { OnOk result (Appends (W.contents writer.old) (W.contents writer.new) (encode_lower bytes.now)) }
{
    let mut digits = [0; 128];
    let digits = &mut digits[..2 * bytes.len()];
    match hex::encode_to_slice(bytes, digits) {
        Ok(()) => writer.write_all(digits),
        Err(_) => unreachable!(),
    }
}

/// A space and a name for each element.
fn print_elements<W: Write>(writer: &mut W, elements: &[Element]) -> io::Result<()>
    ensures { OnOk result (Appends (W.contents writer.old) (W.contents writer.new) (element_names elements.now)) }
{
    for element in elements {
        write!(writer, " ")?;
        print_element(writer, *element)?;
    }
    Ok(())
}

/// The name of an element: `w` for a plain write, or the letter of a family, and its number.
fn print_element<W: Write>(writer: &mut W, element: Element) -> io::Result<()>
    ensures { OnOk result (Appends (W.contents writer.old) (W.contents writer.new) (element_name element)) }
{
    match element {
        Element::Plain(number) => write!(writer, "w{number}"),
        Element::Version(family, version) => {
            let letter = letter_of(family);
            write!(writer, "{letter}{version}")
        }
    }
}
