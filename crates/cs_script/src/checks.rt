//! The check of a plan document. Where the writer fails, it ends with that error.
ghost use Rattle.std.specs.Prelude.{◌≡◌, ◌≤◌, ◌<◌, ◌⊎◌, ℕ, List, IfOk, IfErr, Some};
ghost use Rattle.std.specs.Io.KnownBytes.{Appends};
ghost use Rattle.cs_deps.specs.View.{pending_of, rounds_of};
ghost use Rattle.cs_check.specs.Listing.{IsWellFormed};
ghost use Rattle.cs_script.specs.Checks.{Checks, IsFaulty, IsOptimal, Reports, SaysPlan};

use crate::bounded_readers::{BoundedReader, READS};
use crate::outputs::{print_optimal, print_refusal};
use cs_check::{CheckFault, Document, Verdict, check, from_document};
use cs_refusal::Refusal;
use std::alloc::Global;
use std::io::{Read, Write};
use std::{io, str};

/// Reads a plan document to its end, prints `optimal` and the number of its plan's flushes, or why it is refused, and
/// gives the exit status: 0, 1 where it is refused, 4 where the reader or the writer failed, the input didn't end, or
/// its text found no memory. The reader is read at most 4,294,967,296 times.
pub fn run_check<R: Read + Drop, W: Write>(alloc: Global, reader: R, writer: &mut W) -> u8
    // What is printed, and the status, are those of a check of the text.
    ensures check { (text : List ℕ) → R.remaining reader ≡ Some text → result < 4 → (out : List ℕ) × Checks text result out × Appends (W.contents writer.old) (W.contents writer.new) out }

    ensures status { (result ≤ 1) ⊎ (result ≡ 4) }
{
    let mut text = Vec::new(alloc);
    let mut reader = BoundedReader::new(reader, READS);
    let Ok(_) = reader.read_to_end(&mut text) else {
        return cs_words::STREAM;
    };
    match answer_check(alloc, &text, writer) {
        Ok(status) => status,
        Err(_) => cs_words::STREAM,
    }
}

/// Checks the text of a plan document, prints what was found, and gives the exit status.
fn answer_check<W: Write>(alloc: Global, text: &[u8], writer: &mut W) -> io::Result<u8>
    ensures check { IfOk result (λ status. (out : List ℕ) × Checks text.now status out × Appends (W.contents writer.old) (W.contents writer.new) out) }
    ensures status { IfOk result (λ status. status ≤ 1) }
{
    let status = print_check(writer, check_text(alloc, text))?;
    writer.flush()?;
    Ok(status)
}

/// Prints what a check found, and gives the exit status.
fn print_check<W: Write>(writer: &mut W, found: Result<Verdict, CheckFault>) -> io::Result<u8>
    ensures { IfOk result (λ status. (out : List ℕ) × Reports found status out × Appends (W.contents writer.old) (W.contents writer.new) out) }
{
    match found {
        Ok(verdict) => {
            print_optimal(writer, verdict.flushes)?;
            Ok(cs_words::DONE)
        }
        Err(fault) => {
            print_refusal(writer, Refusal::from(fault))?;
            Ok(cs_words::REFUSED)
        }
    }
}

/// Checks the text of a plan document.
///
/// Refused as `check` and `from_document` do, 10 BadDocument too where the text isn't UTF-8.
pub fn check_text(alloc: Global, text: &[u8]) -> Result<Verdict, CheckFault>
    ensures optimal { IfOk result (λ verdict. IsOptimal text.now verdict.flushes) }
    ensures faulty { IfErr result (λ fault. IsFaulty text.now fault) }
{
    let document = read_document(alloc, text)?;
    check(alloc, &document.view, &document.target, &document.plan)
}

/// The document that these bytes are the UTF-8 text of.
///
/// Refused 10 BadDocument where there is none, and 9 OutOfMemory.
fn read_document(alloc: Global, bytes: &[u8]) -> Result<Document, CheckFault>
    ensures says { IfOk result (λ doc. SaysPlan bytes.now (pending_of doc.view) doc.target (rounds_of doc.plan) doc.plan.chain.items) }
    ensures well_formed { IfOk result (λ doc. IsWellFormed (pending_of doc.view) doc.target (rounds_of doc.plan) doc.plan.chain.items) }
    ensures faulty { IfErr result (λ fault. IsFaulty bytes.now fault) }
{
    match str::from_utf8(bytes) {
        Ok(text) => from_document(alloc, text),
        Err(_) => Err(CheckFault::BadDocument),
    }
}
