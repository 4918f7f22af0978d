//! The command `graph`.
ghost use Rattle.std.specs.Prelude.{◌≡◌, ◌⊎◌, ℕ, IfErr, IfOk, List, OnOk, Some};
ghost use Rattle.std.specs.Io.KnownBytes.{Appends};
ghost use Rattle.serde_json.specs.Data.{Data};
ghost use Rattle.serde_json.specs.Read.{read};
ghost use Rattle.cs_check.specs.Documents.{IsDocumentOf};
ghost use Rattle.cs_check.specs.Faults.{Blames};
ghost use Rattle.cs_check.specs.Names.{AreLetters};
ghost use Rattle.cs_deps.specs.View.{pending_of, rounds_of};
ghost use Rattle.cs_refusal.specs.declared.refusals.Refusal.{Refusal as Why};
ghost use Rattle.cs_picture.specs.Picture.{picture};
ghost use Rattle.cs_tools.specs.Graphs.{IsDocumentText, IsPictureOf};
ghost use Rattle.cs_advice.specs.declared.outcomes.Outcome.TheVariants.{Done, Failed, Refused};

use cs_advice::Outcome;
use cs_check::{CheckFault, Document, from_document};
use cs_picture::draw;
use cs_refusal::Refusal;
use std::alloc::Global;
use std::io::{Read, Write};
use std::{io, str};

/// Reads a plan document, and writes its picture, a graph in the language of Graphviz.
pub fn graph<R: Read + Drop, W: Write>(alloc: Global, reader: R, writer: &mut W) -> Outcome
    // What is written is the picture of the text that was read.
    ensures drawn { (text : List ℕ) → R.remaining reader ≡ Some text → result ≡ Done
        → (drawn : List ℕ) × IsPictureOf text drawn × Appends (W.contents writer.old) (W.contents writer.new) drawn }
    // A text that is refused as no document isn't UTF-8, or isn't one.
    ensures bad { (text : List ℕ) → R.remaining reader ≡ Some text → result ≡ Refused Refusal.BadDocument → ¬ IsDocumentText text }
    ensures ends { (result ≡ Done) ⊎ (result ≡ Refused Refusal.OutOfMemory) ⊎ (result ≡ Refused Refusal.BadDocument) ⊎ (result ≡ Failed) }
    // Where it is refused nothing was written.
    ensures untouched { (r : Why) → result ≡ Refused r → writer.new ≡ writer.old }
{
    match read_all(alloc, reader) {
        Ok(text) => draw_text(alloc, &text, writer),
        Err(_) => Outcome::Failed,
    }
}

/// What the reader gives.
fn read_all<R: Read + Drop>(alloc: Global, reader: R) -> io::Result<Vec<u8>>
    ensures { (text : List ℕ) → R.remaining reader ≡ Some text → IfOk result (λ bytes. bytes.items ≡ text) }
{
    let mut reader = reader;
    let mut text = Vec::new(alloc);
    reader.read_to_end(&mut text)?;
    Ok(text)
}

/// Writes the picture of the document that these bytes are the UTF-8 text of.
fn draw_text<W: Write>(alloc: Global, text: &[u8], writer: &mut W) -> Outcome
    ensures drawn { result ≡ Done → (drawn : List ℕ) × IsPictureOf text.now drawn × Appends (W.contents writer.old) (W.contents writer.new) drawn }
    ensures bad { result ≡ Refused Refusal.BadDocument → ¬ IsDocumentText text.now }
    ensures ends { (result ≡ Done) ⊎ (result ≡ Refused Refusal.OutOfMemory) ⊎ (result ≡ Refused Refusal.BadDocument) ⊎ (result ≡ Failed) }
    ensures untouched { (r : Why) → result ≡ Refused r → writer.new ≡ writer.old }
{
    match document_of(alloc, text) {
        Ok(document) => draw_document(&document, writer),
        Err(fault) => Outcome::Refused(Refusal::from(fault)),
    }
}

/// The document that these bytes are the UTF-8 text of.
fn document_of(alloc: Global, text: &[u8]) -> Result<Document, CheckFault>
    ensures letters { IfOk result (λ document. AreLetters document.letters.items) }
    ensures says { IfOk result (λ doc. (d : Data) × (read text.now ≡ Some d) × IsDocumentOf d doc.letters.items (pending_of doc.view) doc.target (rounds_of doc.plan) doc.plan.chain.items) }
    ensures bad { IfErr result (λ fault. Blames fault (IsDocumentText text.now)) }
{
    match str::from_utf8(text) {
        Ok(text) => from_document(alloc, text),
        Err(_) => Err(CheckFault::BadDocument),
    }
}

/// Writes the picture of a document.
fn draw_document<W: Write>(document: &Document, writer: &mut W) -> Outcome
    requires { AreLetters document.now.letters.items }
    ensures { ((result ≡ Done) × Appends (W.contents writer.old) (W.contents writer.new)
        (picture document.now.letters.items document.now.view.waiting.items document.now.target (rounds_of document.now.plan) document.now.plan.chain.items))
        ⊎ (result ≡ Failed) }
{
    match draw_and_flush(document, writer) {
        Ok(()) => Outcome::Done,
        Err(_) => Outcome::Failed,
    }
}

/// The same, with the writer's error.
fn draw_and_flush<W: Write>(document: &Document, writer: &mut W) -> io::Result<()>
    requires { AreLetters document.now.letters.items }
    ensures { OnOk result (Appends (W.contents writer.old) (W.contents writer.new)
        (picture document.now.letters.items document.now.view.waiting.items document.now.target (rounds_of document.now.plan) document.now.plan.chain.items)) }
{
    draw(writer, document)?;
    writer.flush()
}
