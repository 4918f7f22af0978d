//! The line `document`. Where the writer fails, it ends with that error.
ghost use Rattle.std.specs.Prelude.{ℕ, List, IfErr, IfOk, string_bytes};
ghost use Rattle.std.specs.Io.KnownBytes.{Appends};
ghost use Rattle.cs_script.specs.Lines.{says_document};
ghost use Rattle.cs_script.specs.Outputs.{line_of};
ghost use Rattle.cs_script.specs.Scripts.{AnswersSo, Documents, IsDocumentRefused};

use crate::answers::{Answer, given, print_refused};
use crate::letters::letters_of;
use crate::plan_lines::plan_all;
use cs_check::to_document;
use cs_disk::PageDisk;
use cs_refusal::Refusal;
use cs_writeback::the_core::Core;
use std::alloc::Global;
use std::io;
use std::io::Write;

/// Prints the plan document of all that waits as one line. It stages nothing.
pub fn document<D: PageDisk, W: Write>(
    alloc: Global,
    core: &Core<D>,
    writer: &mut W,
) -> io::Result<Answer>
    ensures { IfOk result (λ answer. (out : List ℕ) × AnswersSo D.PageDisk says_document answer core.now core.now out × Appends (W.contents writer.old) (W.contents writer.new) out) }
{
    match document_of(alloc, core) {
        Ok(text) => given(writeln!(writer, "{text}")),
        Err(refusal) => print_refused(writer, refusal),
    }
}

/// The text of the plan document of all that waits. Refused 5 InFlight where a round is out, 9 OutOfMemory, and 10
/// BadDocument where what waits can't be written.
fn document_of<D: PageDisk>(alloc: Global, core: &Core<D>) -> Result<String, Refusal>
    ensures text { IfOk result (λ text. Documents core.now.store (line_of (string_bytes text))) }
    ensures refused { IfErr result (λ refusal. IsDocumentRefused core.now.store refusal) }
{
    if core.round().is_some() {
        return Err(Refusal::InFlight);
    }
    let plan = plan_all(core)?;
    let view = core.view()?;
    let target = core.everything()?;
    let letters = letters_of(&view);
    match to_document(alloc, &view, &target, &plan, letters) {
        Ok(text) => Ok(text),
        Err(fault) => Err(Refusal::from(fault)),
    }
}
