//! The line `sweep`. Where the writer fails, it ends with that error.
ghost use Rattle.std.specs.Prelude.{ℕ, List, IfOk};
ghost use Rattle.std.specs.Io.KnownBytes.{Appends};
ghost use Rattle.cs_script.specs.Lines.{says_sweep};
ghost use Rattle.cs_script.specs.Scripts.{AnswersSo};

use crate::answers::{Answer, given, print_refused};
use crate::outputs::print_swept;
use cs_disk::PageDisk;
use cs_writeback::sweep as sweep_extent;
use cs_writeback::the_core::Core;
use std::io;
use std::io::Write;

/// Moves what is live on an extent, retires it, and prints how many chunks were moved and under which root. A sweep
/// that is refused after it began is abandoned: what was copied counts where it lay (in format 2 it stays where it was
/// moved to).
pub fn sweep<D: PageDisk, W: Write>(
    core: &mut Core<D>,
    extent: usize,
    writer: &mut W,
) -> io::Result<Answer>
    ensures { IfOk result (λ answer. (out : List ℕ) × AnswersSo D.PageDisk (says_sweep extent) answer core.old core.new out × Appends (W.contents writer.old) (W.contents writer.new) out) }
{
    match sweep_extent(core, extent) {
        Ok(swept) => given(print_swept(writer, extent, swept)),
        Err(refusal) => print_refused(writer, refusal),
    }
}
