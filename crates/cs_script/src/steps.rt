//! The line `step`. Where the writer fails, it ends with that error.
ghost use Rattle.std.specs.Prelude.{◌≡◌, ℕ, List, IfOk};
ghost use Rattle.std.specs.Io.KnownBytes.{Appends};
ghost use Rattle.cs_writeback.specs.Rounds.{step_event};
ghost use Rattle.cs_script.specs.Lines.{says_step};
ghost use Rattle.cs_script.specs.Scripts.{AnswersSo};

use crate::answers::{Answer, given, print_refused};
use crate::outputs::{print_begin, print_end, print_idle, print_issue};
use cs_disk::PageDisk;
use cs_writeback::ask;
use cs_writeback::the_core::{Core, Event, Reply};
use std::io;
use std::io::Write;

/// Makes one event of writeback and prints what it did: the next member of the round that is out is issued, or the
/// round ends where all are, or a round begins where none is out.
pub fn step<D: PageDisk, W: Write>(core: &mut Core<D>, writer: &mut W) -> io::Result<Answer>
    ensures { IfOk result (λ answer. (out : List ℕ) × AnswersSo D.PageDisk says_step answer core.old core.new out × Appends (W.contents writer.old) (W.contents writer.new) out) }
{
    let event = next_event(core);
    match ask(core, &event) {
        Ok(Reply::Issued(element, page)) => given(print_issue(writer, element, page)),
        Ok(Reply::Ended(frontier)) => given(print_end(writer, frontier)),
        Ok(Reply::Begun(round)) => given(print_begin(writer, round.as_slice())),
        Ok(Reply::Nothing) => given(print_idle(writer)),
        Ok(_) => unreachable!(),
        Err(refusal) => print_refused(writer, refusal),
    }
}

/// The event of writeback that is due.
fn next_event<D: PageDisk>(core: &Core<D>) -> Event
    ensures { result ≡ step_event core.now.store }
{
    match core.round() {
        Some((members, issued)) => {
            if issued < members.len() {
                Event::Issue
            } else {
                Event::End
            }
        }
        None => Event::Begin,
    }
}
