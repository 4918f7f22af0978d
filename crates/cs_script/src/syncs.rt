//! The line `sync`. Where the writer fails, it ends with that error.
ghost use Rattle.std.specs.Prelude.{◌++◌, ℕ, List, Option, IfErr, IfOk, OnOk};
ghost use Rattle.std.specs.Io.KnownBytes.{Appends};
ghost use Rattle.cs_writeback.specs.Rounds.{Finishes};
ghost use Rattle.cs_script.specs.Lines.{says_sync};
ghost use Rattle.cs_script.specs.Outputs.{acknowledged_line, chain_line, end_lines, flushes_line, round_line};
ghost use Rattle.cs_script.specs.Scripts.{AnswersSo, PrintsSync};
ghost use Rattle.cs_script.specs.Stops.{StopsAfter, StopsAtFirst};

use crate::answers::{Answer, print_refused};
use crate::outputs::{print_acknowledged, print_chain, print_end, print_flushes, print_round};
use crate::plan_lines::plan_all;
use cs_deps::Element;
use cs_disk::PageDisk;
use cs_writeback::the_core::{Core, Event};
use cs_writeback::{Observer, Stop, ask, end_round, write_rounds};
use std::io;
use std::io::Write;

/// Prints each round as it ends.
struct Printed;

impl<W: Write> Observer<W> for Printed {
    type Error = io::Error;

    ghost tells = { λ before number round after. Appends (W.contents before) (W.contents after) (round_line number round) };

    fn tell(writer: &mut W, number: usize, round: &[Element]) -> io::Result<()> {
        print_round(writer, number, round)
    }
}

/// Makes all accepted commands persistent, and prints each round as it ends.
pub fn sync<D: PageDisk, W: Write>(core: &mut Core<D>, writer: &mut W) -> io::Result<Answer>
    ensures { IfOk result (λ answer. (out : List ℕ) × AnswersSo D.PageDisk says_sync answer core.old core.new out × Appends (W.contents writer.old) (W.contents writer.new) out) }
{
    match write_back(core, writer) {
        Ok(()) => Ok(Answer::Given),
        Err(Stop::Refused(refusal)) => print_refused(writer, refusal),
        Err(Stop::Untold(error)) => Err(error),
    }
}

/// The events of a `sync`.
fn write_back<D: PageDisk, W: Write>(
    core: &mut Core<D>,
    writer: &mut W,
) -> Result<(), Stop<io::Error>>
    ensures done { OnOk result ((out : List ℕ) × PrintsSync D.PageDisk core.old core.new out × Appends (W.contents writer.old) (W.contents writer.new) out) }
    ensures stopped { IfErr result (StopsAfter D.PageDisk core.old core.new (W.contents writer.old) (W.contents writer.new)) }
{
    finish(core, writer)?;
    ask(core, &Event::Stage)?;
    // For its chain alone: the rounds are taken one by one, and together they are this plan's.
    let plan = plan_all(core)?;
    let flushes = write_rounds::<D, W, Printed>(core, writer)?;
    print_written(writer, &plan.chain, flushes, core.frontier()).map_err(Stop::Untold)
}

/// Ends the round that is out, if there is one, and prints how many commands are persistent then.
fn finish<D: PageDisk, W: Write>(core: &mut Core<D>, writer: &mut W) -> Result<(), Stop<io::Error>>
    ensures done { OnOk result ((finished : Option ℕ) × Finishes D.PageDisk core.old finished core.new × Appends (W.contents writer.old) (W.contents writer.new) (end_lines finished)) }
    ensures stopped { IfErr result (StopsAtFirst D.PageDisk core.old core.new (W.contents writer.old) (W.contents writer.new)) }
{
    match end_round(core)? {
        Some(frontier) => print_end(writer, frontier).map_err(Stop::Untold),
        None => Ok(()),
    }
}

/// The lines at the end of a `sync`.
fn print_written<W: Write>(
    writer: &mut W,
    chain: &[Element],
    flushes: usize,
    acknowledged: u64,
) -> io::Result<()>
    ensures { OnOk result (Appends (W.contents writer.old) (W.contents writer.new) (chain_line chain.now ++ flushes_line flushes ++ acknowledged_line acknowledged)) }
{
    print_chain(writer, chain)?;
    print_flushes(writer, flushes)?;
    print_acknowledged(writer, acknowledged)
}
