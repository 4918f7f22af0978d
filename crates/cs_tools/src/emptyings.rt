//! The steps of the command `reclaim`, except in formats 1 and 2: each empties an extent, or passes over one.
ghost use Rattle.std.specs.Prelude.{◌≡◌, ◌⊎◌, ◌<◌, ℕ, IfErr, IfOk, Ok, OnOk, false, length, true, vec_capacity, vec_len};
ghost use Rattle.std.specs.Io.KnownBytes.{Appends};
ghost use Rattle.cs_inspect.specs.Choices.{ReadsOn};
ghost use Rattle.cs_inspect.specs.Past.{is_of_chunk};
ghost use Rattle.cs_writeback.specs.Sweeps.{MayRefuseSweep};
ghost use Rattle.cs_writeback.specs.Syncs.{StopsSync, Syncs};
ghost use Rattle.cs_tools.specs.Aims.{IsSettled};
ghost use Rattle.cs_tools.specs.Headers.{IsLeft};
ghost use Rattle.cs_tools.specs.Reclaims.{DoesOne, EmptiesPast, HandlesExtent, IfRefused, IsPersistent, MayStop, StopsEmptying, StopsLater, StopsNext, Tidies, Tries, WhetherFound, passed_line, passed_members};
ghost use Rattle.cs_advice.specs.declared.outputs.Style.TheVariants.{Json, Text};
ghost use Rattle.cs_tools.specs.declared.emptyings.Sought.TheVariants.{Found, Nothing};
ghost use Rattle.cs_tools.specs.declared.emptyings.Tried.TheVariants.{GivenUp};
ghost use Rattle.cs_tools.specs.declared.reclaim_command.Stop.TheVariants.{Refused as StopRefused};

use crate::aims::{Aim, most_emptied};
use crate::headers::look_over;
use crate::reclaim_command::{Emptied, Left, Stop, print_emptied, printed, sync_all};
use crate::seeks::{Next, next_for};
use cs_advice::{Style, print_refusal};
use cs_disk::PageDisk;
use cs_inspect::{Choice, is_of_chunk};
use cs_refusal::Refusal;
use cs_store::mount::the_core::Core;
use cs_writeback::{make_room, sweep};
use std::alloc::Global;
use std::io;
use std::io::Write;

/// What came of seeking an extent to empty.
#[derive(Clone, Copy)]
enum Sought {
    /// One was chosen, and it was emptied or passed over.
    Found,
    /// Nothing more is to be emptied. So many headers couldn't be read.
    Nothing { unreadable: usize },
}

/// What came of sweeping an extent.
#[derive(Clone, Copy)]
enum Tried {
    /// So many chunks were moved off it, and it is empty.
    Emptied { moved: usize },
    /// The sweep was refused so, which tells of a chunk.
    GivenUp(Refusal),
}

/// Empties the extent that is chosen, or passes over it, until nothing more is to be emptied, or until as many were
/// emptied or passed over as may be. It returns what is left then.
pub fn empty_by_choice<D: PageDisk, W: Write>(
    alloc: Global,
    core: &mut Core<D>,
    aim: Aim,
    style: Style,
    writer: &mut W,
) -> Result<Left, Stop>
    ensures kept { D.honest core.old.disk → OnOk result (IsPersistent core.new ⊎ ReadsOn D.PageDisk core.old core.new) }
    ensures all { IfOk result (λ left. EmptiesPast D.PageDisk aim style left.passed_over core.old core.new (W.contents writer.old) (W.contents writer.new)) }
    ensures stopped { IfErr result (λ stop. IfRefused stop (StopsLater D.PageDisk aim style core.old core.new (W.contents writer.old) (W.contents writer.new))) }
    ensures left { IfOk result (λ left. IsLeft D.PageDisk left.unreadable core.new) }
    ensures refusals { IfErr result MayStop }
    ensures tidies { Tidies D.PageDisk core.old core.new }
{
    let most = most_emptied(core.extents(), aim);
    let mut passed: Vec<usize> = Vec::new(alloc);
    for _ in 0..most {
        let sought = empty_next(alloc, core, aim, &mut passed, style, writer)?;
        match sought {
            Sought::Found => {}
            Sought::Nothing { unreadable } => {
                return Ok(Left {
                    unreadable,
                    passed_over: passed.len(),
                });
            }
        }
    }
    look_again(alloc, core, &passed)
}

/// How many headers can't be read, and how many extents were passed over.
fn look_again<D: PageDisk>(
    alloc: Global,
    core: &mut Core<D>,
    passed: &[usize],
) -> Result<Left, Stop>
    ensures left { IfOk result (λ left. IsLeft D.PageDisk left.unreadable core.new × (left.passed_over ≡ length passed.now)) }
    ensures reads { ReadsOn D.PageDisk core.old core.new }
    ensures memory { IfErr result (λ stop. stop ≡ StopRefused Refusal.OutOfMemory) }
    ensures refusals { IfErr result MayStop }
    ensures tidies { Tidies D.PageDisk core.old core.new }
{
    // Called for its contract alone: what a crash leaves now.
    core.progress();
    match look_over(alloc, core, passed) {
        Ok(survey) => Ok(Left {
            unreadable: survey.unreadable,
            passed_over: passed.len(),
        }),
        Err(_) => Err(Stop::Refused(Refusal::OutOfMemory)),
    }
}

/// Empties the extent that is chosen past these, or passes over it too, and prints a line, if there is one.
fn empty_next<D: PageDisk, W: Write>(
    alloc: Global,
    core: &mut Core<D>,
    aim: Aim,
    passed: &mut Vec<usize>,
    style: Style,
    writer: &mut W,
) -> Result<Sought, Stop>
    ensures rests { D.honest core.old.disk → IfOk result (λ sought. WhetherFound sought (IsPersistent core.new) (ReadsOn D.PageDisk core.old core.new)) }
    ensures chosen { IfOk result (λ sought. WhetherFound sought
        (DoesOne D.PageDisk aim style passed.old.items passed.new.items core.old core.new (W.contents writer.old) (W.contents writer.new))
        (ReadsOn D.PageDisk core.old core.new × IsSettled D.PageDisk aim passed.old.items core.old × (W.contents writer.new ≡ W.contents writer.old) × (passed.new.items ≡ passed.old.items))) }
    ensures stopped { IfErr result (λ stop. IfRefused stop (λ r. StopsNext D.PageDisk aim passed.old.items core.old core.new r × (W.contents writer.new ≡ W.contents writer.old))) }
    ensures left { (unreadable : ℕ) → result ≡ Ok (Nothing unreadable) → IsLeft D.PageDisk unreadable core.new }
    ensures refusals { IfErr result MayStop }
    ensures tidies { Tidies D.PageDisk core.old core.new }
{
    // Called for its contract alone: what a crash leaves now.
    core.progress();
    let Ok(()) = passed.reserve(1) else {
        return Err(Stop::Refused(Refusal::OutOfMemory));
    };
    let Ok(next) = next_for(alloc, core, aim, passed) else {
        return Err(Stop::Refused(Refusal::OutOfMemory));
    };
    match next {
        Next::Extent(choice) => empty_or_pass(core, choice, passed, style, writer),
        Next::Nothing { unreadable } => Ok(Sought::Nothing { unreadable }),
    }
}

/// Empties this extent, or passes over it, and prints the line of that.
fn empty_or_pass<D: PageDisk, W: Write>(
    core: &mut Core<D>,
    choice: Choice,
    passed: &mut Vec<usize>,
    style: Style,
    writer: &mut W,
) -> Result<Sought, Stop>
    requires { vec_len passed.old < vec_capacity passed.old }
    ensures rests { D.honest core.old.disk → OnOk result (IsPersistent core.new) }
    ensures handles { IfOk result (λ sought. (sought ≡ Found)
        × HandlesExtent D.PageDisk style choice.extent choice.dead passed.old.items passed.new.items core.old core.new (W.contents writer.old) (W.contents writer.new)) }
    ensures stopped { IfErr result (λ stop. IfRefused stop (λ r. StopsEmptying D.PageDisk choice.extent core.old core.new r × (W.contents writer.new ≡ W.contents writer.old))) }
    ensures refusals { IfErr result MayStop }
    ensures tidies { Tidies D.PageDisk core.old core.new }
{
    let Choice { extent, dead } = choice;
    let tried = sweep_or_give_up(core, extent)?;
    match tried {
        Tried::Emptied { moved } => {
            let emptied = Emptied {
                extent,
                dead,
                moved,
            };
            printed(print_emptied(writer, emptied, style))?;
            Ok(Sought::Found)
        }
        Tried::GivenUp(refusal) => {
            printed(print_passed_over(writer, extent, refusal, style))?;
            passed.push_reserved(extent);
            Ok(Sought::Found)
        }
    }
}

/// Sweeps an extent, or gives that up if it is refused so that it tells of a chunk, and makes all persistent. A long
/// history is dropped first.
fn sweep_or_give_up<D: PageDisk>(core: &mut Core<D>, extent: usize) -> Result<Tried, Stop>
    ensures rests { D.honest core.old.disk → OnOk result (IsPersistent core.new) }
    ensures tries { IfOk result (λ tried. Tries D.PageDisk extent tried core.old core.new) }
    ensures stopped { IfErr result (λ stop. IfRefused stop (StopsEmptying D.PageDisk extent core.old core.new)) }
    ensures refusals { IfErr result MayStop }
    ensures tidies { Tidies D.PageDisk core.old core.new }
{
    make_room(core);
    match sweep(core, extent) {
        Ok(swept) => {
            sync_all(core)?;
            Ok(Tried::Emptied { moved: swept.moved })
        }
        Err(refusal) => give_up(core, refusal),
    }
}

/// Gives a sweep up that was refused so, if that tells of a chunk, and makes all persistent.
fn give_up<D: PageDisk>(core: &mut Core<D>, refusal: Refusal) -> Result<Tried, Stop>
    requires { MayRefuseSweep refusal }
    ensures rests { D.honest core.old.disk → OnOk result (IsPersistent core.new) }
    ensures gives_up { IfOk result (λ tried. (tried ≡ GivenUp refusal) × (is_of_chunk refusal ≡ true) × Syncs D.PageDisk core.old core.new) }
    ensures stopped { IfErr result (λ stop. IfRefused stop (λ r. ((r ≡ refusal) × (is_of_chunk refusal ≡ false) × (core.new ≡ core.old))
        ⊎ ((is_of_chunk refusal ≡ true) × StopsSync D.PageDisk core.old r core.new))) }
    ensures refusals { IfErr result MayStop }
    ensures tidies { Tidies D.PageDisk core.old core.new }
{
    if !is_of_chunk(refusal) {
        return Err(Stop::Refused(refusal));
    }
    sync_all(core)?;
    Ok(Tried::GivenUp(refusal))
}

/// Prints the line of an extent that was passed over.
fn print_passed_over<W: Write>(
    writer: &mut W,
    extent: usize,
    refusal: Refusal,
    style: Style,
) -> io::Result<()>
    ensures { OnOk result (Appends (W.contents writer.old) (W.contents writer.new) (passed_line style extent refusal)) }
{
    print_passed_line(writer, extent, refusal, style)?;
    writer.flush()
}

/// The line of an extent that was passed over.
fn print_passed_line<W: Write>(
    writer: &mut W,
    extent: usize,
    refusal: Refusal,
    style: Style,
) -> io::Result<()>
    ensures { OnOk result (Appends (W.contents writer.old) (W.contents writer.new) (passed_line style extent refusal)) }
{
    match style {
        Style::Text => print_passed_words(writer, extent, refusal),
        Style::Json => print_passed_object(writer, extent, refusal),
    }
}

/// The same in words.
fn print_passed_words<W: Write>(writer: &mut W, extent: usize, refusal: Refusal) -> io::Result<()>
    ensures { OnOk result (Appends (W.contents writer.old) (W.contents writer.new) (passed_line Text extent refusal)) }
{
    write!(writer, "extent {extent} passed over: ")?;
    print_refusal(writer, refusal)?;
    writeln!(writer)
}

/// The same as a JSON object.
fn print_passed_object<W: Write>(writer: &mut W, extent: usize, refusal: Refusal) -> io::Result<()>
    ensures { OnOk result (Appends (W.contents writer.old) (W.contents writer.new) (passed_line Json extent refusal)) }
{
    write!(writer, "{{\"extent\":{extent},")?;
    print_passed_members(writer, refusal)
}

/// The number and the name of a refusal as members of a JSON object, and its end.
fn print_passed_members<W: Write>(writer: &mut W, refusal: Refusal) -> io::Result<()>
    ensures { OnOk result (Appends (W.contents writer.old) (W.contents writer.new) (passed_members refusal)) }
{
    let number = refusal.number();
    let name = refusal.name();
    writeln!(writer, "\"passed_over\":{number},\"refusal\":\"{name}\"}}")
}
