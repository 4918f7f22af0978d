//! The command `reclaim`.
ghost use Rattle.std.specs.Prelude.{◌≡◌, ◌⊎◌, ◌↔◌, ℕ, Err, IfErr, IfOk, IsOk, List, Ok, OnOk};
ghost use Rattle.std.specs.Io.KnownBytes.{Appends};
ghost use Rattle.cs_refusal.specs.declared.refusals.Refusal.{Refusal as Why};
ghost use Rattle.cs_writeback.specs.Syncs.{StopsSync, Syncs};
ghost use Rattle.law_machine.specs.Element.{Map};
ghost use Rattle.cs_chunk.specs.Cuts.{IsOversized};
ghost use Rattle.cs_extent.specs.State.{shape};
ghost use Rattle.cs_store.specs.Maps.{HasMap};
ghost use Rattle.cs_inspect.specs.Choices.{ReadsOn};
ghost use Rattle.cs_tools.specs.Aims.{HasNoRoomFor, HasRoomFor, IfPut, IsPutAnd};
ghost use Rattle.cs_tools.specs.Changes.{LeavesPrefixAt, LeavesPrefixBetween};
ghost use Rattle.cs_tools.specs.Headers.{AreReadable, IsLeft, WasCounted, WasUnreadable};
ghost use Rattle.cs_tools.specs.Reclaims.{EmptiesPast, IfRefused, IsClean, IsDamagedFor, IsDoneIfWhole, IsMarred, IsPersistent, LieApart, LieTogether, MayRefuseReclaim, MayStop, Reclaims, ReclaimsPast, Step, StopsFull, StopsLater, StopsReclaim, Tidies, count_line, empty_line, emptied_line, left_text, unreadable_line};
ghost use Rattle.cs_advice.specs.declared.outcomes.Outcome.TheVariants.{Damaged, Done, Failed, Refused};
ghost use Rattle.cs_tools.specs.declared.reclaim_command.Left.{Left};
ghost use Rattle.cs_tools.specs.declared.reclaim_command.Stop.TheVariants.{Failed as StopFailed, Refused as StopRefused};

use crate::aims::{Aim, has_room_for, is_too_large};
use crate::emptyings::empty_by_choice;
use crate::reclaims_v2::empty_by_garbage;
use cs_advice::{Outcome, Style};
use cs_disk::PageDisk;
use cs_extent::Extents;
use cs_inspect::SweepRule;
use cs_refusal::Refusal;
use cs_store::mount::the_core::Core;
use cs_writeback::sync;
use std::alloc::Global;
use std::io;
use std::io::Write;

/// An extent that was emptied.
#[derive(Clone, Copy)]
pub struct Emptied {
    pub extent: usize,
    /// How many of its pages no shard had.
    pub dead: usize,
    /// How many chunks were moved off it.
    pub moved: usize,
}

/// What is left after a reclaim that ended well.
#[derive(Clone, Copy)]
pub struct Left {
    /// How many headers of live chunks couldn't be read.
    pub unreadable: usize,
    /// How many extents were passed over.
    pub passed_over: usize,
}

/// Why it ended early.
#[derive(Clone, Copy)]
pub enum Stop {
    /// A call was refused.
    Refused(Refusal),
    /// The writer failed.
    Failed,
}

/// Empties extents, each with a sync after it, and prints what it freed. What was emptied before a refusal stays
/// emptied.
///
/// For the aim `Pairs` it empties the extent that `fewest_live` of cs_inspect chooses, until that chooses none. For the
/// others it empties the one that `choose_sweep` chooses, up to the brim: until that chooses none, or until the put that
/// is aimed at has room. If that put has no room at the end, it is refused 30 Full after all lines. If the put is too
/// large for a shard, it is refused 31 TooLarge before anything is done. `most_emptied` says how many extents are emptied
/// at most.
///
/// An extent with a chunk whose header can't be read is not chosen. If there is one it is printed how many headers can't
/// be read, and the command ends as damaged.
///
/// If the sweep of an extent is refused 1, 20 to 24 or 26, a chunk on it can't be read. The extent is passed over: its line
/// is printed, it isn't chosen again, and the command goes on with the others and ends as damaged.
///
/// In stores of formats 1 and 2 it empties all extents of which half or more is garbage, those with most garbage first,
/// or as many of them as the put needs. After an open the pages above the write pointer of an extent aren't written any
/// more, so they count as garbage.
pub fn reclaim<D: PageDisk, W: Write>(
    alloc: Global,
    core: &mut Core<D>,
    aim: Aim,
    style: Style,
    writer: &mut W,
) -> Outcome
    ensures ends { (result ≡ Done) ⊎ (result ≡ Damaged) ⊎ ((r : Why) × (result ≡ Refused r)) ⊎ (result ≡ Failed) }
    // It is refused as a sweep or a sync may be, or for want of memory, or since the put that is aimed at is too large.
    ensures refusals { (r : Why) → result ≡ Refused r → MayRefuseReclaim r ⊎ (r ≡ Refusal.TooLarge) }
    ensures too_large { (result ≡ Refused Refusal.TooLarge) ↔ IsPutAnd aim (IsOversized (shape core.old.store.extents)) }
    // Then nothing was done.
    ensures untouched { result ≡ Refused Refusal.TooLarge → (core.new ≡ core.old) × (W.contents writer.new ≡ W.contents writer.old) }
    // Where it ends well the put that is aimed at has room.
    ensures room { (result ≡ Done) ⊎ (result ≡ Damaged) → IfPut aim (HasRoomFor core.new.store.extents) }
    // Where it ends well all is persistent, or nothing was worth it and nothing but reads was done.
    ensures kept { D.honest core.old.disk → (result ≡ Done) ⊎ (result ≡ Damaged) → IsPersistent core.new ⊎ ReadsOn D.PageDisk core.old core.new }
    // Except in formats 1 and 2 it empties the extents that the rule of its aim chooses, or passes over them, and prints a
    // line for each. It ends when that chooses none, or the put has room, or as many steps were done as may be. Then it
    // prints how many extents are empty and how many were, and how many headers can't be read. It is done, and not
    // damaged, exactly if none was passed over and no header couldn't be read.
    ensures chosen { LieApart core.old → (result ≡ Done) ⊎ (result ≡ Damaged)
        → (steps : List Step) × (unreadable : ℕ) × IsLeft D.PageDisk unreadable core.new
        × Reclaims D.PageDisk aim style steps unreadable core.old core.new (W.contents writer.old) (W.contents writer.new) × IsDoneIfWhole result steps unreadable }
    // It is refused only for want of memory; or as the sweep of the extent that is chosen next is, which tells of no
    // chunk, or the sync after it; or as the put is too large; or as the put has no room when no extent is chosen any
    // more.
    ensures stopped { LieApart core.old → (r : Why) → result ≡ Refused r → StopsReclaim D.PageDisk aim style core.old core.new (W.contents writer.old) (W.contents writer.new) r }
    // It is done only if the headers of all live chunks can be read then.
    ensures readable { LieApart core.old → result ≡ Done → AreReadable D.PageDisk core.new }
    // It ends as damaged only if one can't be read, or a read failed, as the extents were looked at last, or if an extent
    // was passed over.
    ensures unreadable { LieApart core.old → result ≡ Damaged → IsDamagedFor D.PageDisk aim style core.old core.new (W.contents writer.old) (W.contents writer.new) }
    // In format 2 both are so as the extents were looked at first.
    ensures readable_v2 { LieTogether core.old → result ≡ Done → AreReadable D.PageDisk core.old }
    ensures unreadable_v2 { LieTogether core.old → result ≡ Damaged → WasUnreadable D.PageDisk core.old }
    ensures map { D.honest core.old.disk → (m : Map) → HasMap core.old m → HasMap core.new m }
    ensures honest { D.honest core.old.disk ↔ D.honest core.new.disk }
    // A crash at any moment of it leaves the map after some of the commands, none of those left out that were
    // persistent before.
    ensures crash { LeavesPrefixBetween D.PageDisk core.old core.new }
    // A crash after it does so for the commands and the frontier then.
    ensures left { LeavesPrefixAt D.PageDisk core.new }
{
    // Called for its contract alone: which state of the machine the core is in.
    core.progress();
    let ended = reclaim_for(alloc, core, aim, style, writer);
    // And what a crash leaves now.
    core.progress();
    outcome_of(ended)
}

/// The outcome of a reclaim that ended so: well, or early.
fn outcome_of(ended: Result<Left, Stop>) -> Outcome
    ensures done { result ≡ Done → (left : Left) × (ended ≡ Ok left) × IsClean left }
    ensures damaged { result ≡ Damaged → (left : Left) × (ended ≡ Ok left) × IsMarred left }
    ensures refused { (r : Why) → result ≡ Refused r → ended ≡ Err (StopRefused r) }
    ensures told { (r : Why) → ended ≡ Err (StopRefused r) → result ≡ Refused r }
    ensures ends { (result ≡ Done) ⊎ (result ≡ Damaged) ⊎ ((r : Why) × (result ≡ Refused r)) ⊎ (result ≡ Failed) }
{
    match ended {
        Ok(left) => whole_or_damaged(left),
        Err(Stop::Refused(refusal)) => Outcome::Refused(refusal),
        Err(Stop::Failed) => Outcome::Failed,
    }
}

/// The outcome of a reclaim after which so much is left.
fn whole_or_damaged(left: Left) -> Outcome
    ensures { ((result ≡ Done) × IsClean left) ⊎ ((result ≡ Damaged) × IsMarred left) }
{
    if left.unreadable > 0 {
        return Outcome::Damaged;
    }
    if left.passed_over > 0 {
        return Outcome::Damaged;
    }
    Outcome::Done
}

/// Refuses a put that is too large, else reclaims for the aim and prints.
fn reclaim_for<D: PageDisk, W: Write>(
    alloc: Global,
    core: &mut Core<D>,
    aim: Aim,
    style: Style,
    writer: &mut W,
) -> Result<Left, Stop>
    ensures kept { D.honest core.old.disk → OnOk result (IsPersistent core.new ⊎ ReadsOn D.PageDisk core.old core.new) }
    ensures room { OnOk result (IfPut aim (HasRoomFor core.new.store.extents)) }
    ensures chosen { LieApart core.old → IfOk result (λ left. ReclaimsPast D.PageDisk aim style left core.old core.new (W.contents writer.old) (W.contents writer.new)) }
    ensures stopped { LieApart core.old → IfErr result (λ stop. IfRefused stop (StopsReclaim D.PageDisk aim style core.old core.new (W.contents writer.old) (W.contents writer.new))) }
    ensures left { LieApart core.old → IfOk result (λ left. IsLeft D.PageDisk left.unreadable core.new) }
    ensures counted { LieTogether core.old → IfOk result (λ left. (left.passed_over ≡ 0) × WasCounted D.PageDisk left.unreadable core.old) }
    ensures refusals { IfErr result (λ stop. MayStop stop ⊎ (stop ≡ StopRefused Refusal.TooLarge)) }
    ensures too_large { (result ≡ Err (StopRefused Refusal.TooLarge)) ↔ IsPutAnd aim (IsOversized (shape core.old.store.extents)) }
    ensures untouched { result ≡ Err (StopRefused Refusal.TooLarge) → (core.new ≡ core.old) × (W.contents writer.new ≡ W.contents writer.old) }
    ensures tidies { Tidies D.PageDisk core.old core.new }
{
    if is_too_large(core.extents(), aim) {
        return Err(Stop::Refused(Refusal::TooLarge));
    }
    reclaim_and_print(alloc, core, aim, style, writer)
}

/// Empties extents, prints how many are empty, and returns what is left. It returns why it ended early, or that the put
/// has no room still.
fn reclaim_and_print<D: PageDisk, W: Write>(
    alloc: Global,
    core: &mut Core<D>,
    aim: Aim,
    style: Style,
    writer: &mut W,
) -> Result<Left, Stop>
    requires { ¬ IsPutAnd aim (IsOversized (shape core.old.store.extents)) }
    ensures kept { D.honest core.old.disk → OnOk result (IsPersistent core.new ⊎ ReadsOn D.PageDisk core.old core.new) }
    ensures room { OnOk result (IfPut aim (HasRoomFor core.new.store.extents)) }
    ensures chosen { LieApart core.old → IfOk result (λ left. ReclaimsPast D.PageDisk aim style left core.old core.new (W.contents writer.old) (W.contents writer.new)) }
    ensures stopped { LieApart core.old → IfErr result (λ stop. IfRefused stop
        (λ r. StopsLater D.PageDisk aim style core.old core.new (W.contents writer.old) (W.contents writer.new) r ⊎ StopsFull D.PageDisk aim style core.old core.new (W.contents writer.old) (W.contents writer.new) r)) }
    ensures left { LieApart core.old → IfOk result (λ left. IsLeft D.PageDisk left.unreadable core.new) }
    ensures counted { LieTogether core.old → IfOk result (λ left. (left.passed_over ≡ 0) × WasCounted D.PageDisk left.unreadable core.old) }
    ensures refusals { IfErr result MayStop }
    ensures tidies { Tidies D.PageDisk core.old core.new }
{
    let before = core.extents().empty_count();
    let left = empty_by_rule(alloc, core, aim, style, writer)?;
    let after = core.extents().empty_count();
    printed(print_left(writer, before, after, left.unreadable, style))?;
    check_room(core.extents(), aim)?;
    Ok(left)
}

/// Refuses a reclaim after which the put that is aimed at has no room.
fn check_room(extents: &Extents, aim: Aim) -> Result<(), Stop>
    ensures room { OnOk result (IfPut aim (HasRoomFor extents.now)) }
    ensures full { IfErr result (λ stop. (stop ≡ StopRefused Refusal.Full) × IsPutAnd aim (HasNoRoomFor extents.now)) }
{
    match aim {
        Aim::Pairs => Ok(()),
        Aim::Room(bytes) => if has_room_for(extents, bytes) {
            Ok(())
        } else {
            Err(Stop::Refused(Refusal::Full))
        },
        Aim::Brim => Ok(()),
    }
}

/// Empties the extents that the store's rule chooses, and returns what is left.
fn empty_by_rule<D: PageDisk, W: Write>(
    alloc: Global,
    core: &mut Core<D>,
    aim: Aim,
    style: Style,
    writer: &mut W,
) -> Result<Left, Stop>
    ensures kept { D.honest core.old.disk → OnOk result (IsPersistent core.new ⊎ ReadsOn D.PageDisk core.old core.new) }
    ensures chosen { LieApart core.old → IfOk result (λ left. EmptiesPast D.PageDisk aim style left.passed_over core.old core.new (W.contents writer.old) (W.contents writer.new)) }
    ensures stopped { LieApart core.old → IfErr result (λ stop. IfRefused stop (StopsLater D.PageDisk aim style core.old core.new (W.contents writer.old) (W.contents writer.new))) }
    ensures left { LieApart core.old → IfOk result (λ left. IsLeft D.PageDisk left.unreadable core.new) }
    ensures counted { LieTogether core.old → IfOk result (λ left. (left.passed_over ≡ 0) × WasCounted D.PageDisk left.unreadable core.old) }
    ensures refusals { IfErr result MayStop }
    ensures tidies { Tidies D.PageDisk core.old core.new }
{
    match SweepRule::of(core.extents()) {
        SweepRule::FewestLive => empty_by_choice(alloc, core, aim, style, writer),
        SweepRule::MostGarbage => empty_by_garbage(alloc, core, aim, style, writer),
    }
}

/// Makes all persistent.
pub fn sync_all<D: PageDisk>(core: &mut Core<D>) -> Result<(), Stop>
    ensures rests { D.honest core.old.disk → OnOk result (IsPersistent core.new) }
    ensures syncs { OnOk result (Syncs D.PageDisk core.old core.new) }
    ensures stopped { IfErr result (λ stop. IfRefused stop (λ r. StopsSync D.PageDisk core.old r core.new)) }
    ensures refusals { IfErr result MayStop }
    ensures tidies { Tidies D.PageDisk core.old core.new }
{
    match sync(core) {
        Ok(_) => {
            // Called for its contract alone: which state of the machine the core is in.
            core.progress();
            Ok(())
        }
        Err(refusal) => Err(Stop::Refused(refusal)),
    }
}

/// Why printing a line ended the command, if it did.
pub fn printed(line: io::Result<()>) -> Result<(), Stop>
    ensures done { OnOk result (IsOk line) }
    ensures failed { IfErr result (λ stop. stop ≡ StopFailed) }
{
    match line {
        Ok(()) => Ok(()),
        Err(_) => Err(Stop::Failed),
    }
}

/// Prints the line of an extent that was emptied.
pub fn print_emptied<W: Write>(writer: &mut W, emptied: Emptied, style: Style) -> io::Result<()>
    ensures { OnOk result (Appends (W.contents writer.old) (W.contents writer.new) (emptied_line style emptied.extent emptied.dead emptied.moved)) }
{
    print_emptied_line(writer, emptied, style)?;
    writer.flush()
}

/// The line of an extent that was emptied.
fn print_emptied_line<W: Write>(writer: &mut W, emptied: Emptied, style: Style) -> io::Result<()>
    ensures { OnOk result (Appends (W.contents writer.old) (W.contents writer.new) (emptied_line style emptied.extent emptied.dead emptied.moved)) }
{
    let Emptied {
        extent,
        dead,
        moved,
    } = emptied;
    match style {
        Style::Text => writeln!(
            writer,
            "extent {extent} emptied: dead pages {dead}, chunks moved {moved}"
        ),
        Style::Json => writeln!(
            writer,
            "{{\"extent\":{extent},\"dead\":{dead},\"moved\":{moved}}}"
        ),
    }
}

/// Prints how many extents are empty, and if there are any, how many headers couldn't be read.
fn print_left<W: Write>(
    writer: &mut W,
    before: usize,
    after: usize,
    unreadable: usize,
    style: Style,
) -> io::Result<()>
    ensures { OnOk result (Appends (W.contents writer.old) (W.contents writer.new) (left_text style before after unreadable)) }
{
    print_empty(writer, before, after, style)?;
    print_unreadable(writer, unreadable, style)?;
    writer.flush()
}

/// The line of how many extents are empty, and how many were before.
fn print_empty<W: Write>(
    writer: &mut W,
    before: usize,
    after: usize,
    style: Style,
) -> io::Result<()>
    ensures { OnOk result (Appends (W.contents writer.old) (W.contents writer.new) (empty_line style before after)) }
{
    match style {
        Style::Text => writeln!(writer, "empty {after}, before {before}"),
        Style::Json => writeln!(writer, "{{\"empty\":{after},\"before\":{before}}}"),
    }
}

/// The line of how many headers couldn't be read, if there are any.
fn print_unreadable<W: Write>(writer: &mut W, unreadable: usize, style: Style) -> io::Result<()>
    ensures { OnOk result (Appends (W.contents writer.old) (W.contents writer.new) (unreadable_line style unreadable)) }
{
    if unreadable == 0 {
        return Ok(());
    }
    print_count(writer, unreadable, style)
}

/// The line of how many headers couldn't be read.
fn print_count<W: Write>(writer: &mut W, unreadable: usize, style: Style) -> io::Result<()>
    ensures { OnOk result (Appends (W.contents writer.old) (W.contents writer.new) (count_line style unreadable)) }
{
    match style {
        Style::Text => writeln!(writer, "unreadable {unreadable}"),
        Style::Json => writeln!(writer, "{{\"unreadable\":{unreadable}}}"),
    }
}
