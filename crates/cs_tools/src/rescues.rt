//! The commands `get` and `list` over a damaged store, of which what is left is read.
ghost use Rattle.std.specs.Prelude.{◌≡◌, ◌≢◌, ◌⊎◌, ◌↔◌, ◌+◌, ◌<◌, ◌≤◌, [], Err, IfErr, IfOk, List, MatchBool, MatchResult, None, OnOk, codes, false, flat_map, map, true};
ghost use Rattle.std.specs.Io.KnownBytes.{Appends};
ghost use Rattle.cs_chunk.specs.Reads.{IsNoAnswer};
ghost use Rattle.cs_reader.specs.Openings.{IsOpeningRefusal};
ghost use Rattle.cs_refusal.specs.declared.refusals.Refusal.{Refusal as Why};
ghost use Rattle.cs_disk.specs.Disk.{Rises, flushed, page, seen};
ghost use Rattle.cs_disk.specs.Reads.{OnlyReads};
ghost use Rattle.cs_frame.specs.declared.identifiers.ShardId.{ShardId as Id};
ghost use Rattle.cs_index.specs.State.{id_number, index_of};
ghost use Rattle.law_machine.specs.Index.{live_at};
ghost use Rattle.cs_twin.specs.Paired.{disk_below, state_shown};
ghost use Rattle.cs_mount.specs.Showing.{findings_on, shown_on};
ghost use Rattle.cs_mount.specs.Identities.{AreOfTwo};
ghost use Rattle.cs_salvage.specs.Answers.{IsAbsent, IsUnknown};
ghost use Rattle.cs_salvage.specs.Rescued.{IsRescued, IsWhyNotRescued};
ghost use Rattle.cs_inspect.specs.Listings.{AreFirst};
ghost use Rattle.cs_advice.specs.Advised.{run_lost_text, todo_members, todo_text};
ghost use Rattle.cs_advice.specs.Advices.{erases};
ghost use Rattle.cs_advice.specs.Outputs.{id_line};
ghost use Rattle.cs_tools.specs.Rescues.{MeansGot, Rescues, status_of_got};
ghost use Rattle.cs_tools.specs.Rescues.{got_text};
ghost use Rattle.cs_advice.specs.declared.outcomes.Outcome.TheVariants.{Absent, Damaged, Done, Failed, Refused, Unread};
ghost use Rattle.cs_tools.specs.declared.rescues.Got.TheVariants.{Ended, RunLost};

use crate::get_command::write_out;
use crate::list_command::print_ids;
use cs_advice::{Errors, Known, Outcome, Reason, Style, Todo, print_outcome, print_reason};
use cs_disk::PageDisk;
use cs_frame::ShardId;
use cs_inspect::ids_from;
use cs_refusal::Refusal;
use cs_salvage::{Rescue, RescueRefusal};
use cs_store::mount::{Finding, Mounted, open_pairs};
use std::alloc::Global;
use std::io;
use std::io::Write;

/// What to do if it isn't known whether there is a shard.
const RUN_LOST: &str =
    "First run `doctor FILE`: it only reads, and reports what is there and what to do next. No run of the index that can be read names the shard, and older ones can't be read. `export --salvage` reads the frames themselves, but not in format 2. Else restore the file from a copy.";

/// How a get ended.
#[derive(Clone, Copy)]
pub enum Got {
    /// As other commands end.
    Ended(Outcome),
    /// No run that was read names it, and there is one that couldn't be read. Status 5.
    RunLost,
}

impl Got {
    /// The exit status.
    fn status(self) -> u8
        ensures status { result ≡ status_of_got self }
        ensures most { result ≤ 7 }
    {
        match self {
            Got::Ended(outcome) => outcome.status(),
            Got::RunLost => cs_words::DAMAGED,
        }
    }
}

/// Opens a damaged store to read what is left of it, and returns what it found in the pages that are there twice.
/// Nothing is written.
///
/// If the call is refused, it returns the disk. 43 NotAStore: no store of that many pages is there, or the disk holds
/// pages of two stores. 20 to 24: a page of the superblock or of the root is damaged, and so is its other copy, if it
/// has one. 1 DeviceFault. 9 OutOfMemory.
pub fn open_rescue<D: PageDisk + Drop>(
    alloc: Global,
    disk: D,
) -> Result<(Rescue<Mounted<D>>, Vec<Finding>), (Refusal, D)>
    // What is read is what the disk shows, and that is what shows after it.
    ensures found { D.honest disk → IfOk result (λ opened. IsRescued (D.honest disk) (D.page_count disk) (page (shown_on (D.page_count disk) (seen (D.state disk)))) opened.0.found) }
    ensures shown { D.honest disk → IfOk result (λ opened. state_shown opened.0.disk ≡ record { durable = shown_on (D.page_count disk) (seen (D.state disk)); volatile = [] }) }
    ensures findings { D.honest disk → IfOk result (λ opened. opened.1.items ≡ findings_on (D.page_count disk) (seen (D.state disk))) }
    ensures why { D.honest disk → IfErr result (λ refused. IsNoAnswer refused.0 ⊎ ((refused.0 ≡ Refusal.NotAStore) × AreOfTwo (D.page_count disk) (seen (D.state disk)))
        ⊎ IsWhyNotRescued (D.page_count disk) (page (shown_on (D.page_count disk) (seen (D.state disk)))) refused.0) }
    // It reports 1 only if the disk's count of failures rose, or stood at its end.
    ensures cause { IfErr result (λ refused. refused.0 ≡ Refusal.DeviceFault → Rises (D.failure_count disk) (D.failure_count refused.1)) }
    // Of two stores none is opened: it is refused 43, unless the device failed or memory ran out.
    ensures two { D.honest disk → AreOfTwo (D.page_count disk) (seen (D.state disk)) → MatchResult result (λ _. ⊥) (λ refused. IsNoAnswer refused.0 ⊎ (refused.0 ≡ Refusal.NotAStore)) }
    ensures small { D.page_count disk < 10 → result ≡ Err (Refusal.NotAStore, disk) }
    // Whatever the disk answers.
    ensures number { IfErr result (λ refused. IsOpeningRefusal refused.0) }
    // Nothing is written, whether it is read or not: the device holds what it held, or that made durable.
    ensures unwritten { D.honest disk → MatchResult result (λ opened. D.state (disk_below opened.0.disk) ≡ flushed (D.state disk)) (λ refused. (D.state refused.1 ≡ D.state disk) ⊎ (D.state refused.1 ≡ flushed (D.state disk))) }
    // One flush, and no write; at most one if it is refused.
    ensures calls { D.honest disk → MatchResult result (λ opened. D.moment (disk_below opened.0.disk) ≡ D.moment disk + 1) (λ refused. D.moment refused.1 ≤ D.moment disk + 1) }
    ensures honest { MatchResult result (λ opened. D.honest disk ↔ D.honest (disk_below opened.0.disk)) (λ refused. D.honest disk ↔ D.honest refused.1) }
    ensures pages { MatchResult result (λ opened. D.page_count (disk_below opened.0.disk) ≡ D.page_count disk) (λ refused. D.page_count refused.1 ≡ D.page_count disk) }
{
    if disk.pages() < 10 {
        return Err((Refusal::NotAStore, disk));
    }
    match open_pairs(alloc, disk) {
        Ok((paired, found)) => match Rescue::open(alloc, paired) {
            Ok(rescue) => Ok((rescue, found)),
            Err((refusal, paired)) => Err((refusal, paired.into_disk())),
        },
        Err((refusal, disk)) => Err((refusal, disk)),
    }
}

/// Writes out the bytes under an identifier, by the runs that could be read.
pub fn get_rescued<D: PageDisk, W: Write>(
    alloc: Global,
    rescue: &mut Rescue<D>,
    id: ShardId,
    writer: &mut W,
) -> Got
    ensures answer { D.honest rescue.old.disk → Rescues rescue.old.found (page (seen (D.state rescue.old.disk))) (id_number id) (W.contents writer.old) (W.contents writer.new) result }
    // Whatever the disk does, what is written out is bytes that the identifier's places mean, and it is done only then.
    ensures meant { MeansGot rescue.old.found (id_number id) (W.contents writer.old) (W.contents writer.new) result }
    // Whatever the disk does.
    ensures absent { (result ≡ Ended Absent) ↔ IsAbsent rescue.old.found (id_number id) }
    ensures run_lost { (result ≡ RunLost) ↔ IsUnknown rescue.old.found (id_number id) }
    // It reports 1 only if the disk's count of failures rose, or stood at its end.
    ensures cause { result ≡ Ended (Unread Refusal.DeviceFault) → Rises (D.failure_count rescue.old.disk) (D.failure_count rescue.new.disk) }
    ensures same { rescue.new.found ≡ rescue.old.found }
    ensures disk { OnlyReads D.PageDisk rescue.old.disk rescue.new.disk }
{
    match rescue.get(alloc, id) {
        Ok(Some(bytes)) => Got::Ended(write_out(writer, &bytes)),
        Ok(None) => Got::Ended(Outcome::Absent),
        Err(RescueRefusal::Refused(refusal)) => Got::Ended(Outcome::Unread(refusal)),
        Err(RescueRefusal::RunLost) => Got::RunLost,
    }
}

/// Whether the store may have other shards than the readable runs name: a run couldn't be read, or a newer root is lost.
fn is_unsure<D: PageDisk>(rescue: &Rescue<D>) -> bool
    ensures { MatchBool result ((rescue.now.found.damaged ≢ None) ⊎ (rescue.now.found.lost ≡ true)) ((rescue.now.found.damaged ≡ None) × (rescue.now.found.lost ≡ false)) }
{
    rescue.damaged().is_some() || rescue.root_lost()
}

/// Prints the identifiers of the first so many shards that the readable runs name, from one on, in order, one a line.
/// If a run couldn't be read, or a newer root is lost, there may be others, and it ends as damaged.
pub fn list_rescued<D: PageDisk, W: Write>(
    alloc: Global,
    rescue: &Rescue<D>,
    from: ShardId,
    most: usize,
    style: Style,
    writer: &mut W,
) -> Outcome
    ensures lines { (result ≡ Done) ⊎ (result ≡ Damaged) → (ids : List Id) × AreFirst (λ id. live_at (index_of rescue.now.found.index) id ≢ []) (id_number from) most (map id_number ids)
        × Appends (W.contents writer.old) (W.contents writer.new) (flat_map (id_line style) ids) }
    ensures done { result ≡ Done → (rescue.now.found.damaged ≡ None) × (rescue.now.found.lost ≡ false) }
    ensures damaged { result ≡ Damaged → (rescue.now.found.damaged ≢ None) ⊎ (rescue.now.found.lost ≡ true) }
    ensures ends { (result ≡ Done) ⊎ (result ≡ Damaged) ⊎ (result ≡ Refused Refusal.OutOfMemory) ⊎ (result ≡ Failed) }
    // Where it is refused nothing was written.
    ensures untouched { (r : Why) → result ≡ Refused r → writer.new ≡ writer.old }
{
    let Ok(ids) = ids_from(alloc, rescue.index(), from, most) else {
        return Outcome::Refused(Refusal::OutOfMemory);
    };
    match print_ids(writer, &ids, style) {
        Ok(()) if is_unsure(rescue) => Outcome::Damaged,
        Ok(()) => Outcome::Done,
        Err(_) => Outcome::Failed,
    }
}

/// Prints why a get was refused, if it was, and what to do.
pub fn print_got<W: Write>(writer: &mut W, got: Got, known: &Known, style: Style) -> io::Result<()>
    // It prints exactly this.
    ensures { OnOk result (Appends (W.contents writer.old) (W.contents writer.new) (got_text style got known.now)) }
{
    match got {
        Got::Ended(outcome) => print_outcome(writer, outcome, known, style),
        Got::RunLost => print_reason(writer, &reason_of_run(), style),
    }
}

/// Prints on standard error why a get was refused, if it was, and what to do. It returns the exit status.
pub fn explain_got<R: Eprint>(rt: &R, got: Got, known: &Known, style: Style) -> u8
    ensures status { result ≡ status_of_got got }
    ensures most { result ≤ 7 }
{
    let _ = print_got(&mut Errors { rt }, got, known, style);
    got.status()
}

/// The reason of a get that can't know whether there is a shard.
fn reason_of_run() -> Reason
    ensures number { result.number ≡ 28 }
    ensures name { result.name.now ≡ codes "RunLost" }
    ensures text { result.text.now ≡ codes "a run of the index that may name it can't be read" }
    ensures system { result.system ≡ None }
    ensures advice { todo_text result.advice ≡ run_lost_text }
    ensures members { todo_members result.advice ≡ [] }
    // No command is named that erases.
    ensures keeps { erases (todo_text result.advice) ≡ false }
{
    let refusal = RescueRefusal::RunLost;
    Reason {
        number: refusal.number(),
        name: refusal.name(),
        text: "a run of the index that may name it can't be read",
        system: None,
        advice: Todo::Text(RUN_LOST),
    }
}
