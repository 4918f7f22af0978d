//! The command `export`.
ghost use Rattle.std.specs.Prelude.{◌≡◌, ◌≢◌, ◌⊎◌, ℕ, IfOk, List, [], OnOk};
ghost use Rattle.std.specs.Io.KnownBytes.{Appends};
ghost use Rattle.std.specs.List.{AllByRecursion, AllZip, list_all};
ghost use Rattle.cs_core.specs.Views.{IsIn};
ghost use Rattle.cs_refusal.specs.declared.refusals.Refusal.{Refusal as Why};
ghost use Rattle.cs_disk.specs.Reads.{OnlyReads};
ghost use Rattle.cs_index.specs.State.{id_number, index_of};
ghost use Rattle.law_machine.specs.Element.{Map};
ghost use Rattle.law_machine.specs.Index.{live_at};
ghost use Rattle.law_machine.specs.State.{State, map_now};
ghost use Rattle.cs_store.specs.Maps.{HasMap};
ghost use Rattle.cs_tools.specs.Exports.{AreReadOf, Exports, IsMeantOf, IsReadOf, IsScript, MeansExport, Shard, is_whole, piece_lines, put_line, remark_line, shard_line};
ghost use Rattle.cs_advice.specs.declared.outcomes.Outcome.TheVariants.{Damaged, Done, Failed, Refused};

use cs_advice::{Outcome, print_id, print_payload, print_refusal};
use cs_disk::PageDisk;
use cs_frame::ShardId;
use cs_inspect::{Progress, ids_from};
use cs_refusal::Refusal;
use cs_store::mount::the_core::Core;
use std::alloc::Global;
use std::io;
use std::io::Write;

/// How many lines are between two syncs.
pub const LINES: usize = 1_000;

/// Prints a script that puts all shards that are there from one identifier on, by rising identifiers, with a sync
/// after each 1,000 of them and at the end. A remark replaces a shard that can't be read.
pub fn export<D: PageDisk, P: Progress, W: Write>(
    alloc: Global,
    core: &mut Core<D>,
    from: ShardId,
    progress: &P,
    writer: &mut W,
) -> Outcome
    ensures script { (m : Map) → HasMap core.old m → D.honest core.old.disk → Exports m (id_number from) (D.failure_count core.old.disk) (D.failure_count core.new.disk) (W.contents writer.old) (W.contents writer.new) result }
    // Whatever the disk does, each `put` line has bytes that the shard's places mean, a remark reports 1 only if the disk's count of
    // failures rose, and it is done only if all shards could be read.
    ensures meant { MeansExport core.old.store (id_number from) (D.failure_count core.old.disk) (D.failure_count core.new.disk) (W.contents writer.old) (W.contents writer.new) result }
    ensures ends { (result ≡ Done) ⊎ (result ≡ Damaged) ⊎ (result ≡ Refused Refusal.OutOfMemory) ⊎ (result ≡ Failed) }
    // Where it is refused nothing was written.
    ensures untouched { (r : Why) → result ≡ Refused r → writer.new ≡ writer.old }
    ensures same { core.new ≡ record core.old { disk = core.new.disk } }
    ensures disk { OnlyReads D.PageDisk core.old.disk core.new.disk }
{
    // Called for their contracts alone: which state of the machine the store is in, and what all extents keep.
    core.progress();
    core.extents().extent_count();
    let Ok(ids) = ids_from(alloc, core.index(), from, usize::MAX) else {
        return Outcome::Refused(Refusal::OutOfMemory);
    };
    match print_shards(core, &ids, progress, writer) {
        Ok(true) => Outcome::Done,
        Ok(false) => Outcome::Damaged,
        Err(_) => Outcome::Failed,
    }
}

/// Prints the lines of these shards, and returns whether all could be read.
fn print_shards<D: PageDisk, P: Progress, W: Write>(
    core: &mut Core<D>,
    ids: &[ShardId],
    progress: &P,
    writer: &mut W,
) -> io::Result<bool>
    ensures script { (s : State) → IsIn D.state core.old s → D.honest core.old.disk → AllByRecursion (λ id. live_at (index_of core.old.store.index) (id_number id) ≢ []) ids.now
        → IfOk result (λ whole. (shards : List Shard) × AreReadOf (map_now s) (D.failure_count core.old.disk) (D.failure_count core.new.disk) ids.now whole shards
        × ((text : List ℕ) × IsScript shards text × Appends (W.contents writer.old) (W.contents writer.new) text)) }
    ensures meant { AllByRecursion (λ id. live_at (index_of core.old.store.index) (id_number id) ≢ []) ids.now
        → IfOk result (λ whole. (shards : List Shard) × AllZip (IsMeantOf core.old.store (D.failure_count core.old.disk) (D.failure_count core.new.disk)) ids.now shards × (whole ≡ list_all is_whole shards)
        × ((text : List ℕ) × IsScript shards text × Appends (W.contents writer.old) (W.contents writer.new) text)) }
    ensures same { core.new ≡ record core.old { disk = core.new.disk } }
    ensures disk { OnlyReads D.PageDisk core.old.disk core.new.disk }
{
    let mut whole = true;
    let mut done: usize = 0;
    for piece in ids.chunks(LINES) {
        progress.tell(done, ids.len());
        let read = print_piece(core, piece, writer)?;
        whole &= read;
        done = done.saturating_add(piece.len());
    }
    progress.tell(done, ids.len());
    writer.flush()?;
    Ok(whole)
}

/// Prints the lines of these shards and a sync, and returns whether all could be read.
fn print_piece<D: PageDisk, W: Write>(
    core: &mut Core<D>,
    ids: &[ShardId],
    writer: &mut W,
) -> io::Result<bool>
    ensures lines { (s : State) → IsIn D.state core.old s → D.honest core.old.disk → AllByRecursion (λ id. live_at (index_of core.old.store.index) (id_number id) ≢ []) ids.now
        → IfOk result (λ whole. (shards : List Shard) × AreReadOf (map_now s) (D.failure_count core.old.disk) (D.failure_count core.new.disk) ids.now whole shards
        × Appends (W.contents writer.old) (W.contents writer.new) (piece_lines shards)) }
    ensures meant { AllByRecursion (λ id. live_at (index_of core.old.store.index) (id_number id) ≢ []) ids.now
        → IfOk result (λ whole. (shards : List Shard) × AllZip (IsMeantOf core.old.store (D.failure_count core.old.disk) (D.failure_count core.new.disk)) ids.now shards × (whole ≡ list_all is_whole shards)
        × Appends (W.contents writer.old) (W.contents writer.new) (piece_lines shards)) }
    ensures same { core.new ≡ record core.old { disk = core.new.disk } }
    ensures disk { OnlyReads D.PageDisk core.old.disk core.new.disk }
{
    let mut whole = true;
    for id in ids {
        let read = print_shard(core, *id, writer)?;
        whole &= read;
    }
    writeln!(writer, "sync")?;
    Ok(whole)
}

/// Prints the line of a shard, and returns whether it could be read.
fn print_shard<D: PageDisk, W: Write>(
    core: &mut Core<D>,
    id: ShardId,
    writer: &mut W,
) -> io::Result<bool>
    ensures line { (s : State) → IsIn D.state core.old s → D.honest core.old.disk → live_at (index_of core.old.store.index) (id_number id) ≢ []
        → IfOk result (λ whole. (shard : Shard) × IsReadOf (map_now s) (D.failure_count core.old.disk) (D.failure_count core.new.disk) id whole shard
        × Appends (W.contents writer.old) (W.contents writer.new) (shard_line shard)) }
    // Whatever the disk does, a `put` line has bytes that the shard's places mean.
    ensures meant { live_at (index_of core.old.store.index) (id_number id) ≢ []
        → IfOk result (λ whole. (shard : Shard) × IsMeantOf core.old.store (D.failure_count core.old.disk) (D.failure_count core.new.disk) id shard × (whole ≡ is_whole shard) × Appends (W.contents writer.old) (W.contents writer.new) (shard_line shard)) }
    ensures same { core.new ≡ record core.old { disk = core.new.disk } }
    ensures disk { OnlyReads D.PageDisk core.old.disk core.new.disk }
{
    match core.read(id) {
        Ok(Some(bytes)) => {
            print_put(writer, id, &bytes)?;
            Ok(true)
        }
        // Of no shard that is there.
        Ok(None) => Ok(true),
        Err(refusal) => {
            print_remark(writer, id, refusal)?;
            Ok(false)
        }
    }
}

/// `put`, the identifier and the bytes.
pub fn print_put<W: Write>(writer: &mut W, id: ShardId, bytes: &[u8]) -> io::Result<()>
    ensures { OnOk result (Appends (W.contents writer.old) (W.contents writer.new) (put_line id bytes.now)) }
{
    write!(writer, "put ")?;
    print_id(writer, id)?;
    write!(writer, " ")?;
    print_payload(writer, bytes)?;
    writeln!(writer)
}

/// A remark, with the identifier and why the shard can't be read.
pub fn print_remark<W: Write>(writer: &mut W, id: ShardId, refusal: Refusal) -> io::Result<()>
    ensures { OnOk result (Appends (W.contents writer.old) (W.contents writer.new) (remark_line id refusal)) }
{
    write!(writer, "# ")?;
    print_id(writer, id)?;
    write!(writer, " ")?;
    print_refusal(writer, refusal)?;
    writeln!(writer)
}
