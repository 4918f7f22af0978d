//! The command `get`.
ghost use Rattle.std.specs.Prelude.{◌≡◌, ◌⊎◌, ◌↔◌, OnOk, []};
ghost use Rattle.std.specs.Io.KnownBytes.{Appends};
ghost use Rattle.cs_refusal.specs.declared.refusals.Refusal.TheVariants.{DeviceFault};
ghost use Rattle.cs_disk.specs.Disk.{Rises};
ghost use Rattle.cs_disk.specs.Reads.{OnlyReads};
ghost use Rattle.cs_index.specs.State.{id_number, index_of};
ghost use Rattle.law_machine.specs.Element.{Map};
ghost use Rattle.law_machine.specs.Index.{live_at};
ghost use Rattle.cs_store.specs.Maps.{HasMap};
ghost use Rattle.cs_tools.specs.Gets.{Gets, MeansGet};
ghost use Rattle.cs_advice.specs.declared.outcomes.Outcome.TheVariants.{Absent, Done, Failed, Unread};

use cs_advice::Outcome;
use cs_disk::PageDisk;
use cs_frame::ShardId;
use cs_store::Store;
use std::io;
use std::io::Write;

/// Writes out the bytes under an identifier, and nothing else.
pub fn get<D: PageDisk, W: Write>(store: &mut Store<D>, id: ShardId, writer: &mut W) -> Outcome
    ensures answer { (m : Map) → HasMap store.old m → D.honest store.old.disk → Gets (m (id_number id)) (W.contents writer.old) (W.contents writer.new) result }
    // Whatever the disk does, what is written out is bytes that the shard's places mean, and it is done only then.
    ensures meant { MeansGet store.old.store (id_number id) (W.contents writer.old) (W.contents writer.new) result }
    // Whatever the disk does, it ends as absent exactly if the index has no places of the shard's chunks.
    ensures absent { (result ≡ Absent) ↔ (live_at (index_of store.old.store.index) (id_number id) ≡ []) }
    // It reports 1 only if the disk's count of failures rose, or stood at its end.
    ensures cause { result ≡ Unread DeviceFault → Rises (D.failure_count store.old.disk) (D.failure_count store.new.disk) }
    ensures same { store.new ≡ record store.old { disk = store.new.disk } }
    ensures disk { OnlyReads D.PageDisk store.old.disk store.new.disk }
{
    match store.get(id) {
        Ok(Some(bytes)) => write_out(writer, &bytes),
        Ok(None) => Outcome::Absent,
        Err(error) => Outcome::Unread(error.refusal()),
    }
}

/// Writes these bytes out.
pub fn write_out<W: Write>(writer: &mut W, bytes: &[u8]) -> Outcome
    ensures { ((result ≡ Done) × Appends (W.contents writer.old) (W.contents writer.new) bytes.now) ⊎ (result ≡ Failed) }
{
    match write_and_flush(writer, bytes) {
        Ok(()) => Outcome::Done,
        Err(_) => Outcome::Failed,
    }
}

/// Writes these bytes out, or returns the writer's error.
fn write_and_flush<W: Write>(writer: &mut W, bytes: &[u8]) -> io::Result<()>
    ensures { OnOk result (Appends (W.contents writer.old) (W.contents writer.new) bytes.now) }
{
    writer.write_all(bytes)?;
    writer.flush()
}
