//! The command `put`.
ghost use Rattle.std.specs.Prelude.{◌≡◌, ◌⊎◌, ◌+◌, ◌^◌, ◌<◌, ◌↔◌, ℕ, List, IfOk, Some, length, take};
ghost use Rattle.cs_extent.specs.State.{shape};
ghost use Rattle.law_machine.specs.Element.{Map};
ghost use Rattle.cs_store.specs.Maps.{HasMap};
ghost use Rattle.cs_tools.specs.Changes.{LeavesPrefixAt, LeavesPrefixBetween, Puts, PutsInto, most_bytes};
ghost use Rattle.cs_advice.specs.declared.outcomes.Outcome.TheVariants.{Failed, Refused};

use crate::commits::commit;
use cs_advice::Outcome;
use cs_disk::PageDisk;
use cs_frame::ShardId;
use cs_refusal::Refusal;
use cs_store::Store;
use std::alloc::Global;
use std::io;
use std::io::Read;

/// The most bytes that a store takes under an identifier: 8 chunks, of an extent each.
pub fn most_bytes<D: PageDisk>(store: &Store<D>) -> usize
    ensures bytes { result ≡ most_bytes (shape store.now.store.extents) }
    ensures small { result < 2 ^ 32 }
{
    let geometry = store.geometry();
    // Called for its contract alone: what a geometry is.
    geometry.pages();
    8 * geometry.chunk_bytes()
}

/// Puts all bytes of the reader under an identifier, in place of what was there, and makes that persistent. If there
/// are more bytes than a shard may have, it reads one more than these, and is refused 31 TooLarge.
///
/// It goes by the reserve of the store. It is refused as `Store::put` is, or as the `Store::sync` after it: 1
/// DeviceFault, 9 OutOfMemory, 30 Full, 31 TooLarge, 32 IndexFull, 35 WornOut, 36 Reserved, 40 Halted or 41 HistoryFull.
pub fn put<D: PageDisk, R: Read + Drop>(
    alloc: Global,
    store: &mut Store<D>,
    id: ShardId,
    reader: R,
) -> Outcome
    ensures events { (text : List ℕ) → R.remaining reader ≡ Some text → Puts D.PageDisk id text store.old store.new result }
    ensures map { (text : List ℕ) → R.remaining reader ≡ Some text → (m : Map) → HasMap store.old m → D.honest store.old.disk
        → PutsInto D.PageDisk m id text store.old store.new result }
    // Longer texts are always refused so, where the reader gives them, and nothing has changed.
    ensures large { (text : List ℕ) → R.remaining reader ≡ Some text → most_bytes (shape store.old.store.extents) < length text
        → ((result ≡ Refused Refusal.TooLarge) ⊎ (result ≡ Failed)) × (store.new ≡ store.old) }
    // Whatever the reader gives, some bytes are put so, once.
    ensures once { (bytes : List ℕ) × Puts D.PageDisk id bytes store.old store.new result }
    // A crash at any moment of it leaves the map after some of the commands, none of those left out that were persistent before.
    ensures crash { LeavesPrefixBetween D.PageDisk store.old store.new }
    // A crash after it does so for the commands and the frontier then.
    ensures left { LeavesPrefixAt D.PageDisk store.new }
    ensures honest { D.honest store.old.disk ↔ D.honest store.new.disk }
{
    // Called for its contract alone: what a crash leaves now.
    store.persistent();
    match read_bytes(alloc, reader, most_bytes(store)) {
        Ok(bytes) => put_bytes(store, id, &bytes),
        Err(_) => Outcome::Failed,
    }
}

/// What the reader gives, up to one byte more than this.
fn read_bytes<R: Read + Drop>(alloc: Global, reader: R, most: usize) -> io::Result<Vec<u8>>
    requires { most < 2 ^ 32 }
    ensures { (text : List ℕ) → R.remaining reader ≡ Some text → IfOk result (λ bytes. bytes.items ≡ take (most + 1) text) }
{
    let mut bytes = Vec::new(alloc);
    reader.take(most as u64 + 1).read_to_end(&mut bytes)?;
    Ok(bytes)
}

/// Keeps these bytes under an identifier, and makes them persistent.
fn put_bytes<D: PageDisk>(store: &mut Store<D>, id: ShardId, bytes: &[u8]) -> Outcome
    ensures events { Puts D.PageDisk id bytes.now store.old store.new result }
    ensures map { (m : Map) → HasMap store.old m → D.honest store.old.disk → PutsInto D.PageDisk m id bytes.now store.old store.new result }
    ensures large { most_bytes (shape store.old.store.extents) < length bytes.now → (result ≡ Refused Refusal.TooLarge) × (store.new ≡ store.old) }
    ensures crash { LeavesPrefixBetween D.PageDisk store.old store.new }
    ensures left { LeavesPrefixAt D.PageDisk store.new }
    ensures honest { D.honest store.old.disk ↔ D.honest store.new.disk }
{
    // Called for its contract alone: what a crash leaves now.
    store.persistent();
    if bytes.len() > most_bytes(store) {
        return Outcome::Refused(Refusal::TooLarge);
    }
    match store.put(id, bytes) {
        Ok(_) => commit(store),
        Err(error) => Outcome::Refused(error.refusal()),
    }
}
