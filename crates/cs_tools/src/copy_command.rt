//! Copies of a whole store into another one.
ghost use Rattle.std.specs.Prelude.{◌≡◌, ◌≢◌, ◌⊎◌, ◌↔◌, IfErr, IfOk, IsOk, OnOk, None, Some, length, map};
ghost use Rattle.std.specs.List.{AllByRecursion};
ghost use Rattle.cs_disk.specs.Reads.{OnlyReads};
ghost use Rattle.cs_index.specs.State.{id_number};
ghost use Rattle.law_machine.specs.Element.{Bytes, Map};
ghost use Rattle.cs_store.specs.Maps.{HasMap};
ghost use Rattle.cs_inspect.specs.Listings.{AreAll};
ghost use Rattle.cs_tools.specs.Copies.{Agree, EndsWhole, HasAMap, HasBytes, HasNothing, MayStopCopy, NoneDamaged, over, over_all};
ghost use Rattle.cs_tools.specs.Reclaims.{IsPersistent};
ghost use Rattle.cs_advice.specs.declared.outcomes.Outcome.TheVariants.{Done};

use crate::exports::LINES;
use cs_advice::Outcome;
use cs_disk::PageDisk;
use cs_frame::ShardId;
use cs_inspect::Progress;
use cs_refusal::Refusal;
use cs_store::{Reserve, Store};

/// Puts all shards of a store into another one, which is to have none, with a sync after every 1,000 puts and at the
/// end; then reads all of them back from both and compares them. It is done only if both stores have the same shards
/// with the same bytes, and all of the copy is persistent.
///
/// A copy takes all that the store has, so it holds nothing back in the other one (`Reserve::None`). Refused as a put
/// without a reserve and `Store::sync` of the other store are, 30 Full among them, and 9 OutOfMemory; the other store
/// has some of the shards then. It ends as unread if a shard of either store can't be read, and as damaged if the
/// other store has other shards than this one, or other bytes.
pub fn copy<D: PageDisk, E: PageDisk, P: Progress>(
    from: &mut Store<D>,
    to: &mut Store<E>,
    progress: &P,
) -> Outcome
    ensures copied { (m : Map) → HasMap from.old m → HasAMap to.old → D.honest from.old.disk → E.honest to.old.disk → result ≡ Done → HasMap to.new m × IsPersistent to.new }
    // Of a store without a damaged shard, into one that has none, it ends only so: as done, refused as the other store
    // may be, or unread since the device or memory refused.
    ensures whole { (m n : Map) → HasMap from.old m → HasMap to.old n → NoneDamaged m → HasNothing n → D.honest from.old.disk → E.honest to.old.disk → EndsWhole result }
    ensures ends { (result ≡ Done) ⊎ MayStopCopy result }
    // The store that is copied is only read.
    ensures same { from.new ≡ record from.old { disk = from.new.disk } }
    ensures disk { OnlyReads D.PageDisk from.old.disk from.new.disk }
    ensures honest { E.honest to.old.disk ↔ E.honest to.new.disk }
{
    let Ok(ids) = from.ids() else {
        return Outcome::Refused(Refusal::OutOfMemory);
    };
    match put_all(from, to, &ids, progress) {
        Ok(()) => compare_all(from, to, &ids, progress),
        Err(outcome) => outcome,
    }
}

/// Puts these shards of a store into another one, and makes them persistent.
fn put_all<D: PageDisk, E: PageDisk, P: Progress>(
    from: &mut Store<D>,
    to: &mut Store<E>,
    ids: &[ShardId],
    progress: &P,
) -> Result<(), Outcome>
    ensures persistent { E.honest to.old.disk → OnOk result (IsPersistent to.new) }
    ensures map { HasAMap to.old → HasAMap to.new }
    ensures put { (m n : Map) → HasMap from.old m → HasMap to.old n → D.honest from.old.disk → OnOk result (HasMap to.new (over_all n m ids.now)) }
    ensures whole { (m : Map) → HasMap from.old m → D.honest from.old.disk → AllByRecursion (λ id. HasBytes m (id_number id)) ids.now → IfErr result EndsWhole }
    ensures ends { IfErr result MayStopCopy }
    ensures same { from.new ≡ record from.old { disk = from.new.disk } }
    ensures disk { OnlyReads D.PageDisk from.old.disk from.new.disk }
    ensures honest { E.honest to.old.disk ↔ E.honest to.new.disk }
{
    let all = ids.len().saturating_mul(2);
    for k in 0..ids.len() {
        progress.tell(k, all);
        match put_next(from, to, ids[k], k) {
            Ok(()) => {}
            Err(outcome) => return Err(outcome),
        }
    }
    finish(to)
}

/// Puts a shard of a store into another one, after so many others. After every 1,000 of them all is made persistent.
fn put_next<D: PageDisk, E: PageDisk>(
    from: &mut Store<D>,
    to: &mut Store<E>,
    id: ShardId,
    done: usize,
) -> Result<(), Outcome>
    ensures map { HasAMap to.old → HasAMap to.new }
    ensures put { (m n : Map) → HasMap from.old m → HasMap to.old n → D.honest from.old.disk → OnOk result (HasMap to.new (over n m (id_number id))) }
    ensures whole { (m : Map) → HasMap from.old m → D.honest from.old.disk → HasBytes m (id_number id) → IfErr result EndsWhole }
    ensures ends { IfErr result MayStopCopy }
    ensures same { from.new ≡ record from.old { disk = from.new.disk } }
    ensures disk { OnlyReads D.PageDisk from.old.disk from.new.disk }
    ensures honest { E.honest to.old.disk ↔ E.honest to.new.disk }
{
    match put_one(from, to, id) {
        Ok(()) if done % LINES == LINES - 1 => finish(to),
        ended => ended,
    }
}

/// Puts a shard of a store into another one.
fn put_one<D: PageDisk, E: PageDisk>(
    from: &mut Store<D>,
    to: &mut Store<E>,
    id: ShardId,
) -> Result<(), Outcome>
    ensures map { HasAMap to.old → HasAMap to.new }
    ensures put { (m n : Map) → HasMap from.old m → HasMap to.old n → D.honest from.old.disk → OnOk result (HasMap to.new (over n m (id_number id))) }
    ensures whole { (m : Map) → HasMap from.old m → D.honest from.old.disk → HasBytes m (id_number id) → IfErr result EndsWhole }
    ensures ends { IfErr result MayStopCopy }
    ensures same { from.new ≡ record from.old { disk = from.new.disk } }
    ensures disk { OnlyReads D.PageDisk from.old.disk from.new.disk }
    ensures honest { E.honest to.old.disk ↔ E.honest to.new.disk }
{
    let bytes = match read_one(from, id) {
        Ok(bytes) => bytes,
        Err(outcome) => return Err(outcome),
    };
    match to.put_within(Reserve::None, id, &bytes) {
        Ok(_) => Ok(()),
        Err(error) => Err(Outcome::Refused(error.refusal())),
    }
}

/// Makes all that was put persistent.
fn finish<E: PageDisk>(to: &mut Store<E>) -> Result<(), Outcome>
    ensures persistent { E.honest to.old.disk → OnOk result (IsPersistent to.new) }
    ensures map { HasAMap to.old → HasAMap to.new }
    ensures kept { (n : Map) → HasMap to.old n → HasMap to.new n }
    ensures whole { IfErr result EndsWhole }
    ensures ends { IfErr result MayStopCopy }
    ensures honest { E.honest to.old.disk ↔ E.honest to.new.disk }
{
    match to.sync() {
        Ok(_) => Ok(()),
        Err(error) => Err(Outcome::Refused(error.refusal())),
    }
}

/// The bytes of a shard that a store has.
fn read_one<D: PageDisk>(store: &mut Store<D>, id: ShardId) -> Result<Vec<u8>, Outcome>
    ensures bytes { (m : Map) → HasMap store.old m → D.honest store.old.disk → IfOk result (λ bytes. m (id_number id) ≡ Some (Bytes bytes.items)) }
    ensures whole { (m : Map) → HasMap store.old m → D.honest store.old.disk → HasBytes m (id_number id) → IfErr result EndsWhole }
    ensures ends { IfErr result MayStopCopy }
    ensures same { store.new ≡ record store.old { disk = store.new.disk } }
    ensures disk { OnlyReads D.PageDisk store.old.disk store.new.disk }
{
    match store.get(id) {
        Ok(Some(bytes)) => Ok(bytes),
        Ok(None) => Err(Outcome::Damaged),
        Err(error) => Err(Outcome::Unread(error.refusal())),
    }
}

/// Compares all shards of two stores, of which the first has these.
fn compare_all<D: PageDisk, E: PageDisk, P: Progress>(
    from: &mut Store<D>,
    to: &mut Store<E>,
    ids: &[ShardId],
    progress: &P,
) -> Outcome
    ensures agree { (m n : Map) → HasMap from.old m → HasMap to.old n → D.honest from.old.disk → E.honest to.old.disk → AreAll (λ id. m id ≢ None) (map id_number ids.now)
        → result ≡ Done → Agree m n }
    ensures whole { (m : Map) → HasMap from.old m → HasMap to.old m → NoneDamaged m → D.honest from.old.disk → E.honest to.old.disk → AreAll (λ id. m id ≢ None) (map id_number ids.now) → EndsWhole result }
    ensures ends { (result ≡ Done) ⊎ MayStopCopy result }
    ensures same { from.new ≡ record from.old { disk = from.new.disk } }
    ensures disk { OnlyReads D.PageDisk from.old.disk from.new.disk }
    ensures to_same { to.new ≡ record to.old { disk = to.new.disk } }
    ensures to_disk { OnlyReads E.PageDisk to.old.disk to.new.disk }
{
    let Ok(copied) = to.ids() else {
        return Outcome::Refused(Refusal::OutOfMemory);
    };
    if copied.len() != ids.len() {
        return Outcome::Damaged;
    }
    compare_each(from, to, ids, &copied, progress)
}

/// Compares shards of two stores, one after another, by the identifiers that either lists.
fn compare_each<D: PageDisk, E: PageDisk, P: Progress>(
    from: &mut Store<D>,
    to: &mut Store<E>,
    ids: &[ShardId],
    copied: &[ShardId],
    progress: &P,
) -> Outcome
    requires { length copied.now ≡ length ids.now }
    ensures ids { result ≡ Done → copied.now ≡ ids.now }
    ensures agree { (m n : Map) → HasMap from.old m → HasMap to.old n → D.honest from.old.disk → E.honest to.old.disk
        → result ≡ Done → AllByRecursion (λ id. n (id_number id) ≡ m (id_number id)) ids.now }
    ensures whole { (m : Map) → HasMap from.old m → HasMap to.old m → D.honest from.old.disk → E.honest to.old.disk → AllByRecursion (λ id. HasBytes m (id_number id)) ids.now
        → map id_number copied.now ≡ map id_number ids.now → EndsWhole result }
    ensures ends { (result ≡ Done) ⊎ MayStopCopy result }
    ensures same { from.new ≡ record from.old { disk = from.new.disk } }
    ensures disk { OnlyReads D.PageDisk from.old.disk from.new.disk }
    ensures to_same { to.new ≡ record to.old { disk = to.new.disk } }
    ensures to_disk { OnlyReads E.PageDisk to.old.disk to.new.disk }
{
    let all = ids.len().saturating_mul(2);
    for k in 0..ids.len() {
        progress.tell(ids.len().saturating_add(k), all);
        match compare_one(from, to, ids[k], copied[k]) {
            Ok(()) => {}
            Err(outcome) => return outcome,
        }
    }
    progress.tell(all, all);
    Outcome::Done
}

/// Compares a shard of two stores, which either lists under this identifier.
fn compare_one<D: PageDisk, E: PageDisk>(
    from: &mut Store<D>,
    to: &mut Store<E>,
    id: ShardId,
    copied: ShardId,
) -> Result<(), Outcome>
    ensures id { OnOk result (copied ≡ id) }
    ensures agree { (m n : Map) → HasMap from.old m → HasMap to.old n → D.honest from.old.disk → E.honest to.old.disk → OnOk result (n (id_number id) ≡ m (id_number id)) }
    ensures whole { (m : Map) → HasMap from.old m → HasMap to.old m → D.honest from.old.disk → E.honest to.old.disk → HasBytes m (id_number id) → id_number copied ≡ id_number id → IfErr result EndsWhole }
    ensures ends { IfErr result MayStopCopy }
    ensures same { from.new ≡ record from.old { disk = from.new.disk } }
    ensures disk { OnlyReads D.PageDisk from.old.disk from.new.disk }
    ensures to_same { to.new ≡ record to.old { disk = to.new.disk } }
    ensures to_disk { OnlyReads E.PageDisk to.old.disk to.new.disk }
{
    // Called for their contracts alone: what identifiers are.
    let _id = id.bytes();
    let _copied = copied.bytes();
    if copied != id {
        return Err(Outcome::Damaged);
    }
    compare_bytes(from, to, id)
}

/// Compares the bytes of a shard of two stores.
fn compare_bytes<D: PageDisk, E: PageDisk>(
    from: &mut Store<D>,
    to: &mut Store<E>,
    id: ShardId,
) -> Result<(), Outcome>
    ensures agree { (m n : Map) → HasMap from.old m → HasMap to.old n → D.honest from.old.disk → E.honest to.old.disk → OnOk result (n (id_number id) ≡ m (id_number id)) }
    ensures whole { (m : Map) → HasMap from.old m → HasMap to.old m → D.honest from.old.disk → E.honest to.old.disk → HasBytes m (id_number id) → IfErr result EndsWhole }
    ensures ends { IfErr result MayStopCopy }
    ensures same { from.new ≡ record from.old { disk = from.new.disk } }
    ensures disk { OnlyReads D.PageDisk from.old.disk from.new.disk }
    ensures to_same { to.new ≡ record to.old { disk = to.new.disk } }
    ensures to_disk { OnlyReads E.PageDisk to.old.disk to.new.disk }
{
    let put = match read_one(from, id) {
        Ok(bytes) => bytes,
        Err(outcome) => return Err(outcome),
    };
    match read_one(to, id) {
        Ok(read) => check_same(&read, &put),
        Err(outcome) => Err(outcome),
    }
}

/// Checks that these are the same bytes.
fn check_same(read: &[u8], put: &[u8]) -> Result<(), Outcome>
    ensures same { OnOk result (read.now ≡ put.now) }
    ensures passes { read.now ≡ put.now → IsOk result }
    ensures ends { IfErr result MayStopCopy }
{
    if read == put {
        Ok(())
    } else {
        Err(Outcome::Damaged)
    }
}
