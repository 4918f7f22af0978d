//! The command `del`.
ghost use Rattle.std.specs.Prelude.{◌↔◌};
ghost use Rattle.law_machine.specs.Element.{Map};
ghost use Rattle.cs_store.specs.Maps.{HasMap};
ghost use Rattle.cs_tools.specs.Changes.{Deletes, DeletesFrom, LeavesPrefixAt, LeavesPrefixBetween};

use crate::commits::commit;
use cs_advice::Outcome;
use cs_disk::PageDisk;
use cs_frame::ShardId;
use cs_store::Store;

/// Deletes what is under an identifier, and makes that persistent. If there is nothing under it, no command is
/// accepted, and nothing is made persistent.
///
/// It is refused as `Store::delete` is, or as the `Store::sync` after it: 1 DeviceFault, 9 OutOfMemory, 30 Full,
/// 35 WornOut, 40 Halted or 41 HistoryFull.
pub fn delete<D: PageDisk>(store: &mut Store<D>, id: ShardId) -> Outcome
    ensures events { Deletes D.PageDisk id store.old store.new result }
    ensures map { (m : Map) → HasMap store.old m → D.honest store.old.disk → DeletesFrom D.PageDisk m id store.old store.new result }
    // A crash at any moment of it leaves the map after some of the commands, none of those left out that were persistent before.
    ensures crash { LeavesPrefixBetween D.PageDisk store.old store.new }
    // A crash after it does so for the commands and the frontier then.
    ensures left { LeavesPrefixAt D.PageDisk store.new }
    ensures honest { D.honest store.old.disk ↔ D.honest store.new.disk }
{
    match store.delete(id) {
        Ok(Some(_)) => commit(store),
        Ok(None) => Outcome::Absent,
        Err(error) => Outcome::Refused(error.refusal()),
    }
}
