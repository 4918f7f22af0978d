//! Makes persistent what a command did.
ghost use Rattle.std.specs.Prelude.{◌≡◌, ◌↔◌};
ghost use Rattle.law_machine.specs.Element.{Map};
ghost use Rattle.cs_store.specs.Maps.{HasMap};
ghost use Rattle.cs_tools.specs.Changes.{Commits, LeavesPrefixAt, LeavesPrefixBetween};
ghost use Rattle.cs_advice.specs.declared.outcomes.Outcome.TheVariants.{Done};

use cs_advice::Outcome;
use cs_disk::PageDisk;
use cs_store::Store;

/// Makes all that was accepted persistent.
pub fn commit<D: PageDisk>(store: &mut Store<D>) -> Outcome
    ensures events { Commits D.PageDisk store.old store.new result }
    ensures map { (m : Map) → HasMap store.old m → HasMap store.new m }
    ensures same { D.honest store.old.disk → store.new.store.accepted ≡ store.old.store.accepted }
    ensures all { D.honest store.old.disk → result ≡ Done → store.new.store.frontier ≡ store.new.store.accepted }
    ensures crash { LeavesPrefixBetween D.PageDisk store.old store.new }
    ensures left { LeavesPrefixAt D.PageDisk store.new }
    ensures honest { D.honest store.old.disk ↔ D.honest store.new.disk }
{
    match store.sync() {
        Ok(_) => Outcome::Done,
        Err(error) => Outcome::Refused(error.refusal()),
    }
}
