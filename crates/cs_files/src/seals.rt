//! How a command ends that wrote to a store.
ghost use Rattle.std.specs.Prelude.{◌≤◌};

use crate::files::{OverFile, Written};
use crate::manners::{End, Manner};
use crate::openings::Shown;
use crate::warnings::warn_of_unsealed;
use cs_doctor::{Known, Outcome, explain};
use cs_store::mount::the_core::Core;
use cs_store::mount::{Mounted, seal};

/// Whether a command did what it was to do, as far as what is there can be read.
fn is_done(outcome: Outcome) -> bool {
    match outcome {
        Outcome::Done | Outcome::Damaged => true,
        _ => false,
    }
}

/// The disk of a store, after the store was sealed. If it can't be sealed that is reported, and what was made
/// persistent stays so.
fn sealed<R: AllocGlobal + Eprint>(
    rt: &R,
    core: Core<Mounted<Written>>,
    manner: Manner,
) -> Mounted<Written> {
    match seal(rt.alloc(), core) {
        Ok(disk) => disk,
        Err((refusal, disk)) => {
            warn_of_unsealed(rt, refusal, manner.style);
            disk
        }
    }
}

/// Ends a command that wrote to a store, prints how it ended, and gives the exit status. If the command was done the
/// store is sealed first, unless that isn't wanted.
pub fn end_written<R: AllocGlobal + Eprint>(
    rt: &R,
    core: Core<Mounted<Written>>,
    outcome: Outcome,
    end: End,
    manner: Manner,
) -> u8
    ensures { result ≤ 7 }
{
    let disk = if end == End::Sealed && is_done(outcome) {
        sealed(rt, core, manner)
    } else {
        core.into_disk()
    };
    let known = Known::of_system(disk.into_below().fault());
    explain(rt, outcome, &known, manner.style)
}
