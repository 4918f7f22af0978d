//! Which extent a reclaim empties next.
ghost use Rattle.std.specs.Prelude.{◌≡◌, ℕ, IfOk, Ok};
ghost use Rattle.cs_inspect.specs.Choices.{ReadsOn};
ghost use Rattle.cs_tools.specs.Aims.{IsNextFor};
ghost use Rattle.cs_tools.specs.Headers.{IsLeft};
ghost use Rattle.cs_tools.specs.declared.aims.Aim.TheVariants.{Brim, Pairs, Room};
ghost use Rattle.cs_tools.specs.declared.seeks.Next.TheVariants.{Nothing};

use crate::aims::{Aim, has_room_for};
use crate::headers::look_over;
use cs_disk::PageDisk;
use cs_inspect::{Choice, choose_past};
use cs_store::mount::the_core::Core;
use std::alloc::{AllocError, Global};

/// What is emptied next.
#[derive(Clone, Copy)]
pub enum Next {
    /// This extent.
    Extent(Choice),
    /// Nothing more. So many headers couldn't be read.
    Nothing { unreadable: usize },
}

/// What is emptied next by a reclaim of this aim, except in formats 1 and 2, if these extents are passed over. It costs
/// what `uses` of cs_inspect costs, a read for each live chunk, and the same again if nothing more is emptied.
pub fn next_for<D: PageDisk>(
    alloc: Global,
    core: &mut Core<D>,
    aim: Aim,
    passed: &[usize],
) -> Result<Next, AllocError>
    ensures chosen { IfOk result (IsNextFor D.PageDisk aim passed.now core.old core.new) }
    ensures left { (unreadable : ℕ) → result ≡ Ok (Nothing unreadable) → IsLeft D.PageDisk unreadable core.new }
    ensures reads { ReadsOn D.PageDisk core.old core.new }
{
    match aim {
        Aim::Pairs => next_of_pairs(alloc, core, passed),
        Aim::Room(bytes) => next_for_put(alloc, core, bytes, passed),
        Aim::Brim => next_to_brim(alloc, core, passed),
    }
}

/// One of two extents that fit on one.
fn next_of_pairs<D: PageDisk>(
    alloc: Global,
    core: &mut Core<D>,
    passed: &[usize],
) -> Result<Next, AllocError>
    ensures chosen { IfOk result (IsNextFor D.PageDisk Pairs passed.now core.old core.new) }
    ensures left { (unreadable : ℕ) → result ≡ Ok (Nothing unreadable) → IsLeft D.PageDisk unreadable core.new }
    ensures reads { ReadsOn D.PageDisk core.old core.new }
{
    let survey = look_over(alloc, core, passed)?;
    match survey.choice {
        Some(choice) => Ok(Next::Extent(choice)),
        None => Ok(Next::Nothing {
            unreadable: survey.unreadable,
        }),
    }
}

/// The extent that the rule up to the brim chooses, unless a put of so many bytes has room.
fn next_for_put<D: PageDisk>(
    alloc: Global,
    core: &mut Core<D>,
    bytes: usize,
    passed: &[usize],
) -> Result<Next, AllocError>
    ensures chosen { IfOk result (IsNextFor D.PageDisk (Room bytes) passed.now core.old core.new) }
    ensures left { (unreadable : ℕ) → result ≡ Ok (Nothing unreadable) → IsLeft D.PageDisk unreadable core.new }
    ensures reads { ReadsOn D.PageDisk core.old core.new }
{
    if has_room_for(core.extents(), bytes) {
        return nothing_more(alloc, core, passed);
    }
    next_to_brim(alloc, core, passed)
}

/// The extent that the rule up to the brim chooses.
fn next_to_brim<D: PageDisk>(
    alloc: Global,
    core: &mut Core<D>,
    passed: &[usize],
) -> Result<Next, AllocError>
    ensures chosen { IfOk result (IsNextFor D.PageDisk Brim passed.now core.old core.new) }
    ensures left { (unreadable : ℕ) → result ≡ Ok (Nothing unreadable) → IsLeft D.PageDisk unreadable core.new }
    ensures reads { ReadsOn D.PageDisk core.old core.new }
{
    let found = choose_past(alloc, core, passed)?;
    match found {
        Some(choice) => Ok(Next::Extent(choice)),
        None => nothing_more(alloc, core, passed),
    }
}

/// That nothing more is emptied, and how many headers can't be read.
fn nothing_more<D: PageDisk>(
    alloc: Global,
    core: &mut Core<D>,
    passed: &[usize],
) -> Result<Next, AllocError>
    ensures nothing { IfOk result (λ next. (unreadable : ℕ) × (next ≡ Nothing unreadable) × IsLeft D.PageDisk unreadable core.new) }
    ensures reads { ReadsOn D.PageDisk core.old core.new }
{
    let survey = look_over(alloc, core, passed)?;
    Ok(Next::Nothing {
        unreadable: survey.unreadable,
    })
}
