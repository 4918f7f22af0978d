//! Which extent a node sweeps next in format 4.
ghost use Rattle.std.specs.Prelude.{◌≡◌, ℕ, [], IfOk, None, Some};
ghost use Rattle.cs_core.specs.Views.{View};
ghost use Rattle.cs_extent.specs.State.{shape};
ghost use Rattle.cs_index.specs.State.{index_of};
ghost use Rattle.cs_inspect.specs.Choices.{ChoosesSweep, GoesNext, ReadsOn};
ghost use Rattle.cs_inspect.specs.Kinds.{LieApart};
ghost use Rattle.cs_inspect.specs.Uses.{HoldsOfHeads};
ghost use Rattle.cs_node.specs.Choices.{ChoosesPast};
ghost use Rattle.law_machine.specs.Index.{names};

use cs_core::Core;
use cs_disk::PageDisk;
use cs_inspect::choose_past;
use std::alloc::{AllocError, Global};

/// Chooses the extent to sweep next in format 4, or None, as `choose_past` of cs_inspect: by the rule of `choose_sweep`,
/// but these extents are passed over.
pub fn choose_extent<D: PageDisk>(
    alloc: Global,
    core: &mut Core<D>,
    passed: &[usize],
) -> Result<Option<usize>, AllocError>
    // It goes by the extents as they are and the headers of their chunks as they were read.
    ensures chosen { IfOk result (λ found. ChoosesPast D.PageDisk passed.now core.old core.new found) }
    ensures reads { ReadsOn D.PageDisk core.old core.new }
{
    let found = choose_past(alloc, core, passed)?;
    match found {
        Some(choice) => Ok(Some(choice.extent)),
        None => Ok(None),
    }
}

/// A node that passes over no extent chooses as `choose_sweep` of cs_inspect does.
pub fn a_node_chooses_as_a_store<D: PageDisk>()
    ensures extent { (old read : View D) (extent : ℕ) → LieApart (shape old.store.extents) → ChoosesPast D.PageDisk [] old read (Some extent)
        → D.honest old.disk
        → HoldsOfHeads D.PageDisk old (λ heads. (dead : ℕ) × GoesNext D.PageDisk heads (names (index_of old.store.index)) old read (Some (extent, dead))) }
    ensures none { (old read : View D) → LieApart (shape old.store.extents) → ChoosesPast D.PageDisk [] old read None → ChoosesSweep D.PageDisk old read None }
{}
