//! Which extent to sweep if some are passed over.
ghost use Rattle.std.specs.Prelude.{◌≡◌, ℕ, [], IfOk, IfSome, Option};
ghost use Rattle.cs_core.specs.Views.{View};
ghost use Rattle.cs_extent.specs.State.{shape};
ghost use Rattle.cs_inspect.specs.Choices.{Chooses, ChoosesSweep, ReadsOn, chosen_extent};
ghost use Rattle.cs_inspect.specs.Kinds.{LieApart};
ghost use Rattle.cs_inspect.specs.Past.{ChoosesPairPast, ChoosesPast, IsNoneOf, is_of_chunk, pass_over, passing};

use crate::choices::{Choice, choose_next};
use crate::surveys::{ExtentUse, Survey, survey_extents};
use cs_core::Core;
use cs_disk::PageDisk;
use cs_refusal::Refusal;
use std::alloc::{AllocError, Global};

/// Whether the refusal of a sweep tells of a chunk: the device didn't read it, or it is damaged.
pub fn is_of_chunk(refusal: Refusal) -> bool
    ensures { result ≡ is_of_chunk refusal }
{
    matches!(
        refusal,
        Refusal::DeviceFault
            | Refusal::BadMagic
            | Refusal::BadDigest
            | Refusal::BadLength
            | Refusal::BadPadding
            | Refusal::BadVersion
            | Refusal::Misplaced
    )
}

/// Chooses the extent to sweep next, except in formats 1 and 2, or None: by the rule of `choose_sweep`, but these
/// extents are passed over. Each of them counts as one with an unreadable header: nothing is moved off it, and no copy
/// is counted on it.
///
/// It costs what `choose_sweep` costs: a read for each live chunk, and memory for all of them and for the extents.
pub fn choose_past<D: PageDisk>(
    alloc: Global,
    core: &mut Core<D>,
    passed: &[usize],
) -> Result<Option<Choice>, AllocError>
    // It goes by the extents as they are and the headers of their chunks as they were read.
    ensures chosen { IfOk result (λ found. ChoosesPast D.PageDisk passed.now core.old core.new (chosen_extent found)) }
    ensures fresh { IfOk result (λ found. IfSome found (λ choice. IsNoneOf passed.now choice.extent)) }
    ensures reads { ReadsOn D.PageDisk core.old core.new }
{
    let extents = core.extents();
    let last = extents.last_copied();
    let pages = extents.extent_pages();
    let Survey { mut uses, greatest } = survey_extents(alloc, core)?;
    pass_all(&mut uses, passed);
    Ok(choose_next(&uses, last, pages, greatest))
}

/// Passes over these extents.
pub fn pass_all(uses: &mut [ExtentUse], passed: &[usize])
    ensures { uses.new ≡ passing passed.now uses.old }
{
    for i in 0..passed.len() {
        pass_one(uses, passed[i]);
    }
}

/// Passes over an extent, if it is there.
fn pass_one(uses: &mut [ExtentUse], extent: usize)
    ensures { uses.new ≡ pass_over uses.old extent }
{
    if extent < uses.len() {
        uses[extent].unreadable = 1;
    }
}

/// If no extent is passed over, `choose_past` chooses as `choose_sweep` does, and a choice of one of two that fit on one
/// is as `fewest_live` chooses.
pub fn nothing_passed_over_is_no_change<D: PageDisk>()
    ensures next { (old read : View D) → LieApart (shape old.store.extents) → (chosen : Option (ℕ × ℕ)) → ChoosesPast D.PageDisk [] old read chosen → ChoosesSweep D.PageDisk old read chosen }
    ensures pair { (old read : View D) → LieApart (shape old.store.extents) → (chosen : Option (ℕ × ℕ)) → ChoosesPairPast D.PageDisk [] old read chosen → Chooses D.PageDisk old read chosen }
{}
