//! Which extent to sweep, and whether that gains.
ghost use Rattle.std.specs.Prelude.{IfOk, ◌≡◌, ◌+◌, ◌-◌, ◌^◌, ◌↔◌, min, ◌<◌, ◌≤◌, ℕ, IsTrue, MatchBool, MatchOption, Some, length};
ghost use Rattle.cs_extent.specs.State.{shape};
ghost use Rattle.cs_inspect.specs.Brim.{ChoosesNext, IsNext, IsSureFewest, NoneNext, NoneSure, sum_below, sure_at};
ghost use Rattle.cs_inspect.specs.Choices.{ChoosesSweep, IsRule, ReadsOn, chosen_extent};
ghost use Rattle.cs_inspect.specs.Fewest.{HasFewer, HasNoFewer, IsFewestLive, IsFewestOf, IsSought, NoTwoFit, NoneSought};

use crate::choices_v2::{choose_most_garbage, index_pages};
use crate::surveys::{ExtentUse, survey_extents};
use cs_core::Core;
use cs_disk::PageDisk;
use cs_extent::Extents;
use std::alloc::{AllocError, Global};

/// An extent that is worth sweeping.
#[derive(Clone, Copy, Debug, PartialEq, Eq)]
pub struct Choice {
    /// Its number.
    pub extent: usize,
    /// How many of its pages no shard has.
    pub dead: usize,
}

/// By which rule a store's extents are chosen.
#[derive(Clone, Copy, Debug, PartialEq, Eq)]
pub enum SweepRule {
    /// An extent with few live pages.
    FewestLive,
    /// The extent with most garbage: the rule of format 2.
    MostGarbage,
}

impl SweepRule {
    /// The rule of a store with these extents.
    pub fn of(extents: &Extents) -> Self
        ensures { IsRule (shape extents.now) result }
    {
        if extents.is_apart() {
            SweepRule::FewestLive
        } else {
            SweepRule::MostGarbage
        }
    }
}

/// Chooses the extent to sweep. It returns None if no page is dead and no sweep is sure to gain anything.
///
/// That is the extent that `next_to_sweep` tells: one of two that fit on one, else one with dead pages, else one whose
/// sweep is sure to gain an extent. So where none is chosen, no page of chunks is dead.
///
/// In format 2 it is the extent with most garbage (`most_garbage`), if that is more than the index takes, which a
/// sweep writes anew. So each sweep frees pages.
///
/// It costs what `uses` costs: a read for each live chunk, and memory for all of them and for the extents.
pub fn choose_sweep<D: PageDisk>(
    alloc: Global,
    core: &mut Core<D>,
) -> Result<Option<Choice>, AllocError>
    // It goes by the extents as they are and the headers of their chunks as they were read.
    ensures chosen { IfOk result (λ found. ChoosesSweep D.PageDisk core.old core.new (chosen_extent found)) }
    ensures reads { ReadsOn D.PageDisk core.old core.new }
{
    let extents = core.extents();
    let rule = SweepRule::of(extents);
    let last = extents.last_copied();
    let pages = extents.extent_pages();
    let index_pages = index_pages(core.index(), extents);
    let survey = survey_extents(alloc, core)?;
    match rule {
        SweepRule::FewestLive => Ok(choose_next(&survey.uses, last, pages, survey.greatest)),
        SweepRule::MostGarbage => Ok(choose_most_garbage(&survey.uses, index_pages)),
    }
}

/// The extent that is to be swept next, of so many pages, where no chunk has more pages than the greatest.
pub fn choose_next(
    uses: &[ExtentUse],
    last: Option<usize>,
    pages: usize,
    greatest: usize,
) -> Option<Choice>
    ensures { ChoosesNext uses.now last pages greatest (chosen_extent result) }
{
    let Some(extent) = next_to_sweep(uses, last, pages, greatest) else {
        return None;
    };
    let dead = uses[extent].dead();
    Some(Choice { extent, dead })
}

/// The extent to sweep, so that fewer extents hold chunks: the one with fewest live pages, the first of them if several
/// have as few. It is chosen if these and the live pages of another extent fit on one of so many pages. It returns None
/// if no two extents fit on one.
///
/// Only extents count from which all may be moved: they hold chunks, each of their headers can be read, and they aren't
/// being swept. `last`, the extent to which the last copy of any sweep went, counts only as the other one, so that the
/// copies of the next sweep are appended to it.
///
/// Two such sweeps free an extent: the first sweep, or the second (the law `two_sweeps_gain` of law_room). It costs two
/// passes over the extents.
pub fn fewest_live(uses: &[ExtentUse], last: Option<usize>, pages: usize) -> Option<usize>
    ensures { MatchOption result (NoTwoFit uses.now pages) (IsFewestLive uses.now last pages) }
{
    let Some(extent) = fewest_but(uses, last, 0) else {
        return None;
    };
    let Some(other) = fewest_but(uses, Some(extent), 0) else {
        return None;
    };
    if fit_on_one(uses[extent].live, uses[other].live, pages) {
        Some(extent)
    } else {
        None
    }
}

/// The extent to sweep next, so that puts find room up to the brim: each extent has so many pages, and no chunk more
/// than the greatest.
///
/// If what lives on two extents fits on one, it is one of these (`fewest_live`). Else it is the extent with fewest live
/// pages of those with dead pages, down to one dead page. Else nothing is dead, and it is the extent with fewest live
/// pages, if all of these are sure to go to other extents that hold chunks. Else it returns None.
///
/// So where nothing is put or deleted meanwhile, there are at most as many sweeps as extents have dead pages, and two
/// for each extent that is gained (the law `sweeps_by_the_rule_end` of law_room). It costs some passes over the extents.
pub fn next_to_sweep(
    uses: &[ExtentUse],
    last: Option<usize>,
    pages: usize,
    greatest: usize,
) -> Option<usize>
    ensures { MatchOption result (NoneNext uses.now pages greatest) (IsNext uses.now last pages greatest) }
{
    match fewest_live(uses, last, pages) {
        Some(extent) => Some(extent),
        None => match fewest_but(uses, None, 1) {
            Some(extent) => Some(extent),
            None => sure_to_gain(uses, pages, greatest),
        },
    }
}

/// The extent with fewest live pages, if there are some and all of them are sure to go to others that hold chunks.
fn sure_to_gain(uses: &[ExtentUse], pages: usize, greatest: usize) -> Option<usize>
    ensures { MatchOption result (NoneSure uses.now pages greatest) (IsSureFewest uses.now pages greatest) }
{
    let Some(extent) = fewest_but(uses, None, 0) else {
        return None;
    };
    let live = uses[extent].live;
    if live == 0 {
        return None;
    }
    if is_at_most(live, sure_beside(uses, extent, pages, greatest)) {
        Some(extent)
    } else {
        None
    }
}

/// Whether a number is at most a sum, for which `usize::MAX` stands if it is more.
fn is_at_most(number: usize, capped: usize) -> bool
    ensures { (sum : ℕ) → capped ≡ min sum (2 ^ 64 - 1) → MatchBool result (number ≤ sum) (sum < number) }
{
    number <= capped
}

/// How many pages of copies are sure to go to other extents while this one is swept. `usize::MAX` stands for more.
fn sure_beside(uses: &[ExtentUse], swept: usize, pages: usize, greatest: usize) -> usize
    ensures { result ≡ min (sum_below (sure_at uses.now pages greatest swept) (length uses.now)) (2 ^ 64 - 1) }
{
    let mut sure: usize = 0;
    for extent in 0..uses.len() {
        sure = sure.saturating_add(sure_in(uses, extent, swept, pages, greatest));
    }
    sure
}

/// How many of them are sure to go to one extent.
fn sure_in(uses: &[ExtentUse], extent: usize, swept: usize, pages: usize, greatest: usize) -> usize
    requires { extent < length uses.now }
    ensures { result ≡ sure_at uses.now pages greatest swept extent }
{
    if extent == swept {
        return 0;
    }
    uses[extent].sure_pages(pages, greatest)
}

/// Whether so many pages and so many fit on one extent.
fn fit_on_one(one: usize, other: usize, pages: usize) -> bool
    ensures { IsTrue result ↔ (one + other ≤ pages) }
{
    match one.checked_add(other) {
        Some(both) => both <= pages,
        None => false,
    }
}

/// The first extent with fewest live pages, of those from which all may be moved and on which so many pages at least
/// are dead, without this one.
fn fewest_but(uses: &[ExtentUse], but: Option<usize>, dead: usize) -> Option<usize>
    ensures { MatchOption result (NoneSought uses.now but dead) (IsFewestOf (IsSought uses.now but dead)) }
{
    let mut found: Option<usize> = None;
    for extent in 0..uses.len() {
        if is_fewer(uses, but, dead, found, extent) {
            found = Some(extent);
        }
    }
    found
}

/// Whether an extent is another one than this, all may be moved from it, so many pages at least are dead there, and it
/// has fewer live pages than the one found so far, if there is one.
fn is_fewer(
    uses: &[ExtentUse],
    but: Option<usize>,
    dead: usize,
    found: Option<usize>,
    extent: usize,
) -> bool
    requires extent { extent < length uses.now }
    requires found { (e : ℕ) → found ≡ Some e → e < length uses.now }
    ensures { MatchBool result (HasFewer uses.now but dead found extent) (HasNoFewer uses.now but dead found extent) }
{
    let used = uses[extent];
    if but == Some(extent) {
        return false;
    }
    if !used.is_movable() {
        return false;
    }
    if used.dead() < dead {
        return false;
    }
    match found {
        Some(best) => used.live < uses[best].live,
        None => true,
    }
}
