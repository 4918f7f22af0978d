//! Which extent to sweep in format 2, where chunks and runs may lie on one extent: the one with most garbage.
ghost use Rattle.std.specs.Prelude.{◌≡◌, MatchOption, min};
ghost use Rattle.cs_extent.specs.State.{IsWhole};
ghost use Rattle.cs_frame.specs.Frames.{page_count};
ghost use Rattle.cs_frame.specs.Geometries.{weight_bytes as run_weight_bytes};
ghost use Rattle.cs_index.specs.State.{index_of};
ghost use Rattle.law_machine.specs.Geometry.{most_weight_in};
ghost use Rattle.law_machine.specs.Index.{names};
ghost use Rattle.cs_inspect.specs.Choices.{ChoosesTogether, chosen_extent};
ghost use Rattle.cs_inspect.specs.Uses.{HasNoGarbage, IsMostGarbage, garbage};

use crate::choices::Choice;
use crate::surveys::ExtentUse;
use cs_extent::Extents;
use cs_frame::{frame_pages, weight_bytes};
use cs_index::Index;

/// How many pages a run of the whole index takes, each entry of which weighs one. An index names no more than one run
/// has room for, which takes all pages of an extent: more of them can't be dead.
pub fn index_pages(index: &Index, extents: &Extents) -> usize
    ensures pages { result ≡ page_count (run_weight_bytes extents.now.format (min (names (index_of index.now)) (most_weight_in extents.now.format extents.now.pages))) }
    ensures whole { IsWhole extents.now }
{
    let geometry = extents.geometry();
    let named = index.named_count().min(geometry.most_weight());
    frame_pages(weight_bytes(geometry.format(), named))
}

/// The extent with most garbage, if that is more than so many pages.
pub fn choose_most_garbage(uses: &[ExtentUse], index_pages: usize) -> Option<Choice>
    ensures { ChoosesTogether uses.now index_pages (chosen_extent result) }
{
    let Some(extent) = most_garbage(uses) else {
        return None;
    };
    let dead = uses[extent].dead();
    if dead > index_pages {
        Some(Choice { extent, dead })
    } else {
        None
    }
}

/// The extent with most dead pages of those that may be swept, the first of them if several have as many. It returns
/// None if none of them has a dead page. Extents to which frames are appended, that are being swept, or that hold runs
/// alone may not be swept. It costs a pass over the extents.
pub fn most_garbage(uses: &[ExtentUse]) -> Option<usize>
    ensures { MatchOption result (HasNoGarbage uses.now) (IsMostGarbage uses.now) }
{
    let mut found = None;
    let mut most: usize = 0;
    for extent in 0..uses.len() {
        let garbage = uses[extent].garbage();
        if most < garbage {
            most = garbage;
            found = Some(extent);
        }
    }
    found
}

impl ExtentUse {
    /// The pages that a sweep could free.
    fn garbage(&self) -> usize
        ensures { result ≡ garbage self.now }
    {
        if self.is_open {
            return 0;
        }
        if self.is_swept {
            return 0;
        }
        if self.holds_runs {
            return 0;
        }
        self.dead()
    }
}
