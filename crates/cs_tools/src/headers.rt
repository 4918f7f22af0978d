//! How the extents of a store are used: which one to empty, and how many headers of chunks couldn't be read.
ghost use Rattle.std.specs.Prelude.{◌≡◌, ◌==◌, IfOk, IfSome, MatchBool};
ghost use Rattle.cs_inspect.specs.Choices.{ChoosesApart, ReadsOn, chosen_extent};
ghost use Rattle.cs_inspect.specs.Past.{ChoosesPairPast, IsNoneOf};
ghost use Rattle.cs_tools.specs.Headers.{AreReadable, AreUnreadable, HasUnreadable};

use cs_disk::PageDisk;
use cs_inspect::{Choice, ExtentUse, fewest_live, pass_all, uses};
use cs_store::mount::the_core::Core;
use std::alloc::{AllocError, Global};

/// What a look at all extents gave.
#[derive(Clone, Copy)]
pub struct Survey {
    /// The extent to empty, as `fewest_live` of cs_inspect tells it if some are passed over.
    pub choice: Option<Choice>,
    /// How many headers of live chunks couldn't be read.
    pub unreadable: usize,
}

/// Looks at all extents, and passes over some. Each of these counts as one from which nothing can be moved. It costs what
/// `uses` of cs_inspect costs: a read for each live chunk.
pub fn look_over<D: PageDisk>(
    alloc: Global,
    core: &mut Core<D>,
    passed: &[usize],
) -> Result<Survey, AllocError>
    ensures chosen { IfOk result (λ survey. ChoosesPairPast D.PageDisk passed.now core.old core.new (chosen_extent survey.choice)) }
    ensures fresh { IfOk result (λ survey. IfSome survey.choice (λ choice. IsNoneOf passed.now choice.extent)) }
    ensures unreadable { IfOk result (λ survey. MatchBool (survey.unreadable == 0) (AreReadable D.PageDisk core.old) (HasUnreadable D.PageDisk core.old core.new)) }
    ensures reads { ReadsOn D.PageDisk core.old core.new }
{
    let extents = core.extents();
    let last = extents.last_copied();
    let pages = extents.extent_pages();
    let mut uses = uses(alloc, core)?;
    let unreadable = count_unreadable(&uses);
    pass_all(&mut uses, passed);
    Ok(Survey {
        choice: choose(&uses, last, pages),
        unreadable,
    })
}

/// The extent with fewest live pages, if these and those of another one fit on one of so many pages.
fn choose(uses: &[ExtentUse], last: Option<usize>, pages: usize) -> Option<Choice>
    ensures { ChoosesApart uses.now last pages (chosen_extent result) }
{
    let Some(extent) = fewest_live(uses, last, pages) else {
        return None;
    };
    let dead = uses[extent].dead();
    Some(Choice { extent, dead })
}

/// How many headers of chunks on these extents couldn't be read. `usize::MAX` stands for more.
pub fn count_unreadable(uses: &[ExtentUse]) -> usize
    ensures { AreUnreadable uses.now result }
{
    let mut count: usize = 0;
    for used in uses {
        count = count.saturating_add(used.unreadable);
    }
    count
}
