//! The reserve of a store: a share of its room that puts of new identifiers leave free.
ghost use Rattle.std.specs.Prelude.{◌≡◌, ◌⊎◌, ◌+◌, ◌-◌, ◌^◌, ◌<◌, ◌≤◌, ℕ, IfErr, IfSome, MatchBool, OnOk, min};
ghost use Rattle.cs_chunk.specs.Cuts.{IsOversized};
ghost use Rattle.cs_extent.specs.State.{shape};
ghost use Rattle.cs_inspect.specs.Choices.{ReadsOn};
ghost use Rattle.cs_store.specs.Reserves.{IsReserved, IsWithin, most_live, put_pages, total_live};

use cs_chunk::Cut;
use cs_disk::PageDisk;
use cs_extent::Extents;
use cs_frame::{FormatNumber, Geometry, ShardId};
use cs_inspect::{ExtentUse, uses};
use cs_mount::the_core::Core;
use cs_refusal::Refusal;
use std::alloc::Global;

/// How much of its room a store keeps free. A put of an identifier that has nothing under it is refused 36 Reserved if
/// more pages would live with it than the reserve leaves. So sweeps find dead pages, and overwrites stay cheap. An
/// overwrite or a deletion is never refused so. In format 2 nothing is held back.
#[derive(Clone, Copy, Debug, PartialEq, Eq)]
pub enum Reserve {
    /// Nothing is held back.
    None,
    /// So many hundredths of the pages of the extents that puts may use. If they are 100 or more, all of these pages
    /// are held back.
    Percent(u8),
}

/// The default reserve: 15 hundredths.
pub const DEFAULT_RESERVE: Reserve = Reserve::Percent(15);

/// How many pages of shards may live in a store of this geometry, by a reserve. None if nothing is held back.
pub fn most_live(reserve: Reserve, geometry: Geometry) -> Option<usize>
    ensures most { result ≡ most_live reserve geometry.format geometry.extents geometry.pages }
    ensures small { IfSome result (λ most. most < 2 ^ 32) }
{
    let Reserve::Percent(percent) = reserve else {
        return None;
    };
    match geometry.format().number() {
        FormatNumber::Two => None,
        FormatNumber::Four => {
            let left = 100_usize.saturating_sub(usize::from(percent));
            Some(put_pages(geometry) * left / 100)
        }
    }
}

/// How many pages the extents have that puts may use, in format 4.
fn put_pages(geometry: Geometry) -> usize
    ensures pages { result ≡ put_pages geometry.extents geometry.pages }
    ensures small { result < 2 ^ 32 }
{
    let extents = usize::from(geometry.extents());
    let run_extents = if extents >= 16 { 2 } else { 1 };
    extents.saturating_sub(run_extents + 2) * usize::from(geometry.pages())
}

/// What a store holds back, and how many pages of shards live at most, if a put or a look has counted that.
#[derive(Clone, Copy, Debug)]
pub(crate) struct Held {
    pub(crate) reserve: Reserve,
    pub(crate) counted: Option<usize>,
}

impl Held {
    /// A reserve, with nothing counted.
    pub(crate) fn by(reserve: Reserve) -> Self {
        Held {
            reserve,
            counted: None,
        }
    }

    /// The reserve by which a put of so many bytes goes. It is `Reserve::None` if the shard is sure to be within the
    /// reserve. So most puts cost no look at the chunks.
    pub(crate) fn reserve_for(&mut self, extents: &Extents, bytes: usize) -> Reserve {
        let Some(most) = most_live(self.reserve, extents.geometry()) else {
            return Reserve::None;
        };
        let counted = match self.counted {
            Some(counted) => counted,
            None => given_pages(extents),
        };
        self.counted = Some(counted);
        if counted.saturating_add(pages_for(extents, bytes)) <= most {
            Reserve::None
        } else {
            self.reserve
        }
    }

    /// Counts a put of so many bytes that was done, after a look that found so many pages alive, or after none.
    pub(crate) fn count(&mut self, extents: &Extents, live: Option<usize>, bytes: usize) {
        if let Some(before) = live.or(self.counted) {
            self.counted = Some(before.saturating_add(pages_for(extents, bytes)));
        }
    }
}

/// How many pages of all extents are given. No more pages of shards live.
fn given_pages(extents: &Extents) -> usize {
    let mut given: usize = 0;
    for extent in 0..extents.extent_count() {
        given = given.saturating_add(extents.pointer(extent));
    }
    given
}

/// How many pages a shard of so many bytes has. It is 0 if there are too many bytes.
fn pages_for(extents: &Extents, bytes: usize) -> usize {
    match Cut::of(extents, bytes) {
        Some(cut) => cut.all_pages(),
        None => 0,
    }
}

/// Looks whether a shard of so many bytes under an identifier is within a reserve. Returns how many pages live, if the
/// answer depends on it. Then it costs what `uses` of cs_inspect costs. Else nothing is read.
///
/// Refused 36 Reserved if more pages would live than the reserve leaves, 31 TooLarge if there are too many bytes, and 9
/// OutOfMemory.
pub(crate) fn heed<D: PageDisk>(
    alloc: Global,
    core: &mut Core<D>,
    reserve: Reserve,
    id: ShardId,
    bytes: usize,
) -> Result<Option<usize>, Refusal>
    ensures reads { ReadsOn D.PageDisk core.old core.new }
    ensures within { OnOk result (IsWithin D.PageDisk reserve id bytes core.old core.new) }
    ensures reserved { IfErr result (λ refusal. refusal ≡ Refusal.Reserved → IsReserved D.PageDisk reserve id bytes core.old core.new) }
    ensures refusals { IfErr result (λ refusal. (refusal ≡ Refusal.OutOfMemory) ⊎ ((refusal ≡ Refusal.TooLarge) × IsOversized (shape core.old.store.extents) bytes) ⊎ (refusal ≡ Refusal.Reserved)) }
{
    let Some(most) = most_live(reserve, core.extents().geometry()) else {
        return Ok(None);
    };
    if core.contains(id) {
        return Ok(None);
    }
    let Some(cut) = Cut::of(core.extents(), bytes) else {
        return Err(Refusal::TooLarge);
    };
    let Ok(counted) = uses(alloc, core) else {
        return Err(Refusal::OutOfMemory);
    };
    let live = total_live(&counted);
    if are_more(live, cut.all_pages(), most) {
        return Err(Refusal::Reserved);
    }
    Ok(Some(live))
}

/// How many pages live on all of these extents. `usize::MAX` stands for more.
fn total_live(uses: &[ExtentUse]) -> usize
    ensures { result ≡ min (total_live uses.now) (2 ^ 64 - 1) }
{
    let mut live: usize = 0;
    for extent in 0..uses.len() {
        live = live.saturating_add(uses[extent].live);
    }
    live
}

/// Whether the pages that live and so many others are more than may be. `usize::MAX` stands for more pages.
fn are_more(live: usize, others: usize, most: usize) -> bool
    requires { most < 2 ^ 32 }
    ensures { (sum : ℕ) → live ≡ min sum (2 ^ 64 - 1) → MatchBool result (most < sum + others) (sum + others ≤ most) }
{
    most < live.saturating_add(others)
}
