//! The command `reclaim` on stores of formats 1 and 2, where chunks and runs may lie on one extent.
//!
//! The command runs on a store that was just opened. The pages above an extent's write pointer aren't written then
//! until the extent is emptied, so they count as garbage here. `uses` of cs_inspect doesn't count them.
ghost use Rattle.std.specs.Prelude.{◌≡◌, ◌⊎◌, ◌<◌, IfErr, IfOk, IfSome, OnOk, Some, length};
ghost use Rattle.cs_index.specs.State.{id_number};
ghost use Rattle.law_machine.specs.Element.{Bytes as Held, Map};
ghost use Rattle.cs_store.specs.Maps.{HasMap};
ghost use Rattle.cs_inspect.specs.Choices.{ReadsOn};
ghost use Rattle.cs_tools.specs.Headers.{WasCounted};
ghost use Rattle.cs_tools.specs.Reclaims.{IsPersistent, MayStop, Tidies};

use crate::aims::{Aim, has_room};
use crate::headers::count_unreadable;
use crate::reclaim_command::{Emptied, Left, Stop, print_emptied, printed, sync_all};
use cs_advice::Style;
use cs_disk::PageDisk;
use cs_frame::ShardId;
use cs_index::Index;
use cs_inspect::{ExtentUse, ids_from, most_garbage, uses};
use cs_refusal::Refusal;
use cs_store::mount::the_core::{Bytes, Core, Event};
use cs_writeback::{ask, make_room, sweep};
use std::alloc::Global;
use std::io::Write;

/// Empties the extents of which half or more is garbage, and prints of each what it freed. If there was one, a shard is
/// put again. For a put it ends as soon as that has room, also after the shard was put again. It returns how many
/// headers couldn't be read before. No extent is passed over.
pub fn empty_by_garbage<D: PageDisk, W: Write>(
    alloc: Global,
    core: &mut Core<D>,
    aim: Aim,
    style: Style,
    writer: &mut W,
) -> Result<Left, Stop>
    ensures kept { D.honest core.old.disk → OnOk result (IsPersistent core.new ⊎ ReadsOn D.PageDisk core.old core.new) }
    ensures counted { IfOk result (λ left. (left.passed_over ≡ 0) × WasCounted D.PageDisk left.unreadable core.old) }
    ensures refusals { IfErr result MayStop }
    ensures tidies { Tidies D.PageDisk core.old core.new }
{
    // Called for its contract alone: what a crash leaves now.
    core.progress();
    let pages = core.extents().extent_pages();
    let Ok(mut uses) = uses(alloc, core) else {
        return Err(Stop::Refused(Refusal::OutOfMemory));
    };
    let unreadable = count_unreadable(&uses);
    give_up(&mut uses, pages);
    empty_and_settle(alloc, core, aim, &mut uses, style, writer)?;
    Ok(Left {
        unreadable,
        passed_over: 0,
    })
}

/// Empties the extents of which half or more is garbage, or as many of them as the put needs, and then puts a shard
/// again if one was emptied since.
fn empty_and_settle<D: PageDisk, W: Write>(
    alloc: Global,
    core: &mut Core<D>,
    aim: Aim,
    uses: &mut [ExtentUse],
    style: Style,
    writer: &mut W,
) -> Result<(), Stop>
    ensures kept { D.honest core.old.disk → OnOk result ((core.new ≡ core.old) ⊎ IsPersistent core.new) }
    ensures refusals { IfErr result MayStop }
    ensures tidies { Tidies D.PageDisk core.old core.new }
{
    let since = empty_all(alloc, core, aim, uses, style, writer)?;
    settle(alloc, core, since)
}

/// Counts the rest of each extent that isn't empty as given.
fn give_up(uses: &mut [ExtentUse], pages: usize) {
    for used in uses.iter_mut() {
        if used.pointer > 0 {
            used.pointer = pages;
        }
    }
}

/// Empties the extents of which half or more is garbage, or as many of them as the put needs, and prints of each what
/// it freed. It gives how many were emptied since a shard was put again, or since the start.
fn empty_all<D: PageDisk, W: Write>(
    alloc: Global,
    core: &mut Core<D>,
    aim: Aim,
    uses: &mut [ExtentUse],
    style: Style,
    writer: &mut W,
) -> Result<usize, Stop>
    ensures rests { D.honest core.old.disk → IfOk result (λ since. ((since ≡ 0) × (core.new ≡ core.old)) ⊎ IsPersistent core.new) }
    ensures refusals { IfErr result MayStop }
    ensures tidies { Tidies D.PageDisk core.old core.new }
{
    let pages = core.extents().extent_pages();
    let mut since: usize = 0;
    for _ in 0..uses.len() {
        let settled = settle_with_room(alloc, core, aim, since)?;
        let Some(left) = settled else {
            return Ok(0);
        };
        let Some(extent) = worth_emptying(uses, pages) else {
            return Ok(left);
        };
        let dead = uses[extent].dead();
        empty_one(core, extent, dead, style, writer)?;
        uses[extent].pointer = 0;
        since = left.saturating_add(1);
    }
    Ok(since)
}

/// Sweeps an extent, makes that persistent, and prints what it freed.
fn empty_one<D: PageDisk, W: Write>(
    core: &mut Core<D>,
    extent: usize,
    dead: usize,
    style: Style,
    writer: &mut W,
) -> Result<(), Stop>
    ensures rests { D.honest core.old.disk → OnOk result (IsPersistent core.new) }
    ensures refusals { IfErr result MayStop }
    ensures tidies { Tidies D.PageDisk core.old core.new }
{
    let moved = sweep_and_sync(core, extent)?;
    let emptied = Emptied {
        extent,
        dead,
        moved,
    };
    printed(print_emptied(writer, emptied, style))
}

/// Sweeps an extent, makes that persistent, and returns how many chunks were moved. A long history is dropped first.
fn sweep_and_sync<D: PageDisk>(core: &mut Core<D>, extent: usize) -> Result<usize, Stop>
    ensures rests { D.honest core.old.disk → OnOk result (IsPersistent core.new) }
    ensures refusals { IfErr result MayStop }
    ensures tidies { Tidies D.PageDisk core.old core.new }
{
    make_room(core);
    let swept = match sweep(core, extent) {
        Ok(swept) => swept,
        Err(refusal) => return Err(Stop::Refused(refusal)),
    };
    sync_all(core)?;
    Ok(swept.moved)
}

/// If the put that is aimed at has room, a shard is put again if extents were emptied, so that it has room when the
/// store is opened next. It returns how many were emptied since a shard was put again, or None if the put has room now.
fn settle_with_room<D: PageDisk>(
    alloc: Global,
    core: &mut Core<D>,
    aim: Aim,
    since: usize,
) -> Result<Option<usize>, Stop>
    ensures rests { D.honest core.old.disk → (0 < since → IsPersistent core.old) → IfOk result (λ left. ((core.new ≡ core.old) × IfSome left (λ count. count ≡ since)) ⊎ IsPersistent core.new) }
    ensures refusals { IfErr result MayStop }
    ensures tidies { Tidies D.PageDisk core.old core.new }
{
    if !has_room(core.extents(), aim) {
        return Ok(Some(since));
    }
    settle(alloc, core, since)?;
    if has_room(core.extents(), aim) {
        Ok(None)
    } else {
        Ok(Some(0))
    }
}

/// Puts a shard again if extents were emptied.
fn settle<D: PageDisk>(alloc: Global, core: &mut Core<D>, since: usize) -> Result<(), Stop>
    ensures none { since ≡ 0 → core.new ≡ core.old }
    ensures rests { D.honest core.old.disk → IsPersistent core.old → OnOk result (IsPersistent core.new) }
    ensures refusals { IfErr result MayStop }
    ensures tidies { Tidies D.PageDisk core.old core.new }
{
    if since == 0 {
        return Ok(());
    }
    put_again(alloc, core)
}

/// The extent with most garbage, if that is half of its pages or more.
fn worth_emptying(uses: &[ExtentUse], pages: usize) -> Option<usize>
    ensures { IfSome result (λ extent. extent < length uses.now) }
{
    let extent = most_garbage(uses)?;
    if uses[extent].dead() >= pages.div_ceil(2) {
        Some(extent)
    } else {
        None
    }
}

/// Puts the first shard again as it is, and makes that persistent: that an extent is empty reaches the disk with the
/// next frame alone. Where there is no shard that can be put again nothing is done.
fn put_again<D: PageDisk>(alloc: Global, core: &mut Core<D>) -> Result<(), Stop>
    ensures rests { D.honest core.old.disk → IsPersistent core.old → OnOk result (IsPersistent core.new) }
    ensures refusals { IfErr result MayStop }
    ensures tidies { Tidies D.PageDisk core.old core.new }
{
    let Some((id, bytes)) = first_shard(alloc, core) else {
        return Ok(());
    };
    match ask(core, &Event::Put(id, bytes)) {
        Ok(_) => sync_all(core),
        Err(_) => Ok(()),
    }
}

/// The first shard. It returns None if there is none, or it can't be read.
fn first_shard<D: PageDisk>(alloc: Global, core: &mut Core<D>) -> Option<(ShardId, Bytes)>
    ensures shard { D.honest core.old.disk → (m : Map) → HasMap core.new m → IfSome result (λ shard. m (id_number shard.0) ≡ Some (Held shard.1)) }
    ensures store { core.new.store ≡ core.old.store }
    ensures tidies { Tidies D.PageDisk core.old core.new }
{
    // Called for their contracts alone: which state of the machine the core is in, and what all extents keep.
    core.progress();
    core.extents().extent_count();
    let id = first_id(alloc, core.index())?;
    match core.read(id) {
        Ok(Some(bytes)) => with_bytes(alloc, id, bytes),
        _ => None,
    }
}

/// The first identifier. It returns None if there is none, or memory was refused.
fn first_id(alloc: Global, index: &Index) -> Option<ShardId> {
    let ids = ids_from(alloc, index, ShardId([0; 16]), 1).ok()?;
    ids.first().copied()
}

/// An identifier with its bytes. It returns None if memory was refused.
fn with_bytes(alloc: Global, id: ShardId, bytes: Vec<u8>) -> Option<(ShardId, Bytes)>
    ensures { IfSome result (λ shard. (shard.0 ≡ id) × (shard.1 ≡ bytes.items)) }
{
    match Bytes::new(alloc, bytes) {
        Ok(bytes) => Some((id, bytes)),
        Err(_) => None,
    }
}
