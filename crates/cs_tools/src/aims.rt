//! How far a reclaim goes, and whether the put that it is for has room.
ghost use Rattle.std.specs.Prelude.{◌≡◌, ◌+◌, ◌*◌, ◌≤◌, MatchBool};
ghost use Rattle.cs_chunk.specs.Cuts.{IsOversized};
ghost use Rattle.cs_extent.specs.State.{shape};
ghost use Rattle.cs_tools.specs.Aims.{HasNoRoomFor, HasRoomFor, IfPut, IsPutAnd, most_emptied};

use cs_chunk::Cut;
use cs_extent::Extents;

/// How far a reclaim goes.
#[derive(Clone, Copy, Debug, PartialEq, Eq)]
pub enum Aim {
    /// As long as what lives on two extents fits on one.
    Pairs,
    /// Until a put of so many bytes has room. If no extent is chosen before that, it has none.
    Room(usize),
    /// Until no extent is chosen: up to the brim.
    Brim,
}

/// Whether a put is aimed at whose bytes are more than a shard may have.
pub fn is_too_large(extents: &Extents, aim: Aim) -> bool
    ensures { MatchBool result (IsPutAnd aim (IsOversized (shape extents.now))) (¬ IsPutAnd aim (IsOversized (shape extents.now))) }
{
    match aim {
        Aim::Pairs => false,
        Aim::Room(bytes) => is_oversized(extents, bytes),
        Aim::Brim => false,
    }
}

/// Whether so many bytes are more than a shard may have.
fn is_oversized(extents: &Extents, bytes: usize) -> bool
    ensures { MatchBool result (IsOversized (shape extents.now) bytes) (¬ IsOversized (shape extents.now) bytes) }
{
    match Cut::of(extents, bytes) {
        Some(_) => false,
        None => true,
    }
}

/// Whether a put is aimed at and has room.
pub fn has_room(extents: &Extents, aim: Aim) -> bool
    ensures { MatchBool result (IsPutAnd aim (HasRoomFor extents.now)) (IfPut aim (HasNoRoomFor extents.now)) }
{
    match aim {
        Aim::Pairs => false,
        Aim::Room(bytes) => has_room_for(extents, bytes),
        Aim::Brim => false,
    }
}

/// Whether a put of so many bytes has room.
pub fn has_room_for(extents: &Extents, bytes: usize) -> bool
    ensures { MatchBool result (HasRoomFor extents.now bytes) (HasNoRoomFor extents.now bytes) }
{
    match Cut::of(extents, bytes) {
        Some(cut) => cut.fits(extents),
        None => false,
    }
}

/// How many extents are emptied or passed over at most. If none is passed over, the rule ends before that, by the law
/// `sweeps_by_the_rule_end` of law_room: if nothing is put or deleted meanwhile, an extent is emptied at most once for
/// its dead pages, and two are for each extent that is gained. So a reclaim that came so far would end as if none were
/// chosen.
pub fn most_emptied(extents: &Extents, aim: Aim) -> usize
    ensures { result ≡ most_emptied aim (shape extents.now).extents }
{
    let count = extents.extent_count();
    match aim {
        Aim::Pairs => count.saturating_mul(2),
        Aim::Room(_) => most_to_brim(count),
        Aim::Brim => most_to_brim(count),
    }
}

/// Three for each of so many extents, and one more.
fn most_to_brim(count: usize) -> usize
    requires { count ≤ 7680 }
    ensures { result ≡ 3 * count + 1 }
{
    3 * count + 1
}
