//! The ready queue of each level.
ghost use Rattle.std.specs.Prelude.{OnOk, ◌≡◌, [], ◌∷◌, ◌++◌, ℕ, ◌+◌, ◌≤◌, ◌<◌, length, max};
ghost use Rattle.std.specs.VecDeque.{deque_len, deque_capacity};
ghost use Rattle.cs_deps.specs.Levels.{kept_by, level_by, no_row, row_at, with_plain, with_version, AreLinked, ArePlainsListed, AreVersionsListed};

use crate::elements::Element;
use crate::levels::{Levels, Row};
use std::alloc::AllocError;
use std::collections::VecDeque;

/// An empty queue.
pub fn no_row() -> Row
    ensures { result ≡ no_row }
{
    Row {
        first: 0,
        last: 0,
        versions: [0; 16],
    }
}

/// Adds a queue where one is missing for this place.
pub fn widen(rows: &mut VecDeque<Row>, place: usize)
    requires place { place ≤ length rows.old.items }
    requires room { deque_len rows.old < deque_capacity rows.old }
    ensures rows { (i : ℕ) → row_at rows.new.items i ≡ row_at rows.old.items i }
    ensures count { length rows.new.items ≡ max (length rows.old.items) (place + 1) }
    ensures capacity { deque_capacity rows.new ≡ deque_capacity rows.old }
{
    if place == rows.len() {
        rows.push_back_reserved(no_row());
    }
}

/// A queue with one plain write more, the last.
pub fn with_plain(row: Row, number: u64) -> Row
    ensures { result ≡ with_plain number row }
{
    Row {
        first: if row.first == 0 { number } else { row.first },
        last: number,
        versions: row.versions,
    }
}

/// A queue with a greater version of a family.
pub fn with_version(row: Row, family: usize, version: u64) -> Row
    requires { family < 16 }
    ensures { result ≡ with_version family version row }
{
    let mut versions = row.versions;
    versions[family] = version;
    Row {
        first: row.first,
        last: row.last,
        versions,
    }
}

/// Adds the plain writes of a level that come from this one on.
pub fn add_plains(
    xs: &mut Vec<Element>,
    levels: &Levels,
    level: u64,
    first: u64,
    bound: u64,
) -> Result<(), AllocError>
    requires above { levels.now.ended < level }
    requires rows { AreLinked (kept_by levels.now) levels.now.ended }
    requires first { 0 < first → level_by levels.now (Element.Plain first) ≡ level }
    requires none { xs.old.items ≡ [] }
    requires earliest { (n : ℕ) → level_by levels.now (Element.Plain n) ≡ level → (0 < first) × (first ≤ n) }
    requires bound { (n : ℕ) → 0 < level_by levels.now (Element.Plain n) → n ≤ bound }
    ensures listed { OnOk result (ArePlainsListed (kept_by levels.now) level xs.new.items) }
{
    let mut number = first;
    while number != 0 {
        xs.push(Element::Plain(number))?;
        number = match levels.kept(Element::Plain(number)) {
            Some(kept) => kept.next,
            None => 0,
        };
    }
    Ok(())
}

/// Adds the versions of a level.
pub fn add_versions(xs: &mut Vec<Element>, versions: &[u64; 16]) -> Result<(), AllocError>
    ensures listed { OnOk result (AreVersionsListed xs.old.items versions.now 16 xs.new.items) }
{
    for family in 0..16 {
        add_version(xs, family, versions[family])?;
    }
    Ok(())
}

/// Adds a version, where it is one.
fn add_version(xs: &mut Vec<Element>, family: usize, version: u64) -> Result<(), AllocError>
    ensures none { version ≡ 0 → OnOk result (xs.new.items ≡ xs.old.items) }
    ensures one { 0 < version → OnOk result (xs.new.items ≡ xs.old.items ++ (Element.Version family version) ∷ []) }
{
    if version > 0 {
        xs.push(Element::Version(family, version))?;
    }
    Ok(())
}
