//! What is kept of each element, by number.
ghost use Rattle.std.specs.Prelude.{◌≡◌, ◌==◌, if◌then◌else◌, ℕ, length, option_map};
ghost use Rattle.std.specs.VecDeque.{deque_capacity};
ghost use Rattle.cs_deps.specs.Levels.{kept_in, level_of, with_next, keyed, next_plain, next_version};

use crate::elements::Element;
use crate::levels::Kept;
use std::collections::VecDeque;

/// What is kept at a number.
pub fn kept_at(list: &VecDeque<Kept>, start: u64, number: u64) -> Option<Kept>
    ensures { result ≡ kept_in list.now.items start number }
{
    if number <= start {
        return None;
    }
    let place = number - start - 1;
    if place < list.len() as u64 {
        Some(list[place as usize])
    } else {
        None
    }
}

/// The level that is kept, 0 where nothing is.
pub fn level_at(kept: Option<Kept>) -> u64
    ensures { result ≡ level_of kept }
{
    match kept {
        Some(kept) => kept.level,
        None => 0,
    }
}

/// Tells a plain write, if it is kept, which is the next of its level.
pub fn link(plains: &mut VecDeque<Kept>, start: u64, number: u64, next: u64)
    ensures kept { (n : ℕ) → kept_in plains.new.items start n ≡ (if n == number then option_map (with_next next) (kept_in plains.old.items start n) else kept_in plains.old.items start n) }
    ensures count { length plains.new.items ≡ length plains.old.items }
    ensures capacity { deque_capacity plains.new ≡ deque_capacity plains.old }
{
    if number <= start {
        return;
    }
    let place = number - start - 1;
    if place < plains.len() as u64 {
        let mut kept = plains[place as usize];
        kept.next = next;
        plains[place as usize] = kept;
    }
}

/// What is kept of a plain write behind the last one.
pub fn next_plain(
    last: Option<Kept>,
    number: u64,
    level: u64,
    before: Option<Element>,
    key: usize,
) -> Kept
    ensures { result ≡ next_plain last number level before key }
{
    let (top, least) = match last {
        Some(kept) => (kept.top, kept.least),
        None => (0, 0),
    };
    if top < level {
        Kept {
            level,
            before,
            next: 0,
            top: level,
            least: number,
            key,
        }
    } else {
        Kept {
            level,
            before,
            next: 0,
            top,
            least,
            key,
        }
    }
}

/// What is kept of a version behind the last one of its family: the same where that waits and is no lower.
pub fn next_version(last: Option<Kept>, base: u64, level: u64, before: Option<Element>) -> Kept
    ensures { result ≡ next_version last base level before }
{
    let own = Kept {
        level,
        before,
        next: 0,
        top: 0,
        least: 0,
        key: 0,
    };
    match last {
        Some(kept) => if level <= kept.level && base < kept.level {
            kept
        } else {
            own
        },
        None => own,
    }
}

/// The same, under another key.
pub fn keyed(kept: Kept, key: usize) -> Kept
    ensures { result ≡ keyed key kept }
{
    Kept {
        level: kept.level,
        before: kept.before,
        next: kept.next,
        top: kept.top,
        least: kept.least,
        key,
    }
}
