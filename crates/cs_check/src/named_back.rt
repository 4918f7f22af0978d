//! Which elements surely need none that is listed at their place or later.
ghost use Rattle.std.specs.Prelude.{◌≡◌, ℕ, IfOk, false, length, slice_index_or, true};
ghost use Rattle.cs_deps.specs.declared.elements.Element.{Element as Item};
ghost use Rattle.cs_deps.specs.Named.{Named};
ghost use Rattle.cs_deps.specs.Pending.{WaitsAt};
ghost use Rattle.cs_deps.specs.View.{pending_of};
ghost use Rattle.cs_check.specs.Progress.{NamesFrom, plain_floor, version_floors};

use cs_deps::{Element, GraphView};
use std::alloc::{AllocError, Global};

/// The least plain write with this element.
fn lower_plain(floor: u64, element: Element) -> u64
    ensures { result ≡ plain_floor floor element }
{
    match element {
        Element::Plain(number) => floor.min(number),
        Element::Version(_, _) => floor,
    }
}

/// Makes each family's number less than the element's.
fn lower_versions(floors: &mut Vec<u64>, element: Element)
    ensures { floors.new.items ≡ version_floors floors.old.items element }
{
    if let Element::Version(family, version) = element {
        if family < floors.len() {
            floors[family] = floors[family].min(version.saturating_sub(1));
        }
    }
}

/// For each place whether what its element needs is less than all that is listed there or later.
pub fn named_back(alloc: Global, view: &GraphView) -> Result<Vec<bool>, AllocError>
    ensures count { IfOk result (λ back. length back.items ≡ length view.now.waiting.items) }
    ensures back { IfOk result (λ back. (k : ℕ) (x : Item) (d : Named) → WaitsAt (pending_of view.now) k x d → slice_index_or back.items k false ≡ true → ¬ NamesFrom (pending_of view.now) d k) }
{
    let mut floor = u64::MAX;
    let mut floors = Vec::from_elem(alloc, u64::MAX, view.persistent.len())?;
    let mut back = Vec::from_elem(alloc, false, view.waiting.len())?;
    for after in 0..view.waiting.len() {
        let k = view.waiting.len() - 1 - after;
        let entry = &view.waiting[k];
        floor = lower_plain(floor, entry.0);
        lower_versions(&mut floors, entry.0);
        back[k] = entry.1.is_within(floor.saturating_sub(1), &floors);
    }
    Ok(back)
}
