//! The waiting plain writes that are named, by a look at what is named alone.
ghost use Rattle.std.specs.Prelude.{◌≡◌, ◌↔◌, ◌∷◌, ◌++◌, IfOk, IfSome, IsTrue, OnOk, [], length};
ghost use Rattle.cs_deps.specs.declared.elements.Element.{Element as Item};
ghost use Rattle.cs_deps.specs.Named.{Names, IsPlain};
ghost use Rattle.cs_deps.specs.Pending.{Waits};
ghost use Rattle.cs_deps.specs.View.{pending_of};
ghost use Rattle.cs_check.specs.Listing.{IsListing};
ghost use Rattle.cs_check.specs.Progress.{AddsIf, ListsTill, Spells};

use crate::noted::Places;
use cs_deps::{Dependency, Element, GraphView, Span};
use std::alloc::{AllocError, Global};

/// Adds the plain write with this number, if its place is noted, and says whether it did.
fn push_write(
    view: &GraphView,
    places: &Places,
    elements: &mut Vec<Element>,
    number: u64,
) -> Result<bool, AllocError>
    ensures { IfOk result (λ done. IsTrue done → Waits (pending_of view.now) (Item.Plain number) × (elements.new.items ≡ elements.old.items ++ Item.Plain number ∷ [])) }
{
    match places.at(&view.waiting, Element::Plain(number)) {
        Some(_) => {
            elements.push(Element::Plain(number))?;
            Ok(true)
        }
        None => Ok(false),
    }
}

/// Adds the plain writes of a span, and says whether the place of each is noted.
fn push_span(
    view: &GraphView,
    places: &Places,
    elements: &mut Vec<Element>,
    span: Span,
) -> Result<bool, AllocError>
    ensures { IfOk result (λ done. IsTrue done → Spells (pending_of view.now) span elements.old.items elements.new.items) }
{
    if span.last < span.first {
        return Ok(true);
    }
    let more = span.last - span.first;
    // More numbers than elements: one of them does not wait.
    if more >= view.waiting.len() as u64 {
        return Ok(false);
    }
    for step in 0..more + 1 {
        let pushed = push_write(view, places, elements, span.first + step)?;
        if !pushed {
            return Ok(false);
        }
    }
    Ok(true)
}

/// The waiting plain writes that are named, by number, if the place of each is noted and the spans ascend.
fn spelled(
    alloc: Global,
    view: &GraphView,
    places: &Places,
    needs: &Dependency,
) -> Result<Option<Vec<Element>>, AllocError>
    ensures { IfOk result (λ found. IfSome found (λ xs. ListsTill (pending_of view.now) needs.now (length view.now.waiting.items) 0 xs.items)) }
{
    let mut elements = Vec::new(alloc);
    let through = needs.through_number();
    let begun = push_span(
        view,
        places,
        &mut elements,
        Span {
            first: 1,
            last: through,
        },
    )?;
    if !begun {
        return Ok(None);
    }
    let mut after = through;
    let spans = needs.spans();
    for i in 0..spans.len() {
        if spans[i].first <= after {
            return Ok(None);
        }
        let pushed = push_span(view, places, &mut elements, spans[i])?;
        if !pushed {
            return Ok(None);
        }
        after = after.max(spans[i].last);
    }
    Ok(Some(elements))
}

/// Whether it is a plain write that is named.
fn is_plain_need(needs: &Dependency, element: Element) -> bool
    ensures { IsTrue result ↔ (IsPlain element × Names needs.now element) }
{
    element.is_plain() && needs.names(element)
}

/// Adds the element if it is a plain write that is named.
fn add_plain(
    elements: &mut Vec<Element>,
    needs: &Dependency,
    element: Element,
) -> Result<(), AllocError>
    ensures { OnOk result (AddsIf (IsPlain element × Names needs.now element) elements.old.items element elements.new.items) }
{
    if is_plain_need(needs, element) {
        elements.push(element)?;
    }
    Ok(())
}

/// The waiting plain writes that are named, by number. It looks at all that waits.
fn plains_among_all(
    alloc: Global,
    view: &GraphView,
    needs: &Dependency,
) -> Result<Vec<Element>, AllocError>
    requires { IsListing (pending_of view.now) }
    ensures { IfOk result (λ xs. ListsTill (pending_of view.now) needs.now (length view.now.waiting.items) 0 xs.items) }
{
    let mut elements = Vec::new(alloc);
    for k in 0..view.waiting.len() {
        add_plain(&mut elements, needs, view.waiting[k].0)?;
    }
    Ok(elements)
}

/// The waiting plain writes that are named, by number.
pub fn plains_in(
    alloc: Global,
    view: &GraphView,
    places: &Places,
    needs: &Dependency,
) -> Result<Vec<Element>, AllocError>
    requires { IsListing (pending_of view.now) }
    ensures { IfOk result (λ xs. ListsTill (pending_of view.now) needs.now (length view.now.waiting.items) 0 xs.items) }
{
    match spelled(alloc, view, places, needs)? {
        Some(elements) => Ok(elements),
        None => plains_among_all(alloc, view, needs),
    }
}
