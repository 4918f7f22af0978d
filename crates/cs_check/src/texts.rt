//! The text of a document.
ghost use Rattle.std.specs.Prelude.{◌≡◌, List, All, IfOk, IfErr, OnOk, codes, length, string_bytes};
ghost use Rattle.serde_json.specs.Data.{Data, array, number, unsigned, object as object_of, put as with_member};
ghost use Rattle.serde_json.specs.View.{view as view_of, items_of, members_view};
ghost use Rattle.cs_deps.specs.View.{pending_of};
ghost use Rattle.cs_check.specs.Faults.{Blames};
ghost use Rattle.cs_check.specs.Progress.{elements_of};
ghost use Rattle.cs_check.specs.Documents.{names_data, numbers_data, letters_data, rounds_data};
ghost use Rattle.cs_check.specs.Listing.{IsListing};
ghost use Rattle.cs_check.specs.Names.{AreLetters};
ghost use Rattle.cs_check.specs.Written.{IsTextOf, HasDocument, HasLetter, AreWritten};

use crate::faults::CheckFault;
use crate::listings::is_known;
use crate::noted::{Places, places_of};
use crate::verdicts::well_formed;
use crate::writings::{
    are_letters, elements_value, entries_value, letters_value, named_in, rounds_value,
    versions_value,
};
use cs_deps::{Dependency, Element, GraphView};
use serde_json::{Map, Value, put};
use std::alloc::{AllocError, Global};

/// The text of a document, where there is one.
pub fn written(
    alloc: Global,
    view: &GraphView,
    target: &Dependency,
    rounds: &[Vec<Element>],
    chain: &[Element],
    letters: &[char],
) -> Result<String, CheckFault>
    ensures text { IfOk result (λ text. IsTextOf (string_bytes text) letters.now (pending_of view.now) target.now (elements_of rounds.now) chain.now) }
    ensures ok { OnOk result (HasDocument letters.now (pending_of view.now) target.now (elements_of rounds.now) chain.now) }
    ensures bad { IfErr result (λ fault. Blames fault (HasDocument letters.now (pending_of view.now) target.now (elements_of rounds.now) chain.now)) }
{
    let latest = well_formed(alloc, view, target, rounds, chain)?;
    let latest = latest.as_slice();
    if !is_known(target, latest) {
        return Err(CheckFault::BadDocument);
    }
    if letters.len() != view.persistent.len() {
        return Err(CheckFault::BadDocument);
    }
    if !are_letters(letters) {
        return Err(CheckFault::BadDocument);
    }
    match text(alloc, view, target, rounds, chain, letters) {
        Ok(text) => Ok(text),
        Err(_) => Err(CheckFault::OutOfMemory),
    }
}

/// The text of what has a document. Its members are written one by one, in the order of their keys.
fn text(
    alloc: Global,
    view: &GraphView,
    target: &Dependency,
    rounds: &[Vec<Element>],
    chain: &[Element],
    letters: &[char],
) -> Result<String, AllocError>
    requires { HasDocument letters.now (pending_of view.now) target.now (elements_of rounds.now) chain.now }
    ensures { IfOk result (λ text. IsTextOf (string_bytes text) letters.now (pending_of view.now) target.now (elements_of rounds.now) chain.now) }
{
    let places = places_of(alloc, &view.waiting)?;
    let named = named_in(alloc, view, &places, target)?;
    let mut members = Map::new(alloc);
    put_elements(alloc, &mut members, view, &places, chain, letters)?;
    put_families(alloc, &mut members, view, letters)?;
    put_rounds(alloc, &mut members, rounds, &named, letters)?;
    object(members).to_string(alloc)
}

/// The members `chain` and `elements`.
fn put_elements(
    alloc: Global,
    members: &mut Map<String, Value>,
    view: &GraphView,
    places: &Places,
    chain: &[Element],
    letters: &[char],
) -> Result<(), AllocError>
    requires listing { IsListing (pending_of view.now) }
    requires letters { AreLetters letters.now }
    requires count { length letters.now ≡ length view.now.persistent.items }
    requires letter { All (HasLetter letters.now) chain.now }
    ensures { OnOk result ((entries : List Data) × AreWritten letters.now (pending_of view.now) entries × (members_view members.new.entries
        ≡ with_member (codes "elements") (array (items_of entries)) (with_member (codes "chain") (names_data letters.now chain.now) (members_view members.old.entries)))) }
{
    let chain = elements_value(alloc, letters, chain)?;
    put(members, alloc, "chain", chain)?;
    let elements = entries_value(alloc, view, places, letters)?;
    put(members, alloc, "elements", elements)?;
    Ok(())
}

/// The members `families`, `format` and `persistent`.
fn put_families(
    alloc: Global,
    members: &mut Map<String, Value>,
    view: &GraphView,
    letters: &[char],
) -> Result<(), AllocError>
    requires { AreLetters letters.now }
    ensures { OnOk result (members_view members.new.entries
        ≡ with_member (codes "persistent") (numbers_data view.now.persistent.items) (with_member (codes "format") (number (unsigned 1)) (with_member (codes "families") (letters_data letters.now) (members_view members.old.entries)))) }
{
    let families = letters_value(alloc, letters)?;
    put(members, alloc, "families", families)?;
    put(members, alloc, "format", Value::from(1u64))?;
    let persistent = versions_value(alloc, &view.persistent)?;
    put(members, alloc, "persistent", persistent)?;
    Ok(())
}

/// The members `rounds` and `target`.
fn put_rounds(
    alloc: Global,
    members: &mut Map<String, Value>,
    rounds: &[Vec<Element>],
    named: &[Element],
    letters: &[char],
) -> Result<(), AllocError>
    requires letters { AreLetters letters.now }
    requires rounds { All (All (HasLetter letters.now)) (elements_of rounds.now) }
    requires named { All (HasLetter letters.now) named.now }
    ensures { OnOk result (members_view members.new.entries
        ≡ with_member (codes "target") (names_data letters.now named.now) (with_member (codes "rounds") (rounds_data letters.now (elements_of rounds.now)) (members_view members.old.entries))) }
{
    let rounds = rounds_value(alloc, letters, rounds)?;
    put(members, alloc, "rounds", rounds)?;
    let target = elements_value(alloc, letters, named)?;
    put(members, alloc, "target", target)?;
    Ok(())
}

/// The object with these members.
fn object(members: Map<String, Value>) -> Value
    ensures { view_of result ≡ object_of (members_view members.entries) }
{
    Value::Object(members)
}
