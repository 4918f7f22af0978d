//! From the value of a text to a document.
ghost use Rattle.std.specs.Prelude.{◌≡◌, ◌↔◌, List, IfOk, IfErr, IsTrue, All, Contains, codes};
ghost use Rattle.serde_json.specs.Data.{Data, number, array, unsigned};
ghost use Rattle.serde_json.specs.View.{view, items_of};
ghost use Rattle.cs_deps.specs.declared.elements.Element.{Element as Item};
ghost use Rattle.cs_deps.specs.Named.{Named};
ghost use Rattle.cs_deps.specs.View.{pending_of, rounds_of};
ghost use Rattle.cs_check.specs.Documents.{HasMember, IsEntry, AreEntries, IsDocument, IsDocumentOf, NamesThese, names_data, elements_in};
ghost use Rattle.cs_check.specs.Faults.{Blames};
ghost use Rattle.cs_check.specs.Names.{AreLetters, IsName};
ghost use Rattle.cs_check.specs.Parts.{HasFamilies, HasPersistent, HasElements, HasTarget, HasRounds, HasChain};
ghost use Rattle.cs_check.specs.Progress.{elements_of};

use crate::documents::Document;
use crate::faults::CheckFault;
use crate::name_runs::named;
use crate::noted::{Places, places_of};
use crate::values::{element, elements, items, letters, member, rounds, versions};
use crate::verdicts::well_formed;
use cs_deps::{Dependency, Element, GraphView, Plan};
use serde_json::Value;
use std::alloc::Global;

/// Whether the element is listed.
fn is_listed(waiting: &[(Element, Dependency)], places: &Places, element: Element) -> bool
    ensures { IsTrue result ↔ Contains (elements_in waiting.now) element }
{
    places.find(waiting, element).is_some()
}

/// Whether each of the elements is listed.
fn all_listed(waiting: &[(Element, Dependency)], places: &Places, elements: &[Element]) -> bool
    ensures { IsTrue result ↔ All (Contains (elements_in waiting.now)) elements.now }
{
    for element in elements {
        if !is_listed(waiting, places, *element) {
            return false;
        }
    }
    true
}

/// An element with its needs, each of which is listed already.
fn entry(
    alloc: Global,
    letters: &[char],
    waiting: &[(Element, Dependency)],
    places: &Places,
    value: &Value,
) -> Result<(Element, Dependency), CheckFault>
    requires { AreLetters letters.now }
    ensures ok { IfOk result (λ e. IsEntry letters.now (elements_in waiting.now) (view value.now) e.0 e.1) }
    ensures err { IfErr result (λ fault. Blames fault ((x : Item) × (n : Named) × IsEntry letters.now (elements_in waiting.now) (view value.now) x n)) }
{
    let element = element(letters, member(value, "e")?)?;
    let needs = elements(alloc, letters, member(value, "needs")?)?;
    if !all_listed(waiting, places, &needs) {
        return Err(CheckFault::BadDocument);
    }
    let needs = named(alloc, &needs)?;
    Ok((element, needs))
}

/// Reads the waiting elements in their order, each with its needs, which are sought among those before. 10 BadDocument where one isn't
/// there; 9 OutOfMemory.
fn entries(
    alloc: Global,
    letters: &[char],
    value: &Value,
) -> Result<Vec<(Element, Dependency)>, CheckFault>
    requires { AreLetters letters.now }
    ensures ok { IfOk result (λ waiting. (entries : List Data) × (view value.now ≡ array (items_of entries)) × AreEntries letters.now entries waiting.items) }
    ensures err { IfErr result (λ fault. Blames fault ((entries : List Data) × (waiting : List (Item × Named)) × (view value.now ≡ array (items_of entries)) × AreEntries letters.now entries waiting)) }
{
    let values = items(value)?;
    let mut waiting = Vec::new(alloc);
    let mut places = Places::new(alloc);
    for i in 0..values.len() {
        let entry = entry(alloc, letters, &waiting, &places, &values[i])?;
        places.note(entry.0, i)?;
        waiting.push(entry)?;
    }
    Ok(waiting)
}

/// What the target names, each of them listed.
fn target(
    alloc: Global,
    letters: &[char],
    waiting: &[(Element, Dependency)],
    value: &Value,
) -> Result<Dependency, CheckFault>
    requires { AreLetters letters.now }
    ensures ok { IfOk result (λ d. (xs : List Item) × All (IsName letters.now) xs × All (Contains (elements_in waiting.now)) xs × (view value.now ≡ names_data letters.now xs) × NamesThese d xs) }
    ensures err { IfErr result (λ fault. Blames fault ((xs : List Item) × All (IsName letters.now) xs × All (Contains (elements_in waiting.now)) xs × (view value.now ≡ names_data letters.now xs))) }
{
    let elements = elements(alloc, letters, value)?;
    let places = places_of(alloc, waiting)?;
    if !all_listed(waiting, &places, &elements) {
        return Err(CheckFault::BadDocument);
    }
    Ok(named(alloc, &elements)?)
}

/// Whether the value names the one format that there is.
fn is_format(value: &Value) -> bool
    ensures { IsTrue result ↔ HasMember (view value.now) (codes "format") (number (unsigned 1)) }
{
    match value.get("format") {
        Some(format) => format.as_u64() == Some(1),
        None => false,
    }
}

/// The letters of the families.
fn families(alloc: Global, value: &Value) -> Result<Vec<char>, CheckFault>
    ensures ok { IfOk result (λ letters. HasFamilies (view value.now) letters.items) }
    ensures err { IfErr result (λ fault. Blames fault (IsDocument (view value.now))) }
{
    let letters = letters(alloc, member(value, "families")?)?;
    Ok(letters)
}

/// What is persistent of each family.
fn persistent(alloc: Global, letters: &[char], value: &Value) -> Result<Vec<u64>, CheckFault>
    requires { HasFamilies (view value.now) letters.now }
    ensures ok { IfOk result (λ versions. HasPersistent (view value.now) letters.now versions.items) }
    ensures err { IfErr result (λ fault. Blames fault (IsDocument (view value.now))) }
{
    let versions = versions(alloc, member(value, "persistent")?)?;
    if versions.len() != letters.len() {
        return Err(CheckFault::BadDocument);
    }
    Ok(versions)
}

/// What waits.
fn waits(
    alloc: Global,
    letters: &[char],
    value: &Value,
) -> Result<Vec<(Element, Dependency)>, CheckFault>
    requires { HasFamilies (view value.now) letters.now }
    ensures ok { IfOk result (λ waiting. HasElements (view value.now) letters.now waiting.items) }
    ensures err { IfErr result (λ fault. Blames fault (IsDocument (view value.now))) }
{
    let waiting = entries(alloc, letters, member(value, "elements")?)?;
    Ok(waiting)
}

/// What the target names.
fn aim(
    alloc: Global,
    letters: &[char],
    waiting: &[(Element, Dependency)],
    value: &Value,
) -> Result<Dependency, CheckFault>
    requires families { HasFamilies (view value.now) letters.now }
    requires elements { HasElements (view value.now) letters.now waiting.now }
    ensures ok { IfOk result (λ target. HasTarget (view value.now) letters.now waiting.now target) }
    ensures err { IfErr result (λ fault. Blames fault (IsDocument (view value.now))) }
{
    let target = target(alloc, letters, waiting, member(value, "target")?)?;
    Ok(target)
}

/// The rounds.
fn schedule(alloc: Global, letters: &[char], value: &Value) -> Result<Vec<Vec<Element>>, CheckFault>
    requires { HasFamilies (view value.now) letters.now }
    ensures ok { IfOk result (λ rounds. HasRounds (view value.now) letters.now (elements_of rounds.items)) }
    ensures err { IfErr result (λ fault. Blames fault (IsDocument (view value.now))) }
{
    let rounds = rounds(alloc, letters, member(value, "rounds")?)?;
    Ok(rounds)
}

/// The chain.
fn links(alloc: Global, letters: &[char], value: &Value) -> Result<Vec<Element>, CheckFault>
    requires { HasFamilies (view value.now) letters.now }
    ensures ok { IfOk result (λ chain. HasChain (view value.now) letters.now chain.items) }
    ensures err { IfErr result (λ fault. Blames fault (IsDocument (view value.now))) }
{
    let chain = elements(alloc, letters, member(value, "chain")?)?;
    Ok(chain)
}

/// The document that a value says.
pub fn document(alloc: Global, value: &Value) -> Result<Document, CheckFault>
    ensures ok { IfOk result (λ doc. IsDocumentOf (view value.now) doc.letters.items (pending_of doc.view) doc.target (rounds_of doc.plan) doc.plan.chain.items) }
    ensures err { IfErr result (λ fault. Blames fault (IsDocument (view value.now))) }
{
    if !is_format(value) {
        return Err(CheckFault::BadDocument);
    }
    let letters = families(alloc, value)?;
    let persistent = persistent(alloc, &letters, value)?;
    let waiting = waits(alloc, &letters, value)?;
    let target = aim(alloc, &letters, &waiting, value)?;
    let rounds = schedule(alloc, &letters, value)?;
    let chain = links(alloc, &letters, value)?;
    let view = GraphView {
        persistent,
        waiting,
    };
    let plan = Plan { rounds, chain };
    let _ = well_formed(alloc, &view, &target, &plan.rounds, &plan.chain)?;
    Ok(Document {
        view,
        target,
        plan,
        letters,
    })
}
