//! The values of a document.
ghost use Rattle.std.specs.Prelude.{◌≡◌, ◌∷◌, ◌<◌, ◌↔◌, List, All, IfOk, OnOk, IsTrue, decimal, length, slice_index, string_bytes};
ghost use Rattle.serde_json.specs.Data.{Data, array};
ghost use Rattle.serde_json.specs.View.{view as data_of, items_of};
ghost use Rattle.cs_deps.specs.declared.elements.Element.{Element as Item};
ghost use Rattle.cs_deps.specs.Named.{Names};
ghost use Rattle.cs_deps.specs.View.{pending_of};
ghost use Rattle.cs_check.specs.Listing.{IsListing};
ghost use Rattle.cs_check.specs.Names.{AreLetters, IsLetter, name_of};
ghost use Rattle.cs_check.specs.Documents.{names_data, numbers_data, letters_data, rounds_data};
ghost use Rattle.cs_check.specs.Progress.{AddsIf, elements_of};
ghost use Rattle.cs_check.specs.Written.{HasLetter, IsListOf, NamesListed, AreWritten, entry_data};

use crate::noted::Places;
use crate::spelled::plains_in;
use crate::values::are_distinct;
use cs_deps::{Dependency, Element, GraphView};
use serde_json::{Value, json};
use std::alloc::{AllocError, Global};

/// Whether it is the letter of a family.
fn is_letter(letter: char) -> bool
    ensures { IsTrue result ↔ IsLetter letter }
{
    'a' <= letter && letter <= 'z' && letter != 'w'
}

/// Whether each is the letter of a family.
fn all_letters(letters: &[char]) -> bool
    ensures { IsTrue result ↔ All IsLetter letters.now }
{
    for i in 0..letters.len() {
        if !is_letter(letters[i]) {
            return false;
        }
    }
    true
}

/// Whether these are letters of families, each of them once.
pub fn are_letters(letters: &[char]) -> bool
    ensures { IsTrue result ↔ AreLetters letters.now }
{
    all_letters(letters) && are_distinct(letters)
}

/// A letter and a number.
fn text_of(alloc: Global, letter: char, number: u64) -> Result<String, AllocError>
    requires { letter < 128 }
    ensures { IfOk result (λ s. string_bytes s ≡ letter ∷ decimal number) }
{
    let mut text = String::new(alloc);
    text.push(letter)?;
    let digits = number.to_string(alloc)?;
    text.push_str(&digits)?;
    Ok(text)
}

/// The name of an element.
fn name(alloc: Global, letters: &[char], element: Element) -> Result<String, AllocError>
    requires letters { AreLetters letters.now }
    requires letter { HasLetter letters.now element }
    ensures { IfOk result (λ s. string_bytes s ≡ name_of letters.now element) }
{
    match element {
        Element::Plain(number) => text_of(alloc, 'w', number),
        Element::Version(family, version) => text_of(alloc, letters[family], version),
    }
}

/// The array of the names of elements.
pub fn elements_value(
    alloc: Global,
    letters: &[char],
    elements: &[Element],
) -> Result<Value, AllocError>
    requires letters { AreLetters letters.now }
    requires letter { All (HasLetter letters.now) elements.now }
    ensures { IfOk result (λ v. data_of v ≡ names_data letters.now elements.now) }
{
    let mut values = Vec::new(alloc);
    for i in 0..elements.len() {
        let name = name(alloc, letters, elements[i])?;
        values.push(Value::from(name))?;
    }
    Ok(Value::from(values))
}

/// The array of arrays of the names of elements.
pub fn rounds_value(
    alloc: Global,
    letters: &[char],
    rounds: &[Vec<Element>],
) -> Result<Value, AllocError>
    requires letters { AreLetters letters.now }
    requires letter { All (All (HasLetter letters.now)) (elements_of rounds.now) }
    ensures { IfOk result (λ v. data_of v ≡ rounds_data letters.now (elements_of rounds.now)) }
{
    let mut values = Vec::new(alloc);
    for i in 0..rounds.len() {
        let round = elements_value(alloc, letters, &rounds[i])?;
        values.push(round)?;
    }
    Ok(Value::from(values))
}

/// The array of numbers.
pub fn versions_value(alloc: Global, versions: &[u64]) -> Result<Value, AllocError>
    ensures { IfOk result (λ v. data_of v ≡ numbers_data versions.now) }
{
    let mut values = Vec::new(alloc);
    for i in 0..versions.len() {
        values.push(Value::from(versions[i]))?;
    }
    Ok(Value::from(values))
}

/// The array of texts of one letter.
pub fn letters_value(alloc: Global, letters: &[char]) -> Result<Value, AllocError>
    requires { AreLetters letters.now }
    ensures { IfOk result (λ v. data_of v ≡ letters_data letters.now) }
{
    let mut values = Vec::new(alloc);
    for i in 0..letters.len() {
        let mut text = String::new(alloc);
        text.push(letters[i])?;
        values.push(Value::from(text))?;
    }
    Ok(Value::from(values))
}

/// The waiting elements that are named: plain writes, then of each family the greatest version.
pub fn named_in(
    alloc: Global,
    view: &GraphView,
    places: &Places,
    needs: &Dependency,
) -> Result<Vec<Element>, AllocError>
    requires listing { IsListing (pending_of view.now) }
    requires listed { NamesListed (pending_of view.now) needs.now }
    ensures { IfOk result (λ xs. IsListOf (pending_of view.now) needs.now xs.items) }
{
    let mut elements = plains_in(alloc, view, places, needs)?;
    for family in 0..view.persistent.len() {
        add_version(&mut elements, needs, family, view.persistent[family])?;
    }
    Ok(elements)
}

/// Adds the greatest version that is named of a family, if it is not persistent.
fn add_version(
    elements: &mut Vec<Element>,
    needs: &Dependency,
    family: usize,
    persistent: u64,
) -> Result<(), AllocError>
    ensures { OnOk result (AddsIf (persistent < slice_index needs.now.least family) elements.old.items (Item.Version family (slice_index needs.now.least family)) elements.new.items) }
{
    let version = needs.least_of(family);
    if persistent < version {
        elements.push(Element::Version(family, version))?;
    }
    Ok(())
}

/// The object of an element and its needs.
fn entry_value(
    alloc: Global,
    letters: &[char],
    element: Element,
    needs: &[Element],
) -> Result<Value, AllocError>
    requires letters { AreLetters letters.now }
    requires letter { HasLetter letters.now element }
    requires needs { All (HasLetter letters.now) needs.now }
    ensures { IfOk result (λ v. data_of v ≡ entry_data letters.now element needs.now) }
{
    let name = name(alloc, letters, element)?;
    let needs = elements_value(alloc, letters, needs)?;
    json!(in alloc; {"e": name, "needs": needs})
}

/// The array of the waiting elements with their needs.
pub fn entries_value(
    alloc: Global,
    view: &GraphView,
    places: &Places,
    letters: &[char],
) -> Result<Value, AllocError>
    requires listing { IsListing (pending_of view.now) }
    requires letters { AreLetters letters.now }
    requires count { length letters.now ≡ length view.now.persistent.items }
    ensures { IfOk result (λ v. (entries : List Data) × AreWritten letters.now (pending_of view.now) entries × (data_of v ≡ array (items_of entries))) }
{
    let mut values = Vec::new(alloc);
    for k in 0..view.waiting.len() {
        let entry = &view.waiting[k];
        let needs = named_in(alloc, view, places, &entry.1)?;
        let value = entry_value(alloc, letters, entry.0, &needs)?;
        values.push(value)?;
    }
    Ok(Value::from(values))
}
