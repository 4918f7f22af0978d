//! What the values of a document say.
ghost use Rattle.std.specs.Prelude.{◌≡◌, ℕ, ◌≤◌, length, slice_index, ◌<◌, ◌^◌, [], ◌∷◌, AllPairs, ◌↔◌, List, All, IfOk, IfErr, IsTrue, Some};
ghost use Rattle.serde_json.specs.Data.{Data, number, string, array, unsigned};
ghost use Rattle.serde_json.specs.View.{view, items_view, items_of};
ghost use Rattle.cs_deps.specs.declared.elements.Element.{Element as Item};
ghost use Rattle.cs_check.specs.Names.{AreLetters, IsLetter, IsName, name_of};
ghost use Rattle.cs_check.specs.Faults.{Blames};
ghost use Rattle.cs_check.specs.Documents.{HasMember, names_data, numbers_data, letters_data, rounds_data};
ghost use Rattle.cs_check.specs.Progress.{elements_of};

use crate::faults::CheckFault;
use crate::listings::LIMIT;
use crate::names::element_from;
use cs_deps::Element;
use serde_json::Value;
use std::alloc::Global;

/// The member of an object.
pub fn member<'v>(value: &'v Value, key: &str) -> Result<&'v Value, CheckFault>
    ensures ok { IfOk result (λ found. HasMember (view value.now) key.now (view found.now)) }
    ensures err { IfErr result (λ fault. (fault ≡ CheckFault.BadDocument) × ((d : Data) → HasMember (view value.now) key.now d → ⊥)) }
{
    match value.get(key) {
        Some(found) => Ok(found),
        None => Err(CheckFault::BadDocument),
    }
}

/// The items of an array.
pub fn items(value: &Value) -> Result<&[Value], CheckFault>
    ensures ok { IfOk result (λ found. view value.now ≡ array (items_view found.now)) }
    ensures err { IfErr result (λ fault. (fault ≡ CheckFault.BadDocument) × ((ds : List Data) → view value.now ≡ array (items_of ds) → ⊥)) }
{
    match value.as_array() {
        Some(items) => Ok(items.as_slice()),
        None => Err(CheckFault::BadDocument),
    }
}

/// The element that a text names.
pub fn element(letters: &[char], value: &Value) -> Result<Element, CheckFault>
    requires { AreLetters letters.now }
    ensures ok { IfOk result (λ x. IsName letters.now x × (view value.now ≡ string (name_of letters.now x))) }
    ensures err { IfErr result (λ fault. (fault ≡ CheckFault.BadDocument) × ((x : Item) → IsName letters.now x → view value.now ≡ string (name_of letters.now x) → ⊥)) }
{
    let Some(text) = value.as_str() else {
        return Err(CheckFault::BadDocument);
    };
    match element_from(letters, text) {
        Some(element) => Ok(element),
        None => Err(CheckFault::BadDocument),
    }
}

/// The elements that an array of texts names.
pub fn elements(alloc: Global, letters: &[char], value: &Value) -> Result<Vec<Element>, CheckFault>
    requires { AreLetters letters.now }
    ensures ok { IfOk result (λ xs. All (IsName letters.now) xs.items × (view value.now ≡ names_data letters.now xs.items)) }
    ensures err { IfErr result (λ fault. Blames fault ((xs : List Item) × All (IsName letters.now) xs × (view value.now ≡ names_data letters.now xs))) }
{
    let values = items(value)?;
    let mut elements = Vec::new(alloc);
    for i in 0..values.len() {
        let element = element(letters, &values[i])?;
        elements.push(element)?;
    }
    Ok(elements)
}

/// The lists of elements that an array of arrays of texts names.
pub fn rounds(
    alloc: Global,
    letters: &[char],
    value: &Value,
) -> Result<Vec<Vec<Element>>, CheckFault>
    requires { AreLetters letters.now }
    ensures ok { IfOk result (λ rounds. All (All (IsName letters.now)) (elements_of rounds.items) × (view value.now ≡ rounds_data letters.now (elements_of rounds.items))) }
    ensures err { IfErr result (λ fault. Blames fault ((rounds : List (List Item)) × All (All (IsName letters.now)) rounds × (view value.now ≡ rounds_data letters.now rounds))) }
{
    let values = items(value)?;
    let mut rounds = Vec::new(alloc);
    for i in 0..values.len() {
        let round = elements(alloc, letters, &values[i])?;
        rounds.push(round)?;
    }
    Ok(rounds)
}

/// Reads a whole number below 2^63 as a version; any other value is 10 BadDocument.
fn version(value: &Value) -> Result<u64, CheckFault>
    ensures ok { IfOk result (λ v. (v < 2 ^ 63) × (view value.now ≡ number (unsigned v))) }
    ensures err { IfErr result (λ fault. (fault ≡ CheckFault.BadDocument) × ((v : ℕ) → v < 2 ^ 63 → view value.now ≡ number (unsigned v) → ⊥)) }
{
    match value.as_u64() {
        Some(version) => {
            if version < LIMIT {
                Ok(version)
            } else {
                Err(CheckFault::BadDocument)
            }
        }
        None => Err(CheckFault::BadDocument),
    }
}

/// Reads an array of such numbers. 9 OutOfMemory, or 10 BadDocument for any other value.
pub fn versions(alloc: Global, value: &Value) -> Result<Vec<u64>, CheckFault>
    ensures ok { IfOk result (λ vs. All (λ v. v < 2 ^ 63) vs.items × (view value.now ≡ numbers_data vs.items)) }
    ensures err { IfErr result (λ fault. Blames fault ((vs : List ℕ) × All (λ v. v < 2 ^ 63) vs × (view value.now ≡ numbers_data vs))) }
{
    let values = items(value)?;
    let mut versions = Vec::new(alloc);
    for i in 0..values.len() {
        let version = version(&values[i])?;
        versions.push(version)?;
    }
    Ok(versions)
}

/// The letter that a text is.
fn letter(value: &Value) -> Result<char, CheckFault>
    ensures ok { IfOk result (λ c. IsLetter c × (view value.now ≡ string (c ∷ []))) }
    ensures err { IfErr result (λ fault. (fault ≡ CheckFault.BadDocument) × ((c : ℕ) → IsLetter c → view value.now ≡ string (c ∷ []) → ⊥)) }
{
    let Some(text) = value.as_str() else {
        return Err(CheckFault::BadDocument);
    };
    let bytes = text.as_bytes();
    if bytes.len() != 1 {
        return Err(CheckFault::BadDocument);
    }
    let byte = bytes[0];
    if is_letter(byte) {
        Ok(char::from(byte))
    } else {
        Err(CheckFault::BadDocument)
    }
}

/// Whether it is the letter of a family.
fn is_letter(byte: u8) -> bool
    ensures { IsTrue result ↔ IsLetter byte }
{
    b'a' <= byte && byte <= b'z' && byte != b'w'
}

/// Whether the letter is among the first n.
fn stands_before(letters: &[char], n: usize, letter: char) -> bool
    requires { n ≤ length letters.now }
    ensures { IsTrue result ↔ ((i : ℕ) × (i < n) × (slice_index letters.now i ≡ letter)) }
{
    for i in 0..n {
        if letters[i] == letter {
            return true;
        }
    }
    false
}

/// Whether no letter stands twice.
pub fn are_distinct(letters: &[char]) -> bool
    ensures { IsTrue result ↔ AllPairs (λ a b. a ≡ b → ⊥) letters.now }
{
    for j in 0..letters.len() {
        if stands_before(letters, j, letters[j]) {
            return false;
        }
    }
    true
}

/// The letters that an array of texts is, each of them once.
pub fn letters(alloc: Global, value: &Value) -> Result<Vec<char>, CheckFault>
    ensures ok { IfOk result (λ letters. AreLetters letters.items × (view value.now ≡ letters_data letters.items)) }
    ensures err { IfErr result (λ fault. Blames fault ((letters : List ℕ) × AreLetters letters × (view value.now ≡ letters_data letters))) }
{
    let values = items(value)?;
    let mut letters = Vec::new(alloc);
    for i in 0..values.len() {
        let letter = letter(&values[i])?;
        letters.push(letter)?;
    }
    if are_distinct(&letters) {
        Ok(letters)
    } else {
        Err(CheckFault::BadDocument)
    }
}
