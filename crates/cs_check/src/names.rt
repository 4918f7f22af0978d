//! The names of elements in documents: a letter and a number.
ghost use Rattle.std.specs.Prelude.{◌≡◌, ℕ, MatchOption, decimal};
ghost use Rattle.cs_deps.specs.declared.elements.Element.{Element as Item};
ghost use Rattle.cs_check.specs.Names.{AreLetters, IsName, IsNumber, name_of};

use crate::listings::LIMIT;
use cs_deps::Element;
use std::alloc::{AllocError, Global};

/// The least digit that a number begins with.
const LEAST_DIGIT: u8 = b'1';

/// The number that a text of digits spells, if it is one of an element.
fn number_from(digits: &str) -> Option<u64>
    ensures { MatchOption result ((n : ℕ) → IsNumber n → digits.now ≡ decimal n → ⊥) (λ n. IsNumber n × (digits.now ≡ decimal n)) }
{
    let first = *digits.as_bytes().first()?;
    if first < LEAST_DIGIT {
        return None;
    }
    let number: u64 = digits.parse().ok()?;
    if number < LIMIT { Some(number) } else { None }
}

/// The element that a name spells.
pub fn element_from(letters: &[char], name: &str) -> Option<Element>
    requires { AreLetters letters.now }
    ensures { MatchOption result ((x : Item) → IsName letters.now x → name.now ≡ name_of letters.now x → ⊥) (λ x. IsName letters.now x × (name.now ≡ name_of letters.now x)) }
{
    if let Some(digits) = name.strip_prefix('w') {
        return match number_from(digits) {
            Some(number) => Some(Element::Plain(number)),
            None => None,
        };
    }
    for family in 0..letters.len() {
        if let Some(digits) = name.strip_prefix(letters[family]) {
            return match number_from(digits) {
                Some(version) => Some(Element::Version(family, version)),
                None => None,
            };
        }
    }
    None
}
