//! The names of elements in pictures, which are those of documents: a letter and a number.
ghost use Rattle.std.specs.Prelude.{◌≡◌, ◌++◌, ◌∷◌, ◌<◌, Some, decimal, encode_utf8, slice_index};
ghost use Rattle.cs_check.specs.Names.{AreLetters, name_of};
ghost use Rattle.cs_picture.specs.Spelling.{spelling};

use cs_deps::Element;
use std::fmt;
use std::fmt::{Display, Formatter, Write};

/// The letter of plain writes.
const PLAIN_LETTER: char = 'w';

/// The name of an element.
#[derive(Clone, Copy)]
pub struct Name {
    /// Below 128.
    letter: char,
    number: u64,
}

impl Display for Name {
    ghost use Rattle.cs_picture.specs.Spelling.{spelling};

    ghost output = { λ name. Some (spelling name) };

    fn fmt<W: Write>(&self, f: &mut Formatter<W>) -> fmt::Result {
        let letter = self.letter;
        let number = self.number;
        write!(f, "{letter}{number}")
    }
}

/// The letter of a family, and 0 where it has none.
fn letter_of(letters: &[char], family: usize) -> char
    ensures { result ≡ slice_index letters.now family }
{
    if family < letters.len() {
        letters[family]
    } else {
        '\0'
    }
}

/// The name of an element.
pub fn name_of(letters: &[char], element: Element) -> Name
    requires { AreLetters letters.now }
    ensures { spelling result ≡ name_of letters.now element }
{
    match element {
        Element::Plain(number) => Name {
            letter: PLAIN_LETTER,
            number,
        },
        Element::Version(family, version) => Name {
            letter: letter_of(letters, family),
            number: version,
        },
    }
}
