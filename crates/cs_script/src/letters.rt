//! The letters of families: of the first section of a superblock, of the root, and of the further sections in their
//! order.
ghost use Rattle.std.specs.Prelude.{◌≡◌};
ghost use Rattle.cs_deps.specs.View.{pending_of};
ghost use Rattle.cs_script.specs.Outputs.{letter_of};
ghost use Rattle.cs_script.specs.Scripts.{document_letters};

use cs_deps::GraphView;

/// The letters, by family. No store has more families.
const LETTERS: &[char] = &[
    's', 'r', 'a', 'b', 'c', 'd', 'e', 'f', 'g', 'h', 'i', 'j', 'k', 'l', 'm', 'n',
];

/// A letter for each family of a view, where there are as many letters.
pub fn letters_of(view: &GraphView) -> &'static [char]
    ensures { result.now ≡ document_letters (pending_of view.now) }
{
    let families = view.persistent.len();
    &LETTERS[..families.min(LETTERS.len())]
}

/// The letter of a family, `n` for those past the last that there is.
pub fn letter_of(family: usize) -> &'static str
    ensures { result.now ≡ letter_of family }
{
    match family {
        0 => "s",
        1 => "r",
        2 => "a",
        3 => "b",
        4 => "c",
        5 => "d",
        6 => "e",
        7 => "f",
        8 => "g",
        9 => "h",
        10 => "i",
        11 => "j",
        12 => "k",
        13 => "l",
        14 => "m",
        _ => "n",
    }
}
