//! How numbers are added up.
ghost use Rattle.std.specs.Prelude.{◌≡◌, ◌+◌, ◌∷◌, ◌≤◌, ◌↔◌, IsTrue, List, min};
ghost use Rattle.cs_node.specs.declared.stretches.Stretch.{Stretch};
ghost use Rattle.cs_node.specs.Numbers.{AreNumbers, lacking};
ghost use Rattle.cs_node.specs.Tallies.{AreFrom, StartAt, lacking_from};

use crate::accounts::Account;
use crate::stretches::Stretch;

/// What was seen of stretches that come in order of their first.
#[derive(Clone, Copy)]
struct Tally {
    /// The greatest number so far, 0 before the first.
    seen: u64,
    /// Whether they are the numbers from 1 to that one, each once.
    is_whole: bool,
    /// How many of the numbers from 1 to that one weren't there, counted up to the greatest that is asked for.
    missing: u64,
}

impl Tally {
    /// The tally once a stretch was seen that begins no lower than those before it. What is left to be seen is what was left with it.
    fn after(self, most: u64, stretch: Stretch) -> Tally
        requires { self.missing ≤ min self.seen most }
        ensures whole { (rest : List Stretch) → StartAt stretch.first rest → (IsTrue result.is_whole × AreFrom result.seen most rest) ↔ (IsTrue self.is_whole × AreFrom self.seen most (stretch ∷ rest)) }
        ensures missing { (rest : List Stretch) → StartAt stretch.first rest → result.missing + lacking_from result.seen most rest ≡ self.missing + lacking_from self.seen most (stretch ∷ rest) }
        ensures fits { result.missing ≤ min result.seen most }
    {
        if stretch.last < stretch.first {
            return self;
        }
        let before = stretch.first.saturating_sub(1).min(most);
        Tally {
            seen: self.seen.max(stretch.last),
            is_whole: self.is_whole && stretch.follows(self.seen),
            missing: self.missing + before.saturating_sub(self.seen),
        }
    }
}

/// Tells whether these are the numbers 1 to `most`, each once, and how many of those aren't there. The stretches may overlap, be empty
/// and come in any order: they are sorted, which takes no memory, and then each is looked at once.
pub fn account(most: u64, mut stretches: Vec<Stretch>) -> Account
    ensures whole { IsTrue result.is_whole ↔ AreNumbers most stretches.items }
    ensures missing { result.missing ≡ lacking most stretches.items }
{
    stretches.sort_unstable_by_key(|stretch| stretch.first);
    let mut tally = Tally {
        seen: 0,
        is_whole: true,
        missing: 0,
    };
    for stretch in &stretches {
        tally = tally.after(most, *stretch);
    }
    Account {
        is_whole: tally.is_whole && tally.seen == most,
        missing: tally.missing + most.saturating_sub(tally.seen),
    }
}
