//! What a round satisfies.
ghost use Rattle.std.specs.Prelude.{◌≡◌, [], ◌∷◌};
ghost use Rattle.cs_deps.specs.Staging.{stands_for, raised};

use crate::elements::Element;

/// Whether the first stands for the second.
pub fn stands(y: Element, x: Element) -> bool
    ensures { result ≡ stands_for y x }
{
    match y {
        Element::Plain(m) => match x {
            Element::Plain(n) => m == n,
            Element::Version(_, _) => false,
        },
        Element::Version(f, v) => match x {
            Element::Plain(_) => false,
            Element::Version(g, w) => f == g && w <= v,
        },
    }
}

/// Raises the version of an element's family.
fn raise_one(versions: &mut Vec<u64>, y: Element)
    ensures { versions.new.items ≡ raised versions.old.items (y ∷ []) }
{
    if let Element::Version(f, v) = y {
        if f < versions.len() {
            versions[f] = versions[f].max(v);
        }
    }
}

/// Raises each version to those of the round.
pub fn raise_all(versions: &mut Vec<u64>, round: &[Element])
    ensures { versions.new.items ≡ raised versions.old.items round.now }
{
    for y in round {
        raise_one(versions, *y);
    }
}
