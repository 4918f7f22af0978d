//! Numbers that one holder has.
ghost use Rattle.std.specs.Prelude.{◌≡◌, ℕ, ◌+◌, ◌<◌, ◌≤◌, ◌↔◌, [], ◌∷◌, All, IsTrue, OnErr, OnOk, length, vec_capacity, vec_len};
ghost use Rattle.cs_node.specs.Numbers.{Gains, GainsAll, NoneEmpty, Within, times};

use crate::stretches::Stretch;
use std::alloc::{AllocError, Global};
use std::marker::Model;

/// Numbers, each as often as it was added. They are kept as stretches in order of their first, 16 bytes each: numbers that follow one
/// another become one stretch, unless some are there twice. A number that is added twice stays there twice.
#[derive(Drop)]
pub struct Numbers {
    stretches: Vec<Stretch>,
}

impl Model for Numbers {
    ghost use Rattle.std.specs.Prelude.{List};
    ghost use Rattle.cs_node.specs.declared.stretches.Stretch.{Stretch};
    ghost use Rattle.cs_node.specs.Numbers.{NoneEmpty};

    ghost Value = { List Stretch };

    ghost view = { λ n. n.stretches.items };

    ghost invariant = { λ n. NoneEmpty n.stretches.items };
}

impl Numbers {
    /// None yet, which takes no memory.
    pub fn new(alloc: Global) -> Self
        ensures { result ≡ [] }
    {
        Numbers {
            stretches: Vec::new(alloc),
        }
    }

    /// Adds a number, also where it is there already. Refused where the memory for one more stretch is. Costs a search among the
    /// stretches, and moves those that begin above the number: none where it is above all others.
    pub fn add(&mut self, number: u64) -> Result<(), AllocError>
        ensures ok { OnOk result (Gains number self.old self.new) }
        ensures err { OnErr result (self.new ≡ self.old) }
    {
        self.stretches.reserve(1)?;
        let alone = Stretch {
            first: number,
            last: number,
        };
        place(&mut self.stretches, alone);
        Ok(())
    }

    /// Moves all numbers of another here. Refused where the memory for its stretches is; both are as they were then. Each of its
    /// stretches costs as much as a number that is added, the last one first.
    pub fn add_all(&mut self, other: &mut Numbers) -> Result<(), AllocError>
        ensures ok { OnOk result (GainsAll self.old other.old self.new × (other.new ≡ [])) }
        ensures err { OnErr result ((self.new ≡ self.old) × (other.new ≡ other.old)) }
    {
        self.stretches.reserve(other.stretches.len())?;
        place_all(&mut self.stretches, &mut other.stretches);
        Ok(())
    }

    /// Its stretches. A number is in as many of them as it was added.
    pub fn stretches(&self) -> &[Stretch]
        ensures { result.now ≡ self.now }
    {
        self.stretches.as_slice()
    }

    /// Whether none is above this number. Looks at each stretch.
    pub fn is_within(&self, most: u64) -> bool
        ensures { IsTrue result ↔ Within most self.now }
    {
        self.stretches.iter().all(|stretch| stretch.last <= most)
    }
}

/// Moves stretches among others, where there is room for them.
fn place_all(stretches: &mut Vec<Stretch>, more: &mut Vec<Stretch>)
    requires room { vec_len stretches.old + vec_len more.old ≤ vec_capacity stretches.old }
    requires filled { NoneEmpty stretches.old.items × NoneEmpty more.old.items }
    ensures gains { GainsAll stretches.old.items more.old.items stretches.new.items }
    ensures moved { more.new.items ≡ [] }
    ensures filled { NoneEmpty stretches.new.items }
{
    while let Some(stretch) = more.pop() {
        place(stretches, stretch);
    }
}

/// Puts a stretch among the others, where there is room for one more. It becomes one with the stretch before it, and with the one
/// behind it, where the numbers of the one follow those of the other.
fn place(stretches: &mut Vec<Stretch>, stretch: Stretch)
    requires room { vec_len stretches.old < vec_capacity stretches.old }
    requires filled { NoneEmpty stretches.old.items }
    requires some { stretch.first ≤ stretch.last }
    ensures gains { GainsAll stretches.old.items (stretch ∷ []) stretches.new.items }
    ensures filled { NoneEmpty stretches.new.items }
    ensures len { vec_len stretches.new ≤ vec_len stretches.old + 1 }
    ensures capacity { vec_capacity stretches.new ≡ vec_capacity stretches.old }
{
    let at = stretches.partition_point(|other| other.first <= stretch.first);
    // there is room, so that this asks for no memory
    let _ = stretches.insert(at, stretch);
    join(stretches, at + 1);
    join(stretches, at);
}

/// Makes one of the stretch at an index and the one before it, where its numbers follow that one's.
fn join(stretches: &mut Vec<Stretch>, at: usize)
    requires { NoneEmpty stretches.old.items }
    ensures same { (x : ℕ) → times x stretches.new.items ≡ times x stretches.old.items }
    ensures filled { NoneEmpty stretches.new.items }
    ensures len { vec_len stretches.new ≤ vec_len stretches.old }
    ensures capacity { vec_capacity stretches.new ≡ vec_capacity stretches.old }
{
    if 0 < at && at < stretches.len() && stretches[at].follows(stretches[at - 1].last) {
        let behind = stretches.remove(at);
        stretches[at - 1].last = behind.last;
    }
}
