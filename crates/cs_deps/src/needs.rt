//! Needs as a graph keeps them.
ghost use Rattle.std.specs.Prelude.{◌≡◌, [], ◌∷◌, IfOk, IfSome, IsTrue, OnOk};
ghost use Rattle.cs_deps.specs.Entries.{union};
ghost use Rattle.cs_deps.specs.Needs.{named_by};
ghost use Rattle.cs_deps.specs.Spent.{is_foldable};

use crate::dependencies::Dependency;
use crate::spans::Span;
use std::alloc::{AllocError, Global};
use std::marker::Model;

/// What a dependency names, in four words where it lists no span and names versions of the first two families alone, and
/// where it names one span and versions of the second family alone.
#[derive(Drop)]
pub enum Held {
    /// The plain writes from 1 to a number.
    Through(u64),
    /// And the versions from 1 to a number of the first family.
    One(u64, u64),
    /// And those of the second.
    Two(u64, u64, u64),
    /// The plain writes from one number to another, and the versions from 1 to a third of the second family.
    Span(u64, u64, u64),
    /// Anything else.
    Many(Box<Dependency>),
}

/// What an element needs, for as long as a graph keeps it. Most elements need little, and each of them is to take little memory.
#[derive(Drop)]
pub struct Needs {
    held: Held,
}

impl Model for Needs {
    ghost use Rattle.cs_deps.specs.Named.{Named};
    ghost use Rattle.cs_deps.specs.Needs.{named_by};

    ghost Value = { Named };

    ghost view = { λ n. named_by n.held };
}

/// What a dependency names that lists no span, in four words; None where that takes more.
fn unlisted(through: u64, least: &[u64]) -> Option<Held>
    ensures { IfSome result (λ held. named_by held ≡ record { through = through; spans = []; least = least.now }) }
{
    match least.len() {
        0 => Some(Held::Through(through)),
        1 => Some(Held::One(through, least[0])),
        2 => Some(Held::Two(through, least[0], least[1])),
        _ => None,
    }
}

/// What a dependency names that lists one span, in four words; None where that takes more.
fn listed(through: u64, span: Span, least: &[u64]) -> Option<Held>
    ensures { IfSome result (λ held. named_by held ≡ record { through = through; spans = span ∷ []; least = least.now }) }
{
    if through == 0 && least.len() == 2 && least[0] == 0 {
        Some(Held::Span(span.first, span.last, least[1]))
    } else {
        None
    }
}

/// What a dependency names, in four words; None where that takes more.
fn few(needs: &Dependency) -> Option<Held>
    ensures { IfSome result (λ held. named_by held ≡ needs.now) }
{
    let spans = needs.spans();
    match spans.len() {
        0 => unlisted(needs.through_number(), needs.versions()),
        1 => listed(needs.through_number(), spans[0], needs.versions()),
        _ => None,
    }
}

impl Needs {
    /// What a dependency names, in this place where four words won't do.
    pub fn within(needs: Dependency, place: Box<Dependency>) -> Self
        ensures { result ≡ needs }
    {
        match few(&needs) {
            Some(held) => Needs { held },
            None => {
                let mut all = place;
                *all = needs;
                Needs {
                    held: Held::Many(all),
                }
            }
        }
    }

    /// Names from now on what a dependency names, in four words or in the place that it has; false, and nothing is changed, where
    /// four words won't do and it has no place. It takes no memory.
    pub fn hold(&mut self, needs: Dependency) -> bool
        ensures held { IsTrue result → self.new ≡ needs }
        ensures refused { ¬ IsTrue result → self.new ≡ self.old }
    {
        if let Some(held) = few(&needs) {
            self.held = held;
            return true;
        }
        match &mut self.held {
            Held::Many(all) => {
                **all = needs;
                true
            }
            _ => false,
        }
    }

    /// Whether it has a place for many needs.
    pub fn has_place(&self) -> bool {
        matches!(self.held, Held::Many(_))
    }

    /// The same, as a dependency.
    pub fn copy(&self, alloc: Global) -> Result<Dependency, AllocError>
        ensures { IfOk result (λ d. d ≡ self.now) }
    {
        match &self.held {
            Held::Through(through) => Dependency::everything(alloc, *through, &[]),
            Held::One(through, first) => Dependency::everything(alloc, *through, &[*first]),
            Held::Two(through, first, second) => {
                Dependency::everything(alloc, *through, &[*first, *second])
            }
            Held::Span(first, last, second) => Dependency::on_span(
                alloc,
                Span {
                    first: *first,
                    last: *last,
                },
                &[0, *second],
            ),
            Held::Many(all) => all.copy(),
        }
    }

    /// Adds what it names to a dependency.
    pub fn join_into(&self, alloc: Global, all: &mut Dependency) -> Result<(), AllocError>
        ensures { OnOk result (all.new ≡ union all.old self.now) }
    {
        let own = self.copy(alloc)?;
        all.join(&own)
    }

    /// Whether it lists no span, and names versions of the first 16 families alone.
    pub fn is_foldable(&self) -> bool
        ensures { result ≡ is_foldable self.now }
    {
        match &self.held {
            Held::Span(_, _, _) => false,
            Held::Many(all) => all.is_foldable(),
            _ => true,
        }
    }
}
