//! What waits at each height, and how high an element stands.
ghost use Rattle.std.specs.Prelude.{◌≡◌, ◌≢◌, ℕ, ◌≤◌, ◌<◌, ◌↔◌, ◌-◌, IfOk, IfSome, IsNone, IsTrue, [], None};
ghost use Rattle.cs_deps.specs.declared.elements.Element.{Element as Item};
ghost use Rattle.cs_deps.specs.Chain.{IsHeight};
ghost use Rattle.cs_deps.specs.Pending.{Needs, Waits};
ghost use Rattle.cs_deps.specs.State.{IsQueue};

use crate::elements::Element;
use crate::graphs::Graph;
use crate::rows::{add_plains, add_versions};
use std::alloc::AllocError;

impl Graph {
    /// The waiting plain writes of a height, by number, then of each family the greatest version of that height. The work is that of
    /// listing them.
    pub fn queue(&self, height: u64) -> Result<Vec<Element>, AllocError>
        requires none { self.now.round ≡ None }
        requires height { 1 ≤ height }
        ensures { IfOk result (λ xs. IsQueue self.now.staging.pending height xs.items) }
    {
        let alloc = *self.persistent.allocator();
        let mut queue = Vec::new(alloc);
        if (self.levels.rows.len() as u64) < height {
            return Ok(queue);
        }
        let row = self.levels.rows[(height - 1) as usize];
        let level = self.levels.ended + height;
        add_plains(&mut queue, &self.levels, level, row.first, self.staged)?;
        add_versions(&mut queue, &row.versions)?;
        Ok(queue)
    }

    /// The height of a waiting element, and a need of it that is one lower, None where the height is 1. It takes no memory and
    /// seeks nothing.
    pub fn kept(&self, element: Element) -> (u64, Option<Element>)
        requires none { self.now.round ≡ None }
        requires waits { Waits self.now.staging.pending element }
        ensures height { IsHeight self.now.staging.pending element result.0 }
        ensures before { IfSome result.1 (λ p. Needs self.now.staging.pending element p × IsHeight self.now.staging.pending p (result.0 - 1)) }
        ensures first { IsNone result.1 ↔ (result.0 ≡ 1) }
    {
        match self.levels.kept(element) {
            Some(kept) => {
                let height = kept.level - self.levels.ended;
                (height, if height == 1 { None } else { kept.before })
            }
            None => (1, None),
        }
    }

    /// Whether an element waits. It takes no memory and seeks nothing.
    pub fn waits(&self, element: Element) -> bool
        requires none { self.now.round ≡ None }
        ensures { IsTrue result ↔ Waits self.now.staging.pending element }
    {
        match self.levels.kept(element) {
            Some(kept) => self.levels.ended < kept.level,
            None => false,
        }
    }

    /// The greatest height of what waits, 0 where nothing does.
    pub fn depth(&self) -> usize
        requires none { self.now.round ≡ None }
        ensures all { (x : Item) (n : ℕ) → IsHeight self.now.staging.pending x n → n ≤ result }
        ensures reached { 0 < result → (x : Item) × IsHeight self.now.staging.pending x result }
    {
        self.levels.rows.len()
    }

    /// Whether something waits. It takes no memory.
    pub fn has_waiting(&self) -> bool
        ensures { IsTrue result ↔ (self.now.staging.pending.waiting ≢ []) }
    {
        !self.levels.rows.is_empty()
    }
}
