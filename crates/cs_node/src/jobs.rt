//! What threads do side by side on one node.
ghost use Rattle.std.specs.Prelude.{◌≡◌, ◌<◌, ◌≤◌, ℕ, [], All, IfErr, IfOk, length, map, slice_index_or, vec_capacity, vec_len};
ghost use Rattle.cs_node.specs.Jobs.{AllGive, Does, HasGiven};

use crate::boards::Naming;
use crate::nodes::Node;
use cs_disk::PageDisk;
use std::sync::Wait;
use std::thread::{Threads, for_each_mut, join};

/// What a thread does on what it shares with others.
pub trait Job<N>: Send + Drop {
    type Out: Send + Drop;

    // what is known of what it returns: nothing, unless an impl says it
    ghost gives: { Self → Self.Out → Type 0 } = { λ _ _. Unit {0} };

    fn run<R: Wait>(self, rt: &R, node: &N) -> Self::Out
        ensures { gives self result };
}

/// Two jobs side by side.
fn two<N: Sync, A: Job<N>, B: Job<N>, R: Threads + Wait + Sync>(
    rt: &R,
    node: &N,
    a: A,
    b: B,
) -> (A::Out, B::Out)
    ensures { A.gives a result.0 × B.gives b result.1 }
{
    join(rt, move || a.run(rt, node), move || b.run(rt, node))
}

/// A job, and afterwards what it returned.
#[derive(Drop)]
enum Slot<J, X> {
    Job(J),
    Nothing,
    Gave(X),
}

impl<J, X> Slot<J, X> {
    /// Does the job that is there.
    fn run<N, R: Wait>(&mut self, rt: &R, node: &N)
    where
        J: Job<N, Out = X>,
        ensures { Does J.gives self.old self.new }
    {
        if let Slot::Job(job) = std::mem::replace(self, Slot::Nothing) {
            *self = Slot::Gave(job.run(rt, node));
        }
    }
}

/// The jobs, each at a slot of its own, in their order.
fn waiting<J: Drop, X: Drop>(jobs: Vec<J>, mut slots: Vec<Slot<J, X>>) -> Vec<Slot<J, X>>
    requires none { slots.items ≡ [] }
    requires room { vec_len jobs ≤ vec_capacity slots }
    ensures { result.items ≡ map Slot.Job jobs.items }
{
    for job in jobs {
        slots.push_reserved(Slot::Job(job));
    }
    slots
}

/// What the jobs returned, in their order.
fn given<J: Drop, X: Drop>(slots: Vec<Slot<J, X>>, mut outs: Vec<X>) -> Vec<X>
    requires none { outs.items ≡ [] }
    requires room { vec_len slots ≤ vec_capacity outs }
    requires gave { All HasGiven slots.items }
    ensures { slots.items ≡ map Slot.Gave result.items }
{
    for slot in slots {
        let Slot::Gave(out) = slot else {
            unreachable!()
        };
        outs.push_reserved(out);
    }
    outs
}

/// Does the job at each slot, each in a thread of its own.
fn do_each<N: Sync, J: Job<N>, R: Threads + Wait + Sync>(
    rt: &R,
    node: &N,
    slots: &mut [Slot<J, J::Out>],
)
    ensures { (k : ℕ) (d : _) → k < length slots.old → Does J.gives (slice_index_or slots.old k d) (slice_index_or slots.new k d) }
{
    let count = slots.len();
    for_each_mut(rt, slots, count.max(1), &|_, slot| slot.run(rt, node));
}

/// Jobs side by side, and what each returned, in their order. If memory is refused the jobs come back, and none was
/// done.
fn all<N: Sync, J: Job<N>, R: Threads + Wait + Sync>(
    rt: &R,
    node: &N,
    jobs: Vec<J>,
) -> Result<Vec<J::Out>, Vec<J>>
    ensures len { IfOk result (λ outs. vec_len outs ≡ vec_len jobs) }
    ensures gives { IfOk result (λ outs. AllGive J.gives jobs.items outs.items) }
    ensures err { IfErr result (λ back. back.items ≡ jobs.items) }
{
    let count = jobs.len();
    let alloc = *jobs.allocator();
    let Ok(slots) = Vec::with_capacity(alloc, count) else {
        return Err(jobs);
    };
    let Ok(outs) = Vec::with_capacity(alloc, count) else {
        return Err(jobs);
    };
    let mut slots = waiting(jobs, slots);
    do_each(rt, node, &mut slots);
    Ok(given(slots, outs))
}

impl<D: PageDisk + Send, K: Naming + Send + Sync> Node<D, K> {
    /// Does two jobs on the node, each in a thread of its own. It returns once both have ended. If no thread can be
    /// made they are done one after the other, the second first. So a second job that waits for the first one may then
    /// wait for ever.
    pub fn beside<A: Job<Node<D, K>>, B: Job<Node<D, K>>, R: Threads + Wait + Sync>(
        &self,
        rt: &R,
        a: A,
        b: B,
    ) -> (A::Out, B::Out)
        ensures { A.gives a result.0 × B.gives b result.1 }
    {
        two(rt, self, a, b)
    }

    /// Does the jobs on the node, each in a thread of its own. Once all have ended it returns what each returned, in
    /// their order. If memory is refused the jobs come back, and none was done. If a thread can't be made the jobs
    /// after it are done first, one after another. So a job that waits for an earlier one may then wait for ever.
    pub fn abreast<J: Job<Node<D, K>>, R: Threads + Wait + Sync>(
        &self,
        rt: &R,
        jobs: Vec<J>,
    ) -> Result<Vec<J::Out>, Vec<J>>
        ensures len { IfOk result (λ outs. vec_len outs ≡ vec_len jobs) }
        ensures gives { IfOk result (λ outs. AllGive J.gives jobs.items outs.items) }
        ensures err { IfErr result (λ back. back.items ≡ jobs.items) }
    {
        all(rt, self, jobs)
    }
}
