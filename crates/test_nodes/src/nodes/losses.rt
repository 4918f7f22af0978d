//! Tickets that are lost.
use super::acts::Act;
use super::tasks::Task;
use super::{Store, Wanted, tries};

/// Puts three shards, and keeps their tickets.
const KEEPS: &[Act] = &[
    Act::PutAny(16),
    Act::KeepTicket,
    Act::PutAny(17),
    Act::KeepTicket,
    Act::PutAny(18),
    Act::KeepTicket,
];

/// Puts three shards, and drops all their tickets.
const DROPS: &[Act] = &[Act::PutAny(32), Act::PutAny(33), Act::PutAny(34)];

#[test]
fn all_tickets_of_a_thread_are_missing(rt: HostRuntime) {
    tries(
        &rt,
        rt.alloc(),
        Store::Small(64),
        Task::Beside(KEEPS, DROPS),
        Wanted::Missing(3),
    );
}
