//! How the threads of a race stand to one another.
use std::sync::atomic::{AtomicU64, Ordering};

/// Counts the tickets that are sent off, and tells whether somebody takes them and whether all of that has ended.
#[derive(Drop)]
pub struct Traffic {
    sent: AtomicU64,
    attended: AtomicU64,
    ended: AtomicU64,
}

impl Traffic {
    /// Nothing was sent, and nobody takes anything.
    pub fn new() -> Self {
        Traffic {
            sent: AtomicU64::new(0),
            attended: AtomicU64::new(0),
            ended: AtomicU64::new(0),
        }
    }

    /// Counts a ticket, and says whether it may be sent where there are so many places: there is one for it, or
    /// somebody is there who makes room. Where nobody is there yet, whoever waits for room might wait for a thread that
    /// is never made.
    pub fn has_room(&self, places: usize) -> bool {
        let before = self.sent.fetch_add(1, Ordering::SeqCst);
        before < places as u64 || self.attended.load(Ordering::SeqCst) == 1
    }

    /// From now on somebody takes what is sent, up to the last of it.
    pub fn attend(&self) {
        self.attended.store(1, Ordering::SeqCst);
    }

    /// All tickets were polled for the last time, or nobody will.
    pub fn end(&self) {
        self.ended.store(1, Ordering::SeqCst);
    }

    /// Whether all of it has ended.
    pub fn has_ended(&self) -> bool {
        self.ended.load(Ordering::SeqCst) == 1
    }
}
