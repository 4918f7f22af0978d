//! The numbers that a race is run with. Races themselves stand on nodes, and in a crate of their own.
ghost use Rattle.std.specs.Prelude.{◌≡◌, ◌≤◌, MatchOption};
ghost use Rattle.cs_words.specs.RaceNumbers.{IsRaceable};

use std::marker::Model;

/// What a race is run with. Contracts see its numbers.
#[derive(Clone, Copy, Debug)]
pub struct Race {
    threads: u64,
    puts: u64,
    dropped: u64,
    streams: bool,
}

impl Model for Race {
    ghost use Rattle.cs_words.specs.RaceNumbers.{IsRaceable, Racing};

    ghost Value = { Racing };

    ghost view = { λ r. record { threads = r.threads; puts = r.puts; dropped = r.dropped; streams = r.streams } };

    ghost invariant = { λ r. IsRaceable r.threads r.puts r.dropped };

    ghost inverse = { λ d. record { threads = d.threads; puts = d.puts; dropped = d.dropped; streams = d.streams } };
}

impl Race {
    /// A race of 1 to 64 threads that put up to 1,000 shards each, the first of which drops so many of its first tickets, at most as
    /// many as it puts, and in which rounds of several syncs overlap or don't. None for other numbers.
    pub fn new(threads: u64, puts: u64, dropped: u64, streams: bool) -> Option<Race>
        ensures { MatchOption result (¬ IsRaceable threads puts dropped) (λ r. r ≡ record { threads = threads; puts = puts; dropped = dropped; streams = streams }) }
    {
        if threads < 1 || threads > 64 || puts > 1000 || dropped > puts {
            return None;
        }
        Some(Race {
            threads,
            puts,
            dropped,
            streams,
        })
    }

    /// How many threads put.
    pub fn threads(&self) -> u64
        ensures count { result ≡ self.now.threads }
        ensures fits { result ≤ 64 }
    {
        self.threads
    }

    /// How many shards each of them puts.
    pub fn puts(&self) -> u64
        ensures count { result ≡ self.now.puts }
        ensures fits { result ≤ 1000 }
    {
        self.puts
    }

    /// How many of its first tickets the first thread drops.
    pub fn dropped(&self) -> u64
        ensures { result ≡ self.now.dropped }
    {
        self.dropped
    }

    /// Whether rounds of several syncs overlap.
    pub fn streams(&self) -> bool
        ensures { result ≡ self.now.streams }
    {
        self.streams
    }
}
