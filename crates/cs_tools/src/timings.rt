//! How long calls took, one by one.
ghost use Rattle.std.specs.Prelude.{◌≤◌};

use cs_advice::Style;
use std::alloc::{AllocError, Global};
use std::io;
use std::io::Write;
use std::time::{Clock, Instant};

/// How long each call took, in nanoseconds.
#[derive(Drop)]
pub struct Timings {
    took: Vec<u64>,
    /// All together.
    total: u64,
    /// How many commands a call did.
    each: u64,
}

impl Timings {
    /// Of no call yet. A call does so many commands.
    pub fn new(alloc: Global, each: u64) -> Self {
        Timings {
            took: Vec::new(alloc),
            total: 0,
            each,
        }
    }

    /// Adds a call.
    pub fn add(&mut self, nanoseconds: u64) -> Result<(), AllocError> {
        self.took.push(nanoseconds)?;
        self.total = self.total.saturating_add(nanoseconds);
        Ok(())
    }

    /// Prints how many calls there were of this name, how many commands they did a second, and in how long half and 99
    /// of 100 of them were done.
    pub fn print<W: Write>(&mut self, name: &str, style: Style, writer: &mut W) -> io::Result<()> {
        self.took.sort_unstable();
        let calls = self.took.len();
        let rate = self.rate();
        let half = self.within(50) / 1_000;
        let most = self.within(99) / 1_000;
        match style {
            Style::Text => writeln!(
                writer,
                "{name}: {calls}, {rate} a second, half within {half} us, 99 of 100 within {most} us"
            ),
            Style::Json => writeln!(
                writer,
                "{{\"what\":\"{name}\",\"count\":{calls},\"rate\":{rate},\"p50_us\":{half},\"p99_us\":{most}}}"
            ),
        }
    }

    /// How many commands a second.
    fn rate(&self) -> u64 {
        let commands = (self.took.len() as u64).saturating_mul(self.each);
        let nanoseconds = self.total.max(1);
        let rate = u128::from(commands) * 1_000_000_000 / u128::from(nanoseconds);
        u64::try_from(rate).unwrap_or(u64::MAX)
    }

    /// The time in which so many of 100 calls were done, 0 if there is no call. The calls are sorted.
    fn within(&self, percent: usize) -> u64 {
        let place = self.took.len().saturating_mul(percent) / 100;
        let last = self.took.len().saturating_sub(1);
        self.took.get(place.min(last)).copied().unwrap_or(0)
    }
}

/// How many nanoseconds have gone by.
pub fn nanos_since<R: Clock>(rt: &R, start: Instant) -> io::Result<u64> {
    let nanoseconds = start.elapsed(rt)?.as_nanos();
    Ok(u64::try_from(nanoseconds).unwrap_or(u64::MAX))
}
