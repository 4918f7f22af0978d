//! Pairs of pages, what a page number is among them, and what tells of a page whether it is whole.
ghost use Rattle.std.specs.Prelude.{◌≡◌, ℕ, Bool, List, IfErr, IfOk, length};
ghost use Rattle.cs_disk.specs.declared.fault.DiskFault.TheVariants.{OutOfMemory};
ghost use Rattle.cs_disk.specs.Disk.{Image, MayLeave, State};
ghost use Rattle.cs_twin.specs.declared.pairs.Pair.{Pair};
ghost use Rattle.cs_twin.specs.Kept.{AreAllowed};
ghost use Rattle.cs_twin.specs.Pairs.{ArePairs, AreNoOlder, fence, half};

use cs_disk::DiskFault;

/// Two pages of a device that show as one page of the disk above.
#[derive(Clone, Copy, Debug, PartialEq, Eq)]
pub struct Pair {
    /// The number under which both show, and the first of the two.
    pub page: u64,
    /// The other one, which shows as zeros.
    pub twin: u64,
}

/// One of the two pages of a pair.
pub fn half_of(pair: Pair, twin: bool) -> u64
    ensures { result ≡ half pair twin }
{
    if twin { pair.twin } else { pair.page }
}

/// Which half of a pair is the newest.
#[derive(Clone, Copy, Debug, PartialEq, Eq)]
pub struct Held {
    /// It is the twin.
    pub turned: bool,
    /// The version of what it holds, 0 where it holds none.
    pub version: u64,
}

/// What tells of the pages that lie in pairs whether they are whole, and which versions they hold; and what may be
/// written to the other pages.
pub trait PageRules {
    /// The version that bytes spell as what a page holds, from 1 on; 0 where they spell none.
    ghost version: { Self → ℕ → List ℕ → ℕ };

    /// What is kept of the durable image of a device of so many pages in these pairs, whatever is written by way of
    /// them.
    ghost fits: { Self → List Pair → ℕ → Image → Type 0 };

    /// Which bytes may be written to a page of no pair.
    ghost allowed: { Self → ℕ → List ℕ → Bool };

    /// The version that these bytes spell as what this page holds, from 1 on, and 0 where they spell none. Refused 9
    /// OutOfMemory alone.
    fn version_of(&self, number: u64, bytes: &[u8; 4096]) -> Result<u64, DiskFault>
        ensures version { IfOk result (λ found. found ≡ version self.now number bytes.now) }
        ensures memory { IfErr result (λ fault. fault ≡ OutOfMemory) };

    /// Whether these bytes may be written to this page, which is in no pair.
    fn allows(&self, number: u64, bytes: &[u8; 4096]) -> bool
        ensures { result ≡ allowed self.now number bytes.now };

    /// Does nothing. If what was durable fits, what a crash leaves fits too. Each write to a pair goes to the half
    /// that isn't the newest, and is no older than that one or a fence; each other one is allowed.
    fn keep(&self)
        ensures left { (pairs : List Pair) (pages : ℕ) (s : State) (c : Image) → ArePairs pairs pages → length s.durable ≡ pages → AreNoOlder (version self.now) pairs s
            → AreAllowed (allowed self.now) pairs s → fits self.now pairs pages s.durable → MayLeave s c → fits self.now pairs pages c };

    /// A fence is whole as no page.
    ghost fence_is_none: { (r : Self) (number : ℕ) → version r number fence ≡ 0 };
}

/// What a page number is among pairs.
#[derive(Clone, Copy)]
pub enum Place {
    /// No half of any of them.
    Own,
    /// The number under which the pair at this place shows.
    OfPair(usize),
    /// The twin of one of them.
    OfTwin,
}

impl Place {
    ghost use Rattle.cs_twin.specs.Noted.{IsPlace};

    /// What this page number is.
    pub fn of(pairs: &[Pair], number: u64) -> Place
        ensures { IsPlace pairs.now number result }
    {
        for (k, pair) in pairs.iter().enumerate() {
            if pair.twin == number {
                return Place::OfTwin;
            }
            if pair.page == number {
                return Place::OfPair(k);
            }
        }
        Place::Own
    }
}
