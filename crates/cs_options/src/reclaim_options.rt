//! How far a reclaim is asked to go.
ghost use Rattle.std.specs.Prelude.{◌≡◌, Bool, codes};
ghost use Rattle.clap.specs.Words.{first_value, found_of};
ghost use Rattle.cs_options.specs.Asked.{TellsFlag};
ghost use Rattle.cs_options.specs.Reaches.{reach_by, reach_to_put};
ghost use Rattle.cs_options.specs.Sizes.{size_of};

use crate::sizes::size_of;
use clap::ArgMatches;

/// How far a reclaim is asked to go.
#[derive(Clone, Copy, Debug, PartialEq, Eq)]
pub enum Reach {
    /// As far as it goes by default.
    Usual,
    /// Until a put of so many bytes has room: `--for`.
    Put(u64),
    /// Up to the brim: `--all`.
    Brim,
}

/// Why it isn't known how far.
#[derive(Clone, Copy, Debug, PartialEq, Eq)]
pub enum NoReach {
    /// Both `--for` and `--all` are given.
    Both,
    /// What is given for `--for` is no size.
    NoSize,
}

/// How far the options ask a reclaim to go.
pub fn reach_of(options: &ArgMatches) -> Result<Reach, NoReach>
    ensures { (all : Bool) × TellsFlag options.now (codes "all") all × (result ≡ reach_by (first_value (found_of options.now) (codes "for")) all) }
{
    match (options.get_str("for"), options.get_flag("all")) {
        (None, false) => Ok(Reach::Usual),
        (None, true) => Ok(Reach::Brim),
        (Some(_), true) => Err(NoReach::Both),
        (Some(text), false) => reach_to_put(text),
    }
}

/// As far as a put of the size that a text stands for needs.
fn reach_to_put(text: &str) -> Result<Reach, NoReach>
    ensures { result ≡ reach_to_put (size_of text.now) }
{
    match size_of(text) {
        Some(bytes) => Ok(Reach::Put(bytes)),
        None => Err(NoReach::NoSize),
    }
}
