//! Who is told of the lines of a script that aren't readable or are refused.
ghost use Rattle.std.specs.Prelude.{◌≡◌, ℕ, List};
ghost use Rattle.cs_script.specs.declared.watchers.LineFault.{LineFault as Fault};
ghost use Rattle.cs_script.specs.declared.watchers.Onward.{Onward as Next};
ghost use Rattle.cs_script.specs.declared.watchers.Onward.TheVariants.{GoOn};

use crate::bad_lines::BadLine;
use cs_refusal::Refusal;
use thiserror::Error;

/// What is wrong with a line.
#[derive(Clone, Copy, Debug, PartialEq, Eq, Error)]
pub enum LineFault {
    /// It isn't readable.
    #[error("bad line: {0}")]
    Bad(BadLine),
    /// It was refused.
    #[error("{0}")]
    Refused(Refusal),
}

/// Whether a script goes on after a line.
#[derive(Clone, Copy, Debug, PartialEq, Eq)]
pub enum Onward {
    /// It goes on with the next line.
    GoOn,
    /// It ends.
    Stop,
}

/// Is told of each line that isn't readable or is refused, once its lines are printed.
pub trait Watcher {
    /// The watcher, the number of the line, its text and what is wrong with it, what the watcher says, and the watcher
    /// then.
    ghost meets: { Self → ℕ → List ℕ → Fault → Next → Self → Type 0 };

    /// Tells of a line without its line feed. The first line is number 1, and remarks and empty lines count.
    fn met(&mut self, number: u64, text: &[u8], fault: LineFault) -> Onward
        ensures { meets self.old number text.now fault result self.new };
}

/// Lets every script go on to its end.
#[derive(Drop)]
pub struct Unwatched;

impl Watcher for Unwatched {
    ghost meets = { λ before number text fault onward after. onward ≡ GoOn };

    fn met(&mut self, _number: u64, _text: &[u8], _fault: LineFault) -> Onward {
        Onward::GoOn
    }
}
