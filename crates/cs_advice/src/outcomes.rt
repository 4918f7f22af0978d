//! How a command ended.
ghost use Rattle.std.specs.Prelude.{◌≡◌, ◌≤◌};
ghost use Rattle.cs_advice.specs.Outcomes.{outcome_of_file, status_of, status_of_fault};

use cs_disk::{FileFault, SystemFault};
use cs_refusal::Refusal;

/// How a command ended.
#[derive(Clone, Copy, Debug, PartialEq, Eq)]
pub enum Outcome {
    /// All was done. Status 0.
    Done,
    /// There is nothing under the identifier. Status 1.
    Absent,
    /// The store refused it. Status 1.
    Refused(Refusal),
    /// There is no store. Status 3.
    NoStore(Refusal),
    /// A stream failed. Status 4.
    Failed,
    /// What is there couldn't be read. Status 5.
    Unread(Refusal),
    /// Some of what is there couldn't be read, and it was printed which. Status 5.
    Damaged,
    /// The operating system refused the file. Status 6 if another process has it open; 7 if it isn't there, or may not
    /// be used so; else 3.
    Unopened(SystemFault),
    /// A repair stopped before it wrote anything, since it could make a loss of commands final. Status 5.
    MayBeLost,
}

impl Outcome {
    /// How a command ends whose file wasn't opened or made.
    pub fn of_file(fault: FileFault) -> Self
        ensures { result ≡ outcome_of_file fault }
    {
        match fault {
            FileFault::System(fault) => Outcome::Unopened(fault),
            FileFault::OddLength => Outcome::NoStore(Refusal::OddLength),
            FileFault::NotEmpty => Outcome::Refused(Refusal::NotEmpty),
        }
    }

    /// The exit status.
    pub fn status(self) -> u8
        ensures status { result ≡ status_of self }
        ensures most { result ≤ 7 }
    {
        match self {
            Outcome::Done => cs_words::DONE,
            Outcome::Absent => cs_words::ABSENT,
            Outcome::Refused(_) => cs_words::REFUSED,
            Outcome::NoStore(_) => cs_words::NO_STORE,
            Outcome::Failed => cs_words::STREAM,
            Outcome::Unread(_) | Outcome::Damaged | Outcome::MayBeLost => cs_words::DAMAGED,
            Outcome::Unopened(fault) => status_of_fault(fault),
        }
    }
}

/// The exit status if the system refused a file.
fn status_of_fault(fault: SystemFault) -> u8
    ensures status { result ≡ status_of_fault fault }
    ensures most { result ≤ 7 }
{
    match fault {
        SystemFault::InUse => cs_words::IN_USE,
        SystemFault::NotThere
        | SystemFault::NotAllowed
        | SystemFault::Folder
        | SystemFault::ReadOnly => cs_words::NOT_THERE,
        SystemFault::NoRoom | SystemFault::Failed => cs_words::NO_STORE,
    }
}
