//! Why bytes are no request.
ghost use Rattle.std.specs.Prelude.{◌≡◌};
ghost use Rattle.cs_resp.specs.Faults.{fault_text};
ghost use Rattle.cs_resp.specs.declared.faults.Stop.TheVariants.{Memory, Ends};

use std::alloc::{AllocError, AllocFailed};

/// What is wrong with bytes: the first fault from the left.
#[derive(Clone, Copy, Debug, PartialEq, Eq)]
pub enum Fault {
    /// A request begins with a byte that isn't `*`: an inline command, or noise.
    NotAnArray,
    /// An argument is an array.
    NestedArray,
    /// An argument begins with a byte that is neither `$` nor `*`.
    NotABulk,
    /// A length isn't decimal digits without leading zeros and a line break.
    BadLength,
    /// There are more arguments than `Limits::arguments`.
    TooManyArguments,
    /// An argument is longer than `Limits::bulk`.
    BulkTooLong,
    /// The arguments so far and this one are longer than `Limits::bytes`.
    RequestTooLong,
    /// The bytes of an argument are followed by something else than a line break.
    NoBulkEnd,
}

impl Fault {
    /// The text of an error reply, without its sign and its line break.
    pub fn text(self) -> &'static str
        ensures { result.now ≡ fault_text self }
    {
        match self {
            Fault::NotAnArray => {
                "ERR Protocol error: expected '*', a request is an array of bulk strings"
            }
            Fault::NestedArray => "ERR Protocol error: an array within a request",
            Fault::NotABulk => "ERR Protocol error: expected '$', an argument is a bulk string",
            Fault::BadLength => "ERR Protocol error: invalid length",
            Fault::TooManyArguments => "ERR Protocol error: too many arguments",
            Fault::BulkTooLong => "ERR Protocol error: an argument is too long",
            Fault::RequestTooLong => "ERR Protocol error: the arguments are too long together",
            Fault::NoBulkEnd => "ERR Protocol error: expected a line break after a bulk string",
        }
    }
}

/// Where reading ends before its value is whole.
#[derive(Clone, Copy, Debug)]
pub enum End {
    /// At the end of the bytes.
    More,
    /// At a fault.
    Wrong(Fault),
}

/// Why reading stopped.
#[derive(Clone, Copy, Debug)]
pub enum Stop {
    /// Memory ran out.
    Memory,
    /// Reading ended.
    Ends(End),
}

impl From<End> for Stop {
    ghost from_gives = { λ end stop. stop ≡ Ends end };

    fn from(end: End) -> Stop {
        Stop::Ends(end)
    }
}

impl From<AllocError> for Stop {
    ghost from_gives = { λ _ stop. stop ≡ Memory };

    fn from(_: AllocError) -> Stop {
        Stop::Memory
    }
}

impl<T: Drop> From<AllocFailed<T>> for Stop {
    ghost from_gives = { λ _ stop. stop ≡ Memory };

    fn from(_: AllocFailed<T>) -> Stop {
        Stop::Memory
    }
}
