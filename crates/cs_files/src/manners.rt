//! How a command reports what it does, and how it ends.

use clap::ArgMatches;
use cs_doctor::Style;

/// For whom refusals and warnings are printed, and whether progress is.
#[derive(Clone, Copy)]
pub struct Manner {
    pub style: Style,
    /// Whether standard error is a terminal.
    pub terminal: bool,
}

impl Manner {
    /// As the options of a command ask for.
    pub fn of(options: &ArgMatches, terminal: bool) -> Self {
        Manner {
            style: style_of(options),
            terminal,
        }
    }
}

/// JSON if `--json` is given, else text.
fn style_of(options: &ArgMatches) -> Style {
    if options.get_flag("json") {
        Style::Json
    } else {
        Style::Text
    }
}

/// How a command that wrote to a store closes it.
#[derive(Clone, Copy, PartialEq, Eq)]
pub enum End {
    /// With its newest root on record.
    Sealed,
    /// As it is.
    Unsealed,
}

impl End {
    /// As the options of a command ask for.
    pub fn of(options: &ArgMatches) -> Self {
        if options.get_flag("no-seal") {
            End::Unsealed
        } else {
            End::Sealed
        }
    }
}
