//! The exit statuses of the program, each by its name: the one table of them. Where several apply the highest is given.

/// All was done: every line of a script was readable, a plan document's plan is right, or help was asked for.
pub const DONE: u8 = 0;

/// A line of a script wasn't readable, or with `--strict` one was refused.
pub const BAD_LINE: u8 = 1;

/// The store refused a command, or a plan document was refused, or the close of a race's node.
pub const REFUSED: u8 = 1;

/// There is nothing under the identifier.
pub const ABSENT: u8 = 1;

/// The command line is faulty, or there was no memory to read it.
pub const COMMAND_LINE: u8 = 2;

/// There is no store: it couldn't be made, or couldn't be opened, at first or after a crash. Or a race couldn't be run.
pub const NO_STORE: u8 = 3;

/// The standard input or output failed, the input didn't end, or the text of a line or a document found no memory.
pub const STREAM: u8 = 4;

/// Something of the store can't be read, may be lost, or isn't known.
pub const DAMAGED: u8 = 5;

/// Another process has the file open. `run` gives `NO_STORE` in its place.
pub const IN_USE: u8 = 6;

/// There is no such file, or it may not be used so. `run` gives `NO_STORE` in its place.
pub const NOT_THERE: u8 = 7;
