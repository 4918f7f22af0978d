//! What a command is made of: its words, and what help says of them.

/// A command: its name, what it does, what help says after its options, and these.
#[derive(Clone, Copy)]
pub struct Form {
    pub name: &'static str,
    pub about: &'static str,
    pub after: Option<&'static str>,
    pub options: &'static [Choice],
}

/// A word or an option of a command: its name, what it takes, and what help says of it.
#[derive(Clone, Copy)]
pub struct Choice {
    pub name: &'static str,
    pub takes: Takes,
    pub help: &'static str,
}

/// What a choice takes.
#[derive(Clone, Copy)]
pub enum Takes {
    /// An option with a number; this one is the default.
    Number(&'static str),
    /// An option with a number that has no default.
    NumberOrNone,
    /// An option with a text, which help calls so.
    Text(&'static str),
    /// An option with a text, which help calls by the first name; the second is the default.
    TextOr(&'static str, &'static str),
    /// An option that takes nothing.
    Nothing,
    /// A word that stands by itself and is required, which help calls so.
    Word(&'static str),
    /// A word that stands by itself and is optional, which help calls so.
    WordOrNone(&'static str),
}
