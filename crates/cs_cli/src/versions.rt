//! The version of the program.

/// Its number.
pub const VERSION: &str = "0.62.0";

/// The sum of the sources that it is made of, in hex; zeros where none was written here.
pub const SOURCES: &str = "8c437963a2034987f096ae05d93ff72fa9c42acc9d3206c9639df12aa2dc0595";
