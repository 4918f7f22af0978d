//! Tests of scripts and of checks of documents, of what scripts leave on a disk and what is made and opened on it, and
//! of the words of the command line, by public calls alone. They stand in a crate of their own because a crate that has
//! tests is proved twice, and in one because what they share is linked once.
#![tactic(auto)]

#[cfg(test)]
mod geometries;
#[cfg(test)]
mod options;
#[cfg(test)]
mod scripts;
