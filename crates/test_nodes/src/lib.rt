//! Tests of nodes with one thread and with several, of the numbers that they account for, and of races, by public calls
//! alone. They stand in a crate of their own because a crate that has tests is proved twice.
#![tactic(auto)]

#[cfg(test)]
mod nodes;
#[cfg(test)]
mod numbers;
#[cfg(test)]
mod races;
