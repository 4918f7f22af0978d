//! Tests of disks, formats, graphs, plans, their documents and pictures, of the parts of a store and of the core, and
//! of what is read of damaged stores, by the public calls of the crates below alone, one file a subject. Most are
//! scripts: a line each, with what is done or asked, and what is printed then.
#![tactic(auto)]

#[cfg(test)]
mod chunks;
#[cfg(test)]
mod core_sweeps;
#[cfg(test)]
mod cores;
#[cfg(test)]
mod crashes;
#[cfg(test)]
mod damage;
#[cfg(test)]
mod devices;
#[cfg(test)]
mod disks;
#[cfg(test)]
mod documents;
#[cfg(test)]
mod extents;
#[cfg(test)]
mod files;
#[cfg(test)]
mod fourth_format;
#[cfg(test)]
mod frames;
#[cfg(test)]
mod geometries;
#[cfg(test)]
mod graphs;
#[cfg(test)]
mod heads;
#[cfg(test)]
mod indexes;
#[cfg(test)]
mod lost_roots;
#[cfg(test)]
mod machines;
#[cfg(test)]
mod migrations;
#[cfg(test)]
mod pictures;
#[cfg(test)]
mod plans;
#[cfg(test)]
mod rescues;
#[cfg(test)]
mod sections;
#[cfg(test)]
mod shards;
#[cfg(test)]
mod stores;
#[cfg(test)]
mod superblocks;
#[cfg(test)]
mod sweeps;
#[cfg(test)]
mod targets;
#[cfg(test)]
mod texts;
