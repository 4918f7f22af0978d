//! How large a new store is asked to be.
ghost use Rattle.std.specs.Prelude.{◌≡◌, ◌↔◌, IfErr, IfOk, IsOk, MatchOption, Some, codes};
ghost use Rattle.cs_frame.specs.Geometries.{IsGeometry};
ghost use Rattle.cs_options.specs.Asked.{number_at};
ghost use Rattle.cs_options.specs.Sizings.{IsWished, extents_given, format_given, numbers_given, pages_given, sections_given, shards_asked, size_at, sizes_given, sizing_by};

use crate::geometry_options::Wish;
use crate::options::number_given;
use crate::sizes::size_of;
use clap::ArgMatches;
use cs_frame::{Geometry, StoreId};
use cs_refusal::Refusal;

/// The bytes of a new file where no size is given: 64 MiB.
pub const USUAL_SIZE: u64 = 67_108_864;

/// The bytes of the largest shard that has to fit where none is given: 1 MiB.
const USUAL_SHARD: u64 = 1_048_576;

/// By what a new store is asked for.
#[derive(Clone, Copy, Debug, PartialEq, Eq)]
pub enum Sizing {
    /// By nothing.
    Unsaid,
    /// By sizes: `--size`, `--shard-size`, `--shards`.
    Sizes,
    /// By a geometry: `--extents`, `--pages`, `--sections`.
    Numbers,
    /// By both, which no store is made by.
    Both,
}

/// By what the options ask for a new store.
pub fn sizing_of(options: &ArgMatches) -> Sizing
    ensures { result ≡ sizing_by (sizes_given options.now) (numbers_given options.now) }
{
    match (are_sizes_given(options), are_numbers_given(options)) {
        (false, false) => Sizing::Unsaid,
        (true, false) => Sizing::Sizes,
        (false, true) => Sizing::Numbers,
        (true, true) => Sizing::Both,
    }
}

/// Whether a size is given.
fn are_sizes_given(options: &ArgMatches) -> bool
    ensures { result ≡ sizes_given options.now }
{
    options.contains_id("size")
        || options.contains_id("shard-size")
        || options.contains_id("shards")
}

/// Whether a number of a geometry is given.
fn are_numbers_given(options: &ArgMatches) -> bool
    ensures { result ≡ numbers_given options.now }
{
    options.contains_id("extents")
        || options.contains_id("pages")
        || options.contains_id("sections")
}

/// What the sizes ask for. Defaults: this size, shards of 1 MiB, and one identifier. It returns None if a text is no
/// size.
pub fn wish_of(options: &ArgMatches, usual: u64) -> Option<Wish>
    ensures { MatchOption result (¬ IsWished options.now usual) (λ wish. (size_at options.now (codes "size") usual ≡ Some wish.size)
        × (size_at options.now (codes "shard-size") 1048576 ≡ Some wish.shard_size) × (shards_asked options.now ≡ wish.shards)) }
{
    let size = size_given(options, "size", usual)?;
    let shard_size = shard_size_of(options)?;
    Some(Wish {
        size,
        shard_size,
        shards: number_given(options, "shards").unwrap_or(1),
    })
}

/// The size of the largest shard that the options ask for. It returns None if the text is no size.
pub fn shard_size_of(options: &ArgMatches) -> Option<u64>
    ensures { result ≡ size_at options.now (codes "shard-size") 1048576 }
{
    size_given(options, "shard-size", USUAL_SHARD)
}

/// The size of an option, with this default. It returns None if the text is no size.
fn size_given(options: &ArgMatches, name: &str, usual: u64) -> Option<u64>
    ensures { result ≡ size_at options.now name.now usual }
{
    match options.get_str(name) {
        Some(text) => size_of(text),
        None => Some(usual),
    }
}

/// The geometry that the numbers ask for, by default 64 extents of 256 pages. It is that of a store with this identity,
/// in a file as large as the store needs. It is refused 7 BadGeometry alone.
pub fn exact_of(options: &ArgMatches, store: StoreId) -> Result<Geometry, Refusal>
    ensures valid { IsOk result ↔ IsGeometry (format_given store.0 options.now) (extents_given options.now) (pages_given options.now) (sections_given options.now) }
    ensures format { IfOk result (λ geometry. geometry.format ≡ format_given store.0 options.now) }
    ensures extents { IfOk result (λ geometry. geometry.extents ≡ extents_given options.now) }
    ensures pages { IfOk result (λ geometry. geometry.pages ≡ pages_given options.now) }
    ensures sections { IfOk result (λ geometry. geometry.sections ≡ sections_given options.now) }
    ensures refusal { IfErr result (λ refusal. refusal ≡ Refusal.BadGeometry) }
{
    let extents = number_given(options, "extents").unwrap_or(64);
    let pages = number_given(options, "pages").unwrap_or(256);
    let sections = number_given(options, "sections");
    match Geometry::for_file(store, extents, pages, sections) {
        Ok(geometry) => Ok(geometry),
        Err(_) => Err(Refusal::BadGeometry),
    }
}
