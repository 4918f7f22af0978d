//! What the options of a command ask for.
ghost use Rattle.std.specs.Prelude.{◌≡◌, ◌↔◌, IfErr, IfOk, IfSome, IsOk, MatchBool, MatchOption, Some, codes, option_map, unwrap_or};
ghost use Rattle.cs_frame.specs.FormatNumbers.{counted_as};
ghost use Rattle.cs_frame.specs.Geometries.{sections_needed};
ghost use Rattle.cs_options.specs.Asked.{IsGeometryAsked, IsGeometryOf, IsMeasurable, TellsFlag, batch_asked, bytes_asked, calls_asked, drops_asked, extents_asked, format_asked, format_numbered, from_asked, id_at, limit_asked, number_at, pages_asked, puts_asked, sections_asked, threads_asked};
ghost use Rattle.cs_words.specs.RaceNumbers.{IsRaceable};

use clap::ArgMatches;
use cs_frame::{Format, FormatFault, FormatNumber, Geometry, ShardId, StoreId};
use cs_refusal::Refusal;
use cs_words::Race;

/// The number of an option. It returns None if the option isn't given.
pub fn number_given(options: &ArgMatches, name: &str) -> Option<u64>
    ensures { result ≡ number_at options.now name.now }
{
    options.get_one(name)
}

/// The geometry that the options ask for. Defaults: format 2, 6 extents of 2 pages, and as few sections as the extents
/// need. In format 4 it is that of a store with this identity, in a file as large as it needs. It is refused 7
/// BadGeometry alone, if there is no such geometry.
pub fn geometry_of(options: &ArgMatches, store: StoreId) -> Result<Geometry, Refusal>
    ensures valid { IsOk result ↔ IsGeometryAsked store.0 options.now }
    ensures format { IfOk result (λ geometry. Some geometry.format ≡ format_asked store.0 options.now) }
    ensures extents { IfOk result (λ geometry. geometry.extents ≡ extents_asked options.now) }
    ensures pages { IfOk result (λ geometry. geometry.pages ≡ pages_asked options.now) }
    ensures sections { IfOk result (λ geometry. geometry.sections ≡ sections_asked options.now) }
    ensures refusal { IfErr result (λ refusal. refusal ≡ Refusal.BadGeometry) }
{
    let format = number_given(options, "format").unwrap_or(2);
    let extents = number_given(options, "extents").unwrap_or(6);
    let pages = number_given(options, "pages").unwrap_or(2);
    let sections = number_given(options, "sections");
    let Some(format) = FormatNumber::of(format) else {
        return Err(Refusal::BadGeometry);
    };
    match geometry_in(format, store, extents, pages, sections) {
        Ok(geometry) => Ok(geometry),
        Err(_) => Err(Refusal::BadGeometry),
    }
}

/// The geometry of a store of the format of this number. In format 4 the store has this identity, and lies in a file as
/// large as it needs.
fn geometry_in(
    format: FormatNumber,
    store: StoreId,
    extents: u64,
    pages: u64,
    sections: Option<u64>,
) -> Result<Geometry, FormatFault>
    ensures valid { IsOk result ↔ IsGeometryOf (format_numbered (counted_as format) store.0 extents pages (unwrap_or sections (sections_needed extents))) extents pages (unwrap_or sections (sections_needed extents)) }
    ensures format { IfOk result (λ geometry. Some geometry.format ≡ format_numbered (counted_as format) store.0 extents pages (unwrap_or sections (sections_needed extents))) }
    ensures extents { IfOk result (λ geometry. geometry.extents ≡ extents) }
    ensures pages { IfOk result (λ geometry. geometry.pages ≡ pages) }
    ensures sections { IfOk result (λ geometry. geometry.sections ≡ unwrap_or sections (sections_needed extents)) }
{
    match format {
        FormatNumber::Two => Geometry::of_format(Format::two(), extents, pages, sections),
        FormatNumber::Four => Geometry::for_file(store, extents, pages, sections),
    }
}

/// The race that the options ask for. Defaults: 4 threads that put 10 shards each and drop no ticket. It returns None
/// if a number is out of its range.
pub fn race_of(options: &ArgMatches) -> Option<Race>
    ensures numbers { MatchOption result (¬ IsRaceable (threads_asked options.now) (puts_asked options.now) (drops_asked options.now))
        (λ race. (race.threads ≡ threads_asked options.now) × (race.puts ≡ puts_asked options.now) × (race.dropped ≡ drops_asked options.now)) }
    ensures streams { IfSome result (λ race. TellsFlag options.now (codes "stream") race.streams) }
{
    let threads = number_given(options, "threads").unwrap_or(4);
    let puts = number_given(options, "puts").unwrap_or(10);
    let dropped = number_given(options, "drop").unwrap_or(0);
    Race::new(threads, puts, dropped, options.get_flag("stream"))
}

/// The identifier that stands as a word. It returns None if the word is no identifier, or isn't there.
pub fn id_of(options: &ArgMatches) -> Option<ShardId>
    ensures { option_map (λ id. id.0) result ≡ id_at options.now (codes "shard") }
{
    match options.get_str("shard") {
        Some(text) => ShardId::parse(text).ok(),
        None => None,
    }
}

/// Which identifiers are to be listed, and how.
#[derive(Clone, Copy)]
pub struct Listing {
    /// From this one on.
    pub from: ShardId,
    /// So many at most.
    pub most: u64,
    /// Whether each line is a JSON object.
    pub json: bool,
}

/// Which identifiers the options ask for. Default: all of them. It returns None if `--from` is no identifier.
pub fn listing_of(options: &ArgMatches) -> Option<Listing>
    ensures from { option_map (λ listing. listing.from.0) result ≡ from_asked options.now }
    ensures most { IfSome result (λ listing. listing.most ≡ limit_asked options.now) }
    ensures json { IfSome result (λ listing. TellsFlag options.now (codes "json") listing.json) }
{
    let from = from_of(options)?;
    Some(Listing {
        from,
        most: number_given(options, "limit").unwrap_or(u64::MAX),
        json: options.get_flag("json"),
    })
}

/// The identifier from which on shards are asked for. Default: the first of all. It returns None if the text is none.
pub fn from_of(options: &ArgMatches) -> Option<ShardId>
    ensures { option_map (λ id. id.0) result ≡ from_asked options.now }
{
    match options.get_str("from") {
        Some(text) => ShardId::parse(text).ok(),
        None => Some(ShardId([0; 16])),
    }
}

/// What is to be measured.
#[derive(Clone, Copy)]
pub struct Measure {
    /// How many puts, batches and gets, 1 to 100,000.
    pub calls: u64,
    /// How many puts a batch has, 1 to 10,000.
    pub batch: u64,
    /// How many bytes a shard has, 0 to 8,388,280.
    pub bytes: u64,
}

/// What the options ask to measure. Defaults: 100 calls, and batches of 100 puts of 4,000 bytes. It returns None if a
/// number is out of its range.
pub fn measure_of(options: &ArgMatches) -> Option<Measure>
    ensures { MatchOption result (¬ IsMeasurable (calls_asked options.now) (batch_asked options.now) (bytes_asked options.now))
        (λ measure. (measure.calls ≡ calls_asked options.now) × (measure.batch ≡ batch_asked options.now) × (measure.bytes ≡ bytes_asked options.now)
        × IsMeasurable measure.calls measure.batch measure.bytes) }
{
    let calls = number_given(options, "calls").unwrap_or(100);
    let batch = number_given(options, "batch").unwrap_or(100);
    let bytes = number_given(options, "bytes").unwrap_or(4_000);
    if is_measurable(calls, batch, bytes) {
        Some(Measure {
            calls,
            batch,
            bytes,
        })
    } else {
        None
    }
}

/// Whether so many calls can be measured, with batches of so many puts, of so many bytes.
fn is_measurable(calls: u64, batch: u64, bytes: u64) -> bool
    ensures { MatchBool result (IsMeasurable calls batch bytes) (¬ IsMeasurable calls batch bytes) }
{
    1 <= calls && calls <= 100_000 && 1 <= batch && batch <= 10_000 && bytes <= 8_388_280
}
