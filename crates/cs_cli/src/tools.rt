//! The commands that are done at one word, most of them over the store in a file.
ghost use Rattle.std.specs.Prelude.{◌≤◌, IfErr};

use crate::benches::bench_in_file;
use crate::copies::copy_file;
use crate::creates::create_in_file;
use crate::devices::create_on_device;
use crate::doctors::doctor_file;
use crate::overs::create_over_file;
use crate::overviews::wanted_of;
use crate::queries::{ask_file, query_of, reclaim_file};
use crate::repairs::repair_file;
use crate::salvages::{Asked, export_frames, get_rest, list_rest};
use crate::shards::{delete_from_file, get_from_file, put_into_file};
use clap::ArgMatches;
use cs_disk::Access;
use cs_files::files::{Place, is_special, loss_of};
use cs_files::manners::{End, Manner};
use cs_files::{Depth, Known, Loss, Outcome, Reserve, Whose, explain};
use cs_frame::{ShardId, StoreId};
use cs_options::{
    NoFile, NoGeometry, NoReach, Reach, device_pages_of, file_of, from_page_of, id_of, identity_of,
    listing_of, lost_geometry_of, reach_of, reserve_of, skipped_of, wait_of,
};
use cs_tools::{Aim, graph};
use std::fs::File;
use std::io;
use std::io::BufWriter;
use std::random::RandomSource;
use std::rt::Files;
use std::time::Clock;

/// Does what these words ask for, and gives the exit status. The environment may name the file.
pub fn run_tool<
    'a,
    R: AllocGlobal + Clock + Files<File = File> + RandomSource + Input + Print + Eprint,
>(rt: &R, name: &str, options: &ArgMatches<'a>, environment: Option<&'a str>, terminal: bool) -> u8
where
    R::Reader: Drop,
    ensures { result ≤ 7 }
{
    let manner = Manner::of(options, terminal);
    if name == "graph" {
        return explain(rt, graph_buffered(rt), &Known::nothing(), manner.style);
    }
    if name == "copy" {
        return copy_named(rt, options, manner);
    }
    match file_of(options, environment) {
        Ok(path) => run_on_file(rt, name, options, path, manner),
        Err(none) => tell_no_file(rt, none),
    }
}

/// Reports that it isn't known which file is meant, and gives the exit status.
fn tell_no_file<R: Eprint>(rt: &R, none: NoFile) -> u8
    ensures { result ≤ 7 }
{
    let _ = match none {
        NoFile::NamedTwice => eprintln!(rt;
            "error: two files are named, as a word and by --file: name one"
        ),
        NoFile::NotNamed => eprintln!(rt;
            "error: no file is named: give it after the command, by --file, or in the environment as NUGGETLOCH_FILE"
        ),
    };
    cs_words::COMMAND_LINE
}

/// Reports that a pipe or a character device is named, and gives the exit status.
fn tell_special<R: Eprint>(rt: &R, path: &str) -> u8
    ensures { result ≤ 7 }
{
    let _ = eprintln!(rt;
        "error: {path} is a pipe or a character device: a store lies in a regular file, or on a block device"
    );
    cs_words::NOT_THERE
}

/// Copies the store in one file into another.
fn copy_named<R: AllocGlobal + Clock + Files<File = File> + RandomSource + Print + Eprint>(
    rt: &R,
    options: &ArgMatches,
    manner: Manner,
) -> u8
    ensures { result ≤ 7 }
{
    match (options.get_str("source"), options.get_str("target")) {
        (Some(path), Some(_)) if is_special(rt, path) => tell_special(rt, path),
        (Some(path), Some(target)) => match place_to_read(rt, path, options) {
            Ok(place) => copy_file(rt, place, target, options, manner),
            Err(status) => status,
        },
        _ => cs_words::COMMAND_LINE,
    }
}

/// A file that is only read, as the options ask for; or the exit status if `--id` is no identity.
fn place_to_read<'a, R: Eprint>(
    rt: &R,
    path: &'a str,
    options: &ArgMatches,
) -> Result<Place<'a>, u8>
    ensures { IfErr result (λ status. status ≤ 7) }
{
    let access = if options.get_flag("no-lock") {
        Access::ReadUnlocked
    } else {
        Access::Read
    };
    let Ok(id) = identity_of(options) else {
        let _ = eprintln!(rt;
            "error: --id takes the identity of a store, 32 hex digits or a UUID: `stat` prints it"
        );
        return Err(cs_words::COMMAND_LINE);
    };
    Ok(Place {
        path,
        access,
        wait: wait_of(options),
        id,
        device_pages: device_pages_of(options),
        loss: Loss::Refused,
        skipped: None,
    })
}

/// A file that is read and written, as the options ask for.
fn place_to_write<'a>(path: &'a str, options: &ArgMatches) -> Place<'a> {
    Place {
        path,
        access: Access::Write,
        wait: wait_of(options),
        id: None,
        device_pages: device_pages_of(options),
        loss: loss_of(options),
        skipped: skipped_of(options),
    }
}

/// Whether a store is made over what is there already: a device, or a file whose content is given up.
fn is_over(options: &ArgMatches) -> bool {
    options.get_flag("device") || options.get_flag("force")
}

/// Does the command of this name about a file.
fn run_on_file<R: AllocGlobal + Clock + Files<File = File> + RandomSource + Input + Print + Eprint>(
    rt: &R,
    name: &str,
    options: &ArgMatches,
    path: &str,
    manner: Manner,
) -> u8
where
    R::Reader: Drop,
    ensures { result ≤ 7 }
{
    match name {
        "create" if !is_over(options) => create_in_file(rt, path, options, manner),
        "bench" => bench_in_file(rt, path, options, manner),
        _ if is_special(rt, path) => tell_special(rt, path),
        "create" if options.get_flag("device") => create_on_device(rt, path, options, manner),
        "create" => create_over_file(rt, path, options, manner),
        "get" | "put" | "del" => run_on_shard(rt, name, options, path, manner),
        "doctor" => run_doctor(rt, options, path, manner),
        "list" | "export" if options.get_flag("salvage") => {
            run_salvage(rt, name, options, path, manner)
        }
        "scrub" if options.get_flag("repair") || options.get_flag("accept-loss") => {
            run_repair(rt, options, path, manner)
        }
        _ => run_query(rt, name, options, path, manner),
    }
}

/// Reports that a word is no identifier, and gives the exit status.
fn tell_no_id<R: Eprint>(rt: &R) -> u8
    ensures { result ≤ 7 }
{
    let _ = eprintln!(rt;
        "error: an identifier is a UUID, as 00000000-0000-0000-0000-00000000000a"
    );
    cs_words::COMMAND_LINE
}

/// The room that a put leaves free.
fn reserve_given(options: &ArgMatches) -> Reserve {
    match reserve_of(options) {
        0 => Reserve::None,
        percent => Reserve::Percent(percent.min(100) as u8),
    }
}

/// Does the command of this name with one shard.
fn run_on_shard<R: AllocGlobal + Clock + Files<File = File> + Input + Print + Eprint>(
    rt: &R,
    name: &str,
    options: &ArgMatches,
    path: &str,
    manner: Manner,
) -> u8
where
    R::Reader: Drop,
    ensures { result ≤ 7 }
{
    let Some(id) = id_of(options) else {
        return tell_no_id(rt);
    };
    match name {
        "put" => put_into_file(
            rt,
            place_to_write(path, options),
            id,
            reserve_given(options),
            End::of(options),
            manner,
        ),
        "del" => delete_from_file(
            rt,
            place_to_write(path, options),
            id,
            End::of(options),
            manner,
        ),
        _ => get_shard(rt, options, path, id, manner),
    }
}

/// Writes out a shard, or what can be read of one.
fn get_shard<R: AllocGlobal + Clock + Files<File = File> + Print + Eprint>(
    rt: &R,
    options: &ArgMatches,
    path: &str,
    id: ShardId,
    manner: Manner,
) -> u8
    ensures { result ≤ 7 }
{
    let place = match place_to_read(rt, path, options) {
        Ok(place) => place,
        Err(status) => return status,
    };
    if options.get_flag("salvage") {
        get_rest(rt, place, id, manner)
    } else {
        get_from_file(rt, place, options.get_flag("as-of"), id, manner)
    }
}

/// Lists or exports what can be read of a store that is damaged.
fn run_salvage<R: AllocGlobal + Clock + Files<File = File> + Print + Eprint>(
    rt: &R,
    name: &str,
    options: &ArgMatches,
    path: &str,
    manner: Manner,
) -> u8
    ensures { result ≤ 7 }
{
    let place = match place_to_read(rt, path, options) {
        Ok(place) => place,
        Err(status) => return status,
    };
    if name == "list" {
        return match listing_of(options) {
            Some(listing) => list_rest(rt, place, listing, manner),
            None => tell_no_id(rt),
        };
    }
    if options.contains_id("from") {
        let _ = eprintln!(rt; "error: --salvage prints all shards: leave out --from");
        return cs_words::COMMAND_LINE;
    }
    match asked_of(rt, options, place.id) {
        Ok(asked) => export_frames(rt, place, asked, manner),
        Err(status) => status,
    }
}

/// What a salvage by frames of the store with this identity is asked for; or the exit status if the options give half
/// a geometry, or none that there is. If they give one and no identity, the frames of any store are taken.
fn asked_of<R: Eprint>(rt: &R, options: &ArgMatches, id: Option<StoreId>) -> Result<Asked, u8>
    ensures { IfErr result (λ status. status ≤ 7) }
{
    let geometry = match lost_geometry_of(options, id.unwrap_or(StoreId([0; 16]))) {
        Ok(geometry) => geometry,
        Err(why) => return Err(tell_no_geometry(rt, why)),
    };
    let is_any = options.get_flag("any-store") || (geometry.is_some() && id.is_none());
    Ok(Asked {
        whose: if is_any { Whose::OfAny } else { Whose::OfStore },
        from_page: from_page_of(options),
        geometry,
    })
}

/// Reports why the options give no geometry, and gives the exit status.
fn tell_no_geometry<R: Eprint>(rt: &R, why: NoGeometry) -> u8
    ensures { result ≤ 7 }
{
    let _ = match why {
        NoGeometry::Half => eprintln!(rt;
            "error: give both --extents and --pages, or none of them"
        ),
        NoGeometry::Bad => eprintln!(rt; "error: no store has so many extents, pages and sections"),
    };
    cs_words::COMMAND_LINE
}

/// Diagnoses a store.
fn run_doctor<R: AllocGlobal + Clock + Files<File = File> + Print + Eprint>(
    rt: &R,
    options: &ArgMatches,
    path: &str,
    manner: Manner,
) -> u8
    ensures { result ≤ 7 }
{
    let depth = if options.get_flag("deep") {
        Depth::All
    } else {
        Depth::Named
    };
    match place_to_read(rt, path, options) {
        Ok(place) => doctor_file(rt, place, depth, manner),
        Err(status) => status,
    }
}

/// Repairs a store, and scrubs it.
fn run_repair<R: AllocGlobal + Clock + Files<File = File> + Print + Eprint>(
    rt: &R,
    options: &ArgMatches,
    path: &str,
    manner: Manner,
) -> u8
    ensures { result ≤ 7 }
{
    if !options.get_flag("repair") {
        let _ = eprintln!(rt; "error: --accept-loss is for --repair");
        return cs_words::COMMAND_LINE;
    }
    if options.get_flag("as-of") || options.get_flag("no-lock") || options.contains_id("id") {
        let _ = eprintln!(rt;
            "error: --repair writes to the file: leave out --as-of, --id and --no-lock"
        );
        return cs_words::COMMAND_LINE;
    }
    repair_file(rt, place_to_write(path, options), manner)
}

/// Asks the store in a file, or reclaims it.
fn run_query<R: AllocGlobal + Clock + Files<File = File> + Print + Eprint>(
    rt: &R,
    name: &str,
    options: &ArgMatches,
    path: &str,
    manner: Manner,
) -> u8
    ensures { result ≤ 7 }
{
    if options.get_flag("any-store") {
        let _ = eprintln!(rt; "error: --any-store is for --salvage");
        return cs_words::COMMAND_LINE;
    }
    if options.contains_id("from-page")
        || !matches!(lost_geometry_of(options, StoreId([0; 16])), Ok(None))
    {
        let _ = eprintln!(rt;
            "error: --from-page, --extents, --pages and --sections are for --salvage"
        );
        return cs_words::COMMAND_LINE;
    }
    if name == "reclaim" {
        return run_reclaim(rt, options, path, manner);
    }
    if options.get_flag("json") && wanted_of(options).is_some() {
        let _ = eprintln!(rt;
            "error: --summary, --map and --map-svg are for a person: leave out --json"
        );
        return cs_words::COMMAND_LINE;
    }
    let place = match place_to_read(rt, path, options) {
        Ok(place) => place,
        Err(status) => return status,
    };
    match query_of(name, options, manner.style) {
        Some(query) => ask_file(rt, place, options.get_flag("as-of"), query, manner),
        None => tell_no_id(rt),
    }
}

/// Reclaims the store in a file, as far as the options ask for.
fn run_reclaim<R: AllocGlobal + Clock + Files<File = File> + Print + Eprint>(
    rt: &R,
    options: &ArgMatches,
    path: &str,
    manner: Manner,
) -> u8
    ensures { result ≤ 7 }
{
    let aim = match reach_of(options) {
        Ok(Reach::Usual) => Aim::Pairs,
        Ok(Reach::Put(bytes)) => Aim::Room(bytes as usize),
        Ok(Reach::Brim) => Aim::Brim,
        Err(why) => return tell_no_reach(rt, why),
    };
    reclaim_file(
        rt,
        place_to_write(path, options),
        aim,
        End::of(options),
        manner,
    )
}

/// Reports why it isn't known how far a reclaim is to go, and gives the exit status.
fn tell_no_reach<R: Eprint>(rt: &R, why: NoReach) -> u8
    ensures { result ≤ 7 }
{
    let _ = match why {
        NoReach::Both => eprintln!(rt;
            "error: --for and --all both say how far to reclaim: give one of them"
        ),
        NoReach::NoSize => eprintln!(rt;
            "error: --for takes a number of bytes, or of K, M, G or T, each 1,024 of the one before: 4M"
        ),
    };
    cs_words::COMMAND_LINE
}

/// Draws the plan document on standard input.
fn graph_buffered<R: AllocGlobal + Input + Print>(rt: &R) -> Outcome
where
    R::Reader: Drop,
{
    match BufWriter::new(rt.alloc(), io::writer(rt)) {
        Ok(mut writer) => graph(rt.alloc(), rt.reader(), &mut writer),
        Err(_) => Outcome::Failed,
    }
}
