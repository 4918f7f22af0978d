//! The command `create`, and how it and `copy` choose a geometry.
ghost use Rattle.std.specs.Prelude.{◌≤◌, IfErr};

use clap::ArgMatches;
use cs_disk::SystemFault;
use cs_files::files::{is_block_device, new_disk};
use cs_files::manners::Manner;
use cs_files::openings::Unopened;
use cs_files::progress::{tell_ended, tell_making};
use cs_files::warnings::explain_unopened;
use cs_files::{Known, MountOptions, NO_IDENTITY, Outcome, Style, explain, new_identity, warn};
use cs_frame::{Geometry, StoreId};
use cs_options::{
    Sizing, TooSmall, USUAL_SIZE, Wish, exact_of, geometry_for, largest_shard, mode_of,
    shard_size_of, sizing_of, sure_bytes, wish_of,
};
use cs_refusal::Refusal;
use std::fs::File;
use std::io::Write;
use std::random::RandomSource;
use std::rt::Files;
use std::{fs, io};
use uuid::Uuid;
use uuid::fmt::Simple;

/// Makes a new store in a file, and gives the exit status.
pub fn create_in_file<R: AllocGlobal + Files<File = File> + RandomSource + Print + Eprint>(
    rt: &R,
    path: &str,
    options: &ArgMatches,
    manner: Manner,
) -> u8
    ensures { result ≤ 7 }
{
    if is_block_device(rt, path) {
        let _ = eprintln!(rt;
            "error: {path} is a block device: `create --device` makes a store on it"
        );
        return cs_words::COMMAND_LINE;
    }
    let geometry = match geometry_in_file(rt, options, manner) {
        Ok(geometry) => geometry,
        Err(status) => return status,
    };
    let Some(mode) = mode_given(rt, options) else {
        return cs_words::COMMAND_LINE;
    };
    tell_made(
        rt,
        path,
        Told::of(geometry, options),
        make(rt, path, geometry, mode, manner),
        manner,
    )
}

/// The geometry that the options ask for, of a store with a new identity in a file as large as it needs; or the exit
/// status if there is none.
pub fn geometry_in_file<R: RandomSource + Eprint>(
    rt: &R,
    options: &ArgMatches,
    manner: Manner,
) -> Result<Geometry, u8>
    ensures { IfErr result (λ status. status ≤ 7) }
{
    let id = identity_made(rt, manner)?;
    geometry_asked(rt, options, id, FILE, manner)
}

/// A new identity from the system, or the exit status if it gives none.
pub fn identity_made<R: RandomSource + Eprint>(rt: &R, manner: Manner) -> Result<StoreId, u8>
    ensures { IfErr result (λ status. status ≤ 7) }
{
    match new_identity(rt) {
        Ok(id) => Ok(id),
        Err(error) => {
            warn(rt, NO_RANDOM, manner.style);
            let outcome = Outcome::Unopened(SystemFault::of(&error));
            Err(explain(rt, outcome, &Known::nothing(), manner.style))
        }
    }
}

/// What is printed if there is no new identity.
pub const NO_RANDOM: &str = "the system gives no random bytes for the identity of a new store";

/// How many bytes a new store's device has by default, and at most.
#[derive(Clone, Copy)]
pub struct Room {
    pub usual: u64,
    pub most: u64,
}

/// That of a file.
pub const FILE: Room = Room {
    usual: USUAL_SIZE,
    most: u64::MAX,
};

/// The permissions that are asked for; if there are none, that is reported.
pub fn mode_given<R: Eprint>(rt: &R, options: &ArgMatches) -> Option<u32> {
    let mode = mode_of(options);
    if mode.is_none() {
        let _ = eprintln!(rt; "error: --mode is an octal number of at most 0777, as 0640");
    }
    mode
}

/// The geometry of a store with this identity that the options ask for, for shards of 1 MiB if they ask for nothing; or
/// the exit status if there is none.
pub fn geometry_asked<R: Eprint>(
    rt: &R,
    options: &ArgMatches,
    id: StoreId,
    room: Room,
    manner: Manner,
) -> Result<Geometry, u8>
    ensures { IfErr result (λ status. status ≤ 7) }
{
    match sizing_of(options) {
        Sizing::Unsaid | Sizing::Sizes => fitting(rt, options, id, room, manner),
        Sizing::Numbers => match exact_of(options, id) {
            Ok(geometry) => Ok(geometry),
            Err(refusal) => Err(explain(
                rt,
                Outcome::Refused(refusal),
                &Known::nothing(),
                manner.style,
            )),
        },
        Sizing::Both => {
            let _ = eprintln!(rt;
                "error: --size, --shard-size and --shards choose a geometry, and --extents, --pages and --sections are one: give either"
            );
            Err(cs_words::COMMAND_LINE)
        }
    }
}

/// The geometry that suits the sizes that the options give, or the exit status if none does.
fn fitting<R: Eprint>(
    rt: &R,
    options: &ArgMatches,
    id: StoreId,
    room: Room,
    manner: Manner,
) -> Result<Geometry, u8>
    ensures { IfErr result (λ status. status ≤ 7) }
{
    let Some(wish) = wish_of(options, room.usual) else {
        let _ = eprintln!(rt;
            "error: a size is a number of bytes, or of K, M, G or T, each 1,024 of the one before: 64M"
        );
        return Err(cs_words::COMMAND_LINE);
    };
    if wish.size > room.most {
        let _ = eprintln!(rt;
            "error: --size is {} bytes, and the device has {}",
            wish.size, room.most
        );
        return Err(cs_words::COMMAND_LINE);
    }
    match geometry_for(wish, id) {
        Ok(geometry) => Ok(geometry),
        Err(small) => Err(tell_too_small(rt, wish, small, manner)),
    }
}

/// Reports that no geometry suits, and what size would be enough, and gives the exit status.
fn tell_too_small<R: Eprint>(rt: &R, wish: Wish, small: TooSmall, manner: Manner) -> u8
    ensures { result ≤ 7 }
{
    let number = Refusal::BadGeometry.number();
    let name = Refusal::BadGeometry.name();
    let Wish {
        size,
        shard_size,
        shards,
    } = wish;
    let _ = match (small.least, manner.style) {
        (Some(least), Style::Text) => eprintln!(rt;
            "refused {number} {name}: {size} bytes are too few for shards of {shard_size} bytes and {shards} identifiers\n--size {least} is the least that is enough."
        ),
        (None, Style::Text) => eprintln!(rt;
            "refused {number} {name}: no store is for shards of {shard_size} bytes and {shards} identifiers\nCut the shards into smaller ones, or use several stores."
        ),
        (Some(least), Style::Json) => eprintln!(rt;
            "{{\"refused\":{number},\"name\":\"{name}\",\"text\":\"{size} bytes are too few for shards of {shard_size} bytes and {shards} identifiers\",\"advice\":\"--size {least} is the least that is enough.\",\"least\":{least}}}"
        ),
        (None, Style::Json) => eprintln!(rt;
            "{{\"refused\":{number},\"name\":\"{name}\",\"text\":\"no store is for shards of {shard_size} bytes and {shards} identifiers\",\"advice\":\"Cut the shards into smaller ones, or use several stores.\",\"least\":null}}"
        ),
    };
    cs_words::REFUSED
}

/// Makes a new file with an empty store. Where that fails there is no file.
fn make<R: AllocGlobal + Files<File = File> + Eprint>(
    rt: &R,
    path: &str,
    geometry: Geometry,
    mode: u32,
    manner: Manner,
) -> Result<(), Unopened> {
    let pages = geometry.device_pages();
    tell_making(rt, path, pages, manner);
    let made = make_quietly(rt, path, geometry, mode);
    tell_ended(rt, path, pages, manner, &made);
    made
}

/// The same, without a word on it.
fn make_quietly<R: AllocGlobal + Files<File = File>>(
    rt: &R,
    path: &str,
    geometry: Geometry,
    mode: u32,
) -> Result<(), Unopened> {
    let disk = match new_disk(rt, path, geometry, mode) {
        Ok(disk) => disk,
        Err(fault) => return Err(Unopened::of_file(rt.alloc(), fault)),
    };
    match MountOptions::new(rt.alloc()).create(disk, geometry) {
        Ok(_) => Ok(()),
        Err((refusal, mut disk)) => {
            let unopened = Unopened::of_disk(rt.alloc(), refusal, &mut disk);
            let _ = fs::remove_file(rt, path);
            Err(unopened)
        }
    }
}

/// What is told of a new store: its geometry, and for shards of which size its room is told.
#[derive(Clone, Copy)]
pub struct Told {
    geometry: Geometry,
    shard_size: u64,
}

impl Told {
    /// The room is that for shards of the size that the options ask for, by default 1 MiB; or for the longest that the
    /// store takes.
    pub fn of(geometry: Geometry, options: &ArgMatches) -> Told {
        let largest = largest_shard(geometry);
        Told {
            geometry,
            shard_size: shard_size_of(options).unwrap_or(largest).min(largest),
        }
    }
}

/// Prints what was made, or why it wasn't, and gives the exit status.
pub fn tell_made<R: AllocGlobal + Print + Eprint>(
    rt: &R,
    path: &str,
    told: Told,
    made: Result<(), Unopened>,
    manner: Manner,
) -> u8
    ensures { result ≤ 7 }
{
    if let Err(unopened) = made {
        return explain_unopened(rt, &unopened, manner.style);
    }
    let outcome = match print_created(path, told, manner.style, &mut io::writer(rt)) {
        Ok(()) => Outcome::Done,
        Err(_) => Outcome::Failed,
    };
    explain(rt, outcome, &Known::nothing(), manner.style)
}

/// What a word has at its end for so many things.
pub fn plural_of(count: u8) -> &'static str {
    if count == 1 { "" } else { "s" }
}

/// The identity of a store as it is printed: 32 hex digits.
pub fn hex_of(geometry: Geometry) -> Simple {
    let id = geometry.format().store().unwrap_or(NO_IDENTITY);
    Uuid::from_bytes(id.0).simple()
}

/// Prints what was made.
fn print_created<W: Write>(path: &str, told: Told, style: Style, writer: &mut W) -> io::Result<()> {
    let Told {
        geometry,
        shard_size,
    } = told;
    let extents = geometry.extents();
    let pages = geometry.pages();
    let sections = geometry.sections();
    let bytes = geometry.device_pages().saturating_mul(4096);
    let largest = largest_shard(geometry);
    let identifiers = geometry.most_weight() / 33;
    let room = sure_bytes(geometry, shard_size).unwrap_or(0);
    let plural = plural_of(sections);
    let id = hex_of(geometry);
    match style {
        Style::Text => writeln!(
            writer,
            "created {path}: format 4, id {id}, {extents} extents of {pages} pages, {sections} section{plural}: {bytes} bytes; shards up to {largest} bytes, up to {identifiers} identifiers of one chunk\nroom for {room} bytes in shards of {shard_size} bytes"
        )?,
        Style::Json => writeln!(
            writer,
            "{{\"created\":true,\"format\":4,\"id\":\"{id}\",\"extents\":{extents},\"pages\":{pages},\"sections\":{sections},\"bytes\":{bytes},\"shard_bytes\":{largest},\"identifiers\":{identifiers},\"room_bytes\":{room},\"room_shard_bytes\":{shard_size}}}"
        )?,
    }
    writer.flush()
}
