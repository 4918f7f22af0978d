//! The commands over one shard of a store in a file: `get`, `put`, `del`.
ghost use Rattle.std.specs.Prelude.{◌≤◌, IfErr};

use crate::inputs::bytes_left;
use cs_files::fences::open_to_write;
use cs_files::files::{OverFile, Place, Read, Written, disk_to_open};
use cs_files::manners::{End, Manner};
use cs_files::openings::{Opened, Shown, Unopened, open_store};
use cs_files::seals::end_written;
use cs_files::warnings::{explain_unopened, warn_of, warn_of_older};
use cs_files::{AsOf, Known, Mounted, Outcome, Remade, Reserve, Store, explain};
use cs_frame::ShardId;
use cs_refusal::Refusal;
use cs_tools::{delete, get, most_bytes, put};
use std::fs::File;
use std::io;
use std::io::BufWriter;
use std::rt::Files;
use std::time::Clock;

/// Writes out a shard of the store in a file, and gives the exit status.
pub fn get_from_file<R: AllocGlobal + Clock + Files<File = File> + Print + Eprint>(
    rt: &R,
    place: Place,
    older: bool,
    id: ShardId,
    manner: Manner,
) -> u8
    ensures { result ≤ 7 }
{
    if older {
        let disk = disk_to_open(rt, place, manner.style);
        let opened = open_store::<AsOf<Mounted<Remade<Read>>>, R>(rt, disk);
        if opened.is_ok() {
            warn_of_older(rt, manner.style);
        }
        return get_opened(rt, opened, id, manner);
    }
    let disk = disk_to_open(rt, place, manner.style);
    let opened = open_store::<Mounted<Remade<Read>>, R>(rt, disk);
    get_opened(rt, opened, id, manner)
}

/// Writes out a shard of the store that was opened, if it was, and gives the exit status.
fn get_opened<E: Shown + Drop, R: AllocGlobal + Print + Eprint>(
    rt: &R,
    opened: Result<Opened<Store<E>>, Unopened>,
    id: ShardId,
    manner: Manner,
) -> u8
    ensures { result ≤ 7 }
{
    let mut store = match store_of(rt, opened, manner) {
        Ok(store) => store,
        Err(status) => return status,
    };
    let outcome = match BufWriter::new(rt.alloc(), io::writer(rt)) {
        Ok(mut writer) => get(&mut store, id, &mut writer),
        Err(_) => Outcome::Failed,
    };
    explain_over(rt, store, outcome, manner)
}

/// The typed store that was opened, with warnings of its damaged pages; or the exit status where it wasn't.
fn store_of<E: Shown + Drop, R: AllocGlobal + Eprint>(
    rt: &R,
    opened: Result<Opened<Store<E>>, Unopened>,
    manner: Manner,
) -> Result<Store<E>, u8>
    ensures { IfErr result (λ status. status ≤ 7) }
{
    match opened {
        Ok(opened) => {
            let (commands, _) = opened.store.found();
            warn_of(rt, &opened, commands, manner.style);
            Ok(opened.store)
        }
        Err(unopened) => Err(explain_unopened(rt, &unopened, manner.style)),
    }
}

/// The typed store in a file, to be written; or the exit status if it isn't opened.
fn store_to_write<R: AllocGlobal + Clock + Files<File = File> + Eprint>(
    rt: &R,
    place: Place,
    manner: Manner,
) -> Result<Store<Mounted<Written>>, u8>
    ensures { IfErr result (λ status. status ≤ 7) }
{
    match open_to_write(rt, place, manner.style) {
        Ok(store) => Ok(store),
        Err(unopened) => Err(explain_unopened(rt, &unopened, manner.style)),
    }
}

/// Prints how a command over a store ended, with what the operating system said where the disk failed, and gives the
/// exit status.
fn explain_over<E: Shown + Drop, R: Eprint>(
    rt: &R,
    store: Store<E>,
    outcome: Outcome,
    manner: Manner,
) -> u8
    ensures { result ≤ 7 }
{
    let known = Known::of_system(store.close().into_below().fault());
    explain(rt, outcome, &known, manner.style)
}

/// Puts standard input as a shard of the store in a file, by this reserve, and gives the exit status.
pub fn put_into_file<R: AllocGlobal + Clock + Files<File = File> + Input + Eprint>(
    rt: &R,
    place: Place,
    id: ShardId,
    reserve: Reserve,
    end: End,
    manner: Manner,
) -> u8
where
    R::Reader: Drop,
    ensures { result ≤ 7 }
{
    let mut store = match store_to_write(rt, place, manner) {
        Ok(store) => store,
        Err(status) => return status,
    };
    store.set_reserve(reserve);
    let outcome = if is_too_long(rt, most_bytes(&store)) {
        Outcome::Refused(Refusal::TooLarge)
    } else {
        put(rt.alloc(), &mut store, id, rt.reader())
    };
    end_written(rt, store.into_core(), outcome, end, manner)
}

/// Whether standard input is a file with more bytes left than this.
fn is_too_long<R: AllocGlobal + Files<File = File>>(rt: &R, most: usize) -> bool {
    match bytes_left(rt) {
        Some(left) => left > most as u64,
        None => false,
    }
}

/// Deletes a shard of the store in a file, and gives the exit status.
pub fn delete_from_file<R: AllocGlobal + Clock + Files<File = File> + Eprint>(
    rt: &R,
    place: Place,
    id: ShardId,
    end: End,
    manner: Manner,
) -> u8
    ensures { result ≤ 7 }
{
    let mut store = match store_to_write(rt, place, manner) {
        Ok(store) => store,
        Err(status) => return status,
    };
    let outcome = delete(&mut store, id);
    end_written(rt, store.into_core(), outcome, end, manner)
}
