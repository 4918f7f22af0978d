//! The commands over the whole of a store in a file: `list`, `stat`, `scrub`, `reclaim`, `export`.
ghost use Rattle.std.specs.Prelude.{◌≤◌, IfErr};

use crate::overviews::{Wanted, show, wanted_of};
use clap::ArgMatches;
use cs_disk::PageDisk;
use cs_files::fences::open_to_write;
use cs_files::files::{OverFile, Place, Read, Written, disk_to_open};
use cs_files::manners::{End, Manner};
use cs_files::openings::{Opened, Shown, Unopened, open_store};
use cs_files::progress::Told;
use cs_files::seals::end_written;
use cs_files::warnings::{explain_unopened, warn_of, warn_of_older};
use cs_files::{AsOf, Core, Known, Mounted, Outcome, Progress, Remade, Store, Style, explain};
use cs_frame::ShardId;
use cs_options::{Listing, from_of, listing_of};
use cs_tools::{Aim, FoundPages, export, list, reclaim, scrub, stat};
use std::alloc::Global;
use std::fs::File;
use std::io;
use std::io::{BufWriter, Write};
use std::rt::Files;
use std::time::Clock;

/// What is asked of the whole of a store.
#[derive(Clone, Copy)]
pub enum Query<'a> {
    List(Listing),
    Stat(Style),
    /// What a person wants to see.
    Show(Wanted<'a>),
    Scrub(Style),
    /// From this identifier on.
    Export(ShardId),
}

/// What the command of this name asks of a store; none where a word is no identifier.
pub fn query_of<'a>(name: &str, options: &ArgMatches<'a>, style: Style) -> Option<Query<'a>> {
    match name {
        "list" => match listing_of(options) {
            Some(listing) => Some(Query::List(listing)),
            None => None,
        },
        "export" => match from_of(options) {
            Some(from) => Some(Query::Export(from)),
            None => None,
        },
        "stat" => Some(stat_of(options, style)),
        _ => Some(Query::Scrub(style)),
    }
}

/// What `stat` asks of a store.
fn stat_of<'a>(options: &ArgMatches<'a>, style: Style) -> Query<'a> {
    match wanted_of(options) {
        Some(wanted) => Query::Show(wanted),
        None => Query::Stat(style),
    }
}

/// Asks the store in a file, and gives the exit status.
pub fn ask_file<R: AllocGlobal + Clock + Files<File = File> + Print + Eprint>(
    rt: &R,
    place: Place,
    older: bool,
    query: Query,
    manner: Manner,
) -> u8
    ensures { result ≤ 7 }
{
    let Ok(mut writer) = BufWriter::new(rt.alloc(), io::writer(rt)) else {
        return explain(rt, Outcome::Failed, &Known::nothing(), manner.style);
    };
    if older {
        let disk = disk_to_open(rt, place, manner.style);
        let opened = open_store::<AsOf<Mounted<Remade<Read>>>, R>(rt, disk);
        if opened.is_ok() {
            warn_of_older(rt, manner.style);
        }
        return ask_opened(rt, opened, query, manner, &mut writer);
    }
    let disk = disk_to_open(rt, place, manner.style);
    let opened = open_store::<Mounted<Remade<Read>>, R>(rt, disk);
    ask_opened(rt, opened, query, manner, &mut writer)
}

/// Reclaims extents of the store in a file, as far as is aimed at, and gives the exit status.
pub fn reclaim_file<R: AllocGlobal + Clock + Files<File = File> + Print + Eprint>(
    rt: &R,
    place: Place,
    aim: Aim,
    end: End,
    manner: Manner,
) -> u8
    ensures { result ≤ 7 }
{
    let Ok(mut writer) = BufWriter::new(rt.alloc(), io::writer(rt)) else {
        return explain(rt, Outcome::Failed, &Known::nothing(), manner.style);
    };
    let mut core = match open_to_write(rt, place, manner.style) {
        Ok(store) => store.into_core(),
        Err(unopened) => return explain_unopened(rt, &unopened, manner.style),
    };
    let outcome = reclaim(rt.alloc(), &mut core, aim, manner.style, &mut writer);
    end_written(rt, core, outcome, end, manner)
}

/// Asks the store that was opened, if it was, and gives the exit status.
fn ask_opened<E: Shown + Drop, R: AllocGlobal + Clock + Files<File = File> + Eprint, W: Write>(
    rt: &R,
    opened: Result<Opened<Store<E>>, Unopened>,
    query: Query,
    manner: Manner,
    writer: &mut W,
) -> u8
    ensures { result ≤ 7 }
{
    let opened = match opened {
        Ok(opened) => opened,
        Err(unopened) => return explain_unopened(rt, &unopened, manner.style),
    };
    let (commands, _) = opened.store.found();
    warn_of(rt, &opened, commands, manner.style);
    let Opened {
        store,
        findings,
        made,
        ..
    } = opened;
    let pages = FoundPages {
        findings: &findings,
        made: &made,
        mended: false,
    };
    ask_core(rt, store.into_core(), &pages, query, manner, writer)
}

/// Asks a store of whose pages this was found, and gives the exit status.
fn ask_core<E: Shown + Drop, R: AllocGlobal + Clock + Files<File = File> + Eprint, W: Write>(
    rt: &R,
    mut core: Core<E>,
    pages: &FoundPages,
    query: Query,
    manner: Manner,
    writer: &mut W,
) -> u8
    ensures { result ≤ 7 }
{
    let told = Told::new(rt, manner);
    let outcome = match ask(rt, &mut core, pages, query, &told, writer) {
        Ok(outcome) => outcome,
        Err(status) => return status,
    };
    let known = Known::of_system(core.into_disk().into_below().fault());
    explain(rt, outcome, &known, manner.style)
}

/// Asks a store of whose pages this was found. It returns the exit status where the file of a picture wasn't made.
fn ask<D: PageDisk, R: AllocGlobal + Files<File = File> + Eprint, P: Progress, W: Write>(
    rt: &R,
    core: &mut Core<D>,
    pages: &FoundPages,
    query: Query,
    progress: &P,
    writer: &mut W,
) -> Result<Outcome, u8>
    ensures { IfErr result (λ status. status ≤ 7) }
{
    let alloc = rt.alloc();
    match query {
        Query::List(listing) => Ok(list_of(alloc, core, listing, writer)),
        Query::Stat(style) => Ok(stat(alloc, core, style, writer)),
        Query::Show(wanted) => show(rt, core, wanted, writer),
        Query::Scrub(style) => Ok(scrub(alloc, core, pages, progress, style, writer)),
        Query::Export(from) => Ok(export(alloc, core, from, progress, writer)),
    }
}

/// Lists shards.
fn list_of<D: PageDisk, W: Write>(
    alloc: Global,
    core: &Core<D>,
    listing: Listing,
    writer: &mut W,
) -> Outcome {
    let Listing { from, most, json } = listing;
    let style = if json { Style::Json } else { Style::Text };
    list(alloc, core, from, most as usize, style, writer)
}
