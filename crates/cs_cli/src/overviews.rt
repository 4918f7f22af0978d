//! What `stat` shows to a person: `--summary`, `--map` and `--map-svg`.
ghost use Rattle.std.specs.Prelude.{◌≤◌, IfErr};

use clap::ArgMatches;
use cs_disk::PageDisk;
use cs_files::{Core, Outcome};
use cs_tools::{Overview, show_store};
use std::fs::File;
use std::io::{BufWriter, ErrorKind, Write};
use std::os::unix::fs::OpenOptionsExt;
use std::rt::Files;
use std::{fs, io};

/// What a person wants to see of a store.
#[derive(Clone, Copy)]
pub struct Wanted<'a> {
    /// What is printed, if anything is.
    pub printed: Option<Overview>,
    /// The file that is made for a picture, if one is.
    pub picture: Option<&'a str>,
}

/// What the options of `stat` say that a person wants to see. None if they say nothing of it.
pub fn wanted_of<'a>(options: &ArgMatches<'a>) -> Option<Wanted<'a>> {
    let wanted = Wanted {
        printed: printed_of(options),
        picture: options.get_str("map-svg"),
    };
    if wanted.printed.is_some() || wanted.picture.is_some() {
        Some(wanted)
    } else {
        None
    }
}

/// What they say that is printed.
fn printed_of(options: &ArgMatches) -> Option<Overview> {
    match (options.get_flag("summary"), options.get_flag("map")) {
        (false, false) => None,
        (true, false) => Some(Overview::Summary),
        (false, true) => Some(Overview::Map),
        (true, true) => Some(Overview::SummaryAndMap),
    }
}

/// Shows a store. It returns the exit status if the file of a picture wasn't made.
pub fn show<D: PageDisk, R: AllocGlobal + Files<File = File> + Eprint, W: Write>(
    rt: &R,
    core: &mut Core<D>,
    wanted: Wanted,
    writer: &mut W,
) -> Result<Outcome, u8>
    ensures { IfErr result (λ status. status ≤ 7) }
{
    let printed = match wanted.printed {
        Some(what) => show_store(rt.alloc(), core, what, writer),
        None => Outcome::Done,
    };
    let drawn = match (printed, wanted.picture) {
        (Outcome::Done | Outcome::Damaged, Some(path)) => draw_into(rt, core, path)?,
        _ => Outcome::Done,
    };
    match drawn {
        Outcome::Done => Ok(printed),
        _ => Ok(drawn),
    }
}

/// Draws the picture of a store into a new file. If that fails there is no file. It returns the exit status if the file
/// wasn't made.
fn draw_into<D: PageDisk, R: AllocGlobal + Files<File = File> + Eprint>(
    rt: &R,
    core: &mut Core<D>,
    path: &str,
) -> Result<Outcome, u8>
    ensures { IfErr result (λ status. status ≤ 7) }
{
    let file = match new_file(rt, path) {
        Ok(file) => file,
        Err(error) => return Err(tell_unmade(rt, path, error)),
    };
    let drawn = draw_on(rt, core, file);
    match drawn {
        Outcome::Done | Outcome::Damaged => {}
        _ => {
            let _ = fs::remove_file(rt, path);
        }
    }
    Ok(drawn)
}

/// A new file. What is there already stays as it is.
fn new_file<R: Files<File = File>>(rt: &R, path: &str) -> io::Result<File> {
    let mut options = File::options();
    options.write(true).create_new(true).mode(0o644);
    options.open(rt, path)
}

/// Draws the picture of a store on a file.
fn draw_on<D: PageDisk, R: AllocGlobal>(rt: &R, core: &mut Core<D>, file: File) -> Outcome {
    match BufWriter::new(rt.alloc(), file) {
        Ok(mut writer) => show_store(rt.alloc(), core, Overview::Picture, &mut writer),
        Err(_) => Outcome::Failed,
    }
}

/// Reports why the file of a picture wasn't made, and gives the exit status.
fn tell_unmade<R: Eprint>(rt: &R, path: &str, error: io::Error) -> u8
    ensures { result ≤ 7 }
{
    let _ = if error.kind() == ErrorKind::AlreadyExists {
        eprintln!(rt; "error: {path} is there already; name a file that isn't")
    } else {
        eprintln!(rt; "error: {path} can't be made: {error}")
    };
    cs_words::NOT_THERE
}
