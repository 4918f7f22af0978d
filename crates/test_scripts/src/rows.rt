//! Rows.
use crate::folders::{names_of_rows, text_of, text_or};
use crate::geometries::geometry_of;
use crate::reports::{print_ended, print_first_difference};
use crate::runs::{Ended, run_over_new};
use cs_frame::Geometry;
use cs_refusal::Refusal;
use std::io;
use std::io::ErrorKind;
use std::rt::Files;

/// A script, the geometry of its store or why there is none, what it has to print, and with which status it has to end.
#[derive(Drop)]
struct Row {
    script: String,
    geometry: Result<Geometry, Refusal>,
    output: String,
    status: u8,
}

/// Runs all rows of a folder, and gives the exit status: 0 where all are as wanted, else 1.
pub fn run_all<R: Files + AllocGlobal + Print + Clone + Drop>(
    rt: &R,
    folder: &str,
) -> io::Result<u8> {
    let names = names_of_rows(rt, folder)?;
    let mut wanted: usize = 0;
    for name in names.iter() {
        if is_as_wanted(rt, folder, name)? {
            wanted = wanted.saturating_add(1);
        }
    }
    let others = names.len().saturating_sub(wanted);
    println!(rt; "{wanted} rows as wanted, {others} not")?;
    Ok(u8::from(others != 0))
}

/// Runs a row, prints how it ended, and tells whether that is as wanted.
fn is_as_wanted<R: Files + AllocGlobal + Print>(
    rt: &R,
    folder: &str,
    name: &str,
) -> io::Result<bool> {
    let row = read_row(rt, folder, name)?;
    let ended = run_row(rt, &row)?;
    if row.output.as_bytes() != ended.output.as_slice() {
        println!(rt; "{name}: what is printed differs")?;
        print_first_difference(rt, &row.output, &ended.output)?;
        return Ok(false);
    }
    if row.status != ended.status {
        let Ended { status, .. } = ended;
        println!(rt; "{name}: status {status}, wanted {}", row.status)?;
        return Ok(false);
    }
    print_ended(rt, name, &ended)?;
    Ok(true)
}

/// Reads a row. A status or words that can't be read are invalid data.
fn read_row<R: Files + AllocGlobal>(rt: &R, folder: &str, name: &str) -> io::Result<Row> {
    let status = text_or(rt, folder, name, "status", "0")?;
    let words = text_or(rt, folder, name, "args", "")?;
    let (Ok(status), Some(geometry)) = (status.trim().parse::<u8>(), geometry_of(&words)) else {
        return Err(io::Error::from(ErrorKind::InvalidData));
    };
    Ok(Row {
        script: text_of(rt, folder, name, "script")?,
        geometry,
        output: text_of(rt, folder, name, "stdout")?,
        status,
    })
}

/// Runs a row's script.
fn run_row(rt: &impl AllocGlobal, row: &Row) -> io::Result<Ended> {
    match run_over_new(rt.alloc(), row.geometry, &row.script) {
        Ok(ended) => Ok(ended),
        Err(_) => Err(io::Error::from(ErrorKind::OutOfMemory)),
    }
}
