//! What is printed of a row.
use crate::runs::Ended;
use std::{io, str};

/// Prints a row that is as wanted, and what it left behind.
pub fn print_ended(rt: &impl Print, name: &str, ended: &Ended) -> io::Result<()> {
    let status = ended.status;
    match ended.left {
        Some(left) => println!(rt;
            "{name}: as wanted, status {status}, found {}, accepted {}, persistent {}, volatile {}",
            left.found, left.accepted, left.persistent, left.volatile
        ),
        None => println!(rt; "{name}: as wanted, status {status}, no store"),
    }
}

/// Prints the first line that differs, as it is wanted and as it was printed.
pub fn print_first_difference(rt: &impl Print, wanted: &str, printed: &[u8]) -> io::Result<()> {
    let printed = str::from_utf8(printed).unwrap_or("no text");
    let mut wanted = wanted.split('\n');
    let mut printed = printed.split('\n');
    for number in 1..u64::MAX {
        match (wanted.next(), printed.next()) {
            (None, None) => break,
            (line, other) => {
                if line != other {
                    return println!(rt; "line {number}: wanted {line:?}, printed {other:?}");
                }
            }
        }
    }
    Ok(())
}
