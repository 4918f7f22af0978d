//! How much standard input has, if it is a file.

use std::fs;
use std::fs::File;
use std::rt::Files;

/// How many bytes standard input still has, if it is a file of which that can be known.
pub fn bytes_left<R: AllocGlobal + Files<File = File>>(rt: &R) -> Option<u64> {
    let about = fs::metadata(rt, "/dev/stdin").ok()?;
    if !about.is_file() {
        return None;
    }
    Some(about.len().saturating_sub(position(rt)?))
}

/// Where standard input is read next.
fn position<R: AllocGlobal + Files<File = File>>(rt: &R) -> Option<u64> {
    let text = fs::read_to_string(rt, "/proc/self/fdinfo/0").ok()?;
    let line = text.lines().next()?;
    line.strip_prefix("pos:")?.trim().parse().ok()
}
