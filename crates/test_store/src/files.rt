//! Files as disks, by scripts. What is done with files stands in one function over any runtime, since a call that knows
//! the runtime takes long to prove.
use crate::disks::{crashed, said};
use crate::texts::{is_said, sides, text_of};
use cs_disk::{Access, FileDisk};
use std::fmt::Debug;
use std::fs::File;
use std::os::unix::fs::MetadataExt;
use std::process::Abort;
use std::rt::Files;

/// Keeps a disk that was opened, and tells why another one wasn't.
fn kept<E: Debug + Drop>(
    rt: &(impl Abort + AllocGlobal),
    disk: &mut Option<FileDisk>,
    opened: Result<FileDisk, E>,
) -> String {
    match opened {
        Ok(opened) => {
            *disk = Some(opened);
            text_of(rt, &"open")
        }
        Err(fault) => text_of(rt, &fault),
    }
}

/// The length of a file, and the first byte of each of its first four pages.
fn file_of<R: Abort + AllocGlobal + Files<File = File>>(
    rt: &R,
    path: &str,
) -> (usize, [Option<u8>; 4]) {
    let bytes = std::fs::read(rt, path).expect(rt, "a file");
    let firsts = [
        bytes.get(0).copied(),
        bytes.get(4096).copied(),
        bytes.get(8192).copied(),
        bytes.get(12288).copied(),
    ];
    (bytes.len(), firsts)
}

/// The length of a file, and whether less than half of it takes room on the device.
fn room_of<R: Abort + Files<File = File>>(rt: &R, path: &str) -> (u64, bool) {
    let metadata = std::fs::metadata(rt, path).expect(rt, "a file");
    (metadata.len(), metadata.blocks() < metadata.len() / 1024)
}

/// Crashes the disk that is open, which has no volatile write, and tells whether it is open still.
fn crashes(rt: &impl Abort, disk: &mut Option<FileDisk>) -> bool {
    let open = disk.take().expect(rt, "a disk");
    *disk = Some(crashed(rt, open, &[]));
    disk.is_some()
}

/// What a word says of how a file that is only read is locked.
fn access_of(word: &str) -> Access {
    match word {
        "unlocked" => Access::ReadUnlocked,
        _ => Access::Read,
    }
}

/// What comes of a line, as text: of words for files, and of others on the disk that is open.
fn done<R: Abort + AllocGlobal + Files<File = File>>(
    rt: &R,
    disk: &mut Option<FileDisk>,
    line: &str,
) -> String {
    let mut words = line.split(' ');
    let word = words.next().unwrap_or("");
    let path = words.next().unwrap_or("");
    let last = words.next().unwrap_or("");
    match word {
        "create" => {
            let pages = last.parse().unwrap_or(0);
            kept(rt, disk, FileDisk::create(rt, rt.alloc(), path, pages))
        }
        "open" => kept(rt, disk, FileDisk::open(rt, rt.alloc(), path)),
        "new" => {
            let pages = last.parse().unwrap_or(0);
            kept(
                rt,
                disk,
                FileDisk::create_new(rt, rt.alloc(), path, pages, 0o600),
            )
        }
        "read_alone" => kept(
            rt,
            disk,
            FileDisk::open_for(rt, rt.alloc(), path, access_of(last)),
        ),
        "fault" => text_of(rt, &disk.as_ref().expect(rt, "a disk").last_fault()),
        "close" => text_of(rt, &disk.take().is_some()),
        "crash" => text_of(rt, &crashes(rt, disk)),
        "fill" => text_of(rt, &std::fs::write(rt, path, last).is_ok()),
        "remove" => text_of(rt, &std::fs::remove_file(rt, path).is_ok()),
        "file" => text_of(rt, &file_of(rt, path)),
        "room" => text_of(rt, &room_of(rt, path)),
        _ => said(rt, disk.as_mut().expect(rt, "a disk"), line),
    }
}

/// Does what a script says with files.
fn plays_files<R: Abort + AllocGlobal + Files<File = File>>(rt: &R, script: &str) {
    let mut disk = None;
    for line in script.lines() {
        let (words, wanted) = sides(rt, line);
        is_said(rt, &done(rt, &mut disk, words), wanted, line);
    }
}

/// A file that is there is emptied, and one that is opened has what was written to it. What isn't of whole pages isn't
/// opened.
#[test]
fn a_file_keeps_its_pages(rt: HostRuntime) {
    plays_files(&rt, KEEPS);
}

const KEEPS: &str = "fill cs_disk_pages full > true
create cs_disk_pages 2 > \"open\"
write 1 2 > Ok(())
flush > Ok(())
crashable > false
crash > true
failures > 0
close > true
open ./cs_disk_pages > \"open\"
read 0 > (Ok(()), 0, 0)
read 1 > (Ok(()), 2, 2)
fill cs_disk_pages odd > true
pages > 2
read 1 > (Err(DeviceFault), 7, 7)
failures > 1
close > true
open cs_disk_pages > OddLength
remove cs_disk_pages > true
open cs_disk_pages > DeviceFault";

/// A file above a gibibyte takes no room for pages that weren't written.
#[test]
fn a_large_file_is_sparse(rt: HostRuntime) {
    plays_files(&rt, LARGE);
}

const LARGE: &str = "create cs_disk_small 16 > \"open\"
close > true
room cs_disk_small > (65536, false)
remove cs_disk_small > true
create cs_disk_large 281600 > \"open\"
room cs_disk_large > (1153433600, true)
read 9 > (Ok(()), 0, 0)
write 9 3 > Ok(())
flush > Ok(())
close > true
open cs_disk_large > \"open\"
read 9 > (Ok(()), 3, 3)
room cs_disk_large > (1153433600, true)
close > true
remove cs_disk_large > true";

#[test]
fn a_file_that_cannot_be_made(rt: HostRuntime) {
    plays_files(&rt, NOT_MADE);
}

const NOT_MADE: &str = "create no_such_folder/pages 1 > DeviceFault
open no_such_folder/pages > DeviceFault
create cs_disk_too_long 1152921504606846976 > DeviceFault
open cs_disk_too_long > DeviceFault
create . 1 > DeviceFault
open . > DeviceFault";

/// Until a flush what is written is read, and isn't in the file. What wasn't flushed is lost.
#[test]
fn a_file_is_written_at_a_flush(rt: HostRuntime) {
    plays_files(&rt, UNFLUSHED);
}

const UNFLUSHED: &str = "create cs_disk_unflushed 4 > \"open\"
write 3 1 > Ok(())
write 2 2 > Ok(())
write 3 2 > Ok(())
write 0 1 > Ok(())
write 1 2 > Ok(())
read 3 > (Ok(()), 2, 2)
read 0 > (Ok(()), 1, 1)
file cs_disk_unflushed > (16384, [Some(0), Some(0), Some(0), Some(0)])
flush > Ok(())
file cs_disk_unflushed > (16384, [Some(1), Some(2), Some(2), Some(2)])
read 3 > (Ok(()), 2, 2)
write 3 1 > Ok(())
close > true
open cs_disk_unflushed > \"open\"
flush > Ok(())
read 3 > (Ok(()), 2, 2)
failures > 0
close > true
remove cs_disk_unflushed > true";

/// While a file is open as a disk it is neither opened nor made, and it keeps its bytes.
#[test]
fn a_file_is_one_disk_at_a_time(rt: HostRuntime) {
    plays_files(&rt, LOCKED);
}

const LOCKED: &str = "create cs_disk_locked 4 > \"open\"
write 1 1 > Ok(())
flush > Ok(())
create cs_disk_locked 2 > DeviceFault
open cs_disk_locked > DeviceFault
close > true
file cs_disk_locked > (16384, [Some(0), Some(1), Some(0), Some(0)])
create cs_disk_locked 4 > \"open\"
file cs_disk_locked > (16384, [Some(0), Some(0), Some(0), Some(0)])
failures > 0
close > true
remove cs_disk_locked > true";

/// Files that are only read are read beside each other, and not beside one that writes. Nothing that is there is lost
/// to a new file.
#[test]
fn a_file_is_read_alone(rt: HostRuntime) {
    plays_files(&rt, READ_ALONE);
}

const READ_ALONE: &str = "new cs_disk_read 4 > \"open\"
write 1 5 > Ok(())
flush > Ok(())
fault > None
read_alone cs_disk_read > System(InUse)
read_alone cs_disk_read unlocked > \"open\"
read 1 > (Ok(()), 5, 5)
read_alone cs_disk_read > \"open\"
read_alone cs_disk_read > \"open\"
open cs_disk_read > DeviceFault
new cs_disk_read 4 > System(InUse)
read 1 > (Ok(()), 5, 5)
write 1 6 > Err(DeviceFault)
fault > Some(ReadOnly)
failures > 1
flush > Ok(())
read 1 > (Ok(()), 5, 5)
close > true
new cs_disk_read 4 > NotEmpty
file cs_disk_read > (16384, [Some(0), Some(5), Some(0), Some(0)])
fill cs_disk_read odd > true
read_alone cs_disk_read > OddLength
remove cs_disk_read > true
read_alone cs_disk_read > System(NotThere)
read_alone . > System(Folder)
new . 4 > System(Folder)
new no_such_folder/pages 4 > System(NotThere)
fill cs_disk_read > true
new cs_disk_read 2 > \"open\"
pages > 2
close > true
remove cs_disk_read > true";

/// A file of more pages than are written in one call.
#[test]
fn a_file_is_filled(rt: HostRuntime) {
    plays_files(&rt, FILLED);
}

const FILLED: &str = "create cs_disk_filled 130 > \"open\"
pages > 130
file cs_disk_filled > (532480, [Some(0), Some(0), Some(0), Some(0)])
close > true
remove cs_disk_filled > true";

/// What is written after it was read ahead is what is read, before a flush and after it. Pages that lie ready are read
/// without the file, but only one behind the other: cut from outside, as no other program may, the file shows which
/// those are.
#[test]
fn a_file_is_read_ahead(rt: HostRuntime) {
    plays_files(&rt, AHEAD);
}

const AHEAD: &str = "create cs_disk_ahead 130 > \"open\"
write 2 1 > Ok(())
write 66 2 > Ok(())
write 129 3 > Ok(())
flush > Ok(())
read 0 > (Ok(()), 0, 0)
read 1 > (Ok(()), 0, 0)
read 2 > (Ok(()), 1, 1)
write 3 4 > Ok(())
write 4 5 > Ok(())
write 3 6 > Ok(())
read 3 > (Ok(()), 6, 6)
read 4 > (Ok(()), 5, 5)
read 5 > (Ok(()), 0, 0)
write 6 7 > Ok(())
read 6 > (Ok(()), 7, 7)
flush > Ok(())
read 6 > (Ok(()), 7, 7)
read 3 > (Ok(()), 6, 6)
read 4 > (Ok(()), 5, 5)
read 65 > (Ok(()), 0, 0)
read 66 > (Ok(()), 2, 2)
read 67 > (Ok(()), 0, 0)
read 68 > (Ok(()), 0, 0)
fill cs_disk_ahead cut > true
read 69 > (Ok(()), 0, 0)
read 69 > (Err(DeviceFault), 7, 7)
failures > 1
read 70 > (Ok(()), 0, 0)
flush > Ok(())
read 71 > (Err(DeviceFault), 7, 7)
read 72 > (Err(DeviceFault), 7, 7)
failures > 3
close > true
remove cs_disk_ahead > true";

/// Behind the last page of a file there is none to be read ahead.
#[test]
fn a_file_is_read_ahead_to_its_end(rt: HostRuntime) {
    plays_files(&rt, TO_ITS_END);
}

const TO_ITS_END: &str = "create cs_disk_to_its_end 3 > \"open\"
write 2 1 > Ok(())
flush > Ok(())
read 0 > (Ok(()), 0, 0)
read 1 > (Ok(()), 0, 0)
read 2 > (Ok(()), 1, 1)
read 0 > (Ok(()), 0, 0)
read 2 > (Ok(()), 1, 1)
failures > 0
close > true
remove cs_disk_to_its_end > true";
