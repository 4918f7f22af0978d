//! Disks in memory by scripts: crashes, and calls that fail. What a line says is done on a disk of any kind.
use crate::texts::{byte, is_said, sides, text_of, words_of};
use cs_disk::{CrashDisk, DiskFault, FailAt, ImageFault, MemoryDisk, PageDisk};
use std::process::Abort;

/// Writes a page of this byte, which has to be there.
fn write<D: PageDisk>(
    rt: &impl Abort,
    disk: &mut D,
    number: u64,
    byte: u8,
) -> Result<(), DiskFault> {
    assert!(rt; number < disk.pages());
    disk.write(number, &[byte; 4096])
}

/// Reads a page, which has to be there, into a buffer of sevens, and tells the first and the last byte of that then.
fn read<D: PageDisk>(
    rt: &impl Abort,
    disk: &mut D,
    number: u64,
) -> (Result<(), DiskFault>, u8, u8) {
    let mut buffer = [7; 4096];
    assert!(rt; number < disk.pages());
    let read = disk.read(number, &mut buffer);
    (read, buffer[0], buffer[4095])
}

/// What comes of the words of a line, as text.
pub fn said<D: CrashDisk>(rt: &(impl Abort + AllocGlobal), disk: &mut D, line: &str) -> String {
    let (word, numbers) = words_of(line);
    let number = u64::from(numbers[0]);
    match word {
        "write" => text_of(rt, &write(rt, disk, number, byte(numbers[1]))),
        "read" => text_of(rt, &read(rt, disk, number)),
        "flush" => text_of(rt, &disk.flush()),
        "failures" => text_of(rt, &disk.failures()),
        "volatile" => text_of(rt, &disk.volatile()),
        "crashable" => text_of(rt, &disk.crashable()),
        _ => text_of(rt, &disk.pages()),
    }
}

/// Does what a script says.
fn play<D: CrashDisk>(rt: &(impl Abort + AllocGlobal), disk: &mut D, script: &str) {
    for line in script.lines() {
        let (words, wanted) = sides(rt, line);
        is_said(rt, &said(rt, disk, words), wanted, line);
    }
}

/// A disk after a crash that keeps the volatile writes that the mask says.
pub fn crashed<D: CrashDisk>(rt: &impl Abort, disk: D, mask: &[bool]) -> D {
    assert!(rt; disk.volatile() == mask.len());
    disk.crash(mask)
}

/// Does what scripts say before a crash and after it.
fn plays<D: CrashDisk>(
    rt: &(impl Abort + AllocGlobal),
    mut disk: D,
    before: &str,
    mask: &[bool],
    after: &str,
) -> D {
    play(rt, &mut disk, before);
    let mut disk = crashed(rt, disk, mask);
    play(rt, &mut disk, after);
    disk
}

/// An empty disk in memory.
pub fn memory(rt: &(impl Abort + AllocGlobal), pages: u64) -> MemoryDisk {
    MemoryDisk::new(rt.alloc(), pages).expect(rt, "a disk")
}

/// Asserts how many bytes there are, and which are at some places.
fn are_at(rt: &impl Abort, bytes: &[u8], count: usize, wanted: &[(usize, u8)]) {
    assert!(rt; bytes.len() == count);
    for (place, byte) in wanted {
        assert!(rt; bytes.get(*place) == Some(byte), "at {place}");
    }
}

/// Asserts of which bytes the first and the last page are after a crash of a disk of three pages, of which these are
/// written.
fn crash_and_look(rt: &(impl Abort + AllocGlobal), mask: &[bool], first: u8, last: u8) {
    let disk = plays(rt, memory(rt, 3), TWO_WRITES, mask, "");
    let wanted = [(0, first), (4095, first), (4096, 0), (8192, last)];
    are_at(rt, disk.image(), 12288, &wanted);
}

const TWO_WRITES: &str = "write 0 1 > Ok(())
write 2 2 > Ok(())
crashable > true
volatile > 2";

#[test]
fn a_crash_keeps_what_the_mask_says(rt: HostRuntime) {
    crash_and_look(&rt, &[false, true], 0, 2);
    crash_and_look(&rt, &[true, false], 1, 0);
}

/// The disk that an image of nines is.
fn of_image(rt: &(impl Abort + AllocGlobal), bytes: usize) -> Result<MemoryDisk, ImageFault> {
    let nines = vec![in rt.alloc(); 9; bytes].expect(rt, "memory");
    MemoryDisk::of_image(rt.alloc(), nines)
}

/// Does what a script says on the disk that an image of nines is, of two pages, and asserts which bytes those begin
/// with then.
fn plays_image(rt: &(impl Abort + AllocGlobal), script: &str, wanted: &[(usize, u8)]) {
    let mut disk = of_image(rt, 8192).expect(rt, "a disk");
    play(rt, &mut disk, script);
    are_at(rt, disk.image(), 8192, wanted);
}

#[test]
fn a_flush_makes_writes_durable(rt: HostRuntime) {
    plays_image(&rt, FLUSHED, &[(0, 9), (4096, 2)]);
    assert!(rt; matches!(of_image(&rt, 8191), Err(ImageFault::OddLength)));
}

const FLUSHED: &str = "pages > 2
write 1 1 > Ok(())
write 1 2 > Ok(())
read 1 > (Ok(()), 2, 2)
flush > Ok(())
volatile > 0
failures > 0";

/// Does what scripts say on a disk of which a call fails, before a crash that keeps what the mask says and after it.
fn plays_failing(
    rt: &(impl Abort + AllocGlobal),
    call: u64,
    before: &str,
    mask: &[bool],
    after: &str,
) {
    let disk = FailAt::new(memory(rt, 2), call);
    plays(rt, disk, before, mask, after);
}

/// A write, a read and a flush, of which a call fails so that it isn't seen below.
#[test]
fn the_chosen_call_fails(rt: HostRuntime) {
    plays_failing(&rt, 0, NONE_FAILS, &[], "");
    plays_failing(&rt, 1, WRITE_FAILS, &[], "");
    plays_failing(&rt, 2, READ_FAILS, &[], "");
    plays_failing(&rt, 3, FLUSH_FAILS, &[true], "");
    plays_failing(&rt, 4, NONE_FAILS, &[], "");
}

const NONE_FAILS: &str = "write 0 1 > Ok(())
read 0 > (Ok(()), 1, 1)
flush > Ok(())
volatile > 0
failures > 0";

const WRITE_FAILS: &str = "write 0 1 > Err(DeviceFault)
read 0 > (Ok(()), 0, 0)
flush > Ok(())
volatile > 0
failures > 1";

const READ_FAILS: &str = "write 0 1 > Ok(())
read 0 > (Err(DeviceFault), 7, 7)
flush > Ok(())
volatile > 0
failures > 1";

const FLUSH_FAILS: &str = "write 0 1 > Ok(())
read 0 > (Ok(()), 1, 1)
flush > Err(DeviceFault)
volatile > 1
failures > 1";

/// The second call of a disk fails, where a crash comes before it.
#[test]
fn the_count_goes_on_through_a_crash(rt: HostRuntime) {
    plays_failing(&rt, 2, BEFORE, &[true], AFTER);
}

const BEFORE: &str = "write 0 1 > Ok(())
crashable > true
volatile > 1";

const AFTER: &str = "flush > Err(DeviceFault)
read 0 > (Ok(()), 1, 1)
failures > 1";
