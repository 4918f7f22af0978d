//! Watchers of scripts: what they are told, and where they end a script.
use super::failures::core_that_fails;
use super::files::new_in_file;
use super::{new_core, printed, script_text};
use cs_disk::CrashDisk;
use cs_frame::Geometry;
use cs_options::script::{LineFault, Onward, Watcher, run_over_watched};
use cs_store::mount::the_core::Core;
use std::io::Write;
use std::process::Abort;
use std::test::Fail;

/// Notes what it is told, and ends the script at the line of this number.
#[derive(Drop)]
struct Notes {
    told: Vec<u8>,
    last: u64,
}

impl Watcher for Notes {
    ghost meets = { λ before number line fault onward after. Unit {0} };

    fn met(&mut self, number: u64, text: &[u8], fault: LineFault) -> Onward {
        let written = writeln!(
            self.told,
            "{number} ({length}) {fault}",
            length = text.len()
        );
        if written.is_err() || number == self.last {
            Onward::Stop
        } else {
            Onward::GoOn
        }
    }
}

/// Asserts what a script's text prints over a store, what a watcher that ends it at this line is told, and the status.
fn tells_over<D: CrashDisk + Drop>(
    rt: &(impl Abort + AllocGlobal),
    core: Core<D>,
    text: &[u8],
    last: u64,
    (lines, told): (&str, &str),
    status: u8,
) -> Result<(), Fail> {
    let mut output = Vec::new(rt.alloc());
    let mut notes = Notes {
        told: Vec::new(rt.alloc()),
        last,
    };
    let ended = run_over_watched(rt.alloc(), Ok(core), text, &mut output, &mut notes);
    assert_eq!(rt; output.as_slice(), printed(rt.alloc(), lines)?.as_bytes());
    assert_eq!(rt;
        notes.told.as_slice(),
        printed(rt.alloc(), told)?.as_bytes()
    );
    assert_eq!(rt; ended, status);
    Ok(())
}

/// The same over a new store of 6 extents of 2 pages in memory.
fn tells(
    rt: &(impl Abort + AllocGlobal),
    script: &str,
    last: u64,
    wanted: (&str, &str),
    status: u8,
) -> Result<(), Fail> {
    let text = script_text(rt.alloc(), script)?;
    let core = new_core(rt, 6)?;
    tells_over(rt, core, text.as_bytes(), last, wanted, status)
}

/// Each reason why a line isn't readable but those of files.
#[test]
fn why_lines_are_bad(rt: HostRuntime) -> Result<(), Fail> {
    for (line, why) in REASONS {
        let length = line
            .len()
            .saturating_add(line.matches('@').count().saturating_mul(30));
        let told = format!(in rt.alloc(); "1 ({length}) bad line: {why}")?;
        tells(&rt, line, 0, ("bad line", &told), 1)?;
    }
    let core = new_core(&rt, 6)?;
    let wanted = ("bad line", "2 (7) bad line: it isn't UTF-8");
    tells_over(&rt, core, b"# \xff\ngot a \xff\n", 0, wanted, 1)
}

/// Lines that aren't readable, and why.
const REASONS: &[(&str, &str)] = &[
    ("  ", "a word is missing"),
    ("put", "a word is missing"),
    ("put @a", "a word is missing"),
    ("get", "a word is missing"),
    ("sweep", "a word is missing"),
    ("crash", "a word is missing"),
    ("put @a 62 63", "one word too many"),
    ("get @a @b", "one word too many"),
    ("sync now", "one word too many"),
    ("crash 1 1", "one word too many"),
    ("frob", "no such command"),
    ("put 1 62", "the second word is no identifier (a UUID)"),
    ("del 1", "the second word is no identifier (a UUID)"),
    (
        "put @a 6",
        "the payload is no even number of hex digits (- for no byte)",
    ),
    (
        "put @a 6x",
        "the payload is no even number of hex digits (- for no byte)",
    ),
    ("sweep x", "the second word is no decimal number below 2^64"),
    (
        "crash 2",
        "the second word is no row of digits 0 and 1 (- for none)",
    ),
    (
        "crash 11",
        "the crash has too many digits or too few: one for each volatile write",
    ),
];

/// Lines that step and crash can't be read over a store in a file, and are numbered as they stand.
#[test]
fn lines_that_need_memory(rt: HostRuntime) -> Result<(), Fail> {
    let path = "cs_cli_watched";
    match new_in_file(&rt, rt.alloc(), path, Geometry::new(6, 2)?) {
        Ok(core) => tells_over(
            &rt,
            core,
            b"# a remark\nstep\n\ncrash -\n",
            0,
            (
                "bad line / bad line",
                "2 (4) bad line: step and crash need a store in memory / 4 (7) bad line: step and crash need a store in memory",
            ),
            1,
        )?,
        Err(refusal) => panic!(rt; "{}", refusal.name()),
    }
    std::fs::remove_file(&rt, path)?;
    Ok(())
}

/// A refusal is told with the number of its line. What follows runs, or doesn't if the watcher ends the script.
#[test]
fn refusals_are_told(rt: HostRuntime) -> Result<(), Fail> {
    let script = "put @a 61 / step / plan / sweep 9 / get @a";
    tells(
        &rt,
        script,
        0,
        (
            "put 1 / begin: [w1] / refused 5 InFlight / refused 33 NotSweepable / value 61",
            "3 (4) a round is out / 4 (7) the extent can't be swept",
        ),
        0,
    )?;
    tells(
        &rt,
        script,
        3,
        (
            "put 1 / begin: [w1] / refused 5 InFlight",
            "3 (4) a round is out",
        ),
        1,
    )
}

/// A store that isn't opened after a crash is told, too.
#[test]
fn a_lost_store_is_told(rt: HostRuntime) -> Result<(), Fail> {
    tells_over(
        &rt,
        core_that_fails(&rt, 4)?,
        b"frob\ncrash -\nsync\n",
        0,
        (
            "bad line / crash kept 0 of 0 / refused 1 DeviceFault",
            "1 (4) bad line: no such command / 2 (7) the device failed",
        ),
        3,
    )
}
