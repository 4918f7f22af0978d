//! The line `crash`. Where the writer fails, the script ends.
ghost use Rattle.std.specs.Prelude.{◌≡◌, ℕ, Bool, List, IfErr, IfOk, MatchOption, OnOk, length};
ghost use Rattle.std.specs.Io.KnownBytes.{Appends};
ghost use Rattle.cs_script.specs.Crashes.{Crashes, IsCrash, IsCrashed, IsNotReopened, Reopens, kept_count};
ghost use Rattle.cs_script.specs.Ends.{IsEnd};
ghost use Rattle.cs_script.specs.Lines.{said_by, says_crash};
ghost use Rattle.cs_script.specs.Outputs.{open_line};

use crate::lines::Line;
use crate::outputs::{print_crash, print_last, print_open};
use cs_disk::{CrashDisk, PageDisk};
use cs_refusal::Refusal;
use cs_writeback::the_core::{Core, Limits};
use std::alloc::Global;
use std::io;
use std::io::Write;

/// The mask of a line `crash`, where the disk can crash and the mask has a digit for each volatile write.
pub fn mask_of<'a, D: CrashDisk>(core: &Core<D>, line: &'a Line) -> Option<&'a [bool]>
    ensures { MatchOption result ((mask : List Bool) → ¬ IsCrash D.can_crash D.volatile_count (said_by line.now) core.now mask)
        (λ mask. IsCrash D.can_crash D.volatile_count (said_by line.now) core.now mask.now) }
{
    match line {
        Line::Crash { mask } => fitting(core.disk(), mask),
        _ => None,
    }
}

/// The mask, where the disk can crash and has as many volatile writes.
fn fitting<'a, D: CrashDisk>(disk: &D, mask: &'a [bool]) -> Option<&'a [bool]>
    ensures { MatchOption result (¬ (D.can_crash disk.now × (length mask.now ≡ D.volatile_count disk.now)))
        (λ found. (found.now ≡ mask.now) × D.can_crash disk.now × (length mask.now ≡ D.volatile_count disk.now)) }
{
    if disk.crashable() && mask.len() == disk.volatile() {
        Some(mask)
    } else {
        None
    }
}

/// How a line ends a script.
#[derive(Drop)]
pub enum End<D: PageDisk> {
    /// No store was opened after a crash, which is printed.
    Unopened(Refusal),
    /// The reader or the writer failed, or the line's text found no memory. What is left of the core, if one was
    /// opened.
    Broken(Option<Core<D>>),
}

/// Crashes the disk, opens the store that is left, and prints what was kept and what was found. It gives the core with
/// which the script goes on, or how it ends.
pub fn crash<D: CrashDisk + Drop, W: Write>(
    alloc: Global,
    core: Core<D>,
    mask: &[bool],
    writer: &mut W,
) -> Result<Core<D>, End<D>>
    requires { IsCrash D.can_crash D.volatile_count (says_crash mask.now) core mask.now }
    ensures on { IfOk result (λ new. (out : List ℕ) × Crashes D.PageDisk D.can_crash D.volatile_count mask.now core new out
        × Appends (W.contents writer.old) (W.contents writer.new) out) }
    ensures ended { IfErr result (IsEnd D.PageDisk D.can_crash D.volatile_count (says_crash mask.now) core (W.contents writer.old) (W.contents writer.new)) }
{
    match print_crash(writer, count_kept(mask), mask.len()) {
        Ok(()) => {}
        Err(_) => return Err(End::Broken(Some(core))),
    }
    match reopen(alloc, core, mask) {
        Ok(core) => match print_found(writer, &core) {
            Ok(()) => Ok(core),
            Err(_) => Err(End::Broken(Some(core))),
        },
        Err(refusal) => match print_last(writer, refusal) {
            Ok(()) => Err(End::Unopened(refusal)),
            Err(_) => Err(End::Broken(None)),
        },
    }
}

/// For how many the mask says true.
fn count_kept(mask: &[bool]) -> usize
    ensures { result ≡ kept_count mask.now }
{
    mask.iter().filter(|kept| **kept).count()
}

/// Crashes the disk, and opens the store that is left.
fn reopen<D: CrashDisk + Drop>(
    alloc: Global,
    core: Core<D>,
    mask: &[bool],
) -> Result<Core<D>, Refusal>
    requires { IsCrash D.can_crash D.volatile_count (says_crash mask.now) core mask.now }
    ensures opened { IfOk result (λ new. Reopens D.PageDisk D.can_crash D.volatile_count mask.now core new) }
    ensures refused { IfErr result (λ refusal. IsNotReopened D.PageDisk D.can_crash D.volatile_count mask.now core refusal) }
{
    let limits = Limits {
        history: core.limit(),
    };
    let disk = crashed_disk(core, mask);
    match Core::open(alloc, disk, limits) {
        Ok(core) => {
            // Called for its contract alone: what every core was opened on.
            core.opened();
            Ok(core)
        }
        Err((refusal, _)) => Err(refusal),
    }
}

/// The core's disk, after a crash that kept of its volatile writes what the mask says. It isn't inlined, and neither is
/// a line's run: with all that a script does in one function LLVM's vectorizer takes minutes.
#[inline(never)]
fn crashed_disk<D: CrashDisk>(core: Core<D>, mask: &[bool]) -> D
    requires { D.can_crash core.disk × (length mask.now ≡ D.volatile_count core.disk) }
    ensures { IsCrashed D.PageDisk D.can_crash D.volatile_count mask.now core.disk result }
{
    core.into_disk().crash(mask)
}

/// Prints how many commands and how many shards a core was opened with, as the last line of its script's line.
fn print_found<D: CrashDisk, W: Write>(writer: &mut W, core: &Core<D>) -> io::Result<()>
    ensures { OnOk result (Appends (W.contents writer.old) (W.contents writer.new) (open_line core.now.found.0 core.now.found.1)) }
{
    let (commands, shards) = core.opened();
    print_open(writer, commands, shards)?;
    writer.flush()
}
