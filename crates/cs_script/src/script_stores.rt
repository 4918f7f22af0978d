//! The stores that scripts run over.
ghost use Rattle.std.specs.Prelude.{◌≡◌, ◌⊎◌, ◌<◌, ◌≤◌, ℕ, List, IfErr, Some};
ghost use Rattle.std.specs.Io.KnownBytes.{Appends};
ghost use Rattle.cs_script.specs.Outputs.{refusal_line};
ghost use Rattle.cs_script.specs.Stores.{RunsOver, RunsOverInPart, RunsOverWatched};

use crate::outputs::print_no_store;
use crate::scripts::run_watched;
use crate::watchers::{Unwatched, Watcher};
use cs_disk::CrashDisk;
use cs_refusal::Refusal;
use cs_writeback::the_core::Core;
use std::alloc::Global;
use std::io::{Read, Write};

/// Runs a script over the store that was made or opened, or prints why there is none, and gives the exit status: that
/// of the script, 3 where there is no store, and 4 where the reader or the writer failed, the input didn't end, or a
/// line's text found no memory.
pub fn run_over<D: CrashDisk + Drop, R: Read + Drop, W: Write>(
    alloc: Global,
    store: Result<Core<D>, Refusal>,
    reader: R,
    writer: &mut W,
) -> u8
    ensures script { (text : List ℕ) → R.remaining reader ≡ Some text → result < 4 → (out : List ℕ)
        × RunsOver D.PageDisk D.can_crash D.volatile_count store text result out
        × Appends (W.contents writer.old) (W.contents writer.new) out }
    ensures refused { IfErr store (λ r. ((result ≡ 3) × Appends (W.contents writer.old) (W.contents writer.new) (refusal_line r)) ⊎ (result ≡ 4)) }
    ensures status { (result ≤ 1) ⊎ (result ≡ 3) ⊎ (result ≡ 4) }
{
    run_over_watched(alloc, store, reader, writer, &mut Unwatched)
}

/// Runs a script over the store that was made or opened, as `run_over`, and tells a watcher of its lines, as
/// `run_watched`. It isn't told why there is no store.
pub fn run_over_watched<D: CrashDisk + Drop, R: Read + Drop, W: Write, V: Watcher>(
    alloc: Global,
    store: Result<Core<D>, Refusal>,
    reader: R,
    writer: &mut W,
    watcher: &mut V,
) -> u8
    ensures watched { (text : List ℕ) → R.remaining reader ≡ Some text → result < 4 → (out : List ℕ)
        × RunsOverWatched D.PageDisk D.can_crash D.volatile_count V.meets store text watcher.old result watcher.new out
        × Appends (W.contents writer.old) (W.contents writer.new) out }
    ensures script { (text : List ℕ) → R.remaining reader ≡ Some text → result < 4 → (out : List ℕ)
        × RunsOverInPart D.PageDisk D.can_crash D.volatile_count store text result out
        × Appends (W.contents writer.old) (W.contents writer.new) out }
    ensures refused { IfErr store (λ r. ((result ≡ 3) × Appends (W.contents writer.old) (W.contents writer.new) (refusal_line r)) ⊎ (result ≡ 4)) }
    ensures status { (result ≤ 1) ⊎ (result ≡ 3) ⊎ (result ≡ 4) }
{
    match store {
        Ok(core) => run_watched(alloc, core, reader, writer, watcher).status,
        Err(refusal) => print_no_store(writer, refusal),
    }
}
