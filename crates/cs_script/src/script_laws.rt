//! Laws of scripts. The functions do nothing; their contracts are the laws.
ghost use Rattle.std.specs.Prelude.{◌≡◌, ℕ, List, Option};
ghost use Rattle.cs_refusal.specs.declared.refusals.Refusal.{Refusal};
ghost use Rattle.cs_writeback.specs.cs_core.Views.{View};
ghost use Rattle.cs_writeback.specs.Syncs.{MayRefuseSync};
ghost use Rattle.cs_script.specs.Scripts.{PrintsStop, Runs};
ghost use Rattle.cs_script.specs.Watched.{EndsStrictly, RunsInPart, RunsWatched};
ghost use Rattle.cs_script.specs.declared.watchers.LineFault.{LineFault};
ghost use Rattle.cs_script.specs.declared.watchers.Onward.{Onward};
ghost use Rattle.cs_script.specs.declared.watchers.Onward.TheVariants.{GoOn, Stop};

use crate::watchers::Watcher;
use cs_disk::{CrashDisk, PageDisk};

/// Whatever its disk does, a line `sync` is refused 1 DeviceFault, 9 OutOfMemory, 30 Full, 35 WornOut or 40 Halted, and
/// nothing else: the events that it asks for are due, so it is never refused 5 InFlight, 41 HistoryFull or 42 NoRound.
pub fn a_sync_line_is_never_out_of_turn<D: PageDisk>()
    ensures { (old new : View D) (r : Refusal) (before : List ℕ) → PrintsStop D.PageDisk old new r before → MayRefuseSync r }
{}

/// What a script with a watcher does and prints is what its first lines do and print without one; and all of its lines,
/// with the same status, where the watcher never ends it.
pub fn a_watched_script_is_a_script<D: CrashDisk, V: Watcher>()
    ensures part { (text : List ℕ) (core : View D) (watcher : V) (left : Option (View D)) (status : ℕ) (told : V) (out : List ℕ)
        → RunsWatched D.PageDisk D.can_crash D.volatile_count V.meets text 1 core 0 watcher left status told out
        → RunsInPart D.PageDisk D.can_crash D.volatile_count text core left status out }
    ensures all { ((before after : V) (number : ℕ) (line : List ℕ) (found : LineFault) (onward : Onward) → V.meets before number line found onward after → onward ≡ GoOn)
        → (text : List ℕ) (core : View D) (watcher : V) (left : Option (View D)) (status : ℕ) (told : V) (out : List ℕ)
        → RunsWatched D.PageDisk D.can_crash D.volatile_count V.meets text 1 core 0 watcher left status told out
        → Runs D.PageDisk D.can_crash D.volatile_count text core 0 left status out }
{}

/// A script that its watcher ends at each line that is refused or can't be read, as `run --strict` does, ends with
/// status 0 only if each line was taken, and with 1 only at the first line that wasn't.
pub fn a_strict_script_takes_each_line<D: CrashDisk, V: Watcher>()
    ensures { (text : List ℕ) (core : View D) (watcher : V) (left : Option (View D)) (status : ℕ) (told : V) (out : List ℕ)
        → ((number : ℕ) (line : List ℕ) (found : LineFault) (onward : Onward) (after : V) → V.meets watcher number line found onward after → onward ≡ Stop)
        → RunsWatched D.PageDisk D.can_crash D.volatile_count V.meets text 1 core 0 watcher left status told out
        → EndsStrictly D.PageDisk D.can_crash D.volatile_count text core left status out }
{}
