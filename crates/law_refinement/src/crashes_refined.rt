//! What a crash leaves of a store's disk.
ghost use Rattle.std.specs.Prelude.{◌≡◌, ◌≤◌, ◌++◌, ℕ, List, length};
ghost use Rattle.law_refinement.specs.Crashes.{IsPrefix, IsTornFrom, LeavesPrefixOn};
ghost use Rattle.cs_disk.specs.Disk.{Image, MayLeave, State as DiskState};
ghost use Rattle.cs_extent.specs.State.{IsWhole, State as ExtentsState, shape};
ghost use Rattle.cs_frame.specs.Formats.{formats_of};
ghost use Rattle.cs_reader.specs.ImageReads.{page_total};
ghost use Rattle.law_machine.specs.Device.{Page, Shape};
ghost use Rattle.law_machine.specs.State.{Command, State};
ghost use Rattle.law_refinement.specs.Machines.{IsDiskFor, IsFrontierFor, RecoversFor, SoundFor};

/// What a crash leaves of a store's disk has as many pages, and recovers the map after some of the commands since the
/// store was opened, no fewer than the frontier's; also where it tears pages of frames that were being written.
pub fn what_a_crash_leaves_recovers()
    ensures size { (disk : DiskState) (left : Image) → MayLeave disk left → length left ≡ length disk.durable }
    // In the words of the state: by what is known at open, and by the image itself where no shard was damaged at open.
    ensures left { (x : ExtentsState) (s : State) (disk : DiskState) (left : Image) → IsWhole x → SoundFor x s → IsDiskFor x s disk
        → length disk.durable ≡ page_total (shape x) → MayLeave disk left
        → LeavesPrefixOn (shape x) (formats_of (shape x)) s left }
    // In the words of the image at open, where what that recovers is the start of the state.
    ensures prefix { (x : ExtentsState) (s : State) (disk : DiskState) (left : Image) (frontier : ℕ)
        → IsWhole x → SoundFor x s → IsDiskFor x s disk → length disk.durable ≡ page_total (shape x) → MayLeave disk left
        → RecoversFor x s.opened s.count s.start → IsFrontierFor x s frontier
        → IsPrefix (shape x) s.opened s.commands frontier (length s.commands) left }
    // In the words of the state, where the crash tears pages of frames to which writes weren't flushed.
    ensures torn { (x : ExtentsState) (s : State) (disk : DiskState) (left image : Image)
        → IsWhole x → SoundFor x s → IsDiskFor x s disk
        → length disk.durable ≡ page_total (shape x) → MayLeave disk left → IsTornFrom (shape x) disk left image
        → LeavesPrefixOn (shape x) (formats_of (shape x)) s image }
    // In the words of the image at open, where it does so.
    ensures torn_prefix { (x : ExtentsState) (s : State) (disk : DiskState) (left image : Image) (frontier : ℕ)
        → IsWhole x → SoundFor x s → IsDiskFor x s disk
        → length disk.durable ≡ page_total (shape x) → MayLeave disk left → IsTornFrom (shape x) disk left image
        → RecoversFor x s.opened s.count s.start → IsFrontierFor x s frontier
        → IsPrefix (shape x) s.opened s.commands frontier (length s.commands) image }
    // What lies between two numbers of commands lies between two that are further apart.
    ensures wider { (S : Shape) (opened : ℕ → Page) (commands : List Command) (least most low high : ℕ) (left : Image)
        → low ≤ least → most ≤ high → IsPrefix S opened commands least most left
        → IsPrefix S opened commands low high left }
    // What gives one of these maps still does as commands are added.
    ensures later { (S : Shape) (opened : ℕ → Page) (more commands : List Command) (least most : ℕ) (left : Image)
        → most ≤ length commands → IsPrefix S opened commands least most left
        → IsPrefix S opened (more ++ commands) least most left }
{}
