//! Rounds of writeback, why they are refused, and what the disk holds meanwhile.
ghost use Rattle.std.specs.Prelude.{◌≡◌, ◌≢◌, ◌⊎◌, ◌↔◌, ◌<◌, ℕ, suc, true, false, Bool, List, [], Some, None, length, map, slice_get};
ghost use Rattle.cs_deps.specs.declared.elements.Element.{Element as Name};
ghost use Rattle.cs_deps.specs.State.{IsWhole as IsWholeGraph, KeepsBytes, State as GraphState};
ghost use Rattle.cs_disk.specs.Disk.{Image, MayLeave, State as DiskState, flushed, page, seen, written};
ghost use Rattle.cs_extent.specs.State.{IsWhole, State as ExtentsState};
ghost use Rattle.cs_index.specs.State.{State as IndexState};
ghost use Rattle.law_machine.specs.Device.{Page, Shape};
ghost use Rattle.law_machine.specs.Element.{Element, Map};
ghost use Rattle.law_machine.specs.Formats.{Formats};
ghost use Rattle.law_machine.specs.Refusal.{DeviceFault, Halted, InFlight, NoRound, Refusal};
ghost use Rattle.law_machine.specs.Round.{NothingWaits};
ghost use Rattle.law_machine.specs.Sound.{Sound, crashed};
ghost use Rattle.law_machine.specs.State.{Begin, Begun, End, Ended, Event, Issue, Issued, Nothing, Refused, Reply, State, Get, Settle};
ghost use Rattle.law_machine.specs.Step.{Step};
ghost use Rattle.law_refinement.specs.Bridge.{IsPendingOf, name};
ghost use Rattle.law_refinement.specs.Devices.{IsDeviceOf, IsDiskOf};
ghost use Rattle.law_refinement.specs.Frontiers.{AreRootsOf, IsFrontierOf, Noted};
ghost use Rattle.law_refinement.specs.Parts.{ArePartsOf};
ghost use Rattle.law_refinement.specs.Rounds.{IsRoundOf, members_of, IsAllIssued, IsNextWrite, IsRunning, IsRunningOn, SettlesRound, TakesRound};
ghost use Rattle.law_refinement.specs.Machines.{IsDiskFor, StepFor, write_for};
ghost use Rattle.law_machine.specs.Grounds.{Refuses};
ghost use Rattle.law_machine.specs.Open.{opened_state};
ghost use Rattle.law_machine.specs.Recovery.{Recovers};

/// A round that is what waits at height 1 is the machine's Begin, with its members in the order of the round. Where nothing
/// waits in the graph nothing does in the machine.
pub fn begin_refines_begin()
    // The graph takes such a round, which isn't empty: the machine begins one of the same members, none of them issued.
    ensures begun { (x : ExtentsState) (g h : GraphState) (i : IndexState) (s : State) (round : List Name)
        → IsWholeGraph g → IsRunning x g i s → TakesRound g round h
        → (members : List Element) × (t : State) × (map name members ≡ round) × (t.left ≡ members) × (t.issued ≡ [])
        × StepFor x s Begin (Begun members) t × ArePartsOf x h i t × IsRoundOf h t }
    // Where nothing waits in the graph, Begin answers that there is nothing, and leaves the state.
    ensures idle { (x : ExtentsState) (g : GraphState) (i : IndexState) (s : State) → IsRunning x g i s → g.round ≡ None
        → g.staging.pending.waiting ≡ [] → StepFor x s Begin Nothing s }
    // Nothing waits in the graph exactly where nothing does in the machine.
    ensures nothing { (S : Shape) (F : Formats) (g : GraphState) (s : State) → Sound S F s → IsPendingOf S s.world g.staging.pending
        → (g.staging.pending.waiting ≡ []) ↔ NothingWaits s.world }
{}

/// A member of the round keeps its bytes. The next one that is written to the disk is the machine's Issue; a write that fails, and is among the
/// volatile ones or not, is the machine's Issue refused.
pub fn issue_refines_issue()
    ensures kept { (g : GraphState) (k : ℕ) (z : Name) → IsWholeGraph g → slice_get (members_of g.round) k ≡ Some z → KeepsBytes g z }
    // The next member is written to the disk: it is issued in the machine, and the disk is that of the state after it.
    ensures issued { (x : ExtentsState) (g : GraphState) (i : IndexState) (s : State) (disk : DiskState) (z : Name) (p : ℕ) (bytes : Page)
        → IsRunningOn x g i s disk → IsNextWrite g s z p bytes
        → (member : Element) × (t : State) × (name member ≡ z) × ((write_for x member).0 ≡ p)
        × StepFor x s Issue (Issued member) t × ArePartsOf x g i t × IsRoundOf g t × (length t.issued ≡ suc (length s.issued))
        × IsDiskFor x t (written disk p bytes) }
    // Its write fails, and the disk has it or not: Issue is refused as a device fault, which halts the machine.
    ensures failed { (x : ExtentsState) (g : GraphState) (i : IndexState) (s : State) (disk later : DiskState) (z : Name) (p : ℕ) (bytes : Page)
        → IsRunningOn x g i s disk → IsNextWrite g s z p bytes → (later ≡ disk) ⊎ (later ≡ written disk p bytes)
        → (t : State) × StepFor x s Issue (Refused DeviceFault) t × (t.halted ≡ true) × ArePartsOf x g i t × IsRoundOf g t
        × IsDiskFor x t later }
{}

/// A flush after the last of the round, and the round settled in the graph, are the machine's End, with the frontier that is
/// counted by the roots; a flush that fails is the machine's End refused.
pub fn end_refines_end()
    // After the last member the disk is flushed and the round settled: End answers the frontier that the roots count.
    ensures ended { (x : ExtentsState) (g h : GraphState) (i : IndexState) (s : State) (disk : DiskState) (round : List Name) (roots : List Noted) (n : ℕ)
        → IsWhole x → IsRunningOn x g i s disk → IsAllIssued g s round → SettlesRound g h
        → AreRootsOf roots s → IsFrontierOf h.staging roots n
        → (t : State) × StepFor x s End (Ended n) t × ArePartsOf x h i t × IsRoundOf h t × (t.issued ≡ [])
        × IsDiskFor x t (flushed disk) }
    // The flush fails, and the disk stays as it was: End is refused as a device fault, which halts the machine.
    ensures failed { (x : ExtentsState) (g : GraphState) (i : IndexState) (s : State) (disk : DiskState) (round : List Name)
        → ArePartsOf x g i s → IsRoundOf g s → s.halted ≡ false → IsAllIssued g s round → IsDiskFor x s disk
        → (t : State) × StepFor x s End (Refused DeviceFault) t × (t.halted ≡ true) × ArePartsOf x g i t × IsRoundOf g t
        × IsDiskFor x t disk }
{}

/// What the disk of a state reads as, what a crash may leave of it, and that no event but Issue and End changes it, whether it
/// is refused or not.
pub fn disk_refines_device()
    ensures reads { (S : Shape) (F : Formats) (s : State) (disk : DiskState) → IsDiskOf S F s disk → IsDeviceOf S F s (seen disk) }
    // Each page that a crash leaves reads as in what the machine's crash leaves with some mask.
    ensures crash { (S : Shape) (F : Formats) (s : State) (disk : DiskState) (left : Image) → IsDiskOf S F s disk → MayLeave disk left
        → (mask : List Bool) × ((p : ℕ) → p < length left → page left p ≡ crashed S F s mask p) }
    ensures stays { (S : Shape) (F : Formats) (s t : State) (event : Event) (reply : Reply) (disk : DiskState)
        → Sound S F s → Step S F s event reply t → event ≢ Issue → event ≢ End → IsDiskOf S F s disk → IsDiskOf S F t disk }
{}

/// Begin is refused exactly where a round is out, Issue where the round has no next member, and End where none is out or
/// fewer were issued than it has. Where a fault stopped the core all events but Get and Settle are refused.
pub fn round_refusals_agree()
    ensures begin { (S : Shape) (F : Formats) (g : GraphState) (s : State) (f : Refusal) → IsRoundOf g s → s.halted ≡ false
        → Refuses S F s Begin f ↔ ((g.round ≢ None) × (f ≡ InFlight)) }
    ensures issue { (S : Shape) (F : Formats) (g : GraphState) (s : State) (f : Refusal) → IsRoundOf g s → s.halted ≡ false
        → Refuses S F s Issue f ↔ ((slice_get (members_of g.round) (length s.issued) ≡ None) × (f ≡ NoRound)) }
    ensures end { (S : Shape) (F : Formats) (g : GraphState) (s : State) (f : Refusal) → IsRoundOf g s → s.halted ≡ false
        → Refuses S F s End f ↔ (((g.round ≡ None) ⊎ (length s.issued < length (members_of g.round))) × (f ≡ NoRound)) }
    ensures halted { (S : Shape) (F : Formats) (s : State) (event : Event) (f : Refusal) → s.halted ≡ true
        → ((id : ℕ) → event ≢ Get id) → ((n : ℕ) → event ≢ Settle n) → Refuses S F s event f ↔ (f ≡ Halted) }
{}

/// The round that is out is the same after every event but those of writeback, whether it is refused or not, where it is the
/// same in the graph. At open none is out.
pub fn rounds_stay()
    ensures stays { (S : Shape) (F : Formats) (g h : GraphState) (s t : State) (event : Event) (reply : Reply)
        → IsRoundOf g s → Step S F s event reply t → event ≢ Begin → event ≢ Issue → event ≢ End → h.round ≡ g.round → IsRoundOf h t }
    ensures opened { (S : Shape) (F : Formats) (g : GraphState) (img : ℕ → Page) (n : ℕ) (m : Map) (found : Recovers S F img n m)
        → g.round ≡ None → IsRoundOf g (opened_state S F img n m found) }
{}
