//! What every event keeps, and the map that a crash leaves.
ghost use Rattle.law_machine.specs.Checkpoint.{AtRest, LegalFrom};
ghost use Rattle.law_machine.specs.Device.{IsShape, Page, Place, Shape};
ghost use Rattle.law_machine.specs.Element.{A_write, Map, Root, Write, roots_of};
ghost use Rattle.law_machine.specs.Events.{IsFrontier};
ghost use Rattle.law_machine.specs.Formats.{Formats};
ghost use Rattle.law_machine.specs.Frames.{IsFormat};
ghost use Rattle.law_machine.specs.Guard.{Covers};
ghost use Rattle.law_machine.specs.Lists.{◌∈◌};
ghost use Rattle.law_machine.specs.Open.{opened_state};
ghost use Rattle.law_machine.specs.Recovery.{Recovers};
ghost use Rattle.law_machine.specs.Round.{IsMember};
ghost use Rattle.law_machine.specs.Sound.{Bounded, GivesFirst, LeavesPrefix, Sound, crashed};
ghost use Rattle.law_machine.specs.State.{Event, Reply, State};
ghost use Rattle.law_machine.specs.Step.{History, Step};
ghost use Rattle.law_machine.specs.Torn.{LeavesPrefixTorn, TornFrom};
ghost use Rattle.std.specs.Prelude.{◌≡◌, ◌≢◌, ◌≤◌, ◌↔◌, ◌+◌, [], ℕ, Bool, List, length};

/// Every event keeps a state sound.
pub fn every_event_keeps()
    ensures { (S : Shape) (F : Formats) (s t : State) (event : Event) (reply : Reply)
        → IsShape S → IsFormat S F → Sound S F s → Bounded S F s → Step S F s event reply t → Sound S F t
        × Bounded S F t }
{}

/// A crash of a sound state leaves the map after some commands, no fewer than the frontier's.
pub fn a_crash_leaves_a_prefix()
    ensures { (S : Shape) (F : Formats) (s : State) (mask : List Bool)
        → IsShape S → IsFormat S F → Sound S F s → LeavesPrefix S F s mask }
{}

/// A crash during an event leaves what one before it or after it leaves.
pub fn any_moment_of_an_event()
    ensures { (S : Shape) (F : Formats) (s t : State) (event : Event) (reply : Reply) (mask : List Bool)
        → IsShape S → IsFormat S F → Sound S F s → Bounded S F s → Step S F s event reply t
        → LeavesPrefix S F s mask × LeavesPrefix S F t mask }
{}

/// A store that is opened on an image that gives a map starts sound, and so do all histories from there end.
pub fn every_history_is_safe()
    // The state at open is sound, and its numbers keep to their bounds.
    ensures sound { (S : Shape) (F : Formats) (img : ℕ → Page) (n : ℕ) (m : Map) (gives : Recovers S F img n m)
        → IsShape S → Sound S F (opened_state S F img n m gives) × Bounded S F (opened_state S F img n m gives) }
    // A crash after any history from there leaves the map after some commands, no fewer than the frontier's.
    ensures prefix { (S : Shape) (F : Formats) (img : ℕ → Page) (n : ℕ) (m : Map) (gives : Recovers S F img n m)
        (history : List (Event × Reply)) (t : State) (mask : List Bool)
        → IsShape S → IsFormat S F → History S F (opened_state S F img n m gives) history t
        → LeavesPrefix S F t mask }
{}

/// What a crash makes of the pages of frames that are being written isn't read: no root that it may leave names one of them.
pub fn torn_pages_are_not_read()
    // Neither the persistent root nor a newer one of the round that is out names a page that the round writes.
    ensures named { (S : Shape) (F : Formats) (s : State) (root : Root) (place : Place) (write : Write) → Sound S F s
        → root ∈ roots_of s.world.elements → s.world.persistent.root ≤ root.version
        → root.version ≤ s.world.round.root → Covers S root place
        → IsMember S s.world (A_write write) → write.page ≢ place.page }
    // So an image on which they are torn gives the map after the first commands exactly where the image does that has them whole.
    ensures same { (S : Shape) (F : Formats) (s : State) (mask : List Bool) (img : ℕ → Page) (n : ℕ)
        → IsShape S → IsFormat S F → Sound S F s → TornFrom S F s mask img
        → GivesFirst S F s img n ↔ GivesFirst S F s (crashed S F s mask) n }
{}

/// A crash that tears pages of frames leaves the map after some commands, no fewer than the frontier's, as one does that tears none.
pub fn a_crash_that_tears_leaves_a_prefix()
    // In each sound state.
    ensures state { (S : Shape) (F : Formats) (s : State) (mask : List Bool)
        → IsShape S → IsFormat S F → Sound S F s → LeavesPrefixTorn S F s mask }
    // At any moment of an event.
    ensures moment { (S : Shape) (F : Formats) (s t : State) (event : Event) (reply : Reply) (mask : List Bool)
        → IsShape S → IsFormat S F → Sound S F s → Bounded S F s → Step S F s event reply t
        → LeavesPrefixTorn S F s mask × LeavesPrefixTorn S F t mask }
    // After any history of a store that was opened on an image that gives a map.
    ensures history { (S : Shape) (F : Formats) (img : ℕ → Page) (n : ℕ) (m : Map) (gives : Recovers S F img n m)
        (history : List (Event × Reply)) (t : State) (mask : List Bool)
        → IsShape S → IsFormat S F → History S F (opened_state S F img n m gives) history t
        → LeavesPrefixTorn S F t mask }
{}

/// A history that is kept from a checkpoint on is as safe as a whole one, and a checkpoint comes where all commands are
/// persistent.
pub fn checkpoints_are_safe()
    // A crash after a history that is kept so leaves the map after some commands, no fewer than the frontier's.
    ensures prefix { (S : Shape) (F : Formats) (img : ℕ → Page) (n : ℕ) (m : Map)
        (gives : Recovers S F img n m) (base : ℕ)
        (history : List (Event × Reply)) (t : State) (mask : List Bool)
        → IsShape S → IsFormat S F → LegalFrom S F (opened_state S F img n m gives) base history t
        → LeavesPrefix S F t mask }
    // Where a sound state is at rest the frontier is all commands.
    ensures frontier { (S : Shape) (F : Formats) (s : State) (frontier : ℕ) → Sound S F s → AtRest s
        → IsFrontier S F s frontier → frontier ≡ length s.commands }
    // From a state at rest a history can be kept anew: all events up to it are replaced.
    ensures again { (S : Shape) (F : Formats) (opened s t : State) (base : ℕ) (history : List (Event × Reply))
        → LegalFrom S F opened base history s → AtRest s → LegalFrom S F opened (base + length history) [] s }
{}
