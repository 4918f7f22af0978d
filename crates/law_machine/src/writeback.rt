//! The device through a round.
ghost use Rattle.law_machine.specs.Cut.{Cut, satisfied};
ghost use Rattle.law_machine.specs.Device.{IsShape, Shape};
ghost use Rattle.law_machine.specs.Disk.{applied, page_write, page_writes, written};
ghost use Rattle.law_machine.specs.Element.{A_root, Element, Root, log_of};
ghost use Rattle.law_machine.specs.Formats.{Formats, image};
ghost use Rattle.law_machine.specs.Lists.{◌∈◌};
ghost use Rattle.law_machine.specs.Round.{IsRound, NoRootIsAwaited, NothingWaits, after_round};
ghost use Rattle.law_machine.specs.Sound.{Sound, crashed};
ghost use Rattle.law_machine.specs.State.{State};
ghost use Rattle.std.specs.Prelude.{◌≡◌, ◌≢◌, ◌++◌, ◌∷◌, [], ℕ, Bool, true, false, List, if◌then◌else◌};

/// A write that is issued leaves what a crash might have left before, with the write or without.
pub fn an_issue_adds_one_write()
    ensures { (S : Shape) (F : Formats) (s : State) (element : Element) (mask : List Bool) (kept : Bool)
        → (more : List Bool) × (crashed S F (record s { issued = s.issued ++ element ∷ [] }) more
        ≡ (if kept then written (crashed S F s mask) (page_write S F element).0
        (page_write S F element).1 else crashed S F s mask)) }
{}

/// Once all of a round is issued, a flush makes the image of what is persistent then.
pub fn a_flush_makes_the_next_image()
    ensures { (S : Shape) (F : Formats) (s : State) (p : ℕ) → IsShape S → Sound S F s → s.round_out ≡ true → s.left ≡ []
        → applied (image S F s.world.persistent s.opened (log_of s.world.elements)) (page_writes S F s.issued) p
        ≡ image S F s.world.round s.opened (log_of s.world.elements) p }
{}

/// Where page writes needn't come first, two rounds make all persistent, unless something that waits needs a root that
/// waits: a page write of an extent that was reset, or the superblock version that records the reset.
pub fn two_rounds_make_all_persistent()
    // The first takes all that isn't a root.
    ensures first { (S : Shape) (F : Formats) (s : State) (R : Cut) (element : Element) → S.pages_first ≡ false
        → Sound S F s → NoRootIsAwaited S s.world → IsRound S s.world R → element ∈ s.world.elements
        → ((root : Root) → element ≢ A_root root) → satisfied R element ≡ true }
    // The second takes the newest root.
    ensures second { (S : Shape) (F : Formats) (s : State) (R Q : Cut) → S.pages_first ≡ false → Sound S F s
        → NoRootIsAwaited S s.world → IsRound S s.world R → IsRound S (after_round S s.world R) Q
        → Q.root ≡ s.world.root }
    // Then nothing waits.
    ensures all { (S : Shape) (F : Formats) (s : State) (R Q : Cut) → S.pages_first ≡ false → Sound S F s
        → NoRootIsAwaited S s.world → IsRound S s.world R → IsRound S (after_round S s.world R) Q
        → NothingWaits (after_round S (after_round S s.world R) Q) }
{}
