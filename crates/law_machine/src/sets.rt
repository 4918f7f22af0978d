//! Closed sets of elements, rounds, and what a crash leaves of them.
ghost use Rattle.law_machine.specs.Cut.{Closed, Cut, Needs, Within, satisfied};
ghost use Rattle.law_machine.specs.Device.{IsShape, Page, Place, Shape};
ghost use Rattle.law_machine.specs.Disk.{InPlace, applied, image_of, kept_of, page_writes};
ghost use Rattle.law_machine.specs.Element.{Element, Log, Opening, Root, log_of};
ghost use Rattle.law_machine.specs.Formats.{Formats, image};
ghost use Rattle.law_machine.specs.Guard.{Guarded, Intact, Needed};
ghost use Rattle.law_machine.specs.Lists.{◌∈◌};
ghost use Rattle.law_machine.specs.Machine.{Move, World, happens};
ghost use Rattle.law_machine.specs.Recovery.{RootGives};
ghost use Rattle.law_machine.specs.Round.{IsMember, IsRound, NothingWaits};
ghost use Rattle.law_machine.specs.Safe.{Allowed, Safe};
ghost use Rattle.law_machine.specs.Sound.{Sound};
ghost use Rattle.law_machine.specs.State.{State};
ghost use Rattle.std.specs.Prelude.{true, ◌≡◌, ◌↔◌, ℕ, Bool, List};

/// A closed set's image has all that its root covers, just as it was staged; the set's own superblock has each such
/// place below the pointer and in that generation.
pub fn closed_sets_are_intact()
    ensures { (S : Shape) (log : Log) (opened : ℕ → Page) (X : Cut) (r : Root) (place : Place)
        → Closed S log X → r ∈ log.roots → r.version ≡ X.root
        → Needed S log r (S.extent place.page) → Guarded S log r place → Intact S log opened X place r }
{}

/// Every set between the persistent one and the round that is out is closed.
pub fn rounds_are_closed()
    ensures { (S : Shape) (F : Formats) (opening : Opening) (opened : ℕ → Page) (w : World) (X : Cut)
        → IsShape S → Safe S (RootGives S F opening) opening.frozen opened w → Within w.persistent X
        → Within X w.round → Closed S (log_of w.elements) X }
{}

/// Whatever of the issued writes a crash keeps, it leaves the image of a set between the persistent one and the round.
pub fn crashes_leave_sets()
    ensures { (S : Shape) (F : Formats) (opening : Opening) (opened : ℕ → Page) (w : World) (issued : List Element)
        (mask : List Bool)
        → IsShape S → Safe S (RootGives S F opening) opening.frozen opened w
        → ((member : Element) → member ∈ issued → IsMember S w member)
        → (X : Cut) × (Within w.persistent X) × (Within X w.round)
        × ((p : ℕ) → applied (image S F w.persistent opened (log_of w.elements))
        (kept_of mask (page_writes S F issued)) p ≡ image S F X opened (log_of w.elements) p) }
{}

/// No element is ready exactly where none waits.
pub fn nothing_ready_is_nothing_waits()
    ensures { (S : Shape) (F : Formats) (s : State) → Sound S F s → IsRound S s.world s.world.persistent
        ↔ NothingWaits s.world }
{}

/// The image of a set is the same whether the elements stand in one list, in the order of staging, or in one of each
/// family.
pub fn one_list_of_elements()
    ensures { (S : Shape) (F : Formats) (X : Cut) (opened : ℕ → Page) (p : ℕ) (elements : List Element)
        → IsShape S → ((element : Element) → element ∈ elements → InPlace S element)
        → image_of S F X opened elements p ≡ image S F X opened (log_of elements) p }
{}

/// In a closed set every need of what it has is satisfied.
pub fn needs_are_met_in_closed_sets()
    ensures { (S : Shape) (elements : List Element) (X : Cut) (element need : Element) → Closed S (log_of elements) X
        → element ∈ elements → need ∈ elements → satisfied X element ≡ true → Needs S element need
        → satisfied X need ≡ true }
{}

/// Every move that may come keeps a world safe.
pub fn every_move_keeps()
    ensures { (S : Shape) (F : Formats) (opening : Opening) (opened : ℕ → Page) (w : World) (move : Move) → IsShape S
        → Allowed S (RootGives S F opening) opening.frozen opened w move
        → Safe S (RootGives S F opening) opening.frozen opened w
        → Safe S (RootGives S F opening) opening.frozen opened (happens S w move) }
{}
