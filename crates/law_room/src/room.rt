//! No event but a put is ever without a place.
ghost use Rattle.law_machine.specs.Device.{Shape};
ghost use Rattle.law_machine.specs.Lists.{◌∈◌};
ghost use Rattle.law_room.specs.Events.{AllCopied, Does, IsLeft, MoveOne, Refused30, Retire, Stage};
ghost use Rattle.law_room.specs.Invariant.{Keeps};
ghost use Rattle.law_room.specs.Rooms.{Chunk, Room, Sweep};
ghost use Rattle.std.specs.Prelude.{◌≡◌, ◌≤◌, ℕ, Some};

/// Where the invariant holds, nothing but a put is refused for want of a place, as long as one run of all fits on an extent. That a
/// deletion never is stands in the definition itself, `Refused30`: it writes no frame.
pub fn there_is_room()
    ensures stage { (S : Shape) (J : ℕ) (s : Room) (newest pages all : ℕ) → Keeps S J s → all ≤ S.pages
        → Refused30 S J s (Stage newest pages all) → ⊥ }
    ensures move_one { (S : Shape) (J : ℕ) (s : Room) → Keeps S J s → Refused30 S J s MoveOne → ⊥ }
    ensures retire { (S : Shape) (J : ℕ) (s : Room) (newest pages all : ℕ) → Keeps S J s → all ≤ S.pages
        → Refused30 S J s (Retire newest pages all) → ⊥ }
{}

/// So each of them happens: a Stage always, a MoveOne where a chunk is left on the extent that is swept, and a Retire where none is.
pub fn what_needs_a_place_happens()
    ensures stage { (S : Shape) (J : ℕ) (s : Room) (newest pages all : ℕ) → Keeps S J s → all ≤ S.pages
        → (t : Room) × Does S J s (Stage newest pages all) t }
    ensures move_one { (S : Shape) (J : ℕ) (s : Room) (w : Sweep) (c : Chunk) → Keeps S J s → s.sweep ≡ Some w
        → c ∈ s.chunks → IsLeft S w c → (t : Room) × Does S J s MoveOne t }
    ensures retire { (S : Shape) (J : ℕ) (s : Room) (w : Sweep) (newest pages all : ℕ) → Keeps S J s
        → s.sweep ≡ Some w → AllCopied S s w → all ≤ S.pages
        → (t : Room) × Does S J s (Retire newest pages all) t }
{}
