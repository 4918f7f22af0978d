//! What every event keeps.
ghost use Rattle.law_machine.specs.Device.{Shape};
ghost use Rattle.law_room.specs.Events.{Abandon, BeginSweep, Delete, Does, End, MoveOne, Open, Put, Retire, Stage};
ghost use Rattle.law_room.specs.Invariant.{Keeps};
ghost use Rattle.law_room.specs.Rooms.{Room, Root, all_pages};
ghost use Rattle.law_room.specs.Sweeps.{IsSwept};
ghost use Rattle.std.specs.Prelude.{◌≡◌, ◌≤◌, ℕ, List, None};

/// Each event, and each opening at a root that is persistent or waits, keeps the quotas, what is said of roots, and that frames
/// lie where they should.
pub fn every_event_keeps()
    ensures put { (S : Shape) (J : ℕ) (s t : Room) (id : ℕ) (sizes : List ℕ) → Keeps S J s
        → Does S J s (Put id sizes) t → Keeps S J t }
    ensures delete { (S : Shape) (J : ℕ) (s t : Room) (id : ℕ) → Keeps S J s → Does S J s (Delete id) t → Keeps S J t }
    ensures stage { (S : Shape) (J : ℕ) (s t : Room) (newest pages all : ℕ) → 1 ≤ J → Keeps S J s
        → Does S J s (Stage newest pages all) t → Keeps S J t }
    ensures begin_sweep { (S : Shape) (J : ℕ) (s t : Room) (e : ℕ) → Keeps S J s → Does S J s (BeginSweep e) t
        → Keeps S J t }
    ensures move_one { (S : Shape) (J : ℕ) (s t : Room) → Keeps S J s → Does S J s MoveOne t → Keeps S J t }
    ensures retire { (S : Shape) (J : ℕ) (s t : Room) (newest pages all : ℕ) → 1 ≤ J → Keeps S J s
        → Does S J s (Retire newest pages all) t → Keeps S J t }
    ensures abandon { (S : Shape) (J : ℕ) (s t : Room) → Keeps S J s → Does S J s Abandon t → Keeps S J t }
    ensures end_of_round { (S : Shape) (J : ℕ) (s t : Room) (waiting : ℕ) → Keeps S J s → Does S J s (End waiting) t
        → Keeps S J t }
    ensures opening { (S : Shape) (J : ℕ) (s t : Room) (r : Root) (found : ℕ → ℕ) → Keeps S J s
        → Does S J s (Open r found) t → Keeps S J t }
{}

/// A Stage changes nothing of what lives, and nothing of a sweep; and a sweep loses nothing of what lives.
pub fn what_lives_goes_on_living()
    ensures stage { (S : Shape) (J : ℕ) (s t : Room) (newest pages all : ℕ) → Does S J s (Stage newest pages all) t
        → (t.chunks ≡ s.chunks) × (t.sweep ≡ s.sweep) }
    ensures sweep { (S : Shape) (J : ℕ) (s t : Room) (e : ℕ) → 1 ≤ J → Keeps S J s → IsSwept S J s e t
        → (all_pages t.chunks ≡ all_pages s.chunks) × (t.sweep ≡ None) }
{}
