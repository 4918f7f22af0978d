//! Where frames go, and what an append does.
ghost use Rattle.law_machine.specs.Append.{Append, AppendAll, AppendAllBy, AppendBy, AppendsChunks, AppendsChunksBy, AppendsFrame, AppendsFrameBy, appended, appended_by, page_counts};
ghost use Rattle.law_machine.specs.Device.{IsShape, Page, Shape};
ghost use Rattle.law_machine.specs.Element.{Locator};
ghost use Rattle.law_machine.specs.Events.{ReadsNow, newest_page};
ghost use Rattle.law_machine.specs.Extents.{Extents, Fits, FitsBy, Goes, NoPlace, Placed, Purpose, taken, taken_by};
ghost use Rattle.law_machine.specs.Formats.{Formats, FrameKind, is_long_frame};
ghost use Rattle.law_machine.specs.Frames.{AreLong, IsFormat};
ghost use Rattle.law_machine.specs.Index.{Chunks};
ghost use Rattle.law_machine.specs.Lists.{with};
ghost use Rattle.law_machine.specs.Machine.{PastGreatest, World};
ghost use Rattle.law_machine.specs.Refusal.{Refusal};
ghost use Rattle.law_machine.specs.Sound.{Sound};
ghost use Rattle.law_machine.specs.State.{State};
ghost use Rattle.std.specs.Prelude.{suc, ◌⊎◌, ◌≡◌, ◌≢◌, ◌↔◌, ◌≤◌, ◌<◌, ◌+◌, ℕ, Bool, true, List, Some, length};

/// A frame of so many pages goes to one extent alone.
pub fn a_frame_goes_to_one_extent()
    ensures { (S : Shape) (x : Extents) (purpose : Purpose) (pages d e : ℕ) → Placed S x purpose pages d
        → Placed S x purpose pages e → d ≡ e }
{}

/// An append gives one locator and one world.
pub fn appends_are_deterministic()
    ensures { (S : Shape) (w v u : World) (purpose : Purpose) (bs : List Page) (l other : Locator)
        → Append S w purpose bs l v → Append S w purpose bs other u → (l ≡ other) × (v ≡ u) }
{}

/// What an append does to the extents: one pointer rises, and its extent is open where it isn't full. It takes a number
/// for each page and one version of the extent's section, and leaves the root and what is persistent as they are.
pub fn an_append_takes_pages()
    ensures extents { (S : Shape) (w : World) (e need : ℕ) (bs : List Page) → IsShape S → e < S.extents
        → w.extents.pointer e + length bs ≤ S.pages
        → (appended S w e need bs).extents ≡ taken S w.extents e (length bs) }
    // The last number of a plain write rises by the number of pages, and the last version of the extent's section by one.
    ensures numbers { (S : Shape) (w : World) (e need : ℕ) (bs : List Page) → IsShape S
        → ((appended S w e need bs).written ≡ w.written + length bs)
        × ((appended S w e need bs).superblocks
        ≡ with w.superblocks (S.section e) (suc (w.superblocks (S.section e))))
        × ((appended S w e need bs).root ≡ w.root)
        × ((appended S w e need bs).persistent ≡ w.persistent) × ((appended S w e need bs).round ≡ w.round) }
{}

/// Frames fit by their numbers of pages exactly where they can be appended one after another.
pub fn frames_fit_where_they_can_be_appended()
    ensures { (S : Shape) (w : World) (purpose : Purpose) (frames : List (List Page)) → IsShape S
        → Fits S w.extents purpose (page_counts frames)
        ↔ ((ls : List Locator) × (v : World) × AppendAll S w purpose frames ls v) }
{}

/// A frame can be appended, or the extents are full for it.
pub fn a_frame_is_appended_or_the_extents_are_full()
    ensures { (S : Shape) (w : World) (purpose : Purpose) (bs : List Page)
        → ((l : Locator) × (v : World) × Append S w purpose bs l v) ⊎ NoPlace S w.extents purpose (length bs) }
{}

/// A frame that is appended is read where it begins if it is long enough for what it holds. What was read before is read
/// as before, and the state stays sound. The chunks of a put are read in their order.
pub fn what_is_appended_is_read()
    // The state is sound where no number is past its greatest after the append, which all four clauses ask for.
    ensures sound { (S : Shape) (F : Formats) (s t : State) (purpose : Purpose) (kind : FrameKind)
        (payload : List ℕ) (l : Locator)
        → IsShape S → IsFormat S F → Sound S F s → (PastGreatest S t.world → ⊥)
        → AppendsFrame S F s purpose kind payload l t → Sound S F t }
    ensures frame { (S : Shape) (F : Formats) (s t : State) (purpose : Purpose) (kind : FrameKind)
        (payload : List ℕ) (l : Locator)
        → IsShape S → IsFormat S F → Sound S F s → (PastGreatest S t.world → ⊥)
        → is_long_frame F (F.frame kind payload) ≡ true
        → AppendsFrame S F s purpose kind payload l t → ReadsNow S F t l kind payload }
    // A frame that was read at a locator before is read there as before.
    ensures before { (S : Shape) (F : Formats) (s t : State) (purpose : Purpose) (kind old_kind : FrameKind)
        (payload old_payload : List ℕ) (l old : Locator)
        → IsShape S → IsFormat S F → Sound S F s → (PastGreatest S t.world → ⊥)
        → AppendsFrame S F s purpose kind payload l t → ReadsNow S F s old old_kind old_payload
        → ReadsNow S F t old old_kind old_payload }
    ensures chunks { (S : Shape) (F : Formats) (s t : State) (chunks : List (List ℕ)) (ls : List Locator)
        → IsShape S → IsFormat S F → Sound S F s → (PastGreatest S t.world → ⊥) → AreLong S F chunks
        → AppendsChunks S F s chunks ls t
        → Chunks S F t.opening (newest_page t) t.world.extents.pointer t.world.extents.generation ls chunks }
{}

/// So it is by either rule, that of chunks and runs on one extent and that of chunks and runs apart.
pub fn appends_by_either_rule()
    // A frame goes to one extent alone, and is appended in one way.
    ensures one_extent { (S : Shape) (apart : Bool) (x : Extents) (purpose : Purpose) (pages d e : ℕ)
        → Goes S apart x purpose pages d → Goes S apart x purpose pages e → d ≡ e }
    ensures one_way { (S : Shape) (apart : Bool) (w v u : World) (purpose : Purpose) (bs : List Page) (l other : Locator)
        → AppendBy S apart w purpose bs l v → AppendBy S apart w purpose bs other u → (l ≡ other) × (v ≡ u) }
    // It is appended, or goes nowhere.
    ensures or_full { (S : Shape) (apart : Bool) (w : World) (purpose : Purpose) (bs : List Page)
        → ((l : Locator) × (v : World) × AppendBy S apart w purpose bs l v)
        ⊎ ((e : ℕ) → Goes S apart w.extents purpose (length bs) e → ⊥) }
    // It fits on its extent, of which it takes its pages.
    ensures inside { (S : Shape) (apart : Bool) (x : Extents) (purpose : Purpose) (pages e : ℕ)
        → Goes S apart x purpose pages e → (e < S.extents) × (x.pointer e + pages ≤ S.pages) }
    ensures extents { (S : Shape) (apart : Bool) (purpose : Purpose) (w : World) (e need : ℕ) (bs : List Page) → IsShape S
        → e < S.extents → w.extents.pointer e + length bs ≤ S.pages
        → (appended_by S apart purpose w e need bs).extents ≡ taken_by S apart purpose w.extents e (length bs) }
    // Frames fit by their numbers of pages exactly where they can be appended one after another.
    ensures fit { (S : Shape) (apart : Bool) (w : World) (purpose : Purpose) (frames : List (List Page)) → IsShape S
        → FitsBy S apart w.extents purpose (page_counts frames)
        ↔ ((ls : List Locator) × (v : World) × AppendAllBy S apart w purpose frames ls v) }
{}

/// So is a frame read that is appended by either rule, that of chunks and runs apart where the shape has it.
pub fn what_is_appended_by_either_rule_is_read()
    ensures sound { (S : Shape) (F : Formats) (apart : Bool) (s t : State) (purpose : Purpose) (kind : FrameKind)
        (payload : List ℕ) (l : Locator) → (apart ≡ true → S.apart ≡ true)
        → IsShape S → IsFormat S F → Sound S F s → (PastGreatest S t.world → ⊥)
        → AppendsFrameBy S F apart s purpose kind payload l t → Sound S F t }
    ensures frame { (S : Shape) (F : Formats) (apart : Bool) (s t : State) (purpose : Purpose) (kind : FrameKind)
        (payload : List ℕ) (l : Locator) → (apart ≡ true → S.apart ≡ true)
        → IsShape S → IsFormat S F → Sound S F s → (PastGreatest S t.world → ⊥)
        → is_long_frame F (F.frame kind payload) ≡ true
        → AppendsFrameBy S F apart s purpose kind payload l t → ReadsNow S F t l kind payload }
    ensures before { (S : Shape) (F : Formats) (apart : Bool) (s t : State) (purpose : Purpose) (kind old_kind : FrameKind)
        (payload old_payload : List ℕ) (l old : Locator) → (apart ≡ true → S.apart ≡ true)
        → IsShape S → IsFormat S F → Sound S F s → (PastGreatest S t.world → ⊥)
        → AppendsFrameBy S F apart s purpose kind payload l t → ReadsNow S F s old old_kind old_payload
        → ReadsNow S F t old old_kind old_payload }
    ensures chunks { (S : Shape) (F : Formats) (apart : Bool) (s t : State) (chunks : List (List ℕ)) (ls : List Locator)
        → (apart ≡ true → S.apart ≡ true)
        → IsShape S → IsFormat S F → Sound S F s → (PastGreatest S t.world → ⊥) → AreLong S F chunks
        → AppendsChunksBy S F apart s chunks ls t
        → Chunks S F t.opening (newest_page t) t.world.extents.pointer t.world.extents.generation ls chunks }
    // No chunk that is appended is one that was damaged at open.
    ensures undamaged { (S : Shape) (F : Formats) (apart : Bool) (s t : State) (purpose : Purpose) (kind : FrameKind)
        (payload : List ℕ) (l : Locator) (f : Refusal) → (apart ≡ true → S.apart ≡ true) → Sound S F s
        → AppendsFrameBy S F apart s purpose kind payload l t → s.opening.damage l ≢ Some f }
{}
