//! What a store finds on an image, and what stays of it.
ghost use Rattle.law_machine.specs.Apart.{Grows, IsFreed};
ghost use Rattle.law_machine.specs.Append.{AppendsFrame, appended};
ghost use Rattle.law_machine.specs.Device.{Inside, IsShape, Page, Place, Shape, is_meant};
ghost use Rattle.law_machine.specs.Element.{A_write, Locator, Map, Opening, Root, Write, roots_of, writes_of};
ghost use Rattle.law_machine.specs.Events.{newest_page};
ghost use Rattle.law_machine.specs.Extents.{Purpose, reach};
ghost use Rattle.law_machine.specs.Format.{Format};
ghost use Rattle.law_machine.specs.Formats.{ChunkFrame, Formats, FrameKind, Stand, fault_for, is_long_frame, pages_from};
ghost use Rattle.law_machine.specs.Frames.{IsFormat, IsFrameFormat};
ghost use Rattle.law_machine.specs.Guard.{Covers};
ghost use Rattle.law_machine.specs.Index.{Passes, Reads};
ghost use Rattle.law_machine.specs.Lists.{◌∈◌};
ghost use Rattle.law_machine.specs.Geometry.{IsGeometry, shape_of};
ghost use Rattle.law_machine.specs.Local.{AgreeBelow, LiesBelow};
ghost use Rattle.law_machine.specs.Meant.{Mark};
ghost use Rattle.law_machine.specs.Open.{opened_state, state_read};
ghost use Rattle.law_machine.specs.Recovery.{IsNew, Recovers, RecoversBut};
ghost use Rattle.law_machine.specs.Refusal.{BadLength, Misplaced, Refusal};
ghost use Rattle.law_machine.specs.Round.{IsMember};
ghost use Rattle.law_machine.specs.Sound.{Sound};
ghost use Rattle.law_machine.specs.State.{Event, Reply, State};
ghost use Rattle.law_machine.specs.Stays.{IsEmptied, KeepsPages};
ghost use Rattle.law_machine.specs.Step.{Step};
ghost use Rattle.std.specs.Prelude.{◌≡◌, ◌≢◌, ◌⊎◌, ◌-◌, Some, ◌+◌, ◌*◌, ◌<◌, ◌≤◌, ℕ, true, false, List, None, length};

/// An image gives one number of commands and one map.
pub fn an_image_gives_one_map()
    ensures { (S : Shape) (F : Formats) (img : ℕ → Page) (n k : ℕ) (m o : Map) → IsShape S → IsFormat S F
        → Recovers S F img n m → Recovers S F img k o → (n ≡ k) × ((id : ℕ) → m id ≡ o id) }
{}

/// A store that is made gives no command and no shard.
pub fn a_new_store_is_empty()
    ensures { (S : Shape) (F : Formats) (img : ℕ → Page) → IsNew S F img → Recovers S F img 0 (λ id. None) }
{}

/// What stands at a place is the frame of one payload, where the first page tells the payload's length.
pub fn frames_tell_their_payload()
    ensures { (S : Shape) (F : Formats) (img : ℕ → Page) (e i : ℕ) (kind : FrameKind) (payload other : List ℕ)
        → IsFrameFormat F.frame S.pages
        → length (F.frame kind payload) ≤ S.pages → length (F.frame kind other) ≤ S.pages
        → Stand S F img e i (F.frame kind payload) → Stand S F img e i (F.frame kind other) → payload ≡ other }
{}

/// If a whole frame stands at a place, a locator of it is refused 26 if it means another frame. Else it is refused 22 if
/// the frame is too short for what it holds, and else it isn't refused.
pub fn what_is_refused_of_a_frame()
    ensures another { (S : Shape) (F : Formats) (img : ℕ → Page) (e i count : ℕ) (kind : FrameKind) (payload : List ℕ) (m : Mark)
        → IsFormat S F → length (F.frame kind payload) ≤ count → i + count ≤ S.pages
        → Stand S F img e i (F.frame kind payload) → is_meant S m (F.frame kind payload) ≡ false
        → fault_for S F kind m (pages_from S F img e i count) ≡ Some Misplaced }
    ensures short { (S : Shape) (F : Formats) (img : ℕ → Page) (e i count : ℕ) (kind : FrameKind) (payload : List ℕ) (m : Mark)
        → IsFormat S F → length (F.frame kind payload) ≤ count → i + count ≤ S.pages
        → Stand S F img e i (F.frame kind payload) → is_meant S m (F.frame kind payload) ≡ true
        → is_long_frame F (F.frame kind payload) ≡ false → fault_for S F kind m (pages_from S F img e i count) ≡ Some BadLength }
    ensures none { (S : Shape) (F : Formats) (img : ℕ → Page) (e i count : ℕ) (kind : FrameKind) (payload : List ℕ) (m : Mark)
        → IsFormat S F → length (F.frame kind payload) ≤ count → i + count ≤ S.pages
        → Stand S F img e i (F.frame kind payload) → is_meant S m (F.frame kind payload) ≡ true
        → is_long_frame F (F.frame kind payload) ≡ true → fault_for S F kind m (pages_from S F img e i count) ≡ None }
{}

/// A page that was found in an extent at open holds what it held then until the extent is reset. So a chunk that was damaged at open is
/// read with the same refusal as long as its locator passes, and no chunk that is appended is a damaged one.
pub fn what_was_there_at_open_stays()
    ensures pages { (S : Shape) (F : Formats) (s : State) (e i : ℕ) → IsShape S → Sound S F s
        → s.opening.frozen e i (s.world.extents.generation e) ≡ true → Inside S e i
        → newest_page s (S.address e i) ≡ s.opened (S.address e i) }
    ensures damage { (S : Shape) (F : Formats) (s : State) (l : Locator) (f : Refusal) → IsShape S → Sound S F s
        → s.opening.damage l ≡ Some f
        → Passes S F (newest_page s) s.world.extents.pointer s.world.extents.generation l
        → fault_for S F ChunkFrame l.mark (pages_from S F (newest_page s) l.extent l.page
        (reach S (s.world.extents.found l.extent) l.page - l.page)) ≡ Some f }
    // Nor does a frame reach from among the pages that were found past their end.
    ensures within { (S : Shape) (F : Formats) (s : State) (l : Locator) (bs : List Page) → Sound S F s
        → Reads S F s.opening (newest_page s) s.world.extents.pointer s.world.extents.generation l bs
        → l.page + length bs ≤ reach S (s.world.extents.found l.extent) l.page }
    ensures appended { (S : Shape) (F : Formats) (s t : State) (purpose : Purpose) (kind : FrameKind)
        (payload : List ℕ) (l : Locator)
        (f : Refusal) → IsShape S → Sound S F s
        → AppendsFrame S F s purpose kind payload l t → s.opening.damage l ≢ Some f }
{}

/// A page that the persistent root names is written in no round: each write to it is persistent already, or needs a later root, under
/// which its extent was reset. So an extent may be filled up behind the pages that are named.
pub fn named_pages_are_not_written()
    ensures writes { (S : Shape) (F : Formats) (s : State) (root : Root) (place : Place) (write : Write) → Sound S F s
        → root ∈ roots_of s.world.elements → root.version ≡ s.world.persistent.root → Covers S root place
        → write ∈ writes_of s.world.elements → write.page ≡ place.page
        → (s.world.persistent.writes write.number ≡ true) ⊎ (root.version < write.root) }
    ensures round { (S : Shape) (F : Formats) (s : State) (root : Root) (place : Place) (write : Write) → Sound S F s
        → root ∈ roots_of s.world.elements → root.version ≡ s.world.persistent.root → Covers S root place
        → IsMember S s.world (A_write write) → write.page ≢ place.page }
    // Where extents are filled up a root names each page of a frame that is read under its pointers.
    ensures frames { (S : Shape) (F : Formats) (s : State) (root : Root) (img : ℕ → Page) (l : Locator) (bs : List Page)
        (i : ℕ) → IsShape S → Sound S F s → S.fills ≡ true → Reads S F s.opening img root.pointers root.generations l bs
        → i < length bs → Covers S root (record { page = S.address l.extent (l.page + i); generation = l.generation }) }
{}

/// What an image recovers lies on the pages of the store: two images that have those alike recover alike. Of a geometry
/// these are the first pages, the two before the extents, those of the extents, and one for each further section.
pub fn recovery_looks_at_the_pages_of_the_store()
    ensures alike { (S : Shape) (F : Formats) (count : ℕ) (img other : ℕ → Page) (n : ℕ) (m : Map)
        → LiesBelow S count → AgreeBelow count img other → Recovers S F img n m → Recovers S F other n m }
    // So do they by what is known of another image.
    ensures alike_but { (S : Shape) (F : Formats) (opening : (pointers generations : ℕ → ℕ) → Opening) (count : ℕ)
        (img other : ℕ → Page) (n : ℕ) (m : Map)
        → LiesBelow S count → AgreeBelow count img other → RecoversBut S F opening img n m
        → RecoversBut S F opening other n m }
    ensures geometries { (extents pages sections per_section : ℕ) (format : Format) → IsGeometry extents pages sections per_section
        → LiesBelow (shape_of extents pages sections per_section format) (1 + extents * pages + sections) }
{}

/// Where chunks and runs lie apart an event gives more pages of an extent, or resets it under the last root, which names
/// nothing there.
pub fn what_is_reset_is_not_named()
    ensures event { (S : Shape) (F : Formats) (s t : State) (event : Event) (reply : Reply) (e : ℕ) → IsShape S
        → S.apart ≡ true → Step S F s event reply t → Grows s t e ⊎ IsFreed s t e }
    // So does an opening of what it reads.
    ensures opening { (S : Shape) (F : Formats) (img : ℕ → Page) (n : ℕ) (m : Map) (gives : Recovers S F img n m) (e : ℕ)
        → IsShape S → S.apart ≡ true → Grows (state_read S F img n m gives) (opened_state S F img n m gives) e
        ⊎ IsFreed (state_read S F img n m gives) (opened_state S F img n m gives) e }
{}

/// An event empties an extent, or leaves each of its given pages as it reads. So what was read of an extent is known as long as the
/// extent has the same generation.
pub fn given_pages_stay()
    ensures { (S : Shape) (F : Formats) (s t : State) (event : Event) (reply : Reply) (e : ℕ) → IsShape S
        → Step S F s event reply t → IsEmptied s t e ⊎ KeepsPages S s t e }
{}
