//! The images of stores: of new ones, of those that are opened, and of those where an entry that a newer one hides names what is gone.
ghost use Rattle.std.specs.Prelude.{◌≡◌, ◌<◌, ◌≤◌, ℕ, true, false, List, [], None, length, map, replicate, slice_index, ◌≢◌, ◌↔◌, ◌∷◌, ◌++◌, Some, slice_get, slice_index_or};
ghost use Rattle.std.specs.List.{AllByRecursion};
ghost use Rattle.cs_extent.specs.State.{shape, IsWhole, State as ExtentsState, found_at};
ghost use Rattle.cs_frame.specs.declared.locators.Locator.{Locator};
ghost use Rattle.cs_frame.specs.FirstFormat.{SpellsPageZero};
ghost use Rattle.cs_frame.specs.Formats.{formats_of};
ghost use Rattle.cs_frame.specs.Geometries.{IsGeometry};
ghost use Rattle.cs_frame.specs.Roots.{SpellsRoot, identity_in};
ghost use Rattle.cs_frame.specs.Superblocks.{SpellsSuperblock};
ghost use Rattle.law_refinement.specs.Images.{AreNewSections, IsRecoveredAs, RecoversStore, new_extents, page_of_section, AreExtentsNoted};
ghost use Rattle.cs_reader.specs.ImageReads.{IsReadable, IsRunRead, SpellsAt, AreRunsRead, IsLocated};
ghost use Rattle.cs_index.specs.declared.stored_runs.StoredRun.{StoredRun};
ghost use Rattle.cs_index.specs.State.{newest_first};
ghost use Rattle.law_machine.specs.Element.{Map};
ghost use Rattle.law_machine.specs.Recovery.{IsNew, Recovers};
ghost use Rattle.law_refinement.specs.StoresRead.{HasPages, HasSections, IsRead, StoreRead, extents_in, IsVisiblyRead};
ghost use Rattle.law_machine.specs.Device.{Page, Shape};
ghost use Rattle.law_refinement.specs.Machines.{RecoversFor};
ghost use Rattle.cs_frame.specs.Locators.{KeepFormat};
ghost use Rattle.cs_frame.specs.Runs.{IsRun};
ghost use Rattle.cs_reader.specs.Counts.{HasCount};
ghost use Rattle.law_machine.specs.Format.{Format};
ghost use Rattle.law_machine.specs.Formats.{Formats};
ghost use Rattle.law_machine.specs.Index.{entries_of, live_at};

/// Sections of empty extents on the superblock's pages and a root without runs on page 1, all of version 1, are a new store,
/// whatever lies on the other pages. It has no command and no shard.
pub fn new_stores_are_new()
    ensures new { (view : ℕ → Page) (format : Format) (extents pages sections : ℕ) → IsGeometry format extents pages sections
        → AreNewSections view format extents pages sections → SpellsRoot (view 1) (identity_in format) 1 0 []
        → (let x = new_extents format extents pages sections in IsNew (shape x) (formats_of (shape x)) view) }
    // It recovers no command and no shard, and is found to be these extents, all versions 1, and no runs.
    ensures found { (view : ℕ → Page) (format : Format) (extents pages sections : ℕ) → IsGeometry format extents pages sections
        → AreNewSections view format extents pages sections → SpellsRoot (view 1) (identity_in format) 1 0 []
        → (let x = new_extents format extents pages sections in IsRecoveredAs x view 0 (λ id. None) x (replicate sections 1) 1 []) }
{}

/// Where chunks and runs may lie on one extent, a store that was read is recovered, as what was read. Where they lie apart
/// `visible_stores_recover` says the same, with what is noted of the extents then.
pub fn what_is_read_recovers()
    ensures { (view : ℕ → Page) (read : StoreRead) (runs : List StoredRun)
        → (shape (extents_in read)).apart ≡ false → HasPages view read → IsRead view read runs → (let x = extents_in read in
        (m : Map) × IsRecoveredAs x view read.commands m x read.versions read.root (newest_first runs)) }
{}

/// What is recovered of an image can be read: no decoder refuses it, and each locator passes its tests, also of hidden entries where
/// they stand. Where they don't, `visible_stores_recover` says it of the visible ones.
pub fn what_is_recovered_can_be_read()
    // Each section's page spells that section, with the geometry's format and numbers of extents, pages and sections.
    ensures superblock { (view : ℕ → Page) (format : Format) (extents pages sections n : ℕ) (m : Map)
        → RecoversStore view format extents pages sections n m → (j : ℕ) → j < sections
        → (version : ℕ) × (recorded : ℕ) × (written : List (ℕ × ℕ))
        × SpellsAt j (view (page_of_section format extents pages sections j)) format version recorded extents pages sections written }
    // Whatever section page 0 spells is section 0, of this format and with these numbers.
    ensures geometry { (view : ℕ → Page) (format : Format) (extents pages sections n : ℕ) (m : Map)
        (f : Format) (version recorded e p s j : ℕ) (written : List (ℕ × ℕ)) → RecoversStore view format extents pages sections n m
        → SpellsPageZero (view 0) f version recorded e p s j written
        → (f ≡ format) × (e ≡ extents) × (p ≡ pages) × (s ≡ sections) × (j ≡ 0) }
    // Whatever section the page of a further one spells is that one, of this format and with these numbers.
    ensures section { (view : ℕ → Page) (format : Format) (extents pages sections n : ℕ) (m : Map)
        (k : ℕ) (f : Format) (version recorded e p s j : ℕ) (written : List (ℕ × ℕ)) → RecoversStore view format extents pages sections n m
        → 0 < k → k < sections
        → SpellsSuperblock (view (page_of_section format extents pages sections k)) f version recorded e p s j written
        → (f ≡ format) × (e ≡ extents) × (p ≡ pages) × (s ≡ sections) × (j ≡ k) }
    // Page 1 spells a root, with as many commands as are recovered.
    ensures root { (view : ℕ → Page) (format : Format) (extents pages sections n : ℕ) (m : Map) → RecoversStore view format extents pages sections n m
        → (version : ℕ) × (places : List Locator) × SpellsRoot (view 1) (identity_in format) version n places }
    // Whatever root page 1 spells has as many commands as are recovered, and at each of its places a frame has a run.
    ensures runs { (view : ℕ → Page) (read : StoreRead) (places : List Locator) (n : ℕ) (m : Map)
        → HasSections view read → HasPages view read → SpellsRoot (view 1) (identity_in read.format) read.root read.commands places
        → RecoversFor (extents_in read) view n m
        → (read.commands ≡ n) × AllByRecursion (λ place. IsReadable (extents_in read) view place) places }
    // Whatever root page 1 spells is none of before: no section that was read records a later one.
    ensures recorded { (view : ℕ → Page) (read : StoreRead) (places : List Locator) (n : ℕ) (m : Map)
        → HasSections view read → SpellsRoot (view 1) (identity_in read.format) read.root read.commands places
        → RecoversFor (extents_in read) view n m → (j : ℕ) → j < length read.versions → slice_index read.records j ≤ read.root }
    // Where hidden entries stand, page 1 spells a root over these runs, and each of them was read where its place says, the whole store
    // was read.
    ensures store { (view : ℕ → Page) (read : StoreRead) (runs : List StoredRun) (n : ℕ) (m : Map)
        → (shape (extents_in read)).hidden_stand ≡ true → HasSections view read → HasPages view read
        → SpellsRoot (view 1) (identity_in read.format) read.root read.commands (map (λ run. run.place) runs)
        → AllByRecursion (IsRunRead (extents_in read) view) runs → RecoversFor (extents_in read) view n m → IsRead view read runs }
{}

/// The runs of a root are read one after another, the oldest first. When there are as many as the root lists they are all
/// of its runs, and an index can be made of them.
pub fn runs_are_read_one_by_one()
    ensures none { (x : ExtentsState) (view : ℕ → List ℕ) (places : List Locator) → AreRunsRead x view places [] }
    // The run at the next place, once it is read, joins those that were read.
    ensures next { (x : ExtentsState) (view : ℕ → List ℕ) (places : List Locator) (runs : List StoredRun) (run : StoredRun)
        → AreRunsRead x view places runs → slice_get places (length runs) ≡ Some run.place → IsRunRead x view run
        → AreRunsRead x view places (runs ++ run ∷ []) }
    // Where there are as many runs as places they are those at the places, and each was read.
    ensures all { (x : ExtentsState) (view : ℕ → List ℕ) (places : List Locator) (runs : List StoredRun)
        → AreRunsRead x view places runs → length runs ≡ length places
        → (map (λ run. run.place) runs ≡ places) × AllByRecursion (IsRunRead x view) runs }
    // Each run that was read has some entries, of at most eight locators each that keep to the store's format, by rising identifiers.
    ensures loads { (x : ExtentsState) (view : ℕ → List ℕ) (runs : List StoredRun) → AllByRecursion (IsRunRead x view) runs
        → AllByRecursion (λ run. IsRun x.format (record { entries = run.entries })) runs }
    // The places of a root keep to its format.
    ensures places { (page : List ℕ) (format : Format) (version commands : ℕ) (places : List Locator)
        → SpellsRoot page (identity_in format) version commands places
        → KeepFormat format places }
    // Of a place that is located extent and page are there.
    ensures inside { (x : ExtentsState) (place : Locator) → IsWhole x → IsLocated x place
        → (place.extent < (shape x).extents) × (place.page < (shape x).pages) }
{}

/// As many identifiers have locators as the map has.
pub fn live_identifiers_are_those_of_the_map()
    // An identifier has locators exactly where the map has it.
    ensures each { (S : Shape) (F : Formats) (img : ℕ → Page) (n : ℕ) (m : Map) (found : Recovers S F img n m) (id : ℕ)
        → (live_at (entries_of found.runs) id ≡ []) ↔ (m id ≡ None) }
    // So many have locators exactly where the map has so many.
    ensures count { (S : Shape) (F : Formats) (img : ℕ → Page) (n : ℕ) (m : Map) (found : Recovers S F img n m)
        (count : ℕ) → HasCount (λ id. live_at (entries_of found.runs) id ≢ []) count ↔ HasCount (λ id. m id ≢ None) count }
{}

/// A store whose visible entries name what is there is recovered, where hidden ones may name what is gone, and what is recovered can be
/// read so.
pub fn visible_stores_recover()
    // A store of which each entry names what is there is one whose visible entries do.
    ensures all { (view : ℕ → Page) (read : StoreRead) (runs : List StoredRun) → IsRead view read runs → IsVisiblyRead view read runs }
    // Chunks and runs lie apart, and it is noted on which extents runs lie.
    ensures read { (view : ℕ → Page) (read : StoreRead) (runs : List StoredRun) (noted : ExtentsState) → HasPages view read
        → IsVisiblyRead view read runs → (let x = extents_in read in
        (shape x).hidden_stand ≡ false → (shape x).apart ≡ true → AreExtentsNoted x (newest_first runs) noted
        → (m : Map) × IsRecoveredAs x view read.commands m noted read.versions read.root (newest_first runs)) }
    // Page 1 spells a root over these runs, each of which was read where its place says.
    ensures recovered { (view : ℕ → Page) (read : StoreRead) (runs : List StoredRun) (n : ℕ) (m : Map)
        → HasSections view read → HasPages view read
        → SpellsRoot (view 1) (identity_in read.format) read.root read.commands (map (λ run. run.place) runs)
        → AllByRecursion (IsRunRead (extents_in read) view) runs → RecoversFor (extents_in read) view n m → IsVisiblyRead view read runs }
    // All pages that are given at open count as found.
    ensures found { (written : List (ℕ × ℕ)) (e : ℕ) → slice_index (found_at true written) e ≡ (slice_index_or written e (0, 0)).0 }
{}
