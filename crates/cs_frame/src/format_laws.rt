//! The laws of the formats: a page without a fault is one value's spelling and no other's, and what is
//! spelled has no fault.

ghost use Rattle.std.specs.Prelude.{◌≡◌, ◌≢◌, ◌↔◌, ◌+◌, ◌/◌, ◌^◌, ◌<◌, ◌≤◌, ◌++◌, ℕ, List, Option, Some, None, [], length, map, take, true};
ghost use Rattle.byteorder.specs.Endian.{big_bytes, big_number};
ghost use Rattle.law_machine.specs.Element.{Entry as NamedEntry};
ghost use Rattle.law_machine.specs.Format.{Format, Four, Two};
ghost use Rattle.law_machine.specs.Formats.{ChunkFrame, RunFrame};
ghost use Rattle.law_machine.specs.Frames.{IsFormat};
ghost use Rattle.law_machine.specs.Geometry.{HasExtentsApart, IsGeometry as IsModelGeometry, digest_number, head_bytes_in, mark_in, marks_in, most_weight_in, shape_of, weigh_in};
ghost use Rattle.law_machine.specs.Index.{IsRunList, run_weight};
ghost use Rattle.law_machine.specs.Lists.{◌∈◌};
ghost use Rattle.law_machine.specs.Safe.{FitsExtent};
ghost use Rattle.cs_frame.specs.declared.faults.FormatFault.{FormatFault as Fault};
ghost use Rattle.cs_frame.specs.declared.formats.FormatNumber.{FormatNumber};
ghost use Rattle.cs_frame.specs.declared.locators.Locator.{Locator as Place};
ghost use Rattle.cs_frame.specs.Bytes.{EachHas, IsBytes, IsPage};
ghost use Rattle.cs_frame.specs.Formats.{as_entry, formats_of, id_bytes};
ghost use Rattle.cs_frame.specs.Frames.{SpellsFrame, bytes_in, digest_front, first_page, frame_count, frame_fault, header_fault, page_count, payload_in, payload_mark, spelled_frame};
ghost use Rattle.cs_frame.specs.FirstFormat.{IsOfFirstFormat, SpellsFirstFormat, SpellsPageZero, first_format_fault, page_zero_fault};
ghost use Rattle.cs_frame.specs.Geometries.{FitsFormat, IsGeometry, lengths_below, section_length, section_size, section_start, weight_bytes};
ghost use Rattle.cs_frame.specs.FormatRuns.{SpellsRun, run_fault, run_size};
ghost use Rattle.cs_frame.specs.FormatNumbers.{number_in};
ghost use Rattle.cs_frame.specs.Heads.{body_in, chunk_in, spelled_head};
ghost use Rattle.cs_frame.specs.Roots.{SpellsRoot, root_fault, root_number};
ghost use Rattle.cs_frame.specs.Runs.{Entry};
ghost use Rattle.cs_frame.specs.Superblocks.{FitsRecord, SpellsSuperblock, record_in, spelled_superblock, superblock_fault};

/// In each format a page is a superblock section's spelling exactly where no test fails, and of one section alone.
pub fn superblock_has_one_spelling()
    ensures exact { (number : FormatNumber) (page : List ℕ) → IsPage page
        → (superblock_fault number page ≡ None)
        ↔ ((format : Format) × (version : ℕ) × (recorded : ℕ) × (extents : ℕ) × (pages : ℕ) × (sections : ℕ) × (section : ℕ)
        × (written : List (ℕ × ℕ)) × (number_in format ≡ number)
        × SpellsSuperblock page format version recorded extents pages sections section written) }
    ensures one_page { (page other : List ℕ) (format : Format) (version recorded extents pages sections section : ℕ) (written : List (ℕ × ℕ))
        → SpellsSuperblock page format version recorded extents pages sections section written
        → SpellsSuperblock other format version recorded extents pages sections section written → page ≡ other }
    ensures one_section { (page : List ℕ)
        (format f : Format) (version w recorded r extents e pages p sections s section j : ℕ) (written es : List (ℕ × ℕ))
        → SpellsSuperblock page format version recorded extents pages sections section written → SpellsSuperblock page f w r e p s j es
        → (format ≡ f) × (version ≡ w) × (recorded ≡ r) × (extents ≡ e) × (pages ≡ p) × (sections ≡ s) × (section ≡ j) × (written ≡ es) }
{}

/// What a section records of the root fits its bytes, and where it has none its page is the same whatever root is
/// persistent.
pub fn records_fit()
    ensures fits { (format : Format) (root : ℕ) → root < 2 ^ 64 → FitsRecord format (record_in format root) }
    ensures pages { (format : Format) (version root extents pages sections section : ℕ) (written : List (ℕ × ℕ))
        → spelled_superblock format version (record_in format root) extents pages sections section written
        ≡ spelled_superblock format version root extents pages sections section written }
    ensures same { (format : Format) (recorded : ℕ) → FitsRecord format recorded → record_in format recorded ≡ recorded }
    ensures below { (format : Format) (root : ℕ) → record_in format root ≤ root }
{}

/// What is read in the first format, which is no longer written: a page exactly where no test of that format fails,
/// as one superblock alone.
pub fn first_format_has_one_spelling()
    ensures exact { (page : List ℕ) → IsPage page
        → (first_format_fault page ≡ None)
        ↔ ((version : ℕ) × (pages : ℕ) × (extents : List (ℕ × ℕ)) × SpellsFirstFormat page version pages extents) }
    ensures one_superblock { (page : List ℕ) (version w pages p : ℕ) (extents es : List (ℕ × ℕ))
        → SpellsFirstFormat page version pages extents → SpellsFirstFormat page w p es
        → (version ≡ w) × (pages ≡ p) × (extents ≡ es) }
{}

/// Page 0 spells a section in the store's format or in the first exactly where no test fails, and it spells no
/// section in both.
pub fn page_zero_has_one_spelling()
    ensures exact { (page : List ℕ) → IsPage page
        → (page_zero_fault page ≡ None)
        ↔ ((format : Format) × (version : ℕ) × (recorded : ℕ) × (extents : ℕ) × (pages : ℕ) × (sections : ℕ) × (section : ℕ) × (written : List (ℕ × ℕ))
        × SpellsPageZero page format version recorded extents pages sections section written) }
    ensures one_format { (page : List ℕ) (format f : Format) (version w recorded r extents e pages p sections s section j : ℕ) (written es : List (ℕ × ℕ))
        → SpellsSuperblock page format version recorded extents pages sections section written → IsOfFirstFormat page f w r e p s j es → ⊥ }
{}

/// In each format a page is a root's spelling exactly where no test fails, and of one root alone.
pub fn root_has_one_spelling()
    ensures exact { (number : FormatNumber) (page : List ℕ) → IsPage page
        → (root_fault number page ≡ None)
        ↔ ((store : Option (List ℕ)) × (version : ℕ) × (commands : ℕ) × (runs : List Place)
        × (root_number store ≡ number) × SpellsRoot page store version commands runs) }
    ensures one_page { (page other : List ℕ) (store : Option (List ℕ)) (version commands : ℕ) (runs : List Place)
        → SpellsRoot page store version commands runs → SpellsRoot other store version commands runs → page ≡ other }
    ensures one_root { (page : List ℕ) (store s : Option (List ℕ)) (version w commands n : ℕ) (runs ls : List Place)
        → SpellsRoot page store version commands runs → SpellsRoot page s w n ls
        → (store ≡ s) × (version ≡ w) × (commands ≡ n) × (runs ≡ ls) }
{}

/// A page that is spelled in one format is refused by its fourth byte as a page of any other.
pub fn formats_are_apart()
    ensures section { (page : List ℕ) (format : Format) (number : FormatNumber) (version recorded extents pages sections section : ℕ)
        (written : List (ℕ × ℕ)) → SpellsSuperblock page format version recorded extents pages sections section written
        → number ≢ number_in format → superblock_fault number page ≡ Some Fault.BadVersion }
    ensures section_as_first { (page : List ℕ) (format : Format) (version recorded extents pages sections section : ℕ) (written : List (ℕ × ℕ))
        → SpellsSuperblock page format version recorded extents pages sections section written
        → first_format_fault page ≡ Some Fault.BadVersion }
    ensures first_as_section { (page : List ℕ) (number : FormatNumber) (version pages : ℕ) (extents : List (ℕ × ℕ))
        → SpellsFirstFormat page version pages extents → superblock_fault number page ≡ Some Fault.BadVersion }
    ensures root { (page : List ℕ) (store : Option (List ℕ)) (number : FormatNumber) (version commands : ℕ) (runs : List Place)
        → SpellsRoot page store version commands runs → number ≢ root_number store
        → root_fault number page ≡ Some Fault.BadVersion }
    ensures frame { (number other : FormatNumber) (kind other_kind : ℕ) (pages : List (List ℕ)) (payload : List ℕ)
        → SpellsFrame number kind pages payload → other ≢ number → frame_fault other other_kind pages ≡ Some Fault.BadVersion }
{}

/// A page whose first 512 bytes are those of a page of format 4 is whole in no other format. So a torn write leaves no
/// page of another format.
pub fn torn_pages_are_apart()
    ensures section { (page torn : List ℕ) (store : List ℕ) (device version recorded extents pages sections section : ℕ)
        (written : List (ℕ × ℕ)) → SpellsSuperblock page (Four store device) version recorded extents pages sections section written
        → take 512 torn ≡ take 512 page
        → (superblock_fault FormatNumber.Two torn ≡ Some Fault.BadVersion) × (first_format_fault torn ≡ Some Fault.BadVersion) }
    ensures root { (page torn : List ℕ) (store : List ℕ) (version commands : ℕ) (runs : List Place)
        → SpellsRoot page (Some store) version commands runs → take 512 torn ≡ take 512 page
        → root_fault FormatNumber.Two torn ≡ Some Fault.BadVersion }
    ensures frame { (kind other_kind : ℕ) (pages torn : List (List ℕ)) (payload : List ℕ)
        → SpellsFrame FormatNumber.Four kind pages payload → take 512 (first_page torn) ≡ take 512 (first_page pages)
        → frame_fault FormatNumber.Two other_kind torn ≡ Some Fault.BadVersion }
{}

/// In each format a payload is a run's spelling exactly where no test fails, and of one run alone.
pub fn run_has_one_spelling()
    ensures exact { (format : Format) (payload : List ℕ) → FitsFormat format → IsBytes payload
        → (run_fault format payload ≡ None) ↔ ((entries : List Entry) × SpellsRun payload format entries) }
    ensures one_payload { (format : Format) (payload other : List ℕ) (entries : List Entry)
        → SpellsRun payload format entries → SpellsRun other format entries → payload ≡ other }
    ensures one_run { (format : Format) (payload : List ℕ) (entries es : List Entry)
        → SpellsRun payload format entries → SpellsRun payload format es → entries ≡ es }
    // A run of one store is refused as another's if the first eight bytes of their identities differ.
    ensures one_store { (store other : List ℕ) (device other_device : ℕ) (payload : List ℕ) (entries : List Entry)
        → FitsFormat (Four store device) → SpellsRun payload (Four store device) entries → take 8 other ≢ take 8 store
        → run_fault (Four other other_device) payload ≡ Some Fault.Misplaced }
{}

/// The payload of a run has as many bytes as its entries say.
pub fn runs_have_sizes()
    ensures { (payload : List ℕ) (format : Format) (entries : List Entry) → FitsFormat format
        → SpellsRun payload format entries → length payload ≡ run_size format entries }
{}

/// A run takes what its entries weigh by the rule of the format, and fits on an extent exactly where they weigh no
/// more than they may.
pub fn runs_take_what_they_weigh()
    ensures size { (format : Format) (entries : List NamedEntry)
        → run_size format (map as_entry entries) ≡ weight_bytes format (run_weight (weigh_in format) entries) }
    ensures payload { (extents pages sections per_section : ℕ) (format : Format) (entries : List NamedEntry) → FitsFormat format
        → let S = shape_of extents pages sections per_section format in
        ((entry : NamedEntry) → entry ∈ entries → length entry.locators ≤ S.most_chunks)
        → length ((formats_of S).run entries) ≡ weight_bytes format (run_weight S.weigh entries) }
    ensures pages { (format : Format) (pages weight : ℕ) → 1 ≤ pages
        → (page_count (weight_bytes format weight) ≤ pages) ↔ (weight ≤ most_weight_in format pages) }
{}

/// Pages begin with a frame of a kind exactly where no test fails, and with one payload alone.
pub fn frame_has_one_spelling()
    ensures exact { (number : FormatNumber) (kind : ℕ) (pages : List (List ℕ)) → EachHas 4096 pages → IsBytes (bytes_in pages)
        → (frame_fault number kind pages ≡ None) ↔ ((payload : List ℕ) × SpellsFrame number kind pages payload) }
    ensures one_payload { (number : FormatNumber) (kind : ℕ) (pages : List (List ℕ)) (payload other : List ℕ)
        → SpellsFrame number kind pages payload → SpellsFrame number kind pages other → payload ≡ other }
    // Whatever follows its pages, a frame stands in them.
    ensures stands { (number : FormatNumber) (kind : ℕ) (payload : List ℕ) (rest : List (List ℕ))
        → length payload < 2 ^ 32 → SpellsFrame number kind (spelled_frame number kind payload ++ rest) payload }
{}

/// A reader may take a frame's first page alone, and then as many pages as its header says.
pub fn frame_is_read_by_its_header()
    // What the first page is refused for, all pages are.
    ensures refused { (number : FormatNumber) (kind : ℕ) (pages : List (List ℕ)) (fault : Fault)
        → header_fault number kind (first_page pages) (length pages) ≡ Some fault → frame_fault number kind pages ≡ Some fault }
    // The pages after the frame's own change nothing.
    ensures fault { (number : FormatNumber) (kind : ℕ) (pages : List (List ℕ)) (count : ℕ)
        → frame_count pages ≤ count → frame_count pages ≤ length pages
        → frame_fault number kind (take count pages) ≡ frame_fault number kind pages }
    ensures payload { (pages : List (List ℕ)) (count : ℕ)
        → frame_count pages ≤ count → frame_count pages ≤ length pages
        → payload_in (take count pages) ≡ payload_in pages }
{}

/// A frame's mark is the first eight bytes of its payload's digest: two frames of one mark have payloads whose
/// digests agree there.
pub fn marks_tell_digests()
    ensures pages { (number other_number : FormatNumber) (kind other_kind : ℕ) (pages others : List (List ℕ)) (payload other : List ℕ)
        → SpellsFrame number kind pages payload → SpellsFrame other_number other_kind others other
        → IsPage (first_page pages) → IsPage (first_page others)
        → digest_number (first_page pages) ≡ digest_number (first_page others)
        → digest_front payload ≡ digest_front other }
    // So it is of the frames of two payloads.
    ensures payloads { (payload other : List ℕ) → payload_mark payload ≡ payload_mark other
        → digest_front payload ≡ digest_front other }
    ensures mark { (format : Format) (number : FormatNumber) (kind : ℕ) (payload : List ℕ) → marks_in format ≡ true
        → mark_in format (first_page (spelled_frame number kind payload)) ≡ payload_mark payload }
{}

/// These formats keep what the machine's model asks of the spelling of its pages.
pub fn these_formats_are_formats()
    ensures formats { (format : Format) (extents pages sections : ℕ) → IsGeometry format extents pages sections
        → let S = shape_of extents pages sections (section_size extents sections) format in IsFormat S (formats_of S) }
    // The model doesn't bound the number of an identifier. One that 16 bytes can spell has these bytes, and any
    // 16 bytes are those of their number.
    ensures identifier { (id : ℕ) → id < 2 ^ 128 → id_bytes id ≡ big_bytes 16 id }
    ensures identifier_number { (bytes : List ℕ) → IsBytes bytes → length bytes ≡ 16
        → id_bytes (big_number 16 bytes) ≡ bytes }
{}

/// The page of a section tells the pointers of its extents, in whatever format and version.
pub fn sections_tell_pointers()
    ensures { (extents pages sections : ℕ) (format : Format) → IsGeometry format extents pages sections
        → let S = shape_of extents pages sections (section_size extents sections) format in
        (f k j v w r s : ℕ) (p g q h : ℕ → ℕ) → ((e : ℕ) → FitsExtent S (p e) (g e)) → ((e : ℕ) → FitsExtent S (q e) (h e))
        → (formats_of S).superblock f j v r p g ≡ (formats_of S).superblock k j w s q h → (e : ℕ) → e < S.extents
        → S.section e ≡ j → p e ≡ q e }
{}

/// Each run that the model may stage, and each chunk with its head, fits on an extent.
pub fn frames_fit_on_an_extent()
    ensures runs { (extents pages sections : ℕ) (format : Format) (entries : List NamedEntry) → IsGeometry format extents pages sections
        → let S = shape_of extents pages sections (section_size extents sections) format in
        IsRunList S entries → length ((formats_of S).frame RunFrame ((formats_of S).run entries)) ≤ S.pages }
    ensures chunks { (extents pages sections : ℕ) (format : Format) (id number count command : ℕ) (piece : List ℕ)
        → IsGeometry format extents pages sections → let S = shape_of extents pages sections (section_size extents sections) format in
        length piece ≤ S.chunk_bytes
        → length ((formats_of S).frame ChunkFrame ((formats_of S).chunk id number count command piece)) ≤ S.pages }
{}

/// The head of a chunk has one size in each format, and tells whose chunk it is: one payload ends with one head alone.
pub fn heads_tell_chunks()
    ensures size { (format : Format) (id number count command : ℕ) (piece : List ℕ) → FitsFormat format
        → length (chunk_in format id number count command piece) ≡ length piece + head_bytes_in format }
    ensures piece { (format : Format) (id number count command : ℕ) (piece : List ℕ) → FitsFormat format
        → body_in format (chunk_in format id number count command piece) ≡ piece }
    ensures one_head { (id number count command other other_number other_count other_command : ℕ) (front other_front piece other_piece : List ℕ)
        → length front ≡ 8 → length other_front ≡ 8 → command < 2 ^ 64 → other_command < 2 ^ 64
        → piece ++ spelled_head id number count command front
        ≡ other_piece ++ spelled_head other other_number other_count other_command other_front
        → (id ≡ other) × (number ≡ other_number) × (count ≡ other_count) × (command ≡ other_command) × (front ≡ other_front)
        × (piece ≡ other_piece) }
    // In format 2 there are no heads, and a chunk's payload is its piece of the bytes.
    ensures none { (id number count command : ℕ) (piece payload : List ℕ)
        → (chunk_in Two id number count command piece ≡ piece) × (body_in Two payload ≡ payload) }
{}

/// Each extent belongs to one section, and all sections together have all extents.
pub fn sections_have_all_extents()
    ensures holds { (format : Format) (extents pages sections e j : ℕ) → IsGeometry format extents pages sections → e < extents
        → (e / section_size extents sections ≡ j)
        ↔ ((section_start extents sections j ≤ e)
        × (e < section_start extents sections j + section_length extents sections j)) }
    ensures inside { (format : Format) (extents pages sections e : ℕ) → IsGeometry format extents pages sections → e < extents
        → e / section_size extents sections < sections }
    ensures lengths { (format : Format) (extents pages sections : ℕ) → IsGeometry format extents pages sections
        → lengths_below extents sections sections ≡ extents }
    // The same in the words of the machine's model.
    ensures model { (format : Format) (extents pages sections : ℕ) → IsGeometry format extents pages sections
        → IsModelGeometry extents pages sections (section_size extents sections) }
    ensures apart { (format : Format) (extents pages sections : ℕ) → IsGeometry format extents pages sections → HasExtentsApart extents format }
{}
