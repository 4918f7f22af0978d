//! What salvaged shards have to do with puts, and rescued ones with the map that the store had. The functions do
//! nothing: their contracts are the laws.
ghost use Rattle.std.specs.Prelude.{◌*◌, ◌<◌, ◌^◌, ◌≡◌, [], ◌≢◌, ◌≤◌, ◌⊎◌, List, None, Some, false, length, true, ℕ};
ghost use Rattle.std.specs.List.{AllZip};
ghost use Rattle.cs_disk.specs.Disk.{Image, page, seen};
ghost use Rattle.cs_extent.specs.State.{shape};
ghost use Rattle.cs_frame.specs.Formats.{formats_of};
ghost use Rattle.cs_frame.specs.Geometries.{Dimensions, FitsFormat, IsGeometry};
ghost use Rattle.cs_index.specs.State.{index_of};
ghost use Rattle.cs_reader.specs.ImageReads.{ArePages};
ghost use Rattle.cs_salvage.specs.Answers.{HasContent, IsRefusedFor};
ghost use Rattle.cs_salvage.specs.Founds.{Found};
ghost use Rattle.cs_salvage.specs.Frames.{IsMeant, TwoWithOneDigest};
ghost use Rattle.cs_salvage.specs.Parts.{AreParts, EndsWith, IsIdentifier, IsPart, formats_in, shape_in};
ghost use Rattle.cs_salvage.specs.Rescued.{IsRescued};
ghost use Rattle.cs_salvage.specs.Passed.{Avoids, first_page_of, from_on, without};
ghost use Rattle.cs_salvage.specs.Shards.{AreAllOf, HasFrames, HasOnly, HasPayloads, IsPutFound, IsWhole};
ghost use Rattle.cs_salvage.specs.Spared.{IsSpared};
ghost use Rattle.cs_salvage.specs.declared.parts.Part.{Part as SomePart};
ghost use Rattle.cs_salvage.specs.declared.parts.Put.{Put as SomePut};
ghost use Rattle.cs_salvage.specs.declared.searches.Sought.{Sought as SomeSought};
ghost use Rattle.law_machine.specs.Element.{Bytes, Damaged, Map};
ghost use Rattle.law_machine.specs.Geometry.{heads_in, store_front};
ghost use Rattle.law_machine.specs.Index.{joined_bodies, lookup};
ghost use Rattle.law_machine.specs.Recovery.{Recovers};
ghost use Rattle.law_machine.specs.Refusal.{Refusal as Ground};

use crate::rescued_runs::DamagedRun;
use crate::searches::Whose;
use cs_disk::PageDisk;
use cs_refusal::Refusal;

/// What is read of a whole shard is what was put, if all its parts that are sought are of one put of these bytes. So
/// none may be left of a put of the same identifier and number that a crash lost. What other stores left doesn't
/// matter, unless parts of any store are sought.
pub fn whole_shards_are_what_was_put()
    ensures { (sought : SomeSought) (image : Image) (parts pieces : List SomePart) (put : SomePut) (bytes : List ℕ) (payloads read : List (List ℕ))
        → IsGeometry sought.geometry.format sought.geometry.extents sought.geometry.pages sought.geometry.sections
        → HasPayloads sought.geometry put bytes payloads → HasOnly sought image put payloads
        → AreAllOf parts put pieces → AllZip (IsPart sought image) pieces read → joined_bodies (formats_in sought.geometry) read ≡ bytes }
{}

/// What stands is whole: a put is whole if each of its chunks has a whole frame on the device. Its parts there that are
/// sought must be of one put of these bytes.
pub fn what_stands_is_whole()
    ensures { (sought : SomeSought) (image : Image) (parts : List SomePart) (put : SomePut) (bytes : List ℕ) (payloads : List (List ℕ))
        → heads_in sought.geometry.format ≡ true → FitsFormat sought.geometry.format → IsIdentifier put.id → put.command < 2 ^ 64
        → length bytes ≤ (shape_in sought.geometry).most_chunks * (shape_in sought.geometry).chunk_bytes
        → HasPayloads sought.geometry put bytes payloads
        → HasFrames sought.geometry image payloads → HasOnly sought image put payloads → AreParts sought image parts → IsWhole parts put }
{}

/// What parts mean is one list of payloads, unless at one place of two such lists two different texts have the same
/// SHA-256 digest. What lay on the device when the parts were found is what they mean. So what is read of them later,
/// whatever the disk answers, is that, or is itself one of two such texts.
pub fn what_a_part_means_is_one()
    ensures one { (parts : List SomePart) (a b : List (List ℕ)) → AllZip IsMeant parts a → AllZip IsMeant parts b
        → (a ≡ b) ⊎ TwoWithOneDigest a b }
    ensures found { (sought : SomeSought) (image : Image) (part : SomePart) (payload : List ℕ) → IsPart sought image part payload → IsMeant part payload }
    // What is sought of one store is that store's: the payload ends with the first bytes of its identity.
    ensures own { (g : Dimensions) (image : Image) (part : SomePart) (payload : List ℕ)
        → IsPart (record { geometry = g; whose = Whose.OfStore }) image part payload → EndsWith part.head (store_front g.format) payload }
    // And it is found as well if the parts of any store are sought.
    ensures any { (sought : SomeSought) (image : Image) (part : SomePart) (payload : List ℕ) → IsPart sought image part payload
        → IsPart (record { geometry = sought.geometry; whose = Whose.OfAny }) image part payload }
{}

/// If an honest disk recovers a map, all runs were read, unless the device failed for one. If all were, no later root
/// is recorded and the root counts the map's commands. Then what is there of each identifier is what the map has.
///
/// So by the clauses `absent` and `read` of `Rescue::get` the answer is None if the map has nothing. It is the map's
/// bytes if the map has bytes, unless the device or memory refuses. By `bytes` and `why` what the map has damaged is
/// refused as the damage is.
pub fn what_is_whole_is_got<D: PageDisk>()
    ensures got { (disk : D) (f : Found) (n : ℕ) (m : Map) → D.honest disk → IsRescued (D.honest disk) (D.page_count disk) (page (seen (D.state disk))) f → f.damaged ≡ None
        → Recovers (shape f.extents) (formats_of (shape f.extents)) (page (seen (D.state disk))) n m
        → (f.lost ≡ false) × (f.commands ≡ n) × ((id : ℕ) → HasContent f (page (seen (D.state disk))) id (m id)) }
    ensures all_read { (disk : D) (f : Found) (n : ℕ) (m : Map) → D.honest disk → IsRescued (D.honest disk) (D.page_count disk) (page (seen (D.state disk))) f
        → Recovers (shape f.extents) (formats_of (shape f.extents)) (page (seen (D.state disk))) n m
        → (f.damaged ≡ None) ⊎ ((d : DamagedRun) × (f.damaged ≡ Some d) × (d.refusal ≡ Refusal.DeviceFault)) }
    ensures damaged { (disk : D) (f : Found) (n : ℕ) (m : Map) (id : ℕ) (reason : Ground) → D.honest disk → IsRescued (D.honest disk) (D.page_count disk) (page (seen (D.state disk))) f → f.damaged ≡ None
        → Recovers (shape f.extents) (formats_of (shape f.extents)) (page (seen (D.state disk))) n m
        → m id ≡ Some (Damaged reason) → IsRefusedFor f (page (seen (D.state disk))) id reason }
{}

/// What newer runs name is right. The pages of an honest disk recovered a map before some of them were damaged. Damage
/// spared superblock, root, the runs that were read, and the chunks of an identifier which these runs name. Then what
/// is there of the identifier is what the map has. Runs that couldn't be read may be damaged in any way.
///
/// So by the clauses `absent` and `read` of `Rescue::get` the answer is None if it was deleted. It is the map's bytes
/// if the map has bytes, unless the device or memory refuses.
pub fn what_newer_runs_name_is_right<D: PageDisk>()
    ensures { (disk : D) (f : Found) (whole : ℕ → List ℕ) (n : ℕ) (m : Map) (id : ℕ) → D.honest disk → IsRescued (D.honest disk) (D.page_count disk) (page (seen (D.state disk))) f
        → ArePages (D.page_count disk) whole → Recovers (shape f.extents) (formats_of (shape f.extents)) whole n m
        → IsSpared f whole (page (seen (D.state disk))) id → lookup id (index_of f.index) ≢ None → HasContent f (page (seen (D.state disk))) id (m id) }
{}

/// What a scan finds lies there. On an image of which pages hold nothing, as those that a scan passed over, the parts
/// are those of the image of which no page is one of them. And where none was passed over and all was looked at, they
/// are the parts of the image.
pub fn what_is_found_lies_there()
    ensures there { (sought : SomeSought) (image : Image) (first : ℕ) (passed : List ℕ) (part : SomePart) (payload : List ℕ)
        → IsPart sought (without passed (from_on first image)) part payload
        → IsPart sought image part payload × (first ≤ first_page_of sought.geometry part) × Avoids sought.geometry passed part }
    ensures found { (sought : SomeSought) (image : Image) (first : ℕ) (passed : List ℕ) (part : SomePart) (payload : List ℕ)
        → IsPart sought image part payload → first ≤ first_page_of sought.geometry part → Avoids sought.geometry passed part
        → IsPart sought (without passed (from_on first image)) part payload }
    ensures all { (sought : SomeSought) (image : Image) (parts : List SomePart) → AreParts sought (without [] (from_on 0 image)) parts → AreParts sought image parts }
{}

/// What a map has is found. If an image recovers a map that has bytes of an identifier, its chunks stand there as
/// whole frames. Suppose that these are the chunks of a put, as each put makes them, and that it isn't ambiguous. Then
/// it is whole among the parts of the image. So `newest_whole` has it, or a newer put of that identifier.
pub fn what_a_map_has_is_found()
    ensures { (g : Dimensions) (image : Image) (n : ℕ) (m : Map) (id : ℕ) (bytes : List ℕ) → IsGeometry g.format g.extents g.pages g.sections
        → Recovers (shape_in g) (formats_in g) (page image) n m → m id ≡ Some (Bytes bytes)
        → (payloads : List (List ℕ)) × HasFrames g image payloads × (bytes ≡ joined_bodies (formats_in g) payloads) × IsPutFound g image id bytes payloads }
{}
