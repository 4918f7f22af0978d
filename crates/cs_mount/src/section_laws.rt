//! When the sections of a superblock may be written anew outside a core.
ghost use Rattle.cs_disk.specs.Disk.{Image, page};
ghost use Rattle.cs_frame.specs.Formats.{formats_of};
ghost use Rattle.cs_frame.specs.Geometries.{Dimensions, IsGeometry};
ghost use Rattle.cs_frame.specs.Superblocks.{superblock_version};
ghost use Rattle.cs_mount.specs.LeftOut.{IsLeftOut, NoneDamagedOn, NothingOn, row_page};
ghost use Rattle.cs_mount.specs.Resectioned.{AgreeBesideSections, HasSections, KeepDamage, KeepLiving, Lives};
ghost use Rattle.cs_mount.specs.Seals.{HasOlderRoot, is_sealed, sealed_image};
ghost use Rattle.cs_mount.specs.StorePairs.{pages_of, store_shape};
ghost use Rattle.cs_reader.specs.Openings.{IsWhyNotOpened};
ghost use Rattle.law_machine.specs.Device.{Page, Shape};
ghost use Rattle.law_machine.specs.Element.{Locator, Map};
ghost use Rattle.law_machine.specs.Formats.{Formats};
ghost use Rattle.law_machine.specs.Geometry.{twins_in};
ghost use Rattle.law_machine.specs.Recovery.{Recovers};
ghost use Rattle.std.specs.Prelude.{◌≡◌, ◌+◌, ◌<◌, ◌^◌, ℕ, false, true};

use cs_refusal::Refusal;

/// The sections of a superblock may be written anew, as those of format 4 are. An image recovers some commands and a
/// map. Another image has the same root and the same pages of extents, and its sections record no later root. Each
/// extent on which a run of the root or a live chunk lies has its generation there, and no fewer of its pages are given.
/// Of the other extents pointer and generation are any that fit. Then that image recovers the same commands and the
/// same map. The one thing asked of damaged chunks is that they are refused as before; where an extent has its pointer
/// they are.
pub fn sections_may_change()
    ensures same { (S : Shape) (F : Formats) (img other : ℕ → Page) (n : ℕ) (m : Map) (found : Recovers S F img n m) (p g : ℕ → ℕ) → S.hidden_stand ≡ false
        → AgreeBesideSections S img other → HasSections S F other found.version p g
        → KeepLiving found.runs found.pointers found.generations p g → KeepDamage S F img found.runs found.pointers found.generations p g
        → Recovers S F other n m }
    // Where each extent on which something lives has its pointer and its generation, a damaged chunk is refused as before.
    ensures damage { (S : Shape) (F : Formats) (img : ℕ → Page) (n : ℕ) (m : Map) (found : Recovers S F img n m) (p g : ℕ → ℕ)
        → ((l : Locator) → Lives found.runs l → (p l.extent ≡ found.pointers l.extent) × (g l.extent ≡ found.generations l.extent))
        → KeepDamage S F img found.runs found.pointers found.generations p g }
{}

/// A store that is sealed recovers the same commands and the same map. Its section 0 has one version more, so that
/// there must be one.
pub fn a_seal_keeps_the_map()
    ensures { (d : Dimensions) (image : Image) (n : ℕ) (m : Map) → IsGeometry d.format d.extents d.pages d.sections → twins_in d.format ≡ true
        → Recovers (store_shape d) (formats_of (store_shape d)) (page image) n m → (is_sealed image ≡ false → superblock_version (page image 0) + 1 < 2 ^ 63)
        → Recovers (store_shape d) (formats_of (store_shape d)) (page (sealed_image image)) n m }
{}

/// A store of which an extent is left out recovers the same commands and the same map, if no live chunk on the extent is
/// damaged. Its section has one version more, so that there must be one.
pub fn an_extent_may_be_left_out()
    ensures { (d : Dimensions) (image other : Image) (extent n : ℕ) (m : Map) → IsGeometry d.format d.extents d.pages d.sections → twins_in d.format ≡ true → extent < d.extents
        → (found : Recovers (store_shape d) (formats_of (store_shape d)) (page image) n m) → superblock_version (page image (row_page d extent)) + 1 < 2 ^ 63
        → NoneDamagedOn (store_shape d) (formats_of (store_shape d)) image found.runs found.pointers found.generations extent → IsLeftOut d extent found.runs image other
        → Recovers (store_shape d) (formats_of (store_shape d)) (page other) n m }
{}

/// An extent that is left out is full, by whatever is recovered of the store then. If nothing lives on it, it has the
/// greatest generation, and is never emptied. So nothing is put or copied there.
pub fn an_extent_left_out_is_full()
    ensures { (d : Dimensions) (image other : Image) (extent n : ℕ) (m : Map) → IsGeometry d.format d.extents d.pages d.sections → twins_in d.format ≡ true → extent < d.extents
        → (found : Recovers (store_shape d) (formats_of (store_shape d)) (page image) n m) → superblock_version (page image (row_page d extent)) + 1 < 2 ^ 63 → IsLeftOut d extent found.runs image other
        → (o : ℕ) (p : Map) (after : Recovers (store_shape d) (formats_of (store_shape d)) (page other) o p)
        → (after.pointers extent ≡ d.pages) × (NothingOn found.runs extent → after.generations extent ≡ 4294967295) }
{}

/// A store that is sealed is opened with its newest root or not at all.
pub fn a_sealed_store_misses_its_root()
    // It is sealed.
    ensures sealed { (d : Dimensions) (image : Image) (n : ℕ) (m : Map) → IsGeometry d.format d.extents d.pages d.sections → twins_in d.format ≡ true
        → Recovers (store_shape d) (formats_of (store_shape d)) (page image) n m → (is_sealed image ≡ false → superblock_version (page image 0) + 1 < 2 ^ 63)
        → is_sealed (sealed_image image) ≡ true }
    // If then an older root shows in place of the newest nothing is recovered,
    ensures missed { (d : Dimensions) (image other : Image) (n k : ℕ) (m o : Map) → IsGeometry d.format d.extents d.pages d.sections → twins_in d.format ≡ true
        → Recovers (store_shape d) (formats_of (store_shape d)) (page image) n m → is_sealed image ≡ true → HasOlderRoot d image other
        → ¬ Recovers (store_shape d) (formats_of (store_shape d)) (page other) k o }
    // and an opening is refused 27.
    ensures refused { (d : Dimensions) (image other : Image) (n : ℕ) (m : Map) → IsGeometry d.format d.extents d.pages d.sections → twins_in d.format ≡ true
        → Recovers (store_shape d) (formats_of (store_shape d)) (page image) n m → is_sealed image ≡ true → HasOlderRoot d image other
        → IsWhyNotOpened (pages_of d) (page other) Refusal.RootLost }
{}
