//! What a store gives of which sections were lost.
ghost use Rattle.std.specs.Prelude.{◌≡◌, [], List, Some, length, true, ℕ};
ghost use Rattle.cs_disk.specs.Disk.{Image, IsWhole, Write, page};
ghost use Rattle.cs_frame.specs.Formats.{formats_of};
ghost use Rattle.cs_frame.specs.Geometries.{Dimensions, IsGeometry};
ghost use Rattle.law_machine.specs.Device.{Page};
ghost use Rattle.law_machine.specs.Element.{Map};
ghost use Rattle.law_machine.specs.Geometry.{twins_in};
ghost use Rattle.law_machine.specs.Recovery.{Recovers};
ghost use Rattle.cs_mount.specs.MadeSections.{AgreeOnWhole, AreMade, IsWithOthers};
ghost use Rattle.cs_mount.specs.Remaking.{remade};
ghost use Rattle.cs_mount.specs.Showing.{shown_on};
ghost use Rattle.cs_mount.specs.StorePairs.{dimensions_on, pages_of, store_shape};

/// Sections that are made give the map that the lost ones would have given. If an image with other sections in place of
/// those that are made recovers some commands and a map, an opening of what `remake` leaves, or of what `Remade` shows,
/// finds the store again, and recovers as many commands. Of each shard that isn't damaged it recovers the same. A shard
/// that is damaged there may be refused by another number, or be whole, since its frame may reach further.
pub fn made_sections_give_the_map()
    ensures { (d : Dimensions) (image : Image) (writes : List Write) → IsGeometry d.format d.extents d.pages d.sections → twins_in d.format ≡ true → length image ≡ pages_of d
        → IsWhole (record { durable = image; volatile = [] }) → dimensions_on (pages_of d) image ≡ Some d → (made : AreMade d image writes)
        → (view : ℕ → Page) (n : ℕ) (m : Map) → Recovers (store_shape d) (formats_of (store_shape d)) view n m → IsWithOthers d image made.version made.named view
        → (dimensions_on (pages_of d) (remade writes image) ≡ Some d)
        × ((o : Map) × Recovers (store_shape d) (formats_of (store_shape d)) (page (shown_on (pages_of d) (remade writes image))) n o × AgreeOnWhole m o) }
{}
