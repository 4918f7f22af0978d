//! The formats have room.
ghost use Rattle.std.specs.Prelude.{◌≡◌, ℕ, true};
ghost use Rattle.cs_extent.specs.State.{State as ExtentsState, shape};
ghost use Rattle.cs_frame.specs.Formats.{formats_of};
ghost use Rattle.cs_frame.specs.Geometries.{IsGeometry, section_size};
ghost use Rattle.law_machine.specs.Format.{Format};
ghost use Rattle.law_machine.specs.Geometry.{shape_of};
ghost use Rattle.law_room.specs.Lives.{IsFormatWithRoom};
ghost use Rattle.law_room.specs.OfMachine.{ChunksFit};
ghost use Rattle.law_room_in_store.specs.Images.{HasGeometry};

/// In a store of any geometry a section tells the pointers of its extents, and each run and each chunk fits on an
/// extent: all that room asks of a format.
pub fn formats_have_room()
    ensures room { (format : Format) (extents pages sections : ℕ) → IsGeometry format extents pages sections
        → let S = shape_of extents pages sections (section_size extents sections) format in IsFormatWithRoom S (formats_of S) }
    ensures chunks { (format : Format) (extents pages sections : ℕ) → IsGeometry format extents pages sections
        → let S = shape_of extents pages sections (section_size extents sections) format in ChunksFit S (formats_of S) }
    // The same in the words of a store's extents.
    ensures store { (x : ExtentsState) → HasGeometry x
        → IsFormatWithRoom (shape x) (formats_of (shape x)) × ChunksFit (shape x) (formats_of (shape x)) }
{}
