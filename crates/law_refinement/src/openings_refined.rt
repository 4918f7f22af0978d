//! A store as it is made, and as it is opened.
ghost use Rattle.std.specs.Prelude.{◌≡◌, ◌≤◌, ℕ, false, List, [], length, true};
ghost use Rattle.law_refinement.specs.Openings.{IsStartOf, StartsNew, StartsOn, image_after, opened_on, view_after, AreFreedUnder, IsStartApartOf, StartsReadApart};
ghost use Rattle.cs_disk.specs.Disk.{Image, IsWhole as IsWholeDisk, MayLeave, State as DiskState, Write, page, seen};
ghost use Rattle.cs_extent.specs.State.{IsWhole, State as ExtentsState, shape};
ghost use Rattle.cs_frame.specs.Geometries.{IsGeometry, device_pages};
ghost use Rattle.cs_frame.specs.Roots.{SpellsRoot, identity_in};
ghost use Rattle.law_refinement.specs.Images.{AreNewSections, IsFoundFor, AreExtentsNoted};
ghost use Rattle.cs_reader.specs.Loads.{graph_at, index_at};
ghost use Rattle.cs_reader.specs.ImageReads.{ArePages};
ghost use Rattle.cs_index.specs.declared.stored_runs.StoredRun.{StoredRun};
ghost use Rattle.law_machine.specs.Element.{Map, Run};
ghost use Rattle.law_machine.specs.Format.{Format};
ghost use Rattle.law_refinement.specs.StoresRead.{HasPages, IsRead, StoreRead, extents_in, graph_in, index_in, IsVisiblyRead};
ghost use Rattle.law_refinement.specs.Machines.{RecoversFor};
ghost use Rattle.cs_index.specs.State.{newest_first};

/// Where chunks and runs may lie on one extent what is found on an image is the start of the machine: the extents, a graph of the
/// versions that were read, and an index of the runs are the parts of the state at open, the disk is its disk, and no command is counted.
pub fn what_is_found_is_the_start()
    ensures { (x : ExtentsState) (image : Image) (versions : List ℕ) (root : ℕ) (format : Format) (limit n : ℕ) (runs : List Run) (m : Map)
        (found : RecoversFor x (page image) n m) → (shape x).apart ≡ false → IsWhole x
        → IsFoundFor x (page image) n m found x versions root runs
        → IsStartOf x (graph_at versions root) (index_at runs format limit) image (opened_on x image n m found) }
{}

/// A new store is a store of the machine with no command and no shard, by either rule.
pub fn new_store_refines_start()
    // Of the pages of the sections and of the root that were written, in whatever order, and then flushed.
    ensures written { (disk : DiskState) (writes : List Write) (format : Format) (extents pages sections limit : ℕ)
        → IsGeometry format extents pages sections → device_pages format extents pages sections ≤ length disk.durable
        → AreNewSections (view_after disk writes) format extents pages sections → SpellsRoot (view_after disk writes 1) (identity_in format) 1 0 []
        → StartsNew format extents pages sections limit (image_after disk writes) }
    // Of an image that has such pages.
    ensures image { (image : Image) (format : Format) (extents pages sections limit : ℕ) → IsGeometry format extents pages sections
        → AreNewSections (page image) format extents pages sections → SpellsRoot (page image 1) (identity_in format) 1 0 []
        → StartsNew format extents pages sections limit image }
{}

/// Where chunks and runs may lie on one extent a store that was read is a store of the machine, with as many commands as its root says.
pub fn read_store_refines_start()
    ensures { (image : Image) (read : StoreRead) (limit : ℕ) (runs : List StoredRun)
        → (shape (extents_in read)).apart ≡ false → HasPages (page image) read → IsRead (page image) read runs
        → (m : Map) × StartsOn (extents_in read) image read.commands m (graph_in read) (index_in read runs limit) }
{}

/// What a disk holds, and what a crash may leave of it, are pages of bytes, where the disk is whole.
pub fn whole_disks_have_pages()
    ensures seen { (disk : DiskState) (count : ℕ) → IsWholeDisk disk → count ≤ length disk.durable
        → ArePages count (page (seen disk)) }
    ensures left { (disk : DiskState) (image : Image) (count : ℕ) → IsWholeDisk disk → MayLeave disk image
        → count ≤ length disk.durable → ArePages count (page image) }
{}

/// Where chunks and runs lie apart, what is found on an image is the start of the machine once the blank extents are freed under the root
/// that was read: the extents then, a graph of the versions, an index of the runs and no copy are the parts of the state at open.
pub fn stores_apart_refine_start()
    ensures found { (x y : ExtentsState) (image : Image) (versions : List ℕ) (root : ℕ) (format : Format) (limit n : ℕ) (runs : List Run) (m : Map)
        (found : RecoversFor x (page image) n m) → (shape x).apart ≡ true → IsWhole x
        → IsFoundFor x (page image) n m found x versions root runs → AreFreedUnder x (index_at runs format limit) root y
        → IsStartApartOf y (graph_at versions root) (index_at runs format limit) image (opened_on x image n m found) }
    // A store that was read, of which a hidden entry may name what is gone, and of which it is noted on which extents runs lie.
    ensures read { (image : Image) (read : StoreRead) (limit : ℕ) (runs : List StoredRun) (noted y : ExtentsState)
        → HasPages (page image) read → IsVisiblyRead (page image) read runs
        → (let x = extents_in read in (shape x).hidden_stand ≡ false → (shape x).apart ≡ true → IsWhole noted
        → AreExtentsNoted x (newest_first runs) noted → AreFreedUnder noted (index_in read runs limit) read.root y
        → StartsReadApart image read runs limit y) }
{}
