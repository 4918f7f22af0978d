//! What is found of the store in a file, and the exit status that it has.
ghost use Rattle.std.specs.Prelude.{◌≡◌, ◌≤◌};
ghost use Rattle.cs_doctor.specs.Doctor.{are_sound_pairs, are_sound_runs, has_right_length, is_sound, is_sound_half, is_sound_pair, is_sound_run, reads_all, status_of_diagnosis, status_of_file};

use cs_advice::{Content, Outcome};
use cs_disk::SystemFault;
use cs_frame::{Geometry, Locator};
use cs_inspect::Scrubbed;
use cs_refusal::Refusal;
use cs_salvage::Part;
use cs_twin::{Half, Pair};

/// What the two pages of a pair hold. None: the page can't be read.
#[derive(Clone, Copy)]
pub struct PairFound {
    pub pair: Pair,
    /// What the page holds that has the pair's number.
    pub own: Option<Half>,
    /// What its twin holds.
    pub twin: Option<Half>,
}

/// A run of the index.
#[derive(Clone, Copy)]
pub struct RunFound {
    /// Where its frame begins.
    pub place: Locator,
    /// How many entries it has, or why it can't be read.
    pub entries: Result<usize, Refusal>,
}

/// The newest root that is whole.
#[derive(Clone, Copy)]
pub struct RootFound {
    pub version: u64,
    /// How many commands it counts.
    pub commands: u64,
    /// Whether a section records a later root.
    pub lost: bool,
}

/// The shards that the readable runs name if the store isn't opened.
#[derive(Clone, Copy)]
pub struct Rest {
    /// How many they name.
    pub shards: usize,
    /// How many of them can't be read.
    pub unread: usize,
}

/// Whether the store opens.
#[derive(Drop)]
pub enum Opening {
    /// It opens with so many shards, and all that its index names was read.
    Opened {
        shards: usize,
        scrubbed: Scrubbed,
    },
    /// It is refused. The readable runs name the rest, if root and superblock can be read.
    Refused {
        refusal: Refusal,
        rest: Option<Rest>,
    },
}

/// What superblock and root name.
#[derive(Drop)]
pub struct HeadFound {
    /// None if superblock or root can't be read.
    pub root: Option<RootFound>,
    /// The runs of the root, oldest first.
    pub runs: Vec<RunFound>,
    /// The extents that are never emptied any more, since their generation is the greatest.
    pub worn: Vec<u16>,
}

/// What is found of a store by its root and its index.
#[derive(Drop)]
pub struct StoreFound {
    pub head: HeadFound,
    pub opening: Opening,
}

/// The frames of shards on the device.
#[derive(Drop)]
pub struct Frames {
    /// The pages of extents that can't be read. No frame has one.
    pub unreadable: Vec<u64>,
    /// Each whole frame.
    pub parts: Vec<Part>,
    /// How many identifiers have a whole shard.
    pub shards: usize,
    /// How many identifiers have a newest put that isn't whole.
    pub missing: usize,
}

/// What is found if all pages of all extents are read.
#[derive(Drop)]
pub enum Deep {
    /// They weren't read.
    NotAsked,
    /// No store of format 4 is found, so it isn't known which pages to read.
    NoStore,
    /// They were read.
    Found(Frames),
}

/// What is found of a disk's pages, before its store is opened.
#[derive(Drop)]
pub struct Looked {
    /// How many pages the disk has.
    pub pages: u64,
    pub content: Content,
    /// The geometry that page 0 or the last page says. It may ask for another number of pages.
    pub geometry: Option<Geometry>,
    /// The pairs: of section 0, of the root, and of the other sections.
    pub pairs: Vec<PairFound>,
    pub deep: Deep,
}

/// What is found of the store on a disk.
#[derive(Drop)]
pub struct Diagnosis {
    /// How many pages the file or the device has. Those after the store's don't belong to the disk.
    pub file_pages: u64,
    pub looked: Looked,
    /// The pages of pairs that were passed over as the store was opened, since they couldn't be read.
    pub hidden: Vec<u64>,
    /// The pages on which a section of the superblock is lost, if the store opens only with these sections made from its
    /// index.
    pub made: Vec<u64>,
    pub store: StoreFound,
}

/// What is found of a file.
#[derive(Drop)]
pub enum FileDiagnosis {
    /// The system refuses to open it.
    Unopened(SystemFault),
    /// Another process has it open. So many pages it has, and page 0 says this geometry.
    InUse {
        pages: u64,
        geometry: Option<Geometry>,
    },
    /// It has so many bytes, which is no multiple of 4,096.
    OddLength {
        bytes: u64,
    },
    /// It was read.
    Found(Diagnosis),
}

/// Whether a page of a pair can be read, and is whole or a fence.
fn is_sound_half(half: Option<Half>) -> bool
    ensures { result ≡ is_sound_half half }
{
    match half {
        Some(Half::Whole(_)) | Some(Half::Fence) => true,
        Some(Half::Damaged) | None => false,
    }
}

/// Whether both pages of a pair are sound.
pub fn is_sound_pair(found: &PairFound) -> bool
    ensures { result ≡ is_sound_pair found.now }
{
    is_sound_half(found.own) && is_sound_half(found.twin)
}

/// Whether all pairs are sound.
pub fn are_sound_pairs(pairs: &[PairFound]) -> bool
    ensures { result ≡ are_sound_pairs pairs.now }
{
    pairs.iter().all(is_sound_pair)
}

/// Whether a run was read.
fn is_sound_run(run: &RunFound) -> bool
    ensures { result ≡ is_sound_run run.now }
{
    run.entries.is_ok()
}

/// Whether all runs were read.
pub fn are_sound_runs(runs: &[RunFound]) -> bool
    ensures { result ≡ are_sound_runs runs.now }
{
    runs.iter().all(is_sound_run)
}

impl Opening {
    /// Whether the store opens, and all that its index names can be read.
    pub fn reads_all(&self) -> bool
        ensures { result ≡ reads_all self.now }
    {
        match self {
            Opening::Opened { scrubbed, .. } => scrubbed.damages.is_empty(),
            Opening::Refused { .. } => false,
        }
    }
}

impl Diagnosis {
    /// Whether the disk holds a store of its pages, and the file has no others.
    fn has_right_length(&self) -> bool
        ensures { result ≡ has_right_length self.now }
    {
        match self.looked.content {
            Content::Store { .. } => self.file_pages == self.looked.pages,
            _ => false,
        }
    }

    /// Whether nothing is wrong with the store.
    pub fn is_sound(&self) -> bool
        ensures { result ≡ is_sound self.now }
    {
        self.has_right_length()
            && are_sound_pairs(&self.looked.pairs)
            && are_sound_runs(&self.store.head.runs)
            && self.store.opening.reads_all()
            && self.made.is_empty()
    }

    /// The exit status: 0 if the store is sound, 3 if it isn't opened, else 5.
    pub fn status(&self) -> u8
        ensures { result ≡ status_of_diagnosis self.now }
    {
        match self.store.opening {
            Opening::Opened { .. } => {
                if self.is_sound() {
                    cs_words::DONE
                } else {
                    cs_words::DAMAGED
                }
            }
            Opening::Refused { .. } => cs_words::NO_STORE,
        }
    }
}

impl FileDiagnosis {
    /// The exit status: also 6 if another process has the file open, and 7 if the file isn't there or may not be read.
    pub fn status(&self) -> u8
        ensures status { result ≡ status_of_file self.now }
        ensures most { result ≤ 7 }
    {
        match self {
            FileDiagnosis::Unopened(fault) => Outcome::Unopened(*fault).status(),
            FileDiagnosis::InUse { .. } => cs_words::IN_USE,
            FileDiagnosis::OddLength { .. } => cs_words::NO_STORE,
            FileDiagnosis::Found(diagnosis) => diagnosis.status(),
        }
    }
}
