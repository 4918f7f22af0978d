//! The words and options that several commands have.

use crate::forms::{Choice, Takes};

/// The file of a store, as a word.
pub const STORE: Choice = Choice {
    name: "store",
    takes: Takes::WordOrNone("FILE"),
    help: "The file of the store [or --file FILE, or the environment's NUGGETLOCH_FILE]",
};

/// The same as an option.
pub const FILE: Choice = Choice {
    name: "file",
    takes: Takes::Text("FILE"),
    help: "The same, as an option",
};

/// The identifier of a shard.
pub const SHARD: Choice = Choice {
    name: "shard",
    takes: Takes::Word("ID"),
    help: "The identifier, a UUID",
};

/// The identifier from which on shards are taken.
pub const FROM: Choice = Choice {
    name: "from",
    takes: Takes::Text("ID"),
    help: "Begins at this identifier [default: the first]",
};

/// How long to wait for a file that is in use.
pub const WAIT: Choice = Choice {
    name: "wait",
    takes: Takes::Number("0"),
    help: "Waits at most so many seconds while another process has the file open",
};

/// Reads without a lock.
pub const NO_LOCK: Choice = Choice {
    name: "no-lock",
    takes: Takes::Nothing,
    help: "Takes no lock, for file systems that have none; if another process writes, what is read may be wrong",
};

/// Which of two stores on one device is read.
pub const IDENTITY: Choice = Choice {
    name: "id",
    takes: Takes::Text("IDENTITY"),
    help: "Of two stores on one device reads the one with this identity, 32 hex digits or a UUID",
};

/// The pages of a device that has more now.
pub const DEVICE_PAGES: Choice = Choice {
    name: "device-pages",
    takes: Takes::NumberOrNone,
    help: "How many pages of 4,096 bytes the store's device has; for one that is longer now and whose page 0 is damaged",
};

/// The option for lines that programs read.
pub const JSON: Choice = Choice {
    name: "json",
    takes: Takes::Nothing,
    help: "Prints JSON objects, one a line, also for refusals and warnings",
};

/// The option for a store of which a newer root was persistent than is whole.
pub const AS_OF: Choice = Choice {
    name: "as-of",
    takes: Takes::Nothing,
    help: "Opens the store as of its newest whole root if it is refused 27 RootLost; nothing is written",
};

/// The option for a store that is damaged.
pub const SALVAGE: Choice = Choice {
    name: "salvage",
    takes: Takes::Nothing,
    help: "Reads what can be read if a run of the index is damaged or a newer root is lost; nothing is written",
};

/// The same of an export, which asks no index.
pub const SALVAGE_FRAMES: Choice = Choice {
    name: "salvage",
    takes: Takes::Nothing,
    help: "Prints the newest whole shard of each identifier that the frames in the file have, whatever the index says",
};

/// The option for frames of other stores.
pub const ANY_STORE: Choice = Choice {
    name: "any-store",
    takes: Takes::Nothing,
    help: "With --salvage: prints also what frames of other stores have that lie in the file",
};

/// The option for a scan that goes on.
pub const FROM_PAGE: Choice = Choice {
    name: "from-page",
    takes: Takes::NumberOrNone,
    help: "With --salvage: begins at this page of 4,096 bytes, to go on after a scan that was ended; frames before it are left out",
};

/// The extents of a store whose superblock is lost.
pub const LOST_EXTENTS: Choice = Choice {
    name: "extents",
    takes: Takes::NumberOrNone,
    help: "With --salvage, if both copies of section 0 of the superblock are lost: how many extents the store has",
};

/// Their pages.
pub const LOST_PAGES: Choice = Choice {
    name: "pages",
    takes: Takes::NumberOrNone,
    help: "With --extents: how many pages of 4,096 bytes an extent has",
};

/// The sections of its superblock.
pub const LOST_SECTIONS: Choice = Choice {
    name: "sections",
    takes: Takes::NumberOrNone,
    help: "With --extents: how many sections the superblock has [default: as few as the extents need]",
};

/// The option for pages that aren't whole.
pub const REPAIR: Choice = Choice {
    name: "repair",
    takes: Takes::Nothing,
    help: "First writes each page of the superblock and of the root that is not whole anew from its other copy",
};

/// The option for writing though commands may be lost by it.
pub const ACCEPT_LOSS: Choice = Choice {
    name: "accept-loss",
    takes: Takes::Nothing,
    help: "Goes on if a page of which the store has two cannot be read, and gives that page up; with --repair also if the damaged page may be the newest root: it is kept as FILE.page-N",
};

/// The option for a store whose newest root isn't put on record.
pub const NO_SEAL: Choice = Choice {
    name: "no-seal",
    takes: Takes::Nothing,
    help: "Saves a page and a flush at the end: the newest root is not put on record, so its loss later is not noticed",
};

/// The option for an extent on which nothing is written any more.
pub const SKIP_EXTENT: Choice = Choice {
    name: "skip-extent",
    takes: Takes::NumberOrNone,
    help: "First leaves this extent out, for good: what lives there is moved away, and nothing is written there again",
};

/// The option for the room that a put leaves free.
pub const RESERVE: Choice = Choice {
    name: "reserve",
    takes: Takes::NumberOrNone,
    help: "Leaves so many hundredths of the room for shards free: a put of a new identifier beyond them is refused 36 [default: 15]",
};

/// The option for a diagnosis by all pages.
pub const DEEP: Choice = Choice {
    name: "deep",
    takes: Takes::Nothing,
    help: "Reads all pages too: those that cannot be read, the shards that frames spell, and commands that the root lacks",
};

/// The most that a new file may have.
pub const SIZE: Choice = Choice {
    name: "size",
    takes: Takes::Text("SIZE"),
    help: "The most that the file may have in all: a number of bytes, or of K, M, G or T [default: 64M, or all of a device]",
};

/// The largest shard that has to fit.
pub const SHARD_SIZE: Choice = Choice {
    name: "shard-size",
    takes: Takes::Text("SIZE"),
    help: "The largest shard that has to fit [default: 1M]",
};

/// How many identifiers have to fit.
pub const SHARDS: Choice = Choice {
    name: "shards",
    takes: Takes::NumberOrNone,
    help: "How many identifiers of one chunk each the index has to have room for [default: 1]",
};

/// The extents of a new store.
pub const EXTENTS: Choice = Choice {
    name: "extents",
    takes: Takes::NumberOrNone,
    help: "In place of the sizes: how many extents, 5 to 7,680 [default: 64]",
};

/// Their pages.
pub const PAGES: Choice = Choice {
    name: "pages",
    takes: Takes::NumberOrNone,
    help: "How many pages of 4,096 bytes an extent has, 2 to 65,535 [default: 256]",
};

/// The sections of its superblock.
pub const SECTIONS: Choice = Choice {
    name: "sections",
    takes: Takes::NumberOrNone,
    help: "How many sections the superblock has, 1 to 15 [default: as few as the extents need]",
};

/// The option for a store on a device.
pub const DEVICE: Choice = Choice {
    name: "device",
    takes: Takes::Nothing,
    help: "FILE is a block device, or a file that plays one: its size stays, and the store takes all of it by default",
};

/// The option for a store over what is there.
pub const FORCE: Choice = Choice {
    name: "force",
    takes: Takes::Nothing,
    help: "Makes the store over what is in FILE, also over a store, and reports what that was; it is lost",
};

/// The permissions of a new file.
pub const MODE: Choice = Choice {
    name: "mode",
    takes: Takes::TextOr("OCTAL", "0600"),
    help: "The permissions of the new file",
};

/// The option for a reclaim that makes room for a put.
pub const FOR: Choice = Choice {
    name: "for",
    takes: Takes::Text("BYTES"),
    help: "Goes on until a put of so many bytes has room: a number of bytes, or of K, M, G or T",
};

/// The option for a reclaim up to the brim.
pub const ALL: Choice = Choice {
    name: "all",
    takes: Takes::Nothing,
    help: "Goes on until no page is dead and no sweep is sure to gain anything",
};

/// The option for the figures that a person asks for.
pub const SUMMARY: Choice = Choice {
    name: "summary",
    takes: Takes::Nothing,
    help: "Prints a few lines instead: how full the store is, how much can still be put, and what a further page costs",
};

/// The option for a map of the extents.
pub const MAP: Choice = Choice {
    name: "map",
    takes: Takes::Nothing,
    help: "Prints one character for each extent instead, after the lines of --summary if that is given",
};

/// The option for a picture of the extents.
pub const MAP_SVG: Choice = Choice {
    name: "map-svg",
    takes: Takes::Text("PATH"),
    help: "Writes the map as a picture into a new file",
};
