//! The commands, each with its options.

use crate::choices::{
    ACCEPT_LOSS, ALL, ANY_STORE, AS_OF, DEEP, DEVICE, DEVICE_PAGES, EXTENTS, FILE, FOR, FORCE,
    FROM, FROM_PAGE, IDENTITY, JSON, LOST_EXTENTS, LOST_PAGES, LOST_SECTIONS, MAP, MAP_SVG, MODE,
    NO_LOCK, NO_SEAL, PAGES, REPAIR, RESERVE, SALVAGE, SALVAGE_FRAMES, SECTIONS, SHARD, SHARD_SIZE,
    SHARDS, SIZE, SKIP_EXTENT, STORE, SUMMARY, WAIT,
};
use crate::examples;
use crate::forms::{Choice, Form, Takes};

/// The commands that make a store, and those over one shard.
pub const SHARD_FORMS: &[Form] = &[
    Form {
        name: "create",
        about: "Makes a new store in a file, or on a block device",
        after: Some(examples::CREATE),
        options: &[
            STORE, SIZE, SHARD_SIZE, SHARDS, EXTENTS, PAGES, SECTIONS, DEVICE, FORCE, MODE, JSON,
            FILE,
        ],
    },
    Form {
        name: "put",
        about: "Puts the bytes of standard input under an identifier, and makes that persistent",
        after: Some(examples::PUT),
        options: &[
            SHARD,
            STORE,
            RESERVE,
            ACCEPT_LOSS,
            SKIP_EXTENT,
            NO_SEAL,
            DEVICE_PAGES,
            WAIT,
            JSON,
            FILE,
        ],
    },
    Form {
        name: "get",
        about: "Writes the bytes under an identifier to standard output",
        after: Some(examples::GET),
        options: &[
            SHARD,
            STORE,
            IDENTITY,
            AS_OF,
            SALVAGE,
            DEVICE_PAGES,
            WAIT,
            NO_LOCK,
            JSON,
            FILE,
        ],
    },
    Form {
        name: "del",
        about: "Deletes a shard, and makes that persistent",
        after: Some(examples::DELETE),
        options: &[
            SHARD,
            STORE,
            ACCEPT_LOSS,
            SKIP_EXTENT,
            NO_SEAL,
            DEVICE_PAGES,
            WAIT,
            JSON,
            FILE,
        ],
    },
];

/// The commands over the whole of a store.
pub const WHOLE_FORMS: &[Form] = &[
    Form {
        name: "list",
        about: "Prints the identifiers of all shards, in order",
        after: Some(examples::LIST),
        options: &[
            STORE,
            FROM,
            Choice {
                name: "limit",
                takes: Takes::NumberOrNone,
                help: "Prints so many at most",
            },
            IDENTITY,
            AS_OF,
            SALVAGE,
            DEVICE_PAGES,
            WAIT,
            NO_LOCK,
            JSON,
            FILE,
        ],
    },
    Form {
        name: "stat",
        about: "Prints the geometry of a store, and how full it is",
        after: Some(examples::STAT),
        options: &[
            STORE,
            SUMMARY,
            MAP,
            MAP_SVG,
            IDENTITY,
            AS_OF,
            DEVICE_PAGES,
            WAIT,
            NO_LOCK,
            JSON,
            FILE,
        ],
    },
    Form {
        name: "scrub",
        about: "Reads all that a store has, and prints what cannot be read",
        after: Some(examples::SCRUB),
        options: &[
            STORE,
            IDENTITY,
            AS_OF,
            REPAIR,
            ACCEPT_LOSS,
            DEVICE_PAGES,
            WAIT,
            NO_LOCK,
            JSON,
            FILE,
        ],
    },
    Form {
        name: "doctor",
        about: "Prints what is wrong with a store, and which commands to type next",
        after: Some(examples::DOCTOR),
        options: &[
            STORE,
            DEEP,
            IDENTITY,
            DEVICE_PAGES,
            WAIT,
            NO_LOCK,
            JSON,
            FILE,
        ],
    },
    Form {
        name: "reclaim",
        about: "Empties the extents that have the most garbage, and makes that persistent",
        after: Some(examples::RECLAIM),
        options: &[
            STORE,
            FOR,
            ALL,
            ACCEPT_LOSS,
            SKIP_EXTENT,
            NO_SEAL,
            DEVICE_PAGES,
            WAIT,
            JSON,
            FILE,
        ],
    },
];

/// The commands that copy one.
pub const COPY_FORMS: &[Form] = &[
    Form {
        name: "copy",
        about: "Copies a store into a new one, reads it back and compares",
        after: Some(examples::COPY),
        options: &[
            Choice {
                name: "source",
                takes: Takes::Word("FROM"),
                help: "The file of the store that is copied",
            },
            Choice {
                name: "target",
                takes: Takes::Word("TO"),
                help: "The file of the new store, which must not be there",
            },
            SIZE,
            SHARD_SIZE,
            SHARDS,
            EXTENTS,
            PAGES,
            SECTIONS,
            IDENTITY,
            DEVICE_PAGES,
            MODE,
            WAIT,
            NO_LOCK,
            JSON,
        ],
    },
    Form {
        name: "export",
        about: "Prints a script that puts all shards",
        after: Some(examples::EXPORT),
        options: &[
            STORE,
            FROM,
            IDENTITY,
            AS_OF,
            SALVAGE_FRAMES,
            ANY_STORE,
            FROM_PAGE,
            LOST_EXTENTS,
            LOST_PAGES,
            LOST_SECTIONS,
            DEVICE_PAGES,
            WAIT,
            NO_LOCK,
            JSON,
            FILE,
        ],
    },
];

/// The commands that have a store of their own, or none.
pub const OTHER_FORMS: &[Form] = &[
    Form {
        name: "run",
        about: "Runs a script from standard input over a store in memory, or in a file",
        after: Some(examples::RUN),
        options: &[
            Choice {
                name: "format",
                takes: Takes::Number("2"),
                help: "The format of a new store: 2, or 4, which has more room and survives more damage",
            },
            Choice {
                name: "extents",
                takes: Takes::Number("6"),
                help: "How many extents a new store has, 4 to 2,048; in format 4 from 5 to 7,680",
            },
            Choice {
                name: "pages",
                takes: Takes::Number("2"),
                help: "How many pages of 4,096 bytes an extent of a new store has, 2 to 256; in format 4 to 65,535",
            },
            Choice {
                name: "sections",
                takes: Takes::NumberOrNone,
                help: "How many sections the superblock of a new store has, 1 to 8, in format 4 to 15 [default: as few as its extents need]",
            },
            Choice {
                name: "file",
                takes: Takes::Text("FILE"),
                help: "The file of the store; without it the store is in memory",
            },
            Choice {
                name: "new",
                takes: Takes::Nothing,
                help: "Makes a new store in the file, and loses what is in it",
            },
            AS_OF,
            ACCEPT_LOSS,
            SKIP_EXTENT,
            DEVICE_PAGES,
            Choice {
                name: "strict",
                takes: Takes::Nothing,
                help: "Ends at the first line that is refused or cannot be read, with status 1",
            },
            WAIT,
        ],
    },
    Form {
        name: "check",
        about: "Checks a plan document from standard input",
        after: Some(examples::CHECK),
        options: &[],
    },
    Form {
        name: "graph",
        about: "Draws a plan document from standard input, as a graph for Graphviz",
        after: Some(examples::GRAPH),
        options: &[],
    },
    Form {
        name: "race",
        about: "Runs threads that put, get back and poll on one store in memory, and closes it",
        after: Some(examples::RACE),
        options: &[
            Choice {
                name: "threads",
                takes: Takes::Number("4"),
                help: "How many threads put, 1 to 64",
            },
            Choice {
                name: "puts",
                takes: Takes::Number("10"),
                help: "How many shards each of them puts, 0 to 1,000",
            },
            Choice {
                name: "drop",
                takes: Takes::Number("0"),
                help: "How many of its first tickets the first thread drops, at most as many as it puts",
            },
            Choice {
                name: "stream",
                takes: Takes::Nothing,
                help: "Stages before each round, so that rounds of several syncs overlap",
            },
        ],
    },
    Form {
        name: "bench",
        about: "Measures puts, batches and gets of a new store in a file",
        after: Some(examples::BENCH),
        options: &[
            STORE,
            Choice {
                name: "calls",
                takes: Takes::Number("100"),
                help: "How many puts, batches and gets, 1 to 100,000",
            },
            Choice {
                name: "batch",
                takes: Takes::Number("100"),
                help: "How many puts a batch has, 1 to 10,000",
            },
            Choice {
                name: "bytes",
                takes: Takes::Number("4000"),
                help: "How many bytes a shard has, 0 to 8,388,280",
            },
            Choice {
                name: "format",
                takes: Takes::Number("4"),
                help: "The format of the store: 4, or 2",
            },
            Choice {
                name: "extents",
                takes: Takes::Number("64"),
                help: "How many extents the store has, 4 to 2,048; in format 4 from 5 to 7,680",
            },
            Choice {
                name: "pages",
                takes: Takes::Number("256"),
                help: "How many pages of 4,096 bytes an extent has, 2 to 256; in format 4 to 65,535",
            },
            JSON,
            FILE,
        ],
    },
];
