//! What help says after the options of each command.

/// Of the program.
pub const PROGRAM: &str = "Example:
  cs_cli create s.store
  cs_cli put 00000000-0000-0000-0000-00000000000a s.store < shard
  cs_cli get 00000000-0000-0000-0000-00000000000a s.store > copy

FILE is the word after the command (and after ID), or --file FILE, or the environment's NUGGETLOCH_FILE.
Exit status, of all commands but run, race and check: 0 done, 1 refused or not found, 2 wrong command line,
3 no store, 4 standard input or output failed, 5 damaged, 6 in use, 7 not there or not allowed.";

/// Of `run`.
pub const RUN: &str = "Examples:
  cs_cli run --extents 64 --pages 8 < script   a store in memory, gone at the end
  cs_cli run --file s.store < script           the store that is there
  cs_cli run --file s.store --strict < script  the same; it ends at the first line that is refused

--file alone takes the geometry of the store. Without --file, --new has no effect.
--new empties the file first, whatever it has: `cs_cli create` makes a store and loses nothing.
Exit status: 0, also if a command was refused; 1 a line could not be read, or with --strict was refused;
3 no store; 4 standard input or output failed. Standard error names each such line and the reason.";

/// Of `get`.
pub const GET: &str = "Example:
  cs_cli get 00000000-0000-0000-0000-00000000000a s.store > shard

Exit status: 0 found, 1 nothing under it, 5 it cannot be read, or with --salvage it is not known.";

/// Of `put`.
pub const PUT: &str = "Example:
  cs_cli put 00000000-0000-0000-0000-00000000000a s.store < shard

It prints nothing. Status 0: the bytes are persistent. Status 1: refused, and the store is as it was.
Each call opens the store. For many shards use `run`.";

/// Of `del`.
pub const DELETE: &str = "Example:
  cs_cli del 00000000-0000-0000-0000-00000000000a s.store

Exit status: 0 deleted and persistent, 1 nothing under it, or refused.";

/// Of `list`.
pub const LIST: &str = "Examples:
  cs_cli list s.store                                    all identifiers, in order
  cs_cli list s.store --from 8000... --limit 100 --json  100 of them, each as {\"id\":\"8000...\"}";

/// Of `export`.
pub const EXPORT: &str = "Example, all shards as a script:
  cs_cli export s.store > script

To copy a store use `copy`. To go on after an export that ended early use --from with the last identifier it printed.
A shard that cannot be read becomes a remark in the script, `# ID refused N Name`, and the exit status is 5.
With --salvage the script may have shards that were deleted later, or never acknowledged. Frames of another store that
lay on the device before are left out, unless --any-store is given. Pages that cannot be read are skipped and named, and
the exit status is 5 unless all of the file was read, and the index has just these shards.";

/// Of `stat`.
pub const STAT: &str = "Examples:
  cs_cli stat s.store                    all figures, with a line for each extent
  cs_cli stat s.store --summary --map    a few lines, and a character for each extent
  cs_cli stat s.store --map-svg map.svg  a picture of the extents

An extent's pointer is the number of its pages that are in use. Those of them that no shard has are dead: runs of the
index, and what was put again or deleted. Empty extents have no line.
The room that --summary prints is what puts find with `reclaim --for` between them.";

/// Of `scrub`.
pub const SCRUB: &str = "Example:
  cs_cli scrub s.store || echo damaged

Exit status: 0 all can be read, 5 something cannot, or may be lost. Each damage has a line with its number and name.
A page of the superblock or of the root that is not whole has a line too; its other copy is used.
--repair stops with status 5 and writes nothing if the damaged page may be the newest root: the repair would make the
loss of its commands final.";

/// Of `doctor`.
pub const DOCTOR: &str = "Examples:
  cs_cli doctor s.store          what is wrong, and which commands to type next
  cs_cli doctor --deep s.store   also by all pages of the file

It opens the file for reading and writes nothing. A page that cannot be read is reported, and it goes on.
Exit status: 0 sound, 5 degraded, 3 the store is not to be opened, 6 in use, 7 not there or not allowed.";

/// Of `reclaim`.
pub const RECLAIM: &str = "Examples:
  cs_cli reclaim s.store           as long as what lives on two extents fits on one
  cs_cli reclaim s.store --for 4M  until a put of 4 MiB has room
  cs_cli reclaim s.store --all     until nothing is left to gain

It moves the live chunks off the extents that have the most garbage, so that these extents can be written anew.
Each line reports an extent; the last one says how many are empty now and were before.
With --for, status 1 (refused 30 Full) means that the put has no room though nothing is left to gain.";

/// Of `create`.
pub const CREATE: &str = "Examples:
  cs_cli create s.store                                  64 MiB, for shards up to 1 MiB
  cs_cli create s.store --size 10G --shard-size 4M       larger
  cs_cli create s.store --size 1G --shards 1000000       for a million identifiers
  cs_cli create s.store --extents 64 --pages 256         this geometry
  cs_cli create --device /dev/sdx                        all of a block device

It prints the geometry that it chose, and the identity of the store. A file that is there and is not empty is refused
(46 NotEmpty), and stays as it is. So does a device, if one of its first or last 256 pages is not zeros.";

/// Of `copy`.
pub const COPY: &str = "Examples:
  cs_cli copy old.store new.store                in format 4, as large as the old one or as its shards need
  cs_cli copy old.store new.store --size 10G     larger

It writes TO.copying, reads back all of it and compares, and then gives it the name TO. Status 0: all shards are in TO and
persistent. Any other status: there is no TO, and FROM is as it was.";

/// Of `graph`.
pub const GRAPH: &str = "Example:
  cs_cli graph < plan.json | dot -Tsvg > plan.svg

The line `document` of a script prints such a document.";

/// Of `bench`.
pub const BENCH: &str = "Example:
  cs_cli bench /mnt/disk/trial.store --bytes 1000

It makes the file, measures, and removes it. A file that is there already is refused.";

/// Of `check`.
pub const CHECK: &str = "Example:
  echo document | cs_cli run --file s.store | cs_cli check";

/// Of `race`.
pub const RACE: &str = "Example:
  cs_cli race --threads 8 --puts 100 --stream";
