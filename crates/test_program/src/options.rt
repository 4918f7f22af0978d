//! The words of the command line, as they are read.
use clap::ArgMatches;
use clap::error::ErrorKind;
use cs_frame::StoreId;
use cs_options::{NoReach, Reach, command, geometry_of, race_of, reach_of};
use cs_refusal::Refusal;
use std::alloc::Global;
use std::process::Abort;
use std::test::{Fail, *};

/// What the words are read as.
fn read<'a>(
    alloc: Global,
    words: &'a [&'a str],
) -> Result<Result<ArgMatches<'a>, ErrorKind>, Fail> {
    match command(alloc)?.try_get_matches_from(words) {
        Ok(matches) => Ok(Ok(matches)),
        Err(error) => Ok(Err(error.kind())),
    }
}

/// The pages of the device that the command of these words asks for, or why there is no such geometry.
fn device_pages(
    rt: &(impl Abort + AllocGlobal),
    words: &[&str],
) -> Result<Result<u64, Refusal>, Fail> {
    let matches = read(rt.alloc(), words)?.expect(rt, "read");
    let (_, options) = matches.subcommand().expect(rt, "a command");
    match geometry_of(options, StoreId([0; 16])) {
        Ok(geometry) => Ok(Ok(geometry.device_pages())),
        Err(refusal) => Ok(Err(refusal)),
    }
}

/// Words that ask for a geometry, and the pages of its device.
const GEOMETRIES: &[(&[&str], u64)] = &[
    (&["cs_cli", "run"], 14),
    (&["cs_cli", "run", "--extents", "64"], 130),
    (&["cs_cli", "run", "--pages=8", "--extents=64"], 514),
    (&["cs_cli", "run", "--sections", "3"], 16),
    (&["cs_cli", "run", "--extents", "512"], 1026),
    (&["cs_cli", "run", "--extents", "513"], 1029),
    (
        &[
            "cs_cli",
            "run",
            "--extents=2048",
            "--pages=256",
            "--sections=8",
        ],
        524_297,
    ),
    (&["cs_cli", "run", "--format", "2"], 14),
    (&["cs_cli", "run", "--format=4"], 16),
    (
        &[
            "cs_cli",
            "run",
            "--format=4",
            "--extents=7680",
            "--pages=65535",
        ],
        503_308_832,
    ),
    (&["cs_cli", "bench", "--file=f"], 16_388),
    (&["cs_cli", "bench", "--file=f", "--format=2"], 16_386),
];

/// Words that ask for one that there isn't.
const NO_GEOMETRIES: &[&[&str]] = &[
    &["cs_cli", "run", "--extents", "3"],
    &["cs_cli", "run", "--extents", "2049"],
    &["cs_cli", "run", "--pages", "1"],
    &["cs_cli", "run", "--pages", "257"],
    &["cs_cli", "run", "--pages", "18446744073709551615"],
    &["cs_cli", "run", "--sections", "0"],
    &["cs_cli", "run", "--sections", "4"],
    &["cs_cli", "run", "--extents=64", "--sections=9"],
    &["cs_cli", "run", "--extents=64", "--sections=259"],
    &["cs_cli", "run", "--extents=513", "--sections=1"],
    &["cs_cli", "run", "--format=1"],
    &["cs_cli", "run", "--format=3"],
    &["cs_cli", "run", "--format=259"],
    &["cs_cli", "run", "--format=4", "--extents=4"],
];

#[test]
fn the_geometry_of_a_new_store(rt: HostRuntime) -> Result<(), Fail> {
    for (words, pages) in GEOMETRIES {
        assert_eq!(&rt; device_pages(&rt, words)?, Ok(*pages));
    }
    for words in NO_GEOMETRIES {
        assert_eq!(&rt; device_pages(&rt, words)?, Err(Refusal::BadGeometry));
    }
    Ok(())
}

/// Words that ask for a new store in a file.
const FILE: &[&str] = &["cs_cli", "run", "--file", "a store", "--new"];

#[test]
fn the_file_of_a_run(rt: HostRuntime) -> Result<(), Fail> {
    let matches = read(rt.alloc(), FILE)?.expect(&rt, "read");
    let options = matches.subcommand_matches("run").expect(&rt, "a run");
    assert_eq!(&rt; options.get_str("file"), Some("a store"));
    assert!(&rt; options.get_flag("new"));
    Ok(())
}

/// The race that these words ask for: its threads, puts and drops, and whether it streams.
fn race(
    rt: &(impl Abort + AllocGlobal),
    words: &[&str],
) -> Result<Option<(u64, u64, u64, bool)>, Fail> {
    let matches = read(rt.alloc(), words)?.expect(rt, "read");
    let options = matches.subcommand_matches("race").expect(rt, "a race");
    match race_of(options) {
        Some(race) => Ok(Some((race.threads(), race.puts(), race.dropped(), race.streams()))),
        None => Ok(None),
    }
}

/// Words that ask for a race, and what they ask for.
const RACES: &[(&[&str], Option<(u64, u64, u64, bool)>)] = &[
    (&["cs_cli", "race"], Some((4, 10, 0, false))),
    (
        &[
            "cs_cli",
            "race",
            "--threads",
            "3",
            "--puts",
            "5",
            "--drop",
            "2",
            "--stream",
        ],
        Some((3, 5, 2, true)),
    ),
    (&["cs_cli", "race", "--threads", "65"], None),
];

#[test]
fn the_numbers_of_a_race(rt: HostRuntime) -> Result<(), Fail> {
    for (words, wanted) in RACES {
        assert_eq!(&rt; race(&rt, words)?, *wanted);
    }
    Ok(())
}

#[test]
fn a_check_has_no_options(rt: HostRuntime) -> Result<(), Fail> {
    let matches = read(rt.alloc(), &["cs_cli", "check"])?.expect(&rt, "read");
    assert!(&rt; matches.subcommand_matches("check").is_some());
    assert!(&rt; matches.subcommand_matches("run").is_none());
    Ok(())
}

/// Words that ask for what is left of a damaged store, or to mend it, and the flag that tells.
const DAMAGES: &[(&[&str], &str)] = &[
    (
        &["cs_cli", "get", "an id", "--file", "f", "--salvage"],
        "salvage",
    ),
    (&["cs_cli", "list", "--file", "f", "--salvage"], "salvage"),
    (&["cs_cli", "export", "--salvage", "--file", "f"], "salvage"),
    (&["cs_cli", "scrub", "--file", "f", "--repair"], "repair"),
];

#[test]
fn the_flags_of_damaged_stores(rt: HostRuntime) -> Result<(), Fail> {
    for (words, flag) in DAMAGES {
        let matches = read(rt.alloc(), words)?.expect(&rt, "read");
        let (_, options) = matches.subcommand().expect(&rt, "a command");
        assert!(&rt; options.get_flag(flag));
    }
    Ok(())
}

/// How far the words ask a reclaim to go.
fn reach(rt: &(impl Abort + AllocGlobal), words: &[&str]) -> Result<Result<Reach, NoReach>, Fail> {
    let matches = read(rt.alloc(), words)?.expect(rt, "read");
    let options = matches
        .subcommand_matches("reclaim")
        .expect(rt, "a reclaim");
    Ok(reach_of(options))
}

/// Words that ask a reclaim to go so far.
const REACHES: &[(&[&str], Result<Reach, NoReach>)] = &[
    (&["cs_cli", "reclaim", "f"], Ok(Reach::Usual)),
    (
        &["cs_cli", "reclaim", "f", "--for", "4M"],
        Ok(Reach::Put(4_194_304)),
    ),
    (&["cs_cli", "reclaim", "--for=0", "f"], Ok(Reach::Put(0))),
    (&["cs_cli", "reclaim", "f", "--all"], Ok(Reach::Brim)),
    (
        &["cs_cli", "reclaim", "f", "--all", "--for", "1"],
        Err(NoReach::Both),
    ),
    (
        &["cs_cli", "reclaim", "f", "--for", "4X"],
        Err(NoReach::NoSize),
    ),
];

#[test]
fn how_far_a_reclaim_goes(rt: HostRuntime) -> Result<(), Fail> {
    for (words, wanted) in REACHES {
        assert_eq!(&rt; reach(&rt, words)?, *wanted);
    }
    Ok(())
}

#[test]
fn what_a_person_wants_to_see(rt: HostRuntime) -> Result<(), Fail> {
    let words = &["cs_cli", "stat", "f", "--summary", "--map-svg", "f.svg"];
    let matches = read(rt.alloc(), words)?.expect(&rt, "read");
    let options = matches.subcommand_matches("stat").expect(&rt, "a stat");
    assert!(&rt; options.get_flag("summary"));
    assert!(&rt; !options.get_flag("map"));
    assert_eq!(&rt; options.get_str("map-svg"), Some("f.svg"));
    Ok(())
}

/// Words that are at fault, and how.
const FAULTS: &[(&[&str], ErrorKind)] = &[
    (
        &["cs_cli", "check", "--file", "f"],
        ErrorKind::UnknownArgument,
    ),
    (&["cs_cli"], ErrorKind::MissingSubcommand),
    (&["cs_cli", "runs"], ErrorKind::InvalidSubcommand),
    (&["cs_cli", "run", "race"], ErrorKind::UnknownArgument),
    (&["cs_cli", "run", "--step"], ErrorKind::UnknownArgument),
    (
        &["cs_cli", "stat", "--file", "f", "--salvage"],
        ErrorKind::UnknownArgument,
    ),
    (
        &["cs_cli", "export", "--file", "f", "--repair"],
        ErrorKind::UnknownArgument,
    ),
    (
        &["cs_cli", "run", "--extents", "x"],
        ErrorKind::ValueValidation,
    ),
    (
        &["cs_cli", "run", "--extents", "1.5"],
        ErrorKind::ValueValidation,
    ),
    (
        &["cs_cli", "run", "--extents", "18446744073709551616"],
        ErrorKind::ValueValidation,
    ),
    (
        &["cs_cli", "run", "--extents", ""],
        ErrorKind::ValueValidation,
    ),
    (
        &["cs_cli", "run", "--extents", "-1"],
        ErrorKind::UnknownArgument,
    ),
    (&["cs_cli", "run", "--file"], ErrorKind::InvalidValue),
    (
        &["cs_cli", "run", "--new", "--new"],
        ErrorKind::ArgumentConflict,
    ),
    (&["cs_cli", "race", "--help"], ErrorKind::DisplayHelp),
];

#[test]
fn words_that_are_not_understood(rt: HostRuntime) -> Result<(), Fail> {
    for (words, kind) in FAULTS {
        let error = command(rt.alloc())?
            .try_get_matches_from(words)
            .expect_err(&rt, "a fault");
        assert_eq!(&rt; error.kind(), *kind);
    }
    Ok(())
}
