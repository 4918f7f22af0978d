//! A diagnosis as a JSON object.
ghost use Rattle.std.specs.Prelude.{◌≡◌, IfOk, Some, codes, map};
ghost use Rattle.serde_json.specs.Data.{Data, array, number, string, unsigned};
ghost use Rattle.serde_json.specs.Find.{get};
ghost use Rattle.serde_json.specs.View.{items_of, view};
ghost use Rattle.cs_doctor.specs.Doctor.{status_of_file};
ghost use Rattle.cs_doctor.specs.DoctorReports.{HasMadeIn, TellsMadeIn, pages_array};
ghost use Rattle.cs_doctor.specs.Steps.{step_text};

use crate::diagnoses::{
    Deep, Diagnosis, FileDiagnosis, HeadFound, Opening, PairFound, Rest, RootFound, RunFound,
    StoreFound,
};
use crate::diagnosis_counts::{DamageCounts, damages_of, frontier_of};
use crate::diagnosis_steps::Step;
use crate::json_members::{Leaf, object, put_leaves, put_value, refusal_value, value_of};
use cs_advice::{Content, system_text};
use cs_frame::Geometry;
use cs_refusal::Refusal;
use cs_twin::Half;
use serde_json::{Map, Value, json, put};
use std::alloc::{AllocError, Global};

/// The object of a diagnosis: its exit status, the commands to type next, and what was found.
pub fn object_of(
    alloc: Global,
    found: &FileDiagnosis,
    file: &str,
    steps: &[Step],
) -> Result<Value, AllocError>
    ensures status { IfOk result (λ value. get (codes "status") (view value) ≡ Some (number (unsigned (status_of_file found.now)))) }
    ensures next { IfOk result (λ value. get (codes "next") (view value) ≡ Some (array (items_of (map (λ step. string (step_text file.now step)) steps.now)))) }
    ensures found { IfOk result (λ value. (what : Data) × (get (codes "found") (view value) ≡ Some what) × TellsMadeIn found.now what) }
{
    let status = found.status();
    let next = steps_value(alloc, file, steps)?;
    let what = found_value(alloc, found)?;
    json!(in alloc; {"status": status, "next": next, "found": what})
}

/// The commands to type next, as an array of texts.
fn steps_value(alloc: Global, file: &str, steps: &[Step]) -> Result<Value, AllocError>
    ensures { IfOk result (λ value. view value ≡ array (items_of (map (λ step. string (step_text file.now step)) steps.now))) }
{
    let mut texts = Vec::new(alloc);
    for k in 0..steps.len() {
        let text = steps[k].text(alloc, file)?;
        texts.push(Value::from(text))?;
    }
    Ok(Value::from(texts))
}

/// What was found of a file.
fn found_value(alloc: Global, found: &FileDiagnosis) -> Result<Value, AllocError>
    ensures { IfOk result (λ value. TellsMadeIn found.now (view value)) }
{
    match found {
        FileDiagnosis::Unopened(fault) => {
            let why = system_text(*fault);
            json!(in alloc; {"unopened": why})
        }
        FileDiagnosis::InUse { pages, geometry } => {
            let geometry = geometry_value(alloc, geometry)?;
            let pages = *pages;
            json!(in alloc; {"in_use": true, "file_pages": pages, "geometry": geometry})
        }
        FileDiagnosis::OddLength { bytes } => {
            let bytes = *bytes;
            json!(in alloc; {"odd_length": bytes})
        }
        FileDiagnosis::Found(diagnosis) => diagnosis_value(alloc, diagnosis),
    }
}

/// What was found of a disk.
fn diagnosis_value(alloc: Global, found: &Diagnosis) -> Result<Value, AllocError>
    ensures { IfOk result (λ value. HasMadeIn found.now.made.items (view value)) }
{
    let mut members = diagnosis_members(alloc, found)?;
    let made = pages_value(alloc, &found.made)?;
    put(&mut members, alloc, "made", made)?;
    Ok(Value::Object(members))
}

/// What was found of a disk, but for the sections that were made.
fn diagnosis_members(alloc: Global, found: &Diagnosis) -> Result<Map<String, Value>, AllocError> {
    let mut members = Map::new(alloc);
    put_looked(alloc, &mut members, found)?;
    put_store(alloc, &mut members, &found.store)?;
    let deep = deep_value(alloc, &found.store.head, &found.looked.deep);
    put_value(alloc, &mut members, "deep", deep)?;
    Ok(members)
}

/// Adds what was found of the pages of a disk.
fn put_looked(
    alloc: Global,
    members: &mut Map<String, Value>,
    found: &Diagnosis,
) -> Result<(), AllocError> {
    let looked = &found.looked;
    let counts = [
        ("file_pages", Leaf::Number(found.file_pages)),
        ("pages", Leaf::Number(looked.pages)),
    ];
    put_leaves(alloc, members, &counts)?;
    let content = content_value(alloc, looked.content);
    put_value(alloc, members, "content", content)?;
    let geometry = geometry_value(alloc, &looked.geometry);
    put_value(alloc, members, "geometry", geometry)?;
    let pairs = pairs_value(alloc, &looked.pairs);
    put_value(alloc, members, "pairs", pairs)?;
    let hidden = pages_value(alloc, &found.hidden);
    put_value(alloc, members, "passed_over", hidden)
}

/// What a disk holds.
fn content_value(alloc: Global, content: Content) -> Result<Value, AllocError> {
    let kind = |word| ("is", Leaf::Text(word));
    let members = match content {
        Content::Empty => object(alloc, &[kind("empty")]),
        Content::Length { wanted, .. } => {
            object(alloc, &[kind("length"), ("wanted", Leaf::Number(wanted))])
        }
        Content::Store { format } => {
            let format = Leaf::Number(u64::from(format.value()));
            object(alloc, &[kind("store"), ("format", format)])
        }
        Content::TwoStores { first, last } => {
            let first = ("first_id", Leaf::Id(first));
            object(
                alloc,
                &[kind("two_stores"), first, ("last_id", Leaf::Id(last))],
            )
        }
        Content::Torn { page, twin } => {
            let page = ("page", Leaf::Number(page));
            object(alloc, &[kind("torn"), page, ("other", Leaf::Number(twin))])
        }
        Content::Superseded => object(alloc, &[kind("superseded")]),
        Content::Broken => object(alloc, &[kind("broken")]),
        Content::Left => object(alloc, &[kind("left")]),
        _ => object(alloc, &[kind("foreign")]),
    };
    value_of(members)
}

/// A geometry, null if none is known.
fn geometry_value(alloc: Global, geometry: &Option<Geometry>) -> Result<Value, AllocError> {
    let Some(geometry) = geometry else {
        return Ok(Value::Null);
    };
    let id = match geometry.format().store() {
        Some(store) => Leaf::Id(store),
        None => Leaf::Null,
    };
    let format = geometry.format().number().value();
    let members = [
        ("format", Leaf::Number(u64::from(format))),
        ("id", id),
        ("extents", Leaf::Number(u64::from(geometry.extents()))),
        ("pages", Leaf::Number(u64::from(geometry.pages()))),
        ("sections", Leaf::Number(u64::from(geometry.sections()))),
    ];
    value_of(object(alloc, &members))
}

/// An array of pairs.
fn pairs_value(alloc: Global, pairs: &[PairFound]) -> Result<Value, AllocError> {
    let mut values = Vec::new(alloc);
    for pair in pairs {
        push_value(&mut values, pair_value(alloc, *pair))?;
    }
    Ok(Value::Array(values))
}

/// Pushes a value, if it was made.
fn push_value(values: &mut Vec<Value>, value: Result<Value, AllocError>) -> Result<(), AllocError> {
    match value {
        Ok(value) => Ok(values.push(value)?),
        Err(fault) => Err(fault),
    }
}

/// A pair, and what its pages hold.
fn pair_value(alloc: Global, found: PairFound) -> Result<Value, AllocError> {
    let members = [
        ("page", Leaf::Number(found.pair.page)),
        ("holds", half_leaf(found.own)),
        ("other", Leaf::Number(found.pair.twin)),
        ("other_holds", half_leaf(found.twin)),
    ];
    value_of(object(alloc, &members))
}

/// What a page of a pair holds: its version, or a word.
fn half_leaf(half: Option<Half>) -> Leaf<'static> {
    match half {
        Some(Half::Whole(version)) => Leaf::Number(version),
        Some(Half::Fence) => Leaf::Text("fence"),
        Some(Half::Damaged) => Leaf::Text("damaged"),
        None => Leaf::Text("unreadable"),
    }
}

/// Adds what was found by root and index.
fn put_store(
    alloc: Global,
    members: &mut Map<String, Value>,
    found: &StoreFound,
) -> Result<(), AllocError> {
    let root = root_value(alloc, found.head.root);
    put_value(alloc, members, "root", root)?;
    let runs = runs_value(alloc, &found.head.runs);
    put_value(alloc, members, "runs", runs)?;
    let worn = numbers_value(alloc, &found.head.worn);
    put_value(alloc, members, "worn", worn)?;
    let opening = opening_value(alloc, &found.opening);
    put_value(alloc, members, "opening", opening)
}

/// The root that was read, null if none was.
fn root_value(alloc: Global, root: Option<RootFound>) -> Result<Value, AllocError> {
    let Some(root) = root else {
        return Ok(Value::Null);
    };
    let members = [
        ("version", Leaf::Number(root.version)),
        ("commands", Leaf::Number(root.commands)),
        ("newer_lost", Leaf::Is(root.lost)),
    ];
    value_of(object(alloc, &members))
}

/// An array of runs.
fn runs_value(alloc: Global, runs: &[RunFound]) -> Result<Value, AllocError> {
    let mut values = Vec::new(alloc);
    for run in runs {
        push_value(&mut values, run_value(alloc, *run))?;
    }
    Ok(Value::Array(values))
}

/// A run: how many entries it has, or why it can't be read.
fn run_value(alloc: Global, run: RunFound) -> Result<Value, AllocError> {
    let extent = ("extent", Leaf::Number(u64::from(run.place.extent)));
    let page = ("page", Leaf::Number(u64::from(run.place.page)));
    match run.entries {
        Ok(entries) => value_of(object(alloc, &[extent, page, ("entries", Leaf::count(entries))])),
        Err(refusal) => refused_value(alloc, &[extent, page], refusal),
    }
}

/// An object with these members, and with a refusal.
fn refused_value(
    alloc: Global,
    leaves: &[(&str, Leaf)],
    refusal: Refusal,
) -> Result<Value, AllocError> {
    let mut members = object(alloc, leaves)?;
    put_value(
        alloc,
        &mut members,
        "refused",
        refusal_value(alloc, refusal),
    )?;
    Ok(Value::Object(members))
}

/// An array of extents.
fn numbers_value(alloc: Global, numbers: &[u16]) -> Result<Value, AllocError> {
    let mut values = Vec::new(alloc);
    for number in numbers {
        values.push(Value::from(*number))?;
    }
    Ok(Value::Array(values))
}

/// An array of pages.
fn pages_value(alloc: Global, pages: &[u64]) -> Result<Value, AllocError>
    ensures { IfOk result (λ value. view value ≡ pages_array pages.now) }
{
    let mut values = Vec::new(alloc);
    for k in 0..pages.len() {
        values.push(Value::from(pages[k]))?;
    }
    Ok(Value::from(values))
}

/// What the index names, and what of that can be read.
fn opening_value(alloc: Global, opening: &Opening) -> Result<Value, AllocError> {
    match opening {
        Opening::Opened { shards, scrubbed } => {
            let counts = damages_of(alloc, &scrubbed.damages)?;
            opened_value(alloc, *shards, &counts)
        }
        Opening::Refused { refusal, rest } => unopened_value(alloc, *refusal, rest),
    }
}

/// How many shards the index of a store names that opens, and what of them is damaged.
fn opened_value(alloc: Global, shards: usize, counts: &DamageCounts) -> Result<Value, AllocError> {
    let leaves = [
        ("opens", Leaf::Is(true)),
        ("shards", Leaf::count(shards)),
        ("damaged", Leaf::count(counts.shards.len())),
    ];
    let mut members = object(alloc, &leaves)?;
    let failing = numbers_value(alloc, &counts.failing);
    put_value(alloc, &mut members, "failing_extents", failing)?;
    Ok(Value::Object(members))
}

/// Why a store doesn't open, and what its readable runs name.
fn unopened_value(
    alloc: Global,
    refusal: Refusal,
    rest: &Option<Rest>,
) -> Result<Value, AllocError> {
    let mut members = object(alloc, &[("opens", Leaf::Is(false))])?;
    put_value(
        alloc,
        &mut members,
        "refused",
        refusal_value(alloc, refusal),
    )?;
    put_value(alloc, &mut members, "rest", rest_value(alloc, rest))?;
    Ok(Value::Object(members))
}

/// What the readable runs name, null if superblock or root can't be read.
fn rest_value(alloc: Global, rest: &Option<Rest>) -> Result<Value, AllocError> {
    let Some(rest) = rest else {
        return Ok(Value::Null);
    };
    let shards = Leaf::count(rest.shards);
    let unread = Leaf::count(rest.unread);
    value_of(object(alloc, &[("shards", shards), ("damaged", unread)]))
}

/// What was found by all pages: null if they weren't asked for, or if no store of format 4 is found.
fn deep_value(alloc: Global, head: &HeadFound, deep: &Deep) -> Result<Value, AllocError> {
    let Deep::Found(frames) = deep else {
        return Ok(Value::Null);
    };
    let commands = match head.root {
        Some(root) => root.commands,
        None => 0,
    };
    let frontier = frontier_of(&frames.parts, commands);
    let leaves = [
        ("shards", Leaf::count(frames.shards)),
        ("missing", Leaf::count(frames.missing)),
        ("above_root", Leaf::count(frontier.above)),
        ("greatest_command", Leaf::Number(frontier.greatest)),
    ];
    let mut members = object(alloc, &leaves)?;
    let unreadable = pages_value(alloc, &frames.unreadable);
    put_value(alloc, &mut members, "unreadable", unreadable)?;
    Ok(Value::Object(members))
}
