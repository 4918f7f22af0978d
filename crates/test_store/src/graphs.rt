//! Graphs by scripts: a put of one byte and the root over it, a round of it, and the refusals. A number is a plain
//! write, as `2`, and a family with one a version, as `0.3`. Elements with `+` between them are what is named, `..2`
//! names the writes up to the second one, `2-3` those from the second to the third, and `-` nothing.
ghost use Rattle.std.specs.Prelude.{◌^◌, ◌≤◌, ◌<◌, All, length};

use crate::plans::{next, text_of_plan};
use crate::texts::{byte, is_said, number, sides, text_of, words_of};
use cs_deps::{Dependency, Element, Graph, find};
use cs_plan::{level_of, plan, plan_all};
use cs_refusal::Refusal;
use std::process::Abort;

/// The element that a word is.
pub fn element(word: &str) -> Element {
    match word.split_once('.') {
        Some((family, version)) => Element::Version(
            usize::from(number(Some(family))),
            u64::from(number(Some(version))),
        ),
        None => Element::Plain(u64::from(number(Some(word)))),
    }
}

/// What a word names by itself.
fn name(rt: &(impl Abort + AllocGlobal), word: &str) -> Dependency {
    let alloc = rt.alloc();
    if let Some(last) = word.strip_prefix("..") {
        return Dependency::through(alloc, u64::from(number(Some(last))));
    }
    if let Some((first, last)) = word.split_once('-') {
        return Dependency::on_writes(
            alloc,
            u64::from(number(Some(first))),
            u64::from(number(Some(last))),
        );
    }
    match element(word) {
        Element::Plain(write) => Dependency::on_write(alloc, write).expect(rt, "memory"),
        Element::Version(family, version) => Dependency::on_version(alloc, family, version).expect(
            rt, "memory",
        ),
    }
}

/// What a word names.
pub fn named(rt: &(impl Abort + AllocGlobal), word: &str) -> Dependency {
    match word.split_once('+') {
        Some((left, right)) => name(rt, left).and(&name(rt, right)).expect(rt, "memory"),
        None if word == "-" => Dependency::none(rt.alloc()),
        None => name(rt, word),
    }
}

/// Stages a plain write of a page of this byte.
fn stage_plain(graph: &mut Graph, page: u64, byte: u8, needs: Dependency) -> Result<u64, Refusal> {
    graph.stage_plain(page, &[byte; 4096], needs)
}

/// Stages a version of a family on a page of this byte.
fn stage_version(
    rt: &impl Abort,
    graph: &mut Graph,
    (family, page): (usize, u64),
    byte: u8,
    needs: Dependency,
) -> Result<u64, Refusal> {
    let families = graph.families();
    assert!(rt; family < families);
    graph.stage_version(family, page, &[byte; 4096], needs)
}

/// Stages what a line says: a plain write by its page, its byte and what it needs, or a version, whose family stands
/// before them.
fn stage(rt: &(impl Abort + AllocGlobal), graph: &mut Graph, line: &str) -> Result<u64, Refusal> {
    let (word, numbers) = words_of(line);
    let (_, named_last) = line.rsplit_once(' ').expect(rt, "what is needed");
    let needs = named(rt, named_last);
    if word == "plain" {
        return stage_plain(graph, u64::from(numbers[0]), byte(numbers[1]), needs);
    }
    let place = (usize::from(numbers[0]), u64::from(numbers[1]));
    stage_version(rt, graph, place, byte(numbers[2]), needs)
}

/// Takes what waits at height 1 as a round, and tells how many these are.
fn take(rt: &impl Abort, graph: &mut Graph) -> usize {
    if graph.is_out() {
        return 0;
    }
    let round = graph.queue(1).expect(rt, "memory");
    let count = round.len();
    graph.take_round(round);
    count
}

/// Settles the round that is out, and tells whether one is out then.
fn settle(rt: &impl Abort, graph: &mut Graph) -> bool {
    assert!(rt; graph.is_out());
    graph.settle_round();
    graph.is_out()
}

/// The first byte of an element's page, if that is kept.
fn byte_of(graph: &Graph, element: Element) -> Option<u8> {
    match graph.bytes_of(element) {
        Some(bytes) => Some(bytes[0]),
        None => None,
    }
}

/// How many elements the round that is out has.
fn members(graph: &Graph) -> Option<usize> {
    match graph.round() {
        Some(round) => Some(round.len()),
        None => None,
    }
}

/// What is persistent in the view, and where an element stands in what waits.
fn viewed(rt: &(impl Abort + AllocGlobal), graph: &Graph, element: Element) -> String {
    let view = graph.view().expect(rt, "memory");
    let place = find(&view.waiting, element);
    format!(in rt.alloc(); "{:?} {place:?}", view.persistent).expect(rt, "memory")
}

/// What an element needs, if it waits.
fn needs_of(rt: &impl Abort, graph: &Graph, element: Element) -> Option<Dependency> {
    graph.needs_of(element).expect(rt, "memory")
}

/// Up to which plain write an element needs all, and how many spans of others it needs.
fn needs(rt: &impl Abort, graph: &Graph, element: Element) -> (u64, usize) {
    let needs = needs_of(rt, graph, element).expect(rt, "one that waits");
    (needs.through_number(), needs.spans().len())
}

/// Whether an element needs another.
fn names(rt: &impl Abort, graph: &Graph, element: Element, other: Element) -> bool {
    match needs_of(rt, graph, element) {
        Some(needs) => needs.names(other),
        None => false,
    }
}

/// The last plain write, how many families there are, and the last version of the first of them.
fn last(rt: &impl Abort, graph: &Graph) -> (u64, usize, u64) {
    let families = graph.families();
    assert!(rt; 0 < families);
    (graph.last_plain(), families, graph.last_version(0))
}

/// Whether all that is named is persistent.
fn is_persistent(graph: &Graph, named: &Dependency) -> bool {
    graph.is_persistent(named)
}

/// Whether all that is staged is staged, and whether it is persistent.
fn everything(rt: &impl Abort, graph: &Graph) -> (bool, bool) {
    let all = graph.everything().expect(rt, "memory");
    (graph.is_staged(&all), graph.is_persistent(&all))
}

/// How what waits prints.
fn waiting(rt: &(impl Abort + AllocGlobal), graph: &Graph) -> String {
    let waiting = graph.waiting().expect(rt, "memory");
    text_of(rt, &waiting)
}

/// What a graph shows, as text.
pub fn shown(rt: &(impl Abort + AllocGlobal), graph: &Graph, line: &str) -> String {
    let (word, rest) = line.split_once(' ').unwrap_or((line, ""));
    match word {
        "waiting" => waiting(rt, graph),
        "waits" => text_of(rt, &graph.has_waiting()),
        "plains" => text_of(rt, &graph.last_plain()),
        "kept" => text_of(rt, &graph.kept_pages()),
        "out" => text_of(rt, &members(graph)),
        "last" => text_of(rt, &last(rt, graph)),
        "everything" => text_of(rt, &everything(rt, graph)),
        "persistent" => text_of(rt, &is_persistent(graph, &named(rt, rest))),
        _ => shown_of(rt, graph, word, rest),
    }
}

/// What a graph shows of an element, as text.
fn shown_of(rt: &(impl Abort + AllocGlobal), graph: &Graph, word: &str, rest: &str) -> String {
    let (first, other) = rest.split_once(' ').unwrap_or((rest, ""));
    let element_of = element(first);
    match word {
        "byte" => text_of(rt, &byte_of(graph, element_of)),
        "page" => text_of(rt, &graph.page_of(element_of)),
        "view" => viewed(rt, graph, element_of),
        "needs" => text_of(rt, &needs(rt, graph, element_of)),
        "names" => text_of(rt, &names(rt, graph, element_of, element(other))),
        "level" => text_of(rt, &level_of(graph, element_of)),
        "plan" => text_of_plan(rt, plan(rt.alloc(), graph, &named(rt, rest))),
        "all" => text_of_plan(rt, plan_all(rt.alloc(), graph)),
        _ => panic!(rt; "{word}"),
    }
}

/// What comes of a line, as text.
fn said(rt: &(impl Abort + AllocGlobal), graph: &mut Graph, line: &str) -> String {
    if line.starts_with("plain") || line.starts_with("version") {
        return text_of(rt, &stage(rt, graph, line));
    }
    match line {
        "take" => text_of(rt, &take(rt, graph)),
        "next" => next(rt, graph),
        "settle" => text_of(rt, &settle(rt, graph)),
        _ => shown(rt, graph, line),
    }
}

/// Does what scripts say, one after the other, on an empty graph of families whose versions so far are persistent.
pub fn plays(rt: &(impl Abort + AllocGlobal), persistent: &[u64], scripts: &[&str])
    requires families { (1 ≤ length persistent.now) × (length persistent.now ≤ 16) }
    requires numbers { All (λ v. v < 2 ^ 63) persistent.now }
{
    let mut graph = Graph::new(rt.alloc(), persistent).expect(rt, "memory");
    for script in scripts {
        for line in script.lines() {
            let (words, wanted) = sides(rt, line);
            is_said(rt, &said(rt, &mut graph, words), wanted, line);
        }
    }
}

/// The first write of a put of one byte, as a store stages it, and the superblock that names it by itself.
const FIRST: &str = "plain 2 1 - > Ok(1)
version 0 0 2 1 > Ok(2)";

/// The same, where the superblock names all up to it.
pub const FIRST_THROUGH: &str = "plain 2 1 - > Ok(1)
version 0 0 2 ..1 > Ok(2)";

/// The run of that put, its superblock, and the root over it.
pub const REST: &str = "plain 3 3 - > Ok(2)
version 0 0 4 ..2 > Ok(3)
version 1 1 5 0.3 > Ok(2)";

#[test]
fn what_waits(rt: HostRuntime) {
    plays(&rt, &[1, 1], &[FIRST, REST, WAITS]);
}

const WAITS: &str = "waiting > [Plain(1), Version(0, 2), Plain(2), Version(0, 3), Version(1, 2)]
view 0.3 > [1, 1] Some(3)
needs 0.3 > (2, 1)
last > (2, 2, 3)
page 2 > Some(3)
byte 0.3 > Some(4)
byte 0.2 > None
kept > 4";

#[test]
fn a_round(rt: HostRuntime) {
    plays(&rt, &[1, 1], &[FIRST, REST, ROUND]);
}

const ROUND: &str = "everything > (true, false)
persistent ..2 > false
take > 2
take > 0
persistent ..2 > false
settle > false
persistent ..2 > true
everything > (true, false)
byte 1 > None
kept > 2
waits > true";

#[test]
fn a_span_of_writes(rt: HostRuntime) {
    plays(&rt, &[1], &[SPAN]);
}

const SPAN: &str = "plain 2 1 - > Ok(1)
plain 3 2 - > Ok(2)
plain 4 3 - > Ok(3)
plain 5 4 - > Ok(4)
version 0 0 5 2-3 > Ok(2)
needs 0.2 > (0, 1)
names 0.2 1 > false
names 0.2 2 > true
names 0.2 3 > true
names 0.2 4 > false
level 0.2 > Ok(Some(2))
persistent 2-3 > false
take > 4
settle > false
persistent 2-3 > true
persistent 0.2 > false
take > 1
settle > false
persistent 0.2 > true";

/// A version that is staged while one of its family is in the round that is out leaves that one's bytes.
#[test]
fn a_version_beside_the_round(rt: HostRuntime) {
    plays(&rt, &[1], &[BESIDE]);
}

const BESIDE: &str = "version 0 0 2 - > Ok(2)
take > 1
out > Some(1)
version 0 0 3 - > Ok(3)
version 0 0 4 - > Ok(4)
byte 0.2 > Some(2)
byte 0.4 > Some(4)
kept > 2
settle > false
kept > 1";

/// Asserts how a refusal prints.
fn prints_a_refusal(rt: &(impl Abort + AllocGlobal), refusal: Refusal, wanted: &str) {
    let shown = format!(in rt.alloc(); "{} {} {refusal}", refusal.number(), refusal.name()).expect(
        rt, "memory",
    );
    is_said(rt, &shown, wanted, "a refusal");
}

#[test]
fn what_is_refused(rt: HostRuntime) {
    plays(&rt, &[1, 0x7fff_ffff_ffff_ffff], &[REFUSED]);
    prints_a_refusal(&rt, Refusal::WornOut, "35 WornOut a number is worn out");
}

const REFUSED: &str = "plain 2 0 1 > Err(UnknownNeed)
version 0 0 0 0.1 > Err(OwnFamily)
version 1 1 0 - > Err(WornOut)";

/// Asserts what the seventh plain write and the second version of the second family name.
fn names_two(rt: &impl Abort, named: &Dependency) {
    assert!(rt; named.names(Element::Plain(7)));
    assert!(rt; named.least_of(1) == 2);
    assert!(rt; !named.names_family(0));
    assert!(rt; !named.is_within(6, &[0, 2]));
}

/// Asserts that all that is staged is within that.
fn is_all(rt: &(impl Abort + AllocGlobal)) {
    let everything = Dependency::everything(rt.alloc(), 7, &[0, 2]).expect(rt, "memory");
    assert!(rt; everything.is_within(7, &[0, 2]));
}

#[test]
fn what_is_named(rt: HostRuntime) {
    let again = named(&rt, "7+1.2").copy().expect(&rt, "memory");
    names_two(&rt, &again);
    is_all(&rt);
    assert!(rt; Element::Plain(7).is_same(Element::Plain(7)));
    assert!(rt; !Element::Plain(7).is_equal(Element::Version(0, 7)));
    assert!(rt; !Element::Version(0, 7).is_plain());
}
