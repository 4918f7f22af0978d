//! Plans of small graphs, as text.
use crate::graphs::{FIRST_THROUGH, REST, plays};
use crate::texts::text_of;
use cs_deps::{Graph, Plan};
use cs_plan::next_round;
use cs_refusal::Refusal;
use std::process::Abort;

/// The rounds and the chain of a plan, or why there is none, as text.
pub fn text_of_plan(rt: &(impl Abort + AllocGlobal), plan: Result<Plan, Refusal>) -> String {
    match plan {
        Ok(plan) => format!(in rt.alloc(); "{:?} {:?}", plan.rounds, plan.chain).expect(
            rt, "memory",
        ),
        Err(refusal) => text_of(rt, &refusal),
    }
}

/// Takes the round that the planner says is next, and tells of what it is, or why there is none.
pub fn next(rt: &(impl Abort + AllocGlobal), graph: &mut Graph) -> String {
    if graph.is_out() {
        return text_of(rt, &next_round(rt.alloc(), graph));
    }
    let round = next_round(rt.alloc(), graph).expect(rt, "a round");
    let text = text_of(rt, &round);
    graph.take_round(round);
    text
}

#[test]
fn targets_of_one_put(rt: HostRuntime) {
    plays(&rt, &[1, 1], &[FIRST_THROUGH, REST, TARGETS]);
}

const TARGETS: &str = "plan - > [] []
plan 2 > [[Plain(2)]] [Plain(2)]
plan 0.2 > [[Plain(1)], [Version(0, 2)]] [Plain(1), Version(0, 2)]
plan 0.3 > [[Plain(1), Plain(2)], [Version(0, 3)]] [Plain(1), Version(0, 3)]
plan 0.4 > NotStaged";

#[test]
fn levels_of_one_put(rt: HostRuntime) {
    plays(&rt, &[1, 1], &[FIRST_THROUGH, REST, LEVELS]);
}

const LEVELS: &str = "level 1 > Ok(Some(1))
level 0.1 > Ok(None)
level 0.2 > Ok(Some(2))
level 0.3 > Ok(Some(2))
level 1.2 > Ok(Some(3))";

/// Nothing is planned while a round is out.
#[test]
fn rounds_of_one_put(rt: HostRuntime) {
    plays(&rt, &[1, 1], &[FIRST_THROUGH, REST, ROUNDS]);
}

const ROUNDS: &str =
    "all > [[Plain(1), Plain(2)], [Version(0, 3)], [Version(1, 2)]] [Plain(1), Version(0, 3), Version(1, 2)]
next > [Plain(1), Plain(2)]
all > InFlight
next > Err(InFlight)
plan - > InFlight
level 1 > Err(InFlight)
settle > false
level 1.2 > Ok(Some(2))";

/// Three families a, b, c: a1; b1 needing a1; a2 needing b1; c1 needing a1; b2 needing a2 and c1.
#[test]
fn three_families(rt: HostRuntime) {
    plays(&rt, &[0, 0, 0], &[THREE]);
}

const THREE: &str = "version 0 0 0 - > Ok(1)
version 1 0 0 0.1 > Ok(1)
version 0 0 0 1.1 > Ok(2)
version 2 0 0 0.1 > Ok(1)
version 1 0 0 0.2+2.1 > Ok(2)
all > [[Version(0, 1)], [Version(1, 1), Version(2, 1)], [Version(0, 2)], [Version(1, 2)]] [Version(0, 1), Version(1, 1), Version(0, 2), Version(1, 2)]";
