//! The line `plan`. Where the writer fails, it ends with that error.
ghost use Rattle.std.specs.Prelude.{◌≡◌, ℕ, List, None, IfErr, IfOk, OnOk, map};
ghost use Rattle.std.specs.Io.KnownBytes.{Appends};
ghost use Rattle.cs_deps.specs.Staging.{IsKept};
ghost use Rattle.cs_deps.specs.View.{rounds_of};
ghost use Rattle.cs_script.specs.Lines.{says_plan};
ghost use Rattle.cs_script.specs.Outputs.{plan_lines, round_lines};
ghost use Rattle.cs_script.specs.Scripts.{AnswersSo, IsBestOfAll, IsPlanRefused, Stages};

use crate::answers::{Answer, given, print_refused};
use crate::outputs::{print_chain, print_flushes, print_round};
use cs_deps::{Element, Plan};
use cs_disk::PageDisk;
use cs_refusal::Refusal;
use cs_writeback::ask;
use cs_writeback::the_core::{Core, Event};
use std::io;
use std::io::Write;

/// Prints how all that was put would be made persistent: the rounds, the chain and the number of flushes. As a `sync`
/// does, it stages the index's changes first; nothing is written back, and nothing is acknowledged.
pub fn plan<D: PageDisk, W: Write>(core: &mut Core<D>, writer: &mut W) -> io::Result<Answer>
    ensures { IfOk result (λ answer. (out : List ℕ) × AnswersSo D.PageDisk says_plan answer core.old core.new out × Appends (W.contents writer.old) (W.contents writer.new) out) }
{
    match stage_and_plan(core) {
        Ok(plan) => given(print_plan(writer, &plan)),
        Err(refusal) => print_refused(writer, refusal),
    }
}

/// Stages the index's changes, and plans all that waits.
///
/// Refused 5 InFlight where a round is out, with nothing staged; then as Stage is. Where the plan itself finds no
/// memory, 9 OutOfMemory, the changes stay staged.
fn stage_and_plan<D: PageDisk>(core: &mut Core<D>) -> Result<Plan, Refusal>
    ensures staged { OnOk result (Stages D.PageDisk core.old core.new) }
    ensures best { IfOk result (λ plan. IsBestOfAll core.new.store (rounds_of plan) plan.chain.items) }
    ensures refused { IfErr result (λ refusal. IsPlanRefused D.PageDisk core.old core.new refusal) }
{
    if core.round().is_some() {
        return Err(Refusal::InFlight);
    }
    match ask(core, &Event::Stage) {
        Ok(_) => plan_all(core),
        Err(refusal) => Err(refusal),
    }
}

/// Plans all that waits, where no round is out. Refused 9 OutOfMemory alone.
pub fn plan_all<D: PageDisk>(core: &Core<D>) -> Result<Plan, Refusal>
    requires { core.now.store.out ≡ None }
    ensures best { IfOk result (λ plan. IsBestOfAll core.now.store (rounds_of plan) plan.chain.items) }
    ensures refused { IfErr result (λ refusal. refusal ≡ Refusal.OutOfMemory) }
    ensures kept { IsKept core.now.store.graph.staging }
{
    core.plan()
}

/// The lines of a plan.
fn print_plan<W: Write>(writer: &mut W, plan: &Plan) -> io::Result<()>
    ensures { OnOk result (Appends (W.contents writer.old) (W.contents writer.new) (plan_lines (rounds_of plan.now) plan.now.chain.items)) }
{
    print_rounds(writer, &plan.rounds)?;
    print_chain(writer, &plan.chain)?;
    print_flushes(writer, plan.rounds.len())
}

/// The lines of rounds, numbered from 1.
fn print_rounds<W: Write>(writer: &mut W, rounds: &[Vec<Element>]) -> io::Result<()>
    ensures { OnOk result (Appends (W.contents writer.old) (W.contents writer.new) (round_lines 1 (map (λ round. round.items) rounds.now))) }
{
    for i in 0..rounds.len() {
        print_round(writer, i + 1, &rounds[i])?;
    }
    Ok(())
}
