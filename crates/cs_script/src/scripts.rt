//! Scripts, line by line. Any write may fail, and nothing says when, so what prints may answer an error.
ghost use Rattle.std.specs.Prelude.{◌≡◌, ◌⊎◌, ℕ, ◌≤◌, ◌<◌, List, IfErr, IfOk, IsSome, None, Some};
ghost use Rattle.std.specs.Io.BufRead.{strip_last};
ghost use Rattle.std.specs.Io.KnownBytes.{Appends};
ghost use Rattle.cs_script.specs.Lines.{said_by, said_of, says_put, says_get, says_delete};
ghost use Rattle.cs_script.specs.Ends.{IsBroken, IsEnd};
ghost use Rattle.cs_script.specs.Scripts.{AnswersSo, said_to, status_after, Runs};
ghost use Rattle.cs_script.specs.Watched.{EndsSo, GoesOnSo, Hears, IsFaultOf, RunsInPart, RunsOn, RunsWatched};

use crate::answers::{Answer, given, print_bad, print_refused};
use crate::bad_lines::BadLine;
use crate::bounded_readers::{BoundedReader, READS};
use crate::crashes::{End, crash, mask_of};
use crate::documents::document;
use crate::lines::Line;
use crate::outputs::{print_absent, print_delete, print_put, print_value};
use crate::plan_lines::plan;
use crate::steps::step;
use crate::sweep_lines::sweep;
use crate::syncs::sync;
use crate::watchers::{LineFault, Onward, Unwatched, Watcher};
use cs_disk::{CrashDisk, PageDisk};
use cs_frame::ShardId;
use cs_refusal::Refusal;
use cs_writeback::the_core::{Bytes, Core, Event, Reply};
use cs_writeback::{ask, make_room};
use std::alloc::{AllocError, Global};
use std::io;
use std::io::{BufRead, BufReader, Read, Write};

/// What a script left behind.
#[derive(Drop)]
pub struct Ran<D: PageDisk> {
    /// The exit status: 0, 1 where a line wasn't readable, 3 where the store couldn't be opened after a crash, 4 where
    /// the reader or the writer failed, the input didn't end, or a line's text found no memory.
    pub status: u8,
    /// The core with what was added to its history, of which checkpoints may have replaced the most, or none where the
    /// store couldn't be opened after a crash.
    pub core: Option<Core<D>>,
}

/// With what a script goes on.
#[derive(Drop)]
struct Going<D: PageDisk> {
    core: Core<D>,
    status: u8,
}

/// What a line leaves, and what is wrong with it.
#[derive(Drop)]
struct Done<D: PageDisk> {
    going: Going<D>,
    fault: Option<LineFault>,
}

/// Runs a script, line by line, on a core. The reader is read at most 4,294,967,296 times.
pub fn run_script<D: CrashDisk + Drop, R: Read + Drop, W: Write>(
    alloc: Global,
    core: Core<D>,
    reader: R,
    writer: &mut W,
) -> Ran<D>
    // Each line is answered and printed as it says, by the events that it names or by a crash.
    ensures script { (text : List ℕ) → R.remaining reader ≡ Some text → result.status < 4 → (out : List ℕ)
        × Runs D.PageDisk D.can_crash D.volatile_count text core 0 result.core result.status out
        × Appends (W.contents writer.old) (W.contents writer.new) out }

    ensures status { (result.status ≤ 1) ⊎ (result.status ≡ 3) ⊎ (result.status ≡ 4) }
    ensures core { (result.status ≤ 1 → IsSome result.core) × (result.status ≡ 3 → result.core ≡ None) }
{
    run_watched(alloc, core, reader, writer, &mut Unwatched)
}

/// Runs a script, and tells a watcher of each line that isn't readable or is refused, once what it prints is written
/// out. Where the watcher says so, the script ends after that line with status 1; what it did and printed stays.
pub fn run_watched<D: CrashDisk + Drop, R: Read + Drop, W: Write, V: Watcher>(
    alloc: Global,
    core: Core<D>,
    reader: R,
    writer: &mut W,
    watcher: &mut V,
) -> Ran<D>
    // Each line is answered and printed as it says, and the watcher is told of what is wrong with it, under its number.
    ensures watched { (text : List ℕ) → R.remaining reader ≡ Some text → result.status < 4 → (out : List ℕ)
        × RunsWatched D.PageDisk D.can_crash D.volatile_count V.meets text 1 core 0 watcher.old result.core result.status watcher.new out
        × Appends (W.contents writer.old) (W.contents writer.new) out }

    // Those lines that ran did so as in `run_script`.
    ensures script { (text : List ℕ) → R.remaining reader ≡ Some text → result.status < 4 → (out : List ℕ)
        × RunsInPart D.PageDisk D.can_crash D.volatile_count text core result.core result.status out
        × Appends (W.contents writer.old) (W.contents writer.new) out }

    ensures status { (result.status ≤ 1) ⊎ (result.status ≡ 3) ⊎ (result.status ≡ 4) }
    ensures core { (result.status ≤ 1 → IsSome result.core) × (result.status ≡ 3 → result.core ≡ None) }
{
    match BufReader::new(alloc, BoundedReader::new(reader, READS)) {
        Ok(mut reader) => run_lines(alloc, core, &mut reader, writer, watcher),
        Err(_) => Ran {
            status: cs_words::STREAM,
            core: Some(core),
        },
    }
}

/// Runs line after line, up to the end of the input, or to where the watcher ends it.
fn run_lines<D: CrashDisk + Drop, B: BufRead, W: Write, V: Watcher>(
    alloc: Global,
    core: Core<D>,
    reader: &mut B,
    writer: &mut W,
    watcher: &mut V,
) -> Ran<D>
    ensures watched { (text : List ℕ) → B.remaining reader.old ≡ Some text → result.status < 4 → (out : List ℕ)
        × RunsWatched D.PageDisk D.can_crash D.volatile_count V.meets text 1 core 0 watcher.old result.core result.status watcher.new out
        × Appends (W.contents writer.old) (W.contents writer.new) out }
    ensures status { (result.status ≤ 1) ⊎ (result.status ≡ 3) ⊎ (result.status ≡ 4) }
    ensures core { (result.status ≤ 1 → IsSome result.core) × (result.status ≡ 3 → result.core ≡ None) }
{
    let mut going = Going {
        core,
        status: cs_words::DONE,
    };
    for lines in 0..u64::MAX {
        let mut line = Vec::new(alloc);
        match reader.read_until(b'\n', &mut line) {
            Ok(0) => return Ran {
                status: going.status,
                core: Some(going.core),
            },
            Ok(_) => {}
            Err(_) => return Ran {
                status: cs_words::STREAM,
                core: Some(going.core),
            },
        }
        match watch_line(
            alloc,
            going,
            lines + 1,
            without_line_feed(&line),
            writer,
            watcher,
        ) {
            Ok(next) => going = next,
            Err(ran) => return ran,
        }
    }
    Ran {
        status: cs_words::STREAM,
        core: Some(going.core),
    }
}

/// A line without the line feed at its end.
fn without_line_feed(line: &[u8]) -> &[u8]
    ensures { result.now ≡ strip_last 10 line.now }
{
    match line.strip_suffix(b"\n") {
        Some(text) => text,
        None => line,
    }
}

/// Runs the line of this number, and tells the watcher what is wrong with it. It gives with what the script goes on, or
/// what it left behind.
fn watch_line<D: CrashDisk + Drop, W: Write, V: Watcher>(
    alloc: Global,
    going: Going<D>,
    number: u64,
    text: &[u8],
    writer: &mut W,
    watcher: &mut V,
) -> Result<Going<D>, Ran<D>>
    ensures on { IfOk result (λ next. (out : List ℕ) × RunsOn D.PageDisk D.can_crash D.volatile_count V.meets text.now number going.core going.status watcher.old next.core next.status watcher.new out
        × Appends (W.contents writer.old) (W.contents writer.new) out) }
    ensures ended { IfErr result (λ ran. (ran.status ≡ 4) ⊎ ((out : List ℕ)
        × EndsSo D.PageDisk D.can_crash D.volatile_count V.meets text.now number going.core going.status watcher.old ran.core ran.status watcher.new out
        × Appends (W.contents writer.old) (W.contents writer.new) out)) }
{
    match run_line(alloc, going, text, writer) {
        Ok(done) => match hear(watcher, number, text, done.fault) {
            Onward::GoOn => Ok(done.going),
            Onward::Stop => Err(Ran {
                status: cs_words::BAD_LINE,
                core: Some(done.going.core),
            }),
        },
        Err(End::Unopened(refusal)) => {
            watcher.met(number, text, LineFault::Refused(refusal));
            Err(Ran {
                status: cs_words::NO_STORE,
                core: None,
            })
        }
        Err(End::Broken(core)) => Err(Ran {
            status: cs_words::STREAM,
            core,
        }),
    }
}

/// Tells the watcher what is wrong with a line, where something is.
fn hear<V: Watcher>(watcher: &mut V, number: u64, text: &[u8], fault: Option<LineFault>) -> Onward
    ensures { Hears V.meets watcher.old number text.now fault result watcher.new }
{
    match fault {
        Some(fault) => watcher.met(number, text, fault),
        None => Onward::GoOn,
    }
}

/// Runs a line. It gives with what the script goes on and what is wrong with the line, or how it ends the script.
#[inline(never)]
fn run_line<D: CrashDisk + Drop, W: Write>(
    alloc: Global,
    going: Going<D>,
    text: &[u8],
    writer: &mut W,
) -> Result<Done<D>, End<D>>
    ensures on { IfOk result (λ done. (out : List ℕ) × GoesOnSo D.PageDisk D.can_crash D.volatile_count text.now going.core going.status done.going.core done.going.status done.fault out
        × Appends (W.contents writer.old) (W.contents writer.new) out) }
    ensures ended { IfErr result (IsEnd D.PageDisk D.can_crash D.volatile_count (said_of text.now) going.core (W.contents writer.old) (W.contents writer.new)) }
{
    let Going { core, status } = going;
    let Ok(line) = Line::read(alloc, text) else {
        return Err(End::Broken(Some(core)));
    };
    match mask_of(&core, &line) {
        Some(mask) => {
            let core = crash(alloc, core, mask, writer)?;
            Ok(Done {
                going: Going { core, status },
                fault: None,
            })
        }
        None => {
            let mut core = core;
            make_room(&mut core);
            let crashable = core.disk().crashable();
            let line = line_to(crashable, line);
            let status = after_line(&line, status);
            let (core, answer) = answer_line(alloc, core, line, writer)?;
            Ok(Done {
                going: Going { core, status },
                fault: fault_of(answer, text, crashable),
            })
        }
    }
}

/// What is wrong with a line that is answered so, over a disk of which it is told whether it can crash.
fn fault_of(answer: Answer, text: &[u8], crashable: bool) -> Option<LineFault>
    ensures { IsFaultOf crashable text.now answer result }
{
    match answer {
        Answer::Given => None,
        Answer::Bad => Some(LineFault::Bad(BadLine::of(text, crashable))),
        Answer::Refused(refusal) => Some(LineFault::Refused(refusal)),
    }
}

/// The line as it is answered over a disk of which it is told whether it can crash: where it can't, as in a file, a
/// line `step` isn't readable.
fn line_to(crashable: bool, line: Line) -> Line
    ensures { said_by result ≡ said_to crashable (said_by line) }
{
    match line {
        Line::Step if !crashable => Line::Bad,
        line => line,
    }
}

/// The exit status so far after a line that is no `crash` that fits the disk.
fn after_line(line: &Line, status: u8) -> u8
    ensures { result ≡ status_after (said_by line.now) status }
{
    match line {
        Line::Crash { mask: _ } | Line::Bad => cs_words::BAD_LINE,
        _ => status,
    }
}

/// Answers a line that is no `crash` that fits the disk. It gives the core and how the line was answered, once all is
/// written out.
fn answer_line<D: PageDisk, W: Write>(
    alloc: Global,
    core: Core<D>,
    line: Line,
    writer: &mut W,
) -> Result<(Core<D>, Answer), End<D>>
    ensures on { IfOk result (λ on. (out : List ℕ) × AnswersSo D.PageDisk (said_by line) on.1 core on.0 out × Appends (W.contents writer.old) (W.contents writer.new) out) }
    ensures ended { IfErr result IsBroken }
{
    let mut core = core;
    match answer_and_flush(alloc, &mut core, line, writer) {
        Ok(answer) => Ok((core, answer)),
        Err(_) => Err(End::Broken(Some(core))),
    }
}

/// Answers a line, and writes all out.
fn answer_and_flush<D: PageDisk, W: Write>(
    alloc: Global,
    core: &mut Core<D>,
    line: Line,
    writer: &mut W,
) -> io::Result<Answer>
    ensures { IfOk result (λ answer. (out : List ℕ) × AnswersSo D.PageDisk (said_by line) answer core.old core.new out × Appends (W.contents writer.old) (W.contents writer.new) out) }
{
    let answer = answer(alloc, core, line, writer)?;
    writer.flush()?;
    Ok(answer)
}

/// Answers a line that is no `crash` that fits the disk.
fn answer<D: PageDisk, W: Write>(
    alloc: Global,
    core: &mut Core<D>,
    line: Line,
    writer: &mut W,
) -> io::Result<Answer>
    ensures { IfOk result (λ answer. (out : List ℕ) × AnswersSo D.PageDisk (said_by line) answer core.old core.new out × Appends (W.contents writer.old) (W.contents writer.new) out) }
{
    match line {
        Line::Put { id, bytes } => put(alloc, core, id, bytes, writer),
        Line::Get { id } => get(core, id, writer),
        Line::Delete { id } => delete(core, id, writer),
        Line::Sweep { extent } => sweep(core, extent, writer),
        Line::Sync => sync(core, writer),
        Line::Step => step(core, writer),
        Line::Plan => plan(core, writer),
        Line::Document => document(alloc, core, writer),
        Line::Nothing => Ok(Answer::Given),
        // A `crash` that fits was taken by `run_line`.
        Line::Crash { mask: _ } | Line::Bad => print_bad(writer),
    }
}

/// Puts a shard.
fn put<D: PageDisk, W: Write>(
    alloc: Global,
    core: &mut Core<D>,
    id: [u8; 16],
    bytes: Vec<u8>,
    writer: &mut W,
) -> io::Result<Answer>
    ensures { IfOk result (λ answer. (out : List ℕ) × AnswersSo D.PageDisk (says_put id bytes.items) answer core.old core.new out × Appends (W.contents writer.old) (W.contents writer.new) out) }
{
    match Bytes::new(alloc, bytes) {
        Ok(bytes) => put_bytes(core, id, bytes, writer),
        Err(AllocError) => print_refused(writer, Refusal::OutOfMemory),
    }
}

/// Puts these bytes under an identifier.
fn put_bytes<D: PageDisk, W: Write>(
    core: &mut Core<D>,
    id: [u8; 16],
    bytes: Bytes,
    writer: &mut W,
) -> io::Result<Answer>
    ensures { IfOk result (λ answer. (out : List ℕ) × AnswersSo D.PageDisk (says_put id bytes) answer core.old core.new out × Appends (W.contents writer.old) (W.contents writer.new) out) }
{
    match ask(core, &Event::Put(ShardId(id), bytes)) {
        Ok(Reply::Accepted(number)) => given(print_put(writer, number)),
        Ok(_) => unreachable!(),
        Err(refusal) => print_refused(writer, refusal),
    }
}

/// Gets a shard.
fn get<D: PageDisk, W: Write>(
    core: &mut Core<D>,
    id: [u8; 16],
    writer: &mut W,
) -> io::Result<Answer>
    ensures { IfOk result (λ answer. (out : List ℕ) × AnswersSo D.PageDisk (says_get id) answer core.old core.new out × Appends (W.contents writer.old) (W.contents writer.new) out) }
{
    match ask(core, &Event::Get(ShardId(id))) {
        Ok(Reply::Found(bytes)) => given(print_value(writer, bytes.as_slice())),
        Ok(Reply::Absent) => given(print_absent(writer)),
        Ok(_) => unreachable!(),
        Err(refusal) => print_refused(writer, refusal),
    }
}

/// Deletes a shard.
fn delete<D: PageDisk, W: Write>(
    core: &mut Core<D>,
    id: [u8; 16],
    writer: &mut W,
) -> io::Result<Answer>
    ensures { IfOk result (λ answer. (out : List ℕ) × AnswersSo D.PageDisk (says_delete id) answer core.old core.new out × Appends (W.contents writer.old) (W.contents writer.new) out) }
{
    match ask(core, &Event::Delete(ShardId(id))) {
        Ok(Reply::Accepted(number)) => given(print_delete(writer, number)),
        Ok(Reply::Absent) => given(print_absent(writer)),
        Ok(_) => unreachable!(),
        Err(refusal) => print_refused(writer, refusal),
    }
}
