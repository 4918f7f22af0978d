//! The command `bench`.
ghost use Rattle.std.specs.Prelude.{◌≡◌, ◌⊎◌};
ghost use Rattle.cs_refusal.specs.declared.refusals.Refusal.{Refusal as Why};
ghost use Rattle.cs_advice.specs.declared.outcomes.Outcome.TheVariants.{Done, Failed, Refused};

use crate::timings::{Timings, nanos_since};
use cs_advice::{Outcome, Style};
use cs_disk::PageDisk;
use cs_frame::ShardId;
use cs_inspect::Progress;
use cs_refusal::Refusal;
use cs_store::mount::the_core::{Bytes, Core, Event, Reply};
use cs_writeback::{ask, make_room, sync};
use std::alloc::Global;
use std::io;
use std::io::Write;
use std::time::{Clock, Instant};

/// What is done.
#[derive(Clone, Copy)]
pub struct Load {
    /// How many puts with a sync each, how many batches, and how many gets.
    pub calls: u64,
    /// How many bytes a shard has.
    pub bytes: usize,
    /// How many puts a batch has.
    pub batch: u64,
}

/// Why a measurement ended early.
#[derive(Clone, Copy)]
enum Stop {
    Refused(Refusal),
    Failed,
}

/// What was measured.
#[derive(Drop)]
struct Measured {
    puts: Timings,
    batches: Timings,
    gets: Timings,
    flushes: u64,
}

/// Puts with a sync each, batches of puts with a sync each, and gets, over a new store: prints of each how many there
/// were, how many a second, and how long half and 99 of 100 of them took; and how many flushes a batch takes.
pub fn bench<D: PageDisk, R: Clock, P: Progress, W: Write>(
    rt: &R,
    alloc: Global,
    core: &mut Core<D>,
    load: Load,
    progress: &P,
    style: Style,
    writer: &mut W,
) -> Outcome
    ensures { (result ≡ Done) ⊎ ((r : Why) × (result ≡ Refused r)) ⊎ (result ≡ Failed) }
{
    match measure(rt, alloc, core, load, progress) {
        Ok(mut measured) => report(&mut measured, load, style, writer),
        Err(Stop::Refused(refusal)) => Outcome::Refused(refusal),
        Err(Stop::Failed) => Outcome::Failed,
    }
}

/// Measures.
fn measure<D: PageDisk, R: Clock, P: Progress>(
    rt: &R,
    alloc: Global,
    core: &mut Core<D>,
    load: Load,
    progress: &P,
) -> Result<Measured, Stop> {
    let bytes = payload(alloc, load.bytes)?;
    let mut measured = Measured {
        puts: Timings::new(alloc, 1),
        batches: Timings::new(alloc, load.batch),
        gets: Timings::new(alloc, 1),
        flushes: 0,
    };
    progress.tell(0, 3);
    time_puts(rt, core, &bytes, load, &mut measured.puts)?;
    progress.tell(1, 3);
    let flushes = time_batches(rt, core, &bytes, load, &mut measured.batches)?;
    measured.flushes = flushes;
    progress.tell(2, 3);
    time_gets(rt, core, load, &mut measured.gets)?;
    progress.tell(3, 3);
    Ok(measured)
}

/// The bytes of each shard.
fn payload(alloc: Global, count: usize) -> Result<Bytes, Stop> {
    let mut bytes = Vec::new(alloc);
    let Ok(()) = bytes.resize(count, 0x61) else {
        return Err(Stop::Refused(Refusal::OutOfMemory));
    };
    match Bytes::new(alloc, bytes) {
        Ok(bytes) => Ok(bytes),
        Err(_) => Err(Stop::Refused(Refusal::OutOfMemory)),
    }
}

/// Times puts with a sync each.
fn time_puts<D: PageDisk, R: Clock>(
    rt: &R,
    core: &mut Core<D>,
    bytes: &Bytes,
    load: Load,
    timings: &mut Timings,
) -> Result<(), Stop> {
    for number in 0..load.calls {
        let start = started(rt)?;
        put(core, number % 500, bytes)?;
        sync_all(core)?;
        add(rt, start, timings)?;
    }
    Ok(())
}

/// Times batches of puts with a sync each, and gives how many flushes they took.
fn time_batches<D: PageDisk, R: Clock>(
    rt: &R,
    core: &mut Core<D>,
    bytes: &Bytes,
    load: Load,
    timings: &mut Timings,
) -> Result<u64, Stop> {
    let mut flushes: u64 = 0;
    for number in 0..load.calls {
        make_room(core);
        let before = core.history().len();
        let start = started(rt)?;
        put_batch(core, number, bytes, load)?;
        sync_all(core)?;
        add(rt, start, timings)?;
        flushes = flushes.saturating_add(flushes_behind(core, before));
    }
    Ok(flushes)
}

/// The puts of a batch.
fn put_batch<D: PageDisk>(
    core: &mut Core<D>,
    number: u64,
    bytes: &Bytes,
    load: Load,
) -> Result<(), Stop> {
    for k in 0..load.batch {
        put(
            core,
            number.wrapping_mul(load.batch).wrapping_add(k) % 500,
            bytes,
        )?;
    }
    Ok(())
}

/// Times gets.
fn time_gets<D: PageDisk, R: Clock>(
    rt: &R,
    core: &mut Core<D>,
    load: Load,
    timings: &mut Timings,
) -> Result<(), Stop> {
    for number in 0..load.calls {
        let start = started(rt)?;
        get(core, number % 500)?;
        add(rt, start, timings)?;
    }
    Ok(())
}

/// The moment.
fn started<R: Clock>(rt: &R) -> Result<Instant, Stop> {
    match Instant::now(rt) {
        Ok(start) => Ok(start),
        Err(_) => Err(Stop::Failed),
    }
}

/// Adds the call that started then.
fn add<R: Clock>(rt: &R, start: Instant, timings: &mut Timings) -> Result<(), Stop> {
    let Ok(nanoseconds) = nanos_since(rt, start) else {
        return Err(Stop::Failed);
    };
    match timings.add(nanoseconds) {
        Ok(()) => Ok(()),
        Err(_) => Err(Stop::Refused(Refusal::OutOfMemory)),
    }
}

/// Puts these bytes under the identifier with this number. A long history is dropped first.
fn put<D: PageDisk>(core: &mut Core<D>, number: u64, bytes: &Bytes) -> Result<(), Stop> {
    make_room(core);
    let Ok(bytes) = bytes.share() else {
        return Err(Stop::Refused(Refusal::OutOfMemory));
    };
    match ask(core, &Event::Put(id(number), bytes)) {
        Ok(_) => Ok(()),
        Err(refusal) => Err(Stop::Refused(refusal)),
    }
}

/// Gets what is under the identifier with this number.
fn get<D: PageDisk>(core: &mut Core<D>, number: u64) -> Result<(), Stop> {
    match core.read(id(number)) {
        Ok(_) => Ok(()),
        Err(refusal) => Err(Stop::Refused(refusal)),
    }
}

/// Makes all persistent.
fn sync_all<D: PageDisk>(core: &mut Core<D>) -> Result<(), Stop> {
    match sync(core) {
        Ok(_) => Ok(()),
        Err(refusal) => Err(Stop::Refused(refusal)),
    }
}

/// How many flushes there were since so many events were kept.
fn flushes_behind<D: PageDisk>(core: &Core<D>, before: usize) -> u64 {
    let mut flushes: u64 = 0;
    for entry in core.history().iter().skip(before) {
        if matches!(entry.1, Reply::Ended(_)) {
            flushes = flushes.saturating_add(1);
        }
    }
    flushes
}

/// The identifier of a number.
fn id(number: u64) -> ShardId {
    let mut id = [0; 16];
    id[8..].copy_from_slice(&number.to_be_bytes());
    ShardId(id)
}

/// Prints what was measured.
fn report<W: Write>(measured: &mut Measured, load: Load, style: Style, writer: &mut W) -> Outcome
    ensures { (result ≡ Done) ⊎ (result ≡ Failed) }
{
    match print_measured(measured, load, style, writer) {
        Ok(()) => Outcome::Done,
        Err(_) => Outcome::Failed,
    }
}

/// The same, with the writer's error.
fn print_measured<W: Write>(
    measured: &mut Measured,
    load: Load,
    style: Style,
    writer: &mut W,
) -> io::Result<()> {
    measured.puts.print("put and sync", style, writer)?;
    measured.batches.print("batch", style, writer)?;
    print_flushes(writer, measured.flushes, load, style)?;
    measured.gets.print("get", style, writer)?;
    writer.flush()
}

/// How many flushes all batches took.
fn print_flushes<W: Write>(
    writer: &mut W,
    flushes: u64,
    load: Load,
    style: Style,
) -> io::Result<()> {
    let Load {
        calls,
        bytes,
        batch,
    } = load;
    match style {
        Style::Text => writeln!(
            writer,
            "flushes: {flushes} for {calls} batches of {batch} puts of {bytes} bytes"
        ),
        Style::Json => writeln!(
            writer,
            "{{\"what\":\"flushes\",\"count\":{flushes},\"batches\":{calls},\"batch\":{batch},\"bytes\":{bytes}}}"
        ),
    }
}
