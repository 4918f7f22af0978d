//! The command `list`.
ghost use Rattle.std.specs.Prelude.{◌≡◌, ◌≢◌, ◌⊎◌, ◌++◌, List, [], OnOk, flat_map, map};
ghost use Rattle.std.specs.Io.KnownBytes.{Appends};
ghost use Rattle.cs_refusal.specs.declared.refusals.Refusal.{Refusal as Why};
ghost use Rattle.cs_frame.specs.declared.identifiers.ShardId.{ShardId as Id};
ghost use Rattle.cs_index.specs.State.{id_number, index_of};
ghost use Rattle.law_machine.specs.Index.{live_at};
ghost use Rattle.cs_inspect.specs.Listings.{AreFirst};
ghost use Rattle.cs_advice.specs.Outputs.{id_line};
ghost use Rattle.cs_advice.specs.declared.outcomes.Outcome.TheVariants.{Done, Failed, Refused};
ghost use Rattle.cs_advice.specs.declared.outputs.Style.TheVariants.{Json, Text};

use cs_advice::{Outcome, Style, print_id};
use cs_disk::PageDisk;
use cs_frame::ShardId;
use cs_inspect::ids_from;
use cs_refusal::Refusal;
use cs_store::mount::the_core::Core;
use std::alloc::Global;
use std::io;
use std::io::Write;

/// Prints the identifiers of the first so many shards that are there, from one on, by rising bytes, one a line.
pub fn list<D: PageDisk, W: Write>(
    alloc: Global,
    core: &Core<D>,
    from: ShardId,
    most: usize,
    style: Style,
    writer: &mut W,
) -> Outcome
    ensures lines { result ≡ Done → (ids : List Id) × AreFirst (λ id. live_at (index_of core.now.store.index) id ≢ []) (id_number from) most (map id_number ids)
        × Appends (W.contents writer.old) (W.contents writer.new) (flat_map (id_line style) ids) }
    ensures ends { (result ≡ Done) ⊎ (result ≡ Refused Refusal.OutOfMemory) ⊎ (result ≡ Failed) }
    // Where it is refused nothing was written.
    ensures untouched { (r : Why) → result ≡ Refused r → writer.new ≡ writer.old }
{
    let Ok(ids) = ids_from(alloc, core.index(), from, most) else {
        return Outcome::Refused(Refusal::OutOfMemory);
    };
    match print_ids(writer, &ids, style) {
        Ok(()) => Outcome::Done,
        Err(_) => Outcome::Failed,
    }
}

/// Prints identifiers, one a line.
pub fn print_ids<W: Write>(writer: &mut W, ids: &[ShardId], style: Style) -> io::Result<()>
    ensures { OnOk result (Appends (W.contents writer.old) (W.contents writer.new) (flat_map (id_line style) ids.now)) }
{
    for id in ids {
        print_line(writer, *id, style)?;
    }
    writer.flush()
}

/// Prints an identifier as a line.
fn print_line<W: Write>(writer: &mut W, id: ShardId, style: Style) -> io::Result<()>
    ensures { OnOk result (Appends (W.contents writer.old) (W.contents writer.new) (id_line style id)) }
{
    match style {
        Style::Text => print_text(writer, id),
        Style::Json => print_object(writer, id),
    }
}

/// Prints an identifier alone as a line.
fn print_text<W: Write>(writer: &mut W, id: ShardId) -> io::Result<()>
    ensures { OnOk result (Appends (W.contents writer.old) (W.contents writer.new) (id_line Text id)) }
{
    print_id(writer, id)?;
    writeln!(writer)
}

/// Prints an identifier in a JSON object as a line.
fn print_object<W: Write>(writer: &mut W, id: ShardId) -> io::Result<()>
    ensures { OnOk result (Appends (W.contents writer.old) (W.contents writer.new) (id_line Json id)) }
{
    write!(writer, "{{\"id\":\"")?;
    print_id(writer, id)?;
    writeln!(writer, "\"}}")
}
