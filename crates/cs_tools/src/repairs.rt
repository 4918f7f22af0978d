//! What is done before damaged pages are written anew.
ghost use Rattle.std.specs.Prelude.{◌≡◌, ◌⊎◌, ◌++◌, OnOk, false, flat_map};
ghost use Rattle.std.specs.Io.KnownBytes.{Appends};
ghost use Rattle.cs_tools.specs.Pages.{pair_line};
ghost use Rattle.cs_tools.specs.Repairs.{lost_line};
ghost use Rattle.cs_advice.specs.declared.outcomes.Outcome.TheVariants.{Failed, MayBeLost};
ghost use Rattle.cs_advice.specs.declared.outputs.Style.TheVariants.{Json, Text};

use crate::pages::print_pages;
use cs_advice::{Outcome, Style, print_number};
use cs_disk::PageDisk;
use cs_store::mount::Finding;
use cs_store::mount::the_core::Core;
use std::io;
use std::io::Write;

/// Ends a repair that may make a loss final, before it writes anything: prints after which command the others may be
/// lost, and then the pages that aren't whole.
pub fn stop_repair<D: PageDisk, W: Write>(
    core: &Core<D>,
    findings: &[Finding],
    style: Style,
    writer: &mut W,
) -> Outcome
    ensures ends { (result ≡ MayBeLost) ⊎ (result ≡ Failed) }
    ensures printed { result ≡ MayBeLost → Appends (W.contents writer.old) (W.contents writer.new) (lost_line style core.now.found.0 ++ flat_map (pair_line style false) findings.now) }
{
    let (commands, _) = core.opened();
    match print_stopped(writer, commands, findings, style) {
        Ok(()) => Outcome::MayBeLost,
        Err(_) => Outcome::Failed,
    }
}

/// The same of a root that counts so many commands, with the writer's error.
fn print_stopped<W: Write>(
    writer: &mut W,
    commands: u64,
    findings: &[Finding],
    style: Style,
) -> io::Result<()>
    ensures { OnOk result (Appends (W.contents writer.old) (W.contents writer.new) (lost_line style commands ++ flat_map (pair_line style false) findings.now)) }
{
    print_lost(writer, commands, style)?;
    print_pages(writer, findings, false, style)?;
    writer.flush()
}

/// The line of the commands that may be lost.
fn print_lost<W: Write>(writer: &mut W, commands: u64, style: Style) -> io::Result<()>
    ensures { OnOk result (Appends (W.contents writer.old) (W.contents writer.new) (lost_line style commands)) }
{
    match style {
        Style::Text => print_lost_line(writer, commands),
        Style::Json => print_lost_object(writer, commands),
    }
}

/// The line in words.
fn print_lost_line<W: Write>(writer: &mut W, commands: u64) -> io::Result<()>
    ensures { OnOk result (Appends (W.contents writer.old) (W.contents writer.new) (lost_line Text commands)) }
{
    print_number(writer, "commands after ", commands)?;
    writeln!(writer, " may be lost")
}

/// The line as a JSON object.
fn print_lost_object<W: Write>(writer: &mut W, commands: u64) -> io::Result<()>
    ensures { OnOk result (Appends (W.contents writer.old) (W.contents writer.new) (lost_line Json commands)) }
{
    print_number(writer, "{\"lost_after\":", commands)?;
    writeln!(writer, "}}")
}
