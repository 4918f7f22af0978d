//! The lines of a picture. Any write may fail, and nothing says when, so each of these may answer an error.
ghost use Rattle.std.specs.Prelude.{OnOk, flat_map};
ghost use Rattle.std.specs.Io.KnownBytes.{Appends};
ghost use Rattle.cs_check.specs.Names.{AreLetters};
ghost use Rattle.cs_picture.specs.Picture.{arrow_line, bold_arrow_line, bold_line, box_line, dashed_line, element_line, first_lines, label_line, last_line, member_line, round_lines, target_line};

use crate::names::name_of;
use cs_deps::Element;
use std::io;
use std::io::Write;

/// The first lines.
pub fn draw_first<W: Write>(writer: &mut W) -> io::Result<()>
    ensures { OnOk result (Appends (W.contents writer.old) (W.contents writer.new) first_lines) }
{
    writeln!(writer, "strict digraph plan {{")?;
    writeln!(writer, "  rankdir=RL;")?;
    writeln!(writer, "  node [shape=box, style=solid];")
}

/// The box of a round, by its number.
pub fn draw_round<W: Write>(
    writer: &mut W,
    letters: &[char],
    number: usize,
    round: &[Element],
) -> io::Result<()>
    requires { AreLetters letters.now }
    ensures { OnOk result (Appends (W.contents writer.old) (W.contents writer.new) (round_lines letters.now number round.now)) }
{
    draw_box(writer, number)?;
    draw_label(writer, number)?;
    draw_members(writer, letters, round)?;
    writeln!(writer, "  }}")
}

/// A box begins.
fn draw_box<W: Write>(writer: &mut W, number: usize) -> io::Result<()>
    ensures { OnOk result (Appends (W.contents writer.old) (W.contents writer.new) (box_line number)) }
{
    writeln!(writer, "  subgraph cluster_{number} {{")
}

/// The text at a box.
fn draw_label<W: Write>(writer: &mut W, number: usize) -> io::Result<()>
    ensures { OnOk result (Appends (W.contents writer.old) (W.contents writer.new) (label_line number)) }
{
    writeln!(writer, "    label=\"round {number}\";")
}

/// The elements of a round.
fn draw_members<W: Write>(writer: &mut W, letters: &[char], round: &[Element]) -> io::Result<()>
    requires { AreLetters letters.now }
    ensures { OnOk result (Appends (W.contents writer.old) (W.contents writer.new) (flat_map (member_line letters.now) round.now)) }
{
    for element in round {
        draw_member(writer, letters, *element)?;
    }
    Ok(())
}

/// An element of a round.
fn draw_member<W: Write>(writer: &mut W, letters: &[char], element: Element) -> io::Result<()>
    requires { AreLetters letters.now }
    ensures { OnOk result (Appends (W.contents writer.old) (W.contents writer.new) (member_line letters.now element)) }
{
    let name = name_of(letters, element);
    writeln!(writer, "    {name};")
}

/// From here on elements are dashed that weren't there before.
pub fn draw_dashed<W: Write>(writer: &mut W) -> io::Result<()>
    ensures { OnOk result (Appends (W.contents writer.old) (W.contents writer.new) dashed_line) }
{
    writeln!(writer, "  node [style=dashed];")
}

/// An element.
pub fn draw_element<W: Write>(writer: &mut W, letters: &[char], element: Element) -> io::Result<()>
    requires { AreLetters letters.now }
    ensures { OnOk result (Appends (W.contents writer.old) (W.contents writer.new) (element_line letters.now element)) }
{
    let name = name_of(letters, element);
    writeln!(writer, "  {name};")
}

/// An arrow from an element to one that it waits for.
pub fn draw_arrow<W: Write>(
    writer: &mut W,
    letters: &[char],
    element: Element,
    need: Element,
) -> io::Result<()>
    requires { AreLetters letters.now }
    ensures { OnOk result (Appends (W.contents writer.old) (W.contents writer.new) (arrow_line letters.now element need)) }
{
    let from = name_of(letters, element);
    let to = name_of(letters, need);
    writeln!(writer, "  {from} -> {to};")
}

/// An element of the target.
pub fn draw_target<W: Write>(writer: &mut W, letters: &[char], element: Element) -> io::Result<()>
    requires { AreLetters letters.now }
    ensures { OnOk result (Appends (W.contents writer.old) (W.contents writer.new) (target_line letters.now element)) }
{
    let name = name_of(letters, element);
    writeln!(writer, "  {name} [peripheries=2];")
}

/// An element of the chain.
pub fn draw_bold<W: Write>(writer: &mut W, letters: &[char], element: Element) -> io::Result<()>
    requires { AreLetters letters.now }
    ensures { OnOk result (Appends (W.contents writer.old) (W.contents writer.new) (bold_line letters.now element)) }
{
    let name = name_of(letters, element);
    writeln!(writer, "  {name} [penwidth=2];")
}

/// An arrow of the chain, from an element to one that it waits for.
pub fn draw_bold_arrow<W: Write>(
    writer: &mut W,
    letters: &[char],
    element: Element,
    need: Element,
) -> io::Result<()>
    requires { AreLetters letters.now }
    ensures { OnOk result (Appends (W.contents writer.old) (W.contents writer.new) (bold_arrow_line letters.now element need)) }
{
    let from = name_of(letters, element);
    let to = name_of(letters, need);
    writeln!(writer, "  {from} -> {to} [penwidth=2];")
}

/// The last line.
pub fn draw_last<W: Write>(writer: &mut W) -> io::Result<()>
    ensures { OnOk result (Appends (W.contents writer.old) (W.contents writer.new) last_line) }
{
    writeln!(writer, "}}")
}
