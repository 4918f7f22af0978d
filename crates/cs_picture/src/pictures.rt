//! The picture of a plan document.
ghost use Rattle.std.specs.Prelude.{◌≡◌, [], OnOk, if◌then◌else◌, flat_map, map};
ghost use Rattle.std.specs.Io.KnownBytes.{Appends};
ghost use Rattle.cs_deps.specs.View.{rounds_of};
ghost use Rattle.cs_check.specs.Names.{AreLetters};
ghost use Rattle.cs_check.specs.Documents.{elements_in};
ghost use Rattle.cs_picture.specs.Picture.{arrow_line, bold_line, element_line, is_named, link_lines, named_in, need_lines, picture, rounds_lines, target_line};

use crate::lines::{
    draw_arrow, draw_bold, draw_bold_arrow, draw_dashed, draw_element, draw_first, draw_last,
    draw_round, draw_target,
};
use cs_check::Document;
use cs_deps::{Dependency, Element, Plan};
use std::io;
use std::io::Write;

/// Writes the picture of a plan document, a graph in the DOT language, line by line. It takes no memory.
///
/// - A box `round k` has the elements that round k writes, by their names in the document.
/// - Dashed elements wait, and no round writes them: a round that writes a later version stands for them, or the
///   target needs none of them.
/// - An arrow `s3 -> w31` says that s3 waits for w31: it needs it, and both wait. Of the versions of a family that it needs
///   it has an arrow to the last alone, which stands for the earlier ones. What is persistent isn't drawn.
/// - Elements of the target have two borders, of each family the last version that the target names.
/// - Elements of the chain and the arrows from each of them to the one before are bold (`penwidth=2`).
///
/// Time runs from left to right: arrows point to the left. With n elements whose needs list s spans in all, it takes
/// time in the order of n * (n + s). Where the writer fails, it ends with that error, and what was written stays.
pub fn draw<W: Write>(writer: &mut W, document: &Document) -> io::Result<()>
    requires { AreLetters document.now.letters.items }
    ensures { OnOk result (Appends (W.contents writer.old) (W.contents writer.new)
        (picture document.now.letters.items document.now.view.waiting.items document.now.target (rounds_of document.now.plan) document.now.plan.chain.items)) }
{
    draw_parts(
        writer,
        &document.letters,
        &document.view.waiting,
        &document.target,
        &document.plan,
    )
}

/// The picture of the parts of a document.
fn draw_parts<W: Write>(
    writer: &mut W,
    letters: &[char],
    waiting: &[(Element, Dependency)],
    target: &Dependency,
    plan: &Plan,
) -> io::Result<()>
    requires { AreLetters letters.now }
    ensures { OnOk result (Appends (W.contents writer.old) (W.contents writer.new) (picture letters.now waiting.now target.now (rounds_of plan.now) plan.now.chain.items)) }
{
    draw_first(writer)?;
    draw_rounds(writer, letters, &plan.rounds)?;
    draw_dashed(writer)?;
    draw_elements(writer, letters, waiting)?;
    draw_all_needs(writer, letters, waiting)?;
    draw_targets(writer, letters, waiting, target)?;
    draw_chain(writer, letters, &plan.chain)?;
    draw_links(writer, letters, &plan.chain)?;
    draw_last(writer)
}

/// The boxes of rounds, numbered from 1.
fn draw_rounds<W: Write>(
    writer: &mut W,
    letters: &[char],
    rounds: &[Vec<Element>],
) -> io::Result<()>
    requires { AreLetters letters.now }
    ensures { OnOk result (Appends (W.contents writer.old) (W.contents writer.new) (rounds_lines letters.now 1 (map (λ round. round.items) rounds.now))) }
{
    for i in 0..rounds.len() {
        draw_round(writer, letters, i + 1, &rounds[i])?;
    }
    Ok(())
}

/// All that waits.
fn draw_elements<W: Write>(
    writer: &mut W,
    letters: &[char],
    waiting: &[(Element, Dependency)],
) -> io::Result<()>
    requires { AreLetters letters.now }
    ensures { OnOk result (Appends (W.contents writer.old) (W.contents writer.new) (flat_map (element_line letters.now) (elements_in waiting.now))) }
{
    for entry in waiting {
        draw_element(writer, letters, entry.0)?;
    }
    Ok(())
}

/// The arrows of all that waits.
fn draw_all_needs<W: Write>(
    writer: &mut W,
    letters: &[char],
    waiting: &[(Element, Dependency)],
) -> io::Result<()>
    requires { AreLetters letters.now }
    ensures { OnOk result (Appends (W.contents writer.old) (W.contents writer.new) (flat_map (need_lines letters.now waiting.now) waiting.now)) }
{
    for entry in waiting {
        draw_needs(writer, letters, waiting, entry.0, &entry.1)?;
    }
    Ok(())
}

/// The arrows of an element that needs these.
fn draw_needs<W: Write>(
    writer: &mut W,
    letters: &[char],
    waiting: &[(Element, Dependency)],
    element: Element,
    needs: &Dependency,
) -> io::Result<()>
    requires { AreLetters letters.now }
    ensures { OnOk result (Appends (W.contents writer.old) (W.contents writer.new) (need_lines letters.now waiting.now (element, needs.now))) }
{
    for entry in waiting {
        draw_need(writer, letters, element, needs, entry.0)?;
    }
    Ok(())
}

/// The arrow from an element to another, if that is named among its needs.
fn draw_need<W: Write>(
    writer: &mut W,
    letters: &[char],
    element: Element,
    needs: &Dependency,
    other: Element,
) -> io::Result<()>
    requires { AreLetters letters.now }
    ensures { OnOk result (Appends (W.contents writer.old) (W.contents writer.new) (if is_named needs.now other then arrow_line letters.now element other else [])) }
{
    if is_named(needs, other) {
        draw_arrow(writer, letters, element, other)
    } else {
        Ok(())
    }
}

/// Whether an element is named, and no later version of its family.
fn is_named(needs: &Dependency, element: Element) -> bool
    ensures { result ≡ is_named needs.now element }
{
    match element {
        Element::Plain(_) => needs.names(element),
        Element::Version(family, version) => 1 <= version && version == needs.least_of(family),
    }
}

/// The borders of the waiting elements that the target names.
fn draw_targets<W: Write>(
    writer: &mut W,
    letters: &[char],
    waiting: &[(Element, Dependency)],
    target: &Dependency,
) -> io::Result<()>
    requires { AreLetters letters.now }
    ensures { OnOk result (Appends (W.contents writer.old) (W.contents writer.new) (flat_map (target_line letters.now) (named_in waiting.now target.now))) }
{
    for entry in waiting {
        draw_if_target(writer, letters, target, entry.0)?;
    }
    Ok(())
}

/// The borders of an element, if the target names it.
fn draw_if_target<W: Write>(
    writer: &mut W,
    letters: &[char],
    target: &Dependency,
    element: Element,
) -> io::Result<()>
    requires { AreLetters letters.now }
    ensures { OnOk result (Appends (W.contents writer.old) (W.contents writer.new) (if is_named target.now element then target_line letters.now element else [])) }
{
    if is_named(target, element) {
        draw_target(writer, letters, element)
    } else {
        Ok(())
    }
}

/// The elements of the chain.
fn draw_chain<W: Write>(writer: &mut W, letters: &[char], chain: &[Element]) -> io::Result<()>
    requires { AreLetters letters.now }
    ensures { OnOk result (Appends (W.contents writer.old) (W.contents writer.new) (flat_map (bold_line letters.now) chain.now)) }
{
    for element in chain {
        draw_bold(writer, letters, *element)?;
    }
    Ok(())
}

/// The arrows of the chain.
fn draw_links<W: Write>(writer: &mut W, letters: &[char], chain: &[Element]) -> io::Result<()>
    requires { AreLetters letters.now }
    ensures { OnOk result (Appends (W.contents writer.old) (W.contents writer.new) (link_lines letters.now chain.now)) }
{
    for i in 1..chain.len() {
        draw_bold_arrow(writer, letters, chain[i], chain[i - 1])?;
    }
    Ok(())
}
