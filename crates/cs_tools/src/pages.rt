//! Pages that a store has twice and of which one isn't whole.
ghost use Rattle.std.specs.Prelude.{◌≡◌, ◌≢◌, ◌==◌, ◌⊎◌, ◌-◌, ◌^◌, MatchBool, None, OnOk, count_by, flat_map, length, min};
ghost use Rattle.std.specs.Io.KnownBytes.{Appends};
ghost use Rattle.cs_twin.specs.Findings.{held_of, is_halved, passed_over};
ghost use Rattle.cs_twin.specs.Pairs.{half};
ghost use Rattle.cs_tools.specs.Pages.{AreLeftWhole, AreWhole, half_line, left_count, left_damaged, left_made, pages_text, pair_line, section_line};

use cs_advice::Style;
use cs_store::mount::Finding;
use std::io;
use std::io::Write;

/// What was found of the pages that a store has twice.
#[derive(Clone, Copy)]
pub struct FoundPages<'a> {
    /// Of each pair.
    pub findings: &'a [Finding],
    /// The pages on which a section of the superblock was lost. Each section was made from the index.
    pub made: &'a [u64],
    /// Whether those pages that weren't whole, and the sections that were made, were written since.
    pub mended: bool,
}

/// 1 if a page of the pair was passed over for its damage, else 0.
fn passed_over_of(finding: Finding) -> usize
    ensures { ((result ≡ 0) × (passed_over finding ≡ None)) ⊎ ((result ≡ 1) × (passed_over finding ≢ None)) }
{
    match finding.passed_over() {
        Some(_) => 1,
        None => 0,
    }
}

/// How many pages aren't whole while their other copy is.
fn count_passed_over(findings: &[Finding]) -> usize
    ensures none { MatchBool (result == 0) (AreWhole findings.now) (¬ AreWhole findings.now) }
    ensures count { result ≡ min (count_by is_halved findings.now) (2 ^ 64 - 1) }
{
    let mut count: usize = 0;
    for finding in findings {
        count = count.saturating_add(passed_over_of(*finding));
    }
    count
}

/// How many of them are so still: none where they were written anew.
fn count_left(findings: &[Finding], mended: bool) -> usize
    ensures none { MatchBool (result == 0) (AreWhole (left_damaged mended findings.now)) (¬ AreWhole (left_damaged mended findings.now)) }
    ensures count { result ≡ min (count_by is_halved (left_damaged mended findings.now)) (2 ^ 64 - 1) }
{
    if mended {
        0
    } else {
        count_passed_over(findings)
    }
}

/// On how many of these pages a section is lost still: on none if they were written anew.
fn count_made(made: &[u64], mended: bool) -> usize
    ensures { result ≡ length (left_made mended made.now) }
{
    if mended { 0 } else { made.len() }
}

/// How many pages are left that aren't whole, with those on which a section is lost.
pub fn count_all_left(pages: &FoundPages) -> usize
    ensures none { MatchBool (result == 0) (AreLeftWhole pages.now) (¬ AreLeftWhole pages.now) }
    ensures count { result ≡ min (left_count pages.now) (2 ^ 64 - 1) }
{
    let halves = count_left(pages.findings, pages.mended);
    let sections = count_made(pages.made, pages.mended);
    halves.saturating_add(sections)
}

/// Prints the pages that aren't whole, one a line, and then those on which a section was lost.
pub fn print_all_pages<W: Write>(writer: &mut W, pages: &FoundPages, style: Style) -> io::Result<()>
    ensures { OnOk result (Appends (W.contents writer.old) (W.contents writer.new) (pages_text style pages.now)) }
{
    print_pages(writer, pages.findings, pages.mended, style)?;
    print_made(writer, pages.made, pages.mended, style)
}

/// Prints the pages that aren't whole, one a line: the page, its other copy with the version there, and whether the
/// page was written anew from it.
pub fn print_pages<W: Write>(
    writer: &mut W,
    findings: &[Finding],
    mended: bool,
    style: Style,
) -> io::Result<()>
    ensures { OnOk result (Appends (W.contents writer.old) (W.contents writer.new) (flat_map (pair_line style mended) findings.now)) }
{
    for finding in findings {
        print_finding(writer, *finding, mended, style)?;
    }
    Ok(())
}

/// Prints the pages on which a section was lost, one a line, and whether it was written there since.
fn print_made<W: Write>(writer: &mut W, made: &[u64], mended: bool, style: Style) -> io::Result<()>
    ensures { OnOk result (Appends (W.contents writer.old) (W.contents writer.new) (flat_map (section_line style mended) made.now)) }
{
    for page in made {
        print_section(writer, *page, mended, style)?;
    }
    Ok(())
}

/// Prints the line of a page on which a section was lost.
fn print_section<W: Write>(writer: &mut W, page: u64, mended: bool, style: Style) -> io::Result<()>
    ensures { OnOk result (Appends (W.contents writer.old) (W.contents writer.new) (section_line style mended page)) }
{
    match style {
        Style::Text if mended => writeln!(writer, "page {page} written anew from the index"),
        Style::Text => writeln!(
            writer,
            "page {page} not whole, its section is made from the index"
        ),
        Style::Json => writeln!(
            writer,
            "{{\"page\":{page},\"other\":null,\"version\":null,\"mended\":{mended}}}"
        ),
    }
}

/// Prints the line of a pair, if a page of it isn't whole.
fn print_finding<W: Write>(
    writer: &mut W,
    finding: Finding,
    mended: bool,
    style: Style,
) -> io::Result<()>
    ensures { OnOk result (Appends (W.contents writer.old) (W.contents writer.new) (pair_line style mended finding)) }
{
    match finding.passed_over() {
        Some(page) => print_page(writer, finding, page, mended, style),
        None => Ok(()),
    }
}

/// Prints the line of a page that isn't whole, by what its pair holds.
fn print_page<W: Write>(
    writer: &mut W,
    finding: Finding,
    page: u64,
    mended: bool,
    style: Style,
) -> io::Result<()>
    ensures { OnOk result (Appends (W.contents writer.old) (W.contents writer.new) (half_line style mended page (half finding.pair (held_of finding).turned) (held_of finding).version)) }
{
    let version = finding.held().version;
    print_half(writer, page, newest_page(finding), version, mended, style)
}

/// The page of a pair that holds the newest version.
fn newest_page(finding: Finding) -> u64
    ensures { result ≡ half finding.pair (held_of finding).turned }
{
    if finding.held().turned {
        finding.pair.twin
    } else {
        finding.pair.page
    }
}

/// Prints the line of a page that isn't whole, of which another page has this version.
fn print_half<W: Write>(
    writer: &mut W,
    page: u64,
    other: u64,
    version: u64,
    mended: bool,
    style: Style,
) -> io::Result<()>
    ensures { OnOk result (Appends (W.contents writer.old) (W.contents writer.new) (half_line style mended page other version)) }
{
    match style {
        Style::Text if mended => writeln!(
            writer,
            "page {page} written anew from page {other} version {version}"
        ),
        Style::Text => writeln!(
            writer,
            "page {page} not whole, page {other} has version {version}"
        ),
        Style::Json => writeln!(
            writer,
            "{{\"page\":{page},\"other\":{other},\"version\":{version},\"mended\":{mended}}}"
        ),
    }
}
