//! What is printed on standard error of a store that has damaged pages.
ghost use Rattle.std.specs.Prelude.{◌≤◌};

use crate::openings::{Opened, Unopened};
use cs_doctor::{Scanned, Style, explain, may_be_lost, tell, warn};
use cs_frame::StoreId;
use cs_refusal::Refusal;
use cs_store::mount::Finding;
use std::alloc::AllocError;
use uuid::Uuid;

/// The page under whose number both pages of the root show.
const ROOT: u64 = 1;

/// Prints a warning. Where its text finds no memory it says that alone.
pub fn warn_text<R: Eprint>(rt: &R, text: Result<String, AllocError>, style: Style) {
    match text {
        Ok(text) => warn(rt, &text, style),
        Err(_) => warn(rt, "no memory for the text of a warning", style),
    }
}

/// Warns that a device has more pages than it had when its store was made.
pub fn warn_of_length<R: AllocGlobal + Eprint>(rt: &R, all: u64, pages: u64, style: Style) {
    let text = format!(in rt.alloc();
        "the device has {all} pages, and the store {pages}: it is read as of its first {pages}"
    );
    warn_text(rt, text, style);
}

/// Warns of each page of superblock and root that can't be read.
pub fn warn_of_unreadable<R: AllocGlobal + Eprint>(rt: &R, unread: &[u64], style: Style) {
    for page in unread {
        let text = format!(in rt.alloc(); "page {page} cannot be read; its other copy is used");
        warn_text(rt, text, style);
    }
}

/// Warns of each section of the superblock that is lost and made from the index. Of one of format 4 both pages may be.
pub fn warn_of_made<R: AllocGlobal + Eprint>(rt: &R, pages: &[u64], style: Style) {
    for page in pages {
        let text = format!(in rt.alloc();
            "the section of the superblock on page {page} is lost; it is made from the index"
        );
        warn_text(rt, text, style);
    }
}

/// Warns that what lives on an extent couldn't be moved away from it, and why.
pub fn warn_of_kept<R: AllocGlobal + Eprint>(
    rt: &R,
    extent: usize,
    refusal: Refusal,
    style: Style,
) {
    let number = refusal.number();
    let name = refusal.name();
    let text = format!(in rt.alloc();
        "what lives on extent {extent} stays there ({number} {name}); nothing more is written there"
    );
    warn_text(rt, text, style);
}

/// Warns that there is no such extent.
pub fn warn_of_no_extent<R: AllocGlobal + Eprint>(rt: &R, extent: u64, count: usize, style: Style) {
    let text = format!(in rt.alloc();
        "there is no extent {extent}: the store has {count}, and the first one is 0"
    );
    warn_text(rt, text, style);
}

/// Warns that extents of a store of format 2 can't be left out.
pub fn warn_of_older_format<R: Eprint>(rt: &R, style: Style) {
    warn(
        rt,
        "--skip-extent is for stores of format 4: copy this one into a new store",
        style,
    );
}

/// Warns that the newest root couldn't be put on record, and why.
pub fn warn_of_unsealed<R: AllocGlobal + Eprint>(rt: &R, refusal: Refusal, style: Style) {
    let number = refusal.number();
    let name = refusal.name();
    let text = format!(in rt.alloc();
        "the newest root is not on record ({number} {name}): if its page is lost later that is not noticed"
    );
    warn_text(rt, text, style);
}

/// Warns that the store that was asked for isn't there, but the one with this identity, or one of format 2.
pub fn warn_of_other<R: AllocGlobal + Eprint>(
    rt: &R,
    id: StoreId,
    found: Option<StoreId>,
    style: Style,
) {
    let id = Uuid::from_bytes(id.0).simple();
    let text = match found {
        Some(found) => {
            let found = Uuid::from_bytes(found.0).simple();
            format!(in rt.alloc();
                "the store with the identity {id} is not there: the one that is there has {found}"
            )
        }
        None => format!(in rt.alloc();
            "the store with the identity {id} is not there: the one that is there has none"
        ),
    };
    warn_text(rt, text, style);
}

/// Warns of each page of an opened store that is damaged and whose other copy is used. If one of them is the root's,
/// the newest root may be lost, and with it commands: that is said first. So many commands it was opened with.
pub fn warn_of<R: AllocGlobal + Eprint, S>(
    rt: &R,
    opened: &Opened<S>,
    commands: u64,
    style: Style,
) {
    if may_be_lost(&opened.findings) {
        warn_of_root(rt, &opened.findings, commands, style);
        warn_of_commands(rt, &opened.scanned, commands, style);
    }
    warn_of_findings(rt, &opened.findings, style);
    warn_of_made(rt, &opened.made, style);
}

/// Warns that the newest root may be the one that isn't whole.
fn warn_of_root<R: AllocGlobal + Eprint>(
    rt: &R,
    findings: &[Finding],
    commands: u64,
    style: Style,
) {
    for finding in findings {
        if let Some(page) = root_passed_over(*finding) {
            let version = finding.held().version;
            let text = format!(in rt.alloc();
                "THE NEWEST ROOT MAY BE LOST: page {page} is not whole; the store opens as of root {version}, with {commands} commands"
            );
            warn_text(rt, text, style);
        }
    }
}

/// The page of the root that was passed over for its damage, if this is the finding of the root's pages and one was.
fn root_passed_over(finding: Finding) -> Option<u64> {
    if finding.pair.page == ROOT {
        finding.passed_over()
    } else {
        None
    }
}

/// Warns of the commands on the device that the root doesn't count, as far as it was scanned, and of how many pages of it
/// can't be read.
fn warn_of_commands<R: AllocGlobal + Eprint>(
    rt: &R,
    scanned: &Option<Scanned>,
    commands: u64,
    style: Style,
) {
    match scanned {
        None => {
            let text = format!(in rt.alloc(); "commands after {commands} may be lost");
            warn_text(rt, text, style);
        }
        Some(scanned) => {
            warn_text(rt, text_of(rt, scanned, commands), style);
            warn_of_count(
                rt,
                scanned.unreadable.len(),
                "pages of the extents cannot be read: the commands that they name are not known",
                style,
            );
        }
    }
}

/// What a scan found beside the commands that the root counts.
fn text_of<R: AllocGlobal>(rt: &R, scanned: &Scanned, commands: u64) -> Result<String, AllocError> {
    let greatest = scanned.greatest;
    let part = if scanned.is_whole {
        ""
    } else {
        " in the part of the file that was read in 5 seconds"
    };
    let next = commands.saturating_add(1);
    if greatest > next {
        format!(in rt.alloc();
            "commands {next} to {greatest} may be lost, or were never acknowledged (found{part})"
        )
    } else if greatest == next {
        format!(in rt.alloc();
            "command {next} may be lost, or was never acknowledged (found{part})"
        )
    } else {
        format!(in rt.alloc();
            "no put after command {commands} was found{part}; deletions after it may be lost"
        )
    }
}

/// Warns of each page that is damaged and whose other copy is used, and of pairs of which neither page is whole.
fn warn_of_findings<R: AllocGlobal + Eprint>(rt: &R, findings: &[Finding], style: Style) {
    for finding in findings {
        warn_of_pages(rt, *finding, style);
    }
}

/// Warns of the pages of a pair that was found so.
fn warn_of_pages<R: AllocGlobal + Eprint>(rt: &R, finding: Finding, style: Style) {
    let page = finding.pair.page;
    let twin = finding.pair.twin;
    if let Some(damaged) = finding.passed_over() {
        let text = format!(in rt.alloc(); "page {damaged} is not whole; its other copy is used");
        warn_text(rt, text, style);
    }
    if finding.held().version == 0 {
        let text = format!(in rt.alloc();
            "neither page {page} nor its other copy, page {twin}, is whole"
        );
        warn_text(rt, text, style);
    }
}

/// Prints why a store wasn't opened, which of its pages aren't whole, and what to do; and gives the exit status.
pub fn explain_unopened<R: AllocGlobal + Eprint>(rt: &R, unopened: &Unopened, style: Style) -> u8
    ensures { result ≤ 7 }
{
    warn_of_findings(rt, &unopened.findings, style);
    explain(rt, unopened.outcome, &unopened.known, style)
}

/// The same for `run`, whose statuses are its own.
pub fn tell_unopened<R: AllocGlobal + Eprint>(rt: &R, unopened: &Unopened, style: Style) {
    warn_of_findings(rt, &unopened.findings, style);
    tell(rt, unopened.outcome, &unopened.known, style);
}

/// Warns that a store is opened as of an older root.
pub fn warn_of_older<R: Eprint>(rt: &R, style: Style) {
    warn(
        rt,
        "opened as of the newest root that is whole; what was done after it is not there, and nothing is written",
        style,
    );
}

/// Warns of how many there are of something, if there are any.
pub fn warn_of_count<R: AllocGlobal + Eprint>(rt: &R, count: usize, what: &str, style: Style) {
    if count > 0 {
        warn_text(rt, format!(in rt.alloc(); "{count} {what}"), style);
    }
}
