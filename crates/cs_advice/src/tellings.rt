//! Messages on standard error: how a command ended, and what to do.
ghost use Rattle.std.specs.Prelude.{◌≡◌, ◌≤◌, ◌∷◌, ◌++◌, [], IfSome, OnOk, Some, codes, true};
ghost use Rattle.std.specs.Io.KnownBytes.{Appends};
ghost use Rattle.cs_refusal.specs.Refusals.{name_of, number_of};
ghost use Rattle.cs_advice.specs.Advised.{advice_text, found_text, id_member, length_text, longer_text, missing_text, system_advice, todo_members, todo_text, two_text};
ghost use Rattle.cs_advice.specs.Outcomes.{refusal_in, status_of};
ghost use Rattle.cs_advice.specs.Outputs.{quote};
ghost use Rattle.cs_advice.specs.Members.{BeginsWith};
ghost use Rattle.cs_advice.specs.Tellings.{GrowsWith, head_text, lost_text, members_of, reason_text, refused_text, rest_text, system_of, told_text, unopened_text, what_text};
ghost use Rattle.cs_advice.specs.Texts.{meaning_text};
ghost use Rattle.cs_advice.specs.declared.knowns.Content.TheVariants as content;

use crate::advices::{Todo, advice, advice_of_system, meaning, system_text};
use crate::knowns::Known;
use crate::outcomes::Outcome;
use crate::outputs::{Style, print_identity, print_number};
use cs_disk::SystemFault;
use cs_frame::StoreId;
use cs_refusal::Refusal;
use std::io;
use std::io::Write;

/// The message of a repair that stopped.
const LOSS: &str = "the repair stopped, and nothing was written: commands may be lost by it";

/// What to do then.
const LOSS_ADVICE: &str =
    "First run `doctor FILE`: it only reads, and reports what is there and what to do next. A damaged page may have held a newer root than the one by which the store opens. Copy the file first, or restore it from a newer copy; `export` and `get` read what is there. `scrub --repair --accept-loss` writes the older root over the damaged page.";

/// Standard error, as a writer of text.
#[derive(Drop)]
pub struct Errors<'a, R> {
    pub rt: &'a R,
}

impl<R: Eprint> Write for Errors<'_, R> {
    fn write(&mut self, bytes: &[u8]) -> io::Result<usize> {
        let rt = self.rt;
        match str::from_utf8(bytes) {
            Ok(text) => eprint!(rt; "{text}")?,
            Err(_) => return Err(io::Error::from(io::ErrorKind::InvalidData)),
        }
        Ok(bytes.len())
    }

    fn flush(&mut self) -> io::Result<()> {
        Ok(())
    }
}

/// Why something was refused, and what to do.
#[derive(Clone, Copy)]
pub struct Reason {
    pub number: u8,
    pub name: &'static str,
    pub text: &'static str,
    pub system: Option<SystemFault>,
    pub advice: Todo,
}

impl Reason {
    /// The reason of a refusal, by what is known of the file. Only 1 DeviceFault reports why the system refused a call.
    fn of(refusal: Refusal, known: &Known) -> Self
        ensures number { result.number ≡ number_of refusal }
        ensures name { result.name.now ≡ name_of refusal }
        ensures text { result.text.now ≡ meaning_text refusal }
        ensures system { result.system ≡ system_of refusal known.now.system }
        ensures advice { todo_text result.advice ≡ advice_text refusal known.now }
        ensures members { todo_members result.advice ≡ members_of refusal known.now }
    {
        let system = match refusal {
            Refusal::DeviceFault => known.system,
            _ => None,
        };
        Reason {
            number: refusal.number(),
            name: refusal.name(),
            text: meaning(refusal),
            system,
            advice: advice(refusal, known),
        }
    }

    /// The reason of a file that the system didn't open.
    fn of_file(fault: SystemFault) -> Self
        ensures number { result.number ≡ number_of Refusal.DeviceFault }
        ensures name { result.name.now ≡ name_of Refusal.DeviceFault }
        ensures text { result.text.now ≡ codes "the file can't be opened" }
        ensures system { result.system ≡ Some fault }
        ensures advice { todo_text result.advice ≡ system_advice (Some fault) }
        ensures members { todo_members result.advice ≡ [] }
    {
        Reason {
            number: Refusal::DeviceFault.number(),
            name: Refusal::DeviceFault.name(),
            text: "the file can't be opened",
            system: Some(fault),
            advice: Todo::Text(advice_of_system(Some(fault))),
        }
    }
}

/// Prints why something was refused: by its number and its name first, then what it is, and what to do.
pub fn print_reason<W: Write>(writer: &mut W, reason: &Reason, style: Style) -> io::Result<()>
    ensures { OnOk result (Appends (W.contents writer.old) (W.contents writer.new) (reason_text style reason.now)) }
{
    print_head(writer, reason.number, reason.name, style)?;
    print_rest(writer, reason, style)
}

/// Prints the number and the name of a refusal, up to what it is.
fn print_head<W: Write>(writer: &mut W, number: u8, name: &str, style: Style) -> io::Result<()>
    ensures { OnOk result (Appends (W.contents writer.old) (W.contents writer.new) (head_text style number name.now)) }
{
    match style {
        Style::Text => write!(writer, "refused {number} {name}: "),
        Style::Json => write!(
            writer,
            "{{\"refused\":{number},\"name\":\"{name}\",\"text\":\""
        ),
    }
}

/// Prints what a refusal is, and what to do.
fn print_rest<W: Write>(writer: &mut W, reason: &Reason, style: Style) -> io::Result<()>
    ensures { OnOk result (Appends (W.contents writer.old) (W.contents writer.new) (what_text reason.now.text.now reason.now.system ++ rest_text style (todo_text reason.now.advice) (todo_members reason.now.advice))) }
{
    print_text(writer, reason.text, reason.system)?;
    print_advice(writer, reason.advice, style)
}

/// Prints what a refusal is, and why the system refused a call.
fn print_text<W: Write>(writer: &mut W, text: &str, system: Option<SystemFault>) -> io::Result<()>
    ensures { OnOk result (Appends (W.contents writer.old) (W.contents writer.new) (what_text text.now system)) }
{
    match system {
        None => write!(writer, "{text}"),
        Some(fault) => {
            let why = system_text(fault);
            write!(writer, "{text}, by the system: {why}")
        }
    }
}

/// Prints what to do, and the end of the message.
fn print_advice<W: Write>(writer: &mut W, advice: Todo, style: Style) -> io::Result<()>
    ensures { OnOk result (Appends (W.contents writer.old) (W.contents writer.new) (rest_text style (todo_text advice) (todo_members advice))) }
{
    match style {
        Style::Text => {
            writeln!(writer)?;
            print_todo(writer, advice)?;
            writeln!(writer)
        }
        Style::Json => {
            write!(writer, "\",\"advice\":\"")?;
            print_todo(writer, advice)?;
            print_end(writer, advice)
        }
    }
}

/// Prints the end of a JSON object after what to do.
fn print_end<W: Write>(writer: &mut W, advice: Todo) -> io::Result<()>
    ensures { OnOk result (Appends (W.contents writer.old) (W.contents writer.new) (quote ∷ todo_members advice ++ 125 ∷ 10 ∷ [])) }
{
    write!(writer, "\"")?;
    print_members(writer, advice)?;
    writeln!(writer, "}}")
}

/// The members of a JSON object that say what the advice names: both identities, if a device holds pages of two stores.
fn print_members<W: Write>(writer: &mut W, advice: Todo) -> io::Result<()>
    ensures { OnOk result (Appends (W.contents writer.old) (W.contents writer.new) (todo_members advice)) }
{
    match advice {
        Todo::TwoStores { first, last } => {
            print_id_member(writer, "first_id", first)?;
            print_id_member(writer, "last_id", last)
        }
        _ => Ok(()),
    }
}

/// The member with this name of the identity of a store, after a comma.
fn print_id_member<W: Write>(writer: &mut W, name: &str, store: StoreId) -> io::Result<()>
    ensures { OnOk result (Appends (W.contents writer.old) (W.contents writer.new) (id_member name.now store.0)) }
{
    write!(writer, ",\"{name}\":\"")?;
    print_identity(writer, store)?;
    write!(writer, "\"")
}

/// Prints what to do.
fn print_todo<W: Write>(writer: &mut W, advice: Todo) -> io::Result<()>
    ensures { OnOk result (Appends (W.contents writer.old) (W.contents writer.new) (todo_text advice)) }
{
    match advice {
        Todo::Make => write!(
            writer,
            "The file is empty: make a store in it by `cs_cli create` with its name."
        ),
        Todo::Text(text) | Todo::Move(text) => write!(writer, "{text}"),
        Todo::Length { pages, wanted } => print_length(writer, pages, wanted),
        Todo::TwoStores { first, last } => print_two(writer, first, last),
        Todo::Written { page } => write!(
            writer,
            "Page {page} of the device isn't zeros: something is on it. `--force` makes the store over it."
        ),
    }
}

/// Prints what to do about a device with pages of two stores.
fn print_two<W: Write>(writer: &mut W, first: StoreId, last: StoreId) -> io::Result<()>
    ensures { OnOk result (Appends (W.contents writer.old) (W.contents writer.new) (two_text first.0 last.0)) }
{
    write!(writer, "The device holds pages of two stores, ")?;
    print_identity(writer, first)?;
    write!(writer, " on page 0 and ")?;
    print_identity(writer, last)?;
    write!(
        writer,
        " on the last page. Name one by `--id` to read it: nothing is written to such a device."
    )
}

/// Prints what to do about a file of so many pages whose superblock names another number.
fn print_length<W: Write>(writer: &mut W, pages: u64, wanted: u64) -> io::Result<()>
    ensures { OnOk result (Appends (W.contents writer.old) (W.contents writer.new) (length_text pages wanted)) }
{
    print_found(writer, pages, wanted)?;
    print_missing(writer, pages, wanted)?;
    print_longer(writer, wanted.saturating_mul(4096), wanted)
}

/// How many pages the file has, and how many its superblock names.
fn print_found<W: Write>(writer: &mut W, pages: u64, wanted: u64) -> io::Result<()>
    ensures { OnOk result (Appends (W.contents writer.old) (W.contents writer.new) (found_text pages wanted)) }
{
    print_number(
        writer,
        "First run `doctor FILE`: it only reads, and reports what is there and what to do next. The file has ",
        pages,
    )?;
    print_number(writer, " pages, and its superblock says ", wanted)?;
    write!(writer, ": it is too ")
}

/// By how many pages it is too short or too long.
fn print_missing<W: Write>(writer: &mut W, pages: u64, wanted: u64) -> io::Result<()>
    ensures { OnOk result (Appends (W.contents writer.old) (W.contents writer.new) (missing_text pages wanted)) }
{
    if pages < wanted {
        print_number(writer, "short by ", wanted - pages)
    } else {
        print_number(writer, "long by ", pages - wanted)
    }
}

/// How a copy of it is brought to so many bytes, and opened with so many pages.
fn print_longer<W: Write>(writer: &mut W, bytes: u64, wanted: u64) -> io::Result<()>
    ensures { OnOk result (Appends (W.contents writer.old) (W.contents writer.new) (longer_text bytes wanted)) }
{
    print_number(writer, ". Copy it, `truncate -s ", bytes)?;
    print_number(
        writer,
        " COPY`, and try again with the copy. If that doesn't open either, `export --salvage` of the copy reads the shards whose frames are there. A device that has grown is opened by `--device-pages ",
        wanted,
    )?;
    write!(writer, "`. In format 2 there is neither.")
}

/// Prints why a command was refused, if it was, and what to do.
pub fn print_outcome<W: Write>(
    writer: &mut W,
    outcome: Outcome,
    known: &Known,
    style: Style,
) -> io::Result<()>
    // It prints exactly this.
    ensures text { OnOk result (Appends (W.contents writer.old) (W.contents writer.new) (told_text style outcome known.now)) }
    // Each refusal is printed with its own number and name.
    ensures refused { IfSome (refusal_in outcome) (λ r. OnOk result (BeginsWith (W.contents writer.old) (W.contents writer.new) (head_text style (number_of r) (name_of r)))) }
    // That of a device with pages of two stores names both.
    ensures two { (first last : _) → refusal_in outcome ≡ Some Refusal.NotAStore → known.now.content ≡ content.TwoStores first last
        → OnOk result (GrowsWith (W.contents writer.old) (W.contents writer.new) (two_text first.0 last.0)) }
{
    match outcome {
        Outcome::Refused(refusal) | Outcome::NoStore(refusal) | Outcome::Unread(refusal) => {
            print_refused(writer, refusal, known, style)
        }
        Outcome::Unopened(fault) => print_unopened(writer, fault, style),
        Outcome::MayBeLost => print_loss(writer, style),
        Outcome::Done | Outcome::Absent | Outcome::Failed | Outcome::Damaged => Ok(()),
    }
}

/// Prints a refusal, and what to do about it by what is known of the file.
fn print_refused<W: Write>(
    writer: &mut W,
    refusal: Refusal,
    known: &Known,
    style: Style,
) -> io::Result<()>
    ensures text { OnOk result (Appends (W.contents writer.old) (W.contents writer.new) (refused_text style refusal known.now)) }
    ensures head { OnOk result (BeginsWith (W.contents writer.old) (W.contents writer.new) (head_text style (number_of refusal) (name_of refusal))) }
    ensures two { (first last : _) → refusal ≡ Refusal.NotAStore → known.now.content ≡ content.TwoStores first last
        → OnOk result (GrowsWith (W.contents writer.old) (W.contents writer.new) (two_text first.0 last.0)) }
{
    print_reason(writer, &Reason::of(refusal, known), style)
}

/// Prints that the system didn't open a file, and what to do.
fn print_unopened<W: Write>(writer: &mut W, fault: SystemFault, style: Style) -> io::Result<()>
    ensures text { OnOk result (Appends (W.contents writer.old) (W.contents writer.new) (unopened_text style fault)) }
    ensures head { OnOk result (BeginsWith (W.contents writer.old) (W.contents writer.new) (head_text style (number_of Refusal.DeviceFault) (name_of Refusal.DeviceFault))) }
{
    print_reason(writer, &Reason::of_file(fault), style)
}

/// Prints that a repair stopped, and what to do.
fn print_loss<W: Write>(writer: &mut W, style: Style) -> io::Result<()>
    ensures { OnOk result (Appends (W.contents writer.old) (W.contents writer.new) (lost_text style)) }
{
    match style {
        Style::Text => writeln!(writer, "error: {LOSS}\n{LOSS_ADVICE}"),
        Style::Json => writeln!(
            writer,
            "{{\"error\":\"{LOSS}\",\"advice\":\"{LOSS_ADVICE}\"}}"
        ),
    }
}

/// Prints on standard error why a command was refused, if it was, and what to do.
pub fn tell<R: Eprint>(rt: &R, outcome: Outcome, known: &Known, style: Style) {
    let _ = print_outcome(&mut Errors { rt }, outcome, known, style);
}

/// Does the same, and returns the exit status.
pub fn explain<R: Eprint>(rt: &R, outcome: Outcome, known: &Known, style: Style) -> u8
    ensures status { result ≡ status_of outcome }
    ensures most { result ≤ 7 }
{
    tell(rt, outcome, known, style);
    outcome.status()
}

/// Warns on standard error: `warning:` and the text, or a JSON object with it.
pub fn warn<R: Eprint>(rt: &R, text: &str, style: Style) {
    let _ = print_warning(&mut Errors { rt }, text, style);
}

/// Prints a warning.
fn print_warning<W: Write>(writer: &mut W, text: &str, style: Style) -> io::Result<()> {
    match style {
        Style::Text => writeln!(writer, "warning: {text}"),
        Style::Json => {
            write!(writer, "{{\"warning\":\"")?;
            print_escaped(writer, text)?;
            writeln!(writer, "\"}}")
        }
    }
}

/// Prints a text between the quotes of a JSON string.
fn print_escaped<W: Write>(writer: &mut W, text: &str) -> io::Result<()> {
    for letter in text.chars() {
        match letter {
            '"' | '\\' => write!(writer, "\\{letter}")?,
            letter if u32::from(letter) < 32 => {
                let code = u32::from(letter);
                write!(writer, "\\u{code:04x}")?;
            }
            letter => write!(writer, "{letter}")?,
        }
    }
    Ok(())
}
