//! What a refusal means, and what to do about it.
ghost use Rattle.std.specs.Prelude.{◌≡◌, ◌≢◌, ◌<◌, [], false, length, true};
ghost use Rattle.cs_refusal.specs.declared.refusals.Refusal.{Refusal as Why};
ghost use Rattle.cs_advice.specs.Advised.{advice_text, call_text, content_text, damage_text, format_text, loss_text, not_empty_text, run_lost_text, system_advice, todo_members, todo_text};
ghost use Rattle.cs_advice.specs.Advices.{asks_doctor, erases, is_clear, is_of_pages, is_of_store, moving_words, says_how_to_move, says_make, words_of};
ghost use Rattle.cs_advice.specs.Tellings.{content_members, members_of};
ghost use Rattle.cs_advice.specs.Texts.{meaning_text, system_text};
ghost use Rattle.cs_advice.specs.declared.advices.Todo.TheVariants.{Make};
ghost use Rattle.cs_advice.specs.declared.advices.Todo.TheVariants as todo;
ghost use Rattle.cs_advice.specs.declared.knowns.Content.TheVariants.{Empty, Superseded, TwoStores, Written};
ghost use Rattle.cs_advice.specs.declared.knowns.Known.{Known as KnownFile};

use crate::knowns::{Content, Known};
use cs_disk::SystemFault;
use cs_frame::{FormatNumber, StoreId};
use cs_refusal::Refusal;

/// What to do about a refusal.
#[derive(Clone, Copy, Debug, PartialEq, Eq)]
pub enum Todo {
    /// Make a store in the file, in which nothing is.
    Make,
    /// The file has another number of pages than its superblock names.
    Length { pages: u64, wanted: u64 },
    /// The device holds pages of these two stores: one has to be named.
    TwoStores { first: StoreId, last: StoreId },
    /// This page of the device isn't zeros, so something is on it.
    Written { page: u64 },
    /// The shards have to be moved into another store, as this text says.
    Move(&'static str),
    /// What this text says.
    Text(&'static str),
}

/// Of a damaged page.
const DAMAGED: &str =
    "First run `doctor FILE`: it only reads, and reports what is there and what to do next. A damaged shard: put it again or delete it; others aren't affected. The whole store: restore the file from a copy, or read what is left by `--salvage`. `scrub` lists what is damaged.";

/// Of a whole frame that isn't the one that its place means.
const MISPLACED: &str =
    "First run `doctor FILE`: it only reads, and reports what is there and what to do next. A write went to a wrong page, or was lost: look to the device, and to what copies the file. A shard: put it again or delete it; others aren't affected. The whole store: restore the file from a copy, or read what is left by `--salvage`. `scrub` lists what is misplaced.";

/// Of a root that is older than one that was persistent.
const ROOT_LOST: &str =
    "First run `doctor FILE`: it only reads, and reports what is there and what to do next. The root is older than one that was persistent, so commands that were acknowledged would be lost. Look to the device, and to what copies the file, and restore the file from a copy. `--as-of` reads what is left.";

/// Of a file in which a superblock names a store that can't be opened for its other pages.
const NOT_WHOLE: &str =
    "First run `doctor FILE`: it only reads, and reports what is there and what to do next. The file holds a store, but not all of it is there as it was written. Restore the file from a copy, or read what is left by `--salvage`.";

/// Of a page that can't be read and may be the newer one of two.
const UNREADABLE: &str =
    "First run `doctor FILE`: it only reads, and reports what is there and what to do next. The store has another copy of the page, and commands that only read go by it. Then `copy` the shards into another file, or add `--accept-loss` to the command, which writes over the page. Either way the commands of the last sync are lost if only the page that can't be read had them.";

/// Of a store of an older format that is read in a way that it hasn't.
const OLDER: &str =
    "The file holds a store of format 2, of which `--as-of` and `export --salvage` read nothing. Use the command without them, or `list --salvage` and `get --salvage`.";

/// Of a store of format 2 of whose superblock or root a page isn't whole.
const BROKEN: &str =
    "First run `doctor FILE`: it only reads, and reports what is there and what to do next. A page is damaged that the store needs, and a store of format 2 has no other copy of it: restore the file from a copy.";

/// Of a store of whose superblock or root neither copy is whole.
const TORN: &str =
    "First run `doctor FILE`: it only reads, and reports what is there and what to do next. Neither copy of a page is whole that the store needs. Copy the file before anything else is done with it, and restore it from an older copy; `export --salvage` reads the shards without the root.";

/// Of a file with a root and no superblock.
const LEFT: &str =
    "First run `doctor FILE`: it only reads, and reports what is there and what to do next. The file holds what is left of a store: its root is whole, and no copy of its superblock. Copy it before anything else is done with it, and restore it from an older copy.";

/// Of a file that holds something else, as far as can be told.
const FOREIGN: &str =
    "First run `doctor FILE`: it only reads, and reports what is there and what to do next. The file holds no store, or none that can be recognised: look at its name. If it held one, restore it from a copy.";

/// Of a store of format 3.
const SUPERSEDED: &str =
    "The file holds a store of format 3, which this version doesn't read. Build the commit 8d0b7298936e: its `cs_cli export --file OLD` prints all shards as a script, for `cs_cli run --strict --file NEW` over a store that `cs_cli create NEW` made.";

/// Of a file that wasn't looked into.
const NO_STORE: &str =
    "First run `doctor FILE`: it only reads, and reports what is there and what to do next. The file holds no store, or not all of one: look at its name, or restore it from a copy.";

/// What a refusal means, in a few words.
pub fn meaning(refusal: Refusal) -> &'static str
    ensures text { result.now ≡ meaning_text refusal }
    ensures some { 0 < length result.now }
{
    match refusal {
        Refusal::DeviceFault => "the file can't be read or written",
        Refusal::UnknownNeed => "a need was not staged",
        Refusal::OwnFamily => "a version needs its own family",
        Refusal::NotStaged => "the target was not staged",
        Refusal::InFlight => "a round is out",
        Refusal::OddLength => "the length of the file is no multiple of 4,096 bytes",
        Refusal::BadGeometry => "the numbers of extents, pages and sections are out of range",
        Refusal::OutOfMemory => "out of memory",
        Refusal::BadDocument => "the text is no plan document",
        Refusal::NotNested => "needs are lost from one version to the next",
        Refusal::Uncovered => "the target is not covered",
        Refusal::TooEarly => "a write comes before its needs",
        Refusal::ChainBroken => "the chain is broken",
        Refusal::ChainShort => "the chain is shorter than the plan",
        Refusal::BadMagic => "a page does not begin as its format does",
        Refusal::BadDigest => "the digest of a page is wrong",
        Refusal::BadLength => "a length or a count on a page is out of range",
        Refusal::BadPadding => "the end of a page is not zero",
        Refusal::BadVersion => "a version on a page is wrong",
        Refusal::OutOfOrder => "the identifiers on a page are out of order",
        Refusal::Misplaced => "another frame lies there",
        Refusal::RootLost => "a newer root was lost",
        Refusal::Unreadable => "a page that may be the newest can't be read",
        Refusal::Full => "no extent has room",
        Refusal::TooLarge => "the shard is too large for this store",
        Refusal::IndexFull => "the index is full",
        Refusal::NotSweepable => "the extent can't be swept",
        Refusal::StillLive => "a live chunk lies on the extent",
        Refusal::WornOut => "a number reached its end",
        Refusal::Reserved => "no room is left but the store's reserve",
        Refusal::Halted => "the store stopped after a failed write or flush",
        Refusal::HistoryFull => "the history is full",
        Refusal::NoRound => "there is no such round",
        Refusal::NotAStore => "the file holds no store that opens",
        Refusal::Unsettled => "the store is not at rest",
        Refusal::Occupied => "the file holds a store, or what is left of one",
        Refusal::NotEmpty => "the file is not empty",
    }
}

/// Why the system refused a call, in a few words.
pub fn system_text(fault: SystemFault) -> &'static str
    ensures text { result.now ≡ system_text fault }
    ensures some { 0 < length result.now }
{
    match fault {
        SystemFault::NotThere => "there is no such file",
        SystemFault::NotAllowed => "permission denied",
        SystemFault::Folder => "it is a folder",
        SystemFault::InUse => "another process has it open",
        SystemFault::NoRoom => "no room is left on the file system",
        SystemFault::ReadOnly => "it can only be read",
        SystemFault::Failed => "an input or output error",
    }
}

/// What to do about a refusal, by what is known of the file. Making a store is advised only if the file is
/// empty. No advice about a damaged store names a command that erases what is there.
pub fn advice(refusal: Refusal, known: &Known) -> Todo
    // It says exactly this, by the refusal and by what the file holds.
    ensures text { todo_text result ≡ advice_text refusal known.now }
    ensures members { todo_members result ≡ members_of refusal known.now }
    // Of a store that is damaged or isn't opened no command is named that erases.
    ensures keeps { is_of_store refusal ≡ true → erases (todo_text result) ≡ false }
    ensures make { result ≡ Make → known.now.content ≡ Empty }
    ensures words { says_make (words_of result) ≡ false }
    // Of pages of two stores both are named.
    ensures two { (first last : _) → is_of_pages refusal ≡ true → known.now.content ≡ TwoStores first last → result ≡ todo.TwoStores first last }
    // Of a store of format 3 it says which version reads it, and by which commands its shards come into another store.
    ensures superseded { is_of_pages refusal ≡ true → known.now.content ≡ Superseded → says_how_to_move (moving_words result) ≡ true }
    // Another store is advised for such a one alone.
    ensures moves { (text : _) → result ≡ todo.Move text → known.now.content ≡ Superseded }
    // Of a device that isn't empty it names the page.
    ensures written { (page : _) → refusal ≡ Refusal.NotEmpty → known.now.content ≡ Written page → result ≡ todo.Written page }
{
    match refusal {
        Refusal::DeviceFault => Todo::Text(advice_of_system(known.system)),
        Refusal::NotAStore
        | Refusal::BadMagic
        | Refusal::BadDigest
        | Refusal::BadLength
        | Refusal::BadPadding
        | Refusal::BadVersion
        | Refusal::OutOfOrder
        | Refusal::Misplaced
        | Refusal::RootLost => advice_of_content(refusal, known.content),
        Refusal::Unreadable => Todo::Text(UNREADABLE),
        Refusal::NotEmpty => advice_of_written(known.content),
        _ => Todo::Text(advice_of_call(refusal)),
    }
}

/// What to do about a file or a device that isn't empty, by what is known of it.
fn advice_of_written(content: Content) -> Todo
    ensures text { todo_text result ≡ not_empty_text content }
    ensures members { todo_members result ≡ [] }
    ensures make { result ≢ Make }
    ensures moves { (text : _) → result ≢ todo.Move text }
    ensures words { says_make (words_of result) ≡ false }
    ensures written { (page : _) → content ≡ Written page → result ≡ todo.Written page }
{
    match content {
        Content::Written { page } => Todo::Written { page },
        _ => Todo::Text(advice_of_call(Refusal::NotEmpty)),
    }
}

/// What to do about a page that isn't as it must be, by what the file holds.
fn advice_of_content(refusal: Refusal, content: Content) -> Todo
    ensures text { todo_text result ≡ content_text content refusal }
    ensures members { todo_members result ≡ content_members content }
    ensures keeps { erases (todo_text result) ≡ false }
    ensures make { result ≡ Make → content ≡ Empty }
    ensures words { says_make (words_of result) ≡ false }
    ensures two { (first last : _) → content ≡ TwoStores first last → result ≡ todo.TwoStores first last }
    ensures superseded { content ≡ Superseded → says_how_to_move (moving_words result) ≡ true }
    ensures moves { (text : _) → result ≡ todo.Move text → content ≡ Superseded }
{
    match content {
        Content::Empty => Todo::Make,
        Content::Length { pages, wanted } => Todo::Length { pages, wanted },
        Content::Torn { .. } => Todo::Text(TORN),
        Content::Broken => Todo::Text(BROKEN),
        Content::Left => Todo::Text(LEFT),
        Content::Foreign => Todo::Text(FOREIGN),
        Content::Store { format } => Todo::Text(advice_of_store(refusal, format)),
        Content::TwoStores { first, last } => Todo::TwoStores { first, last },
        Content::Superseded => Todo::Move(SUPERSEDED),
        Content::Unknown | Content::Written { .. } => Todo::Text(advice_of_damage(
            refusal, NO_STORE,
        )),
    }
}

/// What to do about a page of a store of this format.
fn advice_of_store(refusal: Refusal, format: FormatNumber) -> &'static str
    ensures text { result.now ≡ damage_text refusal (format_text format) }
    ensures keeps { erases result.now ≡ false }
    ensures some { 0 < length result.now }
    ensures words { says_make result.now ≡ false }
{
    let other = match format {
        FormatNumber::Two => OLDER,
        FormatNumber::Four => NOT_WHOLE,
    };
    advice_of_damage(refusal, other)
}

/// What to do about a damaged page. The other advice is returned for a refusal of no page.
fn advice_of_damage(refusal: Refusal, other: &'static str) -> &'static str
    requires some { 0 < length other.now }
    requires words { says_make other.now ≡ false }
    requires keeps { erases other.now ≡ false }
    ensures text { result.now ≡ damage_text refusal other.now }
    ensures keeps { erases result.now ≡ false }
    ensures some { 0 < length result.now }
    ensures words { says_make result.now ≡ false }
{
    match refusal {
        Refusal::Misplaced => MISPLACED,
        Refusal::RootLost => ROOT_LOST,
        Refusal::NotAStore => other,
        _ => DAMAGED,
    }
}

/// What to do if the system refused a call for this reason.
pub fn advice_of_system(fault: Option<SystemFault>) -> &'static str
    ensures text { result.now ≡ system_advice fault }
    ensures some { 0 < length result.now }
    ensures words { says_make result.now ≡ false }
{
    match fault {
        None => {
            "First run `doctor FILE`: it only reads, and reports what can be read. The device failed, or the file can't be used: `ls -l`, `lsof` and `df` tell which."
        }
        Some(SystemFault::NotThere) => {
            "Look at the name: `ls -l` of its folder shows what is there."
        }
        Some(SystemFault::NotAllowed) => {
            "Ask for the right to read it, and for a command that writes, to write it: `ls -l` shows who has it."
        }
        Some(SystemFault::Folder) => "Name a file, not a folder.",
        Some(SystemFault::InUse) => {
            "Wait for the other process by `--wait SECONDS`; `lsof` with the file's name shows which it is."
        }
        Some(SystemFault::NoRoom) => {
            "Free room on the file system (`df`), or raise the limit of a file's size (`ulimit -f`), and try again."
        }
        Some(SystemFault::ReadOnly) => {
            "Commands that only read need no more. For others mount the file system so that it can be written, or copy the file."
        }
        Some(SystemFault::Failed) => {
            "First run `doctor FILE`: it only reads, and reports what can be read. Look at the system's log (`dmesg`) and at the device. If an extent can't be written, add `--skip-extent E` to the command. If it is another page, commands that only read go on, and `copy` puts the shards into a store on another device."
        }
    }
}

/// What to do about a refusal that isn't of a page or of the device.
fn advice_of_call(refusal: Refusal) -> &'static str
    ensures text { result.now ≡ call_text refusal }
    ensures some { 0 < length result.now }
    ensures words { says_make result.now ≡ false }
{
    match refusal {
        Refusal::OddLength => {
            "First run `doctor FILE`: it only reads, and reports what is there and what to do next. The file is cut, has something behind its end, or holds no store. Copy it, and bring the copy to a multiple of 4,096 bytes by `truncate -s /4096 COPY` (down) or `truncate -s %4096 COPY` (up): what is refused then says how many pages its superblock names."
        }
        Refusal::BadGeometry => {
            "A store has 5 to 7,680 extents of 2 to 65,535 pages, and 1 to 15 sections of at most 512 extents; one of format 2 has 4 to 2,048 of 2 to 256, and 1 to 8 sections."
        }
        Refusal::OutOfMemory => "Give the program more memory, and try again.",
        Refusal::BadDocument => {
            "The input is no plan document: print one by the line `document` of a script."
        }
        Refusal::Full => {
            "`reclaim --for BYTES`, with as many as the shard has, and try again; if that is refused too, `copy` the shards into a larger store."
        }
        Refusal::TooLarge => {
            "A shard has at most 8 chunks of an extent each: cut it into several shards, or `copy` all into a store with more pages an extent."
        }
        Refusal::IndexFull => {
            "The entries of the index take as many bytes as the store's geometry allows, or in format 2 they are as many: delete some shards and `reclaim`, or `copy` all into a store with more pages an extent."
        }
        Refusal::NotSweepable => "No extent can be swept now: put something, and try again.",
        Refusal::StillLive => "Something lives on the extent still: try again.",
        Refusal::WornOut => "A number reached its end: `copy` all into a new store.",
        Refusal::Reserved => {
            "With the shard more pages would be in use than the store's reserve leaves: delete some shards, or give a smaller reserve by `--reserve PERCENT`. Shards that are there already can be put again."
        }
        Refusal::Halted => "A write or a flush failed before: open the store again.",
        Refusal::HistoryFull => "Sync, and try again.",
        Refusal::Occupied | Refusal::NotEmpty => {
            "Nothing was written. Name another file, or move the one that is there away."
        }
        Refusal::InFlight | Refusal::NoRound | Refusal::Unsettled => {
            "The script has the rounds of a sync in another order: `begin`, `issue` until nothing is left, `end`."
        }
        // Neither commands nor scripts are refused these.
        _ => "Report it, with what led to it.",
    }
}

/// A law: what is advised loses nothing. About a damaged store the first step is a command that only reads.
pub fn what_is_advised_loses_nothing()
    // About a damaged store `doctor` comes first, unless what is known of the file says by itself what to do.
    ensures first { (r : Why) (known : KnownFile) → is_of_store r ≡ true → is_clear r known.content ≡ false → asks_doctor (advice_text r known) ≡ true }
    // A command that erases is named only about a file that isn't empty, where a store was to be made.
    ensures keeps { (r : Why) (known : KnownFile) → r ≢ Refusal.NotEmpty → erases (advice_text r known) ≡ false }
    // The same of a get that can't know whether there is a shard, and of a repair that stopped.
    ensures run_lost { (asks_doctor run_lost_text ≡ true) × (erases run_lost_text ≡ false) }
    ensures stopped { (asks_doctor loss_text ≡ true) × (erases loss_text ≡ false) }
{}
