//! The commands that a diagnosis names to type next.
ghost use Rattle.std.specs.Prelude.{◌≡◌, ◌++◌, IfOk, false, string_bytes};
ghost use Rattle.std.specs.List.{AllByRecursion};
ghost use Rattle.cs_doctor.specs.Steps.{HoldsNothing, are_mendable, can_be_read, deep_step, file_words, front_of, inner_of, is_mendable, joint_of, needs_no_repair, says_to_erase, step_text, steps_if_opened, steps_in, steps_of_content, steps_of_diagnosis, steps_of_fault, steps_of_length, steps_of_pairs, steps_of_reads, steps_of_refusal, steps_of_store, suffix_of, words_of};

use crate::diagnoses::{
    Deep, Diagnosis, FileDiagnosis, Opening, PairFound, are_sound_pairs, are_sound_runs,
    is_sound_pair,
};
use cs_advice::Content;
use cs_disk::SystemFault;
use cs_frame::{FormatNumber, StoreId};
use cs_refusal::Refusal;
use cs_twin::Half;
use std::alloc::{AllocError, Global};
use uuid::Uuid;

/// The page under whose number both pages of the root show.
const ROOT: u64 = 1;

/// A command to type.
#[derive(Clone, Copy)]
pub enum Step {
    /// Makes a store in an empty file.
    Create,
    /// Copies the file to FILE.copy, if that isn't there.
    KeepCopy,
    /// Gives FILE.copy this many pages.
    StretchCopy { pages: u64 },
    /// Gives FILE.copy whole pages.
    RoundCopy,
    /// Diagnoses FILE.copy.
    DoctorCopy,
    /// Diagnoses the file once more.
    DoctorAgain,
    /// Diagnoses the store of a device that had this many pages.
    DoctorPages { pages: u64 },
    /// Diagnoses the file by all its pages.
    DoctorDeep,
    /// Diagnoses the file once it isn't in use any more.
    DoctorLater,
    /// Lists one of two stores.
    ListById { id: StoreId },
    /// Lists what can't be read.
    Scrub,
    /// Writes damaged pages anew from their other copies, and sections that are lost from the index.
    Repair,
    /// Prints a script that puts the shards that can be read.
    Export,
    /// Copies the store into a new file.
    CopyStore,
    /// Lists the store as of its newest whole root.
    ListOlder,
    /// Prints a script that puts the shards as of that root.
    ExportOlder,
    /// Lists what the readable runs name.
    ListRest,
    /// Prints a script that puts the shards that frames on the device spell.
    ExportRest,
    /// Prints a script that puts the shards of a store that is read no more. The version of commit 8d0b7298936e has this
    /// command.
    ExportSuperseded,
    /// Shows the file's name, rights and length.
    LookAt,
    /// Shows what the system reports of its devices.
    SeeLog,
}

/// The words of a command before a number or the file.
fn front_of(step: Step) -> &'static str
    ensures { result.now ≡ front_of step }
{
    match step {
        Step::Create => "cs_cli create ",
        Step::KeepCopy => "cp -n ",
        Step::StretchCopy { .. } => "truncate -s $((4096 * ",
        Step::RoundCopy => "truncate -s %4096 ",
        Step::DoctorCopy | Step::DoctorAgain => "cs_cli doctor ",
        Step::DoctorPages { .. } => "cs_cli doctor --device-pages ",
        Step::DoctorDeep => "cs_cli doctor --deep ",
        Step::DoctorLater => "cs_cli doctor --wait 60 ",
        Step::ListById { .. } => "cs_cli list --id ",
        Step::Scrub => "cs_cli scrub ",
        Step::Repair => "cs_cli scrub --repair ",
        Step::Export => "cs_cli export ",
        Step::CopyStore => "cs_cli copy ",
        Step::ListOlder => "cs_cli list --as-of ",
        Step::ExportOlder => "cs_cli export --as-of ",
        Step::ListRest => "cs_cli list --salvage ",
        Step::ExportRest => "cs_cli export --salvage ",
        Step::ExportSuperseded => "cs_cli export --file ",
        Step::LookAt => "ls -l ",
        Step::SeeLog => "dmesg | tail # ",
    }
}

/// The number or the identity of a command, with what stands between it and the file.
fn inner_of(alloc: Global, step: Step) -> Result<String, AllocError>
    ensures { IfOk result (λ text. string_bytes text ≡ inner_of step) }
{
    match step {
        Step::StretchCopy { pages } => format!(in alloc; "{pages})) "),
        Step::DoctorPages { pages } => format!(in alloc; "{pages} "),
        Step::ListById { id } => {
            let id = Uuid::from_bytes(id.0).simple();
            format!(in alloc; "{id} ")
        }
        _ => Ok(String::new(alloc)),
    }
}

/// The file's name twice, with these words between.
fn twice(alloc: Global, file: &str, joint: &str) -> Result<String, AllocError>
    ensures { IfOk result (λ text. string_bytes text ≡ file.now ++ joint.now ++ file.now) }
{
    let mut text = String::new(alloc);
    text.push_str(file)?;
    text.push_str(joint)?;
    text.push_str(file)?;
    Ok(text)
}

/// The file's name, and once more if a command names it twice, with the words between.
fn file_words(alloc: Global, file: &str, step: Step) -> Result<String, AllocError>
    ensures { IfOk result (λ text. string_bytes text ≡ file_words file.now (joint_of step)) }
{
    match step {
        Step::KeepCopy => twice(alloc, file, " "),
        Step::CopyStore => twice(alloc, file, " "),
        Step::Export => twice(alloc, file, " > "),
        Step::ExportOlder => twice(alloc, file, " > "),
        Step::ExportRest => twice(alloc, file, " > "),
        Step::ExportSuperseded => twice(alloc, file, " > "),
        _ => format!(in alloc; "{file}"),
    }
}

/// What a command appends to the file's name.
fn suffix_of(step: Step) -> &'static str
    ensures { result.now ≡ suffix_of step }
{
    match step {
        Step::KeepCopy | Step::StretchCopy { .. } | Step::RoundCopy | Step::DoctorCopy => ".copy",
        Step::CopyStore => ".new",
        Step::Export | Step::ExportOlder | Step::ExportRest | Step::ExportSuperseded => ".script",
        _ => "",
    }
}

impl Step {
    /// The command to type about a file, whose name is a word of the shell.
    pub fn text(self, alloc: Global, file: &str) -> Result<String, AllocError>
        ensures { IfOk result (λ text. string_bytes text ≡ step_text file.now self) }
    {
        let inner = inner_of(alloc, self)?;
        let words = file_words(alloc, file, self)?;
        let mut text = String::new(alloc);
        text.push_str(front_of(self))?;
        text.push_str(&inner)?;
        text.push_str(&words)?;
        text.push_str(suffix_of(self))?;
        Ok(text)
    }
}

/// What to do about a file that the system refuses.
fn steps_of_fault(alloc: Global, fault: SystemFault) -> Result<Vec<Step>, AllocError>
    ensures { IfOk result (λ steps. steps.items ≡ steps_of_fault fault) }
{
    match fault {
        SystemFault::InUse => Vec::from_slice(alloc, &[Step::DoctorLater]),
        SystemFault::Failed => {
            Vec::from_slice(alloc, &[Step::SeeLog, Step::LookAt, Step::DoctorAgain])
        }
        _ => Vec::from_slice(alloc, &[Step::LookAt, Step::DoctorAgain]),
    }
}

/// What to do about a store that isn't opened, and whose format is this one.
fn steps_of_store(
    alloc: Global,
    refusal: Refusal,
    format: FormatNumber,
) -> Result<Vec<Step>, AllocError>
    ensures { IfOk result (λ steps. steps.items ≡ steps_of_store refusal format) }
{
    match format {
        FormatNumber::Two => Vec::from_slice(alloc, &[Step::KeepCopy, Step::ListRest]),
        FormatNumber::Four => match refusal {
            Refusal::RootLost => Vec::from_slice(
                alloc,
                &[Step::KeepCopy, Step::ListOlder, Step::ExportOlder],
            ),
            _ => Vec::from_slice(alloc, &[Step::KeepCopy, Step::ListRest, Step::ExportRest]),
        },
    }
}

/// What to do about a file of so many pages whose superblock says another number.
fn steps_of_length(alloc: Global, pages: u64, wanted: u64) -> Result<Vec<Step>, AllocError>
    ensures { IfOk result (λ steps. steps.items ≡ steps_of_length pages wanted) }
{
    if pages < wanted {
        Vec::from_slice(
            alloc,
            &[
                Step::KeepCopy,
                Step::StretchCopy { pages: wanted },
                Step::DoctorCopy,
            ],
        )
    } else {
        Vec::from_slice(alloc, &[Step::DoctorPages { pages: wanted }])
    }
}

/// What to do about a disk that holds this, and whose store isn't opened.
fn steps_of_content(
    alloc: Global,
    refusal: Refusal,
    content: Content,
) -> Result<Vec<Step>, AllocError>
    ensures { IfOk result (λ steps. steps.items ≡ steps_of_content refusal content) }
{
    match content {
        Content::Empty => Vec::from_slice(alloc, &[Step::Create]),
        Content::Length { pages, wanted } => steps_of_length(alloc, pages, wanted),
        Content::TwoStores { first, last } => Vec::from_slice(
            alloc,
            &[Step::ListById { id: first }, Step::ListById { id: last }],
        ),
        Content::Superseded => Vec::from_slice(alloc, &[Step::KeepCopy, Step::ExportSuperseded]),
        Content::Torn { .. } => Vec::from_slice(alloc, &[Step::KeepCopy, Step::ExportRest]),
        Content::Store { format } => steps_of_store(alloc, refusal, format),
        _ => Vec::from_slice(alloc, &[Step::KeepCopy, Step::LookAt, Step::DoctorAgain]),
    }
}

/// What to do about a store that is refused so, on a disk that holds this. If the device failed, its log comes first.
fn steps_of_refusal(
    alloc: Global,
    refusal: Refusal,
    content: Content,
) -> Result<Vec<Step>, AllocError>
    ensures { IfOk result (λ steps. steps.items ≡ steps_of_refusal refusal content) }
{
    let mut steps = steps_of_content(alloc, refusal, content)?;
    match refusal {
        Refusal::DeviceFault => steps.insert(0, Step::SeeLog)?,
        _ => {}
    }
    Ok(steps)
}

/// Whether a page of a pair can be read.
fn can_be_read(half: Option<Half>) -> bool
    ensures { result ≡ can_be_read half }
{
    match half {
        Some(_) => true,
        None => false,
    }
}

/// Whether a repair mends a pair: both pages can be read, and if it is the root's both are sound.
fn is_mendable(found: &PairFound) -> bool
    ensures { result ≡ is_mendable found.now }
{
    if found.pair.page == ROOT {
        is_sound_pair(found)
    } else {
        can_be_read(found.own) && can_be_read(found.twin)
    }
}

/// Whether a repair mends all of these pairs.
fn are_mendable(pairs: &[PairFound]) -> bool
    ensures { result ≡ are_mendable pairs.now }
{
    pairs.iter().all(is_mendable)
}

/// Reads all pages, if that wasn't asked for yet.
fn deep_step(alloc: Global, deep: &Deep) -> Result<Vec<Step>, AllocError>
    ensures { IfOk result (λ steps. steps.items ≡ deep_step deep.now) }
{
    match deep {
        Deep::NotAsked => Vec::from_slice(alloc, &[Step::DoctorDeep]),
        Deep::NoStore | Deep::Found(_) => Ok(Vec::new(alloc)),
    }
}

/// Whether all pairs are sound, and no section had to be made.
fn needs_no_repair(diagnosis: &Diagnosis) -> bool
    ensures { result ≡ needs_no_repair diagnosis.now }
{
    are_sound_pairs(&diagnosis.looked.pairs) && diagnosis.made.is_empty()
}

/// What to do about pairs: nothing if all are sound, and no section had to be made. A page of the root that isn't may have held a newer root, and a page
/// that can't be read is written by no repair: all pages are read then. Else they are repaired.
fn steps_of_pairs(alloc: Global, diagnosis: &Diagnosis) -> Result<Vec<Step>, AllocError>
    ensures { IfOk result (λ steps. steps.items ≡ steps_of_pairs diagnosis.now) }
{
    if needs_no_repair(diagnosis) {
        return Ok(Vec::new(alloc));
    }
    if are_mendable(&diagnosis.looked.pairs) {
        return Vec::from_slice(alloc, &[Step::Repair]);
    }
    deep_step(alloc, &diagnosis.looked.deep)
}

/// What to do about the shards: if all can be read they are copied into a new store, else those that can be read are
/// exported.
fn steps_of_reads(alloc: Global, diagnosis: &Diagnosis) -> Result<Vec<Step>, AllocError>
    ensures { IfOk result (λ steps. steps.items ≡ steps_of_reads diagnosis.now) }
{
    if diagnosis.store.opening.reads_all() && are_sound_runs(&diagnosis.store.head.runs) {
        Vec::from_slice(alloc, &[Step::CopyStore])
    } else {
        Vec::from_slice(alloc, &[Step::Scrub, Step::Export])
    }
}

/// What to do about a store that opens: nothing if it is sound.
fn steps_if_opened(alloc: Global, diagnosis: &Diagnosis) -> Result<Vec<Step>, AllocError>
    ensures { IfOk result (λ steps. steps.items ≡ steps_if_opened diagnosis.now) }
{
    if diagnosis.is_sound() {
        return Ok(Vec::new(alloc));
    }
    let mut steps = Vec::from_slice(alloc, &[Step::KeepCopy])?;
    let mut of_pairs = steps_of_pairs(alloc, diagnosis)?;
    let mut of_reads = steps_of_reads(alloc, diagnosis)?;
    steps.append(&mut of_pairs)?;
    steps.append(&mut of_reads)?;
    Ok(steps)
}

/// The commands to type next, by what was found of a file.
pub fn steps_of(alloc: Global, found: &FileDiagnosis) -> Result<Vec<Step>, AllocError>
    ensures steps { IfOk result (λ steps. steps.items ≡ steps_in found.now) }
    // None of them erases anything, unless the file holds nothing.
    ensures erases { IfOk result (λ steps. ¬ HoldsNothing found.now → AllByRecursion (λ step. says_to_erase (words_of step) ≡ false) steps.items) }
{
    let steps = steps_of_file(alloc, found)?;
    Ok(steps)
}

/// What to do about a file.
fn steps_of_file(alloc: Global, found: &FileDiagnosis) -> Result<Vec<Step>, AllocError>
    ensures { IfOk result (λ steps. steps.items ≡ steps_in found.now) }
{
    match found {
        FileDiagnosis::Unopened(fault) => steps_of_fault(alloc, *fault),
        FileDiagnosis::InUse { .. } => Vec::from_slice(alloc, &[Step::DoctorLater]),
        FileDiagnosis::OddLength { .. } => Vec::from_slice(
            alloc,
            &[Step::KeepCopy, Step::RoundCopy, Step::DoctorCopy],
        ),
        FileDiagnosis::Found(diagnosis) => steps_of_diagnosis(alloc, diagnosis),
    }
}

/// What to do about the store on a disk.
fn steps_of_diagnosis(alloc: Global, diagnosis: &Diagnosis) -> Result<Vec<Step>, AllocError>
    ensures { IfOk result (λ steps. steps.items ≡ steps_of_diagnosis diagnosis.now) }
{
    match diagnosis.store.opening {
        Opening::Opened { .. } => steps_if_opened(alloc, diagnosis),
        Opening::Refused { refusal, .. } => {
            steps_of_refusal(alloc, refusal, diagnosis.looked.content)
        }
    }
}
