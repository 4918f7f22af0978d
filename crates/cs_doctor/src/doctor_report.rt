//! What the command `doctor` prints.
ghost use Rattle.std.specs.Prelude.{◌≡◌, ◌⊎◌, ◌++◌, ◌∷◌, [], IfErr, IfOk, List, OnOk, flat_map, string_bytes, ℕ};
ghost use Rattle.std.specs.Io.KnownBytes.{Appends};
ghost use Rattle.cs_doctor.specs.DoctorReports.{IsObjectOf, IsReport, IsSpelledBy, TellsMade, next_text, step_line};
ghost use Rattle.cs_advice.specs.declared.outcomes.Outcome.TheVariants.{Failed, Refused};
ghost use Rattle.serde_json.specs.Data.{Data};

use crate::diagnoses::FileDiagnosis;
use crate::diagnosis_steps::{Step, steps_of};
use crate::doctor_json::object_of;
use crate::doctor_texts::page_of;
use cs_advice::{Outcome, Style};
use cs_refusal::Refusal;
use std::alloc::{AllocError, Global};
use std::io;
use std::io::Write;

/// Adds the line of a command.
fn add_step(alloc: Global, text: &mut String, file: &str, step: Step) -> Result<(), AllocError>
    ensures { OnOk result (string_bytes text.new ≡ string_bytes text.old ++ step_line file.now step) }
{
    let words = step.text(alloc, file)?;
    let line = format!(in alloc; "  {words}\n")?;
    text.push_str(&line)
}

/// Adds the lines of these commands.
fn add_steps(alloc: Global, text: &mut String, file: &str, steps: &[Step]) -> Result<(), AllocError>
    ensures { OnOk result (string_bytes text.new ≡ string_bytes text.old ++ flat_map (step_line file.now) steps.now) }
{
    for k in 0..steps.len() {
        add_step(alloc, text, file, steps[k])?;
    }
    Ok(())
}

/// Adds the commands to type next, if there are any.
fn add_next(alloc: Global, text: &mut String, file: &str, steps: &[Step]) -> Result<(), AllocError>
    ensures { OnOk result (string_bytes text.new ≡ string_bytes text.old ++ next_text file.now steps.now) }
{
    if steps.is_empty() {
        return Ok(());
    }
    text.push_str("next:\n")?;
    add_steps(alloc, text, file, steps)
}

/// What is found, in words, and the commands to type next.
fn page_with_steps(
    alloc: Global,
    found: &FileDiagnosis,
    file: &str,
    steps: &[Step],
) -> Result<String, AllocError>
    ensures { IfOk result (λ text. (page : List ℕ) × TellsMade found.now page × (string_bytes text ≡ page ++ next_text file.now steps.now)) }
{
    let mut text = page_of(alloc, found)?;
    add_next(alloc, &mut text, file, steps)?;
    Ok(text)
}

/// The line of a JSON object.
fn object_line(
    alloc: Global,
    found: &FileDiagnosis,
    file: &str,
    steps: &[Step],
) -> Result<String, AllocError>
    ensures { IfOk result (λ text. (d : Data) × (line : List ℕ) × IsObjectOf file.now found.now steps.now d × IsSpelledBy d line × (string_bytes text ≡ line ++ 10 ∷ [])) }
{
    let object = object_of(alloc, found, file, steps)?;
    let mut text = object.to_string(alloc)?;
    text.push_str("\n")?;
    Ok(text)
}

/// The text to print.
fn text_of(
    alloc: Global,
    found: &FileDiagnosis,
    file: &str,
    style: Style,
) -> Result<String, AllocError>
    ensures { IfOk result (λ text. IsReport style file.now found.now (string_bytes text)) }
{
    let steps = steps_of(alloc, found)?;
    match style {
        Style::Text => page_with_steps(alloc, found, file, &steps),
        Style::Json => object_line(alloc, found, file, &steps),
    }
}

/// Prints a text, and flushes the writer.
fn print<W: Write>(writer: &mut W, text: &str) -> io::Result<()>
    ensures { OnOk result (Appends (W.contents writer.old) (W.contents writer.new) text.now) }
{
    write!(writer, "{text}")?;
    writer.flush()
}

/// Prints a diagnosis: what was found, and the commands to type next. The file's name is a word of the shell.
pub fn report<W: Write>(
    alloc: Global,
    found: &FileDiagnosis,
    file: &str,
    style: Style,
    writer: &mut W,
) -> Result<(), Outcome>
    ensures printed { OnOk result ((text : List ℕ) × IsReport style file.now found.now text × Appends (W.contents writer.old) (W.contents writer.new) text) }
    ensures ends { IfErr result (λ outcome. (outcome ≡ Failed) ⊎ (outcome ≡ Refused Refusal.OutOfMemory)) }
{
    let Ok(text) = text_of(alloc, found, file, style) else {
        return Err(Outcome::Refused(Refusal::OutOfMemory));
    };
    match print(writer, &text) {
        Ok(()) => Ok(()),
        Err(_) => Err(Outcome::Failed),
    }
}
