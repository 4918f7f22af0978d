//! How lines are answered.
ghost use Rattle.std.specs.Prelude.{◌≡◌, IfOk, IsErrAnd, IsOkAnd, MatchResult};
ghost use Rattle.std.specs.Io.KnownBytes.{Appends};
ghost use Rattle.cs_script.specs.declared.answers.Answer.TheVariants.{Bad as BadAnswer, Given as GivenAnswer, Refused as RefusedAnswer};
ghost use Rattle.cs_script.specs.Outputs.{bad_line, refusal_line};

use crate::outputs::{print_bad_line, print_refusal};
use cs_refusal::Refusal;
use std::io;
use std::io::Write;

/// How a line was answered, once that is printed.
#[derive(Clone, Copy, Debug)]
pub enum Answer {
    /// As it says, or it says nothing.
    Given,
    /// It isn't readable.
    Bad,
    /// It was refused.
    Refused(Refusal),
}

/// What was printed answers the line.
pub fn given(printed: io::Result<()>) -> io::Result<Answer>
    ensures { MatchResult printed (λ _. IsOkAnd result (λ answer. answer ≡ GivenAnswer)) (λ e. IsErrAnd result (λ f. f ≡ e)) }
{
    printed?;
    Ok(Answer::Given)
}

/// Prints that a line isn't readable.
pub fn print_bad<W: Write>(writer: &mut W) -> io::Result<Answer>
    ensures { IfOk result (λ answer. (answer ≡ BadAnswer) × Appends (W.contents writer.old) (W.contents writer.new) bad_line) }
{
    print_bad_line(writer)?;
    Ok(Answer::Bad)
}

/// Prints why a line is refused.
pub fn print_refused<W: Write>(writer: &mut W, refusal: Refusal) -> io::Result<Answer>
    ensures { IfOk result (λ answer. (answer ≡ RefusedAnswer refusal) × Appends (W.contents writer.old) (W.contents writer.new) (refusal_line refusal)) }
{
    print_refusal(writer, refusal)?;
    Ok(Answer::Refused(refusal))
}
