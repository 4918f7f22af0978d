//! Plan documents: a view of a graph, a target and a plan as one text.
ghost use Rattle.std.specs.Prelude.{◌≡◌, ℕ, List, IfOk, IfErr, OnOk, Some, string_bytes};
ghost use Rattle.serde_json.specs.Data.{Data};
ghost use Rattle.cs_deps.specs.View.{pending_of, rounds_of};
ghost use Rattle.cs_check.specs.Listing.{IsWellFormed};
ghost use Rattle.cs_check.specs.Documents.{IsDocument, IsDocumentOf};
ghost use Rattle.cs_check.specs.Written.{IsTextOf, HasDocument, ReadsAs};
ghost use Rattle.cs_deps.specs.declared.elements.Element.{Element};
ghost use Rattle.cs_deps.specs.Named.{Named};
ghost use Rattle.cs_deps.specs.Pending.{Pending};
ghost use Rattle.cs_check.specs.Faults.{Blames};
ghost use Rattle.serde_json.specs.Read.{read};

use crate::faults::CheckFault;
use crate::readings::document;
use crate::texts::written;
use cs_deps::{Dependency, GraphView, Plan};
use serde_json::Value;
use std::alloc::Global;

/// What a plan document says.
#[derive(Drop)]
pub struct Document {
    /// What is persistent and what waits.
    pub view: GraphView,
    /// What is to become persistent.
    pub target: Dependency,
    /// How, and why no fewer flushes will do.
    pub plan: Plan,
    /// The letter of each family.
    pub letters: Vec<char>,
}

/// Reads a document: a JSON object with these members, and any others, which are passed over.
///
/// - `format`: 1.
/// - `families`: 1 to 16 texts, each a letter `a` to `z` but `w`, each of them once.
/// - `persistent`: for each family its greatest persistent version, a whole number below 2^63.
/// - `elements`: the waiting elements in staging order, each an object with its name `e` and its `needs`, an array of
///   the names of elements that are listed before it. Plain writes rise, and the versions of a family go on from its
///   persistent one. A version needs none of its own family.
/// - `target`: the names of waiting elements; `rounds`: an array of arrays of such, none of them twice in a round;
///   `chain`: an array of such.
///
/// A name is `w` for a plain write or a family's letter, then the number, 1 to 2^63 - 1, in decimal with no leading
/// zero. The name of a version among needs or in the target stands for the earlier ones too. Of a repeated key the
/// last value counts.
///
/// 10 BadDocument where the text is no such document, 9 OutOfMemory where a growth was refused.
///
/// It takes time in the order of the text's length, but for sorting.
pub fn from_document(alloc: Global, text: &str) -> Result<Document, CheckFault>
    ensures says { IfOk result (λ doc. (d : Data) × (read text.now ≡ Some d) × IsDocumentOf d doc.letters.items (pending_of doc.view) doc.target (rounds_of doc.plan) doc.plan.chain.items) }
    ensures well_formed { IfOk result (λ doc. IsWellFormed (pending_of doc.view) doc.target (rounds_of doc.plan) doc.plan.chain.items) }
    ensures bad { IfErr result (λ fault. Blames fault ((d : Data) × (read text.now ≡ Some d) × IsDocument d)) }
{
    match Value::from_str(alloc, text) {
        Ok(value) => document(alloc, &value),
        Err(error) => {
            if error.is_memory() {
                Err(CheckFault::OutOfMemory)
            } else {
                Err(CheckFault::BadDocument)
            }
        }
    }
}

/// Writes a document, the compact text of its value, with keys in the order of their bytes.
///
/// Needs and target are written as what they name among what waits: first plain writes by number, then one version a
/// family, the greatest, in the order of the families. What is persistent is left out.
///
/// 10 BadDocument where view, target or plan break a rule of documents, the target names a version past the last one listed, or
/// the letters aren't one of `a` to `z` but `w` for each family, each of them once. 9 OutOfMemory where a
/// growth was refused.
///
/// It takes time in the order of all that it is given and of the text, but for sorting. If needs or target name a plain
/// write that does not wait, or list their spans out of order, it looks at each waiting element for that one list of names.
pub fn to_document(
    alloc: Global,
    view: &GraphView,
    target: &Dependency,
    plan: &Plan,
    letters: &[char],
) -> Result<String, CheckFault>
    ensures text { IfOk result (λ text. IsTextOf (string_bytes text) letters.now (pending_of view.now) target.now (rounds_of plan.now) plan.now.chain.items) }
    ensures ok { OnOk result (HasDocument letters.now (pending_of view.now) target.now (rounds_of plan.now) plan.now.chain.items) }
    ensures document { IfOk result (λ text. (d : Data) × (read (string_bytes text) ≡ Some d) × IsDocument d) }
    ensures bad { IfErr result (λ fault. Blames fault (HasDocument letters.now (pending_of view.now) target.now (rounds_of plan.now) plan.now.chain.items)) }
{
    written(alloc, view, target, &plan.rounds, &plan.chain, letters)
}

/// A law: whatever a text that `to_document` writes is read as, it agrees with what was written on all that waits.
pub fn reads_as_written()
    ensures { (text letters : List ℕ) (g : Pending) (target : Named) (rounds : List (List Element)) (chain : List Element) → HasDocument letters g target rounds chain → IsTextOf text letters g target rounds chain
        → ReadsAs text letters g target rounds chain }
{}
