//! Plan documents: which are read, and what the checker says of them.
use crate::graphs::named;
use crate::texts::{is_said, sides, text_of};
use cs_check::{
    CheckFault, Document, Verdict, check, from_document, reads_as_written, to_document,
};
use cs_deps::{Dependency, Plan};
use cs_refusal::Refusal;
use std::alloc::Global;
use std::process::Abort;

/// The waiting writes of one stored piece: two plain writes, two superblock versions, one root version. Words stand
/// without their quotes, here and in what is put in the place of a part.
const PLAN: &str =
    "{chain:[w1,s3,r2],elements:[{e:w1,needs:[]},{e:s2,needs:[w1]},{e:w2,needs:[]},{e:s3,needs:[w1,w2]},{e:r2,needs:[s3]}],families:[s,r],format:1,persistent:[1,1],rounds:[[w1,w2],[s3],[r2]],target:[w1,w2,s3,r2]}";

/// The text with quotes around its words: `{target:[s3]}` is `{"target":["s3"]}`. What stands in quotes stays as it is.
fn json(rt: &(impl Abort + AllocGlobal), text: &str) -> String {
    let mut json = String::new(rt.alloc());
    let mut in_quotes = false;
    let mut in_word = false;
    let mut last = ' ';
    for c in text.chars() {
        if c == '"' {
            in_quotes = !in_quotes;
        }
        let begins = c.is_ascii_alphabetic() && !last.is_ascii_alphanumeric() && !in_quotes;
        if begins || in_word && !c.is_ascii_alphanumeric() {
            json.push('"').expect(rt, "memory");
            in_word = begins;
        }
        json.push(c).expect(rt, "memory");
        last = c;
    }
    json
}

/// The text with one part replaced.
fn replaced(rt: &(impl Abort + AllocGlobal), text: &str, from: &str, to: &str) -> String {
    text.replace(rt.alloc(), from, to).expect(rt, "memory")
}

/// What the check says of a text, given with its quotes.
fn outcome(alloc: Global, text: &str) -> Result<Verdict, CheckFault> {
    let document = from_document(alloc, text)?;
    check(alloc, &document.view, &document.target, &document.plan)
}

/// Asserts what the check says of a text, given with its quotes.
fn gives(rt: &(impl Abort + AllocGlobal), text: &str, wanted: &str) {
    is_said(rt, &text_of(rt, &outcome(rt.alloc(), text)), wanted, text);
}

/// The plan with parts replaced: each edit is the part, a space and what is put in its place, with a `;` between edits.
fn edited(rt: &(impl Abort + AllocGlobal), edits: &str) -> String {
    let mut text = replaced(rt, PLAN, "<", "");
    for edit in edits.split(';') {
        let (from, to) = edit.split_once(' ').expect(rt, "an edit");
        text = replaced(rt, &text, from, to);
    }
    text
}

/// Asserts what the check says of each line: of edits of the plan, or of a text that begins with a brace.
fn all_give(rt: &(impl Abort + AllocGlobal), lines: &str) {
    for line in lines.lines() {
        let (words, wanted) = sides(rt, line);
        if words.starts_with('{') {
            gives(rt, &json(rt, words), wanted);
        } else {
            gives(rt, &json(rt, &edited(rt, words)), wanted);
        }
    }
}

/// Asserts that the plan with each of these edits, a line each, is no document.
fn all_are_bad(rt: &(impl Abort + AllocGlobal), edits: &str) {
    for edit in edits.lines() {
        gives(rt, &json(rt, &edited(rt, edit)), BAD);
    }
}

/// What the check says of a text that is no document.
const BAD: &str = "Err(BadDocument)";

#[test]
fn verdicts(rt: HostRuntime) {
    all_give(&rt, VERDICTS);
}

const VERDICTS: &str = "chain:[w1,s3,r2] chain:[w1,r2] > Err(ChainBroken)
needs:[w1,w2] needs:[w2] > Err(NotNested)
rounds:[[w1,w2],[s3],[r2]] rounds:[[w1,w2,s3],[r2]] > Err(TooEarly)
rounds:[[w1,w2],[s3],[r2]] rounds:[[w1,w2],[s3]] > Err(Uncovered)
rounds:[[w1,w2],[s3],[r2]] rounds:[[w1,w2],[s2],[s3],[r2]] > Err(ChainShort)
rounds:[[w1,w2],[s3],[r2]] rounds:[[w1,w2],[],[s3],[r2]] > Err(ChainShort)
chain:[w1,s3,r2] chain:[w1,s3] > Err(ChainShort)";

// The target of one plain write, and none at all.
#[test]
fn small_targets(rt: HostRuntime) {
    all_give(&rt, SMALL_TARGETS);
}

const SMALL_TARGETS: &str =
    "target:[w1,w2,s3,r2] target:[w1];rounds:[[w1,w2],[s3],[r2]] rounds:[[w1]];chain:[w1,s3,r2] chain:[w2] > Err(ChainBroken)
target:[w1,w2,s3,r2] target:[w1];rounds:[[w1,w2],[s3],[r2]] rounds:[[w1]];chain:[w1,s3,r2] chain:[w1] > Ok(Verdict { flushes: 1 })
{chain:[],elements:[],families:[s,r],format:1,persistent:[1,1],rounds:[],target:[]} > Ok(Verdict { flushes: 0 })";

#[test]
fn bad_documents(rt: HostRuntime) {
    all_are_bad(&rt, BAD_EDITS);
}

/// Edits that make the document a bad one. The last ones are of the target.
const BAD_EDITS: &str = "needs:[s3] needs:[r2]
needs:[s3] needs:[s4]
needs:[s3] needs:[s1]
needs:[w1,w2] needs:[w1,s2]
[1,1] [1,9223372036854775808]
[1,1] [1,18446744073709551616]
[1,1] [1,-0]
[1,1] [1,1.0]
[1,1] [1,1e0]
[1,1] [1,2]
[1,1] [1]
format:1 format:2
format:1 format:1,format:2
format:1 format:1.0
format:1 note:\"\\ud800\",format:1
[s,r] [s,s]
[s,r] [s,w]
[s,r] [s,R]
[s,r] [s,rr]
[s,r] [s,q]
e:w1, e:w2,
e:w2, e:w1,
e:s2, e:s3,
e:r2, e:r3,
format:1, 
rounds:[[w1,w2],[s3],[r2]] rounds:[[w1,w1]]
rounds:[[w1,w2],[s3],[r2]] rounds:[[w3]]
rounds:[[w1,w2],[s3],[r2]] rounds:[w1]
chain:[w1,s3,r2] chain:[w3]
[w1,w2,s3,r2] [w01]
[w1,w2,s3,r2] [w0]
[w1,w2,s3,r2] [\"w+1\"]
[w1,w2,s3,r2] [W1]
[w1,w2,s3,r2] [t9]
[w1,w2,s3,r2] [w]
[w1,w2,s3,r2] [\"\"]
[w1,w2,s3,r2] [w9223372036854775808]
[w1,w2,s3,r2] [s1]
[w1,w2,s3,r2] [s4]
[w1,w2,s3,r2] [1]
[w1,w2,s3,r2] {}";

#[test]
fn optimal_plans(rt: HostRuntime) {
    all_give(&rt, OPTIMAL);
}

/// Edits that leave the plan optimal. A later version stands for an earlier one, an element may stand in two rounds,
/// what is not listed is passed over, and of a repeated key the last value counts.
const OPTIMAL: &str = "chain:[w1,s3,r2] chain:[w1,s3,r2] > Ok(Verdict { flushes: 3 })
chain:[w1,s3,r2] chain:[w1,s2,r2] > Ok(Verdict { flushes: 3 })
[[w1,w2],[s3],[r2]] [[w1,w2],[s3],[s3,r2]] > Ok(Verdict { flushes: 3 })
format:1 format:2,format:1 > Ok(Verdict { flushes: 3 })
format:1 note:[{}],format:1 > Ok(Verdict { flushes: 3 })
e:w1, e:w1,page:2, > Ok(Verdict { flushes: 3 })
target:[w1,w2,s3,r2] target:[r2,w1,w2,w1,s3,s2] > Ok(Verdict { flushes: 3 })
needs:[w1,w2] needs:[w2,w1,w2] > Ok(Verdict { flushes: 3 })";

/// So many of these.
fn repeated(rt: &(impl Abort + AllocGlobal), text: &str, count: usize) -> String {
    text.repeat(rt.alloc(), count).expect(rt, "memory")
}

/// The plan with so many lists in one another.
fn nested(rt: &(impl Abort + AllocGlobal), depth: usize) -> String {
    let noted = edited(rt, "format:1 note:<>,format:1");
    let opened = replaced(rt, &noted, "<", &repeated(rt, "[", depth));
    let closed = replaced(rt, &opened, ">", &repeated(rt, "]", depth));
    json(rt, &closed)
}

/// Asserts that a text is no document wherever it is cut.
fn is_bad_cut(rt: &(impl Abort + AllocGlobal), text: &str) {
    for end in 0..text.len() {
        let cut = text.get(..end).expect(rt, "a cut");
        gives(rt, cut, BAD);
    }
}

#[test]
fn hostile_texts(rt: HostRuntime) {
    for text in "\n{\n[]\nnull\n{}".lines() {
        gives(&rt, text, BAD);
    }
    gives(&rt, &nested(&rt, 200), BAD);
    gives(&rt, &repeated(&rt, "[", 1_000_000), BAD);
    is_bad_cut(&rt, &json(&rt, PLAN));
}

#[test]
fn family_counts(rt: HostRuntime) {
    all_give(&rt, FAMILY_COUNTS);
}

const FAMILY_COUNTS: &str =
    "{chain:[],elements:[],families:[],format:1,persistent:[],rounds:[],target:[]} > Err(BadDocument)
{chain:[],elements:[],families:[a,b,c,d,e,f,g,h,i,j,k,l,m,n,o,p,q],format:1,persistent:[0,0,0,0,0,0,0,0,0,0,0,0,0,0,0,0,0],rounds:[],target:[]} > Err(BadDocument)";

/// The document of the plan.
fn document(rt: &(impl Abort + AllocGlobal)) -> Document {
    from_document(rt.alloc(), &json(rt, PLAN)).expect(rt, "a document")
}

/// How a document is written with this target and these letters.
fn written_with(
    alloc: Global,
    document: &Document,
    target: &Dependency,
    letters: &[char],
) -> Result<String, CheckFault> {
    to_document(alloc, &document.view, target, &document.plan, letters)
}

/// Asserts that the plan's document is written as that plan with this target.
fn is_written(rt: &(impl Abort + AllocGlobal), document: &Document, target: &Dependency) {
    let text = written_with(rt.alloc(), document, target, &['s', 'r']).expect(rt, "a text");
    is_said(rt, &text, &json(rt, PLAN), "what is written");
}

#[test]
fn written(rt: HostRuntime) {
    let document = document(&rt);
    assert!(rt; document.letters.as_slice() == ['s', 'r'].as_slice());
    is_written(&rt, &document, &document.target);
    is_written(&rt, &document, &everything(&rt));
    reads_as_written();
}

/// Names all that waits in the plan.
fn everything(rt: &(impl Abort + AllocGlobal)) -> Dependency {
    let versions = named(rt, "0.3+1.2");
    named(rt, "..2").and(&versions).expect(rt, "memory")
}

/// Asserts whether the plan's document isn't written with a target and these letters.
fn is_unwritten(
    rt: &(impl Abort + AllocGlobal),
    document: &Document,
    target: &str,
    letters: &[char],
    unwritten: bool,
) {
    let found = written_with(rt.alloc(), document, &named(rt, target), letters);
    assert!(rt; matches!(found, Err(CheckFault::BadDocument)) == unwritten);
    assert!(rt; found.is_err() == unwritten);
}

/// Asserts what the check says where the plan's document has another target.
fn checks(
    rt: &(impl Abort + AllocGlobal),
    document: &Document,
    target: &str,
    plan: &Plan,
    wanted: &str,
) {
    let found = check(rt.alloc(), &document.view, &named(rt, target), plan);
    is_said(rt, &text_of(rt, &found), wanted, target);
}

/// Asserts what the check says where the plan's document has another target, or another plan, which has no round.
fn checks_others(rt: &(impl Abort + AllocGlobal), document: &Document) {
    let none = Plan {
        rounds: Vec::new(rt.alloc()),
        chain: Vec::new(rt.alloc()),
    };
    checks(rt, document, "0", &none, "Ok(Verdict { flushes: 0 })");
    checks(rt, document, "0.4", &document.plan, "Err(Uncovered)");
}

/// The write 0 is none, and the version 4 of the superblock doesn't wait.
#[test]
fn refused_writes(rt: HostRuntime) {
    let document = document(&rt);
    is_unwritten(&rt, &document, "-", &['s', 'r'], false);
    is_unwritten(&rt, &document, "0.4", &['s', 'r'], true);
    is_unwritten(&rt, &document, "0", &['s', 'r'], false);
    is_unwritten(&rt, &document, "-", &['s', 'w'], true);
    is_unwritten(&rt, &document, "-", &['s'], true);
    checks_others(&rt, &document);
}

#[test]
fn refusals(rt: HostRuntime) {
    let refusal = Refusal::from(CheckFault::ChainShort);
    assert!(rt; refusal.number() == 15);
    assert!(rt; refusal.name() == "ChainShort");
}
