//! A script whose text ends anywhere.
use super::{printed, prints_text, script_text};
use std::process::Abort;
use std::test::Fail;

/// Asserts what the first bytes of a script print, for each number of them up to one, and the exit status.
fn prints_cut(
    rt: &(impl Abort + AllocGlobal),
    text: &str,
    lengths: [usize; 2],
    wanted: &str,
    status: u8,
) -> Result<(), Fail> {
    for length in lengths[0]..=lengths[1] {
        let Some(cut) = text.get(..length) else {
            assert!(rt; false, "{length}");
            unreachable!()
        };
        let persistent = if wanted.ends_with("acknowledged 1\n") {
            1
        } else {
            0
        };
        prints_text(rt, cut, wanted, status, persistent)?;
    }
    Ok(())
}

/// A line whose end is missing is read as it stands: an identifier without its payload and half a byte aren't readable,
/// nor is a part of a word, and the line feed at the end isn't needed.
#[test]
fn a_script_cut_after_each_byte(rt: HostRuntime) -> Result<(), Fail> {
    let text = script_text(rt.alloc(), "put @a 61 / sync")?;
    assert_eq!(&rt; text.len(), 45);
    prints_cut(&rt, &text, [0, 0], "", 0)?;
    prints_cut(&rt, &text, [1, 38], "bad line\n", 1)?;
    prints_cut(&rt, &text, [39, 40], "put 1\n", 0)?;
    prints_cut(&rt, &text, [41, 43], "put 1\nbad line\n", 1)?;
    let whole = printed(
        rt.alloc(),
        "put 1 / round 1: [w1, w2] / round 2: [s3] / round 3: [r2] / chain: [w1, s3, r2] / flushes 3 / acknowledged 1",
    )?;
    prints_cut(&rt, &text, [44, 45], &whole, 0)
}
