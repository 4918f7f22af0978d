//! Documents, as they are judged.
use super::DOCUMENT;
use cs_options::script::run_check;
use std::process::Abort;
use std::test::Fail;

/// Asserts what a check of a document prints, and its exit status.
fn checks(
    rt: &(impl Abort + AllocGlobal),
    text: &[u8],
    wanted: &str,
    status: u8,
) -> Result<(), Fail> {
    let mut output = Vec::new(rt.alloc());
    let ended = run_check(rt.alloc(), text, &mut output);
    assert!(rt; output.as_slice() == wanted.as_bytes());
    assert!(rt; ended == status);
    Ok(())
}

#[test]
fn documents(rt: HostRuntime) -> Result<(), Fail> {
    checks(&rt, DOCUMENT.as_bytes(), "optimal 3\n", 0)?;
    checks(&rt, b"{", "refused 10 BadDocument\n", 1)?;
    checks(&rt, b"\xff", "refused 10 BadDocument\n", 1)
}
