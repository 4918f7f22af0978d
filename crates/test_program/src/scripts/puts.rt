//! Puts up to the limit of a shard: the scripts are long, and all their digits are one another's.
use super::{printed, prints_text, run_on, script_text};
use std::alloc::Global;
use std::test::Fail;

/// A put of so many bytes, and what follows it.
fn long_put(alloc: Global, bytes: usize, rest: &str) -> Result<String, Fail> {
    let digits = "61".repeat(alloc, bytes)?;
    script_text(alloc, &format!(in alloc; "put @a {digits}{rest}")?)
}

#[test]
fn too_large(rt: HostRuntime) -> Result<(), Fail> {
    let script = long_put(rt.alloc(), 65209, "")?;
    prints_text(&rt, &script, "refused 31 TooLarge\n", 0, 0)
}

#[test]
fn eight_chunks(rt: HostRuntime) -> Result<(), Fail> {
    let alloc = rt.alloc();
    let script = long_put(alloc, 65208, " / plan")?;
    let wanted = printed(
        alloc,
        "put 1 / round 1: [w1, w2, w3, w4, w5, w6, w7, w8, w9, w10, w11, w12, w13, w14, w15, w16, w17] / round 2: [s10] / round 3: [r2] / chain: [w1, s10, r2] / flushes 3",
    )?;
    run_on(&rt, 12, &script)?.printed(&rt, &wanted, 0, "eight chunks");
    Ok(())
}
