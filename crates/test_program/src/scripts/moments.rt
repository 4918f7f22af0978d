//! A crash at each moment of a script, with each mask, over superblocks of one section and of several.
use super::{run_on_sections, script_text};
use std::alloc::Global;
use std::process::Abort;
use std::test::Fail;

/// What is put and deleted, swept twice and synced twice. The second sync writes nine rounds back, since the pages of
/// both extents are used again behind the root of their sweep.
const SCRIPT: &str =
    "put @a 61 / put @b 62 / sync / put @a 63 / sweep 0 / put @c 64 / sweep 1 / del @b / put @a 65 / sync";

/// The commands of the script: the last digit of the identifier, and the digits that are put, or none.
const COMMANDS: [(char, Option<u8>); 6] = [
    ('a', Some(61)),
    ('b', Some(62)),
    ('a', Some(63)),
    ('c', Some(64)),
    ('b', None),
    ('a', Some(65)),
];

/// The script, with each sync made step by step: 34 steps at most. Those that are left over are idle.
fn steps(alloc: Global) -> Result<String, Fail> {
    let mut text = String::new(alloc);
    for line in script_text(alloc, SCRIPT)?.lines() {
        if line == "sync" {
            text.push_str("plan\n")?;
            for _ in 0..34 {
                text.push_str("step\n")?;
            }
        } else {
            text.push_str(line)?;
            text.push('\n')?;
        }
    }
    Ok(text)
}

/// What is printed for a shard after so many of the commands.
fn line_after(alloc: Global, commands: u64, digit: char) -> Result<String, Fail> {
    let mut value = None;
    for (put, bytes) in COMMANDS.iter().take(commands as usize) {
        if *put == digit {
            value = *bytes;
        }
    }
    match value {
        Some(bytes) => Ok(format!(in alloc; "value {bytes}\n")?),
        None => Ok("absent\n".to_string(alloc)?),
    }
}

/// A mask as digits: those of a number, the lowest first, or a dash where there is none.
fn mask_text(alloc: Global, count: usize, number: u64) -> Result<String, Fail> {
    let mut digits = String::new(alloc);
    let mut rest = number;
    for _ in 0..count {
        digits.push(if rest % 2 == 1 { '1' } else { '0' })?;
        rest /= 2;
    }
    if count == 0 {
        digits.push('-')?;
    }
    Ok(digits)
}

/// Crashes after these lines, opens what is left, and asserts that it is the map after the first commands, of which
/// none that was acknowledged is missing.
fn crashes(
    rt: &(impl Abort + AllocGlobal),
    sections: u64,
    lines: &str,
    mask: &str,
    acknowledged: u64,
    accepted: u64,
) -> Result<(), Fail> {
    let alloc = rt.alloc();
    let end = script_text(alloc, "get @a / get @b / get @c")?;
    let text = format!(in alloc; "{lines}crash {mask}\n{end}")?;
    let ended = run_on_sections(rt, sections, &text)?;
    let commands = ended.counts(rt).found;
    assert!(rt; acknowledged <= commands, "{text}");
    assert!(rt; commands <= accepted, "{text}");
    let mut wanted = String::new(alloc);
    for digit in "abc".chars() {
        wanted.push_str(&line_after(alloc, commands, digit)?)?;
    }
    ended.printed_last(rt, &wanted, &text);
    Ok(())
}

/// Crashes with each mask after these lines, and gives how many there were.
fn crashes_with_each_mask(
    rt: &(impl Abort + AllocGlobal),
    sections: u64,
    lines: &str,
) -> Result<u64, Fail> {
    let alloc = rt.alloc();
    let counts = run_on_sections(rt, sections, lines)?.counts(rt);
    assert!(rt; counts.volatile < 12);
    let masks = 1 << counts.volatile as u64;
    for number in 0..masks {
        let mask = mask_text(alloc, counts.volatile, number)?;
        crashes(
            rt,
            sections,
            lines,
            &mask,
            counts.persistent,
            counts.accepted,
        )?;
    }
    Ok(masks)
}

/// Crashes at each moment with each mask.
fn crashes_at_each_moment(rt: &(impl Abort + AllocGlobal), sections: u64) -> Result<(), Fail> {
    let alloc = rt.alloc();
    let steps = steps(alloc)?;
    let mut lines = String::new(alloc);
    let mut most = crashes_with_each_mask(rt, sections, &lines)?;
    for line in steps.lines() {
        lines.push_str(line)?;
        lines.push('\n')?;
        most = most.max(crashes_with_each_mask(rt, sections, &lines)?);
    }
    // All was made persistent at the end, and rounds of several members were out before.
    assert!(rt; run_on_sections(rt, sections, &lines)?.counts(rt).persistent == 6);
    assert!(rt; most >= 16);
    Ok(())
}

#[test]
fn each_moment_with_each_mask(rt: HostRuntime) -> Result<(), Fail> {
    for sections in [1, 3, 6] {
        crashes_at_each_moment(&rt, sections)?;
    }
    Ok(())
}
