//! Whether a repair could make a loss of commands final.
ghost use Rattle.std.specs.Prelude.{◌≡◌};
ghost use Rattle.std.specs.List.{list_any};
ghost use Rattle.cs_advice.specs.Losses.{may_hide_root};

use cs_twin::Finding;

/// The page under whose number both pages of the root show.
const ROOT: u64 = 1;

/// Whether a page of this pair may have held a newer root than the one by which the store opens.
fn may_hide_root(finding: Finding) -> bool
    ensures { result ≡ may_hide_root finding }
{
    finding.pair.page == ROOT && finding.passed_over().is_some()
}

/// Whether a repair may make a loss of commands final: one of the two pages of the root isn't whole, and it may have
/// held the newer root. The repair would write the older root over it.
///
/// A section of the superblock needs no such care while both pages of the root are whole. A section is written before
/// the root that counts on it, and the newest root that was ever persistent is then one of the two. If it needed the
/// damaged section, the store wouldn't open.
pub fn may_be_lost(findings: &[Finding]) -> bool
    ensures { result ≡ list_any may_hide_root findings.now }
{
    findings.iter().any(|finding| may_hide_root(*finding))
}
