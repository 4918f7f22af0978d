//! Whether the numbers of plain writes, or of the sections' versions, would pass the greatest, 2^63 - 1.
ghost use Rattle.std.specs.Prelude.{◌≡◌, ◌↔◌, ◌⊎◌, ◌+◌, ◌-◌, ◌<◌, ◌≤◌, ◌^◌, ℕ, IsTrue, length, min, slice_index, slice_set, sum};
ghost use Rattle.cs_extent.specs.Frames.{IsWorn, family_of};

use crate::staged_frames::section_family;
use cs_deps::{Graph, LAST_NUMBER};

/// Whether these plain writes, or so many versions of each section, would take a number past the greatest.
pub fn are_worn(graph: &Graph, frame_pages: &[usize], sections: u8, counts: [u64; 15]) -> bool
    requires families { length graph.now.staging.latest ≡ 1 + sections }
    requires few { sections ≤ 15 }
    ensures { IsTrue result ↔ ((2 ^ 63 ≤ graph.now.staging.staged + sum frame_pages.now)
        ⊎ ((j : ℕ) × (j < sections) × (2 ^ 63 ≤ slice_index graph.now.staging.latest (family_of j) + slice_index counts j))) }
{
    are_writes_worn(graph, frame_pages) || are_versions_worn(graph, sections, counts)
}

/// Whether a number is past the greatest.
fn is_past(number: u64) -> bool
    ensures { IsTrue result ↔ (2 ^ 63 ≤ number) }
{
    LAST_NUMBER < number
}

/// Whether the numbers of the plain writes of these frames would pass the greatest.
pub fn are_writes_worn(graph: &Graph, frame_pages: &[usize]) -> bool
    ensures { IsTrue result ↔ (2 ^ 63 ≤ graph.now.staging.staged + sum frame_pages.now) }
{
    let mut last = graph.last_plain();
    for pages in frame_pages {
        last = last.saturating_add(*pages as u64);
    }
    is_past(last)
}

/// Whether the numbers of so many plain writes, or of a section's version, would pass the greatest.
pub fn is_worn(graph: &Graph, section: u8, pages: usize) -> bool
    requires { family_of section < length graph.now.staging.latest }
    ensures { IsTrue result ↔ IsWorn graph.now.staging section pages }
{
    LAST_NUMBER < graph.last_plain().saturating_add(pages as u64)
        || LAST_NUMBER <= graph.last_version(section_family(section))
}

/// Counts one version more of a section.
pub fn count(counts: &mut [u64; 15], section: u8)
    requires { section < 15 }
    ensures { counts.new ≡ slice_set counts.old section (min (slice_index counts.old section + 1) (2 ^ 64 - 1)) }
{
    let place = usize::from(section);
    counts[place] = counts[place].saturating_add(1);
}

/// Whether the numbers of so many versions of a section would pass the greatest.
fn is_section_worn(graph: &Graph, section: u8, counts: [u64; 15]) -> bool
    requires families { family_of section < length graph.now.staging.latest }
    requires section { section < 15 }
    ensures { IsTrue result ↔ (2 ^ 63 ≤ slice_index graph.now.staging.latest (family_of section) + slice_index counts section) }
{
    let last = graph.last_version(section_family(section));
    is_past(last.saturating_add(counts[usize::from(section)]))
}

/// Whether the numbers of so many versions of each section would pass the greatest for one of them.
pub fn are_versions_worn(graph: &Graph, sections: u8, counts: [u64; 15]) -> bool
    requires families { length graph.now.staging.latest ≡ 1 + sections }
    requires few { sections ≤ 15 }
    ensures { IsTrue result ↔ ((j : ℕ) × (j < sections) × (2 ^ 63 ≤ slice_index graph.now.staging.latest (family_of j) + slice_index counts j)) }
{
    for j in 0..sections {
        if is_section_worn(graph, j, counts) {
            return true;
        }
    }
    false
}
