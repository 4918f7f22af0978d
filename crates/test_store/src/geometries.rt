//! Geometries by scripts: which there are, and where what they divide lies. The numbers of a line are those of extents,
//! of pages and, but after `new` and `new_fourth`, of sections. Those of format 4 have other words, and `long_fourth`
//! has the pages of its device in place of the sections.
use crate::stores::STORE;
use crate::texts::{byte, is_said, prints, sides, text_of, words_of};
use cs_frame::{Format, FormatFault, Geometry, entry_weight};
use std::process::Abort;

/// A geometry, which has to be one.
fn geometry(rt: &impl Abort, extents: u64, pages: u64, sections: u64) -> Geometry {
    Geometry::with_sections(extents, pages, sections).expect(rt, "a geometry")
}

/// A geometry of format 4, in a file as large as it needs.
fn fourth(extents: u64, pages: u64, sections: Option<u64>) -> Result<Geometry, FormatFault> {
    Geometry::for_file(STORE, extents, pages, sections)
}

/// A geometry of format 4, on a device of so many pages.
fn long_fourth(extents: u64, pages: u64, device_pages: u64) -> Result<Geometry, FormatFault> {
    Geometry::of_format(Format::four(STORE, device_pages), extents, pages, None)
}

/// How many sections a geometry has, or the number of the fault.
fn sections_of(made: Result<Geometry, FormatFault>) -> Result<u8, u8> {
    match made {
        Ok(geometry) => Ok(geometry.sections()),
        Err(fault) => Err(fault.number()),
    }
}

/// On which page of the device a section is, which extent is its first, and how many it has.
fn section(geometry: Geometry, section: u8) -> (u64, usize, usize) {
    (
        geometry.section_page(section),
        geometry.section_start(section),
        geometry.section_length(section),
    )
}

/// The section that an extent belongs to.
fn section_of(rt: &impl Abort, geometry: Geometry, extent: u16) -> u8 {
    assert!(rt; extent < geometry.extents());
    geometry.section_of(extent)
}

/// What comes of the words of a line, as text.
fn said(rt: &(impl Abort + AllocGlobal), line: &str) -> String {
    let (word, numbers) = words_of(line);
    let extents = u64::from(numbers[0]);
    let pages = u64::from(numbers[1]);
    let sections = u64::from(numbers[2]);
    match word {
        "new" => text_of(rt, &sections_of(Geometry::new(extents, pages))),
        "with" => text_of(
            rt,
            &sections_of(Geometry::with_sections(extents, pages, sections)),
        ),
        "new_fourth" => text_of(rt, &sections_of(fourth(extents, pages, None))),
        "with_fourth" => text_of(rt, &sections_of(fourth(extents, pages, Some(sections)))),
        "long_fourth" => text_of(rt, &sections_of(long_fourth(extents, pages, sections))),
        "pages_fourth" => {
            let made = fourth(extents, pages, Some(sections)).expect(rt, "a geometry");
            text_of(rt, &made.device_pages())
        }
        "pages" => text_of(rt, &geometry(rt, extents, pages, sections).device_pages()),
        "section" => {
            let made = geometry(rt, extents, pages, sections);
            text_of(rt, &section(made, byte(numbers[3])))
        }
        _ => {
            let made = geometry(rt, extents, pages, sections);
            text_of(rt, &section_of(rt, made, numbers[3]))
        }
    }
}

/// Asserts what a script says.
fn plays(rt: &(impl Abort + AllocGlobal), script: &str) {
    for line in script.lines() {
        let (words, wanted) = sides(rt, line);
        is_said(rt, &said(rt, words), wanted, line);
    }
}

#[test]
fn which_geometries_there_are(rt: HostRuntime) {
    plays(&rt, RULES);
}

const RULES: &str = "new 3 2 > Err(7)
new 4 2 > Ok(1)
new 4 1 > Err(7)
new 4 257 > Err(7)
new 512 256 > Ok(1)
new 513 2 > Ok(2)
new 2048 2 > Ok(4)
new 2049 2 > Err(7)
with 6 2 0 > Err(7)
with 6 2 3 > Ok(3)
with 6 2 4 > Err(7)
with 6 2 6 > Ok(6)
with 6 2 7 > Err(7)
with 12 2 5 > Err(7)
with 513 2 1 > Err(7)
with 2048 2 3 > Err(7)
with 2048 256 4 > Ok(4)
with 2048 2 8 > Ok(8)
with 2048 2 9 > Err(7)
with 2049 2 8 > Err(7)";

/// Each format has bounds of its own.
#[test]
fn which_geometries_of_format_4_there_are(rt: HostRuntime) {
    plays(&rt, FOURTH_RULES);
}

const FOURTH_RULES: &str = "new_fourth 4 2 > Err(7)
new_fourth 5 2 > Ok(1)
new_fourth 5 1 > Err(7)
new_fourth 5 65535 > Ok(1)
new_fourth 7680 65535 > Ok(15)
new_fourth 7681 2 > Err(7)
with_fourth 7680 2 14 > Err(7)
with_fourth 7680 2 15 > Ok(15)
with_fourth 7680 2 16 > Err(7)
with_fourth 30 2 15 > Ok(15)
pages_fourth 6 2 3 > 20
pages_fourth 7680 65535 15 > 503308832
long_fourth 6 2 15 > Err(7)
long_fourth 6 2 16 > Ok(1)
long_fourth 6 2 17 > Ok(1)";

/// Section 0 is before all extents, and the others are behind them. The last one may have fewer extents.
#[test]
fn where_sections_are(rt: HostRuntime) {
    plays(&rt, SECTIONS);
}

const SECTIONS: &str = "pages 6 2 1 > 14
section 6 2 1 0 > (0, 0, 6)
extent 6 2 1 5 > 0
pages 7 2 3 > 18
section 7 2 3 0 > (0, 0, 3)
section 7 2 3 1 > (16, 3, 3)
section 7 2 3 2 > (17, 6, 1)
extent 7 2 3 2 > 0
extent 7 2 3 3 > 1
extent 7 2 3 6 > 2
pages 2048 256 4 > 524293
section 2048 256 4 3 > (524292, 1536, 512)";

/// How many extents of how many pages a geometry has, how many bytes a frame and a chunk of a shard, and what an index
/// may weigh.
fn figures(geometry: Geometry) -> ((u16, u16), (usize, usize, usize)) {
    (
        (geometry.extents(), geometry.pages()),
        (
            geometry.payload_bytes(),
            geometry.chunk_bytes(),
            geometry.most_weight(),
        ),
    )
}

/// Asserts where a page of an extent lies.
fn lies_on(rt: &impl Abort, geometry: Geometry, (extent, page): (u16, u16), wanted: u64) {
    assert!(rt; extent < geometry.extents());
    assert!(rt; page < geometry.pages());
    assert!(rt; geometry.device_page(extent, page) == wanted);
}

#[test]
fn extents_and_their_pages(rt: HostRuntime) {
    let six = geometry(&rt, 6, 2, 3);
    prints(&rt, &figures(six), "((6, 2), (8151, 8151, 100))");
    lies_on(&rt, six, (5, 1), 13);
    let widest = geometry(&rt, 2048, 256, 4);
    prints(
        &rt,
        &figures(widest),
        "((2048, 256), (1048535, 1048535, 12944))",
    );
}

/// A chunk has its head of 34 bytes there. An index weighs as many bytes as its entries take in one run, which begins
/// with 8 bytes of the store's identity.
#[test]
fn extents_of_format_4(rt: HostRuntime) {
    let six = fourth(6, 2, None).expect(&rt, "a geometry");
    prints(&rt, &figures(six), "((6, 2), (8151, 8117, 8139))");
    let widest = fourth(7680, 65535, None).expect(&rt, "a geometry");
    prints(
        &rt,
        &figures(widest),
        "((7680, 65535), (268431319, 268431285, 268431307))",
    );
    assert!(rt; entry_weight(Format::two(), 0) == 1);
    assert!(rt; entry_weight(Format::two(), 8) == 1);
    assert!(rt; entry_weight(Format::four(STORE, 16), 0) == 17);
    assert!(rt; entry_weight(Format::four(STORE, 16), 8) == 145);
}
