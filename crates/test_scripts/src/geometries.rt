//! The geometry of a row's store.
use cs_frame::{Format, FormatNumber, Geometry, StoreId};
use cs_refusal::Refusal;

/// The identity of a row's store.
const STORE: StoreId = StoreId([0; 16]);

/// The geometry that words ask for, of those that `cs_cli run` understands: `--format=N`, `--extents=N`, `--pages=N`
/// and `--sections=N`. Default: 2, 6, 2, and as few sections as the extents need. It returns None if a word is another.
/// It is refused 7 BadGeometry if there is no such geometry.
pub fn geometry_of(words: &str) -> Option<Result<Geometry, Refusal>> {
    let mut format = 2;
    let mut extents = 6;
    let mut pages = 2;
    let mut sections = None;
    for word in words.split_whitespace() {
        if let Some(number) = word.strip_prefix("--format=") {
            format = number.parse().ok()?;
        } else if let Some(number) = word.strip_prefix("--extents=") {
            extents = number.parse().ok()?;
        } else if let Some(number) = word.strip_prefix("--pages=") {
            pages = number.parse().ok()?;
        } else {
            sections = Some(word.strip_prefix("--sections=")?.parse().ok()?);
        }
    }
    let geometry = match FormatNumber::of(format) {
        Some(FormatNumber::Two) => Geometry::of_format(Format::two(), extents, pages, sections),
        Some(FormatNumber::Four) => Geometry::for_file(STORE, extents, pages, sections),
        None => return Some(Err(Refusal::BadGeometry)),
    };
    match geometry {
        Ok(geometry) => Some(Ok(geometry)),
        Err(_) => Some(Err(Refusal::BadGeometry)),
    }
}
