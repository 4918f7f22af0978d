//! Identities of new stores.
ghost use Rattle.std.specs.Prelude.{◌≡◌, ◌≢◌, IfOk, Ok, Some};
ghost use Rattle.cs_frame.specs.Roots.{identity_in};
ghost use Rattle.cs_mount.specs.StorePairs.{pages_of};
ghost use Rattle.cs_store.specs.Identities.{no_identity, with_identity};

use cs_frame::{Format, FormatNumber, Geometry, StoreId};
use std::io;
use std::io::ErrorKind;
use std::random::RandomSource;

/// The identity of a store that was given none: zeros.
pub const NO_IDENTITY: StoreId = StoreId([0; 16]);

/// An identity for a new store: 16 random bytes from the system. It is refused if the system gives none, or zeros.
pub fn new_identity<R: RandomSource>(rt: &R) -> io::Result<StoreId>
    ensures { IfOk result (λ id. id.0 ≢ no_identity) }
{
    let mut bytes = [0; 16];
    rt.fill_bytes(&mut bytes)?;
    let id = StoreId(bytes);
    if id == NO_IDENTITY {
        return Err(io::Error::from(ErrorKind::InvalidData));
    }
    Ok(id)
}

/// The geometry of a store with this identity that lies as this one does, on a device of as many pages. Stores of
/// format 2 have no identity, and the geometry stays.
pub fn identified(geometry: Geometry, id: StoreId) -> Geometry
    // Nothing but the identity changes.
    ensures identity { result ≡ record geometry { format = with_identity geometry.format id.0 } }
    ensures pages { pages_of result ≡ pages_of geometry }
{
    // Called for its contract alone: an identity has 16 bytes.
    id.bytes();
    match geometry.format().number() {
        FormatNumber::Two => geometry,
        FormatNumber::Four => {
            let extents = u64::from(geometry.extents());
            let pages = u64::from(geometry.pages());
            let sections = u64::from(geometry.sections());
            let format = Format::four(id, geometry.device_pages());
            match Geometry::of_format(format, extents, pages, Some(sections)) {
                Ok(found) => found,
                Err(_) => unreachable!(),
            }
        }
    }
}

/// The geometry of a store that is made in a file: one with a new identity if this one has none. It is refused if the
/// system gives no random bytes.
pub(crate) fn geometry_in_file<R: RandomSource>(rt: &R, geometry: Geometry) -> io::Result<Geometry>
    // An identity that was given stays.
    ensures given { identity_in geometry.format ≢ Some no_identity → result ≡ Ok geometry }
    ensures named { IfOk result (λ found. identity_in found.format ≢ Some no_identity) }
    ensures lies { IfOk result (λ found. found ≡ record geometry { format = found.format }) }
    ensures pages { IfOk result (λ found. pages_of found ≡ pages_of geometry) }
{
    if geometry.format().store() != Some(NO_IDENTITY) {
        return Ok(geometry);
    }
    let id = new_identity(rt)?;
    Ok(identified(geometry, id))
}
