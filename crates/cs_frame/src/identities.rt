//! Identities of stores.

ghost use Rattle.std.specs.Prelude.{◌≡◌, length, take};
ghost use Rattle.cs_frame.specs.Bytes.{IsBytes};
ghost use Rattle.cs_frame.specs.Geometries.{IsIdentity};

use std::fmt;
use uuid::Uuid;

/// The sixteen bytes by which a store of format 4 is known.
#[derive(Clone, Copy, Debug, PartialEq, Eq)]
pub struct StoreId(pub [u8; 16]);

impl StoreId {
    /// The bytes, the first one first.
    pub fn bytes(self) -> [u8; 16]
        ensures value { result ≡ self.0 }
        ensures identity { IsIdentity self.0 }
    {
        self.0
    }

    /// The first eight bytes, which each chunk and each run of the store has.
    pub fn front(self) -> [u8; 8]
        ensures value { result ≡ take 8 self.0 }
        ensures size { length result ≡ 8 }
        ensures bytes { IsBytes result }
    {
        let mut front = [0; 8];
        front.copy_from_slice(&self.0[..8]);
        front
    }
}

/// Lower case with hyphens. What is printed is tested, not proved.
impl fmt::Display for StoreId {
    fn fmt<W: fmt::Write>(&self, f: &mut fmt::Formatter<W>) -> fmt::Result {
        write!(f, "{}", Uuid::from_bytes(self.0).hyphenated())
    }
}
