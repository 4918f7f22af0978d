//! Identifiers of shards.

ghost use Rattle.std.specs.Prelude.{◌≡◌, ◌↔◌, Some, IfOk, IsOk, length};
ghost use Rattle.cs_frame.specs.Bytes.{IsBytes};
ghost use Rattle.uuid.specs.Text.{parsed};

use std::fmt;
use uuid::Uuid;

/// The sixteen bytes of an identifier, in the order in which they are stored and compared.
#[derive(Clone, Copy, Debug, PartialEq, Eq, PartialOrd, Ord, Hash)]
pub struct ShardId(pub [u8; 16]);

impl ShardId {
    /// Reads any of the four text forms of a UUID.
    pub fn parse(text: &str) -> Result<ShardId, uuid::Error>
        ensures ok { IsOk result ↔ ((u : _) × (parsed text.now ≡ Some u)) }
        ensures bytes { IfOk result (λ id. Some id.0 ≡ parsed text.now) }
    {
        Ok(ShardId(Uuid::parse_str(text)?.into_bytes()))
    }

    /// The bytes, the first one first.
    pub fn bytes(self) -> [u8; 16]
        ensures value { result ≡ self.0 }
        ensures size { length result ≡ 16 }
        ensures bytes { IsBytes result }
    {
        self.0
    }
}

/// Lower case with hyphens. What is printed is tested, not proved.
impl fmt::Display for ShardId {
    fn fmt<W: fmt::Write>(&self, f: &mut fmt::Formatter<W>) -> fmt::Result {
        write!(f, "{}", Uuid::from_bytes(self.0).hyphenated())
    }
}
