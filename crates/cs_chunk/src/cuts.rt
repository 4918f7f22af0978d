//! What the bytes of a put are cut in. `chunk_puts` has the calls.
ghost use Rattle.std.specs.Prelude.{◌≤◌};

use cs_frame::ShardId;

/// What the heads of a put's chunks have in common: which shard it is, and the number of the command.
#[derive(Clone, Copy)]
pub struct Origin {
    /// The identifier of the shard.
    pub id: ShardId,
    /// The number of the command that puts it.
    pub command: u64,
}

/// So many bytes cut in chunks: all but the last have one length.
#[derive(Clone, Copy)]
pub struct Cut {
    /// The bytes of each piece but the last.
    pub size: usize,
    /// How many chunks there are.
    pub count: usize,
    /// The pages of each chunk's frame but the last.
    pub pages: usize,
    /// The pages of the last chunk's frame.
    pub last: usize,
    ghost few: { count ≤ 8 },
    ghost some: { 1 ≤ count },
    ghost least: { 1 ≤ last },
    ghost most: { last ≤ pages },
    ghost small: { pages ≤ 65535 },
}
