//! Replies. The elements of an array may be arrays, and the elements of these may not. `SCAN` needs one array within
//! another.

/// A reply that isn't an array.
#[derive(Debug, Drop)]
pub enum Item {
    /// A line of text, as `OK`.
    Simple(Vec<u8>),
    /// A line of text that says why a request was refused. Its first word is by custom the kind of error, as `ERR`.
    Error(Vec<u8>),
    /// A number.
    Integer(i64),
    /// Bytes.
    Bulk(Vec<u8>),
    /// Bytes that aren't there.
    Null,
}

/// An element of an array.
#[derive(Debug, Drop)]
pub enum Element {
    /// One that isn't an array.
    One(Item),
    /// An array within an array.
    Array(Vec<Item>),
}

/// A reply.
#[derive(Debug, Drop)]
pub enum Reply {
    /// One that isn't an array.
    One(Item),
    /// An array.
    Array(Vec<Element>),
}
