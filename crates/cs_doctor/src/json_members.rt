//! The members of JSON objects.

use cs_frame::StoreId;
use cs_refusal::Refusal;
use serde_json::{Map, Value, put};
use std::alloc::{AllocError, Global};
use uuid::Uuid;

/// A value that is no object and no array.
#[derive(Clone, Copy)]
pub enum Leaf<'a> {
    Null,
    Is(bool),
    Number(u64),
    Text(&'a str),
    /// The identity of a store, as 32 hex digits.
    Id(StoreId),
}

impl Leaf<'_> {
    /// A value for as many as were counted.
    pub fn count(count: usize) -> Self {
        Leaf::Number(u64::try_from(count).unwrap_or(u64::MAX))
    }

    /// The value.
    fn value(self, alloc: Global) -> Result<Value, AllocError> {
        match self {
            Leaf::Null => Ok(Value::Null),
            Leaf::Is(it) => Ok(Value::Bool(it)),
            Leaf::Number(number) => Ok(Value::from(number)),
            Leaf::Text(text) => text_value(String::from_str(alloc, text)),
            Leaf::Id(store) => {
                let id = Uuid::from_bytes(store.0).simple();
                text_value(format!(in alloc; "{id}"))
            }
        }
    }
}

/// A text as a value.
fn text_value(text: Result<String, AllocError>) -> Result<Value, AllocError> {
    match text {
        Ok(text) => Ok(Value::String(text)),
        Err(fault) => Err(fault),
    }
}

/// An object with these members.
pub fn object(alloc: Global, leaves: &[(&str, Leaf)]) -> Result<Map<String, Value>, AllocError> {
    let mut members = Map::new(alloc);
    put_leaves(alloc, &mut members, leaves)?;
    Ok(members)
}

/// Puts these members into an object.
pub fn put_leaves(
    alloc: Global,
    members: &mut Map<String, Value>,
    leaves: &[(&str, Leaf)],
) -> Result<(), AllocError> {
    for (name, leaf) in leaves {
        put_value(alloc, members, name, leaf.value(alloc))?;
    }
    Ok(())
}

/// Puts a member into an object, if it was made.
pub fn put_value(
    alloc: Global,
    members: &mut Map<String, Value>,
    name: &str,
    value: Result<Value, AllocError>,
) -> Result<(), AllocError> {
    match value {
        Ok(value) => put(members, alloc, name, value),
        Err(fault) => Err(fault),
    }
}

/// The object of these members, if they were made.
pub fn value_of(members: Result<Map<String, Value>, AllocError>) -> Result<Value, AllocError> {
    match members {
        Ok(members) => Ok(Value::Object(members)),
        Err(fault) => Err(fault),
    }
}

/// The number and the name of a refusal.
pub fn refusal_value(alloc: Global, refusal: Refusal) -> Result<Value, AllocError> {
    let number = Leaf::Number(u64::from(refusal.number()));
    let name = Leaf::Text(refusal.name());
    value_of(object(alloc, &[("number", number), ("name", name)]))
}
