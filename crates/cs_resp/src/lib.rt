//! RESP2, the protocol of Redis: requests and replies as bytes.
//!
//! - `parse_request` reads a request from the bytes that came so far, within `Limits`, and gives a `Progress`.
//! - `Fault` names what is wrong with bytes that are no request, and has the text of the error reply.
//! - `spell_request` and `spell_reply` append what they are given; `spell_simple`, `spell_error`, `spell_integer`,
//!   `spell_bulk`, `spell_null` and `spell_array` append a reply of each kind without a `Reply`.
//! - The laws say that more bytes change no answer, and that no request begins another one.
#![tactic(auto)]

mod faults;
mod laws;
mod limits;
mod numbers;
mod progress;
mod replies;
mod requests;
mod spelling;

pub use faults::Fault;
pub use laws::{more_bytes_change_no_answer, no_request_begins_another};
pub use limits::Limits;
pub use progress::Progress;
pub use replies::{Element, Item, Reply};
pub use requests::parse_request;
pub use spelling::{
    spell_array, spell_bulk, spell_error, spell_integer, spell_null, spell_reply, spell_request,
    spell_simple,
};

#[cfg(test)]
mod tests;
