//! A core under one lock that threads share. A purse keeps what one thread was told. A board tells without the lock how
//! many commands are persistent.
#![tactic(auto)]

mod accounting;
mod accounts;
mod boards;
mod calls;
mod choices;
mod gates;
mod jobs;
mod judges;
mod locked;
mod logs;
mod nodes;
mod numbers;
mod pilots;
mod purses;
mod reclaimers;
mod rests;
mod streams;
mod stretches;
mod tickets;
mod writebacks;

pub use accounting::account;
pub use accounts::Account;
pub use boards::{Board, Naming};
pub use choices::a_node_chooses_as_a_store;
pub use cs_core as the_core;
pub use gates::{Gate, Open, Step};
pub use jobs::Job;
pub use logs::Call;
pub use nodes::{Look, Node, RefusedPut, Settled, Why};
pub use numbers::Numbers;
pub use pilots::Pilot;
pub use purses::{Polled, Purse, the_floor_rises};
pub use reclaimers::{Next, Reclaimer};
pub use rests::{Closed, NotClosed, Rest, Unclosed};
pub use streams::Stream;
pub use stretches::Stretch;
pub use tickets::{Ack, Dock, Ramp, Ticket, ferry};
