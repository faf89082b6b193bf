//! The services that hosts call, in boxes, and the table that keeps one for each host.
//!
//! A [`Service`] has two meanings for contracts: `served`, the number of its Ok answers so far, and `allows`, which
//! says what it may answer. A [`Seat`] is a boxed service that is a service itself, so that code over `V: Service`
//! serves any box. A [`ServiceTable`] is seen as its places, one for each host, and its spares, both lists.
//!
//! Main promise: an Ok answer of a service is one that it allows, and raises `served` by one, through a seat too. A
//! replaced host gets the last spare, and there is none exactly where `replace` says so.
#![tactic(auto)]

mod reply;
mod seat;
mod service;
mod suite;
mod table;

pub use reply::Reply;
pub use seat::Seat;
pub use service::Service;
pub use suite::Suite;
pub use table::{NoSpare, ServiceTable};
