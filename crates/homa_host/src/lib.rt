//! One host of Homa: its calls, the calls that it serves, and what it sends.
//! Rules: which of Homa's rules a step carries out, and in which order; the crates below carry each out for one row.
//!
//! The model: a [`Host`] is seen as the plain host of `homa_plain`, beside the places of its rows and the marks of its last
//! step. The promise: each `call`, `deliver` and `turn` is one step of the plain host, in its state, its entries and its
//! frames; and between two calls the books hold exactly what the rows say. A step looks its call up once, and takes the
//! books' first entries; none reads all rows.
#![tactic(auto)]

mod acts;
mod arrives;
mod asked;
mod at_client;
mod at_server;
mod grant_priorities;
mod grants;
mod host;
mod lent;
mod outcome;
mod parts;
mod pump;

pub use asked::Asked;
pub use host::Host;
