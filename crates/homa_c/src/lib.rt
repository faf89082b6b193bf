//! The core as a C library: a host whose requests its caller answers, for programs with a net and a clock of their own.
//!
//! The model: a [`handle::Handle`] is open or not, and while it is open it owns a host, `slot.held`, seen as an asking host
//! is. Main promise: each export is one step of that host, or it answers that it was refused, or that there is no memory,
//! and nothing happened to the host. What a C program must guarantee is in `include/homa.h`.
#![tactic(auto)]

mod entries;
mod exports;
mod handle;
mod knows;
mod late;
mod results;
mod settings;
mod shows;
#[cfg(test)]
mod tests;
