//! Tests of services and of the calls that a host serves.
#![tactic(auto)]

#[cfg(test)]
mod server;
#[cfg(test)]
mod services;
