//! Tests of the calls that a host makes.
#![tactic(auto)]

#[cfg(test)]
mod client;
