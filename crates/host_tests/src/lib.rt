//! Tests of one host, alone and driven by hand.
#![tactic(auto)]

#[cfg(test)]
mod driven;
#[cfg(test)]
mod host;
