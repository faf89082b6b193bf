//! Tests of the settings' order of faults and of the wire's datagrams.
#![tactic(auto)]

#[cfg(test)]
mod settings;
#[cfg(test)]
mod wire;
