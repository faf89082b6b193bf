//! Tests of nets, clocks and observers, the recorder among them.
#![tactic(auto)]

#[cfg(test)]
mod outside;
#[cfg(test)]
mod real;
#[cfg(test)]
mod recording;
#[cfg(test)]
mod steps;
