//! Tests of what a simulated network is asked, of its packets, runs and figures: with values worked out by hand.
#![tactic(auto)]

#[cfg(test)]
mod figures;
#[cfg(test)]
mod networks;
#[cfg(test)]
mod packets;
#[cfg(test)]
mod runs;
#[cfg(test)]
mod texts;
