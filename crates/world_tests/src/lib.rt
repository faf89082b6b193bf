//! Tests of packets of a world, of worlds, of their replay and of the quiet call.
#![tactic(auto)]

#[cfg(test)]
mod heaps;
#[cfg(test)]
mod packets;
#[cfg(test)]
mod quiet;
#[cfg(test)]
mod replay;
#[cfg(test)]
mod world;
