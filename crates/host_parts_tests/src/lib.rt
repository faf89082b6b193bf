//! Tests of the parts of a host.
#![tactic(auto)]

#[cfg(test)]
mod acks;
#[cfg(test)]
mod cutoffs;
#[cfg(test)]
mod grants;
#[cfg(test)]
mod incoming;
#[cfg(test)]
mod one_heap;
#[cfg(test)]
mod outgoing;
#[cfg(test)]
mod pacer;
#[cfg(test)]
mod parts;
#[cfg(test)]
mod places;
#[cfg(test)]
mod timers;
