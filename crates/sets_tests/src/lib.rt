//! Tests of the heap, of sets of ranges and of pooled pages.
#![tactic(auto)]

#[cfg(test)]
mod heap;
#[cfg(test)]
mod joined_ranges;
#[cfg(test)]
mod pool;
#[cfg(test)]
mod ranges;
