//! Generated traffic, as definitions that compute: the draws, the fabric, the rounds, and what is printed of a run.
//!
//! The model: a fabric has eight queues for each destination, and hands packets over in strict order of level, within a
//! budget; by draws it loses and repeats them. A run is rounds over the plain world of `homa_plain`.
//! No code stands here. In `proofs/` small runs are computed, and what each part of a run does first is stated.
#![tactic(auto)]
