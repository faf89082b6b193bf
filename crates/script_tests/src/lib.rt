//! Tests of schedules, read and printed.
#![tactic(auto)]

#[cfg(test)]
mod schedules;
