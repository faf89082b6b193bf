//! Tests of lines of a trace, read back.
#![tactic(auto)]

#[cfg(test)]
mod reader;
