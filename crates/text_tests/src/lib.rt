//! Tests of sources and sinks, and of lines of text, read and written.
#![tactic(auto)]

#[cfg(test)]
mod io;
#[cfg(test)]
mod text;
