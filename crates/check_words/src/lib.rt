//! The words of a trace's line, read as values: numbers, hosts, calls, routes, roles, bytes in hex.
//!
//! Model: the words that are left are a list of byte strings (`left` of `specs/FieldsLeft`).
//! Promise: each reader answers the value that the words begin with and the words behind it, exactly where they begin
//! with one (`specs/Fields`). What is left is never longer, or where bytes were read, than twice the room that is left.
#![tactic(auto)]

mod digits;
mod fields;

pub use fields::{
    Fields, Separator, call_from, read_ack, read_hex, read_host, read_id, read_last_hex, read_role,
    read_route, read_u8, read_u16, read_u32, read_u64, read_why,
};
