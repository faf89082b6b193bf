//! Where a program's bytes come from and where they go, in memory and outside of the process.
//!
//! Model: a source has bytes left and a sink took bytes, each an optional list, since nothing is
//! known of bytes outside of the process. Both count their faults.
//! Promise: a call moves exactly the bytes that it answers for; a call that fails moves none, and it
//! alone raises the count. After a fault in `write_all` the sink took a prefix of the bytes. A sink
//! that holds lines back is seen as what the sink below it took with what is held after it, and a
//! fault loses nothing of that.
#![tactic(auto)]

mod faults;
mod held;
mod held_text;
mod input;
mod memory;
mod real;
mod sink;
mod source;
mod sure;

pub use held::HeldSink;
pub use held_text::{HeldText, MadeInPlace, Room};
pub use memory::{MemSink, MemSource};
pub use real::{StdSink, StdSource};
pub use sink::{Sink, WriteFailed, write_all};
pub use source::{ReadFailed, Source};
pub use std::alloc::AllocError as NoMemory;
pub use sure::{SureSink, SureSource};
