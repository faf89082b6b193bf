//! What a checker of a trace keeps of one call, and how a delivery changes it; the choice of messages for GRANTs; and the
//! laws on which a checker in one pass rests.
//!
//! The model: a kept spot stands for a [`Spot`](specs/Spots.antt) beside the sets of bytes that are kept of its call
//! (`StandsFor` of `specs/Kept.antt`). A `Spot` is what the lines before say of one call. A part has its bytes as a set and
//! the range that came last. Of RESENDs it has how many there are, the latest, and whether they were spaced.
//! Main promise: each change of a kept spot stands for the change of the spot that a line makes. `Call::delivered`
//! leaves exactly what the delivery of a packet does to its call, refused or not, and what is due because of it.
//! `choose` is the choice of the definitions: of all messages in their order, the first k with different senders. The
//! laws say: a line changes the spots of one call alone, but for a restart.
#![tactic(auto)]

mod call;
mod choice;
mod laws;
mod packet;
mod part;
mod resends;
mod spot;

pub use call::{Call, Delivered, Lives, Run};
pub use choice::{Message, choose};
pub use laws::{choice_by_entering, lines_change_spots, little_is_kept, windows_at_one_call};
pub use packet::{Packet, Piece};
pub use part::{Arrival, Part};
pub use resends::{OwnTick, Resends};
pub use spot::{Change, Spot};
