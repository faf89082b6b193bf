// As what the lines of a trace are counted.
ghost use Rattle.std.specs.Prelude.{◌≡◌, ℕ, Some, List};
ghost use Rattle.homa_plain.specs.declared.packet.Packet.{Packet};
ghost use Rattle.homa_plain.specs.Wire.{packet_in};
ghost use Rattle.homa_world.specs.Kinds.{packet_kind, kind_numbered};
ghost use Rattle.homa_world.specs.Counting.{Stands, IsKindOf};

use homa_plain::{Kind, Why};
use host_view::{Mark, Outbox};

/// The kinds of lines that are counted, in the order of a run's summary. Packets come last, by the numbers of their kinds.
#[derive(Clone, Copy)]
pub enum LineKind {
    Call,
    Run,
    Done,
    Timeout,
    Forgotten,
    Deliver,
    Clock,
    /// A packet of this kind was sent.
    Sent(Kind),
}

// Where a datagram has its packet's kind.
const KIND_AT: usize = 1;

impl LineKind {
    // The kind of a packet's line, by the number of its kind.
    fn numbered(number: u8) -> Option<LineKind>
        ensures { result ≡ kind_numbered number }
    {
        if number == 0 {
            return None;
        }
        let kind = Kind::ALL.get(usize::from(number) - 1)?;
        Some(LineKind::Sent(*kind))
    }

    // The kind of a packet's line, by its datagram.
    fn of_datagram(bytes: &[u8]) -> Option<LineKind>
        ensures { (wire : ℕ) (p : Packet) (payload : List ℕ) → packet_in wire bytes.now ≡ Some (p, payload) → result ≡ Some (packet_kind p.body) }
    {
        LineKind::numbered(*bytes.get(KIND_AT)?)
    }

    // The kind of the line of the entry that a host's mark shows, if it is counted. A packet stands in the outbox.
    pub(crate) fn of_mark(mark: &Mark, out: &Outbox) -> Option<LineKind>
        requires { Stands out.now mark.now }
        ensures { IsKindOf out.now mark.now result }
    {
        match mark {
            Mark::Called { .. } => Some(LineKind::Call),
            Mark::Ran { .. } => Some(LineKind::Run),
            Mark::Done { .. } => Some(LineKind::Done),
            Mark::Failed { why, .. } => match why {
                Why::Timeout => Some(LineKind::Timeout),
                Why::Forgotten => Some(LineKind::Forgotten),
            },
            Mark::Sent { number } => LineKind::of_datagram(out.bytes(*number as usize)),
            _ => None,
        }
    }
}
