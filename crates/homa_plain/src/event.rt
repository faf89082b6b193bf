// What may happen to a world.
use crate::HostId;

/// One event of a world. The bytes of a call or of an injection are passed beside it.
#[derive(Clone, Copy, Debug, PartialEq, Eq)]
pub enum Event {
    /// `client` calls service `number` of `server`.
    Call {
        client: HostId,
        server: HostId,
        number: u8,
    },
    /// The packet with this number, counted from 0, reaches the host that it was sent to.
    Deliver {
        packet: u64,
    },
    /// The world's clock goes on by one tick.
    Clock,
    /// A turn of a host: its timers and its pacer act.
    Turn {
        host: HostId,
    },
    /// A host loses all its state and comes back with the next incarnation.
    Restart {
        host: HostId,
    },
    /// A datagram that no host sent reaches a host.
    Inject {
        host: HostId,
    },
    /// A host's own clock is from now on `n` ticks ahead of the world's.
    Shift {
        host: HostId,
        n: u32,
    },
}
