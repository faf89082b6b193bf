// The limits that several crates name, and how they stand to one another.

/// The last tick of a world's clock.
pub const LAST_TICK: u64 = 1_000_000_000_000;

/// By how many ticks a host's clock may be off at most.
pub const MOST_SKEW: u64 = 1000;

/// The last tick of a host's own clock.
pub const LAST_HOST_TICK: u64 = 1_000_000_002_000;

/// The longest message, in bytes.
pub const LONGEST_MESSAGE: u32 = 1_000_000;

/// The longest that a service may hold a response back, in ticks.
pub const LONGEST_HOLD: u64 = 1_000_000;

/// The most services of a world.
pub const MOST_SERVICES: usize = 1_000_000;

/// The longest piece of a message, in bytes: the most payload of a packet.
pub const LONGEST_PIECE: u32 = 1400;

/// The longest schedule, script or trace, in bytes.
pub const LONGEST_INPUT: u64 = 68_719_476_736;

const _: () = prove!(LAST_HOST_TICK == LAST_TICK + 2 * MOST_SKEW);

const _: () = prove!(LONGEST_PIECE <= LONGEST_MESSAGE);

const _: () = prove!(LONGEST_INPUT == 1 << 36);
