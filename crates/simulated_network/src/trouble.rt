// What shouldn't happen.
ghost use Rattle.std.specs.Prelude.{◌≡◌};
ghost use Rattle.simulated_network.specs.Troubles.{no_trouble};

/// What shouldn't happen, and how often it did.
#[derive(Clone, Copy, Debug, PartialEq, Eq)]
pub struct Trouble {
    /// Calls that weren't made, as their client had as many live ones as it may.
    pub left_out: u64,
    /// Requests that a server gave up.
    pub dropped: u64,
    /// Messages that were refused for want of rows or pages.
    pub refused: u64,
    /// Turns that were left out, as too much waited at the network card.
    pub held: u64,
}

impl Trouble {
    /// Nothing did.
    pub(crate) fn new() -> Trouble
        ensures { result ≡ no_trouble }
    {
        Trouble {
            left_out: 0,
            dropped: 0,
            refused: 0,
            held: 0,
        }
    }
}
