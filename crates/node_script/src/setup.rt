// What a node is to do.
use crate::place::Place;
use homa_plain::Settings;

/// What a node is to do.
#[derive(Drop)]
pub struct Setup {
    /// The settings, which are valid.
    pub settings: Settings,
    /// Where each host is, by its number.
    pub places: Vec<Place>,
    /// The tick at which it ends, from 1 to 1,000,000,000.
    pub end: u64,
    /// The most loop turns, from 1 to 1,000,000,000.
    pub turns: u64,
}
