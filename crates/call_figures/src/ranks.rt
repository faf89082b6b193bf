// Ranks of values.
ghost use Rattle.std.specs.Prelude.{◌≡◌, ◌≤◌, ◌<◌, ◌+◌, ◌-◌, ◌*◌, ◌/◌, length, slice_index};
ghost use Rattle.call_figures.specs.Ranks.{rank_at};
ghost use Rattle.call_figures.specs.declared.ranks.Rank.TheVariants.{Few};

/// A rank of values, of which some may be greater than any number.
#[derive(Clone, Copy, Debug, PartialEq, Eq)]
pub enum Rank {
    /// There are too few values to tell.
    Few,
    /// It is greater than any number: so many calls are open or failed.
    Slower,
    /// This value.
    At(u64),
}

// The value of a call that isn't done: slower than any other.
pub(crate) const SLOWER: u64 = u64::MAX;

/// The nearest rank of values that rise: the least of them that at least so many of 1000 don't exceed. It is told if there are at
/// least so many values.
pub fn rank_of(values: &[u64], thousandths: usize, least: usize) -> Rank
    requires some { 1 ≤ thousandths }
    requires most { thousandths ≤ 1000 }
    ensures few { length values.now < least → result ≡ Few }
    ensures nearest { least ≤ length values.now → 1 ≤ least → result ≡ rank_at (slice_index values.now ((length values.now * thousandths + 999) / 1000 - 1)) }
{
    if values.len() < least || values.is_empty() {
        return Rank::Few;
    }
    let product = values.len() as u128 * thousandths as u128;
    let place = product.div_ceil(1000) as usize;
    match values[place - 1] {
        SLOWER => Rank::Slower,
        value => Rank::At(value),
    }
}
