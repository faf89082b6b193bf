// Parts and means, rounded down.
ghost use Rattle.std.specs.Prelude.{◌≡◌, ◌/◌};
ghost use Rattle.simulate.specs.Parts.{mean_of, part_of};

/// A part of a whole, in 1000ths; of no whole it is 0.
pub(crate) fn part(n: u128, of: u128) -> u64
    ensures { result ≡ part_of n of }
{
    mean(n.saturating_mul(1000), of)
}

/// A sum over so many; over none it is 0.
pub(crate) fn mean(sum: u128, count: u128) -> u64
    ensures { result ≡ mean_of sum count }
{
    if count == 0 {
        return 0;
    }
    (sum / count).min(u128::from(u64::MAX)) as u64
}

/// A span in nanoseconds.
pub(crate) fn nanos(picos: u64) -> u64
    ensures { result ≡ picos / 1000 }
{
    picos / 1000
}
