// Means over seeds, with intervals.
ghost use Rattle.std.specs.Prelude.{◌≡◌, length};
ghost use Rattle.call_figures.specs.declared.ranks.Rank.TheVariants.{Few};

use crate::ranks::Rank;

/// A mean over seeds, and how far it may be off with 95 parts of 100.
#[derive(Clone, Copy, Debug, PartialEq, Eq)]
pub struct Interval {
    pub mean: Rank,
    pub off: Rank,
}

// Student's t for 95 parts of 100, in 1000ths, by the degrees of freedom from 1 to 29.
const STUDENT: [u64; 29] = [
    12_706, 4303, 3182, 2776, 2571, 2447, 2365, 2306, 2262, 2228, 2201, 2179, 2160, 2145, 2131,
    2120, 2110, 2101, 2093, 2086, 2080, 2074, 2069, 2064, 2060, 2056, 2052, 2048, 2045,
];

// Student's t for 30 degrees of freedom and more: a little more than it is.
const STUDENT_MOST: u64 = 2042;

// Student's t of so many values, of which there are at least two.
fn student(count: usize) -> u64 {
    match STUDENT.get(count.saturating_sub(2)) {
        Some(t) => *t,
        None => STUDENT_MOST,
    }
}

// The sum of the values, if each is a number.
fn sum_of(values: &[Rank]) -> Result<u128, Rank> {
    let mut sum: u128 = 0;
    for value in values {
        match *value {
            Rank::At(n) => sum = sum.saturating_add(u128::from(n)),
            other => return Err(other),
        }
    }
    Ok(sum)
}

// The sum of the squares of the distances to a mean.
fn squares_of(values: &[Rank], mean: u64) -> u128 {
    let mut sum: u128 = 0;
    for value in values {
        if let Rank::At(n) = *value {
            let off = u128::from(n.abs_diff(mean));
            sum = sum.saturating_add(off.saturating_mul(off));
        }
    }
    sum
}

impl Interval {
    /// The mean of these, one for each seed, with its interval. If one isn't told, the mean isn't either; if one is slower than all,
    /// so is the mean. Of one value no interval is told.
    pub fn of(values: &[Rank]) -> Interval
        ensures none { length values.now ≡ 0 → result.mean ≡ Few }
        ensures one { length values.now ≡ 1 → result.off ≡ Few }
    {
        let few = Rank::Few;
        let count = values.len();
        if count == 0 {
            return Interval {
                mean: few,
                off: few,
            };
        }
        let sum = match sum_of(values) {
            Ok(sum) => sum,
            Err(mean) => return Interval { mean, off: few },
        };
        let mean = (sum / count as u128).min(u128::from(u64::MAX)) as u64;
        if count == 1 {
            return Interval {
                mean: Rank::At(mean),
                off: few,
            };
        }
        let of_mean = squares_of(values, mean) / (count as u128 - 1) / count as u128;
        let off = u128::from(of_mean.isqrt() as u64) * u128::from(student(count)) / 1000;
        Interval {
            mean: Rank::At(mean),
            off: Rank::At(off.min(u128::from(u64::MAX)) as u64),
        }
    }
}
