//! The bound of a level, worked out from the lengths themselves.
//! Rule: the cutoffs of unscheduled bytes share the weight of the last messages among the levels; CUTOFFS carry
//! them.
ghost use Rattle.std.specs.Prelude.{◌≡◌, ◌+◌, ◌*◌, ◌^◌, ◌<◌, ◌≤◌, length};
ghost use Rattle.std.specs.List.{AllByRecursion};
ghost use Rattle.homa_plain.specs.Cutoffs.{weight_up_to, bound, bound_of_level};

use circular_buffer::HeapCircularBuffer;
use homa_plain::LONGEST_MESSAGE;

/// The weight of the messages of at most `most` bytes.
fn weight_within(lengths: &HeapCircularBuffer<u32>, unsched: u32, most: u32) -> u64
    requires { length lengths.now.items ≤ 256 }
    ensures weight { result ≡ weight_up_to unsched lengths.now.items most }
    ensures small { result ≤ 256 * 2 ^ 32 }
{
    let mut sum: u64 = 0;
    for n in lengths.iter() {
        if *n <= most {
            sum += u64::from((*n).min(unsched));
        }
    }
    sum
}

/// The least bound with `j + 1` of `m` parts of the weight. It is 0 or one of the lengths.
fn least_bound(lengths: &HeapCircularBuffer<u32>, m: u32, unsched: u32, j: u32) -> u32
    requires few { length lengths.now.items ≤ 256 }
    requires within { AllByRecursion (λ n. n ≤ LONGEST_MESSAGE) lengths.now.items }
    requires part { j < m }
    requires parts { m ≤ 7 }
    ensures { result ≡ bound m unsched lengths.now.items j }
{
    let share = u64::from(j + 1) * weight_within(lengths, unsched, LONGEST_MESSAGE);
    if share <= u64::from(m) * weight_within(lengths, unsched, 0) {
        return 0;
    }
    let mut least = LONGEST_MESSAGE;
    for n in lengths.iter() {
        if *n < least && share <= u64::from(m) * weight_within(lengths, unsched, *n) {
            least = *n;
        }
    }
    least
}

/// The bound of a level (0 to 7), where the levels from `k` on get equal parts of the weight.
pub(crate) fn level_bound(
    lengths: &HeapCircularBuffer<u32>,
    k: u32,
    unsched: u32,
    level: u32,
) -> u32
    requires few { length lengths.now.items ≤ 256 }
    requires within { AllByRecursion (λ n. n ≤ LONGEST_MESSAGE) lengths.now.items }
    requires from { 1 ≤ k }
    requires to { k ≤ 7 }
    requires in_range { level ≤ 7 }
    ensures { result ≡ bound_of_level k unsched lengths.now.items level }
{
    if level < k {
        0
    } else if level == k {
        LONGEST_MESSAGE
    } else {
        least_bound(lengths, 8 - k, unsched, 7 - level)
    }
}
