// Bytes that pairs of lower-case hex digits spell.
ghost use Rattle.std.specs.Prelude.{◌≡◌, ◌*◌, ◌≤◌, ◌&&◌, Some, None, if◌then◌else◌, is_some, length, IfSome};
ghost use Rattle.std.specs.List.{list_all};
ghost use Rattle.check_words.specs.Digits.{digit_value, is_value, joined, lower_pairs, values_of};

// How many bytes are read at once.
const PART: usize = 16;

// The value of a lower-case digit, or more than each for another byte. It is computed without a branch, so that it is
// done for many digits at once.
#[inline(always)]
fn value(digit: u8) -> u8
    ensures { (if is_value result then Some result else None) ≡ digit_value digit }
{
    let number = digit.wrapping_sub(b'0');
    let letter = digit.wrapping_sub(b'a').saturating_add(10);
    if number < 10 { number } else { letter }
}

// Reads the values of digits, and answers the greatest of them.
#[inline(always)]
#[tactic(auto, unfolding(crate::specs::Digits::values_of))]
fn read_values(word: &[u8], values: &mut [u8]) -> u8
    requires { length values.old ≡ length word.now }
    ensures values { (if is_value result then Some values.new else None) ≡ values_of word.now }
    ensures all { is_value result ≡ list_all is_value values.new }
{
    let mut greatest = 0;
    for i in 0..word.len() {
        let value = value(word[i]);
        values[i] = value;
        greatest = greatest.max(value);
    }
    greatest
}

// Joins pairs of values to bytes.
#[inline(always)]
fn join_pairs(values: &[u8], out: &mut [u8])
    requires { length values.now ≡ 2 * length out.old }
    ensures { out.new ≡ joined values.now }
{
    for i in 0..out.len() {
        out[i] = values[2 * i]
            .wrapping_mul(16)
            .wrapping_add(values[2 * i + 1]);
    }
}

// Raises each number to the value in its place, if that is greater.
#[inline(always)]
fn raise(most: &mut [u8], values: &[u8])
    requires { length most.old ≡ length values.now }
    ensures len { length most.new ≡ length most.old }
    ensures all { list_all is_value most.new ≡ (list_all is_value most.old && list_all is_value values.now) }
{
    for i in 0..values.len() {
        let greater = most[i].max(values[i]);
        most[i] = greater;
    }
}

// Whether all are values of digits.
#[inline(always)]
fn are_values(values: &[u8]) -> bool
    ensures { result ≡ list_all is_value values.now }
{
    let mut greatest = 0;
    for i in 0..values.len() {
        greatest = greatest.max(values[i]);
    }
    greatest < 16
}

// Whether both are so.
#[inline(always)]
fn both(a: bool, b: bool) -> bool
    ensures { result ≡ (a && b) }
{
    a && b
}

// Reads a few bytes. Its loops have no early end, so that each is done for many digits at once.
#[inline(always)]
fn read_part(word: &[u8], out: &mut [u8]) -> bool
    requires pairs { length word.now ≡ 2 * length out.old }
    requires few { length out.old ≤ 16 }
    ensures { (if result then Some out.new else None) ≡ lower_pairs word.now }
{
    let mut room = [0; 2 * PART];
    let values = &mut room[..word.len()];
    let greatest = read_values(word, values);
    join_pairs(values, out);
    greatest < 16
}

// Reads a whole part, and raises `most` to its values, place by place. If a byte is no digit, `most` keeps a number that
// is no value. The greatest of all places is looked for once a word: looking for it in each part takes as long as reading.
#[inline(always)]
fn read_whole(word: &[u8], out: &mut [u8], most: &mut [u8])
    requires word { length word.now ≡ 32 }
    requires out { length out.old ≡ 16 }
    requires most { length most.old ≡ 32 }
    ensures len { length most.new ≡ 32 }
    ensures all { list_all is_value most.new ≡ (is_some (lower_pairs word.now) && list_all is_value most.old) }
    ensures bytes { IfSome (lower_pairs word.now) (λ bytes. out.new ≡ bytes) }
{
    let mut values = [0; 2 * PART];
    read_values(word, &mut values);
    raise(most, &values);
    join_pairs(&values, out);
}

// Reads the bytes that pairs of lower-case digits spell, and answers whether all are such digits; else `out` holds
// anything. Parts have a fixed length, so that each is read by vectors.
pub(crate) fn read_pairs(word: &[u8], out: &mut [u8]) -> bool
    requires { length word.now ≡ 2 * length out.old }
    ensures { (if result then Some out.new else None) ≡ lower_pairs word.now }
{
    let mut most = [0; 2 * PART];
    let mut done = 0;
    while out.len() - done >= PART {
        read_whole(
            &word[2 * done..2 * done + 2 * PART],
            &mut out[done..done + PART],
            &mut most,
        );
        done += PART;
    }
    let last = read_part(&word[2 * done..], &mut out[done..]);
    both(last, are_values(&most))
}
