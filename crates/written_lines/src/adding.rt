// Bytes, numbers and digits that are added to a text.
ghost use Rattle.std.specs.Prelude.{◌≡◌, ◌≤◌, ◌<◌, ◌+◌, ◌*◌, ◌++◌, length, map, slice_index, decimal};
ghost use Rattle.hex.specs.Hex.{lower_digits, encode_lower};
ghost use Rattle.written_lines.specs.Turns.{by_turns, high_digit, low_digit};
ghost use Rattle.arrayvec.specs.ArrayVec.{array_vec_len};

use crate::LineBuffer;
use arrayvec::ArrayVec;
use itoa::Buffer;

// How many bytes are made to digits at once.
const CHUNK: usize = 64;

// The hex digit of a number below 16: `0` to `9` are 48 to 57, `a` to `f` are 97 to 102.
#[inline(always)]
fn digit(n: u8) -> u8
    requires { n < 16 }
    ensures { result ≡ slice_index lower_digits n }
{
    n + 48 + if n < 10 { 0 } else { 39 }
}

// Writes the first and the second digit of each byte.
#[inline(always)]
fn split_digits(bytes: &[u8], high: &mut [u8], low: &mut [u8])
    requires high { length high.old ≡ length bytes.now }
    requires low { length low.old ≡ length bytes.now }
    ensures high { high.new ≡ map high_digit bytes.now }
    ensures low { low.new ≡ map low_digit bytes.now }
{
    'bytes: for i in 0..bytes.len() {
        let byte = bytes[i];
        high[i] = digit(byte >> 4);
        low[i] = digit(byte & 0x0f);
    }
}

// Writes two texts by turns.
#[inline(always)]
fn join_digits(high: &[u8], low: &[u8], out: &mut [u8])
    requires high { length out.old ≡ 2 * length high.now }
    requires low { length low.now ≡ length high.now }
    ensures { out.new ≡ by_turns high.now low.now }
{
    'digits: for i in 0..high.len() {
        out[2 * i] = high[i];
        out[2 * i + 1] = low[i];
    }
}

// Writes the digits of a few bytes. Two loops, so that each is done for many bytes at once.
#[inline(always)]
fn write_part(bytes: &[u8], out: &mut [u8])
    requires few { length bytes.now ≤ 64 }
    requires room { length out.old ≡ 2 * length bytes.now }
    ensures { out.new ≡ encode_lower bytes.now }
{
    let mut firsts = [0; CHUNK];
    let mut seconds = [0; CHUNK];
    let high = &mut firsts[..bytes.len()];
    let low = &mut seconds[..bytes.len()];
    split_digits(bytes, high, low);
    join_digits(high, low, out);
}

// Writes the digits of fewer bytes than a part has.
fn write_few(bytes: &[u8], out: &mut [u8])
    requires { length out.old ≡ 2 * length bytes.now }
    ensures { out.new ≡ encode_lower bytes.now }
{
    'digits: for i in 0..bytes.len() {
        let byte = bytes[i];
        out[2 * i] = digit(byte >> 4);
        out[2 * i + 1] = digit(byte & 0x0f);
    }
}

/// Writes the digits of bytes: those that the crate `hex` writes. A digit is computed and not looked up, and parts have
/// a fixed length, so that many are at once. The last part ends where the bytes end, and so writes some digits again.
pub(crate) fn write_digits(bytes: &[u8], out: &mut [u8])
    requires { length out.old ≡ 2 * length bytes.now }
    ensures { out.new ≡ encode_lower bytes.now }
{
    if bytes.len() < CHUNK {
        return write_few(bytes, out);
    }
    let mut done = 0;
    while done < bytes.len() {
        let from = done.min(bytes.len() - CHUNK);
        write_part(
            &bytes[from..from + CHUNK],
            &mut out[2 * from..2 * from + 2 * CHUNK],
        );
        done = from + CHUNK;
    }
}

/// Adds bytes to the end of the text, which has room for them.
#[inline(always)]
pub fn add<T: LineBuffer>(text: &mut T, bytes: &[u8])
    requires { length bytes.now ≤ T.space text.old }
    ensures items { T.content text.new ≡ T.content text.old ++ bytes.now }
    ensures len { T.space text.new + length bytes.now ≡ T.space text.old }
{
    text.push_bytes(bytes);
}

// The decimal digit of a number below 10.
#[inline(always)]
fn numeral(n: u64) -> u8
    requires { n < 10 }
    ensures { result ≡ 48 + n }
{
    b'0' + n as u8
}

/// Adds the decimal digits of a number, where the text has room for 20. Most have one or two.
#[inline(always)]
#[tactic(auto, using(crate::proofs::Texts::one_digit, crate::proofs::Texts::two_digits))]
pub fn add_number<T: LineBuffer>(text: &mut T, n: u64)
    requires { 20 ≤ T.space text.old }
    ensures items { T.content text.new ≡ T.content text.old ++ decimal n }
    ensures len { T.space text.new + length (decimal n) ≡ T.space text.old }
    ensures few { length (decimal n) ≤ 20 }
{
    if n < 10 {
        return add(text, &[numeral(n)]);
    }
    if n < 100 {
        return add(text, &[numeral(n / 10), numeral(n % 10)]);
    }
    let mut buffer = Buffer::new();
    add(text, buffer.format(n).as_bytes());
}

// Adds fewer bytes than a part has, in hex.
fn add_chunk<const N: usize>(text: &mut ArrayVec<u8, N>, bytes: &[u8])
    requires few { length bytes.now ≤ 64 }
    requires room { array_vec_len text.old + 2 * length bytes.now ≤ N }
    ensures items { text.new.items ≡ text.old.items ++ encode_lower bytes.now }
    ensures len { array_vec_len text.new ≡ array_vec_len text.old + 2 * length bytes.now }
{
    let mut digits = [0; 128];
    let out = &mut digits[..2 * bytes.len()];
    write_digits(bytes, out);
    text.try_extend_from_slice(out).unwrap();
}

/// Adds bytes in hex, part by part, where the text has room for two digits of each.
pub(crate) fn add_parts<const N: usize>(text: &mut ArrayVec<u8, N>, bytes: &[u8])
    requires { array_vec_len text.old + 2 * length bytes.now ≤ N }
    ensures items { text.new.items ≡ text.old.items ++ encode_lower bytes.now }
    ensures len { array_vec_len text.new ≡ array_vec_len text.old + 2 * length bytes.now }
{
    let mut done = 0;
    while done < bytes.len() {
        let n = (bytes.len() - done).min(CHUNK);
        add_chunk(text, &bytes[done..done + n]);
        done += n;
    }
}

/// Adds bytes in hex, where the text has room for two digits of each.
#[inline(always)]
pub fn add_hex<T: LineBuffer>(text: &mut T, bytes: &[u8])
    requires { 2 * length bytes.now ≤ T.space text.old }
    ensures items { T.content text.new ≡ T.content text.old ++ encode_lower bytes.now }
    ensures len { T.space text.new + 2 * length bytes.now ≡ T.space text.old }
{
    text.push_hex(bytes);
}
