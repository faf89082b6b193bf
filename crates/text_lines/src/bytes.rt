// Bytes that a word of a schedule spells.
ghost use Rattle.std.specs.Prelude.{◌≡◌, ◌*◌, ◌/◌, ◌≤◌, length, take, vec_len, vec_capacity, IfOk, IfErr};
ghost use Rattle.hex.specs.Hex.{decode_of};
ghost use Rattle.homa_plain.specs.Numbers.{number_of};
ghost use Rattle.homa_plain.specs.Script.{bytes_of_word, hex_bytes, counting, counted, number_up_to, most_counted};

use crate::read_number;
use homa_plain::ScriptFault;
use std::alloc::{AllocError, Global};

// The most bytes that a word counts.
const MOST_COUNTED: u64 = 1_000_001;

// Makes each byte its index modulo 256.
fn count(out: &mut [u8])
    ensures { out.new ≡ counting 0 (length out.old) }
{
    for (i, b) in out.iter_mut().enumerate() {
        *b = (i % 256) as u8;
    }
}

/// Returns so many counting bytes: each is its index modulo 256. Fails if memory runs out.
pub fn counting_bytes(alloc: Global, size: u32) -> Result<Vec<u8>, AllocError>
    ensures { IfOk result (λ bytes. bytes.items ≡ counting 0 size) }
{
    let mut bytes = vec![in alloc; 0; size as usize]?;
    count(&mut bytes);
    Ok(bytes)
}

// Makes the vector so many bytes long, in room that was taken before.
fn grow(out: &mut Vec<u8>, len: usize)
    requires { len ≤ vec_capacity out.old }
    ensures len { len ≤ vec_len out.new }
    ensures capacity { vec_capacity out.old ≤ vec_capacity out.new }
{
    if out.len() < len {
        let Ok(()) = out.resize(len, 0) else {
            unreachable!()
        };
    }
}

// Makes the first so many bytes counting ones.
fn count_front(out: &mut [u8], n: usize)
    requires { n ≤ length out.old }
    ensures len { length out.new ≡ length out.old }
    ensures front { take n out.new ≡ counting 0 n }
{
    count(&mut out[..n]);
}

// Returns counting bytes, as many as these digits say.
fn read_counted(digits: &[u8], out: &mut Vec<u8>) -> Result<usize, ScriptFault>
    requires { most_counted ≤ vec_capacity out.old }
    ensures fits { IfOk result (λ n. n ≤ length out.new.items) }
    ensures most { IfOk result (λ n. n ≤ most_counted) }
    ensures ok { IfOk result (λ n. counted (number_up_to most_counted (number_of digits.now)) ≡ Ok (take n out.new.items)) }
    ensures err { IfErr result (λ fault. counted (number_up_to most_counted (number_of digits.now)) ≡ Err fault) }
    ensures capacity { vec_capacity out.old ≤ vec_capacity out.new }
{
    match read_number(digits) {
        Some(n) if n <= MOST_COUNTED => {
            grow(out, n as usize);
            count_front(out, n as usize);
            Ok(n as usize)
        }
        _ => Err(ScriptFault::BadNumber),
    }
}

// Writes the bytes that hex digits of either case spell to the start of `out`.
fn decode_front(word: &[u8], out: &mut [u8]) -> Result<usize, ScriptFault>
    requires { length word.now / 2 ≤ length out.old }
    ensures len { length out.new ≡ length out.old }
    ensures most { IfOk result (λ n. 2 * n ≤ length word.now) }
    ensures fits { IfOk result (λ n. n ≤ length out.new) }
    ensures ok { IfOk result (λ n. hex_bytes (decode_of word.now) ≡ Ok (take n out.new)) }
    ensures err { IfErr result (λ fault. hex_bytes (decode_of word.now) ≡ Err fault) }
{
    let n = word.len() / 2;
    match hex::decode_to_slice(word, &mut out[..n]) {
        Ok(()) => Ok(n),
        Err(_) => Err(ScriptFault::BadHex),
    }
}

// Reads hex digits of either case.
fn read_hex(word: &[u8], out: &mut Vec<u8>) -> Result<usize, ScriptFault>
    requires { length word.now / 2 ≤ vec_capacity out.old }
    ensures fits { IfOk result (λ n. n ≤ length out.new.items) }
    ensures most { IfOk result (λ n. 2 * n ≤ length word.now) }
    ensures ok { IfOk result (λ n. hex_bytes (decode_of word.now) ≡ Ok (take n out.new.items)) }
    ensures err { IfErr result (λ fault. hex_bytes (decode_of word.now) ≡ Err fault) }
    ensures capacity { vec_capacity out.old ≤ vec_capacity out.new }
{
    grow(out, word.len() / 2);
    decode_front(word, out)
}

/// Reads the bytes that a word of a schedule spells into the start of `out`, and returns how many they are. `-` spells
/// none. `*` and a number spell that many counting ones, at most 1,000,001; each is its place modulo 256. Any other
/// word spells those of its hex digits, of either case. `BadNumber` for another number after `*`, `BadHex` for what is
/// no pairs of hex digits; `out` then holds anything. It has room for 1,050,000 bytes, and grows within it to as many
/// as a word needs.
pub fn read_bytes(word: &[u8], out: &mut Vec<u8>) -> Result<usize, ScriptFault>
    requires short { length word.now ≤ 2100000 }
    requires room { 1050000 ≤ vec_capacity out.old }
    ensures fits { IfOk result (λ n. n ≤ length out.new.items) }
    ensures most { IfOk result (λ n. n ≤ 1050000) }
    ensures ok { IfOk result (λ n. bytes_of_word word.now ≡ Ok (take n out.new.items)) }
    ensures err { IfErr result (λ fault. bytes_of_word word.now ≡ Err fault) }
    ensures capacity { vec_capacity out.old ≤ vec_capacity out.new }
{
    if word == b"-".as_slice() {
        return Ok(0);
    }
    match word.strip_prefix(b"*") {
        Some(digits) => read_counted(digits, out),
        None => read_hex(word, out),
    }
}
