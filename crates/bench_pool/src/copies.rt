// Plain copies of as many bytes.
ghost use Rattle.std.specs.Prelude.{◌≡◌, length, vec_len, IfOk};

use std::alloc::{AllocError, Global};

// A million bytes.
fn million(alloc: Global) -> Result<Vec<u8>, AllocError>
    ensures { IfOk result (λ list. vec_len list ≡ 1000000) }
{
    Vec::from_elem(alloc, 0xab_u8, 1_000_000)
}

// Copies one list to another, of which the first byte is another one each time.
fn copy_times(to: &mut [u8], from: &mut [u8], times: u64) -> u64
    requires to { length to.old ≡ 1000000 }
    requires from { length from.old ≡ 1000000 }
{
    let mut sum = 0_u64;
    'times: for i in 0..times {
        from[0] = (i % 251) as u8;
        to.copy_from_slice(from);
        sum = sum.wrapping_add(u64::from(to[0]));
    }
    sum
}

// Copies 714 pieces to a list, one behind the other.
fn copy_pieces(to: &mut [u8], piece: &[u8; 1400])
    requires { length to.old ≡ 1000000 }
    ensures { length to.new ≡ 1000000 }
{
    'pieces: for i in 0..714 {
        let from = i * 1400;
        to[from..from + 1400].copy_from_slice(piece);
    }
}

// Copies the pieces so many times, of which the first byte is another one each time.
fn copy_pieces_times(to: &mut [u8], times: u64) -> u64
    requires { length to.old ≡ 1000000 }
{
    let mut sum = 0_u64;
    let mut piece = [0xab; 1400];
    'times: for i in 0..times {
        piece[0] = (i % 251) as u8;
        copy_pieces(to, &piece);
        sum = sum.wrapping_add(u64::from(to[0]));
    }
    sum
}

/// Copies 1,000,000 bytes, so many times.
pub(crate) fn copies(alloc: Global, times: u64) -> Result<u64, AllocError> {
    let mut to = million(alloc)?;
    let mut from = million(alloc)?;
    Ok(copy_times(&mut to, &mut from, times))
}

/// Copies 714 pieces of 1,400 bytes, so many times.
pub(crate) fn piece_copies(alloc: Global, times: u64) -> Result<u64, AllocError> {
    let mut to = million(alloc)?;
    Ok(copy_pieces_times(&mut to, times))
}
