// Readers of fields. Each returns the value that the bytes begin with and the bytes after it, or None if
// there are too few bytes or they spell no such value.
ghost use Rattle.std.specs.Prelude.{◌≡◌};
ghost use Rattle.std.specs.Int.{w16, w32, w64};
ghost use Rattle.std.specs.Option.{option_map};
ghost use Rattle.homa_plain.specs.Bytes.{byte_at, number_at, two_at};
ghost use Rattle.homa_plain.specs.Wire.{ack_at, tick_at, role_of};

use homa_plain::Role;

pub fn read_u8(bytes: &[u8]) -> Option<(u8, &[u8])>
    ensures { option_map (λ x. (x.0, x.1.now)) result ≡ byte_at bytes.now }
{
    match bytes {
        [] => None,
        [value, rest @ ..] => Some((*value, rest)),
    }
}

#[tactic(auto, unfolding(homa_plain::specs::Bytes::number_at))]
pub fn read_u16(bytes: &[u8]) -> Option<(u16, &[u8])>
    ensures { option_map (λ x. (x.0, x.1.now)) result ≡ number_at w16 bytes.now }
{
    match bytes {
        [a, b, rest @ ..] => Some((u16::from_be_bytes([*a, *b]), rest)),
        _ => None,
    }
}

#[tactic(auto, unfolding(homa_plain::specs::Bytes::number_at))]
pub fn read_u32(bytes: &[u8]) -> Option<(u32, &[u8])>
    ensures { option_map (λ x. (x.0, x.1.now)) result ≡ number_at w32 bytes.now }
{
    match bytes {
        [a, b, c, d, rest @ ..] => Some((u32::from_be_bytes([*a, *b, *c, *d]), rest)),
        _ => None,
    }
}

#[tactic(auto, unfolding(homa_plain::specs::Bytes::number_at))]
pub fn read_u64(bytes: &[u8]) -> Option<(u64, &[u8])>
    ensures { option_map (λ x. (x.0, x.1.now)) result ≡ number_at w64 bytes.now }
{
    match bytes {
        [a, b, c, d, e, f, g, h, rest @ ..] => {
            let value = u64::from_be_bytes([*a, *b, *c, *d, *e, *f, *g, *h]);
            Some((value, rest))
        }
        _ => None,
    }
}

/// Reads two numbers: a call, or the ends of a range.
#[tactic(auto, unfolding(homa_plain::specs::Bytes::two_at))]
pub fn read_two(bytes: &[u8]) -> Option<((u32, u32), &[u8])>
    ensures { option_map (λ x. (x.0, x.1.now)) result ≡ two_at bytes.now }
{
    let (first, rest) = read_u32(bytes)?;
    let (second, rest) = read_u32(rest)?;
    Some(((first, second), rest))
}

/// Reads the acknowledgement of a call: a flag, and the call or two zeros.
#[tactic(auto, unfolding(homa_plain::specs::Wire::ack_at))]
pub fn read_ack(bytes: &[u8]) -> Option<(Option<(u32, u32)>, &[u8])>
    ensures { option_map (λ x. (x.0, x.1.now)) result ≡ ack_at bytes.now }
{
    let (flag, rest) = read_u8(bytes)?;
    let (call, rest) = read_two(rest)?;
    match flag {
        0 => {
            if call.0 == 0 && call.1 == 0 {
                Some((None, rest))
            } else {
                None
            }
        }
        1 => Some((Some(call), rest)),
        _ => None,
    }
}

/// Reads the sender's clock, which version 1 does not carry.
#[tactic(auto, unfolding(homa_plain::specs::Wire::tick_at))]
pub fn read_clock(wire: u32, bytes: &[u8]) -> Option<(u64, &[u8])>
    ensures { option_map (λ x. (x.0, x.1.now)) result ≡ tick_at wire bytes.now }
{
    if wire == 1 {
        Some((0, bytes))
    } else {
        read_u64(bytes)
    }
}

pub fn role_from(byte: u8) -> Option<Role>
    ensures { result ≡ role_of byte }
{
    match byte {
        0 => Some(Role::Client),
        1 => Some(Role::Server),
        _ => None,
    }
}
