// Readers of what follows a packet's header, one for each kind: its fields, if they fit the header, and the payload.
ghost use Rattle.std.specs.Prelude.{◌≡◌, ◌≤◌};
ghost use Rattle.std.specs.Int.{w32};
ghost use Rattle.std.specs.Option.{option_map};
ghost use Rattle.homa_plain.specs.Bytes.{number_at, two_at, times};
ghost use Rattle.homa_plain.specs.Wire.{more_at};
ghost use Rattle.homa_wire.specs.Checked.{fields_in};

use crate::fields::{read_ack, read_two, read_u8, read_u16, read_u32};
use crate::fits::{
    fits_acks, fits_cutoffs, fits_grant, fits_need_ack, fits_piece, fits_resend, fits_unknown,
    is_bare,
};
use crate::header::Header;
use homa_plain::{Body, Cutoffs, More};

#[tactic(auto, unfolding(homa_plain::specs::Wire::body_at, homa_plain::specs::Wire::data_at))]
pub fn read_data(header: Header, bytes: &[u8]) -> Option<(Body, &[u8])>
    ensures { option_map (λ x. (x.0, x.1.now)) result ≡ fields_in 1 header.role header.level bytes.now }
{
    let ((length, offset), rest) = read_two(bytes)?;
    let (version, rest) = read_u16(rest)?;
    let (service, rest) = read_u8(rest)?;
    let (ack, payload) = read_ack(rest)?;
    if !fits_piece(
        header.role,
        header.level,
        (length, offset),
        service,
        ack,
        payload,
    ) {
        return None;
    }
    let body = Body::Data {
        length,
        offset,
        version,
        service,
        ack,
    };
    Some((body, payload))
}

#[tactic(auto, unfolding(homa_plain::specs::Wire::body_at, homa_plain::specs::Wire::grant_at))]
pub fn read_grant(header: Header, bytes: &[u8]) -> Option<(Body, &[u8])>
    ensures { option_map (λ x. (x.0, x.1.now)) result ≡ fields_in 2 header.role header.level bytes.now }
{
    let (offset, rest) = read_u32(bytes)?;
    let (prio, rest) = read_u8(rest)?;
    if !fits_grant(header.level, offset, prio, rest) {
        return None;
    }
    Some((Body::Grant { offset, prio }, rest))
}

#[tactic(auto, unfolding(homa_plain::specs::Wire::body_at, homa_plain::specs::Wire::resend_at))]
pub fn read_resend(header: Header, bytes: &[u8]) -> Option<(Body, &[u8])>
    ensures { option_map (λ x. (x.0, x.1.now)) result ≡ fields_in 3 header.role header.level bytes.now }
{
    let ((from, to), rest) = read_two(bytes)?;
    let (prio, rest) = read_u8(rest)?;
    if !fits_resend(header.level, from, to, prio, rest) {
        return None;
    }
    Some((Body::Resend { from, to, prio }, rest))
}

/// Reads a BUSY, which has no fields.
#[tactic(auto, unfolding(homa_plain::specs::Wire::body_at))]
pub fn read_busy(header: Header, bytes: &[u8]) -> Option<(Body, &[u8])>
    ensures { option_map (λ x. (x.0, x.1.now)) result ≡ fields_in 4 header.role header.level bytes.now }
{
    if !is_bare(header.level, bytes) {
        return None;
    }
    Some((Body::Busy, bytes))
}

fn read_bounds(bytes: &[u8]) -> Option<([u32; 8], &[u8])>
    ensures { option_map (λ x. (x.0, x.1.now)) result ≡ times (number_at w32) 8 bytes.now }
{
    let mut upto = [0; 8];
    let mut rest = bytes;
    for bound in upto.iter_mut() {
        let (value, behind) = read_u32(rest)?;
        *bound = value;
        rest = behind;
    }
    Some((upto, rest))
}

#[tactic(auto, unfolding(homa_plain::specs::Wire::body_at, homa_plain::specs::Wire::cutoffs_at))]
pub fn read_cutoffs(header: Header, bytes: &[u8]) -> Option<(Body, &[u8])>
    ensures { option_map (λ x. (x.0, x.1.now)) result ≡ fields_in 5 header.role header.level bytes.now }
{
    let (version, rest) = read_u16(bytes)?;
    let (upto, rest) = read_bounds(rest)?;
    let cutoffs = Cutoffs { version, upto };
    if !fits_cutoffs(header.level, &cutoffs, rest) {
        return None;
    }
    Some((Body::Cutoffs(cutoffs), rest))
}

#[tactic(auto, unfolding(homa_plain::specs::Wire::body_at, homa_plain::specs::Wire::unknown_at))]
pub fn read_unknown(header: Header, bytes: &[u8]) -> Option<(Body, &[u8])>
    ensures { option_map (λ x. (x.0, x.1.now)) result ≡ fields_in 6 header.role header.level bytes.now }
{
    let (reason, rest) = read_u8(bytes)?;
    if !fits_unknown(header.role, header.level, reason, rest) {
        return None;
    }
    Some((Body::Unknown { reason }, rest))
}

/// Reads a NEED_ACK, which has no fields.
#[tactic(auto, unfolding(homa_plain::specs::Wire::body_at))]
pub fn read_need_ack(header: Header, bytes: &[u8]) -> Option<(Body, &[u8])>
    ensures { option_map (λ x. (x.0, x.1.now)) result ≡ fields_in 7 header.role header.level bytes.now }
{
    if !fits_need_ack(header.role, header.level, bytes) {
        return None;
    }
    Some((Body::NeedAck, bytes))
}

fn read_calls(count: u8, bytes: &[u8]) -> Option<(More, &[u8])>
    requires { count ≤ 4 }
    ensures { option_map (λ x. (x.0, x.1.now)) result ≡ times two_at count bytes.now }
{
    let mut more = More::empty();
    let mut rest = bytes;
    for _i in 0..count {
        let ((inc, seq), behind) = read_two(rest)?;
        more.push(inc, seq);
        rest = behind;
    }
    Some((more, rest))
}

/// Reads the calls of an ACK but the header's; `count` counts that one too.
#[tactic(auto, unfolding(homa_plain::specs::Wire::more_at))]
fn read_more(count: u8, bytes: &[u8]) -> Option<(More, &[u8])>
    ensures { option_map (λ x. (x.0, x.1.now)) result ≡ more_at count bytes.now }
{
    let further = count.checked_sub(1)?;
    if further > 4 {
        return None;
    }
    read_calls(further, bytes)
}

#[tactic(auto, unfolding(homa_plain::specs::Wire::body_at, homa_plain::specs::Wire::calls_at))]
pub fn read_acks(header: Header, bytes: &[u8]) -> Option<(Body, &[u8])>
    ensures { option_map (λ x. (x.0, x.1.now)) result ≡ fields_in 8 header.role header.level bytes.now }
{
    let (count, rest) = read_u8(bytes)?;
    let (more, rest) = read_more(count, rest)?;
    if !fits_acks(header.role, header.level, &more, rest) {
        return None;
    }
    Some((Body::Ack { more }, rest))
}
