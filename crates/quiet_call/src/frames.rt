// Frames under way.
ghost use Rattle.std.specs.Prelude.{◌≡◌, ◌++◌, ◌≤◌, ◌^◌, length, OnOk};

use homa_plain::HostId;
use host_view::Outbox;
use std::alloc::{AllocError, Global};
use std::marker::Model;

/// The most frames that are under way at a time. They would take hundreds of gigabytes, so more are want of memory.
const MOST_FRAMES: usize = 1 << 32;

/// A datagram that was sent and not delivered yet.
#[derive(Debug, Drop)]
pub struct KeptFrame {
    pub from: HostId,
    pub to: HostId,
    pub bytes: Vec<u8>,
}

impl Model for KeptFrame {
    ghost use Rattle.host_view.specs.declared.outbox.SentFrame.{SentFrame};

    ghost Value = { SentFrame };

    ghost view = { λ k. record { from = k.from; to = k.to; frame = k.bytes.items } };
}

/// The frames of a step are under way too, behind the others.
pub fn keep(
    under_way: &mut Vec<KeptFrame>,
    alloc: Global,
    outbox: &Outbox,
) -> Result<(), AllocError>
    ensures kept { OnOk result (under_way.new.items ≡ under_way.old.items ++ outbox.now) }
    ensures few { OnOk result (length under_way.new.items ≤ 2 ^ 32) }
{
    if under_way.len() + outbox.len() > MOST_FRAMES {
        return Err(AllocError);
    }
    for i in 0..outbox.len() {
        let bytes = Vec::from_slice(alloc, outbox.bytes(i))?;
        let (from, to) = (outbox.sender(i), outbox.receiver(i));
        under_way.push(KeptFrame { from, to, bytes })?;
    }
    Ok(())
}
