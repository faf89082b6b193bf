// What a host counts from its opening on.
ghost use Rattle.std.specs.Prelude.{◌≡◌};
ghost use Rattle.host_view.specs.declared.outbox.SentFrame.{SentFrame};
ghost use Rattle.driven_host.specs.Counts.{none_counted, with_received, with_asked, with_mark, with_frame, with_marks, with_frames, counted};

use homa_host::Host;
use homa_plain::Why;
use host_view::{Mark, Outbox};

/// The kind of a RESEND, in the second byte of a frame.
const RESEND: u8 = 3;

/// How often each thing happened. A count stands still at 2^64 - 1.
#[derive(Clone, Copy, Debug, PartialEq, Eq)]
pub struct HostCounts {
    /// Calls that began.
    pub calls: u64,
    /// Calls that are done.
    pub done: u64,
    /// Calls that timed out.
    pub timeouts: u64,
    /// Calls that failed since their server forgot them.
    pub forgotten: u64,
    /// Datagrams that asked for an answer when none was in hand.
    pub asked: u64,
    /// Requests that were answered.
    pub ran: u64,
    /// Frames that were sent.
    pub sent: u64,
    /// Their bytes.
    pub sent_bytes: u64,
    /// Datagrams that were a step.
    pub received: u64,
    /// Frames that ask for bytes again.
    pub resends_sent: u64,
    /// Datagrams that are no packet.
    pub junk: u64,
    /// Packets that came too late.
    pub stale: u64,
    /// Requests for which there was no row.
    pub no_row: u64,
    /// Messages for which there were too few pages.
    pub no_pages: u64,
    /// Pieces that would have left too many gaps.
    pub gaps: u64,
    /// Requests that were given up before they were whole.
    pub dropped: u64,
    /// Calls that were served and are over.
    pub buried: u64,
    /// Calls that were served and are forgotten.
    pub freed: u64,
}

impl HostCounts {
    /// Nothing happened yet.
    pub fn none() -> HostCounts
        ensures { result ≡ none_counted }
    {
        HostCounts {
            calls: 0,
            done: 0,
            timeouts: 0,
            forgotten: 0,
            asked: 0,
            ran: 0,
            sent: 0,
            sent_bytes: 0,
            received: 0,
            resends_sent: 0,
            junk: 0,
            stale: 0,
            no_row: 0,
            no_pages: 0,
            gaps: 0,
            dropped: 0,
            buried: 0,
            freed: 0,
        }
    }

    /// Counts what a host's last step told and sent.
    pub(crate) fn add_step(&mut self, host: &Host, out: &Outbox)
        ensures { self.new ≡ counted self.old host.now.marks out.now }
    {
        self.add_marks(host);
        self.add_frames(out);
    }

    /// Counts a delivery that was a step, and what that told and sent.
    pub(crate) fn add_delivery(&mut self, host: &Host, out: &Outbox)
        ensures { self.new ≡ counted (with_received self.old) host.now.marks out.now }
    {
        self.received = self.received.saturating_add(1);
        self.add_step(host, out);
    }

    /// Counts a delivery that asked for an answer.
    pub(crate) fn add_asking(&mut self)
        ensures { self.new ≡ with_asked self.old }
    {
        self.asked = self.asked.saturating_add(1);
    }

    // Counts the marks of a host's last step.
    fn add_marks(&mut self, host: &Host)
        ensures { self.new ≡ with_marks self.old host.now.marks }
    {
        for i in 0..host.entries() {
            self.add_mark(host.mark(i));
        }
    }

    // Counts frames.
    fn add_frames(&mut self, out: &Outbox)
        ensures { self.new ≡ with_frames self.old out.now }
    {
        for i in 0..out.len() {
            self.add_frame(out.bytes(i));
        }
    }

    // Counts a mark.
    fn add_mark(&mut self, mark: &Mark)
        ensures { self.new ≡ with_mark self.old mark.now }
    {
        match mark {
            Mark::Called { .. } => self.calls = self.calls.saturating_add(1),
            Mark::Done { .. } => self.done = self.done.saturating_add(1),
            Mark::Failed {
                why: Why::Timeout,
                ..
            } => self.timeouts = self.timeouts.saturating_add(1),
            Mark::Failed {
                why: Why::Forgotten,
                ..
            } => self.forgotten = self.forgotten.saturating_add(1),
            Mark::Ran { .. } => self.ran = self.ran.saturating_add(1),
            Mark::Junk => self.junk = self.junk.saturating_add(1),
            Mark::Stale { .. } => self.stale = self.stale.saturating_add(1),
            Mark::NoRow { .. } => self.no_row = self.no_row.saturating_add(1),
            Mark::NoPages { .. } => self.no_pages = self.no_pages.saturating_add(1),
            Mark::TooManyGaps { .. } => self.gaps = self.gaps.saturating_add(1),
            Mark::Dropped { .. } => self.dropped = self.dropped.saturating_add(1),
            Mark::Entombed { .. } => self.buried = self.buried.saturating_add(1),
            Mark::Freed { .. } => self.freed = self.freed.saturating_add(1),
            Mark::Balanced { .. } | Mark::Sent { .. } => {}
        }
    }

    // Counts a frame.
    fn add_frame(&mut self, bytes: &[u8])
        ensures { (f : SentFrame) → f.frame ≡ bytes.now → self.new ≡ with_frame self.old f }
    {
        self.sent = self.sent.saturating_add(1);
        self.sent_bytes = self.sent_bytes.saturating_add(bytes.len() as u64);
        if bytes.len() > 1 && bytes[1] == RESEND {
            self.resends_sent = self.resends_sent.saturating_add(1);
        }
    }
}
