// What the world's lines tell.
ghost use Rattle.std.specs.Prelude.{◌≡◌, ◌+◌, ◌++◌, ◌-◌, ◌<◌, ◌^◌, length, min, false, OnOk};
ghost use Rattle.homa_plain.specs.Entries.{plain};
ghost use Rattle.simulated_network.specs.Runs.{all_made, made_by, one_made, sent_by, one_sent, Stays, IsHeard};
ghost use Rattle.simulated_network.specs.Ends.{is_open};

use crate::network::SimulatedNetwork;
use crate::receivers::is_known;
use crate::step::SentDatagram;
use call_figures::{CallEnd, SimCall};
use homa_plain::{Body, CallId, Entry, HostId, Role, Why};
use packet_network::{NetworkStop, SimPacket};

// A packet that a host sends, as its line tells it.
#[derive(Drop)]
struct SentPacket<'a> {
    number: u64,
    from: HostId,
    to: HostId,
    id: CallId,
    role: Role,
    level: u8,
    body: &'a Body,
    len: u32,
}

// How a call ended that failed so.
fn failed(why: Why) -> CallEnd
    ensures { is_open result ≡ false }
{
    match why {
        Why::Timeout => CallEnd::Timeout,
        Why::Forgotten => CallEnd::Forgotten,
    }
}

// How many bytes there are.
fn count(bytes: &[u8]) -> u32
    ensures { result ≡ min (length bytes.now) (2 ^ 32 - 1) }
{
    u32::try_from(bytes.len()).unwrap_or(u32::MAX)
}

impl SimulatedNetwork<'_> {
    /// Heeds what an entry of the last step's event tells: a call is made, a packet is sent, or a call goes on. A packet that is sent
    /// is this datagram. After an error the run is over.
    pub fn heed(
        &mut self,
        entry: &Entry<'_>,
        datagram: Option<SentDatagram>,
    ) -> Result<(), NetworkStop>
        ensures made { OnOk result (all_made self.new.calls ≡ all_made self.old.calls ++ made_by (plain entry.now) self.old.drawn self.old.network.moment) }
        ensures sent { OnOk result (self.new.network.fates.sent ≡ self.old.network.fates.sent + sent_by (plain entry.now) datagram) }
        ensures stays { Stays self.old self.new }
    {
        match *entry {
            Entry::Call {
                id,
                server,
                ref bytes,
                ..
            } => self.makes(id, server, count(bytes)),
            Entry::Send {
                number,
                from,
                to,
                id,
                role,
                level,
                ref body,
                ref payload,
                ..
            } => {
                let sent = SentPacket {
                    number,
                    from,
                    to,
                    id,
                    role,
                    level,
                    body,
                    len: count(payload),
                };
                self.sends(&sent, datagram)
            }
            _ => self.hears(entry),
        }
    }

    // The call of the last step is made.
    fn makes(&mut self, id: CallId, server: HostId, bytes: u32) -> Result<(), NetworkStop>
        ensures made { OnOk result (all_made self.new.calls ≡ all_made self.old.calls ++ one_made id server bytes self.old.drawn self.old.network.moment) }
        ensures network { self.new.network ≡ self.old.network }
        ensures drawn { self.new.drawn ≡ self.old.drawn }
        ensures load { self.new.load ≡ self.old.load }
        ensures trouble { self.new.trouble ≡ self.old.trouble }
    {
        let call = SimCall {
            id,
            server,
            request: bytes,
            drawn: self.arrivals.drawn().saturating_sub(1),
            made: self.packets.now(),
            first: None,
            ran: None,
            ended: 0,
            end: CallEnd::Open,
            resends: 0,
            controls: 0,
        };
        self.known.make(call)?;
        Ok(())
    }

    // A packet comes to its sender's network card, if its hosts are such that there may be.
    fn sends(
        &mut self,
        sent: &SentPacket<'_>,
        datagram: Option<SentDatagram>,
    ) -> Result<(), NetworkStop>
        ensures made { all_made self.new.calls ≡ all_made self.old.calls }
        ensures sent { OnOk result (self.new.network.fates.sent ≡ self.old.network.fates.sent + one_sent sent.now.from sent.now.to datagram) }
        ensures stays { Stays self.old self.new }
    {
        let Some(datagram) = datagram else {
            return Ok(());
        };
        if !is_known(sent.from) || !is_known(sent.to) {
            return Ok(());
        }
        let packet = self.packet(sent, datagram);
        let begun = self.packets.send(packet)?;
        if let Some(begun) = begun {
            self.known.leaves_card(self.packets.now(), &begun);
        }
        Ok(())
    }

    // The packet that is sent, as the network takes it.
    fn packet(&mut self, sent: &SentPacket<'_>, datagram: SentDatagram) -> SimPacket
        requires from { sent.now.from.0 < 32 }
        requires to { sent.now.to.0 < 32 }
        ensures made { all_made self.new.calls ≡ all_made self.old.calls }
        ensures network { self.new.network ≡ self.old.network }
        ensures drawn { self.new.drawn ≡ self.old.drawn }
        ensures load { self.new.load ≡ self.old.load }
        ensures trouble { self.new.trouble ≡ self.old.trouble }
    {
        let mark = self.known.says(
            &mut self.packets,
            sent.from,
            sent.id,
            sent.role,
            sent.body,
            sent.len,
        );
        self.window.sends(matches!(sent.body, Body::Cutoffs(_)));
        let overhead = self.known.experiment.network.overhead;
        SimPacket {
            number: sent.number,
            tick: datagram.tick,
            came: 0,
            bytes: datagram.len.saturating_add(overhead),
            left: mark.left,
            name: mark.name,
            piece: mark.piece,
            grant: mark.grant,
            from: sent.from,
            to: sent.to,
            level: sent.level,
            cause: mark.cause,
        }
    }

    // What other lines tell: how a call goes on.
    fn hears(&mut self, entry: &Entry<'_>) -> Result<(), NetworkStop>
        ensures { IsHeard self.old self.new }
    {
        match *entry {
            Entry::Run {
                id,
                ref response,
                ..
            } => self.known.runs(&mut self.packets, id, count(response)),
            Entry::Done { id, .. } => self.known.ends(&mut self.packets, id, CallEnd::Done),
            Entry::Fail { id, why } => self.known.ends(&mut self.packets, id, failed(why)),
            Entry::Drop { id, .. } => self.drops(id),
            Entry::FullRows { host, id, .. } | Entry::FullPages { host, id, .. } => {
                self.refuses(host, id);
            }
            Entry::Restart { host, inc } => self.known.restarts(&mut self.packets, host, inc)?,
            _ => {}
        }
        Ok(())
    }

    // A server gives up a request.
    fn drops(&mut self, id: CallId)
        ensures { IsHeard self.old self.new }
    {
        self.trouble.dropped = self.trouble.dropped.saturating_add(1);
        self.known.drops(&mut self.packets, id);
    }

    // A host refuses a message.
    fn refuses(&mut self, host: HostId, id: CallId)
        ensures { IsHeard self.old self.new }
    {
        self.trouble.refused = self.trouble.refused.saturating_add(1);
        self.known.refuses(&mut self.packets, host, id);
    }
}
