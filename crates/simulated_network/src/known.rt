// What is known of calls and their messages.
ghost use Rattle.std.specs.Prelude.{◌≡◌, ◌++◌, ◌∷◌, [], true, false, Some, IfOk, OnOk, slice_get};
ghost use Rattle.simulated_network.specs.Runs.{made_of, all_made};
ghost use Rattle.simulated_network.specs.Ends.{is_open, unended_of};

use crate::mark::PacketMark;
use crate::outcome::is_measured;
use crate::receivers::{begins, closes, completes};
use call_figures::{CallEnd, SimCall, SimCalls, Transfer, Transfers};
use experiment::Experiment;
use homa_plain::{Body, CallId, HostId, Role};
use packet_network::{Begun, PacketNetwork, Piece, PieceGrant, SimPacket};
use std::alloc::{AllocError, Global};

/// All calls that were made with their messages, and how many of those that are measured haven't ended.
#[derive(Drop)]
pub(crate) struct KnownCalls<'a> {
    pub(crate) experiment: &'a Experiment,
    pub(crate) calls: SimCalls,
    pub(crate) transfers: Transfers,
    unended: u64,
    // How many packets were sent of calls that aren't known.
    strange: u32,
    ghost counted: { unended ≡ unended_of experiment.now.load calls },
}

// The grant that a packet of the call at a place is, if it is one. A client grants its response, and a server its request.
fn grant_of(place: u32, role: Role, body: &Body) -> Option<PieceGrant> {
    match *body {
        Body::Grant { offset, .. } => Some(PieceGrant {
            call: place,
            upto: offset,
            is_response: role == Role::Client,
        }),
        _ => None,
    }
}

impl<'a> KnownCalls<'a> {
    /// No call was made.
    pub(crate) fn new(
        alloc: Global,
        experiment: &'a Experiment,
    ) -> Result<KnownCalls<'a>, AllocError>
        ensures calls { IfOk result (λ known. known.calls ≡ []) }
        ensures transfers { IfOk result (λ known. known.transfers ≡ []) }
        ensures load { IfOk result (λ known. known.experiment.now.load ≡ experiment.now.load) }
    {
        Ok(KnownCalls {
            experiment,
            calls: SimCalls::new(alloc, experiment.settings.hosts)?,
            transfers: Transfers::new(alloc),
            unended: 0,
            strange: 0,
        })
    }

    /// How many calls that are measured haven't ended.
    pub(crate) fn unended(&self) -> u64
        ensures { result ≡ self.now.unended }
    {
        self.unended
    }

    /// A call is made.
    #[tactic(auto, using(crate::proofs::EndLaws::made_counts))]
    pub(crate) fn make(&mut self, call: SimCall) -> Result<(), AllocError>
        requires { is_open call.end ≡ true }
        ensures made { OnOk result (self.new.calls ≡ self.old.calls ++ call ∷ []) }
        ensures experiment { self.new.experiment ≡ self.old.experiment }
    {
        self.calls.make(call.id, call)?;
        let more = u64::from(is_measured(&self.experiment.load, call.drawn));
        // No more haven't ended than were made.
        let most = self.calls.count() as u64;
        self.unended = self.unended.saturating_add(more).min(most);
        let unsched = self.experiment.settings.unsched;
        let request = Transfer::begun(call.request, unsched, call.made);
        self.transfers.begin(request, Transfer::unknown())
    }

    // A message leaves its receiver. If it isn't over there, it may come anew.
    fn leaves(&mut self, packets: &mut PacketNetwork, place: u32, is_response: bool, is_over: bool)
        ensures made { all_made self.new.calls ≡ all_made self.old.calls }
        ensures experiment { self.new.experiment ≡ self.old.experiment }
        ensures network { packets.new.state ≡ packets.old.state }
        ensures agenda { packets.new.agenda ≡ packets.old.agenda }
    {
        let Some(call) = self.calls.at(place) else {
            return;
        };
        let Some(message) = self.transfers.message(place, is_response) else {
            return;
        };
        if message.came && !message.over {
            let receiver = call.sender(!is_response);
            completes(
                packets,
                receiver,
                call.sender(is_response),
                message.is_short(),
            );
        }
        let message = Transfer {
            came: false,
            granted: 0,
            over: is_over,
            ..message
        };
        self.transfers.set(place, is_response, message);
    }

    /// A service ran, and answers so many bytes.
    pub(crate) fn runs(&mut self, packets: &mut PacketNetwork, id: CallId, bytes: u32)
        ensures made { all_made self.new.calls ≡ all_made self.old.calls }
        ensures experiment { self.new.experiment ≡ self.old.experiment }
        ensures network { packets.new.state ≡ packets.old.state }
        ensures agenda { packets.new.agenda ≡ packets.old.agenda }
    {
        let Some(place) = self.calls.place(id) else {
            return;
        };
        self.leaves(packets, place, false, true);
        let now = packets.now();
        if let Some(call) = self.calls.at(place) {
            let ran = call.ran.or(Some(now));
            self.change(place, SimCall { ran, ..call });
        }
        if let Some(message) = self.transfers.message(place, true) {
            let begun = Transfer {
                length: bytes,
                sent: 0,
                cleared: self.experiment.settings.unsched.min(bytes),
                since: now,
                ..message
            };
            self.transfers.set(place, true, begun);
        }
    }

    // The call at a place ends, if it is open.
    #[tactic(auto, using(crate::proofs::EndLaws::end_counts, crate::proofs::MadeLaws::changed_at))]
    fn end_at(&mut self, now: u64, place: u32, end: CallEnd)
        requires { is_open end ≡ false }
        ensures made { all_made self.new.calls ≡ all_made self.old.calls }
        ensures experiment { self.new.experiment ≡ self.old.experiment }
    {
        let Some(call) = self.calls.at(place) else {
            return;
        };
        if call.end != CallEnd::Open {
            return;
        }
        let less = u64::from(is_measured(&self.experiment.load, call.drawn));
        self.unended = self.unended.saturating_sub(less);
        let ended = now;
        self.calls.set(place, SimCall { ended, end, ..call });
    }

    /// A call ends at its client.
    pub(crate) fn ends(&mut self, packets: &mut PacketNetwork, id: CallId, end: CallEnd)
        requires { is_open end ≡ false }
        ensures made { all_made self.new.calls ≡ all_made self.old.calls }
        ensures experiment { self.new.experiment ≡ self.old.experiment }
        ensures network { packets.new.state ≡ packets.old.state }
        ensures agenda { packets.new.agenda ≡ packets.old.agenda }
    {
        if let Some(place) = self.calls.place(id) {
            self.leaves(packets, place, true, true);
            self.end_at(packets.now(), place, end);
        }
    }

    /// A server gives up a request, of which it knows nothing then. It may come anew.
    pub(crate) fn drops(&mut self, packets: &mut PacketNetwork, id: CallId)
        ensures made { all_made self.new.calls ≡ all_made self.old.calls }
        ensures experiment { self.new.experiment ≡ self.old.experiment }
        ensures network { packets.new.state ≡ packets.old.state }
        ensures agenda { packets.new.agenda ≡ packets.old.agenda }
    {
        if let Some(place) = self.calls.place(id) {
            self.leaves(packets, place, false, false);
        }
    }

    /// A host refuses a message, of which it knows nothing then.
    pub(crate) fn refuses(&mut self, packets: &mut PacketNetwork, host: HostId, id: CallId)
        ensures made { all_made self.new.calls ≡ all_made self.old.calls }
        ensures experiment { self.new.experiment ≡ self.old.experiment }
        ensures network { packets.new.state ≡ packets.old.state }
        ensures agenda { packets.new.agenda ≡ packets.old.agenda }
    {
        if let Some(place) = self.calls.place(id) {
            let is_response = host == id.client;
            self.leaves(packets, place, is_response, false);
        }
    }

    // A host that restarts loses what it knows of the call at a place.
    fn loses(&mut self, packets: &mut PacketNetwork, host: HostId, place: u32)
        ensures made { all_made self.new.calls ≡ all_made self.old.calls }
        ensures experiment { self.new.experiment ≡ self.old.experiment }
        ensures network { packets.new.state ≡ packets.old.state }
        ensures agenda { packets.new.agenda ≡ packets.old.agenda }
    {
        let Some(call) = self.calls.at(place) else {
            return;
        };
        if call.server == host {
            self.leaves(packets, place, false, false);
        }
        if call.id.client == host {
            self.leaves(packets, place, true, true);
            self.end_at(packets.now(), place, CallEnd::Restarted);
        }
    }

    /// A host restarts: its open calls end, and its next ones have another incarnation.
    pub(crate) fn restarts(
        &mut self,
        packets: &mut PacketNetwork,
        host: HostId,
        inc: u32,
    ) -> Result<(), AllocError>
        ensures made { all_made self.new.calls ≡ all_made self.old.calls }
        ensures experiment { self.new.experiment ≡ self.old.experiment }
        ensures network { packets.new.state ≡ packets.old.state }
        ensures agenda { packets.new.agenda ≡ packets.old.agenda }
    {
        let count = u32::try_from(self.calls.count()).unwrap_or(u32::MAX);
        for place in 0..count {
            self.loses(packets, host, place);
        }
        self.calls.begin_life(host, inc)
    }

    // What a piece says.
    fn piece(&mut self, now: u64, drawn: u32, piece: Piece) -> PacketMark
        ensures made { all_made self.new.calls ≡ all_made self.old.calls }
        ensures experiment { self.new.experiment ≡ self.old.experiment }
    {
        let mut times = None;
        if let Some(message) = self.transfers.message(piece.call, piece.is_response) {
            let mut message = message;
            if message.sends(now, piece.offset, piece.len) {
                times = Some(message.resent);
            }
            self.transfers.set(piece.call, piece.is_response, message);
        }
        PacketMark::piece(drawn, times, piece)
    }

    // A receiver grants a message up to a byte.
    fn grants(&mut self, packets: &mut PacketNetwork, receiver: HostId, grant: &PieceGrant)
        ensures made { all_made self.new.calls ≡ all_made self.old.calls }
        ensures experiment { self.new.experiment ≡ self.old.experiment }
        ensures network { packets.new.state ≡ packets.old.state }
        ensures agenda { packets.new.agenda ≡ packets.old.agenda }
    {
        let Some(message) = self.transfers.message(grant.call, grant.is_response) else {
            return;
        };
        let mut granted = message;
        granted.grants(grant.upto);
        self.transfers.set(grant.call, grant.is_response, granted);
        if message.came && !message.over && message.is_short() && !granted.is_short() {
            closes(packets, receiver);
        }
    }

    // The call at a place is now this, which was made as it was, and hasn't ended if it hadn't.
    #[tactic(auto, using(crate::proofs::EndLaws::unended_alike))]
    fn change(&mut self, place: u32, call: SimCall)
        requires made { (c : SimCall) → slice_get self.old.calls place ≡ Some c → made_of call ≡ made_of c }
        requires end { (c : SimCall) → slice_get self.old.calls place ≡ Some c → call.end ≡ c.end }
        ensures made { all_made self.new.calls ≡ all_made self.old.calls }
        ensures experiment { self.new.experiment ≡ self.old.experiment }
    {
        self.calls.set(place, call);
    }

    // A call's packet without a piece is counted.
    fn count(&mut self, place: u32, call: SimCall, is_resend: bool)
        requires { slice_get self.old.calls place ≡ Some call }
        ensures made { all_made self.new.calls ≡ all_made self.old.calls }
        ensures experiment { self.new.experiment ≡ self.old.experiment }
    {
        let counted = SimCall {
            controls: call.controls.saturating_add(1),
            resends: call.resends.saturating_add(u32::from(is_resend)),
            ..call
        };
        self.change(place, counted);
    }

    // The mark of a packet of a call that isn't known.
    fn strange(&mut self) -> PacketMark
        ensures made { all_made self.new.calls ≡ all_made self.old.calls }
        ensures experiment { self.new.experiment ≡ self.old.experiment }
    {
        self.strange = self.strange.saturating_add(1);
        PacketMark::control(u32::MAX, self.strange, None)
    }

    /// What a packet says that a host sends; its payload has so many bytes.
    pub(crate) fn says(
        &mut self,
        packets: &mut PacketNetwork,
        from: HostId,
        id: CallId,
        role: Role,
        body: &Body,
        len: u32,
    ) -> PacketMark
        ensures made { all_made self.new.calls ≡ all_made self.old.calls }
        ensures experiment { self.new.experiment ≡ self.old.experiment }
        ensures network { packets.new.state ≡ packets.old.state }
        ensures agenda { packets.new.agenda ≡ packets.old.agenda }
    {
        let Some(place) = self.calls.place(id) else {
            return self.strange();
        };
        let Some(call) = self.calls.at(place) else {
            return self.strange();
        };
        if let Body::Data { length, offset, .. } = *body {
            let piece = Piece {
                call: place,
                is_response: role == Role::Server,
                length,
                offset,
                len,
            };
            return self.piece(packets.now(), call.drawn, piece);
        }
        self.count(place, call, matches!(body, Body::Resend { .. }));
        let grant = grant_of(place, role, body);
        if let Some(grant) = grant {
            self.grants(packets, from, &grant);
        }
        PacketMark::control(call.drawn, call.controls, grant)
    }

    // A piece comes to its receiver, which may be the first of its message.
    fn comes(&mut self, packets: &mut PacketNetwork, from: HostId, to: HostId, piece: &Piece)
        ensures made { all_made self.new.calls ≡ all_made self.old.calls }
        ensures experiment { self.new.experiment ≡ self.old.experiment }
        ensures network { packets.new.state ≡ packets.old.state }
        ensures agenda { packets.new.agenda ≡ packets.old.agenda }
    {
        let Some(message) = self.transfers.message(piece.call, piece.is_response) else {
            return;
        };
        if message.came || message.over {
            return;
        }
        let granted = message.granted.max(self.experiment.settings.unsched);
        let known = Transfer {
            came: true,
            granted,
            ..message
        };
        self.transfers.set(piece.call, piece.is_response, known);
        begins(packets, to, from, known.is_short());
    }

    /// A packet is at its host.
    pub(crate) fn arrives(&mut self, packets: &mut PacketNetwork, packet: &SimPacket)
        ensures made { all_made self.new.calls ≡ all_made self.old.calls }
        ensures experiment { self.new.experiment ≡ self.old.experiment }
        ensures network { packets.new.state ≡ packets.old.state }
        ensures agenda { packets.new.agenda ≡ packets.old.agenda }
    {
        if let Some(piece) = packet.piece {
            self.comes(packets, packet.from, packet.to, &piece);
        }
        if let Some(grant) = packet.grant {
            self.clears(packets.now(), &grant);
        }
    }

    // A grant comes to its message's sender.
    fn clears(&mut self, now: u64, grant: &PieceGrant)
        ensures made { all_made self.new.calls ≡ all_made self.old.calls }
        ensures experiment { self.new.experiment ≡ self.old.experiment }
    {
        if let Some(message) = self.transfers.message(grant.call, grant.is_response) {
            let mut message = message;
            message.clears(now, grant.upto);
            self.transfers.set(grant.call, grant.is_response, message);
        }
    }

    /// A packet leaves its sender's network card.
    pub(crate) fn leaves_card(&mut self, now: u64, begun: &Begun)
        ensures made { all_made self.new.calls ≡ all_made self.old.calls }
        ensures experiment { self.new.experiment ≡ self.old.experiment }
    {
        let Some(piece) = begun.piece else {
            return;
        };
        if let Some(message) = self.transfers.message(piece.call, piece.is_response) {
            let in_card = message.in_card.saturating_add(begun.wait);
            let message = Transfer { in_card, ..message };
            self.transfers.set(piece.call, piece.is_response, message);
        }
        if piece.is_response || piece.offset > 0 {
            return;
        }
        if let Some(call) = self.calls.at(piece.call) {
            let first = call.first.or(Some(now));
            self.change(piece.call, SimCall { first, ..call });
        }
    }

    /// A packet leaves an output of the switch.
    pub(crate) fn leaves_output(&mut self, begun: &Begun)
        ensures made { all_made self.new.calls ≡ all_made self.old.calls }
        ensures experiment { self.new.experiment ≡ self.old.experiment }
    {
        let Some(piece) = begun.piece else {
            return;
        };
        if let Some(message) = self.transfers.message(piece.call, piece.is_response) {
            let at_output = message.at_output.saturating_add(begun.wait);
            let message = Transfer {
                at_output,
                ..message
            };
            self.transfers.set(piece.call, piece.is_response, message);
        }
    }
}
