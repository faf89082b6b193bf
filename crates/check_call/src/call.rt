// What is kept of a call.
ghost use Rattle.std.specs.Prelude.{◌≡◌, ◌&&◌, not, true, false, [], ◌∷◌, length, ℕ, IfSome, IfOk, OnOk, if◌then◌else◌};
ghost use Rattle.std.specs.Option.{option_map_or, option_map};
ghost use Rattle.plain_sets.specs.Maps.{get};
ghost use Rattle.plain_sets.specs.Numbers.{Numbers};
ghost use Rattle.homa_plain.specs.declared.id.HostId.{HostId as AHost};
ghost use Rattle.homa_plain.specs.declared.id.CallId.{CallId as ACall};
ghost use Rattle.homa_plain.specs.Calls.{is_host};
ghost use Rattle.trace_rules.specs.Parts as plain;
ghost use Rattle.trace_rules.specs.View.{Sent, View, Ends};
ghost use Rattle.check_call.specs.Spots as spots;
ghost use Rattle.check_call.specs.Kept.{part_of, IsCounted, IsPlain, Beside, StandsFor, packet_of, piece_is_forgotten};
ghost use Rattle.check_call.specs.Calls.{spot_in, beside, ran_in, IsSettled, counts_for, Leaves, IsDelivery};

use crate::packet::{Packet, Piece};
use crate::part::{Arrival, Part, more, settle};
use crate::spot::Spot;
use homa_plain::{HostId, Role};
use open_ranges::OpenRanges;
use std::alloc::{AllocError, Global};

/// A run of a call at its server: the life of the server in which it ran, and its response, unless that is the request.
#[derive(Drop)]
pub struct Run {
    pub life: usize,
    pub response: Option<Vec<u8>>,
}

/// In which lives a call's client and its server are.
#[derive(Clone, Copy)]
pub struct Lives {
    pub client: usize,
    pub server: usize,
}

/// A call, and what rests on its deliveries, as it was in these lives of its client and its server.
#[derive(Drop)]
pub struct Call {
    /// The server, of its `call` line.
    pub server: HostId,
    /// The service that it asks.
    pub service: u8,
    /// Whether the last byte of its request was sent.
    pub sent_last: bool,
    /// How many bytes its request has.
    pub size: u32,
    /// The bytes of its request.
    pub request: Vec<u8>,
    /// Its runs, the latest first.
    pub runs: Vec<Run>,
    /// The lives in which `spot` was so.
    pub lives: Lives,
    /// What rests on deliveries.
    pub spot: Spot,
    /// Which bytes of the request came, those of the last packet aside.
    pub asked: OpenRanges,
    /// Which bytes of the response came, the same.
    pub answered: OpenRanges,
}

/// What a delivery does to a call: what rests on it afterwards, what does if it is refused, and whether the request or
/// the response becomes whole.
#[derive(Clone, Copy)]
pub struct Delivered {
    pub now: Spot,
    pub refused: Spot,
    pub runs: bool,
    pub done: bool,
    pub forgotten: bool,
}

// Whether a part, if there is one, is whole.
fn is_whole(part: Option<Part>) -> bool
    ensures { (host peer : AHost) (set : Numbers) → IfSome part (IsCounted set)
        → result ≡ option_map_or plain.is_whole (option_map (part_of host peer set) part) false }
{
    match part {
        Some(part) => part.is_whole(),
        None => false,
    }
}

/// Whether a part becomes whole.
fn becomes_whole(before: Option<Part>, after: Part) -> bool
    ensures { (host peer : AHost) (set : Numbers) (id : ACall) → IfSome before (IsCounted set) → IsCounted set after
        → plain.made_whole id (option_map (part_of host peer set) before) (part_of host peer set after) ≡ (if result then id ∷ [] else []) }
{
    !is_whole(before) && after.is_whole()
}

/// Settles a part, if there is one.
fn settle_some(
    alloc: Global,
    set: &mut OpenRanges,
    part: Option<Part>,
) -> Result<Option<Part>, AllocError>
    ensures part { IfOk result (λ p. (host peer : AHost) → option_map (part_of host peer set.new) p ≡ option_map (part_of host peer set.old) part) }
    ensures counted { IfOk result (λ p. IfSome part (IsCounted set.old) → IfSome p (IsCounted set.new)) }
    ensures settled { IfOk result (λ p. IfSome p IsPlain) }
{
    match part {
        Some(part) => Ok(Some(settle(alloc, set, part)?)),
        None => Ok(None),
    }
}

impl Call {
    /// What rests on deliveries, in these lives: a restart of the client ends the call and loses what came of the
    /// response, and one of the server loses what came of the request.
    pub fn spot_in(&self, lives: Lives) -> Spot
        ensures { result ≡ spot_in self.now lives }
    {
        let same_client = self.lives.client == lives.client;
        let same_server = self.lives.server == lives.server;
        Spot {
            live: if same_client { self.spot.live } else { None },
            request: if same_server { self.spot.request } else { None },
            response: if same_client {
                self.spot.response
            } else {
                None
            },
            resends: self.spot.resends,
        }
    }

    /// Keeps what rests on deliveries, in these lives.
    pub fn keep(&mut self, lives: Lives, spot: Spot)
        ensures { self.new ≡ record self.old { lives = lives; spot = spot } }
    {
        self.lives = lives;
        self.spot = spot;
    }

    /// The call ran in this life of its server.
    pub fn ran_in(&self, life: usize) -> bool
        ensures { result ≡ ran_in self.now life }
    {
        self.runs.iter().any(|run| run.life == life)
    }

    /// Puts the bytes that came last into the set beside the part that they belong to: of what the client sends that of the
    /// request, and of what the server sends that of the response.
    pub fn settle(&mut self, alloc: Global, lives: Lives, role: Role) -> Result<(), AllocError>
        ensures spot { OnOk result ((client : AHost) (gap : ℕ) (s : spots.Spot) → StandsFor (beside client gap self.old) (spot_in self.old lives) s
            → StandsFor (beside client gap self.new) (spot_in self.new lives) s) }
        ensures settled { OnOk result (IsSettled role (spot_in self.new lives)) }
        ensures rest { OnOk result (self.new ≡ record self.old { lives = lives; spot = self.new.spot; asked = self.new.asked; answered = self.new.answered }) }
    {
        match role {
            Role::Client => self.settle_request(alloc, lives),
            Role::Server => self.settle_response(alloc, lives),
        }
    }

    // Puts the bytes of the request that came last into the set beside its part.
    fn settle_request(&mut self, alloc: Global, lives: Lives) -> Result<(), AllocError>
        ensures spot { OnOk result ((client : AHost) (gap : ℕ) (s : spots.Spot) → StandsFor (beside client gap self.old) (spot_in self.old lives) s
            → StandsFor (beside client gap self.new) (spot_in self.new lives) s) }
        ensures settled { OnOk result (IfSome (spot_in self.new lives).request IsPlain) }
        ensures rest { OnOk result (self.new ≡ record self.old { lives = lives; spot = self.new.spot; asked = self.new.asked }) }
    {
        let spot = self.spot_in(lives);
        let request = settle_some(alloc, &mut self.asked, spot.request)?;
        self.keep(lives, Spot { request, ..spot });
        Ok(())
    }

    // Puts the bytes of the response that came last into the set beside its part.
    fn settle_response(&mut self, alloc: Global, lives: Lives) -> Result<(), AllocError>
        ensures spot { OnOk result ((client : AHost) (gap : ℕ) (s : spots.Spot) → StandsFor (beside client gap self.old) (spot_in self.old lives) s
            → StandsFor (beside client gap self.new) (spot_in self.new lives) s) }
        ensures settled { OnOk result (IfSome (spot_in self.new lives).response IsPlain) }
        ensures rest { OnOk result (self.new ≡ record self.old { lives = lives; spot = self.new.spot; answered = self.new.answered }) }
    {
        let spot = self.spot_in(lives);
        let response = settle_some(alloc, &mut self.answered, spot.response)?;
        self.keep(lives, Spot { response, ..spot });
        Ok(())
    }

    /// Whether a packet counts: it came from the call's server to its client, and none of a later incarnation did before.
    pub fn counts(&self, packet: &Packet, spot: Spot) -> bool
        ensures { result ≡ counts_for self.now.server packet.now spot.live }
    {
        packet.role == Role::Server
            && packet.to == packet.id.client
            && self.server == packet.from
            && match spot.live {
                Some(latest) => latest <= packet.inc,
                None => false,
            }
    }

    /// What the delivery of a packet of this call does, at a line behind `place` lines. The part that its bytes belong to is
    /// settled.
    pub fn delivered(&self, packet: &Packet, place: u64, lives: Lives, unsched: u32) -> Delivered
        requires { IsSettled packet.now.role (spot_in self.now lives) }
        ensures { (v : View) (p : Sent) (s : spots.Spot) (gap : ℕ) → IsDelivery v self.now packet.now p place lives unsched
            → StandsFor (beside p.id.client gap self.now) (spot_in self.now lives) s
            → Leaves (beside p.id.client gap self.now) p.id result (spots.delivered_spot v p s) (spots.counted_spot v p s) (spots.due_spot v p s)
            (spots.due_if_refused v p s) }
    {
        let before = self.spot_in(lives);
        let counts = self.counts(packet, before);
        let delivered = heard(packet, counts, before);
        match packet.piece {
            Piece::Data { size, offset, len } => {
                let arrival = Arrival {
                    place,
                    unsched,
                    offset,
                    len,
                };
                if packet.role.is_of_client() {
                    self.asked_more(packet, lives, arrival, delivered)
                } else if counts {
                    self.answered_more(size, arrival, delivered)
                } else {
                    delivered
                }
            }
            Piece::Unknown { .. } => delivered,
            Piece::Other => delivered,
        }
    }

    // Whether bytes of the request are taken: the packet comes to the server, and the call hasn't run there in this life.
    fn takes(&self, packet: &Packet, lives: Lives) -> bool
        ensures { result ≡ (is_host packet.now.to self.now.server && not (ran_in self.now lives.server)) }
    {
        packet.to == self.server && !self.ran_in(lives.server)
    }

    // Bytes of the request come.
    fn asked_more(
        &self,
        packet: &Packet,
        lives: Lives,
        arrival: Arrival,
        delivered: Delivered,
    ) -> Delivered
        requires { IfSome delivered.now.request IsPlain }
        ensures { (v : View) (p : Sent) (b : Beside) (s t : spots.Spot) (due later : Ends)
            → IsDelivery v self.now packet.now p arrival.place lives arrival.unsched → b ≡ beside p.id.client b.gap self.now → arrival.len ≡ length p.payload
            → Leaves b p.id delivered s t due later
            → Leaves b p.id result (spots.request_spot v p arrival.offset (get v.calls p.id) s) t
            (spots.due_request v p arrival.offset (get v.calls p.id) due s) later }
    {
        if !self.takes(packet, lives) {
            return delivered;
        }
        let after = more(delivered.now.request, &self.asked, self.size, arrival);
        Delivered {
            now: Spot {
                request: Some(after),
                ..delivered.now
            },
            runs: becomes_whole(delivered.now.request, after),
            ..delivered
        }
    }

    // Bytes of the response come.
    fn answered_more(&self, size: u32, arrival: Arrival, delivered: Delivered) -> Delivered
        requires { IfSome delivered.now.response IsPlain }
        ensures { (v : View) (p : Sent) (b : Beside) (s t : spots.Spot) (due later : Ends) → v.place ≡ arrival.place → v.settings.unsched ≡ arrival.unsched
            → b ≡ beside p.id.client b.gap self.now → p.to ≡ b.client → p.from ≡ b.server → arrival.len ≡ length p.payload → spots.counts_at v p s ≡ true
            → Leaves b p.id delivered s t due later
            → Leaves b p.id result (spots.response_spot v p size arrival.offset s) t (spots.due_response v p size arrival.offset due s) later }
    {
        let after = more(delivered.now.response, &self.answered, size, arrival);
        Delivered {
            now: Spot {
                response: Some(after),
                ..delivered.now
            },
            done: becomes_whole(delivered.now.response, after),
            ..delivered
        }
    }
}

// A packet that counts says that its call is forgotten.
fn forgets(packet: &Packet, counts: bool) -> bool
    ensures { result ≡ (counts && piece_is_forgotten packet.now.piece) }
{
    counts && packet.piece.is_forgotten()
}

// What the delivery of a packet that may count does, where its bytes aren't admitted.
fn heard(packet: &Packet, counts: bool, spot: Spot) -> Delivered
    ensures leaves { (b : Beside) (v : View) (p : Sent) (s : spots.Spot) → packet.now ≡ packet_of p → counts ≡ spots.counts_at v p s → StandsFor b spot s
        → Leaves b p.id result (spots.counted_spot v p s) (spots.counted_spot v p s) (spots.due_if_refused v p s) (spots.due_if_refused v p s) }
    ensures request { IfSome spot.request IsPlain → IfSome result.now.request IsPlain }
    ensures response { IfSome spot.response IsPlain → IfSome result.now.response IsPlain }
{
    let refused = counted(packet, counts, spot);
    Delivered {
        now: refused,
        refused,
        runs: false,
        done: false,
        forgotten: forgets(packet, counts),
    }
}

// What rests on deliveries, with a packet that may count.
fn counted(packet: &Packet, counts: bool, spot: Spot) -> Spot
    ensures stands { (b : Beside) (s : spots.Spot) (p : Sent) → packet.now ≡ packet_of p → StandsFor b spot s
        → StandsFor b result (if counts then spots.heard_spot p s else s) }
    ensures request { IfSome spot.request IsPlain → IfSome result.request IsPlain }
    ensures response { IfSome spot.response IsPlain → IfSome result.response IsPlain }
{
    if counts {
        spot.heard(packet.inc, packet.piece.is_unknown())
    } else {
        spot
    }
}
