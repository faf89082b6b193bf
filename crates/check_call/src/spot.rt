// What rests on deliveries, of one call.
ghost use Rattle.std.specs.Prelude.{◌≡◌, IfSome};
ghost use Rattle.std.specs.Option.{option_map};
ghost use Rattle.plain_sets.specs.Numbers.{Numbers};
ghost use Rattle.homa_plain.specs.declared.id.HostId.{HostId};
ghost use Rattle.trace_rules.specs.Parts as plain;
ghost use Rattle.trace_rules.specs.View.{Sent};
ghost use Rattle.trace_rules.specs.Seen as seen;
ghost use Rattle.check_call.specs.Spots as spots;
ghost use Rattle.check_call.specs.Kept.{part_of, IsCounted, IsPlain, Beside, StandsFor, IsApart, changed, within, is_within_spot, is_incoming};

use crate::part::Part;
use crate::resends::{OwnTick, Resends};

/// What rests on deliveries, of one call: the greatest incarnation that counted while it is live, what has arrived of
/// its request and of its response, and its RESENDs.
#[derive(Clone, Copy)]
pub struct Spot {
    pub live: Option<u32>,
    pub request: Option<Part>,
    pub response: Option<Part>,
    pub resends: Resends,
}

/// What a line does to a call, whether a delivery before it in its block is taken back or not.
#[derive(Clone, Copy)]
pub enum Change {
    Nothing,
    Finished,
    Dropped,
    Renewed,
    Told { tick: OwnTick, gap: u32 },
    RaisedRequest { offset: u32 },
    RaisedResponse { offset: u32 },
}

// A part, if there is one, whose granted end is raised.
fn raised(part: Option<Part>, offset: u32) -> Option<Part>
    ensures part { (host peer : HostId) (set : Numbers) → IfSome part (IsCounted set)
        → option_map (plain.raised host peer offset) (option_map (part_of host peer set) part) ≡ option_map (part_of host peer set) result }
    ensures counted { (set : Numbers) → IfSome part (IsCounted set) → IfSome result (IsCounted set) }
{
    match part {
        Some(part) => Some(part.raised(offset)),
        None => None,
    }
}

impl Spot {
    /// Of a call that wasn't made.
    pub const EMPTY: Spot = Spot {
        live: None,
        request: None,
        response: None,
        resends: Resends::NONE,
    };

    /// Of a call that starts.
    pub const STARTED: Spot = Spot {
        live: Some(0),
        request: None,
        response: None,
        resends: Resends::NONE,
    };

    /// With a change.
    pub fn changed(self, change: Change) -> Spot
        ensures { (b : Beside) (s : spots.Spot) → IsApart b.gap change → StandsFor b self s → StandsFor b result (changed b change s) }
    {
        match change {
            Change::Nothing => self,
            Change::Finished => Spot {
                live: None,
                response: None,
                ..self
            },
            Change::Dropped => Spot {
                request: None,
                ..self
            },
            Change::Renewed => Spot {
                resends: Resends::NONE,
                ..self
            },
            Change::Told { tick, gap } => Spot {
                resends: self.resends.told(tick, gap),
                ..self
            },
            Change::RaisedRequest { offset } => Spot {
                request: raised(self.request, offset),
                ..self
            },
            Change::RaisedResponse { offset } => Spot {
                response: raised(self.response, offset),
                ..self
            },
        }
    }

    /// A packet of this incarnation counts: one of a later incarnation ends the response part, and every one but
    /// UNKNOWN renews the call.
    pub fn heard(self, inc: u32, is_unknown: bool) -> Spot
        ensures stands { (b : Beside) (s : spots.Spot) (p : Sent) → p.inc ≡ inc → seen.is_unknown p.body ≡ is_unknown → StandsFor b self s
            → StandsFor b result (spots.heard_spot p s) }
        ensures request { IfSome self.request IsPlain → IfSome result.request IsPlain }
        ensures response { IfSome self.response IsPlain → IfSome result.response IsPlain }
    {
        let later = match self.live {
            Some(latest) => latest < inc,
            None => 0 < inc,
        };
        Spot {
            live: Some(inc),
            request: self.request,
            response: if later { None } else { self.response },
            resends: if is_unknown {
                self.resends
            } else {
                Resends::NONE
            },
        }
    }

    /// Both messages are within their windows.
    pub fn is_within(self, window: u32) -> bool
        ensures { (b : Beside) (s : spots.Spot) → StandsFor b self s → result ≡ is_within_spot window s }
    {
        is_within(self.request, window) && is_within(self.response, window)
    }
}

// A part, if there is one, is within its window.
fn is_within(part: Option<Part>, window: u32) -> bool
    ensures { (host peer : HostId) (set : Numbers) → IfSome part (IsCounted set) → result ≡ within window (option_map (part_of host peer set) part) }
{
    match part {
        Some(part) => part.is_within(window),
        None => true,
    }
}

// A part, if there is one, is an incoming message.
fn is_message(part: Option<Part>) -> bool
    ensures { (host peer : HostId) (set : Numbers) → IfSome part (IsCounted set) → result ≡ is_incoming (option_map (part_of host peer set) part) }
{
    match part {
        Some(part) => part.is_message(),
        None => false,
    }
}

impl Spot {
    /// The request is an incoming message at its server.
    pub fn is_asked(self) -> bool
        ensures { (b : Beside) (s : spots.Spot) → StandsFor b self s → result ≡ is_incoming s.request }
    {
        is_message(self.request)
    }

    /// The response is an incoming message at the client.
    pub fn is_awaited(self) -> bool
        ensures { (b : Beside) (s : spots.Spot) → StandsFor b self s → result ≡ is_incoming s.response }
    {
        is_message(self.response)
    }
}
