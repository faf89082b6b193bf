// A host's clock, cutoffs and finished calls, and what its step tells.
// Rules: beside its row, a packet may make CUTOFFS, an ACK, BUSY, UNKNOWN or a RESEND go out.
ghost use Rattle.std.specs.Prelude.{◌≡◌, ◌+◌, ◌<◌, ◌≤◌, ◌^◌, ◌++◌, ◌∷◌, [], IfOk, IfSome, List, length};
ghost use Rattle.homa_plain.specs.Settings.{IsValid};
ghost use Rattle.homa_plain.specs.Rows.{ClientRow, ServerRow};
ghost use Rattle.homa_plain.specs.Rules.{Say, Did};
ghost use Rattle.homa_plain.specs.Host.{Host};
ghost use Rattle.homa_plain.specs.Work.{Work, tells, said as said_by};
ghost use Rattle.homa_plain.specs.Steps.{asked, served};
ghost use Rattle.host_state.specs.Control.{IsAt, IsSound};
ghost use Rattle.host_state.specs.Fields.{new_control, peer_of};
ghost use Rattle.host_state.specs.Saying.{AreSays, FitsSaid, IsOutcome, marks_said, frames_said, one_of, outcome_marks};
ghost use Rattle.host_state.specs.Saying.{outcome_frames};

use crate::cutoffs_packets::Peer;
use crate::marks::Marks;
use crate::saying::{Outcome, Said};
use homa_acks::AckBook;
use homa_cutoffs::{Levels, Recent};
use homa_plain::{CallId, Cutoffs, HostId, LAST_HOST_TICK, LONGEST_MESSAGE, Role, Settings};
use host_view::{Mark, Outbox};
use std::alloc::{AllocError, Global};
use std::marker::Model;

/// What a host has beside its rows.
#[derive(Drop)]
pub struct Control {
    pub(crate) settings: Settings,
    pub(crate) id: HostId,
    pub(crate) inc: u32,
    pub(crate) last: u64,
    pub(crate) own: Cutoffs,
    pub(crate) recent: Recent,
    pub(crate) opened: u64,
    pub(crate) peers: Vec<Peer>,
    pub(crate) acks: AckBook,
    pub(crate) marks: Marks,
}

impl Model for Control {
    ghost use Rattle.std.specs.Prelude.{map};
    ghost use Rattle.host_state.specs.Control.{Control as Seen, IsSound};
    ghost use Rattle.host_state.specs.Fields.{control_by, peer_of};

    ghost Value = { Seen };

    ghost view = { λ c. control_by c.settings c.id c.inc c.last c.own c.recent c.opened (map peer_of c.peers.items) c.acks c.marks };

    ghost invariant = { λ c. IsSound (control_by c.settings c.id c.inc c.last c.own c.recent c.opened (map peer_of c.peers.items) c.acks c.marks) };
}

impl Control {
    /// That of a host that has done nothing. Only this takes memory.
    pub fn open(
        alloc: Global,
        id: HostId,
        inc: u32,
        last: u64,
        settings: &Settings,
    ) -> Result<Control, AllocError>
        requires valid { IsValid settings.now }
        requires id { id.0 < settings.now.hosts }
        requires inc { 1 ≤ inc }
        requires last { last ≤ LAST_HOST_TICK }
        ensures { IfOk result (λ c. c ≡ new_control settings.now id inc last) }
    {
        let first = Cutoffs::first(settings.overcommit);
        let mut peers = Vec::with_capacity(alloc, settings.hosts as usize)?;
        for _ in 0..settings.hosts {
            peers.push(Peer {
                inc: 0,
                cutoffs: first,
            })?;
        }
        Ok(Control {
            settings: *settings,
            id,
            inc,
            last,
            own: first,
            recent: Recent::new(alloc)?,
            opened: 0,
            peers,
            acks: AckBook::new(alloc, settings.hosts)?,
            marks: Marks::new(alloc)?,
        })
    }

    /// The host's settings, which are valid.
    pub fn settings(&self) -> &Settings
        ensures settings { result.now ≡ self.now.settings }
        ensures sound { IsSound self.now }
    {
        &self.settings
    }

    /// The host's number.
    pub fn id(&self) -> HostId
        ensures { result ≡ self.now.id }
    {
        self.id
    }

    /// The host's own clock at its last step, and during a step.
    pub fn last(&self) -> u64
        ensures { result ≡ self.now.last }
    {
        self.last
    }

    /// The host's incarnation, at least 1.
    pub fn incarnation(&self) -> u32
        ensures { result ≡ self.now.inc }
    {
        self.inc
    }

    /// The marks of the step so far, in order.
    pub fn marks(&self) -> &[Mark]
        ensures { result.now ≡ self.now.marks }
    {
        self.marks.as_slice()
    }

    /// Begins a step: no entry is there yet.
    pub fn begin(&mut self, now: u64)
        requires { now ≤ LAST_HOST_TICK }
        ensures { self.new ≡ record self.old { last = now; marks = [] } }
    {
        self.last = now;
        self.marks.clear();
    }

    /// Drops the marks of the last step.
    pub fn tell_nothing(&mut self)
        ensures { self.new ≡ record self.old { marks = [] } }
    {
        self.marks.clear();
    }

    /// Adds an entry to the step.
    pub fn tell(&mut self, mark: Mark)
        requires { length self.old.marks < 128 }
        ensures { self.new ≡ record self.old { marks = self.old.marks ++ mark ∷ [] } }
    {
        self.marks.push(mark);
    }

    // Says what a rule says.
    fn say(&mut self, role: Role, id: CallId, server: HostId, said: Said, out: &mut Outbox)
        requires call { 1 ≤ id.inc }
        requires fits { FitsSaid role said }
        requires room { length self.old.marks + marks_said said ≤ 128 }
        requires frames { length out.old + frames_said said ≤ 64 }
        ensures step { (w : Work) (h : Host) (says : List Say) → h.inc ≡ self.old.inc → h.last ≡ self.old.last
            → AreSays said says → IsAt w self.old out.old
            → IsAt (tells (said_by self.old.settings h role id server says) w) self.new out.new }
        ensures same { self.new ≡ record self.old { marks = self.new.marks } }
        ensures marks { length self.new.marks ≡ length self.old.marks + marks_said said }
        ensures frames { length out.new ≡ length out.old + frames_said said }
    {
        match said {
            Said::Nothing => {}
            Said::Tell(mark) => self.marks.push(mark),
            Said::Post(body) => self.post(role, id, server, body, out),
        }
    }

    /// What follows from a rule that was carried out at a call's client, beside the row.
    pub fn settle_client(&mut self, id: CallId, server: HostId, outcome: Outcome, out: &mut Outbox)
        requires server { server.0 < self.old.settings.hosts }
        requires call { 1 ≤ id.inc }
        requires len { IfSome outcome.opened (λ len. len ≤ LONGEST_MESSAGE) }
        requires opened { self.old.tuning.opened + 1 < 2 ^ 64 }
        requires fits { FitsSaid Role.Client outcome.said }
        requires room { length self.old.marks + outcome_marks outcome ≤ 128 }
        requires frames { length out.old + outcome_frames outcome ≤ 64 }
        ensures step { (did : Did ClientRow) (w : Work) → IsOutcome did outcome → IsAt w self.old out.old
            → IsAt (asked self.old.settings id server did w) self.new out.new }
        ensures same { self.new ≡ record self.old { tuning = self.new.tuning; finished = self.new.finished; marks = self.new.marks } }
        ensures opened { self.new.tuning.opened ≡ self.old.tuning.opened + one_of outcome.opened }
        ensures marks { length self.new.marks ≤ length self.old.marks + outcome_marks outcome }
        ensures frames { length out.new ≤ length out.old + outcome_frames outcome }
        ensures sound { IsSound self.new }
    {
        self.note_if(outcome.opened);
        self.tell_cutoffs_if(Role::Client, id, server, outcome.version, out);
        self.say(Role::Client, id, server, outcome.said, out);
        // For the proof: the parts are sound.
        let _said = &self.settings;
        if outcome.finished {
            self.finish(id, server, out);
            // For the proof: they are so now.
            let _finished = &self.settings;
        }
    }

    /// What follows from a rule that was carried out at a call's server, beside the row.
    pub fn settle_server(&mut self, id: CallId, outcome: Outcome, out: &mut Outbox)
        requires call { 1 ≤ id.inc }
        requires len { IfSome outcome.opened (λ len. len ≤ LONGEST_MESSAGE) }
        requires opened { self.old.tuning.opened + 1 < 2 ^ 64 }
        requires fits { FitsSaid Role.Server outcome.said }
        requires room { length self.old.marks + outcome_marks outcome ≤ 128 }
        requires frames { length out.old + outcome_frames outcome ≤ 64 }
        ensures step { (did : Did ServerRow) (w : Work) → IsOutcome did outcome → IsAt w self.old out.old
            → IsAt (served self.old.settings id did w) self.new out.new }
        ensures same { self.new ≡ record self.old { tuning = self.new.tuning; marks = self.new.marks } }
        ensures opened { self.new.tuning.opened ≡ self.old.tuning.opened + one_of outcome.opened }
        ensures marks { length self.new.marks ≤ length self.old.marks + outcome_marks outcome }
        ensures frames { length out.new ≤ length out.old + outcome_frames outcome }
        ensures sound { IsSound self.new }
    {
        let server = self.id;
        self.note_if(outcome.opened);
        self.tell_cutoffs_if(Role::Server, id, server, outcome.version, out);
        self.say(Role::Server, id, server, outcome.said, out);
        // For the proof: the parts are sound.
        let _sound = &self.settings;
    }
}
