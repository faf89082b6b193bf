// Two hosts, one call, and the frames between them.
ghost use Rattle.std.specs.Prelude.{◌≡◌, ◌≢◌, ◌+◌, ◌*◌, ◌<◌, ◌≤◌, ◌++◌, ◌∷◌, [], ◌^◌, false, IfOk, IfSome, OnOk, length, slice_get};
ghost use Rattle.homa_plain.specs.Settings.{IsValid};
ghost use Rattle.homa_plain.specs.Steps.{arrival_step, turn_step};
ghost use Rattle.homa_plain.specs.Quiet.{has_done, IsQuiet};
ghost use Rattle.homa_plain.specs.Entries.{plain};
ghost use Rattle.host_view.specs.Marks.{shown_entries};
ghost use Rattle.host_view.specs.Done.{HoldsSent, arriving};
ghost use Rattle.quiet_laws.specs.Ends.{IsCalm};
ghost use Rattle.quiet_call.specs.Stepped.{filled, HasStepped, MayStep};
ghost use Rattle.quiet_call.specs.Standing.{settings_of, rounds_of, hosts_of, frames_of, asked, answered, answers, own_clock, round_of, IsSameCall};
ghost use Rattle.quiet_call.specs.Standing.{CallGoesOn, opened, IsOpened};
ghost use Rattle.quiet_laws.specs.Hosts.{client_id, server_id};

use crate::filler::Filler;
use crate::frames::{KeptFrame, keep};
use homa_host::Host;
use homa_plain::{Entry, HostId, LAST_HOST_TICK, Settings};
use host_view::Outbox;
use msg_pool::Scratch;
use quiet_laws::quiet_calls_end;
use std::alloc::{AllocError, Global};
use text_lines::counting_bytes;

/// The host that calls.
const CLIENT: HostId = HostId(0);

/// The host that is called.
const SERVER: HostId = HostId(1);

/// The round by which a quiet call with a request of `n` bytes and a response of `m` is done.
pub fn bound(n: u32, m: u32) -> u64
    ensures { result ≡ 2 * (n + m) + 8 }
{
    2 * (u64::from(n) + u64::from(m)) + 8
}

/// The quiet call after so many rounds as its clock says.
#[derive(Drop)]
pub struct QuietCall {
    settings: Settings,
    // How many bytes the request has.
    request: u32,
    filler: Filler,
    clock: u64,
    hosts: Vec<Host>,
    under_way: Vec<KeptFrame>,
    outbox: Outbox,
    scratch: Scratch,
}

impl QuietCall {
    /// Host 0 has called host 1, with a request of `request` bytes; `response` bytes will be answered.
    pub fn start(
        alloc: Global,
        settings: &Settings,
        request: u32,
        response: u32,
    ) -> Result<QuietCall, AllocError>
        requires calm { IsCalm settings.now request response }
        ensures goes_on { IfOk result CallGoesOn }
        ensures settings { IfOk result (λ call. settings_of call ≡ settings.now) }
        ensures asked { IfOk result (λ call. asked call ≡ request) }
        ensures answered { IfOk result (λ call. answered call ≡ response) }
    {
        let mut call = QuietCall::open(alloc, settings, request, response)?;
        call.begin(alloc)?;
        Ok(call)
    }

    // Two hosts that have done nothing.
    fn open(
        alloc: Global,
        settings: &Settings,
        request: u32,
        response: u32,
    ) -> Result<QuietCall, AllocError>
        requires calm { IsCalm settings.now request response }
        ensures opened { IfOk result IsOpened }
        ensures settings { IfOk result (λ call. settings_of call ≡ settings.now) }
        ensures asked { IfOk result (λ call. asked call ≡ request) }
        ensures answered { IfOk result (λ call. answered call ≡ response) }
    {
        Ok(QuietCall {
            settings: *settings,
            request,
            filler: Filler::new(response),
            clock: 0,
            hosts: open_hosts(alloc, settings)?,
            under_way: Vec::new(alloc),
            outbox: Outbox::new(alloc)?,
            scratch: Scratch::new(alloc)?,
        })
    }

    // The client calls.
    fn begin(&mut self, alloc: Global) -> Result<(), AllocError>
        requires opened { IsOpened self.old }
        requires calm { IsCalm (settings_of self.old) (asked self.old) (answered self.old) }
        ensures goes_on { OnOk result (CallGoesOn self.new) }
        ensures same { IsSameCall self.old self.new }
    {
        let now = self.own_clock();
        let bytes = counting_bytes(alloc, self.request)?;
        let client = &mut self.hosts[CLIENT.0 as usize];
        let Ok(_) = client.call(SERVER, 0, bytes, now, &mut self.outbox) else {
            unreachable!()
        };
        keep(&mut self.under_way, alloc, &self.outbox)
    }

    /// Goes on until the call is done, and answers in which round that is.
    pub fn finish(&mut self, alloc: Global) -> Result<u64, AllocError>
        requires goes_on { CallGoesOn self.old }
        ensures quiet { IfOk result (λ rounds. IsQuiet (settings_of self.old) (asked self.old) (answered self.old) rounds) }
        ensures within { IfOk result (λ rounds. rounds ≤ 2 * (asked self.old + answered self.old) + 8) }
    {
        // By this law there is such a round, within the bound.
        quiet_calls_end();
        let most = bound(self.request, self.filler.size());
        while self.clock < most {
            if self.round(alloc)? {
                return Ok(self.clock);
            }
        }
        unreachable!()
    }

    /// Delivers the frames under way, in order, and then is one tick. Whether the call was done in this round.
    pub fn round(&mut self, alloc: Global) -> Result<bool, AllocError>
        requires goes_on { CallGoesOn self.old }
        ensures done { IfOk result (λ done. done ≡ (round_of self.old (rounds_of self.old + 1)).done) }
        ensures goes_on { IfOk result (λ done. done ≡ false → CallGoesOn self.new) }
        ensures clock { OnOk result (rounds_of self.new ≡ rounds_of self.old + 1) }
        ensures same { IsSameCall self.old self.new }
    {
        let frames = std::mem::replace(&mut self.under_way, Vec::new(alloc));
        let mut done = false;
        for frame in &frames {
            done |= self.deliver(alloc, frame)?;
        }
        self.clock += 1;
        done |= self.turn(alloc, CLIENT)?;
        done |= self.turn(alloc, SERVER)?;
        Ok(done)
    }

    // A frame comes to its receiver. Whether the step told that the call was done.
    fn deliver(&mut self, alloc: Global, frame: &KeptFrame) -> Result<bool, AllocError>
        requires clock { own_clock self.old ≤ LAST_HOST_TICK }
        requires to { frame.now.to.0 < length (hosts_of self.old) }
        requires may { IfSome (slice_get (hosts_of self.old) frame.now.to.0) (MayStep (own_clock self.old)) }
        requires from { IfSome (slice_get (hosts_of self.old) frame.now.to.0) (λ h. frame.now.from.0 < h.settings.hosts) }
        requires other { IfSome (slice_get (hosts_of self.old) frame.now.to.0) (λ h. frame.now.from ≢ h.host.id) }
        requires served { answers self.old < 2 ^ 63 }
        ensures came { IfOk result (λ done. HasStepped (own_clock self.old) frame.now.to
            (λ h. arrival_step h.settings h.host (own_clock self.old) (arriving h frame.now.from frame.now.frame) (filled (answered self.old))) done
            (hosts_of self.old) (hosts_of self.new) (frames_of self.old) (frames_of self.new)) }
        ensures served { OnOk result (answers self.new ≤ answers self.old + 1) }
        ensures clock { rounds_of self.new ≡ rounds_of self.old }
        ensures same { IsSameCall self.old self.new }
    {
        let now = self.own_clock();
        self.hosts[frame.to.0 as usize].deliver(
            alloc,
            frame.from,
            &frame.bytes,
            now,
            &mut self.filler,
            &mut self.outbox,
            &mut self.scratch,
        )?;
        self.take_up(alloc, frame.to)
    }

    // A host has its turn. Whether the step told that the call was done.
    fn turn(&mut self, alloc: Global, host: HostId) -> Result<bool, AllocError>
        requires clock { own_clock self.old ≤ LAST_HOST_TICK }
        requires host { host.0 < length (hosts_of self.old) }
        requires may { IfSome (slice_get (hosts_of self.old) host.0) (MayStep (own_clock self.old)) }
        ensures turned { IfOk result (λ done. HasStepped (own_clock self.old) host (λ h. turn_step h.settings h.host (own_clock self.old)) done
            (hosts_of self.old) (hosts_of self.new) (frames_of self.old) (frames_of self.new)) }
        ensures served { answers self.new ≡ answers self.old }
        ensures clock { rounds_of self.new ≡ rounds_of self.old }
        ensures same { IsSameCall self.old self.new }
    {
        let now = self.own_clock();
        self.hosts[host.0 as usize].turn(now, &mut self.outbox);
        self.take_up(alloc, host)
    }

    // The frames of a host's step are under way. Whether the step told that the call was done.
    fn take_up(&mut self, alloc: Global, host: HostId) -> Result<bool, AllocError>
        requires host { host.0 < length (hosts_of self.old) }
        requires sent { IfSome (slice_get (hosts_of self.old) host.0) (λ h. HoldsSent h self.old.outbox) }
        ensures kept { OnOk result (frames_of self.new ≡ frames_of self.old ++ self.old.outbox) }
        ensures few { OnOk result (length (frames_of self.new) ≤ 2 ^ 32) }
        ensures done { IfOk result (λ done. IfSome (slice_get (hosts_of self.old) host.0) (λ h. done
            ≡ has_done (shown_entries h self.old.outbox self.old.scratch))) }
        ensures same { self.new ≡ record self.old { under_way = self.new.under_way } }
    {
        keep(&mut self.under_way, alloc, &self.outbox)?;
        Ok(tells_done(&self.hosts[host.0 as usize], &self.outbox, &self.scratch))
    }

    // The own clock of each host.
    fn own_clock(&self) -> u64
        requires { own_clock self.now ≤ LAST_HOST_TICK }
        ensures { result ≡ own_clock self.now }
    {
        self.clock + u64::from(self.settings.skew)
    }
}

// Both hosts, with no calls.
fn open_hosts(alloc: Global, settings: &Settings) -> Result<Vec<Host>, AllocError>
    requires valid { IsValid settings.now }
    requires hosts { settings.now.hosts ≡ 2 }
    ensures { IfOk result (λ hosts. hosts.items ≡ opened settings.now client_id ∷ opened settings.now server_id ∷ []) }
{
    let client = Host::open(alloc, CLIENT, 1, settings)?;
    let server = Host::open(alloc, SERVER, 1, settings)?;
    Ok(Vec::from_array(alloc, [client, server])?)
}

// Whether a host's last step told that a call is done.
fn tells_done(host: &Host, outbox: &Outbox, scratch: &Scratch) -> bool
    requires { HoldsSent host.now outbox.now }
    ensures { result ≡ has_done (shown_entries host.now outbox.now scratch.now) }
{
    for i in 0..host.entries() {
        if is_done(&host.entry(i, outbox, scratch)) {
            return true;
        }
    }
    false
}

// Whether an entry says that a call is done.
fn is_done(entry: &Entry<'_>) -> bool
    ensures { result ≡ has_done (plain entry.now ∷ []) }
{
    matches!(entry, Entry::Done { .. })
}
