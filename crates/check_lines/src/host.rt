// What is kept of a host.
ghost use Rattle.std.specs.Prelude.{◌≡◌, Some, None, [], if◌then◌else◌, OnOk};
ghost use Rattle.std.specs.BTreeSet.{contains};
ghost use Rattle.check_lines.specs.Sends.{first_after};
ghost use Rattle.check_lines.specs.Traces.{incarnation_of, incoming_of, other};
ghost use Rattle.homa_plain.specs.Calls.{is_call, is_host, call_cmp};
ghost use Rattle.homa_plain.specs.declared.id.CallId.{CallId as ACall};

use homa_plain::{CallId, HostId, Role};
use std::alloc::{AllocError, Global};
use std::collections::BTreeSet;

/// Two are one host.
pub fn is_same_host(a: HostId, b: HostId) -> bool
    ensures { result ≡ is_host a b }
{
    a == b
}

// Notes whether a call is in a set.
fn note(calls: &mut BTreeSet<CallId>, id: CallId, is_in: bool) -> Result<(), AllocError>
    ensures { OnOk result ((q : ACall) → contains call_cmp calls.new q ≡ (if is_call id q then is_in else contains call_cmp calls.old q)) }
{
    if is_in {
        calls.insert(id)?;
    } else {
        calls.remove(&id);
    }
    Ok(())
}

/// A host: the number of its last `shift` line, the incarnation of its first `send` line, where that stands before its
/// first restart, the incarnations of its restarts, and the calls whose request or response is an incoming message here.
#[derive(Drop)]
pub struct Host {
    pub lead: Option<u32>,
    pub first: Option<u32>,
    pub restarts: Vec<u32>,
    pub asked: BTreeSet<CallId>,
    pub awaited: BTreeSet<CallId>,
}

impl Host {
    /// A host of which no line spoke.
    pub(crate) fn new(alloc: Global) -> Host
        ensures lead { result.lead ≡ None }
        ensures first { result.first ≡ None }
        ensures restarts { result.restarts.items ≡ [] }
        ensures asked { result.asked.keys ≡ [] }
        ensures awaited { result.awaited.keys ≡ [] }
    {
        Host {
            lead: None,
            first: None,
            restarts: Vec::new(alloc),
            asked: BTreeSet::new(alloc),
            awaited: BTreeSet::new(alloc),
        }
    }

    /// Notes whether a call's message is an incoming one here: its request, where its client sends it, or its response.
    pub(crate) fn note(&mut self, sender: Role, id: CallId, is_in: bool) -> Result<(), AllocError>
        ensures noted { OnOk result ((q : ACall)
            → incoming_of sender (Some self.new) q ≡ (if is_call id q then is_in else incoming_of sender (Some self.old) q)) }
        ensures other { OnOk result ((q : ACall) → incoming_of (other sender) (Some self.new) q ≡ incoming_of (other sender) (Some self.old) q) }
        ensures rest { OnOk result (self.new ≡ record self.old { asked = self.new.asked; awaited = self.new.awaited }) }
    {
        match sender {
            Role::Client => note(&mut self.asked, id, is_in),
            Role::Server => note(&mut self.awaited, id, is_in),
        }
    }

    /// The incarnation of a life, if the lines tell it.
    pub fn incarnation(&self, life: usize) -> Option<u32>
        ensures { result ≡ incarnation_of self.now life }
    {
        if life == 0 {
            return self.first;
        }
        self.restarts.get(life - 1).copied()
    }

    /// The incarnation of the first life, with a packet of this incarnation.
    pub(crate) fn first_with(&self, inc: u32) -> Option<u32>
        ensures { result ≡ first_after (Some self.now) inc }
    {
        if self.restarts.is_empty() && self.first.is_none() {
            return Some(inc);
        }
        self.first
    }
}
