// What the lines before `go` said so far.
ghost use Rattle.std.specs.Prelude.{◌≡◌, map, length, false, IfOk, IfSome, OnOk};
ghost use Rattle.std.specs.List.{All};
ghost use Rattle.std.specs.Option.{option_map};
ghost use Rattle.node_runs.specs.Script as script;
ghost use Rattle.node_script.specs.Setup.{place_seen, naming_seen, heading_seen};
ghost use Rattle.node_script.specs.Heads.{IsHead, IsGood, IsWithin, IsPlaced, IsSetup, IsSound, places_seen, is_go, head_after, first_head};
ghost use Rattle.node_script.specs.Stops.{has_failed_read};

use crate::heading::Heading;
use crate::place::{Naming, Place};
use crate::setup::Setup;
use crate::stop::SetupStop;
use homa_plain::{ScriptFault, Settings};
use std::alloc::{AllocError, Global};

// One more host than there may be.
const MOST_NAMED: usize = 33;

/// What the lines said so far.
#[derive(Drop)]
pub(crate) struct Head {
    settings: Settings,
    // Of those named, the first 33.
    named: Vec<Naming>,
    end: Option<u64>,
    turns: Option<u64>,
}

// The place that was given to a host, where it was given exactly one.
fn place_given(named: &[Naming], host: u32) -> Option<Place>
    requires placed { All (λ n. IsPlaced n.place) named.now }
    ensures given { option_map place_seen result ≡ script.single (script.given_to host (map naming_seen named.now)) }
    ensures placed { IfSome result IsPlaced }
{
    let mut found = None;
    for naming in named {
        if u32::from(naming.host.0) == host {
            if found.is_some() {
                return None;
            }
            found = Some(naming.place);
        }
    }
    found
}

// The places of so many hosts, where each was given exactly one.
fn places_from(
    alloc: Global,
    named: &[Naming],
    hosts: u32,
) -> Result<Option<Vec<Place>>, AllocError>
    requires placed { All (λ n. IsPlaced n.place) named.now }
    ensures given { IfOk result (λ places. option_map places_seen places ≡ script.places_from 0 hosts (map naming_seen named.now)) }
    ensures placed { IfOk result (λ found. IfSome found (λ places. All IsPlaced places.items)) }
    ensures count { IfOk result (λ found. IfSome found (λ places. length places.items ≡ hosts)) }
{
    let mut places = Vec::with_capacity(alloc, hosts as usize)?;
    for host in 0..hosts {
        let Some(place) = place_given(named, host) else {
            return Ok(None);
        };
        places.push(place)?;
    }
    Ok(Some(places))
}

// The place of each host, where each was named once, and none besides.
fn places_in(alloc: Global, named: &[Naming], hosts: u32) -> Result<Option<Vec<Place>>, AllocError>
    requires placed { All (λ n. IsPlaced n.place) named.now }
    ensures given { IfOk result (λ places. option_map places_seen places ≡ script.places_in hosts (map naming_seen named.now)) }
    ensures placed { IfOk result (λ found. IfSome found (λ places. All IsPlaced places.items)) }
    ensures count { IfOk result (λ found. IfSome found (λ places. length places.items ≡ hosts)) }
{
    if named.len() != hosts as usize {
        return Ok(None);
    }
    places_from(alloc, named, hosts)
}

impl Head {
    /// Nothing was said.
    pub(crate) fn new(alloc: Global) -> Result<Head, AllocError>
        ensures head { IfOk result (λ h. IsHead h first_head) }
        ensures good { IfOk result IsGood }
    {
        Ok(Head {
            settings: Settings::usual(),
            named: Vec::with_capacity(alloc, MOST_NAMED)?,
            end: None,
            turns: None,
        })
    }

    /// A line says this; answers whether it is `go`.
    pub(crate) fn says(&mut self, heading: Heading) -> Result<bool, AllocError>
        requires within { IsWithin heading }
        requires good { IsGood self.old }
        ensures go { IfOk result (λ go. go ≡ is_go (heading_seen heading)) }
        ensures head { OnOk result ((head : script.Head) → IsHead self.old head → IsHead self.new (head_after head (heading_seen heading))) }
        ensures good { OnOk result (IsGood self.new) }
    {
        match heading {
            Heading::Blank => Ok(false),
            Heading::Setting(name, n) => {
                self.settings.set(name, n);
                Ok(false)
            }
            Heading::Names(naming) => {
                if self.named.len() < MOST_NAMED {
                    self.named.push(naming)?;
                }
                Ok(false)
            }
            Heading::End(tick) => {
                self.end = Some(tick);
                Ok(false)
            }
            Heading::Turns(n) => {
                self.turns = Some(n);
                Ok(false)
            }
            Heading::Go => Ok(true),
        }
    }

    /// What `go` gives: the settings must be valid, and nothing may be missing.
    pub(crate) fn setup(&self, alloc: Global) -> Result<Setup, SetupStop>
        requires good { IsGood self.now }
        ensures setup { (head : script.Head) → IsHead self.now head → IsSetup (script.setup_of head) result }
        ensures sound { IfOk result IsSound }
        ensures no_read { has_failed_read result ≡ false }
    {
        self.settings.check()?;
        let Some(places) = places_in(alloc, &self.named, self.settings.hosts)? else {
            return Err(SetupStop::Fault(ScriptFault::Missing));
        };
        let Some(end) = self.end else {
            return Err(SetupStop::Fault(ScriptFault::Missing));
        };
        let Some(turns) = self.turns else {
            return Err(SetupStop::Fault(ScriptFault::Missing));
        };
        Ok(Setup {
            settings: self.settings,
            places,
            end,
            turns,
        })
    }
}
