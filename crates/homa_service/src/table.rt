// The services of the hosts, and spares.
ghost use Rattle.std.specs.Prelude.{◌≡◌, ◌<◌, ◌≤◌, ◌↔◌, [], None, Some, length, map, take, drop, slice_set, IfOk, OnOk, OnErr, IsErr, IsSome, IsNone};

use crate::Service;
use homa_plain::{HostId, MOST_SERVICES};
use std::alloc::{AllocError, Global};

/// A place for each host, which is empty while the host's service is lent, and the services that no host has yet.
/// Contracts see both as lists.
#[derive(Drop)]
pub struct ServiceTable<S> {
    places: Vec<Option<S>>,
    spares: Vec<S>,
}

/// No spare is left.
#[derive(Clone, Copy, Debug, PartialEq, Eq)]
pub struct NoSpare;

impl<S: Service> ServiceTable<S> {
    ghost use Rattle.homa_service.specs.Table.{places, spares, place_of, last_of, front_of};

    /// Box h serves host h, and the boxes from `hosts` on are the spares, in their order. Only this takes memory.
    pub fn open(alloc: Global, mut boxes: Vec<S>, hosts: u32) -> Result<ServiceTable<S>, AllocError>
        requires enough { hosts ≤ length boxes.items }
        requires at_most { length boxes.items ≤ MOST_SERVICES }
        ensures places { IfOk result (λ table. places table ≡ map Some (take hosts boxes.items)) }
        ensures spares { IfOk result (λ table. spares table ≡ drop hosts boxes.items) }
    {
        let spares = boxes.split_off(hosts as usize)?;
        let mut places = Vec::with_capacity(alloc, boxes.len())?;
        for service in boxes {
            places.push(Some(service))?;
        }
        Ok(ServiceTable { places, spares })
    }

    /// Takes the host's service out of its place.
    pub fn take(&mut self, host: HostId) -> S
        requires { IsSome (place_of (places self.old) host.0) }
        ensures seat { place_of (places self.old) host.0 ≡ Some result }
        ensures places { places self.new ≡ slice_set (places self.old) host.0 None }
        ensures spares { spares self.new ≡ spares self.old }
    {
        self.places[host.0 as usize].take().unwrap()
    }

    /// Fills the host's place again.
    pub fn put_back(&mut self, host: HostId, service: S)
        requires host { host.0 < length (places self.old) }
        requires vacant { IsNone (place_of (places self.old) host.0) }
        ensures places { places self.new ≡ slice_set (places self.old) host.0 (Some service) }
        ensures spares { spares self.new ≡ spares self.old }
    {
        let place = &mut self.places[host.0 as usize];
        *place = Some(service);
    }

    /// Drops the host's service, and puts the last spare in its place. If no spare is left, nothing changes.
    pub fn replace(&mut self, host: HostId) -> Result<(), NoSpare>
        requires { IsSome (place_of (places self.old) host.0) }
        ensures none { IsErr result ↔ (spares self.old ≡ []) }
        ensures places { OnOk result
            (places self.new ≡ slice_set (places self.old) host.0 (last_of (spares self.old))) }
        ensures spares { OnOk result (spares self.new ≡ front_of (spares self.old)) }
        ensures err_places { OnErr result (places self.new ≡ places self.old) }
        ensures err_spares { OnErr result (spares self.new ≡ spares self.old) }
    {
        let Some(service) = self.spares.pop() else {
            return Err(NoSpare);
        };
        self.places[host.0 as usize] = Some(service);
        Ok(())
    }
}
