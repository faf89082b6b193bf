// The messages, in a heap for each sender and one heap over the senders.
// Rules: overcommitment (GRANTs to a few messages at a time, one of each sender), and SRPT (the fewest missing bytes
// first). `homa_host/src/grants` says how far each is granted, and `grant_priorities` there at which
// priority.
ghost use Rattle.std.specs.Prelude.{◌≡◌, ℕ, ◌<◌, ◌≤◌, ◌+◌, [], map, length, is_some, IfOk, IsSome};
ghost use Rattle.std.specs.Option.{option_map, ForSome};
ghost use Rattle.place_heap.specs.Held.{list_of};
ghost use Rattle.homa_plain.specs.Settings.{IsValid};
ghost use Rattle.homa_plain.specs.Grants.{chosen_by};
ghost use Rattle.homa_grants.specs.Entries.{entry_key, entry_peer, without, entry_of, entered, with_remaining, IsOwnOrder, placed_if};
ghost use Rattle.homa_grants.specs.Books.{IsSound};
ghost use Rattle.homa_grants.specs.Heaps.{slot_items, peer_items, message_at};

use arrayvec::ArrayVec;
use homa_plain::{HostId, Settings};
use host_heap::{first, first_k, key, replace};
use place_heap::{Key, PlaceHeap, PlaceHeaps};
use std::alloc::{AllocError, Global};
use std::marker::Model;

/// The incoming messages that aren't whole, each under the slot of its row, by how many bytes are missing.
#[derive(Drop)]
pub struct GrantBook {
    // The slots of each peer's messages.
    heaps: PlaceHeaps,
    // The peers that have a message, by the key of their first one.
    peers: PlaceHeap,
    // The peer under which each slot stands, if it does.
    peer_of: Vec<Option<HostId>>,
    // How many messages are chosen.
    most: u32,
}

impl Model for GrantBook {
    ghost use Rattle.homa_grants.specs.Books.{Book, book_code};

    ghost Value = { Book };

    ghost coded = { book_code };

    ghost use Rattle.std.specs.Prelude.{length};
    ghost use Rattle.homa_grants.specs.Heaps.{messages, AreKept};

    ghost view = { λ b. record {
      slots = length b.peer_of.items;
      hosts = length b.heaps.list;
      most = b.most;
      entries = messages b.heaps.list;
    } };

    ghost invariant = { λ b. AreKept b.heaps.list b.peers b.peer_of.items
        (record {
          slots = length b.peer_of.items;
          hosts = length b.heaps.list;
          most = b.most;
          entries = messages b.heaps.list;
        }) };
}

impl GrantBook {
    /// A book without messages, with a slot for each row that a host may have. Fails where memory runs out.
    pub fn open(alloc: Global, settings: &Settings) -> Result<GrantBook, AllocError>
        requires { IsValid settings.now }
        ensures slots { IfOk result (λ book. book.slots ≡ settings.now.calls + settings.now.served) }
        ensures hosts { IfOk result (λ book. book.hosts ≡ settings.now.hosts) }
        ensures most { IfOk result (λ book. book.most ≡ settings.now.overcommit) }
        ensures empty { IfOk result (λ book. book.entries ≡ []) }
        ensures sound { IfOk result IsSound }
    {
        let slots = settings.slots();
        Ok(GrantBook {
            heaps: PlaceHeaps::open(alloc, settings.hosts, slots)?,
            peers: PlaceHeap::new(alloc, settings.hosts)?,
            peer_of: vec![in alloc; None; slots as usize]?,
            most: settings.overcommit,
        })
    }

    /// Enters a message under a slot, in place of what stands there. No other slot's message may have its order.
    pub fn enter(&mut self, slot: u32, peer: HostId, remaining: u32, order: u64)
        requires slot { slot < self.old.slots }
        requires peer { peer.0 < self.old.hosts }
        requires order { IsOwnOrder slot order self.old.entries }
        ensures entered { self.new ≡ record self.old {
          entries = entered
              (record { slot = slot; peer = peer.0; remaining = remaining; order = order }) self.old.entries;
        } }
        ensures sound { IsSound self.new }
    {
        self.clear(slot, peer);
        let key = Key {
            first: u64::from(remaining),
            second: order,
        };
        self.put(slot, peer, Some(key));
    }

    /// Changes how many bytes of a slot's message are missing.
    pub fn change(&mut self, slot: u32, remaining: u32)
        requires { IsSome (entry_of slot self.old.entries) }
        ensures changed { self.new ≡ record self.old {
          entries =
              with_remaining remaining (entry_of slot self.old.entries) self.old.entries;
        } }
        ensures sound { IsSound self.new }
    {
        let Some(peer) = self.peer_of[slot as usize] else {
            unreachable!()
        };
        let Some(mut key) = key(self.heaps.get(u32::from(peer.0)), slot) else {
            unreachable!()
        };
        key.first = u64::from(remaining);
        self.put(slot, peer, Some(key));
    }

    /// Takes the message of a slot out of the book, if there is one.
    pub fn leave(&mut self, slot: u32)
        requires { slot < self.old.slots }
        ensures left { self.new ≡ record self.old { entries = without slot self.old.entries } }
        ensures sound { IsSound self.new }
    {
        if let Some(peer) = self.peer_of[slot as usize] {
            self.put(slot, peer, None);
        }
    }

    /// Whether a message stands under a slot.
    pub fn holds(&self, slot: u32) -> bool
        requires { slot < self.now.slots }
        ensures { result ≡ is_some (entry_of slot self.now.entries) }
    {
        self.peer_of[slot as usize].is_some()
    }

    /// Makes `out` the slots of the messages that are granted to: of all in order the first few, at most 7, with
    /// different senders.
    pub fn choose(&self, out: &mut ArrayVec<u32, 8>)
        ensures chosen { out.new.items ≡
            map (λ e. e.slot) (chosen_by entry_peer entry_key self.now.most self.now.entries) }
        ensures few { length out.new.items ≤ self.now.most }
        ensures sound { IsSound self.now }
    {
        out.clear();
        if first(&self.peers).is_some() {
            self.push_chosen(out);
        }
    }

    // The same, with `out` empty. Room for the first peers is written where a message waits, and so not in most steps.
    fn push_chosen(&self, out: &mut ArrayVec<u32, 8>)
        requires { out.old.items ≡ [] }
        ensures chosen { out.new.items ≡
            map (λ e. e.slot) (chosen_by entry_peer entry_key self.now.most self.now.entries) }
        ensures few { length out.new.items ≤ self.now.most }
    {
        let mut peers = ArrayVec::new();
        first_k(&self.peers, self.most, &mut peers);
        for (peer, _) in peers.as_slice() {
            let heap = self.heaps.get(*peer);
            let Some((slot, _)) = first(heap) else {
                unreachable!()
            };
            out.push(slot);
        }
    }

    /// The heap of a peer's messages: their slots, in order.
    pub fn heap(&self, peer: HostId) -> &PlaceHeap
        requires { peer.0 < self.now.hosts }
        ensures { list_of result.now ≡ slot_items peer.0 self.now.entries }
    {
        self.heaps.get(u32::from(peer.0))
    }

    /// The heap over the peers that have a message, each by the key of its first one.
    pub fn peers(&self) -> &PlaceHeap
        ensures { list_of result.now ≡ peer_items self.now.entries }
    {
        &self.peers
    }

    // Takes the message of a slot out of the book where it is another peer's.
    fn clear(&mut self, slot: u32, peer: HostId)
        requires { slot < self.old.slots }
        ensures same { self.new ≡ record self.old { entries = self.new.entries } }
        ensures others { without slot self.new.entries ≡ without slot self.old.entries }
        ensures peer { ForSome (entry_of slot self.new.entries) (λ e. e.peer ≡ peer.0) }
        ensures orders { (order : ℕ) → IsOwnOrder slot order self.old.entries
            → IsOwnOrder slot order self.new.entries }
    {
        if self.peer_of[slot as usize].is_some_and(|other| other != peer) {
            self.leave(slot);
        }
    }

    // Gives a slot that stands under this peer, or nowhere, a key, or takes it out where there is none.
    fn put(&mut self, slot: u32, peer: HostId, key: Option<Key>)
        requires slot { slot < self.old.slots }
        requires peer { peer.0 < self.old.hosts }
        requires order { ForSome key (λ k. IsOwnOrder slot k.second self.old.entries) }
        requires same { ForSome (entry_of slot self.old.entries) (λ e. e.peer ≡ peer.0) }
        ensures put { self.new ≡ record self.old {
          entries = placed_if
              (option_map (λ k. message_at peer.0 (slot, k)) key) (without slot self.old.entries);
        } }
        ensures sound { IsSound self.new }
    {
        let host = u32::from(peer.0);
        self.heaps.replace(host, slot, key);
        let first = first(self.heaps.get(host)).map(|(_, key)| key);
        replace(&mut self.peers, host, first);
        self.peer_of[slot as usize] = key.map(|_| peer);
    }
}
