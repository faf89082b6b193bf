//! The pool of pages and its leases.

ghost use Rattle.std.specs.Prelude.{◌≡◌, ◌+◌, ◌<◌, ◌≤◌, ◌↔◌, None, length, replicate, IfOk, IfErr, OnErr, IsErr};
ghost use Rattle.plain_sets.specs.Maps.{empty, get};
ghost use Rattle.msg_pool.specs.Bytes.{overwritten};
ghost use Rattle.msg_pool.specs.Pages.{pages_for};
ghost use Rattle.msg_pool.specs.Pool.{leased_pages, free_pages, bytes_of, IsLeaseOf, with_bytes, without};

use crate::block::{Block, PAGE};
use crate::pages::{Chain, Near, copy_chain, linked, nth_page, write_chain, zero_chain};
use slab::Slab;
use std::alloc::{AllocError, Global};
use std::marker::Model;

/// Pages of 4096 bytes for messages, of which each lease has as many as it needs.
#[derive(Drop)]
pub struct MsgPool {
    // The bytes of all pages.
    block: Block,
    // For each page the next one of its chain.
    next: Vec<u32>,
    // The first of the free pages, which are a chain.
    head: u32,
    // How many pages are free.
    free: u32,
    // The chain of each lease, under its number.
    chains: Slab<Chain>,
    // The page where the last write began.
    near: Near,
}

// The first page of a chain as the one that was found last.
const FIRST: Near = Near {
    first: 0,
    steps: 0,
    page: 0,
};

impl Model for MsgPool {
    ghost use Rattle.msg_pool.specs.Pool.{Pool, pool_code};

    ghost Value = { Pool };

    ghost coded = { pool_code };

    ghost use Rattle.std.specs.Prelude.{length};
    ghost use Rattle.msg_pool.specs.Chains.{leases_of, AreKept};
    ghost use Rattle.msg_pool.specs.Near.{IsNear};

    ghost view = { λ p. record { pages = length p.next.items; leases = leases_of p.block p.next.items p.chains } };

    ghost invariant = { λ p. (AreKept p.block p.next.items p.head p.free p.chains) × (IsNear p.next.items p.near) };
}

/// The right to some bytes of a pool. A lease that is dropped keeps its pages from the pool.
#[derive(Drop)]
pub struct Lease {
    number: usize,
    len: u32,
}

impl Model for Lease {
    ghost use Rattle.std.specs.Prelude.{◌<◌, ◌≤◌};
    ghost use Rattle.msg_pool.specs.Pool.{Held, held_code};

    ghost Value = { Held };

    ghost coded = { held_code };

    ghost view = { λ l. record { number = l.number; len = l.len } };

    ghost invariant = { λ l. (0 < l.len) × (l.len ≤ 1000000) };
}

impl Lease {
    /// How many bytes the lease has: 1 to 1,000,000.
    pub fn len(&self) -> usize
        ensures len { result ≡ self.now.len }
        ensures some { 0 < result }
        ensures small { result ≤ 1000000 }
    {
        self.len as usize
    }
}

/// There are fewer free pages than a lease needs.
#[derive(Debug, Clone, Copy, PartialEq, Eq)]
pub struct PoolFull {
    /// How many pages the lease needs.
    pub need: u32,
    /// How many pages are free.
    pub free: u32,
}

impl MsgPool {
    /// A pool of so many free pages, 4096 at most.
    pub fn new(alloc: Global, pages: u32) -> Result<MsgPool, AllocError>
        requires { pages ≤ 4096 }
        ensures pages { IfOk result (λ pool. pool.pages ≡ pages) }
        ensures no_lease { IfOk result (λ pool. pool.leases ≡ empty) }
    {
        let block = Block::new(alloc, pages)?;
        let next = linked(alloc, pages)?;
        let chains = Slab::with_capacity(alloc, pages as usize)?;
        Ok(MsgPool {
            block,
            next,
            head: 0,
            free: pages,
            chains,
            near: FIRST,
        })
    }

    /// Whether `len` bytes can be leased; if not, how many pages they need, and how many are free.
    pub fn check_room(&self, len: u32) -> Result<(), PoolFull>
        ensures full { IsErr result ↔ (free_pages self.now < pages_for len) }
        ensures need { IfErr result (λ full. full.need ≡ pages_for len) }
        ensures free { IfErr result (λ full. full.free ≡ free_pages self.now) }
    {
        let need = len.div_ceil(PAGE);
        if self.free < need {
            return Err(PoolFull {
                need,
                free: self.free,
            });
        }
        Ok(())
    }

    /// Leases `len` bytes, all zero, or says how many pages they need where fewer are free.
    pub fn take(&mut self, len: u32) -> Result<Lease, PoolFull>
        requires some { 0 < len }
        requires small { len ≤ 1000000 }
        ensures len { IfOk result (λ lease. lease.len ≡ len) }
        ensures fresh { IfOk result (λ lease. get self.old.leases lease.number ≡ None) }
        ensures zeros { IfOk result (λ lease. self.new ≡ with_bytes self.old lease (replicate len 0)) }
        ensures full { IsErr result ↔ (free_pages self.old < pages_for len) }
        ensures need { IfErr result (λ full. full.need ≡ pages_for len) }
        ensures free { IfErr result (λ full. full.free ≡ free_pages self.old) }
        ensures same { OnErr result (self.new ≡ self.old) }
        ensures within { leased_pages self.new.leases ≤ self.new.pages }
    {
        self.check_room(len)?;
        let need = len.div_ceil(PAGE);
        let first = self.head;
        self.head = zero_chain(&mut self.block, &self.next, first, need);
        self.free -= need;
        let number = self.chains.insert_reserved(Chain { first, len });
        Ok(Lease { number, len })
    }

    /// Writes `bytes` over those of a lease from `offset` on.
    pub fn write(&mut self, lease: &Lease, offset: u32, bytes: &[u8])
        requires lease { IsLeaseOf self.old lease.now }
        requires fits { offset + length bytes.now ≤ lease.now.len }
        ensures { self.new ≡ with_bytes self.old lease.now (overwritten (bytes_of self.old lease.now) offset bytes.now) }
    {
        let Some(chain) = self.chains.get(lease.number) else {
            unreachable!()
        };
        let first = chain.first;
        write_chain(
            &mut self.block,
            &self.next,
            &mut self.near,
            first,
            offset,
            bytes,
        );
    }

    /// Copies a lease's bytes to a list of the same length.
    pub fn copy_out(&self, lease: &Lease, out: &mut [u8])
        requires lease { IsLeaseOf self.now lease.now }
        requires fits { length out.old ≡ lease.now.len }
        ensures { out.new ≡ bytes_of self.now lease.now }
    {
        let Some(chain) = self.chains.get(lease.number) else {
            unreachable!()
        };
        copy_chain(&self.block, &self.next, chain.first, out);
    }

    /// Ends a lease, whose pages are free again.
    pub fn give(&mut self, lease: Lease)
        requires { IsLeaseOf self.old lease }
        ensures given { self.new ≡ without self.old lease }
        ensures within { leased_pages self.old.leases ≤ self.old.pages }
    {
        let Some(chain) = self.chains.try_remove(lease.number) else {
            unreachable!()
        };
        let count = chain.len.div_ceil(PAGE);
        let last = nth_page(&self.next, chain.first, count - 1);
        self.next[last as usize] = self.head;
        self.near = FIRST;
        self.head = chain.first;
        self.free += count;
    }

    /// How many pages are free.
    pub fn free(&self) -> u32
        ensures free { result ≡ free_pages self.now }
        ensures whole { result + leased_pages self.now.leases ≡ self.now.pages }
    {
        self.free
    }
}
