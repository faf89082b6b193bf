// The numbers of all amounts.
ghost use Rattle.std.specs.Prelude.{◌≡◌, ◌≤◌, ◌==◌, slice_set, if◌then◌else◌};

use crate::amounts::{Amount, BYTE_AT_ONE, NANO};
use crate::load::{Hot, Load};
use crate::network::{Card, Network};
use std::marker::Model;

/// The number of each amount, within its range. Contracts see their list, in the order of `Amount::ALL`.
#[derive(Clone, Copy)]
pub(crate) struct AmountNumbers {
    numbers: [u64; 24],
}

impl Model for AmountNumbers {
    ghost use Rattle.std.specs.Prelude.{List, ℕ};
    ghost use Rattle.experiment.specs.Amounts.{AreWithin};

    ghost Value = { List ℕ };

    ghost view = { λ n. n.numbers };

    ghost inverse = { λ numbers. record { numbers = numbers } };

    ghost invariant = { λ n. AreWithin n.numbers };
}

// The numbers where no line says them: links of 10 Gbit/s.
const USUAL: [u64; 24] = [
    10_000, 700, 250, 0, 0, 66, 1_000_000, 1_000_000, 2500, 1, 0, 0, 0, 500, 1, 1, 0, 1, 2000,
    10_000, 1, 1, 10, 0,
];

impl AmountNumbers {
    ghost use Rattle.experiment.specs.declared.amounts.Amount.TheVariants.{Warm, Measure};
    ghost use Rattle.experiment.specs.Amounts.{index, least, most, number_of};
    ghost use Rattle.experiment.specs.Made.{IsNetwork, IsLoad};

    /// Those where no line says them.
    pub(crate) fn usual() -> AmountNumbers
        ensures { result ≡ USUAL }
    {
        AmountNumbers { numbers: USUAL }
    }

    /// That of an amount.
    pub(crate) fn get(&self, amount: Amount) -> u64
        ensures value { result ≡ number_of self.now amount }
        ensures least { least amount ≤ result }
        ensures most { result ≤ most amount }
    {
        self.numbers[amount.index()]
    }

    /// Gives an amount this number.
    pub(crate) fn set(&mut self, amount: Amount, n: u64)
        requires least { least amount ≤ n }
        requires most { n ≤ most amount }
        ensures { self.new ≡ slice_set self.old (index amount) n }
    {
        self.numbers[amount.index()] = n;
    }

    /// The network of these numbers, with this card.
    pub(crate) fn network(&self, card: Card) -> Network
        ensures { IsNetwork self.now card result }
    {
        Network {
            byte: BYTE_AT_ONE / self.get(Amount::Link),
            delay: self.get(Amount::Delay) * NANO,
            switch: self.get(Amount::Switch) * NANO,
            host_delay: self.get(Amount::HostDelay) * NANO,
            service_time: self.get(Amount::ServiceTime) * NANO,
            overhead: self.get(Amount::Overhead) as u32,
            buffer: self.get(Amount::Buffer) as u32,
            card,
            card_limit: self.get(Amount::CardLimit) as u32,
            tick: self.get(Amount::Tick) * NANO,
            is_spread: self.get(Amount::Spread) > 0,
            loss: self.get(Amount::Loss) as u32,
            repeat: self.get(Amount::Repeat) as u32,
            jitter: self.get(Amount::Jitter) * NANO,
        }
    }

    // How many calls are made before those that are measured: none if so many are listed.
    fn warm(&self, listed: u32) -> u32
        ensures value { result ≡ (if listed == 0 then number_of self.now Warm else 0) }
        ensures most { result ≤ 100000000 }
    {
        if listed == 0 {
            self.get(Amount::Warm) as u32
        } else {
            0
        }
    }

    // How many calls are measured: all, if so many are listed.
    fn measured(&self, listed: u32) -> u32
        requires { listed ≤ 100000000 }
        ensures value { result ≡ (if listed == 0 then number_of self.now Measure else listed) }
        ensures least { 1 ≤ result }
        ensures most { result ≤ 100000000 }
    {
        if listed == 0 {
            self.get(Amount::Measure) as u32
        } else {
            listed
        }
    }

    /// The load of these numbers, with this server to which more calls go, where so many calls are listed.
    pub(crate) fn load(&self, hot: Option<Hot>, listed: u32) -> Load
        requires { listed ≤ 100000000 }
        ensures { IsLoad self.now hot listed result }
    {
        Load {
            load: self.get(Amount::Load) as u32,
            is_exact: self.get(Amount::Exact) > 0,
            service: self.get(Amount::Service) as u32,
            incast: self.get(Amount::Incast) as u32,
            burst: self.get(Amount::Burst) as u32,
            hot,
            warm: self.warm(listed),
            calls: self.measured(listed),
            seed: self.get(Amount::Seed),
            seeds: self.get(Amount::Seeds) as u32,
            parts: self.get(Amount::Parts) as u32,
            events: self.get(Amount::Events),
        }
    }
}
