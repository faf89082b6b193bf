// What follows from the settings: rows, levels, and spans of time in ticks.
ghost use Rattle.std.specs.Prelude.{◌≡◌, ◌≤◌};
ghost use Rattle.homa_plain.specs.Settings.{IsValid, slots, asking_level, patience, accepted_life, band, span};

use crate::settings::Settings;

impl Settings {
    /// How many rows a host has: those of its own calls, and those that it serves.
    pub fn slots(&self) -> u32
        requires { IsValid self.now }
        ensures { result ≡ slots self.now }
    {
        self.calls + self.served
    }

    /// The level of a RESEND, and of what it asks for: 0 to 6.
    pub fn asking_level(&self) -> u8
        requires { IsValid self.now }
        ensures { result ≡ asking_level self.now }
    {
        (self.overcommit - 1) as u8
    }

    /// The ticks after which nothing more can come of silence.
    pub fn patience(&self) -> u64
        requires { IsValid self.now }
        ensures value { result ≡ patience self.now }
        ensures small { result ≤ 101000 }
    {
        u64::from(self.resend) * (u64::from(self.tries) + 1)
    }

    /// For how many ticks a packet may be accepted: with version 2 its receiver refuses it afterwards.
    pub fn accepted_life(&self) -> u64
        requires { IsValid self.now }
        ensures value { result ≡ accepted_life self.now }
        ensures small { result ≤ 104000 }
    {
        let life = u64::from(self.life);
        if self.wire == 1 {
            life
        } else {
            life + 4 * u64::from(self.skew)
        }
    }

    /// By how many ticks two hosts' clocks may differ.
    pub fn band(&self) -> u64
        requires { IsValid self.now }
        ensures value { result ≡ band self.now }
        ensures small { result ≤ 2000 }
    {
        2 * u64::from(self.skew)
    }

    /// For how many ticks a packet may still have an effect: as long as it may be accepted, and the band of two clocks.
    pub fn span(&self) -> u64
        requires { IsValid self.now }
        ensures value { result ≡ span self.now }
        ensures small { result ≤ 106000 }
    {
        self.accepted_life() + self.band()
    }
}
