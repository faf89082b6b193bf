// The settings of a run.
ghost use Rattle.std.specs.Prelude.{◌≡◌, ◌↔◌, IsOk};
ghost use Rattle.homa_plain.specs.Settings.{between, first_outside};
ghost use Rattle.homa_plain.specs.Text.{name_word};

use crate::limits::LONGEST_MESSAGE;

/// The settings of a run. All are whole numbers; `Settings::check` says which are valid.
#[derive(Clone, Copy, Debug, PartialEq, Eq)]
pub struct Settings {
    /// How many hosts there are: 2 to 32.
    pub hosts: u32,
    /// The most payload bytes of a DATA packet: 1 to 1400.
    pub seg: u32,
    /// The most bytes of a message that are granted and haven't arrived: 1 to 1,000,000.
    pub window: u32,
    /// How many bytes of a message are sent without a grant: 1 to `window`.
    pub unsched: u32,
    /// To how many messages a host grants at a time: 1 to 7.
    pub overcommit: u32,
    /// How many payload bytes a host sends a tick: `seg` to 1,000,000.
    pub rate: u32,
    /// After how many ticks of silence a timer acts: 1 to 1000.
    pub resend: u32,
    /// How many RESENDs or NEED_ACKs may stay without an answer: 1 to 100.
    pub tries: u32,
    /// For how many ticks a packet may be delivered: 1 to 100,000.
    pub life: u32,
    /// How many pages of 4096 bytes a host has for incoming messages: 1 to 4096.
    pub pages: u32,
    /// How many live calls a host may have as a client: 1 to 1024.
    pub calls: u32,
    /// How many rows a host may have as a server: 1 to 4096.
    pub served: u32,
    /// After how many new incoming messages a host computes its cutoffs anew: 0 to 1024, 0 for never.
    pub rebalance: u32,
    /// By how many ticks a host's clock may be off: 0 to 1000.
    pub skew: u32,
    /// The version of the packets: 1 or 2.
    pub wire: u32,
}

/// The name of a setting.
#[derive(Clone, Copy, Debug, PartialEq, Eq)]
pub enum Name {
    Hosts,
    Seg,
    Window,
    Unsched,
    Overcommit,
    Rate,
    Resend,
    Tries,
    Life,
    Pages,
    Calls,
    Served,
    Rebalance,
    Skew,
    Wire,
}

impl Name {
    /// All names, in the order of the settings.
    pub const ALL: [Name; 15] = [
        Name::Hosts,
        Name::Seg,
        Name::Window,
        Name::Unsched,
        Name::Overcommit,
        Name::Rate,
        Name::Resend,
        Name::Tries,
        Name::Life,
        Name::Pages,
        Name::Calls,
        Name::Served,
        Name::Rebalance,
        Name::Skew,
        Name::Wire,
    ];

    /// The word that names the setting in a schedule, as `overcommit`.
    pub fn word(self) -> &'static [u8]
        ensures { result.now ≡ name_word self }
    {
        match self {
            Name::Hosts => b"hosts",
            Name::Seg => b"seg",
            Name::Window => b"window",
            Name::Unsched => b"unsched",
            Name::Overcommit => b"overcommit",
            Name::Rate => b"rate",
            Name::Resend => b"resend",
            Name::Tries => b"tries",
            Name::Life => b"life",
            Name::Pages => b"pages",
            Name::Calls => b"calls",
            Name::Served => b"served",
            Name::Rebalance => b"rebalance",
            Name::Skew => b"skew",
            Name::Wire => b"wire",
        }
    }
}

/// Why settings aren't valid, in the order in which the causes are tested.
#[derive(Clone, Copy, Debug, PartialEq, Eq)]
pub enum SettingFault {
    /// This setting is outside its range. Here `unsched` and `rate` may be 1 to 1,000,000.
    OutOfRange(Name),
    /// `unsched` is above `window`.
    UnschedOverWindow,
    /// `rate` is below `seg`.
    RateUnderSeg,
}

// The range of a setting, both ends included, and the number that it has.
#[derive(Clone, Copy)]
struct Limits {
    name: Name,
    least: u32,
    most: u32,
    value: u32,
}

// A setting with its numbers.
fn between(name: Name, least: u32, most: u32, value: u32) -> Limits
    ensures { result ≡ between name least most value }
{
    Limits {
        name,
        least,
        most,
        value,
    }
}

// The first setting that is outside its range.
fn first_outside(ranges: &[Limits]) -> Option<Name>
    ensures { result ≡ first_outside ranges.now }
{
    for range in ranges {
        if range.value < range.least || range.most < range.value {
            return Some(range.name);
        }
    }
    None
}

impl Settings {
    ghost use Rattle.homa_plain.specs.Settings.{usual, IsValid, verdict, ranges, setting};
    ghost use Rattle.homa_plain.specs.Script.{with_setting};

    /// The settings that hold where none are given.
    pub fn usual() -> Settings
        ensures usual { result ≡ usual }
        ensures valid { IsValid result }
    {
        Settings {
            hosts: 2,
            seg: 1400,
            window: 10_000,
            unsched: 10_000,
            overcommit: 4,
            rate: 14_000,
            resend: 4,
            tries: 5,
            life: 20,
            pages: 1024,
            calls: 256,
            served: 1024,
            rebalance: 0,
            skew: 0,
            wire: 1,
        }
    }

    /// Returns the first fault of the settings, or none if they are valid: the ranges in the order of the
    /// settings, then `unsched` against `window`, then `rate` against `seg`.
    #[tactic(auto, using(crate::proofs::SettingsLemmas::ok_is_valid))]
    pub fn check(&self) -> Result<(), SettingFault>
        ensures fault { result ≡ verdict self.now }
        ensures valid { IsOk result ↔ IsValid self.now }
    {
        if let Some(name) = first_outside(&self.ranges()) {
            return Err(SettingFault::OutOfRange(name));
        }
        if self.unsched > self.window {
            return Err(SettingFault::UnschedOverWindow);
        }
        if self.rate < self.seg {
            return Err(SettingFault::RateUnderSeg);
        }
        Ok(())
    }

    /// The number of a setting.
    pub fn get(&self, name: Name) -> u32
        ensures { result ≡ setting self.now name }
    {
        match name {
            Name::Hosts => self.hosts,
            Name::Seg => self.seg,
            Name::Window => self.window,
            Name::Unsched => self.unsched,
            Name::Overcommit => self.overcommit,
            Name::Rate => self.rate,
            Name::Resend => self.resend,
            Name::Tries => self.tries,
            Name::Life => self.life,
            Name::Pages => self.pages,
            Name::Calls => self.calls,
            Name::Served => self.served,
            Name::Rebalance => self.rebalance,
            Name::Skew => self.skew,
            Name::Wire => self.wire,
        }
    }

    /// Gives a setting this number, which needn't be one that it may have: `check` tells.
    pub fn set(&mut self, name: Name, n: u32)
        ensures { self.new ≡ with_setting self.old name n }
    {
        match name {
            Name::Hosts => self.hosts = n,
            Name::Seg => self.seg = n,
            Name::Window => self.window = n,
            Name::Unsched => self.unsched = n,
            Name::Overcommit => self.overcommit = n,
            Name::Rate => self.rate = n,
            Name::Resend => self.resend = n,
            Name::Tries => self.tries = n,
            Name::Life => self.life = n,
            Name::Pages => self.pages = n,
            Name::Calls => self.calls = n,
            Name::Served => self.served = n,
            Name::Rebalance => self.rebalance = n,
            Name::Skew => self.skew = n,
            Name::Wire => self.wire = n,
        }
    }

    // The settings in their order, each with its numbers.
    fn ranges(&self) -> [Limits; 15]
        ensures { result ≡ ranges self.now }
    {
        [
            between(Name::Hosts, 2, 32, self.hosts),
            between(Name::Seg, 1, 1400, self.seg),
            between(Name::Window, 1, LONGEST_MESSAGE, self.window),
            between(Name::Unsched, 1, LONGEST_MESSAGE, self.unsched),
            between(Name::Overcommit, 1, 7, self.overcommit),
            between(Name::Rate, 1, LONGEST_MESSAGE, self.rate),
            between(Name::Resend, 1, 1000, self.resend),
            between(Name::Tries, 1, 100, self.tries),
            between(Name::Life, 1, 100_000, self.life),
            between(Name::Pages, 1, 4096, self.pages),
            between(Name::Calls, 1, 1024, self.calls),
            between(Name::Served, 1, 4096, self.served),
            between(Name::Rebalance, 0, 1024, self.rebalance),
            between(Name::Skew, 0, 1000, self.skew),
            between(Name::Wire, 1, 2, self.wire),
        ]
    }
}
