//! A link, which takes one packet after the other.
ghost use Rattle.std.specs.Prelude.{◌≡◌, ◌≤◌, ◌<◌, ◌+◌, ◌*◌, ◌^◌, nat_le, IsTrue};

/// When a packet that begins at a moment has left a link's sender, and when it is there.
#[derive(Clone, Copy, Debug, PartialEq, Eq)]
pub struct Passage {
    pub left: u64,
    pub there: u64,
}

/// One direction of a link: how long a byte takes, how long a bit is under way, until when the link is taken, and for how long it
/// was taken in all. That is never longer than the time that has passed, as no two packets are sent at once.
#[derive(Clone, Copy, Debug)]
pub struct Link {
    pub byte: u64,
    pub delay: u64,
    pub free: u64,
    pub taken: u64,
    ghost one_at_a_time: { taken ≤ free },
}

impl Link {
    /// A link that is free from the beginning.
    pub fn new(byte: u64, delay: u64) -> Link
        ensures byte { result.byte ≡ byte }
        ensures delay { result.delay ≡ delay }
        ensures free { result.free ≡ 0 }
    {
        Link {
            byte,
            delay,
            free: 0,
            taken: 0,
        }
    }

    /// Until when it is taken.
    pub fn free(&self) -> u64
        ensures { result ≡ self.now.free }
    {
        self.free
    }

    /// Whether a packet may begin at this moment.
    pub fn is_free(&self, now: u64) -> bool
        ensures { result ≡ nat_le self.now.free now }
    {
        self.free <= now
    }

    /// Whether a packet of so many bytes that begins at this moment is there before the last moment that there is.
    pub fn fits(&self, now: u64, bytes: u32) -> bool
        ensures { IsTrue result → now + self.now.byte * bytes + self.now.delay < 2 ^ 64 }
    {
        let Some(span) = self.byte.checked_mul(u64::from(bytes)) else {
            return false;
        };
        match now.checked_add(span) {
            None => false,
            Some(left) => left <= u64::MAX - self.delay,
        }
    }

    /// For how long it was taken in all.
    pub fn taken(&self) -> u64
        ensures { result ≡ self.now.taken }
    {
        self.taken
    }

    /// A packet of so many bytes begins: its last bit leaves after exactly as long as its bytes take, and is there a delay later.
    pub fn pass(&mut self, now: u64, bytes: u32) -> Passage
        requires free { self.old.free ≤ now }
        requires fits { now + self.old.byte * bytes + self.old.delay < 2 ^ 64 }
        ensures left { result.left ≡ now + self.old.byte * bytes }
        ensures there { result.there ≡ now + self.old.byte * bytes + self.old.delay }
        ensures free { self.new.free ≡ result.left }
        ensures taken { self.new.taken ≡ self.old.taken + self.old.byte * bytes }
        ensures byte { self.new.byte ≡ self.old.byte }
        ensures delay { self.new.delay ≡ self.old.delay }
    {
        let span = self.byte * u64::from(bytes);
        let left = now + span;
        *self = Link {
            byte: self.byte,
            delay: self.delay,
            free: left,
            taken: self.taken + span,
        };
        Passage {
            left,
            there: left + self.delay,
        }
    }
}
