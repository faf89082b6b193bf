// How many rows and rounds, the numbers that they take, and the sum of the answers.
ghost use Rattle.std.specs.Prelude.{◌≡◌, ◌+◌, ◌*◌, ◌/◌, ◌%◌, ◌<◌, ◌≤◌, fold};
ghost use Rattle.bench_books.specs.Sums.{with_answer};

/// How many rows a book has, and how many rounds are made.
#[derive(Clone, Copy)]
pub(crate) struct Mix {
    pub(crate) rows: u32,
    pub(crate) rounds: u32,
    ghost some: { 0 < rows },
    ghost few: { rows ≤ 1280 },
    ghost short: { rounds ≤ 1000000 },
}

fn read_number(word: Option<String>) -> Option<u32> {
    word?.as_str().parse::<u32>().ok()
}

impl Mix {
    /// The mix that two words say, if they say one.
    pub(crate) fn read(rows: Option<String>, rounds: Option<String>) -> Option<Mix> {
        let rows = read_number(rows)?;
        let rounds = read_number(rounds)?;
        if rows == 0 || rows > 1280 || rounds > 1_000_000 {
            return None;
        }
        Some(Mix { rows, rounds })
    }

    /// The key that a row gets in a round. Keys grow with the rounds, so that each row comes first about once in as
    /// many rounds as there are rows.
    pub(crate) fn key(&self, round: u32, number: u32) -> u32
        requires round { round ≤ 1000000 }
        requires number { number < 65536 }
        ensures { result ≡ 512 * round / self.now.rows + number / 64 }
    {
        512 * round / self.rows + number / 64
    }
}

/// A sequence of numbers below 65,536 that looks random.
#[derive(Drop)]
pub(crate) struct Numbers {
    last: u32,
    ghost small: { last < 65536 },
}

impl Numbers {
    pub(crate) fn new() -> Numbers {
        Numbers { last: 1 }
    }

    /// The next number.
    pub(crate) fn next(&mut self) -> u32
        ensures next { result ≡ (25173 * self.old.last + 13849) % 65536 }
        ensures small { result < 65536 }
    {
        self.last = (25_173 * self.last + 13_849) % 65_536;
        self.last
    }
}

/// A number below 65,536 that all answers go into.
#[derive(Drop)]
pub(crate) struct Checksum {
    sum: u64,
    ghost small: { sum < 65536 },
}

impl Checksum {
    pub(crate) fn new() -> Checksum {
        Checksum { sum: 0 }
    }

    /// Takes one more answer in.
    pub(crate) fn add(&mut self, slot: u32)
        ensures { self.new.sum ≡ with_answer self.old.sum slot }
    {
        self.sum = (31 * self.sum + u64::from(slot) + 1) % 65_536;
    }

    /// Takes more answers in.
    pub(crate) fn add_all(&mut self, slots: &[u32])
        ensures { self.new.sum ≡ fold with_answer self.old.sum slots.now }
    {
        for slot in slots {
            self.add(*slot);
        }
    }

    pub(crate) fn sum(&self) -> u64
        ensures { result ≡ self.now.sum }
    {
        self.sum
    }
}
