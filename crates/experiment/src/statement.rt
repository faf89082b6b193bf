// What a line stands for.
use crate::amounts::Amount;
use crate::load::Hot;
use crate::marks::{Injection, ListedCall, Restarting, Shifting};
use crate::network::Card;
use homa_plain::Name;

/// What a line stands for.
#[derive(Clone, Copy)]
pub(crate) enum Statement {
    /// Nothing: it has no words, or is a comment.
    Blank,
    /// A setting of the hosts has this number.
    Setting(Name, u32),
    /// An amount has this number.
    Amount(Amount, u64),
    /// The workload with this number.
    Workload(u32),
    /// Lengths above those of the line before and up to one, with their share.
    Size { upto: u32, share: u32 },
    /// One length with its share.
    Length { upto: u32, share: u32 },
    /// Of a million requests so many are at most so long.
    Cumulative { upto: u32, sum: u32 },
    /// The kind of all cards.
    Card(Card),
    /// A server to which more calls go.
    Hot(Hot),
    Restart(Restarting),
    Call(ListedCall),
    Inject(Injection),
    Shift(Shifting),
}
