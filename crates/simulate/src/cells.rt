// What stands in a column.
ghost use Rattle.std.specs.Prelude.{◌≡◌, ◌++◌, OnOk, string_bytes, decimal};
ghost use Rattle.homa_plain.specs.Text.{id_word};
ghost use Rattle.simulate.specs.Cells.{thousandths, cell_text, quoted, value_text};

use call_figures::Rank;
use homa_plain::CallId;
use std::alloc::AllocError;
use std::fmt;
use std::fmt::Write;

/// What stands in a column of a line.
#[derive(Clone, Copy)]
pub(crate) enum RowCell {
    /// A word of letters and digits.
    Word(&'static str),
    Number(u64),
    /// So many 1000ths.
    Thousandths(u64),
    /// A call: its client, the client's incarnation and the sequence number.
    Id(CallId),
    /// A rank of 1000ths.
    Rank(Rank),
    /// What didn't come to pass.
    Empty,
}

/// A number of 1000ths, which is printed with three digits behind the point.
#[derive(Clone, Copy)]
pub(crate) struct Thousandths(pub(crate) u64);

impl fmt::Display for Thousandths {
    fn fmt<W: fmt::Write>(&self, f: &mut fmt::Formatter<W>) -> fmt::Result {
        let (whole, rest) = (self.0 / 1000, self.0 % 1000);
        write!(f, "{whole}.{rest:03}")
    }
}

// Adds a number.
fn add_number(text: &mut String, n: u64) -> Result<(), AllocError>
    ensures { OnOk result (string_bytes text.new ≡ string_bytes text.old ++ decimal n) }
{
    write!(text, "{n}")
}

// Adds a number of 1000ths.
fn add_thousandths(text: &mut String, n: u64) -> Result<(), AllocError>
    ensures { OnOk result (string_bytes text.new ≡ string_bytes text.old ++ thousandths n) }
{
    let (whole, first, second, third) = (n / 1000, n / 100 % 10, n / 10 % 10, n % 10);
    write!(text, "{whole}.{first}{second}{third}")
}

// Adds a call.
fn add_id(text: &mut String, id: CallId) -> Result<(), AllocError>
    ensures { OnOk result (string_bytes text.new ≡ string_bytes text.old ++ id_word id) }
{
    let (client, inc, seq) = (id.client.0, id.inc, id.seq);
    write!(text, "{client}.{inc}.{seq}")
}

/// Adds what stands in a column of CSV.
pub(crate) fn add_cell(text: &mut String, cell: RowCell) -> Result<(), AllocError>
    ensures { OnOk result (string_bytes text.new ≡ string_bytes text.old ++ cell_text cell) }
{
    match cell {
        RowCell::Word(word) => text.push_str(word),
        RowCell::Number(n) => add_number(text, n),
        RowCell::Thousandths(n) | RowCell::Rank(Rank::At(n)) => add_thousandths(text, n),
        RowCell::Id(id) => add_id(text, id),
        RowCell::Rank(Rank::Few) => text.push_str("-"),
        RowCell::Rank(Rank::Slower) => text.push_str("inf"),
        RowCell::Empty => Ok(()),
    }
}

// Adds a text of JSON.
fn add_quoted(text: &mut String, cell: RowCell) -> Result<(), AllocError>
    ensures { OnOk result (string_bytes text.new ≡ string_bytes text.old ++ quoted (cell_text cell)) }
{
    text.push_str("\"")?;
    add_cell(text, cell)?;
    text.push_str("\"")
}

/// Adds a value of JSON: null for what isn't known.
pub(crate) fn add_value(text: &mut String, cell: RowCell) -> Result<(), AllocError>
    ensures { OnOk result (string_bytes text.new ≡ string_bytes text.old ++ value_text cell) }
{
    match cell {
        RowCell::Word(_) | RowCell::Id(_) | RowCell::Rank(Rank::Slower) => add_quoted(text, cell),
        RowCell::Rank(Rank::Few) | RowCell::Empty => text.push_str("null"),
        RowCell::Number(_) | RowCell::Thousandths(_) | RowCell::Rank(Rank::At(_)) => add_cell(
            text, cell,
        ),
    }
}
