// Lines with columns.
ghost use Rattle.std.specs.Prelude.{◌≡◌, ◌++◌, OnOk, string_bytes};
ghost use Rattle.std.specs.List.{flat_map};
ghost use Rattle.simulate.specs.Rows.{part_text, next_part, row_text, head_text, line_text};

use crate::cells::{RowCell, add_cell, add_value};
use crate::words::Format;
use std::alloc::AllocError;

/// A column of a line: its name, and what stands in it.
#[derive(Clone, Copy)]
pub(crate) struct Column {
    pub(crate) name: &'static str,
    pub(crate) cell: RowCell,
}

// What a line has of its columns: their names, what stands in them, or both.
#[derive(Clone, Copy)]
enum LineForm {
    Names,
    Cells,
    Fields,
}

/// A column with this name.
pub(crate) fn named(name: &'static str, cell: RowCell) -> Column
    ensures name { result.name.now ≡ name.now }
    ensures cell { result.cell ≡ cell }
{
    Column { name, cell }
}

// Adds a name with its value.
fn add_field(text: &mut String, column: &Column) -> Result<(), AllocError>
    ensures { OnOk result (string_bytes text.new ≡ string_bytes text.old ++ part_text LineForm.Fields column.now) }
{
    text.push_str("\"")?;
    text.push_str(column.name)?;
    text.push_str("\":")?;
    add_value(text, column.cell)
}

// Adds what a form has of a column.
fn add_part(text: &mut String, form: LineForm, column: &Column) -> Result<(), AllocError>
    ensures { OnOk result (string_bytes text.new ≡ string_bytes text.old ++ part_text form column.now) }
{
    match form {
        LineForm::Names => text.push_str(column.name),
        LineForm::Cells => add_cell(text, column.cell),
        LineForm::Fields => add_field(text, column),
    }
}

// Adds that of columns, each behind a comma.
fn add_others(text: &mut String, form: LineForm, columns: &[Column]) -> Result<(), AllocError>
    ensures { OnOk result (string_bytes text.new ≡ string_bytes text.old ++ flat_map (next_part form) columns.now) }
{
    for column in columns {
        text.push_str(",")?;
        add_part(text, form, column)?;
    }
    Ok(())
}

// Adds that of columns, with commas between them.
fn add_row(text: &mut String, form: LineForm, columns: &[Column]) -> Result<(), AllocError>
    ensures { OnOk result (string_bytes text.new ≡ string_bytes text.old ++ row_text form columns.now) }
{
    match columns {
        [] => Ok(()),
        [first, others @ ..] => {
            add_part(text, form, first)?;
            add_others(text, form, others)
        }
    }
}

/// Adds the names of these columns, if the form has them in a line of their own.
pub(crate) fn add_head(
    text: &mut String,
    format: Format,
    columns: &[Column],
) -> Result<(), AllocError>
    ensures { OnOk result (string_bytes text.new ≡ string_bytes text.old ++ head_text format columns.now) }
{
    match format {
        Format::Csv => {
            add_row(text, LineForm::Names, columns)?;
            text.push_str("\n")
        }
        Format::Json => Ok(()),
    }
}

/// Adds a line of these columns.
pub(crate) fn add_line(
    text: &mut String,
    format: Format,
    columns: &[Column],
) -> Result<(), AllocError>
    ensures { OnOk result (string_bytes text.new ≡ string_bytes text.old ++ line_text format columns.now) }
{
    match format {
        Format::Csv => {
            add_row(text, LineForm::Cells, columns)?;
            text.push_str("\n")
        }
        Format::Json => {
            text.push_str("{")?;
            add_row(text, LineForm::Fields, columns)?;
            text.push_str("}\n")
        }
    }
}
