// EXPORT: table 1 of a tables file as comma lines.
// Each cell is read through the window on table 1, from its place. Nothing is written before the whole answer is known to fit.
#![tactic(auto)]

ghost use Rattle.std.specs.Prelude.{◌≡◌, ◌+◌, ◌<◌, ◌≤◌, leb, length};
ghost use Rattle.std.proofs.Math.Option.{none};
ghost use Rattle.tables.specs.Lists.{placed};
ghost use Rattle.tables.specs.Refusals.{first_applying, tables_refusals};
ghost use Rattle.cells.specs.Reasons.{answer_of};
ghost use Rattle.cells.specs.Code.{seen_cell};
ghost use Rattle.lines.specs.Lines.{field_text, line_text, lines_text};
ghost use Rattle.lines.specs.Calls.{export_call};
ghost use Rattle.exporter.specs.Code.{FirstTableAt, first_rows, first_row};

use cells::{BLANK_MARK, PRESENT_MARK, Place, Reason, Seen};

// The most bytes that a cell takes: a minus, ten digits, and a comma or LF.
const CELL_BYTES: usize = 12;

// How many bytes the field of a cell takes: those of its number, none if it is blank, and one if it is declined.
#[tactic(auto, using(crate::proofs::Cells::field_texts))]
fn field_length(x: Seen) -> usize
    ensures { result ≡ length (field_text (seen_cell x)) }
{
    match x.mark {
        PRESENT_MARK => digits::numeral_length(x.number),
        BLANK_MARK => 0,
        _ => 1,
    }
}

// The field of a cell, from place i on: its number, nothing if it is blank, and a `!` if it is declined; the next place.
#[tactic(auto, using(crate::proofs::Cells::field_texts))]
fn put_field(out: &mut [u8], i: usize, x: Seen) -> usize
    requires { i + length (field_text (seen_cell x)) ≤ length out.old }
    ensures written { out.new ≡ placed out.old i (field_text (seen_cell x)) }
    ensures next { result ≡ i + length (field_text (seen_cell x)) }
{
    match x.mark {
        PRESENT_MARK => digits::put_numeral(out, i, x.number),
        BLANK_MARK => i,
        _ => {
            out[i] = b'!';
            i + 1
        }
    }
}

// How many bytes the line of a row takes: each field, and the comma or LF behind it.
#[tactic(auto, using(crate::proofs::Rows::row_measured))]
fn row_length(file: &[u8], at: Place, row: usize) -> usize
    requires fact_1 { FirstTableAt file.now at }
    requires fact_2 { row < at.rows }
    ensures { result ≡ length (line_text (first_row file.now row)) }
{
    let mut n: usize = 0;
    for column in 0..at.columns {
        n += 1 + field_length(window::cell(file, at, row, column));
    }
    n
}

// The line of a row, from place i on; the next place.
#[tactic(auto, using(crate::proofs::Rows::row_put))]
fn put_row(file: &[u8], at: Place, row: usize, out: &mut [u8], i: usize) -> usize
    requires fact_1 { FirstTableAt file.now at }
    requires fact_2 { row < at.rows }
    requires fact_3 { i + length (line_text (first_row file.now row)) ≤ length out.old }
    ensures written { out.new ≡ placed out.old i (line_text (first_row file.now row)) }
    ensures next { result ≡ i + length (line_text (first_row file.now row)) }
{
    let first = window::cell(file, at, row, 0);
    let mut next = put_field(out, i, first);
    for column in 1..at.columns {
        out[next] = b',';
        let x = window::cell(file, at, row, column);
        next = put_field(out, next + 1, x);
    }
    out[next] = b'\n';
    next + 1
}

// How many bytes all lines take.
#[tactic(auto, using(crate::proofs::Lines::lines_measured))]
fn lines_length(file: &[u8], at: Place) -> usize
    requires { FirstTableAt file.now at }
    ensures { result ≡ length (lines_text (first_rows file.now)) }
{
    let mut n: usize = 0;
    for row in 0..at.rows {
        n += row_length(file, at, row);
    }
    n
}

// All lines, at the start of out; how many bytes they take.
#[tactic(auto, using(crate::proofs::Lines::lines_put))]
fn put_lines(file: &[u8], at: Place, out: &mut [u8]) -> usize
    requires fact_1 { FirstTableAt file.now at }
    requires fact_2 { length (lines_text (first_rows file.now)) ≤ length out.old }
    ensures written { out.new ≡ placed out.old 0 (lines_text (first_rows file.now)) }
    ensures next { result ≡ length (lines_text (first_rows file.now)) }
{
    let mut next: usize = 0;
    for row in 0..at.rows {
        next = put_row(file, at, row, out, next);
    }
    next
}

// Whether all lines fit a buffer of so many bytes. With room for the longest cells they surely do, and are not measured.
#[tactic(auto, using(crate::proofs::Lines::lines_room))]
fn lines_fit(file: &[u8], at: Place, room: usize) -> bool
    requires { FirstTableAt file.now at }
    ensures { result ≡ leb (length (lines_text (first_rows file.now))) room }
{
    CELL_BYTES * (at.rows * at.columns) <= room || lines_length(file, at) <= room
}

// The lines of table 1 of a file that is not refused, at the start of out.
#[tactic(auto, using(crate::proofs::Exported::table_exported))]
fn export_table(file: &[u8], out: &mut [u8]) -> Result<usize, Reason>
    requires { first_applying (tables_refusals file.now) ≡ none }
    ensures answer { answer_of result ≡ (export_call file.now out.old).result }
    ensures written { out.new ≡ (export_call file.now out.old).buffer }
{
    let at = cells::table_place(&cells::layout_of(file), 1);
    if !lines_fit(file, at, out.len()) {
        return Err(Reason::Short);
    }
    Ok(put_lines(file, at, out))
}

// EXPORT: table 1 of a tables file as comma lines, at the start of out.
#[tactic(auto, using(crate::proofs::Exported::lines_exported))]
pub fn export_lines(file: &[u8], out: &mut [u8]) -> Result<usize, Reason>
    ensures answer { answer_of result ≡ (export_call file.now out.old).result }
    ensures written { out.new ≡ (export_call file.now out.old).buffer }
{
    cells::check_tables(file)?;
    export_table(file, out)
}
