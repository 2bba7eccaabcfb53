// A window on one table, or on a part of it: it holds the bytes of a tables file, lent, where values and marks start in them, and its first cell, columns and
// rows, so that it shows these rows and columns without copying them, and no other cell: who asks for one must know that it is in the window. Rows and
// columns count from 0 here.
#![tactic(auto)]

ghost use Rattle.std.specs.Prelude.{◌≡◌, ◌+◌, ◌*◌, ◌<◌, length};
ghost use Rattle.window.specs.Window.{cell_number, mark_at, value_at, window_of, window_place, Inside, seen_at};

use cells::{Place, Seen, read_signed};

#[derive(Clone, Copy)]
pub struct Window<'a> {
    pub tables: &'a [u8],
    pub values: usize,
    pub marks: usize,
    pub first: usize,
    pub columns: usize,
    pub rows: usize,
}

// The window on the cells that stand there: on a whole table, with the place that `cells::table_place` gives.
pub fn window_at<'a>(tables: &'a [u8], at: Place) -> Window<'a>
    ensures { result ≡ window_of tables.entry at }
{
    Window {
        tables,
        values: at.values,
        marks: at.marks,
        first: at.first,
        columns: at.columns,
        rows: at.rows,
    }
}

// The mark of a cell that a window shows.
pub fn mark<'a>(w: Window<'a>, row: usize, column: usize) -> u8
    requires { Inside w.tables.now (window_place w) row column }
    ensures { result ≡ mark_at w.entry.tables.now w.entry.marks (cell_number w.entry.first w.entry.columns row column) }
{
    w.tables[w.marks + (w.first + (row * w.columns + column))]
}

// Its number.
pub fn value<'a>(w: Window<'a>, row: usize, column: usize) -> i32
    requires { Inside w.tables.now (window_place w) row column }
    ensures { result ≡ value_at w.entry.tables.now w.entry.values (cell_number w.entry.first w.entry.columns row column) }
{
    read_signed(
        w.tables,
        w.values + 4 * (w.first + (row * w.columns + column)),
    )
}

// A cell through a window. Mark and value are both read whatever the mark says: a branch on the mark would cost more than the read.
pub fn cell(tables: &[u8], at: Place, row: usize, column: usize) -> Seen
    requires { Inside tables.now at row column }
    ensures { result ≡ seen_at tables.now at row column }
{
    let w = window_at(tables, at);
    Seen {
        mark: mark(w, row, column),
        number: value(w, row, column),
    }
}
