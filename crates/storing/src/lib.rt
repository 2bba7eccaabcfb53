// Stores a tables file in a lent buffer: numbers, a table's sizes, one cell, and a run of cells from another file, each at its place.
#![tactic(auto)]

ghost use Rattle.std.specs.Prelude.{◌≡◌, ◌∷◌, [], ◌+◌, ◌*◌, ◌<◌, ◌≤◌, length, take, drop};
ghost use Rattle.tables.specs.Lists.{placed};
ghost use Rattle.tables.specs.Bytes.{bytes16, bytes32};
ghost use Rattle.tables.specs.Tables.{cell_count};
ghost use Rattle.cells.specs.Code.{words32, Sized};
ghost use Rattle.files.specs.Files.{raw_cell, size_of, size_bytes, raw_cells, cells_placed};

use cells::{byte, put_bytes};

// A number of two bytes, from place i on.
pub fn put16(bytes: &mut [u8], i: usize, n: usize)
    requires fact_1 { n < 65536 }
    requires fact_2 { i + 2 ≤ length bytes.old }
    ensures { bytes.new ≡ placed bytes.old i (bytes16 n) }
{
    put_bytes(bytes, i, &(n as u16).to_le_bytes());
}

// A number of four bytes.
pub fn put32(bytes: &mut [u8], i: usize, n: usize)
    requires fact_1 { n < words32 }
    requires fact_2 { i + 4 ≤ length bytes.old }
    ensures { bytes.new ≡ placed bytes.old i (bytes32 n) }
{
    put_bytes(bytes, i, &(n as u32).to_le_bytes());
}

// The sizes of a table; j counts the tables from 0.
pub fn put_size(bytes: &mut [u8], j: usize, columns: usize, rows: usize)
    requires fact_1 { columns < 256 }
    requires fact_2 { rows < 65536 }
    requires fact_3 { 4 + 3 * j ≤ length bytes.old }
    ensures { bytes.new ≡ placed bytes.old (1 + 3 * j) (size_bytes (size_of columns rows)) }
{
    let [low, high] = (rows as u16).to_le_bytes();
    put_bytes(bytes, 1 + 3 * j, &[columns as u8, low, high]);
}

// Cell k: the bits of its value in the array that starts at `values`, and its mark in the one that starts at `marks`.
pub fn put_cell(bytes: &mut [u8], values: usize, marks: usize, k: usize, bits: usize, mark: usize)
    requires fact_1 { bits < words32 }
    requires fact_2 { mark < 256 }
    requires fact_3 { values + 4 * k + 4 ≤ length bytes.old }
    requires fact_4 { marks + k < length bytes.old }
    ensures { bytes.new ≡ cells_placed bytes.old values marks k (raw_cell bits mark ∷ []) }
{
    put32(bytes, values + 4 * k, bits);
    put_bytes(bytes, marks + k, &[mark as u8]);
}

// n cells of a file, from its cell `first` on, as the cells from k on: their values into the array that starts at `values`, their marks into the one that
// starts at `marks`. The file's own arrays are found by its number of tables and its length.
pub fn copy_cells(
    bytes: &mut [u8],
    values: usize,
    marks: usize,
    k: usize,
    file: &[u8],
    first: usize,
    n: usize,
)
    requires fact_1 { Sized file.now }
    requires fact_2 { first + n ≤ cell_count file.now }
    requires fact_3 { values + 4 * (k + n) ≤ length bytes.old }
    requires fact_4 { marks + (k + n) ≤ length bytes.old }
    ensures { bytes.new ≡ cells_placed bytes.old values marks k (take n (drop first (raw_cells file.now))) }
{
    let start = 1 + 3 * byte(file, 0);
    let cells = (file.len() - start) / 5;
    let value = start + 4 * first;
    let values_end = value + 4 * n;
    put_bytes(bytes, values + 4 * k, &file[value..values_end]);
    let mark = start + 4 * cells + first;
    let marks_end = mark + n;
    put_bytes(bytes, marks + k, &file[mark..marks_end]);
}
