// The bytes of a tables file: which files are refused, their sizes, where their tables stand, and what is seen of a cell.
#![tactic(auto)]

ghost use Rattle.std.specs.Prelude.{◌≡◌, ◌+◌, ◌*◌, ◌<◌, ◌≤◌, length};
ghost use Rattle.tables.specs.Lists.{placed};
ghost use Rattle.tables.specs.Bytes.{byte_at, word16, word32, signed};
ghost use Rattle.tables.specs.Tables.{most_tables, table_count, size_at, cell_count, sizes_fit, size_fits, marks_fit};
ghost use Rattle.tables.specs.Refusals.{tables_call};
ghost use Rattle.cells.specs.Reasons.{reason_number, answer_of};
ghost use Rattle.cells.specs.Code.{words32, Sized, Places, SmallLayout, place_in};

// Limits on a tables file.
pub const MOST_TABLES: usize = 8;

pub const MOST_COLUMNS: usize = 16;

pub const MOST_ROWS: usize = 1000;

pub const MOST_CELLS: usize = 8192;

// The marks of a cell that is present with its number, of a blank one, and of a declined one; none is higher.
pub const PRESENT_MARK: u8 = 0;

pub const BLANK_MARK: u8 = 1;

pub const DECLINED_MARK: u8 = 2;

pub const HIGHEST_MARK: u8 = DECLINED_MARK;

// Why a call refuses, in the order of the published numbers. Which reason comes first in a call is another order, that of its refusals.
#[derive(Clone, Copy, PartialEq, Eq)]
pub enum Reason {
    Sizes,
    Mark,
    TextLength,
    Token,
    Brackets,
    Grammar,
    Limits,
    Names,
    Unsound,
    Columns,
    Row,
    Short,
    Entries,
    Fields,
    TooMany,
}

// The published number of a reason.
impl From<Reason> for u32 {
    fn from(reason: Reason) -> u32
        ensures { result ≡ reason_number reason }
    {
        match reason {
            Reason::Sizes => 1,
            Reason::Mark => 2,
            Reason::TextLength => 3,
            Reason::Token => 4,
            Reason::Brackets => 5,
            Reason::Grammar => 6,
            Reason::Limits => 7,
            Reason::Names => 8,
            Reason::Unsound => 9,
            Reason::Columns => 10,
            Reason::Row => 11,
            Reason::Short => 12,
            Reason::Entries => 13,
            Reason::Fields => 14,
            Reason::TooMany => 15,
        }
    }
}

// Byte i.
pub fn byte(bytes: &[u8], i: usize) -> usize
    requires { i < length bytes.now }
    ensures is { result ≡ byte_at bytes.now i }
    ensures small { result < 256 }
{
    bytes[i] as usize
}

// The number of the two bytes from i on.
pub fn read16(bytes: &[u8], i: usize) -> usize
    requires { i + 1 < length bytes.now }
    ensures is { result ≡ word16 bytes.now i }
    ensures small { result < 65536 }
{
    u16::from_le_bytes([bytes[i], bytes[i + 1]]) as usize
}

// The number of the four bytes from i on.
pub fn read32(bytes: &[u8], i: usize) -> usize
    requires { i + 3 < length bytes.now }
    ensures is { result ≡ word32 bytes.now i }
    ensures small { result < words32 }
{
    u32::from_le_bytes([bytes[i], bytes[i + 1], bytes[i + 2], bytes[i + 3]]) as usize
}

// The signed number of the four bytes from i on.
pub fn read_signed(bytes: &[u8], i: usize) -> i32
    requires { i + 3 < length bytes.now }
    ensures { result ≡ signed (word32 bytes.now i) }
{
    (read32(bytes, i) as u32).cast_signed()
}

// Other bytes, from place i on.
pub fn put_bytes(bytes: &mut [u8], i: usize, from: &[u8])
    requires { i + length from.now ≤ length bytes.old }
    ensures { bytes.new ≡ placed bytes.old i from.now }
{
    bytes[i..i + from.len()].copy_from_slice(from);
}

// The columns of a table; j counts the tables from 0.
pub fn table_columns(file: &[u8], j: usize) -> usize
    requires { 3 + 3 * j < length file.now }
    ensures is { result ≡ (size_at file.now j).columns }
    ensures small { result < 256 }
{
    byte(file, 1 + 3 * j)
}

// Its rows.
pub fn table_rows(file: &[u8], j: usize) -> usize
    requires { 3 + 3 * j < length file.now }
    ensures is { result ≡ (size_at file.now j).rows }
    ensures small { result < 65536 }
{
    read16(file, 2 + 3 * j)
}

// Whether its sizes are within the limits.
fn size_fits(file: &[u8], j: usize) -> bool
    requires { 3 + 3 * j < length file.now }
    ensures { result ≡ size_fits (size_at file.now j) }
{
    (1..=MOST_COLUMNS).contains(&table_columns(file, j)) && table_rows(file, j) <= MOST_ROWS
}

// Whether sizes and length are right: refusal 1 does not apply.
fn sizes_fit(file: &[u8]) -> bool
    ensures { result ≡ sizes_fit file.now }
{
    if file.is_empty() {
        return false;
    }
    let n = byte(file, 0);
    if !(1..=MOST_TABLES).contains(&n) || file.len() <= 3 * n {
        return false;
    }
    let mut cells: usize = 0;
    for j in 0..n {
        if !size_fits(file, j) {
            return false;
        }
        cells += table_rows(file, j) * table_columns(file, j);
    }
    cells <= MOST_CELLS && file.len() == 1 + 3 * n + 5 * cells
}

// The cells of all tables.
fn cell_count(file: &[u8]) -> usize
    requires { Sized file.now }
    ensures is { result ≡ cell_count file.now }
{
    (file.len() - 1 - 3 * byte(file, 0)) / 5
}

// Whether no mark is too high: refusal 2 does not apply. It finds the highest mark: a processor takes the higher of two bytes for sixteen pairs at once.
fn marks_fit(file: &[u8]) -> bool
    requires { Sized file.now }
    ensures { result ≡ marks_fit file.now }
{
    let cells = cell_count(file);
    let first = file.len() - cells;
    let mut highest: u8 = 0;
    for &mark in &file[first..] {
        highest = highest.max(mark);
    }
    highest <= HIGHEST_MARK
}

// A tables file by itself: refusals 1 and 2, which every call that is given one tries first.
#[tactic(auto, unfolding(tables::specs::Refusals::tables_call, tables::specs::Refusals::tables_refusals, tables::specs::Refusals::first_applying, tables::specs::Refusals::unless))]
pub fn check_tables(file: &[u8]) -> Result<(), Reason>
    ensures { answer_of result ≡ tables_call file.now }
{
    if !sizes_fit(file) {
        return Err(Reason::Sizes);
    }
    if !marks_fit(file) {
        return Err(Reason::Mark);
    }
    Ok(())
}

// Where the cells of one table stand among those of its file: the number of the first, and how many columns and rows there are.
#[derive(Clone, Copy)]
pub struct Extent {
    pub first: usize,
    pub columns: usize,
    pub rows: usize,
}

// How many extents a layout has: tables are numbered from 1, and the extent at 0 is that of no table.
const EXTENTS: usize = 1 + MOST_TABLES;

// Where the tables of a file stand: where its values and where its marks start, how many cells there are over all, and the extent of each table, by its
// number.
#[derive(Clone, Copy)]
pub struct Layout {
    pub values: usize,
    pub marks: usize,
    pub cells: usize,
    pub tables: [Extent; EXTENTS],
}

// The layout of a file.
pub fn layout_of(file: &[u8]) -> Layout
    requires { Sized file.now }
    ensures places { Places file.now result }
    ensures cells { result.cells ≡ cell_count file.now }
    ensures small { SmallLayout result (table_count file.now) }
{
    let n = byte(file, 0);
    let none = Extent {
        first: 0,
        columns: 0,
        rows: 0,
    };
    let mut tables = [none; EXTENTS];
    let mut first: usize = 0;
    for j in 0..n {
        let columns = table_columns(file, j);
        let rows = table_rows(file, j);
        tables[j + 1] = Extent {
            first,
            columns,
            rows,
        };
        first += rows * columns;
    }
    let cells = cell_count(file);
    Layout {
        values: 1 + 3 * n,
        marks: 1 + 3 * n + 4 * cells,
        cells,
        tables,
    }
}

// Where the cells of a table, or of a part of it, stand: where the file's values and marks start, the number of the first cell, and how many columns and
// rows there are.
#[derive(Clone, Copy)]
pub struct Place {
    pub values: usize,
    pub marks: usize,
    pub first: usize,
    pub columns: usize,
    pub rows: usize,
}

// Where table t stands, by the layout of its file.
pub fn table_place(layout: &Layout, t: usize) -> Place
    requires { t ≤ most_tables }
    ensures { result ≡ place_in layout.now t }
{
    let table = layout.tables[t];
    Place {
        values: layout.values,
        marks: layout.marks,
        first: table.first,
        columns: table.columns,
        rows: table.rows,
    }
}

// What is seen of a cell: its mark, and its number.
#[derive(Clone, Copy)]
pub struct Seen {
    pub mark: u8,
    pub number: i32,
}
