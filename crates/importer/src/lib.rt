// IMPORT: comma lines to the bytes of a tables file with one table.
// The text is read once, from the left. How many cells it has, and that neither 14 nor 15 refuses it, is known at its end; till then its cells are kept in two
// arrays, values and marks, as a tables file has them, so that each is copied whole to the lent buffer when they are known to fit it.
#![tactic(auto)]

ghost use Rattle.std.specs.Prelude.{◌≡◌, ◌∷◌, [], ◌++◌, ◌+◌, ◌*◌, ◌<◌, ◌≤◌, length, take, drop, flat_map};
ghost use Rattle.std.proofs.Math.Option.{none};
ghost use Rattle.tables.specs.Lists.{placed};
ghost use Rattle.tables.specs.Tables.{most_columns, most_rows, most_cells};
ghost use Rattle.cells.specs.Reasons.{answer_of};
ghost use Rattle.files.specs.Files.{raw_cell, size_of, sizes_part};
ghost use Rattle.numerals.specs.Numerals.{first_number};
ghost use Rattle.lines.specs.Calls.{import_call};
ghost use Rattle.importer.specs.Code.{FieldAt, behind_from, place_after, Room, MoreKept, LineKept, TableKept, Few};

use cells::{BLANK_MARK, DECLINED_MARK, MOST_CELLS, MOST_COLUMNS, MOST_ROWS, PRESENT_MARK, Reason};

// How many cells a very short text and a short one can have at most: one more than bytes. What they say is kept in smaller arrays.
const VERY_SHORT_CELLS: usize = 64;

const SHORT_CELLS: usize = 1024;

// A field: the bits of its cell's value, the mark, and the place behind the field.
#[derive(Clone, Copy)]
struct Field {
    bits: u32,
    mark: u8,
    end: usize,
}

// The field from place i on, where no number stands: a `!`, or else nothing.
fn other_field(text: &[u8], i: usize) -> Field
    requires fact_1 { i ≤ length text.now }
    requires fact_2 { first_number (drop i text.now) ≡ none }
    ensures { FieldAt text.now i result }
{
    if i < text.len() && text[i] == b'!' {
        Field {
            bits: 0,
            mark: DECLINED_MARK,
            end: i + 1,
        }
    } else {
        Field {
            bits: 0,
            mark: BLANK_MARK,
            end: i,
        }
    }
}

// The field from place i on: a number, which is looked for first, or a `!`, or else nothing. Behind a `!` that is not alone, and behind the nothing that is
// found in place of another bad field, stands no comma and no line end.
fn field_at(text: &[u8], i: usize) -> Field
    requires { i ≤ length text.now }
    ensures { FieldAt text.now i result }
{
    match digits::number_at(text, i) {
        Some(found) => Field {
            bits: found.number.cast_unsigned(),
            mark: PRESENT_MARK,
            end: found.end,
        },
        None => other_field(text, i),
    }
}

// The place behind the line end at i; the last line may have none.
#[tactic(auto, using(crate::proofs::Behind::line_ends))]
fn after_line(text: &[u8], i: usize) -> Option<usize>
    requires { i ≤ length text.now }
    ensures { result ≡ place_after i (behind_from 0 (drop i text.now)) }
{
    match &text[i..] {
        [] => Some(i),
        [b'\n', ..] => Some(i + 1),
        [b'\r', b'\n', ..] => Some(i + 2),
        _ => None,
    }
}

// The place behind the field that ends at i, where so many fields of its line are left: behind a comma, or behind the line end.
#[tactic(auto, using(crate::proofs::Behind::commas))]
fn after_field(text: &[u8], i: usize, left: usize) -> Option<usize>
    requires { i ≤ length text.now }
    ensures { result ≡ place_after i (behind_from left (drop i text.now)) }
{
    if left == 0 {
        return after_line(text, i);
    }
    match &text[i..] {
        [b',', ..] => Some(i + 1),
        _ => None,
    }
}

// Keeps a cell as number k, if there is room.
fn keep_cell(values: &mut [[u8; 4]], marks: &mut [u8], k: usize, bits: u32, mark: u8)
    requires { Room values.old marks.old }
    ensures { MoreKept values.old marks.old k (raw_cell bits mark ∷ []) values.new marks.new }
{
    if k < marks.len() {
        values[k] = bits.to_le_bytes();
        marks[k] = mark;
    }
}

// Reads the line from place i on, and keeps its cells from number k on; the place behind its end, unless it is no line of so many fields.
#[tactic(auto, using(crate::proofs::Reading::line_read_so))]
fn read_line(
    text: &[u8],
    i: usize,
    columns: usize,
    values: &mut [[u8; 4]],
    marks: &mut [u8],
    k: usize,
) -> Option<usize>
    requires fact_1 { i ≤ length text.now }
    requires fact_2 { columns ≤ most_columns }
    requires fact_3 { Room values.old marks.old }
    requires fact_4 { k < 65536 }
    ensures { LineKept text.now i columns k values.old marks.old result values.new marks.new }
{
    let mut at = i;
    for column in 0..columns {
        let field = field_at(text, at);
        keep_cell(values, marks, k + column, field.bits, field.mark);
        at = after_field(text, field.end, columns - (column + 1))?;
    }
    Some(at)
}

// Reads all lines, and keeps their cells, as far as there is room and there are not too many rows; how many rows the text has, unless it has a bad field or
// a wrong field count.
fn read_lines(
    text: &[u8],
    columns: usize,
    values: &mut [[u8; 4]],
    marks: &mut [u8],
) -> Option<usize>
    requires fact_1 { (1 ≤ columns) × (columns ≤ most_columns) }
    requires fact_2 { Room values.old marks.old }
    ensures { TableKept text.now columns values.old marks.old result values.new marks.new }
{
    let mut at: usize = 0;
    let mut rows: usize = 0;
    // The loop goes by place: where a line ends is known once it is read.
    while at < text.len() {
        let k = if rows < MOST_ROWS {
            rows * columns
        } else {
            marks.len()
        };
        at = read_line(text, at, columns, values, marks, k)?;
        rows += 1;
    }
    Some(rows)
}

// The tables file with one table, of so many columns and rows, at the start of out; the values and marks of its cells are those that were kept. This and
// `import_kept` are compiled into `import_with`: there the compiler sees that the arrays lie apart from the buffer, and copies by memcpy, which is all that the archive asks for.
#[inline(always)]
fn write_table(out: &mut [u8], columns: usize, rows: usize, values: &[[u8; 4]], marks: &[u8])
    requires fact_1 { (columns ≤ most_columns) × (rows ≤ most_rows) }
    requires fact_2 { rows * columns ≤ length values.now }
    requires fact_3 { rows * columns ≤ length marks.now }
    requires fact_4 { 4 + 5 * (rows * columns) ≤ length out.old }
    ensures { out.new ≡ placed out.old 0 (sizes_part (size_of columns rows ∷ []) ++ (flat_map (λ v. v) (take (rows * columns) values.now) ++ take (rows * columns) marks.now)) }
{
    let cells = rows * columns;
    out[0] = 1;
    storing::put_size(out, 0, columns, rows);
    cells::put_bytes(out, 4, values[..cells].as_flattened());
    cells::put_bytes(out, 4 + 4 * cells, &marks[..cells]);
}

// IMPORT with arrays that have room for what the text says, or for as much as is allowed.
#[tactic(auto, using(crate::proofs::Calls::unread_refused))]
#[inline(always)]
fn import_kept(
    text: &[u8],
    columns: usize,
    values: &mut [[u8; 4]],
    marks: &mut [u8],
    out: &mut [u8],
) -> Result<usize, Reason>
    requires fact_1 { (1 ≤ columns) × (columns ≤ most_columns) }
    requires fact_2 { Room values.old marks.old }
    requires fact_3 { Few text.now (length marks.old) }
    ensures answer { answer_of result ≡ (import_call text.now columns out.old).result }
    ensures written { out.new ≡ (import_call text.now columns out.old).buffer }
{
    let rows = read_lines(text, columns, values, marks).ok_or(Reason::Fields)?;
    if MOST_ROWS < rows || MOST_CELLS < rows * columns {
        return Err(Reason::TooMany);
    }
    let length = 4 + 5 * (rows * columns);
    if out.len() < length {
        return Err(Reason::Short);
    }
    write_table(out, columns, rows, values, marks);
    Ok(length)
}

// IMPORT with arrays for so many cells.
fn import_with<const CELLS: usize>(
    text: &[u8],
    columns: usize,
    out: &mut [u8],
) -> Result<usize, Reason>
    requires fact_1 { (1 ≤ columns) × (columns ≤ most_columns) }
    requires fact_2 { CELLS ≤ most_cells }
    requires fact_3 { Few text.now CELLS }
    ensures answer { answer_of result ≡ (import_call text.now columns out.old).result }
    ensures written { out.new ≡ (import_call text.now columns out.old).buffer }
{
    let mut values = [[0u8; 4]; CELLS];
    let mut marks = [0u8; CELLS];
    import_kept(text, columns, &mut values, &mut marks, out)
}

// IMPORT: the tables file of the lines, at the start of out. Short texts are given smaller arrays, since arrays are set to 0 first.
#[tactic(auto, using(crate::proofs::Calls::columns_refused))]
pub fn import_lines(text: &[u8], columns: usize, out: &mut [u8]) -> Result<usize, Reason>
    ensures answer { answer_of result ≡ (import_call text.now columns out.old).result }
    ensures written { out.new ≡ (import_call text.now columns out.old).buffer }
{
    if !(1..=MOST_COLUMNS).contains(&columns) {
        return Err(Reason::Fields);
    }
    if text.len() < VERY_SHORT_CELLS {
        return import_with::<VERY_SHORT_CELLS>(text, columns, out);
    }
    if text.len() < SHORT_CELLS {
        return import_with::<SHORT_CELLS>(text, columns, out);
    }
    import_with::<MOST_CELLS>(text, columns, out)
}
