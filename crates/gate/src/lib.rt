// The gate: RUN and LIST. It knows cards and tables, and no text.
// Short name: d, an array with room for the card's entries.
#![tactic(auto)]

ghost use Rattle.std.specs.Prelude.{◌≡◌, ◌<◌, ◌≤◌, Ok, length, take};
ghost use Rattle.tables.specs.Tables.{most_rows, row_count};
ghost use Rattle.cells.specs.Reasons.{answer_of};
ghost use Rattle.cells.specs.Code.{Sized, Places};
ghost use Rattle.card.specs.Calls.{says_yes, fits_tables, yes_rows, run_call, list_call};
ghost use Rattle.decoder.specs.Code.{Laid, Roomy};
ghost use Rattle.gate.specs.Code.{Opened, prepare_call};

use cells::{MOST_ROWS, Reason};
use decoder::{Entry, with_room};
use runner::Run;

// Whether the card was made for this number of tables and these columns.
fn fits_tables(card: &[u8], file: &[u8]) -> bool
    requires fact_1 { Laid card.now }
    requires fact_2 { Sized file.now }
    ensures { result ≡ fits_tables card.now file.now }
{
    let n = cells::byte(file, 0);
    cells::byte(card, 2) == n
        && (0..n).all(|j| cells::byte(card, 3 + j) == cells::table_columns(file, j))
}

// What RUN and LIST look at first: refusals 1, 2, 9 and 10. Where none applies, d has the card's entries.
fn prepare(card: &[u8], file: &[u8], d: &mut [Entry]) -> Result<(), Reason>
    requires { Roomy card.now d.old }
    ensures answer { answer_of result ≡ prepare_call card.now file.now }
    ensures opened { result ≡ Ok tt → Opened card.now file.now d.new }
{
    cells::check_tables(file)?;
    if !checker::is_sound(card, d) {
        return Err(Reason::Unsound);
    }
    if !fits_tables(card, file) {
        return Err(Reason::Columns);
    }
    Ok(())
}

// What the card says of a row of table 1.
fn says_yes(card: &[u8], run: &Run, row: usize) -> bool
    requires opened { Opened card.now run.now.file.now run.now.entries.now }
    requires places { Places run.now.file.now run.now.layout.now }
    requires below { row < row_count run.now.file.now 1 }
    ensures { result ≡ says_yes card.now run.now.file.now row }
{
    let table = cells::table_place(run.layout, 1);
    let w = [row * table.columns, 0, 0, 0];
    run.run_entry(0, cells::read16(card, 0), &w, 1)
}

// RUN, with room for the card's entries.
fn run_with(card: &[u8], file: &[u8], row: usize, d: &mut [Entry]) -> Result<bool, Reason>
    requires { Roomy card.now d.old }
    ensures { answer_of result ≡ run_call card.now file.now row }
{
    prepare(card, file, d)?;
    let layout = cells::layout_of(file);
    let table = cells::table_place(&layout, 1);
    if table.rows <= row {
        return Err(Reason::Row);
    }
    let run = Run {
        entries: d,
        layout: &layout,
        file,
    };
    Ok(says_yes(card, &run, row))
}

// RUN: what the card says of a row of table 1.
pub fn run(card: &[u8], file: &[u8], row: usize) -> Result<bool, Reason>
    ensures { answer_of result ≡ run_call card.now file.now row }
{
    with_room(card, &mut |d| run_with(card, file, row, d))
}

// The rows that the card says yes to, from the start of kept on, and how many they are.
fn keep_rows(card: &[u8], run: &Run, kept: &mut [u32; MOST_ROWS]) -> usize
    requires opened { Opened card.now run.now.file.now run.now.entries.now }
    requires places { Places run.now.file.now run.now.layout.now }
    ensures rows { take result kept.new ≡ yes_rows card.now run.now.file.now }
    ensures count { result ≡ length (yes_rows card.now run.now.file.now) }
    ensures size { result ≤ most_rows }
{
    let table = cells::table_place(run.layout, 1);
    let mut k: usize = 0;
    for row in 0..table.rows {
        let yes = says_yes(card, run, row);
        kept[k] = row as u32;
        if yes {
            k += 1;
        }
    }
    k
}

// LIST, with room for the card's entries.
fn list_with(card: &[u8], file: &[u8], out: &mut [u32], d: &mut [Entry]) -> Result<usize, Reason>
    requires { Roomy card.now d.old }
    ensures answer { answer_of result ≡ (list_call card.now file.now out.old).result }
    ensures written { out.new ≡ (list_call card.now file.now out.old).buffer }
{
    prepare(card, file, d)?;
    let layout = cells::layout_of(file);
    let run = Run {
        entries: d,
        layout: &layout,
        file,
    };
    // The rows are kept here first, since nothing may be written before it is known that all of them fit.
    let mut kept = [0u32; MOST_ROWS];
    let k = keep_rows(card, &run, &mut kept);
    if out.len() < k {
        return Err(Reason::Short);
    }
    out[..k].copy_from_slice(&kept[..k]);
    Ok(k)
}

// LIST: the rows of table 1 that the card says yes to, rising, from the start of out on.
pub fn list(card: &[u8], file: &[u8], out: &mut [u32]) -> Result<usize, Reason>
    ensures answer { answer_of result ≡ (list_call card.now file.now out.old).result }
    ensures written { out.new ≡ (list_call card.now file.now out.old).buffer }
{
    with_room(card, &mut |d| list_with(card, file, out, d))
}
