// What the program does with the bytes of its two files: the admitted rows, and the text that it prints.
#![tactic(auto)]

ghost use Rattle.std.specs.Prelude.{◌≡◌, ◌++◌, ◌+◌, ◌*◌, ◌<◌, ◌≤◌, pos, length, take, drop, All};
ghost use Rattle.tables.specs.Lists.{placed};
ghost use Rattle.tables.specs.Tables.{most_rows};
ghost use Rattle.numerals.specs.Numerals.{numeral};
ghost use Rattle.rule.specs.Calls.{admit_call};
ghost use Rattle.cells.specs.Reasons.{reason_number, answer_of};
ghost use Rattle.io.specs.Counts.{IsPrefixLen};
ghost use Rattle.admission.specs.Output.{most_output, row_lines, rows_text, refusal_text, output, read_of_text, read_of_tables, WrittenFor};

use card::RECORD_SIZE;
use cells::{MOST_CELLS, MOST_ROWS, MOST_TABLES, Reason};
use lexer::MOST_BYTES;
use tables::MOST_ENTRIES;

// How much of its files the program reads: a byte more than any that is accepted has.
pub const READ_OF_TEXT: usize = MOST_BYTES + 1;

pub const READ_OF_TABLES: usize = 1 + 3 * MOST_TABLES + 5 * MOST_CELLS + 1;

// The bytes of the longest card.
const MOST_CARD: usize = 3 + MOST_TABLES + (1 + RECORD_SIZE) * MOST_ENTRIES;

// Room for the longest output: a line of at most 18 bytes, and one of at most 5 for each of 1,000 rows.
pub const OUTPUT: usize = 18 + 5 * MOST_ROWS;

// The rows of table 1 on which the rule is true, rising, from the start of out on. The card is made and run; what is promised is the three-valued
// meaning.
#[tactic(auto, using(crate::proofs::Admitted::card_refused))]
pub fn admit(text: &[u8], file: &[u8], out: &mut [u32]) -> Result<usize, Reason>
    ensures answer { answer_of result ≡ (admit_call text.now file.now out.old).result }
    ensures written { out.new ≡ (admit_call text.now file.now out.old).buffer }
{
    let mut card = [0u8; MOST_CARD];
    let length = translator::make_card(text, file, &mut card)?;
    gate::list(&card[..length], file, out)
}

// The bytes of a word from place i on; the next place.
fn put_word(out: &mut [u8; OUTPUT], i: usize, word: &[u8]) -> usize
    requires { i + length word.now ≤ most_output }
    ensures written { out.new ≡ placed out.old i word.now }
    ensures next { result ≡ i + length word.now }
{
    cells::put_bytes(out, i, word);
    i + word.len()
}

// A number of at most four digits from place i on; the next place.
#[tactic(auto, using(crate::proofs::Writing::numbers_short))]
fn put_number(out: &mut [u8; OUTPUT], i: usize, n: usize) -> usize
    requires fact_1 { n < 10000 }
    requires fact_2 { i + 4 ≤ most_output }
    ensures written { out.new ≡ placed out.old i (numeral (pos n)) }
    ensures next { result ≡ i + length (numeral (pos n)) }
    ensures short { result ≤ i + 4 }
{
    digits::put_numeral(out, i, n as i32)
}

// Each row number and a line feed, from place i on; the next place.
fn put_rows(out: &mut [u8; OUTPUT], i: usize, rows: &[u32]) -> usize
    requires fact_1 { All (λ row. row < 10000) rows.now }
    requires fact_2 { i + 5 * length rows.now ≤ most_output }
    ensures written { out.new ≡ placed out.old i (row_lines rows.now) }
    ensures next { result ≡ i + length (row_lines rows.now) }
    ensures short { result ≤ i + 5 * length rows.now }
{
    let mut at = i;
    for &row in rows {
        at = put_number(out, at, row as usize);
        out[at] = b'\n';
        at += 1;
    }
    at
}

// The number of admitted rows and that of all rows, then the admitted ones.
fn print_rows(out: &mut [u8; OUTPUT], rows: &[u32], total: usize) -> usize
    requires fact_1 { length rows.now ≤ most_rows }
    requires fact_2 { All (λ row. row < 10000) rows.now }
    requires fact_3 { total ≤ most_rows }
    ensures written { out.new ≡ placed out.old 0 (rows_text total rows.now) }
    ensures next { result ≡ length (rows_text total rows.now) }
    ensures counted { IsPrefixLen result out.new }
{
    let mut at = put_word(out, 0, b"rows ");
    at = put_number(out, at, rows.len());
    at = put_word(out, at, b" of ");
    at = put_number(out, at, total);
    at = put_word(out, at, b"\n");
    put_rows(out, at, rows)
}

// A refusal: its number.
fn print_refusal(out: &mut [u8; OUTPUT], reason: Reason) -> usize
    ensures written { out.new ≡ placed out.old 0 (refusal_text (reason_number reason)) }
    ensures next { result ≡ length (refusal_text (reason_number reason)) }
    ensures counted { IsPrefixLen result out.new }
{
    let mut at = put_word(out, 0, b"refused ");
    at = put_number(out, at, u32::from(reason) as usize);
    put_word(out, at, b"\n")
}

// What the program prints for a text and a tables file, at the start of out; how many bytes.
fn print(text: &[u8], file: &[u8], out: &mut [u8; OUTPUT]) -> usize
    ensures printed { out.new ≡ output text.now file.now ++ drop (length (output text.now file.now)) out.old }
    ensures next { result ≡ length (output text.now file.now) }
    ensures counted { IsPrefixLen result out.new }
{
    let mut rows = [0u32; MOST_ROWS];
    match admit(text, file, &mut rows) {
        Ok(n) => print_rows(out, &rows[..n], cells::table_rows(file, 0)),
        Err(reason) => print_refusal(out, reason),
    }
}

// What the program prints when it has read the first n bytes of text and the first m bytes of tables. The buffers that it reads into have a byte more than
// any accepted file, so that a longer one is refused as the whole of it is, and never cut: how long they are must be known, so they come whole, with n and m.
#[tactic(auto, using(crate::proofs::Whole::written_for))]
pub fn print_files(text: &[u8], n: usize, tables: &[u8], m: usize, out: &mut [u8; OUTPUT]) -> usize
    requires fact_1 { length text.now ≡ read_of_text }
    requires fact_2 { n ≤ length text.now }
    requires fact_3 { length tables.now ≡ read_of_tables }
    requires fact_4 { m ≤ length tables.now }
    ensures written { WrittenFor (take n text.now) (take m tables.now) out.old out.new result }
    ensures counted { IsPrefixLen result out.new }
{
    print(&text[..n], &tables[..m], out)
}
