// CARD: text and tables to the bytes of a card.
#![tactic(auto)]

ghost use Rattle.std.specs.Prelude.{◌≡◌, ◌∷◌, ◌++◌, ◌+◌, ◌<◌, ◌≤◌, length};
ghost use Rattle.tables.specs.Lists.{placed};
ghost use Rattle.tables.specs.Bytes.{bytes16};
ghost use Rattle.tables.specs.Tables.{table_count, columns_of};
ghost use Rattle.cells.specs.Reasons.{answer_of};
ghost use Rattle.cells.specs.Code.{Sized};
ghost use Rattle.translation.specs.Calls.{card_call};
ghost use Rattle.translator.specs.Code.{CardReady, CardWritten};

use card::{Interpretation, RECORD_SIZE};
use cells::Reason;
use grammar::MOST_PARTS;
use names::{NO_PART, RulePart};
use parser::Parsed;
use tables::MOST_ENTRIES;

// The sizes of a card: its entries, its tables, and the columns of each.
fn write_sizes(file: &[u8], entries: usize, out: &mut [u8])
    requires fact_1 { Sized file.now }
    requires fact_2 { entries < 65536 }
    requires fact_3 { 3 + table_count file.now ≤ length out.old }
    ensures { out.new ≡ placed out.old 0 (bytes16 entries ++ (length (columns_of file.now) ∷ columns_of file.now)) }
{
    let tables = cells::byte(file, 0);
    storing::put16(out, 0, entries);
    out[2] = tables as u8;
    for j in 0..tables {
        out[3 + j] = cells::table_columns(file, j) as u8;
    }
}

// The card of the rule that has these parts, of so many entries, at the start of out, which has room for it.
fn write_card(parts: &[RulePart; MOST_PARTS], file: &[u8], entries: usize, out: &mut [u8])
    requires { CardReady parts.now file.now entries out.old }
    ensures { CardWritten parts.now file.now entries out.old out.new }
{
    let kinds_at = 3 + cells::byte(file, 0);
    let records_at = kinds_at + entries;
    let end = records_at + RECORD_SIZE * entries;
    write_sizes(file, entries, out);
    let mut kinds = [0u8; MOST_ENTRIES];
    let records = &mut out[records_at..end];
    entries::write_part(
        parts,
        0,
        false,
        Interpretation::AsNo,
        &mut kinds,
        records,
        0,
    );
    cells::put_bytes(out, kinds_at, &kinds[..entries]);
}

// CARD: the card of the rule, at the start of out.
pub fn make_card(text: &[u8], file: &[u8], out: &mut [u8]) -> Result<usize, Reason>
    ensures answer { answer_of result ≡ (card_call text.now file.now out.old).result }
    ensures written { out.new ≡ (card_call text.now file.now out.old).buffer }
{
    let mut parts = [NO_PART; MOST_PARTS];
    let parsed = parser::parse(text, file, &mut parts);
    // docs/ARCHITECTURE.md names this form: it passes a refusal of reading up unchanged.
    let Parsed::Rule(_, entries) = parsed else {
        return Err(parser::refusal(parsed));
    };
    let length = 3 + cells::byte(file, 0) + (1 + RECORD_SIZE) * entries;
    if out.len() < length {
        return Err(Reason::Short);
    }
    write_card(&parts, file, entries, out);
    Ok(length)
}
