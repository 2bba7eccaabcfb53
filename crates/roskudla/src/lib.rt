// The eight calls for C. Each returns 0, or the number of the refusal; a refusal leaves what the pointers point to as it was.
// A slice is a pointer and then a length, in elements; what is written through one argument must not be reachable through another.
// CHECK, RUN and LIST are the gate's, under the names that they have in the archive of the gate alone: they stand in both, since each of the two archives
// exports its own C names.
#![tactic(auto)]

ghost use Rattle.std.specs.Prelude.{◌≡◌};
ghost use Rattle.card.specs.Calls.{check_call, run_call, list_call};
ghost use Rattle.rule.specs.Calls.{read_call, judge_call};
ghost use Rattle.translation.specs.Calls.{card_call};
ghost use Rattle.lines.specs.Calls.{import_call, export_call};
ghost use Rattle.rule.specs.Truth.{truth_number};
ghost use Rattle.tables.specs.Exports.{status_of, yes_no, number_after};

use roskudla_gate::give;
use rule::Part;

// READ: the parts of the rule from the start of parts on; count becomes how many they are.
#[unsafe(no_mangle)]
pub extern "C" fn roskudla_read(
    text: &[u8],
    tables: &[u8],
    parts: &mut [Part],
    count: &mut usize,
) -> u32
    ensures status { result ≡ status_of (read_call text.now tables.now parts.old).result }
    ensures written { parts.new ≡ (read_call text.now tables.now parts.old).buffer }
    ensures counted { count.new ≡ number_after (λ n. n) (read_call text.now tables.now parts.old).result count.old }
{
    give(reader::read(text, tables, parts), count)
}

// JUDGE: value becomes 0 for false, 1 for unknown, 2 for true.
#[unsafe(no_mangle)]
pub extern "C" fn roskudla_judge(text: &[u8], tables: &[u8], row: usize, value: &mut u8) -> u32
    ensures status { result ≡ status_of (judge_call text.now tables.now row) }
    ensures answered { value.new ≡ number_after truth_number (judge_call text.now tables.now row) value.old }
{
    let judged = judge::judge(text, tables, row);
    // A closure, since by the mere name `u8::from` the check does not find which number is given.
    give(judged.map(|truth| u8::from(truth)), value)
}

// CARD: the card from the start of card on; length becomes how many bytes it has.
#[unsafe(no_mangle)]
pub extern "C" fn roskudla_card(
    text: &[u8],
    tables: &[u8],
    card: &mut [u8],
    length: &mut usize,
) -> u32
    ensures status { result ≡ status_of (card_call text.now tables.now card.old).result }
    ensures written { card.new ≡ (card_call text.now tables.now card.old).buffer }
    ensures counted { length.new ≡ number_after (λ n. n) (card_call text.now tables.now card.old).result length.old }
{
    give(translator::make_card(text, tables, card), length)
}

// IMPORT: comma lines as a tables file with one table of so many columns, from the start of tables on; length becomes how many bytes it has.
#[unsafe(no_mangle)]
pub extern "C" fn roskudla_import(
    lines: &[u8],
    columns: usize,
    tables: &mut [u8],
    length: &mut usize,
) -> u32
    ensures status { result ≡ status_of (import_call lines.now columns tables.old).result }
    ensures written { tables.new ≡ (import_call lines.now columns tables.old).buffer }
    ensures counted { length.new ≡ number_after (λ n. n) (import_call lines.now columns tables.old).result length.old }
{
    give(importer::import_lines(lines, columns, tables), length)
}

// EXPORT: table 1 as comma lines, from the start of lines on; length becomes how many bytes they have.
#[unsafe(no_mangle)]
pub extern "C" fn roskudla_export(tables: &[u8], lines: &mut [u8], length: &mut usize) -> u32
    ensures status { result ≡ status_of (export_call tables.now lines.old).result }
    ensures written { lines.new ≡ (export_call tables.now lines.old).buffer }
    ensures counted { length.new ≡ number_after (λ n. n) (export_call tables.now lines.old).result length.old }
{
    give(exporter::export_lines(tables, lines), length)
}

// CHECK: a card alone.
#[unsafe(no_mangle)]
pub extern "C" fn roskudla_check(card: &[u8]) -> u32
    ensures { result ≡ status_of (check_call card.now) }
{
    roskudla_gate::roskudla_check(card)
}

// RUN: answer becomes 1 for yes, 0 for no.
#[unsafe(no_mangle)]
pub extern "C" fn roskudla_run(card: &[u8], tables: &[u8], row: usize, answer: &mut u8) -> u32
    ensures status { result ≡ status_of (run_call card.now tables.now row) }
    ensures answered { answer.new ≡ number_after yes_no (run_call card.now tables.now row) answer.old }
{
    roskudla_gate::roskudla_run(card, tables, row, answer)
}

// LIST: the admitted rows from the start of rows on; count becomes how many they are.
#[unsafe(no_mangle)]
pub extern "C" fn roskudla_list(
    card: &[u8],
    tables: &[u8],
    rows: &mut [u32],
    count: &mut usize,
) -> u32
    ensures status { result ≡ status_of (list_call card.now tables.now rows.old).result }
    ensures written { rows.new ≡ (list_call card.now tables.now rows.old).buffer }
    ensures counted { count.new ≡ number_after (λ n. n) (list_call card.now tables.now rows.old).result count.old }
{
    roskudla_gate::roskudla_list(card, tables, rows, count)
}
