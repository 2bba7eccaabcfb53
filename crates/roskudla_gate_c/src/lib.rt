// The archive of the gate alone: CHECK, RUN and LIST for C, each under its C name. Each returns 0, or the number of the refusal; a refusal leaves what the
// pointers point to as it was. A slice is a pointer and then a length, in elements; what is written through one argument must not be reachable through another.
// They stand here and in roskudla, since each of the two archives exports its own C names.
#![tactic(auto)]

ghost use Rattle.std.specs.Prelude.{◌≡◌};
ghost use Rattle.card.specs.Calls.{check_call, run_call, list_call};
ghost use Rattle.tables.specs.Exports.{status_of, yes_no, number_after};

// CHECK: a card alone.
#[unsafe(no_mangle)]
pub extern "C" fn roskudla_check(card: &[u8]) -> u32
    ensures { result ≡ status_of (check_call card.now) }
{
    roskudla_gate::roskudla_check(card)
}

// RUN: answer becomes 1 for yes, 0 for no.
#[unsafe(no_mangle)]
pub extern "C" fn roskudla_run(card: &[u8], tables: &[u8], row: usize, answer: &mut u8) -> u32
    ensures status { result ≡ status_of (run_call card.now tables.now row) }
    ensures answered { answer.new ≡ number_after yes_no (run_call card.now tables.now row) answer.old }
{
    roskudla_gate::roskudla_run(card, tables, row, answer)
}

// LIST: the admitted rows from the start of rows on; count becomes how many they are.
#[unsafe(no_mangle)]
pub extern "C" fn roskudla_list(
    card: &[u8],
    tables: &[u8],
    rows: &mut [u32],
    count: &mut usize,
) -> u32
    ensures status { result ≡ status_of (list_call card.now tables.now rows.old).result }
    ensures written { rows.new ≡ (list_call card.now tables.now rows.old).buffer }
    ensures counted { count.new ≡ number_after (λ n. n) (list_call card.now tables.now rows.old).result count.old }
{
    roskudla_gate::roskudla_list(card, tables, rows, count)
}
