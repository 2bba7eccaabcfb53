// The gate's calls for C: CHECK, RUN and LIST. Each returns 0, or the number of the refusal; a refusal leaves what it is lent as it was.
// They are exported by roskudla_gate_c, and by roskudla among all eight.
#![tactic(auto)]

ghost use Rattle.std.specs.Prelude.{◌≡◌};
ghost use Rattle.card.specs.Calls.{check_call, run_call, list_call};
ghost use Rattle.tables.specs.Exports.{status_of, yes_no, number_after};
ghost use Rattle.cells.specs.Reasons.{answer_of};
ghost use Rattle.roskudla_gate.specs.Code.{value_after};

use cells::Reason;

// What a call answers, for C: the status, and what the call gives behind a pointer.
pub fn give<T: Copy>(answer: Result<T, Reason>, place: &mut T) -> u32
    ensures status { result ≡ status_of (answer_of answer) }
    ensures given { place.new ≡ value_after (answer_of answer) place.old }
{
    match answer {
        Ok(value) => {
            *place = value;
            0
        }
        Err(reason) => u32::from(reason),
    }
}

// CHECK: a card alone, of which nothing but the status is told.
pub fn roskudla_check(card: &[u8]) -> u32
    ensures { result ≡ status_of (check_call card.now) }
{
    give(checker::check(card), &mut ())
}

// RUN: answer becomes 1 for yes, 0 for no.
pub fn roskudla_run(card: &[u8], tables: &[u8], row: usize, answer: &mut u8) -> u32
    ensures status { result ≡ status_of (run_call card.now tables.now row) }
    ensures answered { answer.new ≡ number_after yes_no (run_call card.now tables.now row) answer.old }
{
    give(gate::run(card, tables, row).map(u8::from), answer)
}

// LIST: the admitted rows from the start of rows on; count becomes how many they are.
pub fn roskudla_list(card: &[u8], tables: &[u8], rows: &mut [u32], count: &mut usize) -> u32
    ensures status { result ≡ status_of (list_call card.now tables.now rows.old).result }
    ensures written { rows.new ≡ (list_call card.now tables.now rows.old).buffer }
    ensures counted { count.new ≡ number_after (λ n. n) (list_call card.now tables.now rows.old).result count.old }
{
    give(gate::list(card, tables, rows), count)
}
