// JUDGE: the rule is read, the row is found, and the answer is the value of the rule there.
// Short name: w, for each level the number of its row's first cell.
#![tactic(auto)]

ghost use Rattle.std.specs.Prelude.{◌≡◌};
ghost use Rattle.cells.specs.Reasons.{answer_of};
ghost use Rattle.rule.specs.Calls.{judge_call};

use cells::Reason;
use evaluator::Evaluation;
use grammar::MOST_PARTS;
use names::NO_PART;
use parser::Parsed;
use rule::Truth;

// JUDGE: the value of the rule on a row of table 1.
pub fn judge(text: &[u8], file: &[u8], row: usize) -> Result<Truth, Reason>
    ensures { answer_of result ≡ judge_call text.now file.now row }
{
    let mut parts = [NO_PART; MOST_PARTS];
    let parsed = parser::parse(text, file, &mut parts);
    // docs/ARCHITECTURE.md names this form: it passes a refusal of reading up unchanged.
    let Parsed::Rule(_, _) = parsed else {
        return Err(parser::refusal(parsed));
    };
    let layout = cells::layout_of(file);
    let table = cells::table_place(&layout, 1);
    if table.rows <= row {
        return Err(Reason::Row);
    }
    let evaluation = Evaluation {
        parts: &parts,
        layout: &layout,
        file,
    };
    let w = [row * table.columns, 0, 0, 0];
    Ok(evaluation.evaluate_part(0, &w, 1))
}
