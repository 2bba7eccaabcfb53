// Values: the cell or the constant that one stands for, and whether two numbers compare. Rules and cards are judged over these.
// Short name: w, for each level the number of its row's first cell.
#![tactic(auto)]

ghost use Rattle.std.specs.Prelude.{◌≡◌};
ghost use Rattle.tables.specs.Values.{comparison_of, holds};
ghost use Rattle.values.specs.Code.{ValueReady, Sees};

use cells::{Layout, PRESENT_MARK, Place, Seen};
use tables::{Comparison, Value};

// How many levels a value can name: the judged row, and a row for each of at most three FROMs, or row entries, around it.
pub const LEVELS: usize = 4;

// What is seen of the cell or the constant that a value stands for; w has the first cell of each level's row.
pub fn look(layout: &Layout, file: &[u8], w: &[usize; LEVELS], value: Value) -> Seen
    requires { ValueReady layout.now file.now w.now value }
    ensures { Sees layout.now file.now w.now value result }
{
    match value {
        Value::Constant(number) => Seen {
            mark: PRESENT_MARK,
            number,
        },
        // The number of the cell is known here, so the window is on this cell alone: no row has to be counted at each look.
        Value::Column { level, column } => {
            let at = Place {
                values: layout.values,
                marks: layout.marks,
                first: w[level as usize] + (column as usize - 1),
                columns: 1,
                rows: 1,
            };
            window::cell(file, at, 0, 0)
        }
    }
}

// The comparison with a published number, 1 to 6; any other number is taken for =.
pub fn comparison_of(number: usize) -> Comparison
    ensures { result ≡ comparison_of number }
{
    match number {
        2 => Comparison::Ne,
        3 => Comparison::Lt,
        4 => Comparison::Le,
        5 => Comparison::Gt,
        6 => Comparison::Ge,
        _ => Comparison::Eq,
    }
}

// Whether two numbers compare so.
pub fn numbers_hold(comparison: Comparison, x: i32, y: i32) -> bool
    ensures { result ≡ holds comparison x y }
{
    match comparison {
        Comparison::Eq => x == y,
        Comparison::Ne => x != y,
        Comparison::Lt => x < y,
        Comparison::Le => x <= y,
        Comparison::Gt => y < x,
        Comparison::Ge => y <= x,
    }
}
