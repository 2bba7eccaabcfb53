// What a tables file is, and what rules and cards share. The definitions are in specs/.
#![tactic(auto)]

ghost use Rattle.std.specs.Prelude.{◌≡◌};
ghost use Rattle.tables.specs.Values.{comparison_number};

// The most entries that a card has, and so the greatest sum of a rule that is accepted; refusal 13 goes by it.
pub const MOST_ENTRIES: usize = 192;

// The six comparisons, in the order of their published numbers.
#[derive(Clone, Copy, PartialEq, Eq)]
pub enum Comparison {
    Eq,
    Ne,
    Lt,
    Le,
    Gt,
    Ge,
}

// The published number of a comparison.
impl From<Comparison> for u8 {
    fn from(comparison: Comparison) -> u8
        ensures { result ≡ comparison_number comparison }
    {
        match comparison {
            Comparison::Eq => 1,
            Comparison::Ne => 2,
            Comparison::Lt => 3,
            Comparison::Le => 4,
            Comparison::Gt => 5,
            Comparison::Ge => 6,
        }
    }
}

// What joins two conditions, or two entries.
#[derive(Clone, Copy, PartialEq, Eq)]
pub enum Connective {
    And,
    Or,
}

// What is asked of a table's rows.
#[derive(Clone, Copy, PartialEq, Eq)]
pub enum Quantifier {
    Some,
    All,
}

// What is asked of a cell's mark.
#[derive(Clone, Copy, PartialEq, Eq)]
pub enum MarkTest {
    Null,
    NotNull,
    IsDeclined,
    NotDeclined,
}

// A value of a rule or of a card: a number, or a column of the row at which a level stands.
#[derive(Clone, Copy, PartialEq, Eq)]
pub enum Value {
    Constant(i32),
    Column { level: u8, column: u32 },
}
