// The bytes of a card's entries, and their kinds, by what each entry says; and what negating makes of that.
// Short names: k, the number of an entry; end, the number of the entry after it and its inner ones.
#![tactic(auto)]

ghost use Rattle.std.specs.Prelude.{◌≡◌, cond, ◌∷◌, [], ◌+◌, ◌*◌, ◌<◌, ◌≤◌, length};
ghost use Rattle.tables.specs.Lists.{placed};
ghost use Rattle.tables.specs.Values.{most_entries};
ghost use Rattle.card.specs.Layout.{record_size, kind_number, kind_of, value_bytes, record_bytes};
ghost use Rattle.translation.specs.Translation.{other, other_connective, other_quantifier, other_comparison, other_mark, other_leaf};

use card::{
    AND_ENTRY, BLANK, COMPARISON_OR_NO, COMPARISON_OR_YES, COMPARISON_PLACE, DECLINED, EVERY_ROW,
    Head, Interpretation, LEFT_PLACE, Leaf, NOT_BLANK, NOT_DECLINED, OR_ENTRY, RECORD_SIZE,
    RIGHT_PLACE, SOME_ROW, TABLE_PLACE,
};
use cells::put_bytes;
use tables::{Comparison, Connective, MOST_ENTRIES, MarkTest, Quantifier, Value};

// What negating swaps with another value of its type.
pub trait Swapped: Copy {
    ghost other: { Self → Self };

    fn other(self) -> Self
        ensures { result ≡ other self };
}

impl Swapped for Connective {
    ghost other = { other_connective };

    fn other(self) -> Connective {
        match self {
            Connective::And => Connective::Or,
            Connective::Or => Connective::And,
        }
    }
}

impl Swapped for Quantifier {
    ghost other = { other_quantifier };

    fn other(self) -> Quantifier {
        match self {
            Quantifier::Some => Quantifier::All,
            Quantifier::All => Quantifier::Some,
        }
    }
}

// The comparison that holds just where this one does not.
impl Swapped for Comparison {
    ghost other = { other_comparison };

    fn other(self) -> Comparison {
        match self {
            Comparison::Eq => Comparison::Ne,
            Comparison::Ne => Comparison::Eq,
            Comparison::Lt => Comparison::Ge,
            Comparison::Le => Comparison::Gt,
            Comparison::Gt => Comparison::Le,
            Comparison::Ge => Comparison::Lt,
        }
    }
}

impl Swapped for Interpretation {
    ghost other = { other };

    fn other(self) -> Interpretation {
        match self {
            Interpretation::AsNo => Interpretation::AsYes,
            Interpretation::AsYes => Interpretation::AsNo,
        }
    }
}

impl Swapped for MarkTest {
    ghost other = { other_mark };

    fn other(self) -> MarkTest {
        match self {
            MarkTest::Null => MarkTest::NotNull,
            MarkTest::NotNull => MarkTest::Null,
            MarkTest::IsDeclined => MarkTest::NotDeclined,
            MarkTest::NotDeclined => MarkTest::IsDeclined,
        }
    }
}

// The values stay: what is asked of them is swapped.
impl Swapped for Leaf {
    ghost other = { other_leaf };

    fn other(self) -> Leaf {
        match self {
            Leaf::CompareLeaf {
                unknown,
                comparison,
                left,
                right,
            } => Leaf::CompareLeaf {
                unknown: unknown.other(),
                comparison: comparison.other(),
                left,
                right,
            },
            Leaf::MarkLeaf { test, value } => Leaf::MarkLeaf {
                test: test.other(),
                value,
            },
        }
    }
}

// A value as it is, or negated.
pub fn negated<T: Swapped>(value: T, negate: bool) -> T
    ensures { result ≡ cond negate (T.other value) value }
{
    if negate { value.other() } else { value }
}

// The byte of the kind of an entry that says this.
fn kind_byte(head: Head) -> u8
    ensures { result ≡ kind_number (kind_of head) }
{
    let number = match head {
        Head::PairHead(Connective::And) => AND_ENTRY,
        Head::PairHead(Connective::Or) => OR_ENTRY,
        Head::RowHead {
            quantifier: Quantifier::Some,
            ..
        } => SOME_ROW,
        Head::RowHead {
            quantifier: Quantifier::All,
            ..
        } => EVERY_ROW,
        Head::LeafHead(
            Leaf::CompareLeaf {
                unknown: Interpretation::AsNo,
                ..
            },
        ) => COMPARISON_OR_NO,
        Head::LeafHead(
            Leaf::CompareLeaf {
                unknown: Interpretation::AsYes,
                ..
            },
        ) => COMPARISON_OR_YES,
        Head::LeafHead(Leaf::MarkLeaf { test, .. }) => match test {
            MarkTest::Null => BLANK,
            MarkTest::NotNull => NOT_BLANK,
            MarkTest::IsDeclined => DECLINED,
            MarkTest::NotDeclined => NOT_DECLINED,
        },
    };
    number as u8
}

// The tag of a constant in a record; any other tag is the level of a column.
const CONSTANT: u8 = 255;

// The bytes of a value in a record.
const VALUE_SIZE: usize = 5;

// A value's bytes: its tag, and its number.
fn value_bytes(value: Value) -> [u8; VALUE_SIZE]
    ensures { result ≡ value_bytes value }
{
    let (tag, number) = match value {
        Value::Constant(number) => (CONSTANT, number.cast_unsigned()),
        Value::Column { level, column } => (level, column),
    };
    let [first, second, third, fourth] = number.to_le_bytes();
    [tag, first, second, third, fourth]
}

// The record of an entry: its end, and what it says besides its kind; what its kind does not use is 0.
fn record_bytes(end: u16, head: Head) -> [u8; RECORD_SIZE]
    ensures { result ≡ record_bytes end head }
{
    let mut record = [0; RECORD_SIZE];
    put_bytes(&mut record, 0, &end.to_le_bytes());
    match head {
        Head::PairHead(_) => (),
        Head::RowHead { table, .. } => record[TABLE_PLACE] = table,
        Head::LeafHead(
            Leaf::CompareLeaf {
                comparison,
                left,
                right,
                ..
            },
        ) => {
            record[COMPARISON_PLACE] = u8::from(comparison);
            put_bytes(&mut record, LEFT_PLACE, &value_bytes(left));
            put_bytes(&mut record, RIGHT_PLACE, &value_bytes(right));
        }
        Head::LeafHead(Leaf::MarkLeaf { value, .. }) => {
            put_bytes(&mut record, LEFT_PLACE, &value_bytes(value));
        }
    }
    record
}

// Entry k: its kind, and its record.
#[tactic(auto, using(tables::proofs::Placed::placed_one))]
pub fn put_entry(
    kinds: &mut [u8; MOST_ENTRIES],
    records: &mut [u8],
    k: usize,
    end: usize,
    head: Head,
)
    requires few { k < most_entries }
    requires end_small { end < 65536 }
    requires room { record_size * k + record_size ≤ length records.old }
    ensures kinds { kinds.new ≡ placed kinds.old k (kind_number (kind_of head) ∷ []) }
    ensures records { records.new ≡ placed records.old (record_size * k) (record_bytes end head) }
{
    kinds[k] = kind_byte(head);
    put_bytes(records, RECORD_SIZE * k, &record_bytes(end as u16, head));
}
