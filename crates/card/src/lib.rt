// What a card is. The definitions are in specs/; these are the numbers of its layout, for the functions that read and write cards.
#![tactic(auto)]

use tables::{Comparison, Connective, MarkTest, Quantifier, Value};

// Most row entries around one another.
pub const MOST_ROW_ENTRIES: usize = 3;

// The bytes of a record, and the place of each field in it, after the two bytes of its end.
pub const RECORD_SIZE: usize = 14;

pub const TABLE_PLACE: usize = 2;

pub const COMPARISON_PLACE: usize = 3;

pub const LEFT_PLACE: usize = 4;

pub const RIGHT_PLACE: usize = 9;

// What unknown counts as in a comparison: no, or yes.
#[derive(Clone, Copy, PartialEq, Eq)]
pub enum Interpretation {
    AsNo,
    AsYes,
}

// The kinds of entries: two inner entries joined, the rows of a table, a comparison, and a test by the mark.
#[derive(Clone, Copy, PartialEq, Eq)]
pub enum Kind {
    PairKind(Connective),
    RowKind(Quantifier),
    ComparisonKind(Interpretation),
    MarkKind(MarkTest),
}

// What an entry without inner entries says: a comparison of two values, or a test of one value's mark.
#[derive(Clone, Copy, PartialEq, Eq)]
pub enum Leaf {
    CompareLeaf {
        unknown: Interpretation,
        comparison: Comparison,
        left: Value,
        right: Value,
    },
    MarkLeaf {
        test: MarkTest,
        value: Value,
    },
}

// What an entry says by itself: nothing more, how its two inner entries are joined, or over which table's rows its inner entry is asked.
#[derive(Clone, Copy, PartialEq, Eq)]
pub enum Head {
    LeafHead(Leaf),
    PairHead(Connective),
    RowHead { quantifier: Quantifier, table: u8 },
}

// The kinds of entries, as they are published: first those with two inner entries, then those with one, then those with none.
pub const AND_ENTRY: usize = 1;

pub const OR_ENTRY: usize = 2;

pub const SOME_ROW: usize = 3;

pub const EVERY_ROW: usize = 4;

pub const COMPARISON_OR_NO: usize = 5;

pub const COMPARISON_OR_YES: usize = 6;

pub const BLANK: usize = 7;

pub const NOT_BLANK: usize = 8;

pub const DECLINED: usize = 9;

pub const NOT_DECLINED: usize = 10;
