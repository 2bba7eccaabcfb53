// What a rule is, from its text to its value. The definitions are in specs/; this is the record of a part, as the definitions and the code have it, the
// numbers of its kinds, and the truth values.
#![tactic(auto)]

ghost use Rattle.std.specs.Prelude.{◌≡◌, ◌≤◌};
ghost use Rattle.rule.specs.Truth.{truth, not3, truth_number};

use std::ops::Not;
use tables::{Comparison, Connective, MarkTest, Quantifier};

// The two structs are laid out as C lays out the same, for callers in C. A value: a tag, 255 for a constant, else the level of a column; and the constant, or the column's number.
#[repr(C)]
#[derive(Clone, Copy)]
pub struct TaggedValue {
    pub tag: u8,
    pub number: i32,
}

// A part of a rule: its kind, 1 to 17; its comparison, 1 to 6; the number of its table; the number of the first part after it and its inner parts; its
// values. What the numbers mean is in specs/Parts.antt; fields that a kind does not use are 0.
#[repr(C)]
#[derive(Clone, Copy)]
pub struct Part {
    pub kind: u8,
    pub comparison: u8,
    pub table: u8,
    pub end: u8,
    pub left: TaggedValue,
    pub right: TaggedValue,
}

// The three truth values, in the order of their published numbers: so AND is the least of two, and OR the greatest.
#[derive(Clone, Copy, PartialEq, Eq, PartialOrd, Ord)]
pub enum Truth {
    False,
    Unknown,
    True,
}

// What holds is true, and what does not is false.
impl From<bool> for Truth {
    fn from(holds: bool) -> Truth
        ensures { result ≡ truth holds }
    {
        if holds { Truth::True } else { Truth::False }
    }
}

// The published number of a truth value.
impl From<Truth> for u8 {
    fn from(truth: Truth) -> u8
        ensures { result ≡ truth_number truth }
    {
        match truth {
            Truth::False => 0,
            Truth::Unknown => 1,
            Truth::True => 2,
        }
    }
}

// The truth value with this number, at most 2.
fn numbered(number: u8) -> Truth
    requires { number ≤ 2 }
    ensures { truth_number result ≡ number }
{
    match number {
        0 => Truth::False,
        1 => Truth::Unknown,
        _ => Truth::True,
    }
}

// NOT by arithmetic: 2 minus the value. AND is the smaller of two, and OR the greater, by the order of the values.
impl Not for Truth {
    type Output = Truth;

    fn not(self) -> Truth
        ensures { result ≡ not3 self }
    {
        numbered(2 - u8::from(self))
    }
}

// A test without inner conditions, over operands V: a comparison of two, or a test of one by its mark.
#[derive(Clone, Copy, PartialEq, Eq)]
pub enum Test<V> {
    Compare {
        comparison: Comparison,
        left: V,
        right: V,
    },
    Mark {
        test: MarkTest,
        value: V,
    },
}

// What is said of one condition: NOT, or a truth test.
#[derive(Clone, Copy, PartialEq, Eq)]
pub enum Unary {
    Not,
    Is(Truth),
    IsNot(Truth),
}

// What a FROM says, over tables T: it names one.
#[derive(Clone, Copy, PartialEq, Eq)]
pub enum FromClause<T> {
    Single(T),
}

// A value as it is written: a number, or a letter and a number.
#[derive(Clone, Copy, PartialEq, Eq)]
pub enum WrittenValue {
    Plain(i32),
    Named { letter: u8, number: i32 },
}

// A table as it is written: its number, and the letter under which it stands.
#[derive(Clone, Copy, PartialEq, Eq)]
pub enum Source {
    Over { table: i32, letter: u8 },
}

// What a part says by itself, over operands V and tables T.
#[derive(Clone, Copy, PartialEq, Eq)]
pub enum Head<V, T> {
    AtomHead(Test<V>),
    JoinHead(Connective),
    UnaryHead(Unary),
    ExistsHead(FromClause<T>),
    ListedHead {
        quantifier: Quantifier,
        comparison: Comparison,
        left: V,
        selected: V,
        from: FromClause<T>,
    },
}

// The words, the brackets and the point: the tokens that are always written the same, but for comparisons.
#[derive(Clone, Copy, PartialEq, Eq)]
pub enum Word {
    And,
    Or,
    Not,
    Exists,
    In,
    Some,
    All,
    Is,
    Null,
    Select,
    From,
    Where,
    Open,
    Close,
    Point,
    True,
    False,
    Unknown,
    Declined,
}

// A token of a rule's text.
#[derive(Clone, Copy, PartialEq, Eq)]
pub enum Token {
    Fixed(Word),
    Compares(Comparison),
    Letter(u8),
    Number(i32),
}

// The kinds of parts, as they are published.
pub const AND_PART: usize = 1;

pub const OR_PART: usize = 2;

pub const NOT_PART: usize = 3;

pub const COMPARISON_PART: usize = 4;

pub const NULL_PART: usize = 5;

pub const NOT_NULL_PART: usize = 6;

pub const EXISTS_PART: usize = 7;

pub const SOME_PART: usize = 8;

pub const ALL_PART: usize = 9;

pub const IS_TRUE_PART: usize = 10;

pub const IS_NOT_TRUE_PART: usize = 11;

pub const IS_FALSE_PART: usize = 12;

pub const IS_NOT_FALSE_PART: usize = 13;

pub const IS_UNKNOWN_PART: usize = 14;

pub const IS_NOT_UNKNOWN_PART: usize = 15;

pub const DECLINED_PART: usize = 16;

pub const NOT_DECLINED_PART: usize = 17;
