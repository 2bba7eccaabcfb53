// The phrases of the grammar that hold no condition: a value, a FROM, how a test begins, and the truth test that may follow a bracketed condition.
// Short names: s, the tokens; at, the place of one.
#![tactic(auto)]

ghost use Rattle.std.specs.Prelude.{◌≡◌, ◌+◌, Some, true, false};
ghost use Rattle.std.proofs.Math.Option.{none};
ghost use Rattle.rule.specs.Tokens.{EXISTS, IS, Open};
ghost use Rattle.rule.specs.Reader.{expect};
ghost use Rattle.rule.specs.declared.Test.TheVariants.{Mark};
ghost use Rattle.rule.specs.declared.Token.TheVariants.{Fixed, Compares};
ghost use Rattle.phrases.specs.Code.{tokens_from, Stands, TokenAt, WordAt, NumberAt, LetterAt, ValueAt, FromAt, ListAt, started_whole, ComparisonAt, FollowedAt, BehindAt, TestAt, TruthAt, TruthTestAt};

use rule::{FromClause, Head, Source, Test, Token, Truth, Unary, Word, WrittenValue};
use tables::{Comparison, MarkTest, Quantifier};

// What a part says by itself, as it is written.
pub type Note = Head<WrittenValue, Source>;

// A value, and the place after it.
#[derive(Clone, Copy)]
pub struct ValueRead {
    pub value: WrittenValue,
    pub next: usize,
}

// FROM number letter WHERE: what it says, and the place after it.
#[derive(Clone, Copy)]
pub struct FromRead {
    pub from: FromClause<Source>,
    pub next: usize,
}

// How a test begins: it is read to its end, or up to the condition that it holds.
#[derive(Clone, Copy)]
pub enum Start {
    Whole { note: Note, next: usize },
    Around { note: Note, next: usize },
}

// A truth test, and the place after it.
#[derive(Clone, Copy)]
pub struct TruthRead {
    pub unary: Unary,
    pub next: usize,
}

// The token at a place; none past the end.
pub fn token(s: &[Token], at: usize) -> Option<Token>
    ensures { TokenAt s.now at result }
{
    s.get(at).copied()
}

// The word at a place.
#[tactic(auto, using(crate::proofs::Tokens::token_rules))]
fn word_at(s: &[Token], at: usize) -> Option<Word>
    ensures { WordAt s.now at result }
{
    match token(s, at)? {
        Token::Fixed(word) => Some(word),
        _ => None,
    }
}

// The number at a place.
#[tactic(auto, using(crate::proofs::Tokens::token_rules))]
fn number_at(s: &[Token], at: usize) -> Option<i32>
    ensures { NumberAt s.now at result }
{
    match token(s, at)? {
        Token::Number(number) => Some(number),
        _ => None,
    }
}

// The letter at a place.
#[tactic(auto, using(crate::proofs::Tokens::token_rules))]
fn letter_at(s: &[Token], at: usize) -> Option<u8>
    ensures { LetterAt s.now at result }
{
    match token(s, at)? {
        Token::Letter(letter) => Some(letter),
        _ => None,
    }
}

// Whether this word stands at a place.
#[tactic(auto, using(crate::proofs::Tokens::expect_other))]
pub fn is_word(s: &[Token], at: usize, word: Word) -> bool
    ensures there { result ≡ true → Stands s.now at (Fixed word) }
    ensures absent { result ≡ false → expect (Fixed word) (tokens_from s.now at) ≡ none }
{
    match word_at(s, at) {
        Some(found) => found == word,
        None => false,
    }
}

// A number, or letter . number.
#[tactic(auto, using(crate::proofs::Runs::value_rules))]
fn read_value(s: &[Token], at: usize) -> Option<ValueRead>
    ensures { ValueAt s.now at result }
{
    match token(s, at)? {
        Token::Number(number) => Some(ValueRead {
            value: WrittenValue::Plain(number),
            next: at + 1,
        }),
        Token::Letter(letter) if is_word(s, at + 1, Word::Point) => {
            let number = number_at(s, at + 2)?;
            Some(ValueRead {
                value: WrittenValue::Named { letter, number },
                next: at + 3,
            })
        }
        _ => None,
    }
}

// FROM number letter WHERE.
#[tactic(auto, using(crate::proofs::Runs::from_rules))]
fn read_from(s: &[Token], at: usize) -> Option<FromRead>
    ensures { FromAt s.now at result }
{
    if !is_word(s, at, Word::From) {
        return None;
    }
    let table = number_at(s, at + 1)?;
    let letter = letter_at(s, at + 2)?;
    if !is_word(s, at + 3, Word::Where) {
        return None;
    }
    Some(FromRead {
        from: FromClause::Single(Source::Over { table, letter }),
        next: at + 4,
    })
}

// ( SELECT value FROM number letter WHERE, after the value and what compares it.
#[tactic(auto, using(crate::proofs::Begun::list_rules))]
fn start_list(
    s: &[Token],
    at: usize,
    quantifier: Quantifier,
    comparison: Comparison,
    left: WrittenValue,
) -> Option<Start>
    ensures { ListAt s.now at quantifier comparison left result }
{
    if !is_word(s, at, Word::Open) || !is_word(s, at + 1, Word::Select) {
        return None;
    }
    let selected = read_value(s, at + 2)?;
    let FromRead { from, next } = read_from(s, selected.next)?;
    let note = Head::ListedHead {
        quantifier,
        comparison,
        left,
        selected: selected.value,
        from,
    };
    Some(Start::Around { note, next })
}

// A test of a value by the mark, up to the place behind it.
fn mark_test(test: MarkTest, value: WrittenValue, next: usize) -> Start
    ensures { result ≡ started_whole (Mark test value) next }
{
    Start::Whole {
        note: Head::AtomHead(Test::Mark { test, value }),
        next,
    }
}

// IS NULL, IS DECLINED, IS NOT NULL or IS NOT DECLINED, from the IS on that follows a value.
#[tactic(auto, using(crate::proofs::Following::mark_rules))]
fn start_mark(s: &[Token], at: usize, left: WrittenValue) -> Option<Start>
    requires { Stands s.now at IS }
    ensures { FollowedAt s.now at left result }
{
    match word_at(s, at + 1)? {
        Word::Null => Some(mark_test(MarkTest::Null, left, at + 2)),
        Word::Declined => Some(mark_test(MarkTest::IsDeclined, left, at + 2)),
        Word::Not => match word_at(s, at + 2)? {
            Word::Null => Some(mark_test(MarkTest::NotNull, left, at + 3)),
            Word::Declined => Some(mark_test(MarkTest::NotDeclined, left, at + 3)),
            _ => None,
        },
        _ => None,
    }
}

// What stands behind a value and compares it, with the comparison: a list, whose bracket stands at this place, and which of its rows are asked for; or another
// value, at this place.
#[derive(Clone, Copy)]
pub enum Behind {
    List {
        quantifier: Quantifier,
        comparison: Comparison,
        at: usize,
    },
    Value {
        comparison: Comparison,
        at: usize,
    },
}

// The same from a comparison on: SOME or ALL and a list, or another value.
#[tactic(auto, using(crate::proofs::Following::comparison_rules))]
fn behind_comparison(s: &[Token], at: usize, comparison: Comparison) -> Behind
    requires { Stands s.now at (Compares comparison) }
    ensures { BehindAt s.now at (Some result) }
{
    if is_word(s, at + 1, Word::Some) {
        return Behind::List {
            quantifier: Quantifier::Some,
            comparison,
            at: at + 2,
        };
    }
    if is_word(s, at + 1, Word::All) {
        return Behind::List {
            quantifier: Quantifier::All,
            comparison,
            at: at + 2,
        };
    }
    Behind::Value {
        comparison,
        at: at + 1,
    }
}

// The same from a word on: IN is SOME with =, NOT IN is ALL with <>.
#[tactic(auto, using(crate::proofs::Following::behind_rules))]
fn behind_word(s: &[Token], at: usize, word: Word) -> Option<Behind>
    requires here { Stands s.now at (Fixed word) }
    requires no_is { expect IS (tokens_from s.now at) ≡ none }
    ensures { BehindAt s.now at result }
{
    match word {
        Word::In => Some(Behind::List {
            quantifier: Quantifier::Some,
            comparison: Comparison::Eq,
            at: at + 1,
        }),
        Word::Not if is_word(s, at + 1, Word::In) => Some(Behind::List {
            quantifier: Quantifier::All,
            comparison: Comparison::Ne,
            at: at + 2,
        }),
        _ => None,
    }
}

// What stands behind a value, where it is no IS.
#[tactic(auto, using(crate::proofs::Following::behind_rules))]
fn read_behind(s: &[Token], at: usize) -> Option<Behind>
    requires { expect IS (tokens_from s.now at) ≡ none }
    ensures { BehindAt s.now at result }
{
    match token(s, at)? {
        Token::Fixed(word) => behind_word(s, at, word),
        Token::Compares(comparison) => Some(behind_comparison(s, at, comparison)),
        _ => None,
    }
}

// A comparison of a value with the one at a place.
#[tactic(auto, using(crate::proofs::Following::a_comparison))]
fn start_comparison(
    s: &[Token],
    at: usize,
    comparison: Comparison,
    left: WrittenValue,
) -> Option<Start>
    ensures { ComparisonAt s.now at comparison left result }
{
    let ValueRead { value: right, next } = read_value(s, at)?;
    let test = Test::Compare {
        comparison,
        left,
        right,
    };
    Some(Start::Whole {
        note: Head::AtomHead(test),
        next,
    })
}

// What follows a value. The call for a list stands here once, so that it is compiled into its callers: as a call by itself it took the value, and gave
// its answer, through memory, and reading was slower.
fn start_value(s: &[Token], at: usize, left: WrittenValue) -> Option<Start>
    ensures { FollowedAt s.now at left result }
{
    if is_word(s, at, Word::Is) {
        return start_mark(s, at, left);
    }
    match read_behind(s, at)? {
        Behind::List {
            quantifier,
            comparison,
            at: next,
        } => start_list(s, next, quantifier, comparison, left),
        Behind::Value {
            comparison,
            at: next,
        } => start_comparison(s, next, comparison, left),
    }
}

// EXISTS ( FROM number letter WHERE, from the EXISTS on.
#[tactic(auto, using(crate::proofs::Following::exists_rules))]
fn start_exists(s: &[Token], at: usize) -> Option<Start>
    requires { Stands s.now at EXISTS }
    ensures { TestAt s.now at result }
{
    if !is_word(s, at + 1, Word::Open) {
        return None;
    }
    let FromRead { from, next } = read_from(s, at + 2)?;
    Some(Start::Around {
        note: Head::ExistsHead(from),
        next,
    })
}

// How the test at a place begins, where it is no bracket.
#[tactic(auto, using(crate::proofs::Following::test_rules))]
pub fn start_test(s: &[Token], at: usize) -> Option<Start>
    requires { expect Open (tokens_from s.now at) ≡ none }
    ensures { TestAt s.now at result }
{
    if is_word(s, at, Word::Exists) {
        return start_exists(s, at);
    }
    let ValueRead { value, next } = read_value(s, at)?;
    start_value(s, next, value)
}

// TRUE, FALSE or UNKNOWN.
#[tactic(auto, using(crate::proofs::Truths::truth_rules))]
fn read_truth(s: &[Token], at: usize) -> Option<Truth>
    ensures { TruthAt s.now at result }
{
    match word_at(s, at)? {
        Word::True => Some(Truth::True),
        Word::False => Some(Truth::False),
        Word::Unknown => Some(Truth::Unknown),
        _ => None,
    }
}

// The truth test whose IS stands before a place.
#[tactic(auto, using(crate::proofs::Truths::test_rules))]
pub fn read_truth_test(s: &[Token], at: usize) -> Option<TruthRead>
    ensures { TruthTestAt s.now at result }
{
    if is_word(s, at, Word::Not) {
        let truth = read_truth(s, at + 1)?;
        return Some(TruthRead {
            unary: Unary::IsNot(truth),
            next: at + 2,
        });
    }
    let truth = read_truth(s, at)?;
    Some(TruthRead {
        unary: Unary::Is(truth),
        next: at + 1,
    })
}
