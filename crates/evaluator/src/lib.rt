// The value of a rule on rows, true, false or unknown, from the values of its parts. No card is made or run.
// As document 02, Point 3, has it: AND is the least of its two sides, and OR the greatest; NOT and the truth tests answer by the value of what they stand before.
// Short names: s, the number of a part; w, for each level the number of its row's first cell, and depth, how many levels there are; v, the same with one level
// more.
#![tactic(auto)]

ghost use Rattle.std.specs.Prelude.{◌≡◌};
ghost use Rattle.tables.specs.Values.{mark_passes};
ghost use Rattle.cells.specs.Code.{seen_cell};
ghost use Rattle.rule.specs.Truth.{join3, deciding};
ghost use Rattle.rule.specs.Meaning.{compare3, unary3};
ghost use Rattle.evaluator.specs.Code.{empty_truth, TestReady, TestEvaluated, Evaluable, Evaluates, Joins, Ranges, Lists, RowReady, RowEvaluated};

use cells::{DECLINED_MARK, Layout, PRESENT_MARK, Seen};
use grammar::MOST_PARTS;
use names::RulePart;
use rule::{FromClause, Head, Test, Truth, Unary};
use tables::{Comparison, Connective, MarkTest, Quantifier, Value};
use values::{LEVELS, look};

// A comparison of two cells: unknown where one of them is blank or declined. The numbers are compared first, and the two marks are asked in one test: where a
// mark was asked before, JUDGE of rows of which some are blank took a fifth longer.
fn compare(comparison: Comparison, x: Seen, y: Seen) -> Truth
    ensures { result ≡ compare3 comparison (seen_cell x) (seen_cell y) }
{
    let holds = values::numbers_hold(comparison, x.number, y.number);
    if (x.mark != PRESENT_MARK) | (y.mark != PRESENT_MARK) {
        return Truth::Unknown;
    }
    Truth::from(holds)
}

// What a test by the mark says of a cell: a declined cell is blank too, so that IS NULL holds of every cell that is not present. A test and its negation share an
// arm: with an arm for each the compiler jumped by a table, and JUDGE of a WHERE with IS NULL in it took a fourth longer.
fn mark_holds(test: MarkTest, x: Seen) -> bool
    ensures { result ≡ mark_passes test (seen_cell x) }
{
    match test {
        MarkTest::Null | MarkTest::NotNull => {
            (x.mark != PRESENT_MARK) == (test == MarkTest::Null)
        }
        MarkTest::IsDeclined | MarkTest::NotDeclined => {
            (DECLINED_MARK <= x.mark) == (test == MarkTest::IsDeclined)
        }
    }
}

// What NOT or a truth test makes of the value of the condition in it.
fn unary_value(unary: Unary, inner: Truth) -> Truth
    ensures { result ≡ unary3 unary inner }
{
    match unary {
        Unary::Not => !inner,
        Unary::Is(truth) => Truth::from(inner == truth),
        Unary::IsNot(truth) => Truth::from(inner != truth),
    }
}

// The value of one side that decides for both: false of AND, which takes the smaller, and true of OR, which takes the greater.
fn deciding(connective: Connective) -> Truth
    ensures { result ≡ deciding connective }
{
    match connective {
        Connective::And => Truth::False,
        Connective::Or => Truth::True,
    }
}

// What AND or OR makes of the values of its two sides.
fn joined(connective: Connective, left: Truth, right: Truth) -> Truth
    ensures { result ≡ join3 connective left right }
{
    match connective {
        Connective::And => left.min(right),
        Connective::Or => left.max(right),
    }
}

// The value over no rows: false of SOME, which a true comparison decides, and true of ALL, which a false one decides.
fn over_no_rows(quantifier: Quantifier) -> Truth
    ensures { result ≡ empty_truth quantifier }
{
    match quantifier {
        Quantifier::Some => Truth::False,
        Quantifier::All => Truth::True,
    }
}

// The parts of a rule, and the tables that it is evaluated over, with where these stand.
#[derive(Clone, Copy)]
pub struct Evaluation<'a> {
    pub parts: &'a [RulePart; MOST_PARTS],
    pub layout: &'a Layout,
    pub file: &'a [u8],
}

impl<'a> Evaluation<'a> {
    // The value of a test. Its first value is looked at in one place, whichever test it is.
    fn evaluate_test(&self, test: &Test<Value>, w: &[usize; LEVELS]) -> Truth
        requires { TestReady self.now w.now test.now }
        ensures { TestEvaluated self.now w.now test.now result }
    {
        let (Test::Compare { left: value, .. } | Test::Mark { value, .. }) = *test;
        let x = look(self.layout, self.file, w, value);
        match *test {
            Test::Compare {
                comparison,
                right,
                ..
            } => compare(comparison, x, look(self.layout, self.file, w, right)),
            Test::Mark { test, .. } => Truth::from(mark_holds(test, x)),
        }
    }

    // The value of part s with its inner parts.
    #[cycle(evaluating)]
    pub fn evaluate_part(&self, s: usize, w: &[usize; LEVELS], depth: usize) -> Truth
        requires { Evaluable self.now w.now s depth }
        ensures { Evaluates self.now w.now s depth result }
    {
        match &self.parts[s].head {
            Head::AtomHead(test) => self.evaluate_test(test, w),
            Head::JoinHead(connective) => self.evaluate_pair(*connective, s, w, depth),
            Head::UnaryHead(unary) => unary_value(*unary, self.evaluate_part(s + 1, w, depth)),
            Head::ExistsHead(FromClause::Single(table)) => {
                self.evaluate_exists(*table, s, w, depth)
            }
            Head::ListedHead { .. } => self.evaluate_list(s, w, depth),
        }
    }

    // AND and OR. Where the left side has the value that decides, the right one is not evaluated: both together would give the same (left_decides of
    // ArithmeticClaim).
    #[cycle(evaluating)]
    fn evaluate_pair(
        &self,
        connective: Connective,
        s: usize,
        w: &[usize; LEVELS],
        depth: usize,
    ) -> Truth
        requires { Joins self.now w.now s depth connective }
        ensures { Evaluates self.now w.now s depth result }
    {
        let left = self.evaluate_part(s + 1, w, depth);
        if left == deciding(connective) {
            return left;
        }
        let right = self.evaluate_part(self.parts[s + 1].end, w, depth);
        joined(connective, left, right)
    }

    // The value of part s, the WHERE of EXISTS or of a list, at a row. Where it is a single test, no recursive call is made for each row.
    #[cycle(evaluating)]
    fn evaluate_where(&self, s: usize, v: &[usize; LEVELS], depth: usize) -> Truth
        requires { Evaluable self.now v.now s depth }
        ensures { Evaluates self.now v.now s depth result }
    {
        if let Head::AtomHead(test) = &self.parts[s].head {
            return self.evaluate_test(test, v);
        }
        self.evaluate_part(s, v, depth)
    }

    // EXISTS: true as soon as its WHERE is true on a row.
    #[cycle(evaluating)]
    fn evaluate_exists(&self, table: u8, s: usize, w: &[usize; LEVELS], depth: usize) -> Truth
        requires { Ranges self.now w.now s depth table }
        ensures { Evaluates self.now w.now s depth result }
    {
        let table = cells::table_place(self.layout, table as usize);
        let mut first = table.first;
        let mut v = *w;
        for _ in 0..table.rows {
            v[depth] = first;
            if self.evaluate_where(s + 1, &v, depth + 1) == Truth::True {
                return Truth::True;
            }
            first += table.columns;
        }
        Truth::False
    }

    // The comparison of a list's left value, seen as x, with the value selected at a row, v; a row that the WHERE does not retain counts as empty, the value over
    // no rows, which decides nothing.
    #[cycle(evaluating)]
    fn evaluate_row(
        &self,
        comparison: Comparison,
        x: Seen,
        selected: Value,
        empty: Truth,
        s: usize,
        v: &[usize; LEVELS],
        depth: usize,
    ) -> Truth
        requires { RowReady self.now v.now s depth selected }
        ensures { RowEvaluated self.now v.now s depth comparison x selected empty result }
    {
        if self.evaluate_where(s + 1, v, depth) != Truth::True {
            return empty;
        }
        compare(comparison, x, look(self.layout, self.file, v, selected))
    }

    // SOME and ALL.
    #[cycle(evaluating)]
    fn evaluate_list(&self, s: usize, w: &[usize; LEVELS], depth: usize) -> Truth
        requires { Lists self.now w.now s depth }
        ensures { Evaluates self.now w.now s depth result }
    {
        let head = self.parts[s].head;
        let Head::ListedHead {
            quantifier,
            comparison,
            left,
            selected,
            from,
        } = head
        else {
            unreachable!();
        };
        let FromClause::Single(table) = from;
        let empty = over_no_rows(quantifier);
        let table = cells::table_place(self.layout, table as usize);
        let mut first = table.first;
        // The value left of a list is read outside it.
        let x = look(self.layout, self.file, w, left);
        let mut v = *w;
        let mut value = empty;
        for _ in 0..table.rows {
            v[depth] = first;
            let row = self.evaluate_row(comparison, x, selected, empty, s, &v, depth + 1);
            if row == !empty {
                return row;
            }
            // Once unknown, the value stays so until a row decides.
            if row == Truth::Unknown {
                value = row;
            }
            first += table.columns;
        }
        value
    }
}
