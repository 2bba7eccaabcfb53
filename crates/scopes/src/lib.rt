// The letters that are bound around a part; what a written value, a FROM and a whole part stand for there.
#![tactic(auto)]

ghost use Rattle.std.specs.Prelude.{◌≡◌, ◌+◌, ◌<◌, ◌≤◌, IfSome};
ghost use Rattle.std.proofs.Math.Option.{map};
ghost use Rattle.tables.specs.Options.{found};
ghost use Rattle.tables.specs.Tables.{columns_of};
ghost use Rattle.tables.specs.Values.{most_levels};
ghost use Rattle.cells.specs.Code.{Sized};
ghost use Rattle.rule.specs.Names.{existing, value_in, test_in, from_in};
ghost use Rattle.rule.specs.declared.FromClause.TheVariants.{Single};
ghost use Rattle.rule.specs.declared.Source.TheVariants.{Over};
ghost use Rattle.rule.specs.declared.WrittenValue.TheVariants.{Named};
ghost use Rattle.scopes.specs.Code.{scope_in, binding, outer_scope, NearestAt, ScopeFits, opened_as, letters_in, named_in, named_as};

use grammar::MOST_FROMS;
use phrases::Note;
use rule::{FromClause, Head, Source, Test, WrittenValue};
use tables::Value;

// The judged row's letter and those of the FROMs around a part.
pub const MOST_LEVELS: usize = 1 + MOST_FROMS;

// The letter of the judged row, and the table that it ranges over.
const JUDGED_LETTER: u8 = b'm';

const JUDGED_TABLE: u8 = 1;

// A letter that is bound, and the table that it ranges over.
#[derive(Clone, Copy)]
pub struct Binding {
    pub letter: u8,
    pub table: u8,
}

// The letters that are bound around a part, the outermost first, and how many levels of them there are.
#[derive(Clone, Copy)]
pub struct HeldScope {
    pub bindings: [Binding; MOST_LEVELS],
    pub levels: usize,
}

// What a FROM says in a rule, and the letters that are bound in it.
#[derive(Clone, Copy)]
struct Opened {
    from: FromClause<u8>,
    inside: HeldScope,
}

// What a part says in a rule, and the letters that are bound around the conditions in it.
#[derive(Clone, Copy)]
pub struct NamedHead {
    pub head: Head<Value, u8>,
    pub inside: HeldScope,
}

// The table or column with a written number, of which there are so many.
fn find_numbered(number: i32, most: u8) -> Option<u8>
    ensures is { found result ≡ existing most number }
    ensures within { IfSome result (λ n. (1 ≤ n) × (n ≤ most)) }
{
    let n = u8::try_from(number).ok()?;
    (1..=most).contains(&n).then_some(n)
}

// The level of the nearest binding of a letter.
fn find_letter(scope: &HeldScope, letter: u8) -> Option<usize>
    requires { scope.now.levels ≤ most_levels }
    ensures { NearestAt scope.now letter result }
{
    scope.bindings[..scope.levels]
        .iter()
        .rposition(|binding| binding.letter == letter)
}

// The column with a written number in the table that a letter ranges over.
fn find_column(file: &[u8], scope: &HeldScope, letter: u8, number: i32) -> Option<Value>
    requires fact_1 { Sized file.now }
    requires fact_2 { ScopeFits file.now scope.now }
    ensures { found result ≡ value_in (columns_of file.now) (scope_in scope.now) (Named letter number) }
{
    let level = find_letter(scope, letter)?;
    let table = scope.bindings[level].table;
    let most = cells::table_columns(file, table as usize - 1) as u8;
    let column = find_numbered(number, most)?;
    Some(Value::Column {
        level: level as u8,
        column: column as u32,
    })
}

// What a written value stands for where these letters are bound.
#[tactic(auto, unfolding(rule::specs::Names::value_in))]
fn resolve(file: &[u8], scope: &HeldScope, value: WrittenValue) -> Option<Value>
    requires fact_1 { Sized file.now }
    requires fact_2 { ScopeFits file.now scope.now }
    ensures { found result ≡ value_in (columns_of file.now) (scope_in scope.now) value }
{
    match value {
        WrittenValue::Plain(number) => Some(Value::Constant(number)),
        WrittenValue::Named { letter, number } => find_column(file, scope, letter, number),
    }
}

// What a test stands for there.
#[tactic(auto, unfolding(rule::specs::Names::test_in))]
fn resolve_test(file: &[u8], scope: &HeldScope, test: Test<WrittenValue>) -> Option<Test<Value>>
    requires fact_1 { Sized file.now }
    requires fact_2 { ScopeFits file.now scope.now }
    ensures { found result ≡ test_in (columns_of file.now) (scope_in scope.now) test }
{
    match test {
        Test::Compare {
            comparison,
            left,
            right,
        } => {
            let left_value = resolve(file, scope, left)?;
            let right_value = resolve(file, scope, right)?;
            Some(Test::Compare {
                comparison,
                left: left_value,
                right: right_value,
            })
        }
        Test::Mark { test, value } => {
            let value = resolve(file, scope, value)?;
            Some(Test::Mark { test, value })
        }
    }
}

// The scope with one letter more, which ranges over this table.
fn bind(scope: &HeldScope, letter: u8, table: u8) -> HeldScope
    requires { scope.now.levels < most_levels }
    ensures { result ≡ binding scope.now letter table }
{
    let mut inside = *scope;
    inside.bindings[scope.levels] = Binding { letter, table };
    inside.levels += 1;
    inside
}

// The scope of a whole rule: m alone.
pub fn outermost() -> HeldScope
    ensures { result ≡ outer_scope }
{
    let unbound = Binding {
        letter: 0,
        table: 0,
    };
    let none = HeldScope {
        bindings: [unbound; MOST_LEVELS],
        levels: 0,
    };
    bind(&none, JUDGED_LETTER, JUDGED_TABLE)
}

// The table with a written number, whose rows a letter stands for one level deeper.
fn open_table(file: &[u8], scope: &HeldScope, number: i32, letter: u8) -> Option<Opened>
    requires fact_1 { Sized file.now }
    requires fact_2 { ScopeFits file.now scope.now }
    requires fact_3 { scope.now.levels < most_levels }
    ensures is { map opened_as (found result) ≡ from_in (columns_of file.now) (scope_in scope.now) (Single (Over number letter)) }
    ensures fits { IfSome result (λ o. ScopeFits file.now o.inside × (o.inside.levels ≡ scope.now.levels + 1)) }
{
    let table = find_numbered(number, file[0])?;
    Some(Opened {
        from: FromClause::Single(table),
        inside: bind(scope, letter, table),
    })
}

// What a FROM stands for.
fn open(file: &[u8], scope: &HeldScope, from: FromClause<Source>) -> Option<Opened>
    requires fact_1 { Sized file.now }
    requires fact_2 { ScopeFits file.now scope.now }
    requires fact_3 { scope.now.levels < most_levels }
    ensures is { map opened_as (found result) ≡ from_in (columns_of file.now) (scope_in scope.now) from }
    ensures fits { IfSome result (λ o. ScopeFits file.now o.inside × (o.inside.levels ≡ scope.now.levels + 1)) }
{
    match from {
        FromClause::Single(Source::Over { table, letter }) => {
            open_table(file, scope, table, letter)
        }
    }
}

// What a noted part stands for; None if a name in it means nothing. The value left of a list sees the letters outside the FROM, the selected one those inside.
#[tactic(auto, unfolding(crate::specs::Code::named_in))]
pub fn name_note(file: &[u8], scope: &HeldScope, note: Note) -> Option<NamedHead>
    requires fact_1 { Sized file.now }
    requires fact_2 { ScopeFits file.now scope.now }
    requires fact_3 { scope.now.levels + letters_in note ≤ most_levels }
    ensures is { map named_as (found result) ≡ named_in (columns_of file.now) (scope_in scope.now) note }
    ensures fits { IfSome result (λ n. ScopeFits file.now n.inside × (n.inside.levels ≡ scope.now.levels + letters_in note)) }
{
    let inside = *scope;
    match note {
        Head::AtomHead(test) => {
            let test = resolve_test(file, scope, test)?;
            Some(NamedHead {
                head: Head::AtomHead(test),
                inside,
            })
        }
        Head::JoinHead(connective) => Some(NamedHead {
            head: Head::JoinHead(connective),
            inside,
        }),
        Head::UnaryHead(unary) => Some(NamedHead {
            head: Head::UnaryHead(unary),
            inside,
        }),
        Head::ExistsHead(from) => {
            let Opened { from, inside } = open(file, scope, from)?;
            Some(NamedHead {
                head: Head::ExistsHead(from),
                inside,
            })
        }
        Head::ListedHead {
            quantifier,
            comparison,
            left,
            selected,
            from,
        } => {
            let Opened { from, inside } = open(file, scope, from)?;
            let left = resolve(file, scope, left)?;
            let selected = resolve(file, &inside, selected)?;
            let head = Head::ListedHead {
                quantifier,
                comparison,
                left,
                selected,
                from,
            };
            Some(NamedHead { head, inside })
        }
    }
}
