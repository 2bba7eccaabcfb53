// READ: text and tables to the parts of a rule in a lent list, or the first refusal that applies.
// A lent list of structs is written by `write_parts` alone. What touches that list is kept thin: what is written, and whether it fits, is known before.
#![tactic(auto)]

ghost use Rattle.std.specs.Prelude.{◌≡◌, ◌++◌, ◌≤◌, length, drop};
ghost use Rattle.cells.specs.Reasons.{answer_of};
ghost use Rattle.rule.specs.Calls.{read_call};
ghost use Rattle.rule.specs.Parts.{tagged_of, unary_kind, mark_kind, kind_number, kind_of, table_of};
ghost use Rattle.names.specs.Code.{published};
ghost use Rattle.parts.specs.Parts.{parts_in, SmallValue, SmallPart, SmallParts};
ghost use Rattle.reader.specs.Code.{ReadTo};

use cells::Reason;
use grammar::MOST_PARTS;
use names::{NO_PART, RulePart};
use parser::Parsed;
use rule::{
    ALL_PART, AND_PART, COMPARISON_PART, DECLINED_PART, EXISTS_PART, FromClause, Head,
    IS_FALSE_PART, IS_NOT_FALSE_PART, IS_NOT_TRUE_PART, IS_NOT_UNKNOWN_PART, IS_TRUE_PART,
    IS_UNKNOWN_PART, NOT_DECLINED_PART, NOT_NULL_PART, NOT_PART, NULL_PART, OR_PART, Part,
    SOME_PART, TaggedValue, Test, Truth, Unary,
};
use tables::{Connective, MarkTest, Quantifier, Value};

// The tag of a constant as it is published; that of a column is its level.
const CONSTANT_TAG: u8 = 255;

// READ but for its list: what it answers with room for so many parts, and the parts.
fn read_parts(
    text: &[u8],
    file: &[u8],
    parts: &mut [RulePart; MOST_PARTS],
    room: usize,
) -> Result<usize, Reason>
    ensures { ReadTo text.now file.now room parts.new result }
{
    let parsed = parser::parse(text, file, parts);
    // docs/ARCHITECTURE.md names this form: it passes a refusal of reading up unchanged.
    let Parsed::Rule(count, _) = parsed else {
        return Err(parser::refusal(parsed));
    };
    if room < count {
        return Err(Reason::Short);
    }
    Ok(count)
}

// The kind of NOT and of the truth tests.
fn unary_number(unary: Unary) -> u8
    ensures { result ≡ unary_kind unary }
{
    let kind = match unary {
        Unary::Not => NOT_PART,
        Unary::Is(Truth::True) => IS_TRUE_PART,
        Unary::IsNot(Truth::True) => IS_NOT_TRUE_PART,
        Unary::Is(Truth::False) => IS_FALSE_PART,
        Unary::IsNot(Truth::False) => IS_NOT_FALSE_PART,
        Unary::Is(Truth::Unknown) => IS_UNKNOWN_PART,
        Unary::IsNot(Truth::Unknown) => IS_NOT_UNKNOWN_PART,
    };
    kind as u8
}

// The kind of a test by the mark.
fn mark_number(test: MarkTest) -> u8
    ensures { result ≡ mark_kind test }
{
    let kind = match test {
        MarkTest::Null => NULL_PART,
        MarkTest::NotNull => NOT_NULL_PART,
        MarkTest::IsDeclined => DECLINED_PART,
        MarkTest::NotDeclined => NOT_DECLINED_PART,
    };
    kind as u8
}

// The published number of a part's kind.
fn kind_number(head: Head<Value, u8>) -> u8
    ensures { result ≡ kind_number (kind_of head) }
{
    match head {
        Head::AtomHead(Test::Compare { .. }) => COMPARISON_PART as u8,
        Head::AtomHead(Test::Mark { test, .. }) => mark_number(test),
        Head::JoinHead(Connective::And) => AND_PART as u8,
        Head::JoinHead(Connective::Or) => OR_PART as u8,
        Head::UnaryHead(unary) => unary_number(unary),
        Head::ExistsHead(_) => EXISTS_PART as u8,
        Head::ListedHead {
            quantifier: Quantifier::Some,
            ..
        } => SOME_PART as u8,
        Head::ListedHead {
            quantifier: Quantifier::All,
            ..
        } => ALL_PART as u8,
    }
}

// A value as it is published.
fn tagged_value(value: Value) -> TaggedValue
    requires { SmallValue value }
    ensures { result ≡ tagged_of value }
{
    match value {
        Value::Constant(number) => TaggedValue {
            tag: CONSTANT_TAG,
            number,
        },
        Value::Column { level, column } => TaggedValue {
            tag: level,
            number: column as i32,
        },
    }
}

// The table of a FROM.
fn table_of(from: FromClause<u8>) -> u8
    ensures { result ≡ table_of from }
{
    match from {
        FromClause::Single(table) => table,
    }
}

// A part as it is published: fields that its kind does not use are 0.
fn publish(part: RulePart) -> Part
    requires { SmallPart part }
    ensures { result ≡ published part }
{
    let unused = TaggedValue { tag: 0, number: 0 };
    let plain = Part {
        kind: kind_number(part.head),
        comparison: 0,
        table: 0,
        end: part.end as u8,
        left: unused,
        right: unused,
    };
    match part.head {
        Head::AtomHead(
            Test::Compare {
                comparison,
                left,
                right,
            },
        ) => Part {
            comparison: u8::from(comparison),
            left: tagged_value(left),
            right: tagged_value(right),
            ..plain
        },
        Head::AtomHead(Test::Mark { value, .. }) => Part {
            left: tagged_value(value),
            ..plain
        },
        Head::JoinHead(_) => plain,
        Head::UnaryHead(_) => plain,
        Head::ExistsHead(from) => Part {
            table: table_of(from),
            ..plain
        },
        Head::ListedHead {
            comparison,
            left,
            selected,
            from,
            ..
        } => Part {
            comparison: u8::from(comparison),
            table: table_of(from),
            left: tagged_value(left),
            right: tagged_value(selected),
            ..plain
        },
    }
}

// The first n parts to the start of the list.
fn write_parts(list: &mut [Part], parts: &[RulePart; MOST_PARTS], n: usize)
    requires { (n ≤ length list.old) × ((n ≤ length parts.now) × SmallParts parts.now n) }
    ensures { list.new ≡ parts_in parts.now n ++ drop n list.old }
{
    for i in 0..n {
        list[i] = publish(parts[i]);
    }
}

// READ: the parts of the rule, from the start of the list on. A refusal stores nothing.
pub fn read(text: &[u8], file: &[u8], parts: &mut [Part]) -> Result<usize, Reason>
    ensures answer { answer_of result ≡ (read_call text.now file.now parts.old).result }
    ensures written { parts.new ≡ (read_call text.now file.now parts.old).buffer }
{
    let mut rule_parts = [NO_PART; MOST_PARTS];
    let room = parts.len();
    let n = read_parts(text, file, &mut rule_parts, room)?;
    write_parts(parts, &rule_parts, n);
    Ok(n)
}
