// The grammar: the tokens of a text read as a condition, whose parts are noted as they end, a part after its inner parts.
// Short names: s, the tokens; at, the place of one; w, how many parts are noted before; out, the noted parts.
#![tactic(auto)]

ghost use Rattle.std.specs.Prelude.{◌≡◌, [], ◌∷◌, ◌++◌, ◌+◌, ◌<◌, ◌≤◌, length, take};
ghost use Rattle.rule.specs.Names.{most_parts};
ghost use Rattle.rule.specs.Reader.{condition, conjunction, factor, test, chain, operand, join_word};
ghost use Rattle.lexer.specs.Code.{most_tokens};
ghost use Rattle.grammar.specs.Code.{not_notes, join_parts, join_notes, NotsTo, StepFits, TestedTo, Ready, ReadsTo, ReadsClosed, ReadsAll};

use phrases::{Note, Start, is_word, read_truth_test, start_test};
use rule::{Head, Test, Token, Unary, Word, WrittenValue};
use tables::{Comparison, Connective};

// Limits on a rule.
pub const MOST_PARTS: usize = 64;

pub const MOST_FROMS: usize = 3;

// What stands in an array of notes where none is noted yet. All its bytes are 0, so that one call of memset sets up an array; with another note each was
// written by itself.
pub const NO_NOTE: Note = Head::AtomHead(Test::Compare {
    comparison: Comparison::Eq,
    left: WrittenValue::Plain(0),
    right: WrittenValue::Plain(0),
});

// What a reader answers, if there is a reading: the place after what it read, how many parts are noted now, and how many FROMs stand around one another in
// what it read.
#[derive(Clone, Copy)]
pub struct Step {
    pub at: usize,
    pub count: usize,
    pub deep: usize,
}

// Part number w, as long as there is room: a text may have more parts than a rule may.
fn note_part(out: &mut [Note; MOST_PARTS], w: usize, note: Note)
    ensures { w < most_parts → take (w + 1) out.new ≡ take w out.old ++ (note ∷ []) }
{
    if w < MOST_PARTS {
        out[w] = note;
    }
}

// The word that joins: OR or AND.
fn join_word(connective: Connective) -> Word
    ensures { result ≡ join_word connective }
{
    match connective {
        Connective::And => Word::And,
        Connective::Or => Word::Or,
    }
}

// Conjunctions joined by OR. This reader and the next keep their names beside `read_joined`, which is both: they are the grammar's condition and conjunction.
#[cycle(reading)]
fn read_condition(s: &[Token], at: usize, out: &mut [Note; MOST_PARTS], w: usize) -> Option<Step>
    requires { Ready s.now at w }
    ensures { ReadsTo condition s.now at w out.old out.new result }
{
    read_joined(s, at, out, w, Connective::Or)
}

// Factors joined by AND.
#[cycle(reading)]
fn read_conjunction(s: &[Token], at: usize, out: &mut [Note; MOST_PARTS], w: usize) -> Option<Step>
    requires { Ready s.now at w }
    ensures { ReadsTo conjunction s.now at w out.old out.new result }
{
    read_joined(s, at, out, w, Connective::And)
}

// What is joined: a conjunction by OR, a factor by AND.
#[cycle(reading)]
fn read_operand(
    s: &[Token],
    at: usize,
    out: &mut [Note; MOST_PARTS],
    w: usize,
    connective: Connective,
) -> Option<Step>
    requires { Ready s.now at w }
    ensures { ReadsTo (operand connective) s.now at w out.old out.new result }
{
    match connective {
        Connective::And => read_factor(s, at, out, w),
        Connective::Or => read_conjunction(s, at, out, w),
    }
}

// The part that joins an operand to those before it, once it is noted; a first operand makes none. How many parts are noted then.
fn note_join(out: &mut [Note; MOST_PARTS], w: usize, connective: Connective, joins: bool) -> usize
    requires { w ≤ most_tokens }
    ensures count { result ≡ w + join_parts joins }
    ensures noted { result ≤ most_parts → take result out.new ≡ take w out.old ++ join_notes joins connective }
{
    if joins {
        note_part(out, w, Head::JoinHead(connective));
        return w + 1;
    }
    w
}

// Operands joined by OR, or by AND. The call for an operand stands here once, so that it is compiled into the loop: with a call before the loop and one
// inside it READ was slower.
#[cycle(reading)]
fn read_joined(
    s: &[Token],
    at: usize,
    out: &mut [Note; MOST_PARTS],
    w: usize,
    connective: Connective,
) -> Option<Step>
    requires { Ready s.now at w }
    ensures { ReadsTo (chain connective) s.now at w out.old out.new result }
{
    let mut next = at;
    let mut n = w;
    let mut d: usize = 0;
    let mut joins = false;
    loop {
        let step = read_operand(s, next, out, n, connective)?;
        n = note_join(out, step.count, connective, joins);
        d = d.max(step.deep);
        if !is_word(s, step.at, join_word(connective)) {
            return Some(Step {
                count: n,
                deep: d,
                ..step
            });
        }
        next = step.at + 1;
        joins = true;
    }
}

// The place after the NOTs that start at a place.
#[tactic(auto, using(crate::proofs::Tests::nots_rules))]
fn after_nots(s: &[Token], at: usize) -> usize
    requires fact_1 { length s.now ≤ most_tokens }
    requires fact_2 { at ≤ length s.now }
    ensures { NotsTo s.now at result }
{
    for i in at..s.len() {
        if !is_word(s, i, Word::Not) {
            return i;
        }
    }
    s.len()
}

// The NOTs around a test, k of them, once its parts are noted.
fn note_nots(out: &mut [Note; MOST_PARTS], w: usize, k: usize)
    requires { w + k ≤ most_tokens }
    ensures { w + k ≤ most_parts → take (w + k) out.new ≡ take w out.old ++ not_notes k }
{
    for j in 0..k {
        note_part(out, w + j, Head::UnaryHead(Unary::Not));
    }
}

// NOT factor, or a test. The NOTs are counted, so that the depth of calls goes by brackets alone.
#[cycle(reading)]
#[tactic(auto, using(crate::proofs::Tests::factor_reads))]
fn read_factor(s: &[Token], at: usize, out: &mut [Note; MOST_PARTS], w: usize) -> Option<Step>
    requires { Ready s.now at w }
    ensures { ReadsTo factor s.now at w out.old out.new result }
{
    let i = after_nots(s, at);
    let step = read_test(s, i, out, w)?;
    note_nots(out, step.count, i - at);
    Some(Step {
        count: step.count + (i - at),
        ..step
    })
}

// What was read up to a bracket, with the truth test that follows it, if there is one: a part more, behind those of the condition in the bracket.
#[tactic(auto, using(crate::proofs::Tests::tested_rules))]
fn note_truth_test(s: &[Token], out: &mut [Note; MOST_PARTS], step: Step) -> Option<Step>
    requires fact_1 { length s.now ≤ most_tokens }
    requires fact_2 { StepFits s.now step }
    ensures { TestedTo s.now out.old out.new step result }
{
    if !is_word(s, step.at, Word::Is) {
        return Some(step);
    }
    let truth = read_truth_test(s, step.at + 1)?;
    note_part(out, step.count, Head::UnaryHead(truth.unary));
    Some(Step {
        at: truth.next,
        count: step.count + 1,
        ..step
    })
}

// A test: nothing, or a condition and the bracket behind it, follows its start; and brackets alone may be followed by a truth test. A bracket is told before any
// other start, so that a text of many brackets is read faster.
#[cycle(reading)]
#[tactic(auto, using(crate::proofs::Tests::test_rules))]
fn read_test(s: &[Token], at: usize, out: &mut [Note; MOST_PARTS], w: usize) -> Option<Step>
    requires { Ready s.now at w }
    ensures { ReadsTo test s.now at w out.old out.new result }
{
    if is_word(s, at, Word::Open) {
        let step = read_closed(s, at + 1, out, w)?;
        return note_truth_test(s, out, step);
    }
    match start_test(s, at)? {
        Start::Whole { note, next } => {
            note_part(out, w, note);
            Some(Step {
                at: next,
                count: w + 1,
                deep: 0,
            })
        }
        Start::Around { note, next } => {
            let step = read_closed(s, next, out, w)?;
            note_part(out, step.count, note);
            Some(Step {
                count: step.count + 1,
                deep: step.deep + 1,
                ..step
            })
        }
    }
}

// A condition and the bracket that closes behind it.
#[cycle(reading)]
#[tactic(auto, using(crate::proofs::Tests::closed_rules))]
fn read_closed(s: &[Token], at: usize, out: &mut [Note; MOST_PARTS], w: usize) -> Option<Step>
    requires { Ready s.now at w }
    ensures { ReadsClosed s.now at w out.old out.new result }
{
    let step = read_condition(s, at, out, w)?;
    if !is_word(s, step.at, Word::Close) {
        return None;
    }
    Some(Step {
        at: step.at + 1,
        ..step
    })
}

// All the tokens as one condition.
#[tactic(auto, using(crate::proofs::Tests::all_rules))]
pub fn read_tokens(s: &[Token], out: &mut [Note; MOST_PARTS]) -> Option<Step>
    requires { length s.now ≤ most_tokens }
    ensures { ReadsAll s.now out.new result }
{
    let step = read_condition(s, 0, out, 0)?;
    if step.at != s.len() {
        return None;
    }
    Some(step)
}
