// Letters, levels, tables and columns: the noted parts of a condition become the parts of a rule; refusal 8.
// Short names: notes, the parts as they are written, each after its inner parts, of which the first h are looked at; parts, the parts of the rule, which are
// written from the last to the first, e being the number of the one that was written before.
#![tactic(auto)]

ghost use Rattle.std.specs.Prelude.{◌≡◌, ◌<◌, set};
ghost use Rattle.rule.specs.Names.{most_parts};
ghost use Rattle.names.specs.Code.{rule_part, Placeable, PlacedTo, InnerPlaceable, InnerPlacedTo, Nameable, NamedTo};

use grammar::MOST_PARTS;
use phrases::Note;
use rule::{Head, Test};
use scopes::{HeldScope, NamedHead, name_note, outermost};
use tables::{Comparison, Value};

// A part of a rule: what it says by itself, and the number of the first part behind it and its inner parts.
#[derive(Clone, Copy)]
pub struct RulePart {
    pub end: usize,
    pub head: Head<Value, u8>,
}

// What stands in an array of parts where none is written yet: all of its bytes are 0, so that a whole array is set at once.
pub const NO_PART: RulePart = RulePart {
    end: 0,
    head: Head::AtomHead(Test::Compare {
        comparison: Comparison::Eq,
        left: Value::Constant(0),
        right: Value::Constant(0),
    }),
};

// Writes part number `at`: what it says, and that it and its inner parts end at e.
fn put_part(parts: &mut [RulePart; MOST_PARTS], at: usize, e: usize, head: Head<Value, u8>)
    requires { at < most_parts }
    ensures { parts.new ≡ set parts.old at (rule_part e head) }
{
    parts[at] = RulePart { end: e, head };
}

// The parts of the condition whose notes are the last of the first h, up to number e: the note's own part stands before its inner parts, so these are
// placed first. It answers the lowest number of the parts that were placed, or None where some name means nothing.
#[cycle(placing)]
fn place(
    file: &[u8],
    notes: &[Note],
    h: usize,
    parts: &mut [RulePart; MOST_PARTS],
    e: usize,
    scope: &HeldScope,
) -> Option<usize>
    requires { Placeable file.now notes.now h e scope.now }
    ensures { PlacedTo file.now notes.now h parts.old parts.new e scope.now result }
{
    let NamedHead { head, inside } = name_note(file, scope, notes[h - 1])?;
    let at = place_inner(file, notes, h - 1, parts, e, &inside, &head)? - 1;
    put_part(parts, at, e, head);
    Some(at)
}

// The parts of the conditions in a part that says this, whose notes are the last of the first h: those of a right condition before those of the left one.
#[cycle(placing)]
fn place_inner(
    file: &[u8],
    notes: &[Note],
    h: usize,
    parts: &mut [RulePart; MOST_PARTS],
    e: usize,
    scope: &HeldScope,
    head: &Head<Value, u8>,
) -> Option<usize>
    requires { InnerPlaceable file.now notes.now h e scope.now head.now }
    ensures { InnerPlacedTo file.now notes.now h parts.old parts.new e scope.now head.now result }
{
    match head {
        Head::AtomHead(_) => Some(e),
        Head::JoinHead(_) => {
            let right = place(file, notes, h, parts, e, scope)?;
            place(file, notes, h - (e - right), parts, right, scope)
        }
        Head::UnaryHead(_) | Head::ExistsHead(_) | Head::ListedHead { .. } => {
            place(file, notes, h, parts, e, scope)
        }
    }
}

// The parts of the rule whose condition is noted, n of them; or some name means nothing. Around a whole rule m is bound, to table 1.
pub fn name_parts(file: &[u8], notes: &[Note], n: usize, parts: &mut [RulePart; MOST_PARTS]) -> bool
    requires { Nameable file.now notes.now n }
    ensures { NamedTo file.now notes.now n parts.new result }
{
    place(file, notes, n, parts, n, &outermost()).is_some()
}
