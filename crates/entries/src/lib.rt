// The entries of a card, written from the parts of a rule.
// A rule is false- or true-interpreted, and negated or not; both go down to its parts, so that the card has no negation.
// Short names: s, the number of a part; k, the number of an entry; negate, whether the part is negated; interpretation, what unknown counts as: no
// (false-interpreted) or yes; u, what stands under NOTs. The kinds and the records are lent one beside the other: the kinds are an array of their own, and the
// records a part of the caller's buffer. An entry with inner ones is put with the end 0; its end is written once its last inner entry is in place.
#![tactic(auto)]

ghost use Rattle.std.specs.Prelude.{◌≡◌};
ghost use Rattle.card.specs.Card.{LeafEntry};
ghost use Rattle.card.specs.declared.Leaf.TheVariants.{CompareLeaf};
ghost use Rattle.rule.specs.Parts.{table_of};
ghost use Rattle.translation.specs.Translation.{leaf_of};
ghost use Rattle.entries.specs.Code.{asks_every, leaf_as, card_as, unary_as, truth_as, exists_as, listed_as, Room, Wrote, Standing, StandsUnder, Writable, WroteTo, part_under, PairWritable, PairWroteTo, JoinWritable, JoinWroteTo};

use card::Head::{LeafHead, PairHead, RowHead};
use card::Interpretation::{self, AsNo, AsYes};
use card::{Leaf, RECORD_SIZE};
use grammar::MOST_PARTS;
use names::RulePart;
use records::{Swapped, negated, put_entry};
use rule::{FromClause, Head, Test, Truth, Unary};
use storing::put16;
use tables::{Comparison, Connective, MOST_ENTRIES, Quantifier, Value};

// What an entry says of a test. A test by the mark is never unknown, so its entry is the same in either interpretation.
fn leaf_of(interpretation: Interpretation, test: Test<Value>) -> Leaf
    ensures { result ≡ leaf_of interpretation test }
{
    match test {
        Test::Compare {
            comparison,
            left,
            right,
        } => Leaf::CompareLeaf {
            unknown: interpretation,
            comparison,
            left,
            right,
        },
        Test::Mark { test, value } => Leaf::MarkLeaf { test, value },
    }
}

// The entry of a list's comparison, negated or not.
fn list_leaf(
    negate: bool,
    interpretation: Interpretation,
    comparison: Comparison,
    left: Value,
    right: Value,
) -> Leaf
    ensures { result ≡ leaf_as negate (CompareLeaf interpretation comparison left right) }
{
    let compared = Leaf::CompareLeaf {
        unknown: interpretation,
        comparison,
        left,
        right,
    };
    negated(compared, negate)
}

// The table that a FROM names.
fn table_of(from: FromClause<u8>) -> u8
    ensures { result ≡ table_of from }
{
    match from {
        FromClause::Single(table) => table,
    }
}

// Whether it is asked of every row.
fn asks_every(quantifier: Quantifier) -> bool
    ensures { result ≡ asks_every quantifier }
{
    quantifier == Quantifier::All
}

// An entry without inner ones, as entry k; the number of the next one.
fn write_leaf(leaf: Leaf, kinds: &mut [u8; MOST_ENTRIES], records: &mut [u8], k: usize) -> usize
    requires { Room records.old k 1 }
    ensures { Wrote k (LeafEntry leaf) kinds.old records.old kinds.new records.new result }
{
    put_entry(kinds, records, k, k + 1, LeafHead(leaf));
    k + 1
}

// A part, whether it is negated, and what unknown counts as in it.
#[derive(Clone, Copy)]
pub struct Under {
    pub part: usize,
    pub negate: bool,
    pub interpretation: Interpretation,
}

// The same, put together.
fn part_under(part: usize, negate: bool, interpretation: Interpretation) -> Under
    ensures { result ≡ part_under part negate interpretation }
{
    Under {
        part,
        negate,
        interpretation,
    }
}

// What stands under the NOTs that begin at part s: they are passed in a loop, where a recursive call for each would hand all arguments on.
fn under_nots(
    parts: &[RulePart; MOST_PARTS],
    s: usize,
    negate: bool,
    interpretation: Interpretation,
) -> Under
    ensures { StandsUnder parts.now s negate interpretation result }
{
    let mut under = part_under(s, negate, interpretation);
    for part in s..MOST_PARTS {
        let Head::UnaryHead(Unary::Not) = parts[part].head else {
            return under;
        };
        under = Under {
            part: part + 1,
            negate: !under.negate,
            interpretation: under.interpretation.other(),
        };
    }
    under
}

// The entries of part s with its inner parts, from number k on; the number of the next entry.
#[cycle(writing)]
pub fn write_part(
    parts: &[RulePart; MOST_PARTS],
    s: usize,
    negate: bool,
    interpretation: Interpretation,
    kinds: &mut [u8; MOST_ENTRIES],
    records: &mut [u8],
    k: usize,
) -> usize
    requires { Writable (card_as negate interpretation) parts.now s records.old k }
    ensures { WroteTo (card_as negate interpretation) parts.now s kinds.old records.old kinds.new records.new k result }
{
    let inner = part_under(s + 1, negate, interpretation);
    match parts[s].head {
        Head::AtomHead(test) => {
            let leaf = negated(leaf_of(interpretation, test), negate);
            write_leaf(leaf, kinds, records, k)
        }
        Head::JoinHead(connective) => write_join(parts, connective, inner, kinds, records, k),
        Head::UnaryHead(unary) => write_unary(parts, unary, inner, kinds, records, k),
        Head::ExistsHead(from) => {
            write_exists(parts, s + 1, table_of(from), negate, kinds, records, k)
        }
        Head::ListedHead {
            quantifier,
            comparison,
            left,
            selected,
            from,
        } => {
            let quantifier = negated(quantifier, negate);
            let table = table_of(from);
            let leaf = list_leaf(negate, interpretation, comparison, left, selected);
            write_list(parts, s + 1, quantifier, table, leaf, kinds, records, k)
        }
    }
}

// AND and OR: of what is under them on the left, and of the condition behind that.
#[cycle(writing)]
fn write_join(
    parts: &[RulePart; MOST_PARTS],
    connective: Connective,
    left: Under,
    kinds: &mut [u8; MOST_ENTRIES],
    records: &mut [u8],
    k: usize,
) -> usize
    requires { JoinWritable connective left.negate left.interpretation parts.now left.part records.old k }
    ensures { JoinWroteTo connective left.negate left.interpretation parts.now left.part kinds.old records.old kinds.new records.new k result }
{
    let connective = negated(connective, left.negate);
    let right = Under {
        part: parts[left.part].end,
        ..left
    };
    write_pair(parts, connective, left, right, kinds, records, k)
}

// NOT or a truth test of what is under it. NOT has no entry: what is under it is negated, in the other interpretation. IS NOT TRUE is the negation of IS
// TRUE, and so for the others.
#[cycle(writing)]
fn write_unary(
    parts: &[RulePart; MOST_PARTS],
    unary: Unary,
    inner: Under,
    kinds: &mut [u8; MOST_ENTRIES],
    records: &mut [u8],
    k: usize,
) -> usize
    requires { Writable (unary_as unary inner.negate inner.interpretation) parts.now inner.part records.old k }
    ensures { WroteTo (unary_as unary inner.negate inner.interpretation) parts.now inner.part kinds.old records.old kinds.new records.new k result }
{
    let s = inner.part;
    let negate = inner.negate;
    match unary {
        Unary::Not => {
            let u = under_nots(parts, s, !negate, inner.interpretation.other());
            write_part(parts, u.part, u.negate, u.interpretation, kinds, records, k)
        }
        Unary::Is(truth) => write_truth(parts, s, truth, negate, kinds, records, k),
        Unary::IsNot(truth) => write_truth(parts, s, truth, !negate, kinds, records, k),
    }
}

// A pair: the entries of what is left, then those of what is right.
#[cycle(writing)]
fn write_pair(
    parts: &[RulePart; MOST_PARTS],
    connective: Connective,
    left: Under,
    right: Under,
    kinds: &mut [u8; MOST_ENTRIES],
    records: &mut [u8],
    k: usize,
) -> usize
    requires { PairWritable parts.now connective left right records.old k }
    ensures { PairWroteTo parts.now connective left right kinds.old records.old kinds.new records.new k result }
{
    put_entry(kinds, records, k, 0, PairHead(connective));
    let middle = write_part(
        parts,
        left.part,
        left.negate,
        left.interpretation,
        kinds,
        records,
        k + 1,
    );
    let end = write_part(
        parts,
        right.part,
        right.negate,
        right.interpretation,
        kinds,
        records,
        middle,
    );
    put16(records, RECORD_SIZE * k, end);
    end
}

// A truth test of the condition at part s, which is never unknown, so its card is the same in either interpretation. IS TRUE takes the condition
// false-interpreted; IS FALSE takes it true-interpreted, and negates that; IS UNKNOWN is and, the negated false-interpretation, the true-interpretation.
#[cycle(writing)]
fn write_truth(
    parts: &[RulePart; MOST_PARTS],
    s: usize,
    truth: Truth,
    negate: bool,
    kinds: &mut [u8; MOST_ENTRIES],
    records: &mut [u8],
    k: usize,
) -> usize
    requires { Writable (truth_as truth negate) parts.now s records.old k }
    ensures { WroteTo (truth_as truth negate) parts.now s kinds.old records.old kinds.new records.new k result }
{
    match truth {
        Truth::True => write_part(parts, s, negate, AsNo, kinds, records, k),
        Truth::False => write_part(parts, s, !negate, AsYes, kinds, records, k),
        Truth::Unknown => {
            let not_true = part_under(s, !negate, AsNo);
            let not_false = part_under(s, negate, AsYes);
            let connective = negated(Connective::And, negate);
            write_pair(parts, connective, not_true, not_false, kinds, records, k)
        }
    }
}

// EXISTS, whose WHERE is part s: some row of the WHERE, which is false-interpreted; negated, every row of the negated one.
#[cycle(writing)]
fn write_exists(
    parts: &[RulePart; MOST_PARTS],
    s: usize,
    table: u8,
    negate: bool,
    kinds: &mut [u8; MOST_ENTRIES],
    records: &mut [u8],
    k: usize,
) -> usize
    requires { Writable (exists_as table negate) parts.now s records.old k }
    ensures { WroteTo (exists_as table negate) parts.now s kinds.old records.old kinds.new records.new k result }
{
    let quantifier = negated(Quantifier::Some, negate);
    put_entry(kinds, records, k, 0, RowHead { quantifier, table });
    let end = write_part(parts, s, negate, AsNo, kinds, records, k + 1);
    put16(records, RECORD_SIZE * k, end);
    end
}

// A list, whose WHERE is part s, with what the entry of its comparison says. SOME: some row, and, WHERE, comparison. ALL: every row, or, negated WHERE,
// comparison. Negating swaps the two; the WHERE is false-interpreted before any negating.
#[cycle(writing)]
fn write_list(
    parts: &[RulePart; MOST_PARTS],
    s: usize,
    quantifier: Quantifier,
    table: u8,
    leaf: Leaf,
    kinds: &mut [u8; MOST_ENTRIES],
    records: &mut [u8],
    k: usize,
) -> usize
    requires { Writable (listed_as quantifier table leaf) parts.now s records.old k }
    ensures { WroteTo (listed_as quantifier table leaf) parts.now s kinds.old records.old kinds.new records.new k result }
{
    let every = asks_every(quantifier);
    put_entry(kinds, records, k, 0, RowHead { quantifier, table });
    let connective = negated(Connective::And, every);
    put_entry(kinds, records, k + 1, 0, PairHead(connective));
    let last = write_part(parts, s, every, AsNo, kinds, records, k + 2);
    let end = write_leaf(leaf, kinds, records, last);
    put16(records, RECORD_SIZE * (k + 1), end);
    put16(records, RECORD_SIZE * k, end);
    end
}
