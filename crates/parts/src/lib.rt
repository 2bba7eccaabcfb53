// How many entries the card of a rule has, by the rule's parts.
// Short names: p, the parts; s, the number of the first part, and n, of the first one behind the last.
#![tactic(auto)]

ghost use Rattle.std.specs.Prelude.{◌≡◌, ℕ, ◌+◌, ◌*◌, ◌≤◌};
ghost use Rattle.tables.specs.Values.{most_entries};
ghost use Rattle.parts.specs.Code.{own_entries, asks_unknown, Capped, Countable, CountedTo};

use grammar::MOST_PARTS;
use names::RulePart;
use rule::{Head, Truth, Unary};
use tables::{MOST_ENTRIES, Value};

// The entries that a part has besides those of its inner parts, where it uses these once: NOT has none, nor have IS TRUE, IS FALSE and their negations, and a
// list has its row entry, its AND or OR, and its comparison.
fn own_entries(head: Head<Value, u8>) -> usize
    ensures is { result ≡ own_entries head }
    ensures small { result ≤ 3 }
{
    match head {
        Head::AtomHead(_) => 1,
        Head::JoinHead(_) => 1,
        Head::UnaryHead(_) => 0,
        Head::ExistsHead(_) => 1,
        Head::ListedHead { .. } => 3,
    }
}

// Whether a part is IS UNKNOWN or IS NOT UNKNOWN.
fn asks_unknown(head: Head<Value, u8>) -> bool
    ensures { result ≡ asks_unknown head }
{
    matches!(
        head,
        Head::UnaryHead(Unary::Is(Truth::Unknown) | Unary::IsNot(Truth::Unknown))
    )
}

// The entries of IS UNKNOWN and IS NOT UNKNOWN, which use the condition in them twice, joined by one entry. The count stops where the inner one is over the
// limit: each such part around another doubles it, and with as many as a rule may have parts it would need more than 64 bits.
fn used_twice(inner: usize) -> usize
    ensures capped { (n : ℕ) → Capped inner n → Capped result (1 + 2 * n) }
    ensures small { result ≤ 1 + 2 * most_entries }
{
    1 + 2 * inner.min(MOST_ENTRIES)
}

// The entries of the card of the rule whose parts are those from s up to n; or where they are over the limit, some number over it. They are added up part by
// part, with a recursive call only for IS UNKNOWN and IS NOT UNKNOWN.
pub fn count_entries(p: &[RulePart; MOST_PARTS], s: usize, n: usize) -> usize
    requires { Countable p.now s n }
    ensures { CountedTo p.now s n result }
{
    let mut entries: usize = 0;
    let mut at = s;
    while at < n {
        let RulePart { end, head } = p[at];
        if asks_unknown(head) {
            let inner = count_entries(p, at + 1, end);
            entries += used_twice(inner);
            at = end;
        } else {
            entries += own_entries(head);
            at += 1;
        }
    }
    entries
}
