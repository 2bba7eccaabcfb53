// Whether a decoded card is sound; CHECK.
// Short names: d, the decoded entries; s and e, an entry and the number after its inner ones.
#![tactic(auto)]

ghost use Rattle.std.specs.Prelude.{◌≡◌, true, ◌<◌};
ghost use Rattle.std.proofs.Math.Option.{some};
ghost use Rattle.tables.specs.Values.{most_levels, value_fits};
ghost use Rattle.tables.specs.declared.Connective.{Connective};
ghost use Rattle.tables.specs.declared.Quantifier.{Quantifier};
ghost use Rattle.card.specs.Card.{leaf_fits};
ghost use Rattle.card.specs.Layout.{columns_in};
ghost use Rattle.card.specs.declared.Head.TheVariants.{PairHead, RowHead};
ghost use Rattle.card.specs.Sound.{sound};
ghost use Rattle.card.specs.Calls.{check_call};
ghost use Rattle.cells.specs.Reasons.{answer_of};
ghost use Rattle.decoder.specs.Code.{Roomy, Decoded, end_in, head_at};
ghost use Rattle.checker.specs.Code.{Checks, tables_of, one_deeper, LevelsIn, Checkable};

use card::{Head, Leaf, MOST_ROW_ENTRIES};
use cells::{Reason, byte, read16};
use decoder::{Entry, decode, laid_out, with_room};
use tables::Value;
use values::LEVELS;

// The table of each level, and how many levels there are.
#[derive(Clone, Copy)]
struct Levels {
    tables: [u8; LEVELS],
    depth: usize,
}

impl Levels {
    // One level more, of this table.
    fn deeper(&self, table: u8) -> Levels
        requires { self.now.depth < most_levels }
        ensures { result ≡ one_deeper self.now table }
    {
        let mut tables = self.tables;
        tables[self.depth] = table;
        Levels {
            tables,
            depth: self.depth + 1,
        }
    }
}

// Whether a value's level and column exist.
fn value_fits(card: &[u8], levels: &Levels, value: Value) -> bool
    requires { LevelsIn card.now levels.now }
    ensures { result ≡ value_fits (columns_in card.now) (tables_of levels.now) value }
{
    match value {
        Value::Constant(_) => true,
        Value::Column { level, column } => {
            let level = level as usize;
            level < levels.depth
                && (1..=byte(card, 2 + levels.tables[level] as usize)).contains(&(column as usize))
        }
    }
}

// Whether the values of an entry without inner ones exist.
fn leaf_fits(card: &[u8], levels: &Levels, leaf: &Leaf) -> bool
    requires { LevelsIn card.now levels.now }
    ensures { result ≡ leaf_fits (columns_in card.now) (tables_of levels.now) leaf.now }
{
    match *leaf {
        Leaf::CompareLeaf { left, right, .. } => {
            value_fits(card, levels, left) && value_fits(card, levels, right)
        }
        Leaf::MarkLeaf { value, .. } => value_fits(card, levels, value),
    }
}

// The entries from s up to e: whether they are one entry with its inner ones, which fits the card's tables and these levels.
#[cycle(checking)]
fn check_entry(card: &[u8], d: &[Entry], s: usize, e: usize, levels: &Levels) -> bool
    requires { Checkable card.now d.now levels.now s e }
    ensures { Checks d.now (columns_in card.now) (tables_of levels.now) s e result }
{
    if d[s].end != e {
        return false;
    }
    match &d[s].head {
        Some(Head::PairHead(_)) => check_pair(card, d, s, e, levels),
        Some(Head::RowHead { table, .. }) => check_rows(card, d, s, e, levels, *table),
        Some(Head::LeafHead(leaf)) => e == s + 1 && leaf_fits(card, levels, leaf),
        None => false,
    }
}

// The same where s has two inner entries.
#[cycle(checking)]
fn check_pair(card: &[u8], d: &[Entry], s: usize, e: usize, levels: &Levels) -> bool
    requires fact_1 { Checkable card.now d.now levels.now s e }
    requires fact_2 { (j : Connective) × (head_at d.now s ≡ some (PairHead j)) }
    requires fact_3 { end_in d.now s ≡ e }
    ensures { Checks d.now (columns_in card.now) (tables_of levels.now) s e result }
{
    if e <= s + 1 {
        return false;
    }
    let m = d[s + 1].end;
    if m <= s + 1 || e <= m {
        return false;
    }
    check_entry(card, d, s + 1, m, levels) && check_entry(card, d, m, e, levels)
}

// The same where s ranges over the rows of this table.
#[cycle(checking)]
fn check_rows(card: &[u8], d: &[Entry], s: usize, e: usize, levels: &Levels, table: u8) -> bool
    requires fact_1 { Checkable card.now d.now levels.now s e }
    requires fact_2 { (q : Quantifier) × (head_at d.now s ≡ some (RowHead q table)) }
    requires fact_3 { end_in d.now s ≡ e }
    ensures { Checks d.now (columns_in card.now) (tables_of levels.now) s e result }
{
    if e <= s + 1 || !(1..=card[2]).contains(&table) || MOST_ROW_ENTRIES < levels.depth {
        return false;
    }
    check_entry(card, d, s + 1, e, &levels.deeper(table))
}

// Whether a card is sound; if so, d has its entries.
pub fn is_sound(card: &[u8], d: &mut [Entry]) -> bool
    requires { Roomy card.now d.old }
    ensures is { result ≡ sound card.now }
    ensures decoded { result ≡ true → Decoded card.now d.new }
{
    if !laid_out(card) {
        return false;
    }
    decode(card, d);
    let levels = Levels {
        tables: [1, 0, 0, 0],
        depth: 1,
    };
    check_entry(card, d, 0, read16(card, 0), &levels)
}

// CHECK: a card alone, sound or refused.
pub fn check(card: &[u8]) -> Result<(), Reason>
    ensures { answer_of result ≡ check_call card.now }
{
    if with_room(card, &mut |d| is_sound(card, d)) {
        Ok(())
    } else {
        Err(Reason::Unsound)
    }
}
