// A card's layout, and its entries decoded, for whoever checks or runs it.
// Short names: d, the decoded entries; bytes, those of a record.
#![tactic(auto)]

ghost use Rattle.std.specs.Prelude.{◌≡◌, ◌+◌, ◌≤◌, List, eqb, length};
ghost use Rattle.std.specs.Fn.{CalledAtMut};
ghost use Rattle.std.proofs.Math.Option.{some};
ghost use Rattle.tables.specs.Lists.{all};
ghost use Rattle.tables.specs.Bytes.{between};
ghost use Rattle.tables.specs.Options.{found};
ghost use Rattle.tables.specs.Tables.{most_columns};
ghost use Rattle.card.specs.Layout.{record_size, value_size, kind_with, uses, value_from, record_fits, head_in, head_from};
ghost use Rattle.card.specs.Sound.{laid};
ghost use Rattle.decoder.specs.declared.Entry.{Entry};
ghost use Rattle.decoder.specs.Code.{Laid, EntryOf, Roomy, Decoded};

use card::{
    AND_ENTRY, BLANK, COMPARISON_OR_NO, COMPARISON_OR_YES, COMPARISON_PLACE, DECLINED, EVERY_ROW,
    Head, Interpretation, Kind, LEFT_PLACE, Leaf, NOT_BLANK, NOT_DECLINED, OR_ENTRY, RECORD_SIZE,
    RIGHT_PLACE, SOME_ROW, TABLE_PLACE,
};
use cells::{MOST_COLUMNS, MOST_TABLES, byte, read_signed, read16, read32};
use tables::{Connective, MOST_ENTRIES, MarkTest, Quantifier, Value};
use values::comparison_of;

// An entry: the number of the entry after it and its inner ones, and what it says by itself: none where the record is not as its kind asks or there is no such
// kind.
#[derive(Clone, Copy)]
pub struct Entry {
    pub end: usize,
    pub head: Option<Head>,
}

// Stands where an array has no entry.
pub const NO_ENTRY: Entry = Entry { end: 0, head: None };

// The tag of a constant in a record; any other tag is the level of a column.
const CONSTANT: u8 = 255;

// A card with no more entries than these is decoded into an array that is no longer: to fill an array for all entries takes longer than to run a short card.
const FEW_ENTRIES: usize = 16;

const MIDDLE_ENTRIES: usize = 64;

// The bytes of the longest card that has no more.
const SHORT_CARD: usize = 3 + MOST_TABLES + (1 + RECORD_SIZE) * FEW_ENTRIES;

const MIDDLE_CARD: usize = 3 + MOST_TABLES + (1 + RECORD_SIZE) * MIDDLE_ENTRIES;

// Whether each table has 1 to 16 columns.
fn columns_fit(columns: &[u8]) -> bool
    ensures { result ≡ all (between 1 most_columns) columns.now }
{
    columns
        .iter()
        .all(|&count| (1..=MOST_COLUMNS).contains(&(count as usize)))
}

// Whether the numbers of entries, tables and columns are within the limits, and there are no spare bytes.
pub fn laid_out(card: &[u8]) -> bool
    ensures { result ≡ laid card.now }
{
    if card.len() < 3 {
        return false;
    }
    let n = read16(card, 0);
    let t = byte(card, 2);
    (1..=MOST_ENTRIES).contains(&n)
        && (1..=MOST_TABLES).contains(&t)
        && card.len() == 3 + t + (1 + RECORD_SIZE) * n
        && columns_fit(&card[3..3 + t])
}

// Whether all of them are 0: the highest one is. No byte is asked by itself, so that the compiler takes several at a time.
fn zero_bytes(bytes: &[u8]) -> bool
    ensures { result ≡ all (λ x. eqb x 0) bytes.now }
{
    let mut highest: u8 = 0;
    for &byte in bytes {
        highest = highest.max(byte);
    }
    highest == 0
}

// Whether the fields of a record are as its kind asks.
fn fields_fit(bytes: &[u8], kind: Kind) -> bool
    requires { length bytes.now ≡ record_size }
    ensures { result ≡ record_fits (uses kind) bytes.now }
{
    match kind {
        Kind::PairKind(_) => zero_bytes(&bytes[TABLE_PLACE..RECORD_SIZE]),
        Kind::RowKind(_) => zero_bytes(&bytes[COMPARISON_PLACE..RECORD_SIZE]),
        Kind::ComparisonKind(_) => {
            (1..=6).contains(&byte(bytes, COMPARISON_PLACE))
                && zero_bytes(&bytes[TABLE_PLACE..COMPARISON_PLACE])
        }
        Kind::MarkKind(_) => {
            zero_bytes(&bytes[TABLE_PLACE..LEFT_PLACE])
                && zero_bytes(&bytes[RIGHT_PLACE..RECORD_SIZE])
        }
    }
}

// The kind with a published number, if there is one. Kinds with inner entries are told from the others first: in one `match` of all numbers the compiler jumps
// through a table.
fn kind_of(number: usize) -> Option<Kind>
    ensures { found result ≡ kind_with number }
{
    if number <= EVERY_ROW {
        return match number {
            AND_ENTRY => Some(Kind::PairKind(Connective::And)),
            OR_ENTRY => Some(Kind::PairKind(Connective::Or)),
            SOME_ROW => Some(Kind::RowKind(Quantifier::Some)),
            EVERY_ROW => Some(Kind::RowKind(Quantifier::All)),
            _ => None,
        };
    }
    match number {
        COMPARISON_OR_NO => Some(Kind::ComparisonKind(Interpretation::AsNo)),
        COMPARISON_OR_YES => Some(Kind::ComparisonKind(Interpretation::AsYes)),
        BLANK => Some(Kind::MarkKind(MarkTest::Null)),
        NOT_BLANK => Some(Kind::MarkKind(MarkTest::NotNull)),
        DECLINED => Some(Kind::MarkKind(MarkTest::IsDeclined)),
        NOT_DECLINED => Some(Kind::MarkKind(MarkTest::NotDeclined)),
        _ => None,
    }
}

// The value at place i of a record.
fn value_at(bytes: &[u8], i: usize) -> Value
    requires { i + value_size ≤ length bytes.now }
    ensures { result ≡ value_from bytes.now i }
{
    match bytes[i] {
        CONSTANT => Value::Constant(read_signed(bytes, i + 1)),
        level => Value::Column {
            level,
            column: read32(bytes, i + 1) as u32,
        },
    }
}

// What an entry of this kind says by the fields of its record, put where it is to stand: each kind puts the fields that it has. As a value it was put together
// of all fields that any kind has, and CHECK of a long card took a seventh longer.
fn put_head(bytes: &[u8], kind: Kind, head: &mut Option<Head>)
    requires { length bytes.now ≡ record_size }
    ensures { found head.new ≡ some (head_in kind bytes.now) }
{
    match kind {
        Kind::PairKind(connective) => *head = Some(Head::PairHead(connective)),
        Kind::RowKind(quantifier) => {
            *head = Some(Head::RowHead {
                quantifier,
                table: bytes[TABLE_PLACE],
            })
        }
        Kind::ComparisonKind(unknown) => {
            *head = Some(Head::LeafHead(Leaf::CompareLeaf {
                unknown,
                comparison: comparison_of(byte(bytes, COMPARISON_PLACE)),
                left: value_at(bytes, LEFT_PLACE),
                right: value_at(bytes, RIGHT_PLACE),
            }))
        }
        Kind::MarkKind(test) => {
            *head = Some(Head::LeafHead(Leaf::MarkLeaf {
                test,
                value: value_at(bytes, LEFT_PLACE),
            }))
        }
    }
}

// What the entry of a record says, by the number of its kind.
#[tactic(auto, unfolding(card::specs::Layout::head_from))]
fn read_head(bytes: &[u8], number: usize, head: &mut Option<Head>)
    requires { length bytes.now ≡ record_size }
    ensures { found head.new ≡ head_from number bytes.now }
{
    if let Some(kind) = kind_of(number)
        && fields_fit(bytes, kind)
    {
        put_head(bytes, kind, head);
    } else {
        *head = None;
    }
}

// The entry of a record, by the number of its kind.
fn read_entry(bytes: &[u8], number: usize, entry: &mut Entry)
    requires { length bytes.now ≡ record_size }
    ensures { EntryOf number bytes.now entry.new }
{
    entry.end = read16(bytes, 0);
    read_head(bytes, number, &mut entry.head);
}

// The entries of a card, from the start of d on.
pub fn decode(card: &[u8], d: &mut [Entry])
    requires fact_1 { Laid card.now }
    requires fact_2 { Roomy card.now d.old }
    ensures { Decoded card.now d.new }
{
    let n = read16(card, 0);
    let kinds = 3 + byte(card, 2);
    let records = kinds + n;
    for i in 0..n {
        let r = records + RECORD_SIZE * i;
        read_entry(&card[r..r + RECORD_SIZE], byte(card, kinds + i), &mut d[i]);
    }
}

// Calls f with an array that has room for the card's entries, none of which is decoded. f is taken by reference, as what may be called more than once: so its
// caller knows what the call left in the variables that f borrows.
pub fn with_room<R, F: FnMut(&mut [Entry]) -> R>(card: &[u8], f: &mut F) -> R
    requires { (d : _) → Roomy card.now d.now → F.pre f.old d }
    ensures { (d : List Entry) × (e : List Entry) × Roomy card.now d × CalledAtMut F.FnMut f.old d result f.new e }
{
    if card.len() <= SHORT_CARD {
        return f(&mut [NO_ENTRY; FEW_ENTRIES]);
    }
    if card.len() <= MIDDLE_CARD {
        return f(&mut [NO_ENTRY; MIDDLE_ENTRIES]);
    }
    f(&mut [NO_ENTRY; MOST_ENTRIES])
}
