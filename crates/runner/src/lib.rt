// What a sound card says at a row: its entries, decoded, are run over the cells of the tables.
// Short names: s and e, an entry and the number after its inner ones; w, for each level the number of its row's first cell, and depth, how many levels there
// are; q, what row entries answer where no row decides.
#![tactic(auto)]

ghost use Rattle.std.specs.Prelude.{◌≡◌, false};
ghost use Rattle.tables.specs.Values.{holds, by_numbers};
ghost use Rattle.cells.specs.Code.{seen_cell};
ghost use Rattle.card.specs.Card.{unknown_says};
ghost use Rattle.decoder.specs.Code.{head_at};
ghost use Rattle.runner.specs.Code.{is_leaf, lowest_mark, asks_marked, LeafReady, LeafAnswers, LeafRowsReady, LeafRowsAnswer, Runnable, PairRunnable, RowsRunnable, Answers};

use card::{Head, Interpretation, Leaf};
use cells::{BLANK_MARK, DECLINED_MARK, Layout, PRESENT_MARK, Seen};
use decoder::Entry;
use tables::{Comparison, Connective, MarkTest, Quantifier};
use values::{LEVELS, look};

// What unknown counts as in a comparison.
fn unknown_says(interpretation: Interpretation) -> bool
    ensures { result ≡ unknown_says interpretation }
{
    match interpretation {
        Interpretation::AsNo => false,
        Interpretation::AsYes => true,
    }
}

// The lowest mark that a test by the mark is about: a declined cell is blank too, and a blank one is not declined.
fn lowest_mark(test: MarkTest) -> u8
    ensures { result ≡ lowest_mark test }
{
    match test {
        MarkTest::Null | MarkTest::NotNull => BLANK_MARK,
        MarkTest::IsDeclined | MarkTest::NotDeclined => DECLINED_MARK,
    }
}

// Whether it asks for cells that have such a mark, or for the others.
fn asks_marked(test: MarkTest) -> bool
    ensures { result ≡ asks_marked test }
{
    matches!(test, MarkTest::Null | MarkTest::IsDeclined)
}

// Whether two cells compare so; unknown is the answer where one of them is blank or declined. Both answers are made, and a shift takes one of them: which cells
// are blank cannot be foreseen, and with a branch on the marks RUN over rows of which some are blank took a quarter longer.
fn cells_hold(unknown: bool, comparison: Comparison, x: Seen, y: Seen) -> bool
    ensures { result ≡ by_numbers unknown (holds comparison) (seen_cell x) (seen_cell y) }
{
    let h = values::numbers_hold(comparison, x.number, y.number);
    let absent = (x.mark != PRESENT_MARK) | (y.mark != PRESENT_MARK);
    let answers = h as u32 + 2 * (unknown as u32);
    (answers >> absent as u32) % 2 == 1
}

// A card's entries, and the tables that they are run over, with where these stand.
#[derive(Clone, Copy)]
pub struct Run<'a> {
    pub entries: &'a [Entry],
    pub layout: &'a Layout,
    pub file: &'a [u8],
}

impl<'a> Run<'a> {
    // What an entry without inner entries answers. It is short enough to be compiled into each of its callers; a look at a value in each arm, or arms that
    // tell all tests apart here, with the cells at hand, would make it too long for that. `unknown_says`, `lowest_mark` and `asks_marked` give constants, and
    // become a comparison or two each.
    fn run_leaf(&self, leaf: &Leaf, w: &[usize; LEVELS]) -> bool
        requires { LeafReady self.now w.now leaf.now }
        ensures { LeafAnswers self.now w.now leaf.now result }
    {
        let (Leaf::CompareLeaf { left: value, .. } | Leaf::MarkLeaf { value, .. }) = *leaf;
        let x = look(self.layout, self.file, w, value);
        match *leaf {
            Leaf::CompareLeaf {
                unknown,
                comparison,
                right,
                ..
            } => {
                let y = look(self.layout, self.file, w, right);
                cells_hold(unknown_says(unknown), comparison, x, y)
            }
            Leaf::MarkLeaf { test, .. } => (lowest_mark(test) <= x.mark) == asks_marked(test),
        }
    }

    // What an entry answers that asks for some row of this table, or for every row, where its inner entry is this leaf, with no inner entries of its own: no
    // recursive call is made for each row. q is the answer where no row decides. `run_rows` has the same loop around a call that recurs: if a closure made the
    // call, the recursion would go through it.
    fn run_leaf_rows(
        &self,
        leaf: &Leaf,
        table: u8,
        w: &[usize; LEVELS],
        depth: usize,
        q: bool,
    ) -> bool
        requires { LeafRowsReady self.now w.now leaf.now depth table }
        ensures { LeafRowsAnswer self.now w.now leaf.now depth table q result }
    {
        let table = cells::table_place(self.layout, table as usize);
        let mut v = *w;
        for row in 0..table.rows {
            v[depth] = table.first + row * table.columns;
            let says = self.run_leaf(leaf, &v);
            if says != q {
                return says;
            }
        }
        q
    }

    // What the entry s, with the inner ones up to e, answers.
    #[cycle(running)]
    pub fn run_entry(&self, s: usize, e: usize, w: &[usize; LEVELS], depth: usize) -> bool
        requires { Runnable self.now w.now s e depth }
        ensures { Answers self.now w.now s e depth result }
    {
        if let Some(Head::LeafHead(leaf)) = &self.entries[s].head {
            return self.run_leaf(leaf, w);
        }
        self.run_inner(s, e, w, depth)
    }

    // The same where s has inner entries. Entries with two are told from row entries first: with the four kinds in one `match` the compiler jumps through a
    // table, which takes longer. Each entry of a sound card says something, so it is not asked here whether this one does: the question would be asked again
    // at each row.
    #[cycle(running)]
    fn run_inner(&self, s: usize, e: usize, w: &[usize; LEVELS], depth: usize) -> bool
        requires whole { Runnable self.now w.now s e depth }
        requires inner { is_leaf (head_at self.now.entries.now s) ≡ false }
        ensures { Answers self.now w.now s e depth result }
    {
        let head = &self.entries[s].head;
        if let Some(Head::PairHead(connective)) = head {
            return match connective {
                Connective::And => self.run_pair(s, e, w, depth, false),
                Connective::Or => self.run_pair(s, e, w, depth, true),
            };
        }
        let Some(Head::RowHead { quantifier, table }) = head else {
            unreachable!();
        };
        match quantifier {
            Quantifier::Some => self.run_rows(s, e, *table, w, depth, false),
            Quantifier::All => self.run_rows(s, e, *table, w, depth, true),
        }
    }

    // The same where s is an and, which a no of its first inner entry decides, or an or, which a yes decides. It is compiled into each arm of `run_inner` that
    // calls it, where it is known which answer decides: one arm for both would keep that across the first call, in one more register that every call has to
    // save.
    #[cycle(running)]
    fn run_pair(&self, s: usize, e: usize, w: &[usize; LEVELS], depth: usize, decides: bool) -> bool
        requires { PairRunnable self.now w.now s e depth decides }
        ensures { Answers self.now w.now s e depth result }
    {
        let middle = self.entries[s + 1].end;
        let left = self.run_entry(s + 1, middle, w, depth);
        if left == decides {
            return left;
        }
        self.run_entry(middle, e, w, depth)
    }

    // The same as `run_entry`, asked of each row. Most rows are decided by the left test of an and or of an or: it is run here, with no recursive call.
    // All else goes to `run_entry`: `run_inner` is compiled into that function only while nothing else calls it.
    #[cycle(running)]
    fn run_row(&self, s: usize, e: usize, w: &[usize; LEVELS], depth: usize) -> bool
        requires { Runnable self.now w.now s e depth }
        ensures { Answers self.now w.now s e depth result }
    {
        if let Some(Head::PairHead(connective)) = &self.entries[s].head
            && let Some(Head::LeafHead(leaf)) = &self.entries[s + 1].head
        {
            let left = self.run_leaf(leaf, w);
            if left == (*connective == Connective::Or) {
                return left;
            }
            return self.run_entry(self.entries[s + 1].end, e, w, depth);
        }
        self.run_entry(s, e, w, depth)
    }

    // The same where s asks for some row of this table, or for every row.
    #[cycle(running)]
    fn run_rows(
        &self,
        s: usize,
        e: usize,
        table: u8,
        w: &[usize; LEVELS],
        depth: usize,
        q: bool,
    ) -> bool
        requires { RowsRunnable self.now w.now s e depth table q }
        ensures { Answers self.now w.now s e depth result }
    {
        if let Some(Head::LeafHead(leaf)) = &self.entries[s + 1].head {
            return self.run_leaf_rows(leaf, table, w, depth, q);
        }
        let table = cells::table_place(self.layout, table as usize);
        let mut v = *w;
        for row in 0..table.rows {
            v[depth] = table.first + row * table.columns;
            let says = self.run_row(s + 1, e, &v, depth + 1);
            if says != q {
                return says;
            }
        }
        q
    }
}
