// Tests of a row, and rows passed over that fail one, four at a time.

#![tactic(auto)]

ghost use Rattle.std.specs.Prelude.{◌≡◌, Bool, ℕ, suc, ◌+◌, ◌≤◌, ◌<◌, length};
ghost use Rattle.rules.specs.Rows.{Row};
ghost use Rattle.bridge.specs.Ready.{row_in};
ghost use Rattle.rows.specs.Standing.{Standing};
ghost use Rattle.rows.specs.Sought.{has_value, has_sought, SoughtIn};
ghost use Rattle.skips.specs.Skipped.{word_of, first_words, has_word, both, masked_word, masked_pair, has_masked, one_of_four, Skipped};

use rows::{SoughtKey, TableRows};

// ---- a test of a row

// A test of a row by its words. The row stands at p of the area, in w words.
pub trait RowTest {
    // Which rows pass.
    ghost accepts: { Self → Row → Bool };

    // What it asks of the number of a row's words, beyond that they are in the area.
    ghost fits: { Self → ℕ → Type 0 };

    // Whether the row at p passes.
    fn passes(&self, area: &[i64], p: usize, w: usize) -> bool
        requires { (p + w ≤ length area.now) × fits self.now w }
        ensures { result ≡ accepts self.now (row_in area.now p w) };

    // Whether one of four rows from row j on does.
    fn one_of_four(&self, area: &[i64], table: TableRows, j: usize) -> bool
        requires { Standing area.now table × ((j + 4 ≤ table.count) × fits self.now table.width) }
        ensures { result ≡ one_of_four (accepts self.now) area.now table.start table.width j }
    {
        let w = table.width;
        let p = table.start + j * w;
        self.passes(area, p, w)
            || self.passes(area, p + w, w)
            || self.passes(area, p + w + w, w)
            || self.passes(area, p + w + w + w, w)
    }
}

// A word that a row must have.
#[derive(Clone, Copy)]
pub struct Word {
    pub place: usize,
    pub value: i64,
}

impl RowTest for Word {
    ghost accepts = { has_word };

    ghost fits = { λ s w. s.place < w };

    fn passes(&self, area: &[i64], p: usize, w: usize) -> bool {
        words::same_word(area[p + self.place], self.value)
    }
}

// A word that a row must have under a mask.
#[derive(Clone, Copy)]
pub struct MaskedWord {
    pub place: usize,
    pub mask: i64,
    pub value: i64,
}

impl RowTest for MaskedWord {
    ghost accepts = { has_masked };

    ghost fits = { λ s w. s.place < w };

    fn passes(&self, area: &[i64], p: usize, w: usize) -> bool {
        words::same_word(
            folding::under_mask(area[p + self.place], self.mask),
            self.value,
        )
    }
}

// Two tests, both of which a row must pass.
#[derive(Clone, Copy)]
pub struct Both<A, B> {
    pub first: A,
    pub second: B,
}

impl<A: RowTest, B: RowTest> RowTest for Both<A, B> {
    ghost accepts = { λ s. both (A.accepts s.first) (B.accepts s.second) };

    ghost fits = { λ s w. A.fits s.first w × B.fits s.second w };

    fn passes(&self, area: &[i64], p: usize, w: usize) -> bool {
        self.first.passes(area, p, w) && self.second.passes(area, p, w)
    }
}

// A value that a live row must have in a column that is not folded.
#[derive(Clone, Copy)]
pub struct Value {
    pub column: usize,
    pub value: i64,
}

impl RowTest for Value {
    ghost accepts = { λ s. has_value s.column s.value };

    ghost fits = { λ s w. (w ≤ 9) × (suc s.column < w) };

    fn passes(&self, area: &[i64], p: usize, w: usize) -> bool {
        rows::has_value(area, p, w, self.column, self.value)
    }
}

// A key that a live row must have.
impl RowTest for SoughtKey {
    ghost accepts = { has_sought };

    ghost fits = { λ s w. (0 < w) × ((w ≤ 9) × SoughtIn w s) };

    fn passes(&self, area: &[i64], p: usize, w: usize) -> bool {
        rows::has_key(area, p, w, self)
    }
}

// ---- rows passed over

// A row from row `from` on, below which none passes, four rows at a time.
pub fn skip<T: RowTest>(area: &[i64], table: TableRows, test: &T, from: usize) -> usize
    requires { Standing area.now table × ((from ≤ table.count) × T.fits test.now table.width) }
    ensures { Skipped (T.accepts test.now) area.now table from result }
{
    // A loop by hand: the row that it stops at is the answer, and with `step_by` that of an end would be reckoned a second time.
    let mut j = from;
    while 4 <= table.count - j {
        if test.one_of_four(area, table, j) {
            return j;
        }
        j += 4;
    }
    j
}

// ---- what is looked at of a sought key

// The word of column i, which is not folded.
#[tactic(auto, unfolding(crate::specs::Skipped::word_of))]
pub fn word_of(key: &SoughtKey, i: usize) -> Word
    requires { (i < key.now.n) × SoughtIn 9 key.now }
    ensures { result ≡ word_of key.now i }
{
    Word {
        place: key.cs[i] + 1,
        value: key.vs[i],
    }
}

// Those of its first two columns.
#[tactic(auto, unfolding(crate::specs::Skipped::first_words))]
pub fn first_words(key: &SoughtKey) -> Both<Word, Word>
    requires { (2 ≤ key.now.n) × SoughtIn 9 key.now }
    ensures { result ≡ first_words key.now }
{
    Both {
        first: word_of(key, 0),
        second: word_of(key, 1),
    }
}

// The word of column i, under the bits that it is looked at by first.
#[tactic(auto, unfolding(crate::specs::Skipped::masked_word))]
pub fn masked_word(key: &SoughtKey, i: usize) -> MaskedWord
    requires { (i < key.now.n) × SoughtIn 9 key.now }
    ensures { result ≡ masked_word key.now i }
{
    let mask = folding::first_mask(numbers::bit_of(i, key.folded));
    MaskedWord {
        place: key.cs[i] + 1,
        mask,
        value: folding::under_mask(key.vs[i], mask),
    }
}

// Those of its first two columns. Apart from `first_words`: one function of the reader of a word is no shorter.
#[tactic(auto, unfolding(crate::specs::Skipped::masked_pair))]
pub fn masked_pair(key: &SoughtKey) -> Both<MaskedWord, MaskedWord>
    requires { (2 ≤ key.now.n) × SoughtIn 9 key.now }
    ensures { result ≡ masked_pair key.now }
{
    Both {
        first: masked_word(key, 0),
        second: masked_word(key, 1),
    }
}
