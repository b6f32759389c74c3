// Rows read by their words: keys compared, NOT NULL, the columns of unique keys, whether actions follow.

#![tactic(auto)]

ghost use Rattle.std.specs.Prelude.{◌≡◌, true, false, not, ◌&&◌, suc, ◌+◌, ◌≤◌, ◌<◌, length, take};
ghost use Rattle.schema.specs.Bounds.{Columns};
ghost use Rattle.schema.specs.Bytes.{bit, folds_of};
ghost use Rattle.schema.specs.Records.{table_of, key_of};
ghost use Rattle.schema.specs.Fields.{schema_of};
ghost use Rattle.rules.specs.Lists;
ghost use Rattle.rules.specs.Values.{folded};
ghost use Rattle.rules.specs.Rows;
ghost use Rattle.rules.specs.Keys;
ghost use Rattle.rules.specs.Found.{cell_is};
ghost use Rattle.rules.specs.KeyValues.{key_values, holds_key};
ghost use Rattle.rules.specs.Change;
ghost use Rattle.bridge.specs.Ready.{row_in};
ghost use Rattle.rows.specs.Standing.{RowAt, RowsOf};
ghost use Rattle.rows.specs.KeyColumns.{folds_in, OfImage, WholeKey, PlainKey, PlainParent, ParentColumns, KeyColumns};
ghost use Rattle.rows.specs.Sought.{sought_folds, sought_columns, sought_values, compared_values, has_value, has_sought, SoughtIn, SoughtOf};

use fields::Schema;

// The rows of a table: their first word, the words of a row, how many there are.
#[derive(Clone, Copy)]
pub struct TableRows {
    pub start: usize,
    pub width: usize,
    pub count: usize,
}

// The column pairs of a foreign key: n of them, which are folded (bit i for pair i), the child columns and the parent columns.
// Arrays with a length beside them, here and below: no heap, fixed memory.
#[derive(Clone, Copy)]
pub struct KeyPairs {
    pub n: usize,
    pub folded: usize,
    pub cs: [usize; 8],
    pub ps: [usize; 8],
}

// A sought key: its n columns in the rows that are searched, which of them are compared folded (bit i for the column of
// place i), and the values that they must have, as they are compared: folded there. None of them is NULL.
#[derive(Clone, Copy)]
pub struct SoughtKey {
    pub n: usize,
    pub folded: usize,
    pub cs: [usize; 8],
    pub vs: [i64; 8],
}

// ---- rows and keys

// Whether a state is that of a live row.
pub fn is_live(state: usize) -> bool
    ensures { result ≡ Rows.live_state state }
{
    (256..512).contains(&state)
}

// Whether an image is that of a live row.
pub fn image_live(image: [i64; 9]) -> bool
    ensures { result ≡ Rows.live image }
{
    is_live(words::nat_of(image[0]))
}

// Whether one of some columns of an image is NULL, by the state.
fn some_null(state: usize, cs: &[usize]) -> bool
    requires { OfImage cs.now }
    ensures { result ≡ Lists.any (λ c. bit c state) cs.now }
{
    cs.iter().any(|c| numbers::bit_of(*c, state))
}

// How many of some columns of an image are NULL, by the state.
fn null_columns(state: usize, cs: &[usize]) -> usize
    requires { OfImage cs.now }
    ensures { result ≡ Lists.count (λ c. bit c state) cs.now }
{
    cs.iter().filter(|c| numbers::bit_of(**c, state)).count()
}

// Whether an image is live and has no NULL in its key.
pub fn image_full_key(image: [i64; 9], n: usize, cs: [usize; 8]) -> bool
    requires { Columns 9 n cs }
    ensures { result ≡ Keys.full_key (take n cs) image }
{
    let state = words::nat_of(image[0]);
    is_live(state) && !some_null(state, &cs[..n])
}

// Bit i of a mask as a number.
pub fn bit_number(i: usize, m: usize) -> usize
    requires { i < 64 }
    ensures { (result ≡ Lists.one (bit i m)) × (result ≤ 1) }
{
    usize::from(numbers::bit_of(i, m))
}

// Whether an image is live and has some but not all columns of its key NULL.
pub fn image_half_key(image: [i64; 9], n: usize, cs: [usize; 8]) -> bool
    requires { Columns 9 n cs }
    ensures { result ≡ Keys.half_key (take n cs) image }
{
    let state = words::nat_of(image[0]);
    let nulls = null_columns(state, &cs[..n]);
    is_live(state) && (0 < nulls && nulls < n)
}

// ---- sought keys

// The values of an image in some columns as they are compared, folded where bit i says so, at the start of an array.
fn key_values(image: [i64; 9], folded: usize, ds: &[usize]) -> [i64; 8]
    requires { OfImage ds.now × (length ds.now ≤ 8) }
    ensures { take (length ds.now) result ≡ compared_values (folds_in (length ds.now) folded) (key_values ds.now image) }
{
    let mut vs = [0i64; 8];
    for (i, d) in ds.iter().enumerate() {
        vs[i] = folding::compared(numbers::bit_of(i, folded), image[*d + 1]);
    }
    vs
}

// The key of an image with no NULL in it, to be searched for in columns cs. Its values are folded here, once.
pub fn sought_key(
    image: [i64; 9],
    folded: usize,
    n: usize,
    cs: [usize; 8],
    ds: [usize; 8],
) -> SoughtKey
    requires { Columns 9 n ds × (Keys.full_key (take n ds) image ≡ true) }
    ensures { SoughtOf folded n cs ds image result }
{
    let vs = key_values(image, folded, &ds[..n]);
    SoughtKey { n, folded, cs, vs }
}

// Whether column c of a row, compared folded or not, is not NULL and has the value v, which is folded if they are.
fn holds_value(row: &[i64], f: bool, c: usize, v: i64) -> bool
    requires { ((suc c < length row.now) × (length row.now ≤ 9)) × (folded f v ≡ v) }
    ensures { result ≡ cell_is f false v c row.now }
{
    let u = folding::compared(f, row[c + 1]);
    words::same_word(u, v) && !numbers::bit_of(c, words::nat_at(row, 0))
}

// Whether the row at p is live, and its column c, which is not folded, is not NULL and has the value v.
pub fn has_value(area: &[i64], p: usize, w: usize, c: usize, v: i64) -> bool
    requires { RowAt area.now p w × (suc c < w) }
    ensures { result ≡ has_value c v (row_in area.now p w) }
{
    let row = &area[p..p + w];
    holds_value(row, false, c, v) && is_live(words::nat_at(row, 0))
}

// Whether a row has no NULL in a sought key's columns, and has its values there.
fn holds_key(row: &[i64], key: &SoughtKey) -> bool
    requires { (length row.now ≤ 9) × SoughtIn (length row.now) key.now }
    ensures { result ≡ holds_key (sought_folds key.now) (sought_columns key.now) (sought_values key.now) row.now }
{
    (0..key.n).all(|i| holds_value(row, numbers::bit_of(i, key.folded), key.cs[i], key.vs[i]))
}

// Whether the row at p is live and has a sought key.
pub fn has_key(area: &[i64], p: usize, w: usize, key: &SoughtKey) -> bool
    requires { RowAt area.now p w × SoughtIn w key.now }
    ensures { result ≡ has_sought key.now (row_in area.now p w) }
{
    let row = &area[p..p + w];
    holds_key(row, key) && is_live(words::nat_at(row, 0))
}

// ---- NOT NULL

// Whether an image has NULL in a NOT NULL column of table t.
pub fn not_null_broken(schema: &Schema, t: usize, image: [i64; 9]) -> bool
    requires { t < length (schema_of schema.now.bytes).tables }
    ensures { result ≡ Change.not_null_broken (table_of (schema_of schema.now.bytes) t) image }
{
    let mask = schema.not_null(t);
    let n = schema.columns(t);
    let state = words::nat_of(image[0]);
    (0..n).any(|c| numbers::bit_of(c, mask) & numbers::bit_of(c, state))
}

// ---- a table's rows

// Where the rows of table t stand.
pub fn rows_of(schema: &Schema, t: usize) -> TableRows
    requires { t < length (schema_of schema.now.bytes).tables }
    ensures { RowsOf schema.now.bytes t result }
{
    let start = schema.start_of(t);
    let width = schema.columns(t) + 1;
    let count = schema.rows(t);
    TableRows {
        start,
        width,
        count,
    }
}

// ---- unique

// How many columns a mask has.
pub fn mask_count(m: usize) -> usize
    ensures { (result ≡ length (Keys.mask_columns m)) × (result ≤ 8) }
{
    (0..8).filter(|i| numbers::bit_of(*i, m)).count()
}

// The columns of a mask, at the start of an array.
pub fn mask_columns(m: usize) -> [usize; 8]
    ensures { take (length (Keys.mask_columns m)) result ≡ Keys.mask_columns m }
{
    let mut list = [0usize; 8];
    let mut n = 0;
    for i in 0..8 {
        list[n] = i;
        n += bit_number(i, m);
    }
    list
}

// ---- folded columns

// Which of n columns are in a mask of folded columns, bit i for the column of place i.
pub fn folds_among(mask: usize, n: usize, cs: [usize; 8]) -> usize
    requires { Columns 9 n cs }
    ensures { folds_in n result ≡ folds_of mask (take n cs) }
{
    let mut f = 0;
    for i in 0..n {
        f = numbers::marked(f, i, numbers::bit_of(cs[i], mask));
    }
    f
}

// Which of foreign key k's n pairs are folded: those whose column of its parent table t is. The key is not broken.
fn key_folds(schema: &Schema, k: usize, t: usize, n: usize, ps: [usize; 8]) -> usize
    requires { ParentColumns schema.now.bytes k n ps × ((key_of (schema_of schema.now.bytes) k).parent ≡ t) }
    ensures { folds_in n result ≡ (key_of (schema_of schema.now.bytes) k).folds }
{
    let mask = schema.folded(t);
    if mask == 0 {
        return 0;
    }
    folds_among(mask, n, ps)
}

// The column pairs of foreign key k, which is not broken and has n of them.
pub fn pairs_of(schema: &Schema, k: usize, n: usize) -> KeyPairs
    requires { WholeKey schema.now.bytes k × (n ≡ length (key_of (schema_of schema.now.bytes) k).child_columns) }
    ensures { KeyColumns schema.now.bytes k result }
{
    let cs = schema.child_columns(k);
    let ps = schema.parent_columns(k);
    let folded = key_folds(schema, k, schema.parent(k), n, ps);
    KeyPairs { n, folded, cs, ps }
}

// The column pairs of foreign key k, which is not broken and has no window.
pub fn key_pairs(schema: &Schema, k: usize) -> KeyPairs
    requires { PlainKey schema.now.bytes k }
    ensures { KeyColumns schema.now.bytes k result }
{
    pairs_of(schema, k, schema.width(k))
}

// ---- what an action looks at

// Whether column c of one image and column d of another are equal, compared folded or not.
pub fn same_cell(x: [i64; 9], y: [i64; 9], f: bool, c: usize, d: usize) -> bool
    requires { (c < 8) × (d < 8) }
    ensures { result ≡ Keys.same_cell f x y c d }
{
    let v = folding::compared(f, y[d + 1]);
    holds_value(&x, f, c, v) && !numbers::bit_of(d, words::nat_of(y[0]))
}

// Whether the key of one image in n columns cs is that of another in n columns ds; bit i says whether those of place i are folded.
pub fn same_key(
    x: [i64; 9],
    y: [i64; 9],
    folded: usize,
    n: usize,
    cs: [usize; 8],
    ds: [usize; 8],
) -> bool
    requires { Columns 9 n cs × Columns 9 n ds }
    ensures { result ≡ Keys.same_key (folds_in n folded) (take n cs) (take n ds) x y }
{
    (0..n).all(|i| same_cell(x, y, numbers::bit_of(i, folded), cs[i], ds[i]))
}

// Whether an old parent key without NULL, folded where bit i says so, is not the new one. A deleted row has none.
fn key_changes(old: [i64; 9], new: [i64; 9], folded: usize, n: usize, ps: [usize; 8]) -> bool
    requires { Columns 9 n ps }
    ensures { result ≡ Keys.full_key (take n ps) old && not (Rows.live new && Keys.same_key (folds_in n folded) (take n ps) (take n ps) new old) }
{
    image_full_key(old, n, ps) && !(image_live(new) && same_key(new, old, folded, n, ps, ps))
}

// Whether actions of foreign key k, which is not broken and has no window, follow the change of a row of its parent table t from
// `old` to `new`.
pub fn fires(schema: &Schema, t: usize, old: [i64; 9], new: [i64; 9], k: usize) -> bool
    requires { PlainParent schema.now.bytes t k }
    ensures { result ≡ Keys.fires new t old (key_of (schema_of schema.now.bytes) k) }
{
    let n = schema.width(k);
    let ps = schema.parent_columns(k);
    let folded = key_folds(schema, k, t, n, ps);
    key_changes(old, new, folded, n, ps)
}
