// The image that an action gives a child row, that of a row inserted or updated, and that of a row with one column set.

#![tactic(auto)]

ghost use Rattle.std.specs.Prelude.{◌≡◌, true, false, ◌≤◌, ◌<◌, pos, length, get_or, drop, MatchOption};
ghost use Rattle.schema.specs.Records.{table_of, key_of};
ghost use Rattle.schema.specs.Fields.{schema_of};
ghost use Rattle.rules.specs.Values.{nat_of};
ghost use Rattle.rules.specs.Rows;
ghost use Rattle.rules.specs.Change;
ghost use Rattle.rules.specs.Found;
ghost use Rattle.rows.specs.KeyColumns.{OfImage, PairColumns};

use fields::Schema;
use schema::Action;

// ---- a live row's image

// An image of a live row as it is written, in a table with so many columns: no bit past the columns, 0 in NULL columns.
fn written(columns: usize, image: [i64; 9]) -> [i64; 9]
    requires { columns ≤ 8 }
    ensures { result ≡ Rows.live_image columns (nat_of (get_or image 0 (pos 0))) (drop 1 image) }
{
    let mask = words::nat_of(image[0]);
    let mut x = image;
    x[0] = words::word_of(256 + mask % numbers::power(columns));
    for i in 0..8 {
        if numbers::bit_of(i, mask) {
            x[i + 1] = 0;
        }
    }
    x
}

// The image that an insert or update writes, of a table with so many columns.
pub fn live_image(columns: usize, call: &[i64]) -> [i64; 9]
    requires { (length call.now ≡ 12) × (columns ≤ 8) }
    ensures { result ≡ Rows.live_image columns (nat_of (get_or call.now 3 (pos 0))) (drop 4 call.now) }
{
    written(columns, words::image_at(call, 3, 9))
}

// ---- a child key filled anew

// A mask with the bit of column c, set where the column is NULL.
fn flag(c: usize, null: bool, mask: usize) -> usize
    requires { (c < 8) × (mask < 256) }
    ensures { (result ≡ Change.flag c null mask) × (result < 256) }
{
    let bit = numbers::power(c);
    if null { mask | bit } else { mask & !bit }
}

// An image with another value, or NULL, in column c.
fn set_cell(c: usize, value: Option<i64>, image: [i64; 9]) -> [i64; 9]
    requires { c < 8 }
    ensures { MatchOption value (result ≡ Change.set_cell c true (pos 0) image) (λ v. result ≡ Change.set_cell c false v image) }
{
    let mask = words::nat_of(image[0]) % 256;
    let mut x = image;
    x[0] = words::word_of(256 + flag(c, value.is_none(), mask));
    x[c + 1] = value.unwrap_or(0);
    x
}

// A row with another value, or NULL, in column c, as it is written in a table with so many columns.
pub fn row_set(columns: usize, c: usize, value: Option<i64>, image: [i64; 9]) -> [i64; 9]
    requires { (columns ≤ 8) × (c < 8) }
    ensures { MatchOption value ((y : _) → result ≡ Found.row_set columns c true y image) (λ v. result ≡ Found.row_set columns c false v image) }
{
    written(columns, set_cell(c, value, image))
}

// What an action puts in column c of child table t, whose parent column is p: a value, or NULL.
fn filling(
    schema: &Schema,
    t: usize,
    action: Action,
    new: [i64; 9],
    c: usize,
    p: usize,
) -> Option<i64>
    requires { (t < length (schema_of schema.now.bytes).tables) × ((c < 8) × (p < 8)) }
    ensures { MatchOption result (Change.fills_null action (table_of (schema_of schema.now.bytes) t) new c p ≡ true) (λ v. (Change.fills_null action (table_of (schema_of schema.now.bytes) t) new c p ≡ false) × (v ≡ Change.filler action (table_of (schema_of schema.now.bytes) t) new c p)) }
{
    match action {
        Action::NoAction | Action::Restrict => Some(0),
        Action::SetNull => None,
        Action::SetDefault => {
            if numbers::bit_of(c, schema.default_null(t)) {
                None
            } else {
                Some(schema.default_value(t, c))
            }
        }
        Action::Cascade => {
            if numbers::bit_of(p, words::nat_of(new[0])) {
                None
            } else {
                Some(new[p + 1])
            }
        }
    }
}

// A row of child table t with its child columns cs filled by an action, to be written.
fn refilled(
    schema: &Schema,
    t: usize,
    action: Action,
    new: [i64; 9],
    cs: &[usize],
    ps: &[usize],
    image: [i64; 9],
) -> [i64; 9]
    requires { (t < length (schema_of schema.now.bytes).tables) × ((OfImage cs.now × OfImage ps.now) × (length cs.now ≡ length ps.now)) }
    ensures { (columns : _) → columns ≤ 8 → Rows.normal columns result ≡ Rows.normal columns (Change.refilled action (table_of (schema_of schema.now.bytes) t) new cs.now ps.now image) }
{
    let mut x = image;
    for i in 0..cs.len() {
        let value = filling(schema, t, action, new, cs[i], ps[i]);
        let y = set_cell(cs[i], value, x);
        x = y;
    }
    x
}

// The image that an action of foreign key k gives a row of its child table, t, its columns given; `new` is the parent row's new image.
pub fn child_image(
    schema: &Schema,
    k: usize,
    t: usize,
    action: Action,
    n: usize,
    cs: [usize; 8],
    ps: [usize; 8],
    new: [i64; 9],
    image: [i64; 9],
) -> [i64; 9]
    requires { PairColumns schema.now.bytes k n cs ps × (t ≡ (key_of (schema_of schema.now.bytes) k).child) }
    ensures { result ≡ Change.child_image action (schema_of schema.now.bytes) (key_of (schema_of schema.now.bytes) k) new image }
{
    let x = refilled(schema, t, action, new, &cs[..n], &ps[..n], image);
    written(schema.columns(t), x)
}
