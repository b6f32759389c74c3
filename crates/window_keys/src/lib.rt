// Foreign keys with a window: windows that clash, child rows without a parent row, child rows that a parent row leaves behind.

#![tactic(auto)]

ghost use Rattle.std.specs.Prelude.{◌≡◌, true, not, ◌&&◌, [], suc, ◌≤◌, ◌<◌, length, get_or, take};
ghost use Rattle.schema.specs.Records.{child_key, parent_key, table_of, key_of};
ghost use Rattle.schema.specs.Fields.{schema_of};
ghost use Rattle.rules.specs.Lists;
ghost use Rattle.rules.specs.Keys;
ghost use Rattle.rules.specs.Change;
ghost use Rattle.bridge.specs.Fit.{work_of};
ghost use Rattle.bridge.specs.Ready.{Ready, Placed};
ghost use Rattle.moves.specs.Movement.{stranded_rows};
ghost use Rattle.rows.specs.Standing.{Standing, RowsOf, rows_in};
ghost use Rattle.rows.specs.Sought.{SoughtOf};
ghost use Rattle.table_keys.specs.Touched.{WindowKeys};
ghost use Rattle.windows.specs.WindowKey.{window_of, WindowedKey, WindowColumns, WindowIn, parent_days};
ghost use Rattle.window_keys.specs.Left.{left_by};

use fields::Schema;
use rows::TableRows;
use schema::Match;
use windows::{Sought, WindowKey};

// ---- 24

// Whether the window of a row of table t other than row r clashes with that of an image, which has no NULL in its parent key.
// Table t is the parent of foreign key k.
fn has_clash(
    schema: &Schema,
    area: &[i64],
    k: usize,
    t: usize,
    r: usize,
    image: [i64; 9],
    key: WindowKey,
) -> bool
    requires { (Placed schema.now.bytes area.now t r × WindowColumns schema.now.bytes k key) × (((key_of (schema_of schema.now.bytes) k).parent ≡ t) × (Keys.full_key (parent_key (key_of (schema_of schema.now.bytes) k)) image ≡ true)) }
    ensures { result ≡ Lists.any (Change.clashes (key_of (schema_of schema.now.bytes) k) image (window_of key)) (Lists.except r (get_or (work_of (schema_of schema.now.bytes) area.now).tabs t [])) }
{
    let parents = rows::rows_of(schema, t);
    let pairs = key.pairs;
    let ps = pairs.ps;
    let sought = Sought {
        key: rows::sought_key(image, pairs.folded, pairs.n, ps, ps),
        days: windows::clash_days(image, key),
    };
    windows::other_on(area, parents, r, sought)
}

// Whether an image for row r of table t breaks 24 by foreign key k, which is not broken and has a window.
fn bad_window(schema: &Schema, area: &[i64], k: usize, t: usize, r: usize, image: [i64; 9]) -> bool
    requires { Placed schema.now.bytes area.now t r × WindowedKey schema.now.bytes k }
    ensures { result ≡ Change.bad_window t r image (get_or (work_of (schema_of schema.now.bytes) area.now).tabs t []) (key_of (schema_of schema.now.bytes) k) }
{
    if schema.parent(k) != t {
        return false;
    }
    let key = windows::window_key(schema, k);
    if !windows::full_parent(image, key) {
        return false;
    }
    if windows::is_empty(image, key) {
        return true;
    }
    has_clash(schema, area, k, t, r, image, key)
}

// The same, where foreign key k is one of those with a window.
fn key_bad_window(
    schema: &Schema,
    area: &[i64],
    windowed: usize,
    k: usize,
    t: usize,
    r: usize,
    image: [i64; 9],
) -> bool
    requires { Placed schema.now.bytes area.now t r × (WindowKeys schema.now.bytes t windowed × (k < length (schema_of schema.now.bytes).keys)) }
    ensures { result ≡ Change.bad_window t r image (get_or (work_of (schema_of schema.now.bytes) area.now).tabs t []) (key_of (schema_of schema.now.bytes) k) }
{
    if !numbers::bit_of(k, windowed) {
        return false;
    }
    bad_window(schema, area, k, t, r, image)
}

// Whether an image for row r of table t breaks 24. `windowed` has the keys with a window that touch the table.
pub fn windows_broken(
    schema: &Schema,
    area: &[i64],
    windowed: usize,
    t: usize,
    r: usize,
    image: [i64; 9],
) -> bool
    requires { Placed schema.now.bytes area.now t r × WindowKeys schema.now.bytes t windowed }
    ensures { result ≡ Lists.any (Change.bad_window t r image (get_or (work_of (schema_of schema.now.bytes) area.now).tabs t [])) (schema_of schema.now.bytes).keys }
{
    if windowed == 0 {
        return false;
    }
    (0..schema.key_count()).any(|k| key_bad_window(schema, area, windowed, k, t, r, image))
}

// ---- orphans

// What parent rows are sought by, that serve a child row's image, which has no NULL in its key.
fn serving(child: [i64; 9], key: WindowKey) -> Sought
    requires { WindowIn key × (Keys.full_key (take key.pairs.n key.pairs.cs) child ≡ true) }
    ensures { SoughtOf key.pairs.folded key.pairs.n key.pairs.ps key.pairs.cs child result.key × (result.days ≡ parent_days child key) }
{
    let pairs = key.pairs;
    let cs = pairs.cs;
    let ps = pairs.ps;
    Sought {
        key: rows::sought_key(child, pairs.folded, pairs.n, ps, cs),
        days: windows::parent_days(child, key),
    }
}

// Whether one of foreign key k's parent rows serves a child row's image, which has no NULL in its key. The search goes by days
// too, so that a key without a window has its own in `constraints`.
fn is_served(
    schema: &Schema,
    area: &[i64],
    k: usize,
    image: [i64; 9],
    parents: TableRows,
    key: WindowKey,
) -> bool
    requires { (Ready schema.now.bytes area.now × WindowColumns schema.now.bytes k key) × (RowsOf schema.now.bytes (key_of (schema_of schema.now.bytes) k).parent parents × (Keys.full_key (child_key (key_of (schema_of schema.now.bytes) k)) image ≡ true)) }
    ensures { result ≡ Lists.any (Keys.serves (key_of (schema_of schema.now.bytes) k) image) (get_or (work_of (schema_of schema.now.bytes) area.now).tabs (key_of (schema_of schema.now.bytes) k).parent []) }
{
    windows::any_on(area, parents, serving(image, key))
}

// Whether an image has half of its key filled and foreign key k counts that as an orphan.
fn is_half_due(schema: &Schema, k: usize, image: [i64; 9], key: WindowKey) -> bool
    requires { WindowColumns schema.now.bytes k key }
    ensures { result ≡ Keys.half_due (key_of (schema_of schema.now.bytes) k).match (child_key (key_of (schema_of schema.now.bytes) k)) image }
{
    match schema.key_match(k) {
        Match::Simple => false,
        Match::Full => windows::half_child(image, key),
    }
}

// Whether the image of a child row of foreign key k, of which the parent rows and the columns are given, is that of an orphan.
pub fn is_orphan(
    schema: &Schema,
    area: &[i64],
    k: usize,
    image: [i64; 9],
    parents: TableRows,
    key: WindowKey,
) -> bool
    requires { (Ready schema.now.bytes area.now × WindowColumns schema.now.bytes k key) × RowsOf schema.now.bytes (key_of (schema_of schema.now.bytes) k).parent parents }
    ensures { result ≡ Keys.orphan (key_of (schema_of schema.now.bytes) k) (get_or (work_of (schema_of schema.now.bytes) area.now).tabs (key_of (schema_of schema.now.bytes) k).parent []) image }
{
    if !windows::full_child(image, key) {
        return is_half_due(schema, k, image, key);
    }
    !is_served(schema, area, k, image, parents, key)
}

// ---- child rows left behind

// Row r of a foreign key's parent rows turns from image `old` to image `new`. Where no other row's window clashes with the one
// that it had, the others are clear: none of them serves a child row that it served.
#[derive(Clone, Copy)]
struct Turn {
    parents: TableRows,
    r: usize,
    clear: bool,
    old: [i64; 9],
    new: [i64; 9],
}

// Whether a child row has no parent row then: neither the new image nor another row serves it, of which none is asked where they
// are clear.
fn is_left(
    schema: &Schema,
    area: &[i64],
    k: usize,
    child: [i64; 9],
    turn: Turn,
    key: WindowKey,
) -> bool
    requires { (Ready schema.now.bytes area.now × WindowColumns schema.now.bytes k key) × ((RowsOf schema.now.bytes (key_of (schema_of schema.now.bytes) k).parent turn.parents × (turn.r < turn.parents.count)) × (Keys.full_key (child_key (key_of (schema_of schema.now.bytes) k)) child ≡ true)) }
    ensures { result ≡ left_by turn.clear (key_of (schema_of schema.now.bytes) k) turn.new (Lists.except turn.r (get_or (work_of (schema_of schema.now.bytes) area.now).tabs (key_of (schema_of schema.now.bytes) k).parent [])) child }
{
    if windows::serves(child, turn.new, key) {
        return false;
    }
    if turn.clear {
        return true;
    }
    !windows::other_on(area, turn.parents, turn.r, serving(child, key))
}

// How many of some child rows map to the old image and are left then.
fn count_left(
    schema: &Schema,
    area: &[i64],
    k: usize,
    children: TableRows,
    turn: Turn,
    key: WindowKey,
) -> usize
    requires { (Ready schema.now.bytes area.now × WindowColumns schema.now.bytes k key) × (((Standing area.now children × (children.width ≡ suc (table_of (schema_of schema.now.bytes) (key_of (schema_of schema.now.bytes) k).child).columns)) × (RowsOf schema.now.bytes (key_of (schema_of schema.now.bytes) k).parent turn.parents × (turn.r < turn.parents.count))) × (Keys.full_key (parent_key (key_of (schema_of schema.now.bytes) k)) turn.old ≡ true)) }
    ensures { (result ≡ Lists.count (λ c. Keys.takes (key_of (schema_of schema.now.bytes) k) turn.old c && left_by turn.clear (key_of (schema_of schema.now.bytes) k) turn.new (Lists.except turn.r (get_or (work_of (schema_of schema.now.bytes) area.now).tabs (key_of (schema_of schema.now.bytes) k).parent [])) c) (rows_in area.now children)) × (result ≤ children.count) }
{
    let pairs = key.pairs;
    let cs = pairs.cs;
    let ps = pairs.ps;
    let sought = Sought {
        key: rows::sought_key(turn.old, pairs.folded, pairs.n, cs, ps),
        days: windows::left_days(turn.old, turn.new, key),
    };
    // A loop by hand: the search goes on from the row after the one found.
    let mut m = 0;
    let mut j = 0;
    while let Some(i) = windows::first_on(area, children, sought, j) {
        let p = children.start + i * children.width;
        let child = words::image_at(area, p, children.width);
        if is_left(schema, area, k, child, turn, key) {
            m += 1;
        }
        j = i + 1;
    }
    m
}

// How many child rows of foreign key k, which fires, lose their parent row when row r of table t turns from image x to image y.
pub fn left_rows(
    schema: &Schema,
    area: &[i64],
    k: usize,
    t: usize,
    r: usize,
    x: [i64; 9],
    y: [i64; 9],
    key: WindowKey,
) -> usize
    requires { (Placed schema.now.bytes area.now t r × WindowColumns schema.now.bytes k key) × (((key_of (schema_of schema.now.bytes) k).parent ≡ t) × (Keys.fires y t x (key_of (schema_of schema.now.bytes) k) ≡ true)) }
    ensures { (result ≡ stranded_rows (key_of (schema_of schema.now.bytes) k) t r x y (work_of (schema_of schema.now.bytes) area.now).tabs) × (result ≤ 1024) }
{
    if windows::keeps_days(x, y, key) {
        return 0;
    }
    let clear = !has_clash(schema, area, k, t, r, x, key);
    let turn = Turn {
        parents: rows::rows_of(schema, t),
        r,
        clear,
        old: x,
        new: y,
    };
    let child = schema.child(k);
    let children = rows::rows_of(schema, child);
    if child != t {
        return count_left(schema, area, k, children, turn, key);
    }
    let before = scans::rows_before(children, r);
    let m = count_left(schema, area, k, before, turn, key);
    let after = scans::rows_after(area, children, r);
    m + count_left(schema, area, k, after, turn, key)
}

// Whether a child row of foreign key k maps to a parent row with image `old` and not to one with image `new`. The old one has no
// NULL in its key.
pub fn leaves_any(
    schema: &Schema,
    area: &[i64],
    k: usize,
    old: [i64; 9],
    new: [i64; 9],
    key: WindowKey,
) -> bool
    requires { (Ready schema.now.bytes area.now × WindowColumns schema.now.bytes k key) × (Keys.full_key (parent_key (key_of (schema_of schema.now.bytes) k)) old ≡ true) }
    ensures { result ≡ Lists.any (λ c. Keys.takes (key_of (schema_of schema.now.bytes) k) old c && not (Keys.serves (key_of (schema_of schema.now.bytes) k) c new)) (get_or (work_of (schema_of schema.now.bytes) area.now).tabs (key_of (schema_of schema.now.bytes) k).child []) }
{
    if windows::keeps_days(old, new, key) {
        return false;
    }
    let children = rows::rows_of(schema, schema.child(k));
    let parents = rows::rows_of(schema, schema.parent(k));
    let turn = Turn {
        parents,
        r: 0,
        clear: true,
        old,
        new,
    };
    count_left(schema, area, k, children, turn, key) != 0
}
