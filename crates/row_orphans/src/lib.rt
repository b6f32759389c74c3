// The orphans that a row makes by having one image and not another.

#![tactic(auto)]

ghost use Rattle.std.specs.Prelude.{◌≡◌, true, [], ◌≤◌, ◌<◌, length, get_or, take};
ghost use Rattle.schema.specs.Records.{key_of};
ghost use Rattle.schema.specs.Fields.{schema_of};
ghost use Rattle.rules.specs.Keys.{full_key, orphan};
ghost use Rattle.bridge.specs.Fit.{work_of};
ghost use Rattle.bridge.specs.Ready.{Ready, Placed};
ghost use Rattle.moves.specs.Movement.{own_orphan, stranded_rows};
ghost use Rattle.rows.specs.KeyColumns.{PlainKey, PlainParent, KeyColumns};
ghost use Rattle.windows.specs.WindowKey.{WindowedKey};
ghost use Rattle.table_keys.specs.Touched.{KeysOf};
ghost use Rattle.row_orphans.specs.RowOrphans;
ghost use Rattle.row_orphans.specs.RowOrphans.{KindOf};

use fields::Schema;
use rows::KeyPairs;
use table_keys::TableKeys;

// Whether an image of a child row of foreign key k is that of an orphan. The key is not broken; it has a window or none.
fn is_orphan(schema: &Schema, area: &[i64], k: usize, windowed: bool, image: [i64; 9]) -> bool
    requires { Ready schema.now.bytes area.now × KindOf schema.now.bytes k windowed }
    ensures { result ≡ orphan (key_of (schema_of schema.now.bytes) k) (get_or (work_of (schema_of schema.now.bytes) area.now).tabs (key_of (schema_of schema.now.bytes) k).parent []) image }
{
    if !rows::image_live(image) {
        return false;
    }
    if windowed {
        let parents = rows::rows_of(schema, schema.parent(k));
        let key = windows::window_key(schema, k);
        return window_keys::is_orphan(schema, area, k, image, parents, key);
    }
    let pairs = rows::key_pairs(schema, k);
    constraints::is_orphan_image(schema, area, k, image, pairs)
}

// 1 where table t is the child of foreign key k and a row of it with an image is an orphan, else 0.
fn own_orphan(
    schema: &Schema,
    area: &[i64],
    k: usize,
    windowed: bool,
    t: usize,
    image: [i64; 9],
) -> usize
    requires { Ready schema.now.bytes area.now × KindOf schema.now.bytes k windowed }
    ensures { (result ≡ own_orphan (key_of (schema_of schema.now.bytes) k) t image (work_of (schema_of schema.now.bytes) area.now).tabs) × (result ≤ 1) }
{
    if schema.child(k) != t {
        return 0;
    }
    usize::from(is_orphan(schema, area, k, windowed, image))
}

// How many child rows of foreign key k, but for row r of table t, have an image's parent key, which has no NULL in it.
fn taken_rows(
    schema: &Schema,
    area: &[i64],
    k: usize,
    t: usize,
    r: usize,
    image: [i64; 9],
    pairs: KeyPairs,
) -> usize
    requires { (Placed schema.now.bytes area.now t r × (KeyColumns schema.now.bytes k pairs × PlainKey schema.now.bytes k)) × (full_key (take pairs.n pairs.ps) image ≡ true) }
    ensures { (result ≡ RowOrphans.taken_rows (key_of (schema_of schema.now.bytes) k) t r image (work_of (schema_of schema.now.bytes) area.now).tabs) × (result ≤ 1024) }
{
    let child = schema.child(k);
    let children = rows::rows_of(schema, child);
    let cs = pairs.cs;
    let ps = pairs.ps;
    let key = rows::sought_key(image, pairs.folded, pairs.n, cs, ps);
    if child == t {
        return scans::count_others_with_key(area, children, r, key);
    }
    scans::count_with_key(area, children, key)
}

// Whether a row of table t other than row r has an image's parent key of foreign key k, which has no NULL in it.
fn has_twin(
    schema: &Schema,
    area: &[i64],
    k: usize,
    t: usize,
    r: usize,
    image: [i64; 9],
    pairs: KeyPairs,
) -> bool
    requires { (Placed schema.now.bytes area.now t r × (KeyColumns schema.now.bytes k pairs × PlainKey schema.now.bytes k)) × (((key_of (schema_of schema.now.bytes) k).parent ≡ t) × (full_key (take pairs.n pairs.ps) image ≡ true)) }
    ensures { result ≡ RowOrphans.has_twin (key_of (schema_of schema.now.bytes) k) r image (work_of (schema_of schema.now.bytes) area.now).tabs }
{
    let parents = rows::rows_of(schema, t);
    let ps = pairs.ps;
    let key = rows::sought_key(image, pairs.folded, pairs.n, ps, ps);
    scans::other_with_key(area, parents, r, key)
}

// Row r of table t turns from image `old` to image `new`.
#[derive(Clone, Copy)]
struct Turn {
    t: usize,
    r: usize,
    old: [i64; 9],
    new: [i64; 9],
}

// How many child rows of foreign key k, which has no window, lose their parent row by the turn of a row of its parent table.
fn plain_stranded(schema: &Schema, area: &[i64], k: usize, turn: &Turn) -> usize
    requires { Placed schema.now.bytes area.now turn.now.t turn.now.r × PlainParent schema.now.bytes turn.now.t k }
    ensures { (result ≡ stranded_rows (key_of (schema_of schema.now.bytes) k) turn.now.t turn.now.r turn.now.old turn.now.new (work_of (schema_of schema.now.bytes) area.now).tabs) × (result ≤ 1024) }
{
    let t = turn.t;
    let old = turn.old;
    if !rows::fires(schema, t, old, turn.new, k) {
        return 0;
    }
    let pairs = rows::key_pairs(schema, k);
    let m = taken_rows(schema, area, k, t, turn.r, old, pairs);
    if m == 0 {
        return 0;
    }
    if has_twin(schema, area, k, t, turn.r, old, pairs) {
        return 0;
    }
    m
}

// The same, for a key with a window: its columns and its days are looked at, of a key without one the pairs alone.
fn window_stranded(schema: &Schema, area: &[i64], k: usize, turn: &Turn) -> usize
    requires { Placed schema.now.bytes area.now turn.now.t turn.now.r × (WindowedKey schema.now.bytes k × ((key_of (schema_of schema.now.bytes) k).parent ≡ turn.now.t)) }
    ensures { (result ≡ stranded_rows (key_of (schema_of schema.now.bytes) k) turn.now.t turn.now.r turn.now.old turn.now.new (work_of (schema_of schema.now.bytes) area.now).tabs) × (result ≤ 1024) }
{
    let key = windows::window_key(schema, k);
    if !windows::key_changes(turn.old, turn.new, key) {
        return 0;
    }
    window_keys::left_rows(schema, area, k, turn.t, turn.r, turn.old, turn.new, key)
}

// How many child rows of foreign key k lose their parent row by the turn of a row.
fn stranded_rows(schema: &Schema, area: &[i64], k: usize, windowed: bool, turn: &Turn) -> usize
    requires { Placed schema.now.bytes area.now turn.now.t turn.now.r × KindOf schema.now.bytes k windowed }
    ensures { (result ≡ stranded_rows (key_of (schema_of schema.now.bytes) k) turn.now.t turn.now.r turn.now.old turn.now.new (work_of (schema_of schema.now.bytes) area.now).tabs) × (result ≤ 1024) }
{
    let parent = schema.parent(k);
    if parent != turn.t {
        return 0;
    }
    if windowed {
        return window_stranded(schema, area, k, turn);
    }
    plain_stranded(schema, area, k, turn)
}

// The orphans of foreign key k that a row makes by having the new image and not the old one: itself, and the child rows that the
// old one would serve. `keys` has the keys that touch the table; another and a broken one have none.
fn key_orphans(schema: &Schema, area: &[i64], keys: TableKeys, k: usize, turn: &Turn) -> usize
    requires { Placed schema.now.bytes area.now turn.now.t turn.now.r × (KeysOf schema.now.bytes turn.now.t keys × (k < length (schema_of schema.now.bytes).keys)) }
    ensures { (result ≡ RowOrphans.row_orphans (key_of (schema_of schema.now.bytes) k) turn.now.t turn.now.r turn.now.new turn.now.old (work_of (schema_of schema.now.bytes) area.now).tabs) × (result ≤ 1025) }
{
    if !numbers::bit_of(k, keys.whole) {
        return 0;
    }
    let windowed = numbers::bit_of(k, keys.windowed);
    let own = own_orphan(schema, area, k, windowed, turn.t, turn.new);
    stranded_rows(schema, area, k, windowed, turn) + own
}

// The orphans of each foreign key that row r of table t makes by having image x and not y. `keys` has those that touch the table.
pub fn row_counts(
    schema: &Schema,
    area: &[i64],
    keys: TableKeys,
    t: usize,
    r: usize,
    x: [i64; 9],
    y: [i64; 9],
) -> [i64; 32]
    requires { Placed schema.now.bytes area.now t r × KeysOf schema.now.bytes t keys }
    ensures { result ≡ RowOrphans.row_counts (schema_of schema.now.bytes) t r x y (work_of (schema_of schema.now.bytes) area.now).tabs }
{
    let turn = Turn {
        t,
        r,
        old: y,
        new: x,
    };
    let mut counts = [0i64; 32];
    for k in 0..schema.key_count() {
        let c = key_orphans(schema, area, keys, k, &turn);
        counts[k] = words::word_of(c);
    }
    counts
}
