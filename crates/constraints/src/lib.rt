// Constraints: unique keys, and whether a child row has its parent row.

#![tactic(auto)]

ghost use Rattle.std.specs.Prelude.{◌≡◌, true, [], ◌<◌, length, get_or, take};
ghost use Rattle.schema.specs.Bounds.{Columns};
ghost use Rattle.schema.specs.Records.{table_of, key_of};
ghost use Rattle.schema.specs.Fields.{schema_of};
ghost use Rattle.rules.specs.Lists;
ghost use Rattle.rules.specs.Keys;
ghost use Rattle.rules.specs.Change;
ghost use Rattle.bridge.specs.Fit.{work_of};
ghost use Rattle.bridge.specs.Ready.{Ready, Placed};
ghost use Rattle.rows.specs.Standing.{Standing, RowsOf, rows_in};
ghost use Rattle.rows.specs.KeyColumns.{PlainKey, KeyColumns, MaskWithin};

use fields::Schema;
use rows::{KeyPairs, TableRows};
use schema::Match;

// ---- unique keys

// Whether an image for row r breaks the unique key of a mask, in a table with these folded columns.
fn mask_broken(
    area: &[i64],
    table: TableRows,
    folded: usize,
    r: usize,
    image: [i64; 9],
    m: usize,
) -> bool
    requires { (Standing area.now table × (r < table.count)) × (MaskWithin table.width m × (m < 256)) }
    ensures { result ≡ Change.mask_broken folded r image (rows_in area.now table) m }
{
    if m == 0 {
        return false;
    }
    let n = rows::mask_count(m);
    let cs = rows::mask_columns(m);
    if !rows::image_full_key(image, n, cs) {
        return false;
    }
    let folds = rows::folds_among(folded, n, cs);
    let key = rows::sought_key(image, folds, n, cs, cs);
    scans::other_with_key(area, table, r, key)
}

// Whether an image for row r of table t, whose rows are given, breaks the table's unique key u.
fn key_broken(
    schema: &Schema,
    area: &[i64],
    t: usize,
    table: TableRows,
    r: usize,
    image: [i64; 9],
    u: usize,
) -> bool
    requires { Placed schema.now.bytes area.now t r × (RowsOf schema.now.bytes t table × (u < 4)) }
    ensures { result ≡ Change.mask_broken (table_of (schema_of schema.now.bytes) t).folded r image (rows_in area.now table) (get_or (table_of (schema_of schema.now.bytes) t).uniques u 0) }
{
    let folded = schema.folded(t);
    let m = schema.unique_mask(t, u);
    mask_broken(area, table, folded, r, image, m)
}

// Whether an image for row r breaks a unique key of table t.
pub fn unique_broken(schema: &Schema, area: &[i64], t: usize, r: usize, image: [i64; 9]) -> bool
    requires { Placed schema.now.bytes area.now t r }
    ensures { result ≡ Change.unique_broken (table_of (schema_of schema.now.bytes) t) r image (get_or (work_of (schema_of schema.now.bytes) area.now).tabs t []) }
{
    let table = rows::rows_of(schema, t);
    (0..4).any(|u| key_broken(schema, area, t, table, r, image, u))
}

// ---- foreign keys

// Whether one of foreign key k's parent rows serves a child row's image, which has no NULL in its key.
fn is_served(
    schema: &Schema,
    area: &[i64],
    k: usize,
    image: [i64; 9],
    parents: TableRows,
    pairs: KeyPairs,
) -> bool
    requires { (Ready schema.now.bytes area.now × (Keys.full_key (take pairs.n pairs.cs) image ≡ true)) × ((KeyColumns schema.now.bytes k pairs × PlainKey schema.now.bytes k) × RowsOf schema.now.bytes (key_of (schema_of schema.now.bytes) k).parent parents) }
    ensures { result ≡ Lists.any (Keys.serves (key_of (schema_of schema.now.bytes) k) image) (get_or (work_of (schema_of schema.now.bytes) area.now).tabs (key_of (schema_of schema.now.bytes) k).parent []) }
{
    let key = rows::sought_key(image, pairs.folded, pairs.n, pairs.ps, pairs.cs);
    scans::any_with_key(area, parents, key)
}

// Whether an image has half of its key filled and foreign key k counts that as an orphan.
fn is_half_due(schema: &Schema, k: usize, image: [i64; 9], n: usize, cs: [usize; 8]) -> bool
    requires { (k < length (schema_of schema.now.bytes).keys) × Columns 9 n cs }
    ensures { result ≡ Keys.half_due (key_of (schema_of schema.now.bytes) k).match (take n cs) image }
{
    match schema.key_match(k) {
        Match::Simple => false,
        Match::Full => rows::image_half_key(image, n, cs),
    }
}

// Whether the image of a child row of foreign key k, of which the parent rows and the columns are given, is that of an orphan.
pub fn is_orphan_among(
    schema: &Schema,
    area: &[i64],
    k: usize,
    image: [i64; 9],
    parents: TableRows,
    pairs: KeyPairs,
) -> bool
    requires { Ready schema.now.bytes area.now × ((KeyColumns schema.now.bytes k pairs × PlainKey schema.now.bytes k) × RowsOf schema.now.bytes (key_of (schema_of schema.now.bytes) k).parent parents) }
    ensures { result ≡ Keys.orphan (key_of (schema_of schema.now.bytes) k) (get_or (work_of (schema_of schema.now.bytes) area.now).tabs (key_of (schema_of schema.now.bytes) k).parent []) image }
{
    if rows::image_full_key(image, pairs.n, pairs.cs) {
        !is_served(schema, area, k, image, parents, pairs)
    } else {
        is_half_due(schema, k, image, pairs.n, pairs.cs)
    }
}

// The same for one image. A twin of is_orphan_among for speed: where the parent rows stand is read for a filled key alone, since
// fields::start_of goes through the tables before theirs.
pub fn is_orphan_image(
    schema: &Schema,
    area: &[i64],
    k: usize,
    image: [i64; 9],
    pairs: KeyPairs,
) -> bool
    requires { Ready schema.now.bytes area.now × (KeyColumns schema.now.bytes k pairs × PlainKey schema.now.bytes k) }
    ensures { result ≡ Keys.orphan (key_of (schema_of schema.now.bytes) k) (get_or (work_of (schema_of schema.now.bytes) area.now).tabs (key_of (schema_of schema.now.bytes) k).parent []) image }
{
    if rows::image_full_key(image, pairs.n, pairs.cs) {
        let parents = rows::rows_of(schema, schema.parent(k));
        !is_served(schema, area, k, image, parents, pairs)
    } else {
        is_half_due(schema, k, image, pairs.n, pairs.cs)
    }
}
