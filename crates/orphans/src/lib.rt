// The orphans of a foreign key, found among its child rows.

#![tactic(auto)]

ghost use Rattle.std.specs.Prelude.{◌≡◌, [], ◌≤◌, ◌<◌, length, get_or};
ghost use Rattle.schema.specs.Records.{key_of};
ghost use Rattle.schema.specs.Fields.{schema_of};
ghost use Rattle.rules.specs.Rows;
ghost use Rattle.rules.specs.Keys;
ghost use Rattle.bridge.specs.Fit.{work_of};
ghost use Rattle.bridge.specs.Ready.{Ready};
ghost use Rattle.rows.specs.KeyColumns.{WholeKey};
ghost use Rattle.orphans.specs.KeyRows.{ColumnsOf, KeyRowsOf, Searched};

use fields::Schema;
use rows::{KeyPairs, TableRows};
use windows::WindowKey;

// The columns of a foreign key: its pairs, and its window where it has one.
#[derive(Clone, Copy)]
pub enum KeyKind {
    Plain(KeyPairs),
    Windowed(WindowKey),
}

// The child rows of a foreign key, its parent rows and its columns.
#[derive(Clone, Copy)]
pub struct KeyRows {
    pub children: TableRows,
    pub parents: TableRows,
    pub columns: KeyKind,
}

// The columns of foreign key k, which is not broken.
fn key_columns(schema: &Schema, k: usize) -> KeyKind
    requires { WholeKey schema.now.bytes k }
    ensures { ColumnsOf schema.now.bytes k result }
{
    if schema.windows(k) == 0 {
        return KeyKind::Plain(rows::key_pairs(schema, k));
    }
    KeyKind::Windowed(windows::window_key(schema, k))
}

// The rows and the columns of foreign key k, which is not broken.
fn key_rows(schema: &Schema, k: usize) -> KeyRows
    requires { WholeKey schema.now.bytes k }
    ensures { KeyRowsOf schema.now.bytes k result }
{
    let children = rows::rows_of(schema, schema.child(k));
    let parents = rows::rows_of(schema, schema.parent(k));
    let columns = key_columns(schema, k);
    KeyRows {
        children,
        parents,
        columns,
    }
}

// What is searched for orphans of foreign key k: its rows and columns; nothing where it is broken.
pub fn searched_rows(schema: &Schema, k: usize) -> Option<KeyRows>
    requires { k < length (schema_of schema.now.bytes).keys }
    ensures { Searched schema.now.bytes k result }
{
    if schema.is_broken(k) {
        return None;
    }
    Some(key_rows(schema, k))
}

// Whether row j of foreign key k's child table is an orphan.
pub fn is_orphan(schema: &Schema, area: &[i64], k: usize, key: KeyRows, j: usize) -> bool
    requires { Ready schema.now.bytes area.now × (KeyRowsOf schema.now.bytes k key × (j < key.children.count)) }
    ensures { result ≡ Keys.orphan (key_of (schema_of schema.now.bytes) k) (get_or (work_of (schema_of schema.now.bytes) area.now).tabs (key_of (schema_of schema.now.bytes) k).parent []) (Rows.row_at (key_of (schema_of schema.now.bytes) k).child j (work_of (schema_of schema.now.bytes) area.now).tabs) }
{
    let children = key.children;
    let w = children.width;
    let image = words::image_at(area, children.start + j * w, w);
    let parents = key.parents;
    match key.columns {
        KeyKind::Plain(pairs) => {
            constraints::is_orphan_among(schema, area, k, image, parents, pairs)
        }
        KeyKind::Windowed(columns) => {
            window_keys::is_orphan(schema, area, k, image, parents, columns)
        }
    }
}

// The orphans of foreign key k, counted from the rows.
pub fn count_orphans(schema: &Schema, area: &[i64], k: usize) -> usize
    requires { Ready schema.now.bytes area.now × (k < length (schema_of schema.now.bytes).keys) }
    ensures { (result ≡ Keys.orphans (work_of (schema_of schema.now.bytes) area.now).tabs (key_of (schema_of schema.now.bytes) k)) × (result ≤ 1024) }
{
    let Some(key) = searched_rows(schema, k) else {
        return 0;
    };
    let mut m = 0;
    for j in 0..key.children.count {
        m += usize::from(is_orphan(schema, area, k, key, j));
    }
    m
}
