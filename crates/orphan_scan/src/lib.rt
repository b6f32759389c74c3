// The orphans of an area, one after the other: foreign keys by number, child rows by rising number.

#![tactic(auto)]

ghost use Rattle.std.specs.Prelude.{◌≡◌, ◌<◌, length};
ghost use Rattle.schema.specs.Fields.{schema_of};
ghost use Rattle.bridge.specs.Ready.{Ready};
ghost use Rattle.orphans.specs.KeyRows.{Searched};
ghost use Rattle.orphan_scan.specs.Scan.{FirstRow, Starts, Unfinished, Next};

use fields::Schema;
use orphans::KeyRows;
use rules::Orphan;

// Where the search stands: its foreign key and the row of the last orphan found, if one was; the child row to go on with; the
// rows and columns of the foreign key, if there is one that is not broken.
#[derive(Clone, Copy)]
pub struct Cursor {
    pub orphan: Orphan,
    pub from: usize,
    pub key: Option<KeyRows>,
}

// The cursor before all orphans, where there is a foreign key.
pub fn start(schema: &Schema) -> Cursor
    ensures { 0 < length (schema_of schema.now.bytes).keys → Starts schema.now.bytes result }
{
    let key = if schema.key_count() == 0 {
        None
    } else {
        orphans::searched_rows(schema, 0)
    };
    Cursor {
        orphan: Orphan { key: 0, row: 0 },
        from: 0,
        key,
    }
}

// The first orphan of foreign key k from row `from` on.
fn next_row(
    schema: &Schema,
    area: &[i64],
    k: usize,
    key: Option<KeyRows>,
    from: usize,
) -> Option<usize>
    requires { Ready schema.now.bytes area.now × Searched schema.now.bytes k key }
    ensures { FirstRow schema.now.bytes area.now k from result }
{
    let key = key?;
    (from..key.children.count).find(|&j| orphans::is_orphan(schema, area, k, key, j))
}

// The cursor at the next orphan, where there is one.
pub fn next_orphan(schema: &Schema, area: &[i64], at: Cursor) -> Cursor
    requires { Unfinished schema.now.bytes area.now at }
    ensures { Next schema.now.bytes area.now at result }
{
    let mut k = at.orphan.key;
    let mut key = at.key;
    let mut from = at.from;
    // No range tells how far this goes: to the foreign key that has the next orphan.
    loop {
        if let Some(row) = next_row(schema, area, k, key, from) {
            return Cursor {
                orphan: Orphan { key: k, row },
                from: row + 1,
                key,
            };
        }
        k += 1;
        key = orphans::searched_rows(schema, k);
        from = 0;
    }
}
