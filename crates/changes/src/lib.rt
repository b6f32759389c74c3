// A row change, the walk over the foreign keys and the walk over a key's child rows: they call each other, and the levels left under depth 17 fall.

#![tactic(auto)]

ghost use Rattle.std.specs.Prelude.{◌≡◌, false, ◌<◌, length};
ghost use Rattle.schema.specs.Records.{table_of, key_of};
ghost use Rattle.schema.specs.Fields.{schema_of};
ghost use Rattle.rules.specs.Lists.{up_from};
ghost use Rattle.rules.specs.Rows;
ghost use Rattle.rules.specs.Keys;
ghost use Rattle.rules.specs.Change;
ghost use Rattle.rules.specs.KeyValues.{children_by_values};
ghost use Rattle.bridge.specs.Fit.{work_of};
ghost use Rattle.bridge.specs.Ready.{result_of};
ghost use Rattle.moves.specs.Tally.{Follows, Tallied, TalliedAt};
ghost use Rattle.rows.specs.Sought.{sought_values};
ghost use Rattle.change_parts.specs.Turns.{FollowersOf, Unserved};
ghost use Rattle.table_keys.specs.Touched.{KeysOf};

use change_parts::Followers;
use fields::Schema;
use rules::{Refusal, Verdict};
use schema::Action;
use table_keys::TableKeys;

// Changes row r of table t to an image, with its actions.
#[cycle(row_changes)]
pub fn row_change(
    schema: &Schema,
    area: &mut [i64],
    tally: &mut [i64; 32],
    t: usize,
    r: usize,
    image: [i64; 9],
    left: usize,
) -> Verdict
    requires { TalliedAt schema.now.bytes tally.old area.old t r }
    ensures { (result_of result (work_of (schema_of schema.now.bytes) area.new) ≡ Change.change left (schema_of schema.now.bytes) t r image (work_of (schema_of schema.now.bytes) area.old)) × Follows (schema_of schema.now.bytes) tally.old area.old tally.new area.new }
{
    if left == 0 {
        return Err(Refusal::TooDeep);
    }
    let keys = table_keys::keys_of(schema, t);
    change_parts::admits(schema, area, keys, t, r, image)?;
    let old = tally::write_tallied(schema, area, tally, keys, t, r, image);
    key_walk(schema, area, tally, keys, t, old, image, left - 1)
}

// The actions of all foreign keys, by number. `keys` has those that touch the table.
#[cycle(row_changes)]
fn key_walk(
    schema: &Schema,
    area: &mut [i64],
    tally: &mut [i64; 32],
    keys: TableKeys,
    t: usize,
    old: [i64; 9],
    new: [i64; 9],
    left: usize,
) -> Verdict
    requires { Tallied schema.now.bytes tally.old area.old × KeysOf schema.now.bytes t keys }
    ensures { (result_of result (work_of (schema_of schema.now.bytes) area.new) ≡ Change.actions (Change.change left (schema_of schema.now.bytes)) (schema_of schema.now.bytes) new t old (schema_of schema.now.bytes).keys (work_of (schema_of schema.now.bytes) area.old)) × Follows (schema_of schema.now.bytes) tally.old area.old tally.new area.new }
{
    for k in 0..schema.key_count() {
        key_turn(schema, area, tally, keys, t, old, new, k, left)?;
    }
    Ok(())
}

// The actions of foreign key k, if they follow.
#[cycle(row_changes)]
fn key_turn(
    schema: &Schema,
    area: &mut [i64],
    tally: &mut [i64; 32],
    keys: TableKeys,
    t: usize,
    old: [i64; 9],
    new: [i64; 9],
    k: usize,
    left: usize,
) -> Verdict
    requires { Tallied schema.now.bytes tally.old area.old × (KeysOf schema.now.bytes t keys × (k < length (schema_of schema.now.bytes).keys)) }
    ensures { (result_of result (work_of (schema_of schema.now.bytes) area.new) ≡ Change.key_turn (Change.change left (schema_of schema.now.bytes)) (schema_of schema.now.bytes) new t old (key_of (schema_of schema.now.bytes) k) (work_of (schema_of schema.now.bytes) area.old)) × Follows (schema_of schema.now.bytes) tally.old area.old tally.new area.new }
{
    if !numbers::bit_of(k, keys.whole) {
        return Ok(());
    }
    if numbers::bit_of(k, keys.windowed) {
        return change_parts::window_turn(schema, area, t, old, new, k);
    }
    if schema.parent(k) != t {
        return Ok(());
    }
    if !rows::fires(schema, t, old, new, k) {
        return Ok(());
    }
    let f = change_parts::followers_of(schema, k, old, new);
    row_walk(schema, area, tally, k, f, new, left)
}

// The action of foreign key k on its child rows, by rising number. Of the old row it knows the values that were fetched; a row
// that has them does not map to the new one.
#[cycle(row_changes)]
fn row_walk(
    schema: &Schema,
    area: &mut [i64],
    tally: &mut [i64; 32],
    k: usize,
    f: Followers,
    new: [i64; 9],
    left: usize,
) -> Verdict
    requires { Tallied schema.now.bytes tally.old area.old × (FollowersOf schema.now.bytes k new f × Unserved (key_of (schema_of schema.now.bytes) k) (sought_values f.key) new) }
    ensures { (result_of result (work_of (schema_of schema.now.bytes) area.new) ≡ children_by_values (Change.change left (schema_of schema.now.bytes)) (schema_of schema.now.bytes) new (key_of (schema_of schema.now.bytes) k) (sought_values f.key) (up_from 0 (table_of (schema_of schema.now.bytes) (key_of (schema_of schema.now.bytes) k).child).rows) (work_of (schema_of schema.now.bytes) area.old)) × Follows (schema_of schema.now.bytes) tally.old area.old tally.new area.new }
{
    // A loop by hand: the search goes on from the row after the one found.
    let mut j = 0;
    while let Some(i) = scans::first_with_key(area, f.rows, &f.key, j) {
        row_turn(schema, area, tally, k, f, new, i, left)?;
        j = i + 1;
    }
    Ok(())
}

// The action of foreign key k on row j of its child rows, which is taken: it does not map to the new parent row.
#[cycle(row_changes)]
fn row_turn(
    schema: &Schema,
    area: &mut [i64],
    tally: &mut [i64; 32],
    k: usize,
    f: Followers,
    new: [i64; 9],
    j: usize,
    left: usize,
) -> Verdict
    requires { TalliedAt schema.now.bytes tally.old area.old f.table j × (FollowersOf schema.now.bytes k new f × (Keys.serves (key_of (schema_of schema.now.bytes) k) (Rows.image f.table j (work_of (schema_of schema.now.bytes) area.old).tabs) new ≡ false)) }
    ensures { (result_of result (work_of (schema_of schema.now.bytes) area.new) ≡ Change.taken (Change.change left (schema_of schema.now.bytes)) (schema_of schema.now.bytes) new (Change.action_of new (key_of (schema_of schema.now.bytes) k)) (key_of (schema_of schema.now.bytes) k) j (Rows.image f.table j (work_of (schema_of schema.now.bytes) area.old).tabs) (work_of (schema_of schema.now.bytes) area.old)) × Follows (schema_of schema.now.bytes) tally.old area.old tally.new area.new }
{
    match f.action {
        Action::NoAction => Ok(()),
        Action::Restrict => Err(Refusal::Restricted),
        Action::SetNull | Action::SetDefault | Action::Cascade => {
            let y = change_parts::child_after(schema, area, k, f, j, new);
            row_change(schema, area, tally, f.table, j, y, left)
        }
    }
}
