// The parts of a row change: its checks, the child rows that its actions take, and the images that they give them.

#![tactic(auto)]

ghost use Rattle.std.specs.Prelude.{◌≡◌, true, not, ◌&&◌, [], ◌<◌, length, get_or};
ghost use Rattle.schema.specs.Records.{parent_key, key_of};
ghost use Rattle.schema.specs.Fields.{schema_of};
ghost use Rattle.rules.specs.Rows;
ghost use Rattle.rules.specs.Lists;
ghost use Rattle.rules.specs.Keys;
ghost use Rattle.rules.specs.Keys.{full_key};
ghost use Rattle.rules.specs.Change;
ghost use Rattle.bridge.specs.Fit.{work_of};
ghost use Rattle.bridge.specs.Ready.{Ready, Placed};
ghost use Rattle.rows.specs.KeyColumns.{PlainKey};
ghost use Rattle.windows.specs.WindowKey.{WindowedKey, WindowColumns};
ghost use Rattle.rows.specs.Sought.{sought_values};
ghost use Rattle.table_keys.specs.Touched.{BrokenKeys, KeysOf};
ghost use Rattle.change_parts.specs.Turns.{deletes_child, action_image, old_key, FollowersOf, restricted, WindowTurn};

use fields::Schema;
use rows::{SoughtKey, TableRows};
use rules::{Refusal, Verdict};
use schema::Action;
use table_keys::TableKeys;
use windows::WindowKey;

// What the child rows of a foreign key are gone through by: their table and where they stand, the old parent key in their
// columns, folded where it is compared so, the parent columns and the action. It is read once, before the first of them is
// looked at.
#[derive(Clone, Copy)]
pub struct Followers {
    pub table: usize,
    pub rows: TableRows,
    pub key: SoughtKey,
    pub ps: [usize; 8],
    pub action: Action,
}

// Whether row r of table t is live.
pub fn is_live_row(schema: &Schema, area: &[i64], t: usize, r: usize) -> bool
    requires { Placed schema.now.bytes area.now t r }
    ensures { result ≡ Rows.live (Rows.row_at t r (work_of (schema_of schema.now.bytes) area.now).tabs) }
{
    let image = area::image_of(schema, area, t, r);
    rows::image_live(image)
}

// Whether the change of row r of table t to an image uses one of the broken keys that touch the table.
fn uses_broken(
    schema: &Schema,
    area: &[i64],
    broken: usize,
    t: usize,
    r: usize,
    image: [i64; 9],
) -> bool
    requires { Placed schema.now.bytes area.now t r × BrokenKeys schema.now.bytes t broken }
    ensures { result ≡ Lists.any (Keys.uses_broken image t (Rows.row_at t r (work_of (schema_of schema.now.bytes) area.now).tabs)) (schema_of schema.now.bytes).keys }
{
    if broken == 0 {
        return false;
    }
    let lives = rows::image_live(image);
    let lived = is_live_row(schema, area, t, r);
    table_keys::uses_broken(schema, t, broken, lives, lived)
}

// The checks of a row change, in their order. `keys` has the foreign keys that touch the table.
pub fn admits(
    schema: &Schema,
    area: &[i64],
    keys: TableKeys,
    t: usize,
    r: usize,
    image: [i64; 9],
) -> Verdict
    requires { Placed schema.now.bytes area.now t r × KeysOf schema.now.bytes t keys }
    ensures { result ≡ Change.admits (schema_of schema.now.bytes) t r image (work_of (schema_of schema.now.bytes) area.now) }
{
    if area::is_full(schema, area) {
        return Err(Refusal::JournalFull);
    }
    if uses_broken(schema, area, keys.broken, t, r, image) {
        return Err(Refusal::BrokenKey);
    }
    if !rows::image_live(image) {
        return Ok(());
    }
    if rows::not_null_broken(schema, t, image) {
        return Err(Refusal::NotNull);
    }
    if constraints::unique_broken(schema, area, t, r, image) {
        return Err(Refusal::NotUnique);
    }
    if window_keys::windows_broken(schema, area, keys.windowed, t, r, image) {
        return Err(Refusal::BadWindow);
    }
    Ok(())
}

// The action of foreign key k on an update to `new`, or on a deletion.
pub fn action_of(schema: &Schema, k: usize, new: [i64; 9]) -> Action
    requires { k < length (schema_of schema.now.bytes).keys }
    ensures { result ≡ Change.action_of new (key_of (schema_of schema.now.bytes) k) }
{
    if rows::image_live(new) {
        return schema.on_update(k);
    }
    schema.on_delete(k)
}

// ---- the child rows that follow a parent row

// What the child rows of foreign key k, which is not broken and has no window, are gone through by, when a parent row turns
// from `old`, which has no NULL in its key, to `new`.
pub fn followers_of(schema: &Schema, k: usize, old: [i64; 9], new: [i64; 9]) -> Followers
    requires { PlainKey schema.now.bytes k × (full_key (parent_key (key_of (schema_of schema.now.bytes) k)) old ≡ true) }
    ensures { FollowersOf schema.now.bytes k new result × (sought_values result.key ≡ old_key (key_of (schema_of schema.now.bytes) k) old) }
{
    let t = schema.child(k);
    let rows = rows::rows_of(schema, t);
    let pairs = rows::key_pairs(schema, k);
    let cs = pairs.cs;
    let ps = pairs.ps;
    let key = rows::sought_key(old, pairs.folded, pairs.n, cs, ps);
    let action = action_of(schema, k, new);
    Followers {
        table: t,
        rows,
        key,
        ps,
        action,
    }
}

// Whether an action deletes the child row: CASCADE, where the parent row is deleted.
fn deletes_child(action: Action, new: [i64; 9]) -> bool
    ensures { result ≡ deletes_child action new }
{
    matches!(action, Action::Cascade) && !rows::image_live(new)
}

// The image that the action gives row j of foreign key k's child rows.
pub fn child_after(
    schema: &Schema,
    area: &[i64],
    k: usize,
    f: Followers,
    j: usize,
    new: [i64; 9],
) -> [i64; 9]
    requires { Placed schema.now.bytes area.now f.table j × FollowersOf schema.now.bytes k new f }
    ensures { result ≡ action_image f.action (schema_of schema.now.bytes) (key_of (schema_of schema.now.bytes) k) new (Rows.image f.table j (work_of (schema_of schema.now.bytes) area.now).tabs) }
{
    let action = f.action;
    if deletes_child(action, new) {
        return [0i64; 9];
    }
    let rows = f.rows;
    let w = rows.width;
    let x = words::image_at(area, rows.start + j * w, w);
    let key = f.key;
    let cs = key.cs;
    let ps = f.ps;
    images::child_image(schema, k, f.table, action, key.n, cs, ps, new, x)
}

// ---- keys with a window

// What RESTRICT says of foreign key k, which fires: it refuses where a child row maps to the old image and not to the new one.
fn restrict(
    schema: &Schema,
    area: &[i64],
    k: usize,
    old: [i64; 9],
    new: [i64; 9],
    key: WindowKey,
) -> Verdict
    requires { (Ready schema.now.bytes area.now × WindowColumns schema.now.bytes k key) × (full_key (parent_key (key_of (schema_of schema.now.bytes) k)) old ≡ true) }
    ensures { result ≡ restricted (Lists.any (λ c. Keys.takes (key_of (schema_of schema.now.bytes) k) old c && not (Keys.serves (key_of (schema_of schema.now.bytes) k) c new)) (get_or (work_of (schema_of schema.now.bytes) area.now).tabs (key_of (schema_of schema.now.bytes) k).child [])) }
{
    if window_keys::leaves_any(schema, area, k, old, new, key) {
        return Err(Refusal::Restricted);
    }
    Ok(())
}

// The action of foreign key k, if it is one of those with a window and follows: RESTRICT, or NO ACTION, which takes no row.
pub fn window_turn(
    schema: &Schema,
    area: &[i64],
    t: usize,
    old: [i64; 9],
    new: [i64; 9],
    k: usize,
) -> Verdict
    requires { Ready schema.now.bytes area.now × WindowedKey schema.now.bytes k }
    ensures { WindowTurn (schema_of schema.now.bytes) new t old (key_of (schema_of schema.now.bytes) k) (work_of (schema_of schema.now.bytes) area.now) result }
{
    if schema.parent(k) != t {
        return Ok(());
    }
    let key = windows::window_key(schema, k);
    if !windows::key_changes(old, new, key) {
        return Ok(());
    }
    match action_of(schema, k, new) {
        Action::Restrict => restrict(schema, area, k, old, new, key),
        _ => Ok(()),
    }
}
