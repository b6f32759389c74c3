// The foreign keys that touch a table, whole and broken ones apart, and those with a window; whether a row change uses a
// broken one.

#![tactic(auto)]

ghost use Rattle.std.specs.Prelude.{◌≡◌, ◌^◌, ◌<◌, length};
ghost use Rattle.schema.specs.Records.{key_of};
ghost use Rattle.schema.specs.Fields.{schema_of};
ghost use Rattle.rules.specs.Lists;
ghost use Rattle.table_keys.specs.Touched.{touches, with_key, broken_used, BrokenKeys, KeysOf};

use fields::Schema;

// The foreign keys whose child or parent a table is, as masks of their numbers: those that are not broken, of these the ones
// with a window, and the broken ones.
#[derive(Clone, Copy, Default)]
pub struct TableKeys {
    pub whole: usize,
    pub windowed: usize,
    pub broken: usize,
}

// Whether table t is the child or the parent of foreign key k.
fn touches(schema: &Schema, k: usize, t: usize) -> bool
    requires { k < length (schema_of schema.now.bytes).keys }
    ensures { result ≡ touches t (key_of (schema_of schema.now.bytes) k) }
{
    let child = schema.child(k);
    let parent = schema.parent(k);
    child == t || parent == t
}

// The keys that touch a table, with foreign key k put in, which touches it.
fn with_key(schema: &Schema, keys: TableKeys, k: usize) -> TableKeys
    requires { (k < length (schema_of schema.now.bytes).keys) × ((keys.whole < 2 ^ k) × ((keys.windowed < 2 ^ k) × (keys.broken < 2 ^ k))) }
    ensures { result ≡ with_key keys k (key_of (schema_of schema.now.bytes) k) }
{
    if schema.is_broken(k) {
        return TableKeys {
            broken: numbers::marked(keys.broken, k, true),
            ..keys
        };
    }
    TableKeys {
        whole: numbers::marked(keys.whole, k, true),
        windowed: numbers::marked(keys.windowed, k, schema.windows(k) != 0),
        ..keys
    }
}

// The foreign keys that touch table t.
pub fn keys_of(schema: &Schema, t: usize) -> TableKeys
    ensures { KeysOf schema.now.bytes t result }
{
    let mut keys = TableKeys::default();
    for k in 0..schema.key_count() {
        if touches(schema, k, t) {
            keys = with_key(schema, keys, k);
        }
    }
    keys
}

// Whether foreign key k is one of the broken ones, and the change of a row of table t uses it. The row lives after the
// change or not, and lived before it or not.
fn is_used(schema: &Schema, t: usize, broken: usize, k: usize, lives: bool, lived: bool) -> bool
    requires { (k < length (schema_of schema.now.bytes).keys) × BrokenKeys schema.now.bytes t broken }
    ensures { result ≡ broken_used lives t lived (key_of (schema_of schema.now.bytes) k) }
{
    if !numbers::bit_of(k, broken) {
        return false;
    }
    let child = schema.child(k);
    let parent = schema.parent(k);
    ((child == t) & lives) | ((parent == t) & lived)
}

// Whether such a change uses one of the broken keys that touch the table.
pub fn uses_broken(schema: &Schema, t: usize, broken: usize, lives: bool, lived: bool) -> bool
    requires { BrokenKeys schema.now.bytes t broken }
    ensures { result ≡ Lists.any (broken_used lives t lived) (schema_of schema.now.bytes).keys }
{
    (0..schema.key_count()).any(|k| is_used(schema, t, broken, k, lives, lived))
}
