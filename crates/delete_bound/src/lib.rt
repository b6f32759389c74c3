// How much one delete can touch: the sum, over all live rows, of 1 plus the row's columns that are not NULL and that SET
// NULL on delete can clear.

#![tactic(auto)]

ghost use Rattle.std.specs.Prelude.{◌≡◌, [], ◌≤◌, ◌<◌, eqb, length, get_or, take};
ghost use Rattle.schema.specs.Marks.{Marks};
ghost use Rattle.schema.specs.Records.{table_of, key_of};
ghost use Rattle.schema.specs.Fields.{schema_of};
ghost use Rattle.rules.specs.Lists.{any};
ghost use Rattle.rules.specs.DeleteBound;
ghost use Rattle.bridge.specs.Fit.{work_of};
ghost use Rattle.bridge.specs.Ready.{Ready};
ghost use Rattle.delete_bound.specs.StateBound.{state_bound};

use fields::Schema;
use rules::Numbered;
use schema::Action;

// ---- the columns that SET NULL on delete can clear

// Whether an action is SET NULL.
#[tactic(auto, unfolding(rules::specs::DeleteBound::is_set_null))]
fn is_set_null(action: Action) -> bool
    ensures { result ≡ DeleteBound.is_set_null action }
{
    matches!(action, Action::SetNull)
}

// Whether column c is one of the first n of these.
fn has_column(n: usize, cs: [usize; 8], c: usize) -> bool
    requires { n ≤ 8 }
    ensures { result ≡ any (eqb c) (take n cs) }
{
    cs[..n].contains(&c)
}

// Whether column c of table t is a child column of foreign key k, which has SET NULL on delete.
fn clears(schema: &Schema, k: usize, t: usize, c: usize) -> bool
    requires { k < length (schema_of schema.now.bytes).keys }
    ensures { result ≡ DeleteBound.clears t c (key_of (schema_of schema.now.bytes) k) }
{
    if !is_set_null(schema.on_delete(k)) {
        return false;
    }
    if schema.child(k) != t {
        return false;
    }
    let n = schema.width(k);
    let cs = schema.child_columns(k);
    has_column(n, cs, c)
}

// Whether column c of table t is a child column of a foreign key with SET NULL on delete.
fn is_cleared(schema: &Schema, t: usize, c: usize) -> bool
    ensures { result ≡ any (DeleteBound.clears t c) (schema_of schema.now.bytes).keys }
{
    (0..schema.key_count()).any(|k| clears(schema, k, t, c))
}

// The mask of the columns of table t that SET NULL on delete can clear.
fn cleared_columns(schema: &Schema, t: usize) -> usize
    requires { t < length (schema_of schema.now.bytes).tables }
    ensures { Marks (λ c. any (DeleteBound.clears t c) (schema_of schema.now.bytes).keys) (table_of (schema_of schema.now.bytes) t).columns result × (result < 256) }
{
    let mut cleared = 0;
    for c in 0..schema.columns(t) {
        cleared = numbers::marked(cleared, c, is_cleared(schema, t, c));
    }
    cleared
}

// ---- the sum

// A row's part, by its state: of a live row, 1 plus the cleared columns that are not NULL.
fn row_bound(cleared: usize, state: usize) -> usize
    requires { cleared < 256 }
    ensures { (result ≡ state_bound cleared state) × (result ≤ 9) }
{
    if !rows::is_live(state) {
        return 0;
    }
    let columns = numbers::ones_of(cleared - (cleared & state));
    1 + columns
}

// The sum over the rows of table t.
fn rows_bound(schema: &Schema, area: &[i64], t: usize) -> usize
    requires { Ready schema.now.bytes area.now × (t < length (schema_of schema.now.bytes).tables) }
    ensures { (result ≡ DeleteBound.rows_bound (schema_of schema.now.bytes) t (get_or (work_of (schema_of schema.now.bytes) area.now).tabs t [])) × (result ≤ 9216) }
{
    let table = rows::rows_of(schema, t);
    let cleared = cleared_columns(schema, t);
    let mut bound = 0;
    for j in 0..table.count {
        let state = words::nat_at(area, table.start + j * table.width);
        bound += row_bound(cleared, state);
    }
    bound
}

// The sum over all rows of an area.
fn area_bound(schema: &Schema, area: &[i64]) -> usize
    requires { Ready schema.now.bytes area.now }
    ensures { (result ≡ DeleteBound.area_bound (schema_of schema.now.bytes) area.now) × (result ≤ 147456) }
{
    let mut bound = 0;
    for t in 0..schema.table_count() {
        let rows = rows_bound(schema, area, t);
        bound += rows;
    }
    bound
}

// The sum as an answer: refusals 1, 3 and 10.
pub fn delete_bound(schema: &[u8], area: &[i64]) -> Numbered
    ensures { result ≡ DeleteBound.bound_answer schema.now area.now }
{
    match questions::area_verdict(schema, area) {
        Err(refusal) => Numbered {
            code: answers::refusal_number(refusal),
            number: 0,
        },
        Ok(()) => Numbered {
            code: 0,
            number: words::word_of(area_bound(&Schema::new(schema), area)),
        },
    }
}
