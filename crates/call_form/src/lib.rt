// Refusal 4: a call's twelve words read as a request.

#![tactic(auto)]

ghost use Rattle.std.specs.Prelude.{◌≡◌, ◌+◌, ◌^◌, ◌<◌, pos, ltb, length, get_or, drop, MatchResult};
ghost use Rattle.std.specs.Bool.{then_some};
ghost use Rattle.schema.specs.Bytes.{bit};
ghost use Rattle.schema.specs.Records.{table_of};
ghost use Rattle.schema.specs.Fields.{schema_of};
ghost use Rattle.rules.specs.Values.{nat_of, all_zero, same_words};
ghost use Rattle.rules.specs.Rows.{held};
ghost use Rattle.rules.specs.Calls.{malformed, parsed, parse, row_fits, in_columns, value_fits, level_number, allowed};
ghost use Rattle.call_form.specs.Requests.{call_of, asked, judged, row_place, column_place, TwelveWords, names_row, gives_row, names_level, natural_place};

use fields::Schema;
use rules::Refusal;

// A row of a table, by their numbers.
#[derive(Clone, Copy)]
pub struct RowPlace {
    pub table: usize,
    pub row: usize,
}

// A column of a table, by their numbers.
#[derive(Clone, Copy)]
pub struct ColumnPlace {
    pub table: usize,
    pub column: usize,
}

// What a call asks for: tables, rows, columns and levels by number; masks and values stay in the call's words.
#[derive(Clone, Copy)]
pub enum Request {
    Insert(RowPlace),
    Update(RowPlace),
    Delete(RowPlace),
    Begin,
    Savepoint,
    Release(usize),
    RollbackTo(usize),
    Rollback,
    Commit,
    // The column that is searched.
    DeleteWhere(ColumnPlace),
    UpdateWhere(ColumnPlace),
}

// ---- the words of a call

// Whether a mask has no bit at `columns` or above.
fn is_mask(m: usize, columns: usize) -> bool
    requires { columns < 64 }
    ensures { result ≡ ltb m (2 ^ columns) }
{
    m >> columns == 0
}

// Whether word k is 0 where bit i of the mask says NULL.
fn value_fits(call: &[i64], m: usize, i: usize, k: usize) -> bool
    requires { (length call.now ≡ 12) × ((i < 8) × (k < 12)) }
    ensures { result ≡ value_fits (bit i m) (get_or call.now k (pos 0)) }
{
    !numbers::bit_of(i, m) || words::is_zero_at(call, k)
}

// Whether every value of a NULL column is 0.
fn values_fit(call: &[i64], m: usize) -> bool
    requires { length call.now ≡ 12 }
    ensures { result ≡ same_words (drop 4 call.now) (held m 0 (drop 4 call.now)) }
{
    (0..8).all(|i| value_fits(call, m, i, 4 + i))
}

// Whether mask and values are a row for table t.
fn row_fits(schema: &Schema, call: &[i64], t: usize) -> bool
    requires { TwelveWords schema.now.bytes call.now × (t < length (schema_of schema.now.bytes).tables) }
    ensures { result ≡ row_fits (table_of (schema_of schema.now.bytes) t) (nat_of (get_or call.now 3 (pos 0))) (drop 4 call.now) }
{
    let columns = schema.columns(t);
    let m = words::nat_at(call, 3);
    is_mask(m, columns) & words::all_zero_from(call, 4 + columns) & values_fit(call, m)
}

// The row that words 1 and 2 name, if there is one.
fn named_row(schema: &Schema, call: &[i64]) -> Option<RowPlace>
    requires { TwelveWords schema.now.bytes call.now }
    ensures { result ≡ then_some (names_row (schema_of schema.now.bytes) call.now) (row_place call.now) }
{
    let table = words::nat_at(call, 1);
    let row = words::nat_at(call, 2);
    let is_there = words::is_natural_at(call, 1)
        & words::is_natural_at(call, 2)
        & schema.is_in_table(table, row);
    is_there.then_some(RowPlace { table, row })
}

// The row that words 1 and 2 name, if the others are a mask and values for it.
fn given_row(schema: &Schema, call: &[i64]) -> Option<RowPlace>
    requires { TwelveWords schema.now.bytes call.now }
    ensures { result ≡ then_some (gives_row (schema_of schema.now.bytes) call.now) (row_place call.now) }
{
    let place = named_row(schema, call)?;
    let fits = words::is_natural_at(call, 3) & row_fits(schema, call, place.table);
    fits.then_some(place)
}

// The table and the column that words 1 and 2 name.
fn named_column(call: &[i64]) -> ColumnPlace
    requires { length call.now ≡ 12 }
    ensures { result ≡ column_place call.now }
{
    ColumnPlace {
        table: words::nat_at(call, 1),
        column: words::nat_at(call, 2),
    }
}

// Whether words 1, 2 and 3 are not negative.
fn is_natural_place(call: &[i64]) -> bool
    requires { length call.now ≡ 12 }
    ensures { result ≡ natural_place call.now }
{
    words::is_natural_at(call, 1) & words::is_natural_at(call, 2) & words::is_natural_at(call, 3)
}

// Whether there is a table t that has a column c.
fn is_in_columns(schema: &Schema, t: usize, c: usize) -> bool
    ensures { result ≡ in_columns (schema_of schema.now.bytes) t c }
{
    t < schema.table_count() && c < schema.columns(t)
}

// Whether a column can be searched, by words 3 and 4.
fn delete_where_fits(schema: &Schema, call: &[i64], place: ColumnPlace) -> bool
    requires { TwelveWords schema.now.bytes call.now }
    ensures { result ≡ allowed (schema_of schema.now.bytes) (call_of (Request.DeleteWhere place) call.now) }
{
    let m = words::nat_at(call, 3);
    is_in_columns(schema, place.table, place.column) & (m < 2) & value_fits(call, m, 0, 4)
}

// Whether a column can be searched, by words 3 and 4, and another be set, by words 3, 5 and 6.
fn update_where_fits(schema: &Schema, call: &[i64], place: ColumnPlace) -> bool
    requires { TwelveWords schema.now.bytes call.now }
    ensures { result ≡ allowed (schema_of schema.now.bytes) (call_of (Request.UpdateWhere place) call.now) }
{
    let m = words::nat_at(call, 3);
    let d = words::nat_at(call, 5);
    is_in_columns(schema, place.table, place.column)
        & is_in_columns(schema, place.table, d)
        & (m < 4)
        & value_fits(call, m, 0, 4)
        & value_fits(call, m, 1, 6)
}

// Whether a level's number is from 1 to 9.
fn is_level(a: usize) -> bool
    ensures { result ≡ level_number a }
{
    (1..=9).contains(&a)
}

// The level that word 1 names, if the words past it are 0.
fn named_level(call: &[i64]) -> Option<usize>
    requires { length call.now ≡ 12 }
    ensures { result ≡ then_some (names_level call.now) (nat_of (get_or call.now 1 (pos 0))) }
{
    let a = words::nat_at(call, 1);
    let is_named = words::is_natural_at(call, 1) & words::all_zero_from(call, 2) & is_level(a);
    is_named.then_some(a)
}

// ---- the kinds of calls

// Kind 3: delete.
fn read_delete(schema: &Schema, call: &[i64]) -> Option<Request>
    requires { TwelveWords schema.now.bytes call.now }
    ensures { asked result call.now ≡ judged (schema_of schema.now.bytes) (parsed 3 call.now) }
{
    let place = named_row(schema, call)?;
    words::all_zero_from(call, 3).then_some(Request::Delete(place))
}

// Kind 10: delete every row found.
fn read_delete_where(schema: &Schema, call: &[i64]) -> Option<Request>
    requires { TwelveWords schema.now.bytes call.now }
    ensures { asked result call.now ≡ judged (schema_of schema.now.bytes) (parsed 10 call.now) }
{
    let place = named_column(call);
    let fits = is_natural_place(call)
        & words::all_zero_from(call, 5)
        & delete_where_fits(schema, call, place);
    fits.then_some(Request::DeleteWhere(place))
}

// Kind 11: update every row found.
fn read_update_where(schema: &Schema, call: &[i64]) -> Option<Request>
    requires { TwelveWords schema.now.bytes call.now }
    ensures { asked result call.now ≡ judged (schema_of schema.now.bytes) (parsed 11 call.now) }
{
    let place = named_column(call);
    let fits = is_natural_place(call)
        & words::is_natural_at(call, 5)
        & words::all_zero_from(call, 7)
        & update_where_fits(schema, call, place);
    fits.then_some(Request::UpdateWhere(place))
}

// Kinds 4, 5, 8 and 9: the words past the kind are 0.
fn read_bare(call: &[i64], request: Request) -> Option<Request>
    ensures { result ≡ then_some (all_zero (drop 1 call.now)) request }
{
    words::all_zero_from(call, 1).then_some(request)
}

// A call of a given kind, by the paper's number; one that is none of eleven is refused. An enum of the kinds would list the
// eleven once more, since `Request` has them.
fn read_kind(schema: &Schema, call: &[i64], kind: usize) -> Option<Request>
    requires { TwelveWords schema.now.bytes call.now }
    ensures { asked result call.now ≡ judged (schema_of schema.now.bytes) (parsed kind call.now) }
{
    match kind {
        1 => given_row(schema, call).map(Request::Insert),
        2 => given_row(schema, call).map(Request::Update),
        3 => read_delete(schema, call),
        4 => read_bare(call, Request::Begin),
        5 => read_bare(call, Request::Savepoint),
        6 => named_level(call).map(Request::Release),
        7 => named_level(call).map(Request::RollbackTo),
        8 => read_bare(call, Request::Rollback),
        9 => read_bare(call, Request::Commit),
        10 => read_delete_where(schema, call),
        11 => read_update_where(schema, call),
        _ => None,
    }
}

// What a call asks for, or refusal 4.
pub fn read_call(schema: &Schema, call: &[i64]) -> Result<Request, Refusal>
    ensures { MatchResult result (λ r. call_of r call.now ≡ judged (schema_of schema.now.bytes) (parse call.now)) (λ e. (e ≡ Refusal.BadCall) × (malformed ≡ judged (schema_of schema.now.bytes) (parse call.now))) }
{
    if call.len() != 12 || !words::is_natural_at(call, 0) {
        return Err(Refusal::BadCall);
    }
    let kind = words::nat_at(call, 0);
    read_kind(schema, call, kind).ok_or(Refusal::BadCall)
}
