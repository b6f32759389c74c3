// A call that was read and is not refused by 10: insert, update, delete, those of all rows found, and the kinds that transactions has.
// `clean` says that every journal word past the records in use is known to be zero.

#![tactic(auto)]

ghost use Rattle.std.specs.Prelude.{◌≡◌, true, ◌<◌, pos, length, get_or, drop};
ghost use Rattle.schema.specs.Records.{table_of};
ghost use Rattle.schema.specs.Fields.{schema_of};
ghost use Rattle.rules.specs.Values.{nat_of};
ghost use Rattle.rules.specs.Rows.{deleted_image, live_image};
ghost use Rattle.rules.specs.Calls;
ghost use Rattle.rules.specs.Step.{act};
ghost use Rattle.rules.specs.Area.{view, on_words};
ghost use Rattle.bridge.specs.Ready.{Sound};
ghost use Rattle.area.specs.Spare.{Spare};
ghost use Rattle.call_form.specs.Requests.{call_of, call_read, judged};
ghost use Rattle.calls.specs.RowCall.{RowCall, given_row, placed_statement};
ghost use Rattle.calls.specs.FoundCall.{cell_of, FoundCall};

use call_form::{ColumnPlace, Request, RowPlace};
use fields::Schema;
use found::{Cell, Given};
use rules::{Answer, Refusal};

// The image that the call's words give a row of table t.
fn given_image(schema: &Schema, call: &[i64], t: usize) -> [i64; 9]
    requires { (t < length (schema_of schema.now.bytes).tables) × (length call.now ≡ 12) }
    ensures { result ≡ live_image (table_of (schema_of schema.now.bytes) t).columns (nat_of (get_or call.now 3 (pos 0))) (drop 4 call.now) }
{
    let columns = schema.columns(t);
    images::live_image(columns, call)
}

// Kinds 1 and 2: writes a row as the call's words give it, if it is live or not as `live` says. That is asked first: the image of a
// refused call is not made.
fn write_row(
    schema: &Schema,
    area: &mut [i64],
    call: &[i64],
    place: RowPlace,
    live: bool,
    clean: bool,
) -> Answer
    requires { (RowCall schema.now.bytes area.old place × (length call.now ≡ 12)) × Spare clean (schema_of schema.now.bytes) area.old }
    ensures { (result, area.new) ≡ on_words (placed_statement (schema_of schema.now.bytes) place live (given_row (schema_of schema.now.bytes) place call.now) (view (schema_of schema.now.bytes) area.old)) }
{
    if change_parts::is_live_row(schema, area, place.table, place.row) != live {
        return Err(Refusal::RowState);
    }
    let image = given_image(schema, call, place.table);
    statements::change_row(schema, area, place.table, place.row, image, clean)
}

// Kind 3: deletes a row, if it is live.
fn delete_row(schema: &Schema, area: &mut [i64], place: RowPlace, clean: bool) -> Answer
    requires { RowCall schema.now.bytes area.old place × Spare clean (schema_of schema.now.bytes) area.old }
    ensures { (result, area.new) ≡ on_words (placed_statement (schema_of schema.now.bytes) place true deleted_image (view (schema_of schema.now.bytes) area.old)) }
{
    if !change_parts::is_live_row(schema, area, place.table, place.row) {
        return Err(Refusal::RowState);
    }
    statements::change_row(schema, area, place.table, place.row, [0i64; 9], clean)
}

// Column c, with NULL by bit i of word 3, and the value of word k.
fn cell_of(call: &[i64], c: usize, i: usize, k: usize) -> Cell
    requires { (length call.now ≡ 12) × ((i < 8) × (k < 12)) }
    ensures { result ≡ cell_of call.now c i k }
{
    let null = numbers::bit_of(i, words::nat_at(call, 3));
    Cell {
        column: c,
        value: if null { None } else { Some(call[k]) },
    }
}

// Kind 10: delete every row found.
fn delete_where(
    schema: &Schema,
    area: &mut [i64],
    call: &[i64],
    place: ColumnPlace,
    clean: bool,
) -> Answer
    requires { FoundCall schema.now.bytes area.old call.now place × Spare clean (schema_of schema.now.bytes) area.old }
    ensures { (result, area.new) ≡ on_words (act (schema_of schema.now.bytes) (Calls.delete_where place.table place.column (nat_of (get_or call.now 3 (pos 0))) (get_or call.now 4 (pos 0))) (view (schema_of schema.now.bytes) area.old)) }
{
    let sought = cell_of(call, place.column, 0, 4);
    statements::change_found(schema, area, place.table, sought, Given::Deleted, clean)
}

// Kind 11: update every row found.
fn update_where(
    schema: &Schema,
    area: &mut [i64],
    call: &[i64],
    place: ColumnPlace,
    clean: bool,
) -> Answer
    requires { FoundCall schema.now.bytes area.old call.now place × ((nat_of (get_or call.now 5 (pos 0)) < (table_of (schema_of schema.now.bytes) place.table).columns) × Spare clean (schema_of schema.now.bytes) area.old) }
    ensures { (result, area.new) ≡ on_words (act (schema_of schema.now.bytes) (Calls.update_where place.table place.column (nat_of (get_or call.now 3 (pos 0))) (get_or call.now 4 (pos 0)) (nat_of (get_or call.now 5 (pos 0))) (get_or call.now 6 (pos 0))) (view (schema_of schema.now.bytes) area.old)) }
{
    let sought = cell_of(call, place.column, 0, 4);
    let d = words::nat_at(call, 5);
    let cell = cell_of(call, d, 1, 6);
    statements::change_found(schema, area, place.table, sought, Given::Set(cell), clean)
}

// Carries out a call by the request that was read.
fn carry_out_request(
    schema: &Schema,
    area: &mut [i64],
    call: &[i64],
    request: Request,
    clean: bool,
) -> Answer
    requires { Sound schema.now.bytes area.old × ((call_of request call.now ≡ judged (schema_of schema.now.bytes) (Calls.parse call.now)) × Spare clean (schema_of schema.now.bytes) area.old) }
    ensures { (result, area.new) ≡ on_words (act (schema_of schema.now.bytes) (call_of request call.now) (view (schema_of schema.now.bytes) area.old)) }
{
    match request {
        Request::Insert(place) => write_row(schema, area, call, place, false, clean),
        Request::Update(place) => write_row(schema, area, call, place, true, clean),
        Request::Delete(place) => delete_row(schema, area, place, clean),
        Request::Begin => transactions::begin(schema, area),
        Request::Savepoint => transactions::savepoint(schema, area),
        Request::Release(a) => transactions::release(schema, area, a, clean),
        Request::RollbackTo(a) => transactions::rollback_to(schema, area, a),
        Request::Rollback => transactions::rollback(schema, area, clean),
        Request::Commit => transactions::commit(schema, area, clean),
        Request::DeleteWhere(place) => delete_where(schema, area, call, place, clean),
        Request::UpdateWhere(place) => update_where(schema, area, call, place, clean),
    }
}

// Carries out a call as it was read: refused by 4 where it could not be.
pub fn carry_out(
    schema: &Schema,
    area: &mut [i64],
    call: &[i64],
    read: Result<Request, Refusal>,
    clean: bool,
) -> Answer
    requires { Sound schema.now.bytes area.old × ((call_read read call.now ≡ judged (schema_of schema.now.bytes) (Calls.parse call.now)) × Spare clean (schema_of schema.now.bytes) area.old) }
    ensures { (result, area.new) ≡ on_words (act (schema_of schema.now.bytes) (call_read read call.now) (view (schema_of schema.now.bytes) area.old)) }
{
    match read {
        Ok(request) => carry_out_request(schema, area, call, request, clean),
        Err(_) => Err(Refusal::BadCall),
    }
}
