// The parts of a statement for many rows: the next row that is found, and the image that it is given.

#![tactic(auto)]

ghost use Rattle.std.specs.Prelude.{◌≡◌, true, ◌≤◌, ◌<◌, length};
ghost use Rattle.schema.specs.Records.{table_of};
ghost use Rattle.schema.specs.Fields.{schema_of};
ghost use Rattle.rules.specs.Rows;
ghost use Rattle.bridge.specs.Fit.{work_of};
ghost use Rattle.bridge.specs.Ready.{Placed};
ghost use Rattle.rows.specs.Standing.{Standing};
ghost use Rattle.scans.specs.FirstFrom.{FirstIs};
ghost use Rattle.found.specs.Sought.{null_in, has_null, found_by, value_key, Seekable, SeekingOf, given_image, sets_in};

use fields::Schema;
use rows::{SoughtKey, TableRows};
use skips::RowTest;

// A column and what it holds: a value, or None for NULL.
#[derive(Clone, Copy)]
pub struct Cell {
    pub column: usize,
    pub value: Option<i64>,
}

// What a live row must have: NULL in a column, or a value, which is a key of one column.
#[derive(Clone, Copy)]
pub enum Sought {
    Null(usize),
    Key(SoughtKey),
}

// What the rows of a table are searched by: where they stand, and what one must have.
// It is made once, before the first row is looked at.
#[derive(Clone, Copy)]
pub struct Seeking {
    pub rows: TableRows,
    pub sought: Sought,
}

// What becomes of a row that is found: it is deleted, or one column is set.
#[derive(Clone, Copy)]
pub enum Given {
    Deleted,
    Set(Cell),
}

// ---- the next row that is found

// A column that is NULL in a row, live or not.
#[derive(Clone, Copy)]
struct NullIn {
    column: usize,
}

impl RowTest for NullIn {
    ghost accepts = { λ s. null_in s.column };

    ghost fits = { λ s w. (0 < w) × (s.column < 8) };

    fn passes(&self, area: &[i64], p: usize, w: usize) -> bool {
        numbers::bit_of(self.column, words::nat_at(area, p))
    }
}

// A row that is live.
#[derive(Clone, Copy)]
struct Live {}

impl RowTest for Live {
    ghost accepts = { λ s. Rows.live };

    ghost fits = { λ s w. 0 < w };

    fn passes(&self, area: &[i64], p: usize, w: usize) -> bool {
        rows::is_live(words::nat_at(area, p))
    }
}

// The first row from `from` on that is live and has NULL in column c.
fn first_null(area: &[i64], table: TableRows, c: usize, from: usize) -> Option<usize>
    requires { (Standing area.now table × (from ≤ table.count)) × (c < 8) }
    ensures { FirstIs (has_null c) area.now table from result }
{
    scans::first(area, table, &NullIn { column: c }, &Live {}, from)
}

// A value as a key of one column, in a table with these folded columns.
fn value_key(mask: usize, c: usize, v: i64) -> SoughtKey
    requires { c < 8 }
    ensures { result ≡ value_key mask c v }
{
    let u = folding::compared(numbers::bit_of(c, mask), v);
    SoughtKey {
        n: 1,
        folded: rows::bit_number(c, mask),
        cs: [c, 0, 0, 0, 0, 0, 0, 0],
        vs: [u, 0, 0, 0, 0, 0, 0, 0],
    }
}

// What table t is searched by, for rows that hold what is sought.
pub fn seeking_of(schema: &Schema, t: usize, sought: Cell) -> Seeking
    requires { (t < length (schema_of schema.now.bytes).tables) × (sought.column < (table_of (schema_of schema.now.bytes) t).columns) }
    ensures { SeekingOf schema.now.bytes t sought result }
{
    let mask = schema.folded(t);
    Seeking {
        rows: rows::rows_of(schema, t),
        sought: match sought.value {
            None => Sought::Null(sought.column),
            Some(v) => Sought::Key(value_key(mask, sought.column, v)),
        },
    }
}

// The next row from row `from` on that is found.
pub fn next_found(area: &[i64], x: Seeking, from: usize) -> Option<usize>
    requires { (Standing area.now x.rows × (from ≤ x.rows.count)) × Seekable x }
    ensures { FirstIs (found_by x) area.now x.rows from result }
{
    match x.sought {
        Sought::Null(c) => first_null(area, x.rows, c, from),
        Sought::Key(key) => scans::first_with_key(area, x.rows, &key, from),
    }
}

// ---- the image that it is given

// The image that row r of table t is given.
pub fn image_given(schema: &Schema, area: &[i64], t: usize, r: usize, given: Given) -> [i64; 9]
    requires { Placed schema.now.bytes area.now t r × (sets_in (table_of (schema_of schema.now.bytes) t).columns given ≡ true) }
    ensures { result ≡ given_image (table_of (schema_of schema.now.bytes) t).columns given (Rows.image t r (work_of (schema_of schema.now.bytes) area.now).tabs) }
{
    match given {
        Given::Deleted => [0i64; 9],
        Given::Set(cell) => {
            let x = area::image_of(schema, area, t, r);
            images::row_set(schema.columns(t), cell.column, cell.value, x)
        }
    }
}
