// Scans of a table's rows for a key.

#![tactic(auto)]

ghost use Rattle.std.specs.Prelude.{◌≡◌, ◌≤◌, ◌<◌};
ghost use Rattle.rules.specs.Lists;
ghost use Rattle.rules.specs.Lists.{except};
ghost use Rattle.rows.specs.Standing.{Standing, rows_in};
ghost use Rattle.rows.specs.Sought.{has_sought, SoughtIn};
ghost use Rattle.skips.specs.Skipped.{both};
ghost use Rattle.scans.specs.Parts.{rows_before, rows_after};
ghost use Rattle.scans.specs.FirstFrom.{FirstIs};

use rows::{SoughtKey, TableRows};
use skips::{RowTest, Value};

// ---- all rows

// The first row from `from` on that passes two tests. Rows that fail the one that is looked at first are passed over four at a time.
pub fn first<L: RowTest, T: RowTest>(
    area: &[i64],
    table: TableRows,
    look: &L,
    test: &T,
    from: usize,
) -> Option<usize>
    requires { (Standing area.now table × (from ≤ table.count)) × (L.fits look.now table.width × T.fits test.now table.width) }
    ensures { FirstIs (both (L.accepts look.now) (T.accepts test.now)) area.now table from result }
{
    // A loop by hand: the row jumps to where the rows passed over end.
    let mut j = skips::skip(area, table, look, from);
    while j < table.count {
        let p = table.start + j * table.width;
        if look.passes(area, p, table.width) && test.passes(area, p, table.width) {
            return Some(j);
        }
        j = skips::skip(area, table, look, j + 1);
    }
    None
}

// The first row from `from` on that is live and has a sought key with no folded column.
fn first_with_plain(area: &[i64], table: TableRows, key: &SoughtKey, from: usize) -> Option<usize>
    requires { (Standing area.now table × (from ≤ table.count)) × (((1 ≤ key.now.n) × (key.now.folded ≡ 0)) × SoughtIn table.width key.now) }
    ensures { FirstIs (has_sought key.now) area.now table from result }
{
    if key.n == 1 {
        let word = skips::word_of(key, 0);
        let value = Value {
            column: key.cs[0],
            value: key.vs[0],
        };
        return first(area, table, &word, &value, from);
    }
    let pair = skips::first_words(key);
    first(area, table, &pair, key, from)
}

// The first row from `from` on that is live and has a sought key with folded columns.
fn first_with_folded(area: &[i64], table: TableRows, key: &SoughtKey, from: usize) -> Option<usize>
    requires { (Standing area.now table × (from ≤ table.count)) × ((1 ≤ key.now.n) × SoughtIn table.width key.now) }
    ensures { FirstIs (has_sought key.now) area.now table from result }
{
    if key.n == 1 {
        let word = skips::masked_word(key, 0);
        return first(area, table, &word, key, from);
    }
    let near = skips::masked_pair(key);
    first(area, table, &near, key, from)
}

// The first row from `from` on that is live and has a sought key.
pub fn first_with_key(area: &[i64], table: TableRows, key: &SoughtKey, from: usize) -> Option<usize>
    requires { (Standing area.now table × (from ≤ table.count)) × ((1 ≤ key.now.n) × SoughtIn table.width key.now) }
    ensures { FirstIs (has_sought key.now) area.now table from result }
{
    if key.folded == 0 {
        return first_with_plain(area, table, key, from);
    }
    first_with_folded(area, table, key, from)
}

// Whether one of the rows is live and has a sought key.
pub fn any_with_key(area: &[i64], table: TableRows, key: SoughtKey) -> bool
    requires { Standing area.now table × ((1 ≤ key.n) × SoughtIn table.width key) }
    ensures { result ≡ Lists.any (has_sought key) (rows_in area.now table) }
{
    first_with_key(area, table, &key, 0).is_some()
}

// How many of the rows are live and have a sought key.
pub fn count_with_key(area: &[i64], table: TableRows, key: SoughtKey) -> usize
    requires { Standing area.now table × ((1 ≤ key.n) × SoughtIn table.width key) }
    ensures { (result ≡ Lists.count (has_sought key) (rows_in area.now table)) × (result ≤ table.count) }
{
    // A loop by hand: the search goes on from the row after the one found.
    let mut m = 0;
    let mut from = 0;
    while let Some(j) = first_with_key(area, table, &key, from) {
        m += 1;
        from = j + 1;
    }
    m
}

// ---- all rows but one

// The rows of a table below row r.
pub fn rows_before(table: TableRows, r: usize) -> TableRows
    ensures { result ≡ rows_before table r }
{
    TableRows { count: r, ..table }
}

// The rows of a table above row r.
pub fn rows_after(area: &[i64], table: TableRows, r: usize) -> TableRows
    requires { Standing area.now table × (r < table.count) }
    ensures { result ≡ rows_after table r }
{
    TableRows {
        start: table.start + (r + 1) * table.width,
        count: table.count - (r + 1),
        ..table
    }
}

// Whether a row other than row r is live and has a sought key.
pub fn other_with_key(area: &[i64], table: TableRows, r: usize, key: SoughtKey) -> bool
    requires { (Standing area.now table × (r < table.count)) × ((1 ≤ key.n) × SoughtIn table.width key) }
    ensures { result ≡ Lists.any (has_sought key) (except r (rows_in area.now table)) }
{
    let before = rows_before(table, r);
    if any_with_key(area, before, key) {
        return true;
    }
    let after = rows_after(area, table, r);
    any_with_key(area, after, key)
}

// How many rows other than row r are live and have a sought key.
pub fn count_others_with_key(area: &[i64], table: TableRows, r: usize, key: SoughtKey) -> usize
    requires { (Standing area.now table × (r < table.count)) × ((1 ≤ key.n) × SoughtIn table.width key) }
    ensures { (result ≡ Lists.count (has_sought key) (except r (rows_in area.now table))) × (result ≤ table.count) }
{
    let before = rows_before(table, r);
    let m = count_with_key(area, before, key);
    let after = rows_after(area, table, r);
    m + count_with_key(area, after, key)
}
