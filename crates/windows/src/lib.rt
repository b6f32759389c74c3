// Windows of days: a table's rows searched by a key and by days.

#![tactic(auto)]

ghost use Rattle.std.specs.Prelude.{◌≡◌, not, ◌&&◌, suc, ◌≤◌, ◌<◌, length};
ghost use Rattle.rules.specs.Lists;
ghost use Rattle.rules.specs.Rows;
ghost use Rattle.rules.specs.Keys;
ghost use Rattle.rules.specs.Lists.{except};
ghost use Rattle.rows.specs.Standing.{Standing, rows_in};
ghost use Rattle.scans.specs.FirstFrom.{FirstIs};
ghost use Rattle.windows.specs.Days.{HasColumn, window_in, meets, DaysIn, is_on, SearchedIn};
ghost use Rattle.std.specs.Int.Signed.{le_z};
ghost use Rattle.windows.specs.WindowKey.{WindowIn, WindowedKey, WindowColumns, window_of, child_days, parent_days, clash_days, child_all, parent_all, key_changes, serves_by, keeps_pairs, keeps_days, cut, left_days};

use fields::Schema;
use rows::{KeyPairs, SoughtKey, TableRows};

// The days from a first one on, before an end.
#[derive(Clone, Copy)]
pub struct Interval {
    pub first: i64,
    pub end: i64,
}

// What the days of a sought row must be, beside its key: the day in a column is in a window; the window whose first day stands in
// a column, and whose end in the next, holds a day; or it shares a day with a window.
#[derive(Clone, Copy)]
pub enum Days {
    Within { column: usize, window: Interval },
    Holding { column: usize, day: i64 },
    Sharing { column: usize, window: Interval },
}

// What rows are sought by: their key, and what their days must be.
#[derive(Clone, Copy)]
pub struct Sought {
    pub key: SoughtKey,
    pub days: Days,
}

// The columns of a key with a window: its pairs, the child column of the day, and the parent column of the first day; the end
// stands in the next.
#[derive(Clone, Copy)]
pub struct WindowKey {
    pub pairs: KeyPairs,
    pub day: usize,
    pub first: usize,
}

// ---- days

impl Interval {
    // Whether a day is in it.
    pub fn contains(self, day: i64) -> bool
        ensures { result ≡ Keys.is_within self.first self.end day }
    {
        (self.first <= day) & (day < self.end)
    }

    // Whether it shares a day with another.
    pub fn shares_day(self, other: Interval) -> bool
        ensures { result ≡ Keys.shares_day self.first self.end other.first other.end }
    {
        ((self.first < self.end) & (self.first < other.end))
            & ((other.first < self.end) & (other.first < other.end))
    }

    // It without the days at either end that another holds.
    fn cut_by(self, other: Interval) -> Interval
        ensures { result ≡ cut self other }
    {
        let first = if other.contains(self.first) {
            other.end
        } else {
            self.first
        };
        let end = if (other.first < self.end) & (self.end <= other.end) {
            other.first
        } else {
            self.end
        };
        Interval { first, end }
    }
}

// ---- the days of a row

// Whether column c of a row is not NULL.
fn is_filled(row: &[i64], c: usize) -> bool
    requires { HasColumn row.now c }
    ensures { result ≡ not (Rows.null_at row.now c) }
{
    !numbers::bit_of(c, words::nat_of(row[0]))
}

// The value of column c of a row.
fn value_of(row: &[i64], c: usize) -> i64
    requires { HasColumn row.now c }
    ensures { result ≡ Rows.value_at row.now c }
{
    row[c + 1]
}

// The window whose first day stands in column c of a row, and whose end in the next.
fn window_in(row: &[i64], c: usize) -> Interval
    requires { HasColumn row.now (suc c) }
    ensures { result ≡ window_in row.now c }
{
    Interval {
        first: value_of(row, c),
        end: value_of(row, c + 1),
    }
}

// Whether neither of these is NULL.
fn has_window(row: &[i64], c: usize) -> bool
    requires { HasColumn row.now (suc c) }
    ensures { result ≡ not (Rows.null_at row.now c) && not (Rows.null_at row.now (suc c)) }
{
    is_filled(row, c) & is_filled(row, c + 1)
}

// Whether the days of a row are as they must be.
fn meets(row: &[i64], days: Days) -> bool
    requires { (length row.now ≤ 9) × DaysIn (length row.now) days }
    ensures { result ≡ meets days row.now }
{
    match days {
        Days::Within { column, window } => {
            is_filled(row, column) & window.contains(value_of(row, column))
        }
        Days::Holding { column, day } => {
            has_window(row, column) & window_in(row, column).contains(day)
        }
        Days::Sharing { column, window } => {
            has_window(row, column) & window_in(row, column).shares_day(window)
        }
    }
}

// ---- all rows

// The first row from `from` on that is live and has a sought key, and whose days are as they must be.
pub fn first_on(area: &[i64], table: TableRows, sought: Sought, from: usize) -> Option<usize>
    requires { (Standing area.now table × (from ≤ table.count)) × SearchedIn table.width sought }
    ensures { FirstIs (is_on sought.key sought.days) area.now table from result }
{
    // A loop by hand: the search goes on from the row after the one that has the key.
    let mut j = from;
    while let Some(i) = scans::first_with_key(area, table, &sought.key, j) {
        let p = table.start + i * table.width;
        if meets(&area[p..p + table.width], sought.days) {
            return Some(i);
        }
        j = i + 1;
    }
    None
}

// Whether one of the rows is live and has a sought key, and its days are as they must be.
pub fn any_on(area: &[i64], table: TableRows, sought: Sought) -> bool
    requires { Standing area.now table × SearchedIn table.width sought }
    ensures { result ≡ Lists.any (is_on sought.key sought.days) (rows_in area.now table) }
{
    first_on(area, table, sought, 0).is_some()
}

// ---- all rows but one

// Whether a row other than row r is live and has a sought key, and its days are as they must be.
pub fn other_on(area: &[i64], table: TableRows, r: usize, sought: Sought) -> bool
    requires { (Standing area.now table × (r < table.count)) × SearchedIn table.width sought }
    ensures { result ≡ Lists.any (is_on sought.key sought.days) (except r (rows_in area.now table)) }
{
    let before = scans::rows_before(table, r);
    if any_on(area, before, sought) {
        return true;
    }
    let after = scans::rows_after(area, table, r);
    any_on(area, after, sought)
}

// ---- the columns of a key with a window

// The columns of foreign key k, which is not broken and has a window.
pub fn window_key(schema: &Schema, k: usize) -> WindowKey
    requires { WindowedKey schema.now.bytes k }
    ensures { WindowColumns schema.now.bytes k result }
{
    let n = schema.width(k) - 1;
    let cs = schema.child_columns(k);
    let ps = schema.parent_columns(k);
    let pairs = rows::pairs_of(schema, k, n);
    WindowKey {
        pairs,
        day: cs[n],
        first: ps[n],
    }
}

// ---- what the days of rows are sought for

// What the days of child rows must be, that map to a parent row with an image.
pub fn child_days(image: [i64; 9], key: WindowKey) -> Days
    requires { WindowIn key }
    ensures { result ≡ child_days image key }
{
    Days::Within {
        column: key.day,
        window: window_in(&image, key.first),
    }
}

// What the days of parent rows must be, that a child row with an image maps to.
pub fn parent_days(image: [i64; 9], key: WindowKey) -> Days
    requires { WindowIn key }
    ensures { result ≡ parent_days image key }
{
    Days::Holding {
        column: key.first,
        day: value_of(&image, key.day),
    }
}

// What the days of parent rows must be, whose windows share a day with that of an image. They stand in the parent columns and are
// asked otherwise than the days of child rows, so no function serves both.
pub fn clash_days(image: [i64; 9], key: WindowKey) -> Days
    requires { WindowIn key }
    ensures { result ≡ clash_days image key }
{
    Days::Sharing {
        column: key.first,
        window: window_in(&image, key.first),
    }
}

// ---- images

// Whether an image is live and has no NULL in its child key.
pub fn full_child(image: [i64; 9], key: WindowKey) -> bool
    requires { WindowIn key }
    ensures { result ≡ Keys.full_key (child_all key) image }
{
    let pairs = key.pairs;
    let cs = pairs.cs;
    rows::image_full_key(image, pairs.n, cs) && is_filled(&image, key.day)
}

// Whether an image is live and has some but not all columns of its child key NULL.
pub fn half_child(image: [i64; 9], key: WindowKey) -> bool
    requires { WindowIn key }
    ensures { result ≡ Keys.half_key (child_all key) image }
{
    let pairs = key.pairs;
    let mut cs = pairs.cs;
    let n = pairs.n;
    cs[n] = key.day;
    rows::image_half_key(image, n + 1, cs)
}

// Whether an image is live and has no NULL in its parent key.
pub fn full_parent(image: [i64; 9], key: WindowKey) -> bool
    requires { WindowIn key }
    ensures { result ≡ Keys.full_key (parent_all key) image }
{
    let pairs = key.pairs;
    let ps = pairs.ps;
    rows::image_full_key(image, pairs.n, ps) && has_window(&image, key.first)
}

// Whether the window of an image ends on its first day or before it.
pub fn is_empty(image: [i64; 9], key: WindowKey) -> bool
    requires { WindowIn key }
    ensures { result ≡ le_z (Keys.end_day (window_of key) image) (Keys.first_day (window_of key) image) }
{
    let window = window_in(&image, key.first);
    window.end <= window.first
}

// Whether two images have the same window.
fn same_window(x: [i64; 9], y: [i64; 9], key: WindowKey) -> bool
    requires { WindowIn key }
    ensures { result ≡ Keys.same_window x y (window_of key) }
{
    let c = key.first;
    let first = rows::same_cell(x, y, false, c, c);
    first & rows::same_cell(x, y, false, c + 1, c + 1)
}

// Whether an old parent key without NULL is not the new one. A deleted row has none.
pub fn key_changes(old: [i64; 9], new: [i64; 9], key: WindowKey) -> bool
    requires { WindowIn key }
    ensures { result ≡ key_changes key old new }
{
    if !full_parent(old, key) {
        return false;
    }
    if !rows::image_live(new) {
        return true;
    }
    let pairs = key.pairs;
    let ps = pairs.ps;
    if !rows::same_key(new, old, pairs.folded, pairs.n, ps, ps) {
        return true;
    }
    !same_window(new, old, key)
}

// Whether the day of a child row's image is in the window of a parent row's.
fn in_window(child: [i64; 9], parent: [i64; 9], key: WindowKey) -> bool
    requires { WindowIn key }
    ensures { result ≡ Keys.in_window child parent (window_of key) }
{
    let filled = is_filled(&child, key.day) & has_window(&parent, key.first);
    let window = window_in(&parent, key.first);
    filled & window.contains(value_of(&child, key.day))
}

// Whether a parent row with an image serves a child row with one: it is live, their pairs are equal, and the day is in the window.
pub fn serves(child: [i64; 9], parent: [i64; 9], key: WindowKey) -> bool
    requires { WindowIn key }
    ensures { result ≡ serves_by key child parent }
{
    if !rows::image_live(parent) {
        return false;
    }
    let pairs = key.pairs;
    let cs = pairs.cs;
    let ps = pairs.ps;
    if !rows::same_key(child, parent, pairs.folded, pairs.n, cs, ps) {
        return false;
    }
    in_window(child, parent, key)
}

// ---- days that a parent row leaves behind

// Whether a parent row that turns from one image to another keeps its pairs, and has no NULL in its window then.
fn keeps_pairs(old: [i64; 9], new: [i64; 9], key: WindowKey) -> bool
    requires { WindowIn key }
    ensures { result ≡ keeps_pairs key old new }
{
    if !full_parent(new, key) {
        return false;
    }
    let pairs = key.pairs;
    let ps = pairs.ps;
    rows::same_key(new, old, pairs.folded, pairs.n, ps, ps)
}

// Whether it keeps every day of its window, too.
pub fn keeps_days(old: [i64; 9], new: [i64; 9], key: WindowKey) -> bool
    requires { WindowIn key }
    ensures { result ≡ keeps_days key old new }
{
    if !keeps_pairs(old, new, key) {
        return false;
    }
    let before = window_in(&old, key.first);
    let after = window_in(&new, key.first);
    (after.first <= before.first) & (before.end <= after.end)
}

// What the days of child rows must be, that map to a parent row with the old image and may not map to it with the new one: where
// it keeps its pairs, the days at either end of its window that it keeps are left out.
pub fn left_days(old: [i64; 9], new: [i64; 9], key: WindowKey) -> Days
    requires { WindowIn key }
    ensures { result ≡ left_days old new key }
{
    if !keeps_pairs(old, new, key) {
        return child_days(old, key);
    }
    let before = window_in(&old, key.first);
    let after = window_in(&new, key.first);
    Days::Within {
        column: key.day,
        window: before.cut_by(after),
    }
}
