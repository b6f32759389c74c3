// Fields of schema bytes that break no rule of refusal 1, as the schema that the bytes are has them.

#![tactic(auto)]

ghost use Rattle.std.specs.Prelude.{◌≡◌, Err, MatchResult, false, suc, ◌+◌, ◌*◌, ◌≤◌, ◌<◌, pos, ltb, eqb, length, get_or, take, MatchOption};
ghost use Rattle.std.specs.Int.Count.{ones};
ghost use Rattle.schema.specs.Bounds.{Within, Columns};
ghost use Rattle.schema.specs.Records.{child_key, unique_columns, table_of, key_of};
ghost use Rattle.schema.specs.Bytes;
ghost use Rattle.schema.specs.Bytes.{column_mask};
ghost use Rattle.schema.specs.Ranges.{any_from};
ghost use Rattle.schema.specs.Fields;
ghost use Rattle.schema.specs.Fields.{schema_of};
ghost use Rattle.schema.specs.Sizes.{table_size, rows_size, rows_start, table_offset, area_size};
ghost use Rattle.schema.specs.Check.{check_schema};
ghost use Rattle.fields.specs.Accepted.{IsAccepted, AcceptedBytes};

use schema::{Action, Match, SchemaError};
use std::marker::Model;

// Schema bytes that break no rule of refusal 1. Contracts see the bytes, and that they are accepted.
#[derive(Drop)]
pub struct Schema<'a> {
    bytes: &'a [u8],
    ghost accepted: { IsAccepted bytes.now },
}

impl<'a> Model for Schema<'a> {
    ghost Value = { AcceptedBytes };

    ghost view = { λ s. record { bytes = s.bytes.now; accepted = s.accepted } };
}

impl<'a> Schema<'a> {
    // Bytes that are known to be accepted.
    pub fn new(bytes: &'a [u8]) -> Schema<'a>
        requires { IsAccepted bytes.now }
        ensures { result.bytes ≡ bytes.now }
    {
        Schema { bytes }
    }

    // The check of bytes: refusal 1.
    pub fn check(bytes: &'a [u8]) -> Result<Schema<'a>, SchemaError>
        ensures { MatchResult result (λ s. s.bytes ≡ bytes.now) (λ e. check_schema bytes.now ≡ Err e) }
    {
        schema_check::check_schema(bytes)?;
        Ok(Schema { bytes })
    }
}

impl Schema<'_> {
    // The number of tables.
    pub fn table_count(&self) -> usize
        ensures { (result ≡ length (schema_of self.now.bytes).tables) × Within 1 16 result }
    {
        numbers::half_at(self.bytes, 4)
    }

    // The number of foreign keys.
    pub fn key_count(&self) -> usize
        ensures { (result ≡ length (schema_of self.now.bytes).keys) × (result ≤ 32) }
    {
        numbers::half_at(self.bytes, 6)
    }

    // The journal room, in records.
    pub fn room(&self) -> usize
        ensures { (result ≡ (schema_of self.now.bytes).room) × Within 1 4096 result }
    {
        numbers::half_at(self.bytes, 12)
    }

    // ---- a table: each field has a reader of its own, whose contract names the field

    // Byte i of the record of table t.
    fn table_byte(&self, t: usize, i: usize) -> usize
        requires { (t < length (schema_of self.now.bytes).tables) × (i < 80) }
        ensures { (result ≡ Bytes.byte self.now.bytes (Fields.table_start t + i)) × (result < 256) }
    {
        numbers::byte_at(self.bytes, 16 + 80 * t + i)
    }

    // The rows of table t.
    pub fn rows(&self, t: usize) -> usize
        requires { t < length (schema_of self.now.bytes).tables }
        ensures { (result ≡ (table_of (schema_of self.now.bytes) t).rows) × Within 1 1024 result }
    {
        numbers::half_at(self.bytes, 16 + 80 * t)
    }

    // The columns of table t.
    pub fn columns(&self, t: usize) -> usize
        requires { t < length (schema_of self.now.bytes).tables }
        ensures { (result ≡ (table_of (schema_of self.now.bytes) t).columns) × Within 1 8 result }
    {
        self.table_byte(t, 2)
    }

    // Whether there is a table t that has a row r.
    pub fn is_in_table(&self, t: usize, r: usize) -> bool
        ensures { result ≡ ltb r (table_of (schema_of self.now.bytes) t).rows }
    {
        t < self.table_count() && r < self.rows(t)
    }

    // The NOT NULL mask of table t.
    pub fn not_null(&self, t: usize) -> usize
        requires { t < length (schema_of self.now.bytes).tables }
        ensures { (result ≡ (table_of (schema_of self.now.bytes) t).not_null) × (result < 256) }
    {
        self.table_byte(t, 3)
    }

    // Unique-key mask i of table t, 0 where the slot is unused.
    pub fn unique_mask(&self, t: usize, i: usize) -> usize
        requires { (t < length (schema_of self.now.bytes).tables) × (i < 4) }
        ensures { (result ≡ get_or (table_of (schema_of self.now.bytes) t).uniques i 0) × (result < 256) }
    {
        self.table_byte(t, 4 + i)
    }

    // The default-is-NULL mask of table t.
    pub fn default_null(&self, t: usize) -> usize
        requires { t < length (schema_of self.now.bytes).tables }
        ensures { (result ≡ (table_of (schema_of self.now.bytes) t).default_null) × (result < 256) }
    {
        self.table_byte(t, 8)
    }

    // The mask of folded columns of table t.
    pub fn folded(&self, t: usize) -> usize
        requires { t < length (schema_of self.now.bytes).tables }
        ensures { (result ≡ (table_of (schema_of self.now.bytes) t).folded) × (result < 256) }
    {
        self.table_byte(t, 9)
    }

    // The default of column c of table t.
    pub fn default_value(&self, t: usize, c: usize) -> i64
        requires { (t < length (schema_of self.now.bytes).tables) × (c < 8) }
        ensures { result ≡ get_or (table_of (schema_of self.now.bytes) t).defaults c (pos 0) }
    {
        numbers::signed_at(self.bytes, 16 + 80 * t + 16 + 8 * c)
    }

    // ---- a foreign key: each field has a reader of its own, whose contract names the field

    // Byte i of the record of foreign key k.
    fn key_byte(&self, k: usize, i: usize) -> usize
        requires { (k < length (schema_of self.now.bytes).keys) × (i < 16) }
        ensures { (result ≡ Bytes.byte self.now.bytes (Fields.key_start self.now.bytes k + i)) × (result < 256) }
    {
        numbers::byte_at(self.bytes, numbers::key_start(self.bytes, k) + i)
    }

    // The child table of foreign key k.
    pub fn child(&self, k: usize) -> usize
        requires { k < length (schema_of self.now.bytes).keys }
        ensures { (result ≡ (key_of (schema_of self.now.bytes) k).child) × (result < length (schema_of self.now.bytes).tables) }
    {
        self.key_byte(k, 0)
    }

    // The parent table of foreign key k; of a broken one it need not be there.
    pub fn parent(&self, k: usize) -> usize
        requires { k < length (schema_of self.now.bytes).keys }
        ensures { result ≡ (key_of (schema_of self.now.bytes) k).parent }
    {
        self.key_byte(k, 1)
    }

    // Whether foreign key k is deferred.
    pub fn is_deferred(&self, k: usize) -> bool
        requires { k < length (schema_of self.now.bytes).keys }
        ensures { result ≡ (key_of (schema_of self.now.bytes) k).deferred }
    {
        self.key_byte(k, 2) == 1
    }

    // The on-delete action of foreign key k.
    pub fn on_delete(&self, k: usize) -> Action
        requires { k < length (schema_of self.now.bytes).keys }
        ensures { result ≡ (key_of (schema_of self.now.bytes) k).on_delete }
    {
        action_of(self.key_byte(k, 3))
    }

    // The on-update action of foreign key k.
    pub fn on_update(&self, k: usize) -> Action
        requires { k < length (schema_of self.now.bytes).keys }
        ensures { result ≡ (key_of (schema_of self.now.bytes) k).on_update }
    {
        action_of(self.key_byte(k, 4))
    }

    // The match of foreign key k.
    pub fn key_match(&self, k: usize) -> Match
        requires { k < length (schema_of self.now.bytes).keys }
        ensures { result ≡ (key_of (schema_of self.now.bytes) k).match }
    {
        Match::try_from(self.key_byte(k, 14)).unwrap_or(Match::Simple)
    }

    // The number of columns of foreign key k.
    pub fn width(&self, k: usize) -> usize
        requires { k < length (schema_of self.now.bytes).keys }
        ensures { (result ≡ length (child_key (key_of (schema_of self.now.bytes) k))) × Within 1 4 result }
    {
        self.key_byte(k, 5)
    }

    // How many windows foreign key k has: one where it is windowed. A number and no bool: the contract counts the windows.
    pub fn windows(&self, k: usize) -> usize
        requires { k < length (schema_of self.now.bytes).keys }
        ensures { (result ≡ length (key_of (schema_of self.now.bytes) k).windows) × (result ≤ 1) }
    {
        self.key_byte(k, 15)
    }

    // The column behind the last of foreign key k's n parent columns: the end's, where the key is windowed.
    fn end_column(&self, k: usize, n: usize) -> usize
        requires { (k < length (schema_of self.now.bytes).keys) × (n ≡ length (child_key (key_of (schema_of self.now.bytes) k))) }
        ensures { result ≡ Fields.end_of self.now.bytes k }
    {
        self.key_byte(k, 9 + n) + 1
    }

    // The four child-column bytes of foreign key k, whose columns come first, and four zeros.
    pub fn child_columns(&self, k: usize) -> [usize; 8]
        requires { k < length (schema_of self.now.bytes).keys }
        ensures { (take (length (child_key (key_of (schema_of self.now.bytes) k))) result ≡ child_key (key_of (schema_of self.now.bytes) k)) × Columns (suc (table_of (schema_of self.now.bytes) (key_of (schema_of self.now.bytes) k).child).columns) (length (child_key (key_of (schema_of self.now.bytes) k))) result }
    {
        columns_at(self.bytes, numbers::key_start(self.bytes, k) + 6)
    }

    // The four parent-column bytes of foreign key k, which is not broken: its columns come first, and four zeros.
    pub fn parent_columns(&self, k: usize) -> [usize; 8]
        requires { (k < length (schema_of self.now.bytes).keys) × ((key_of (schema_of self.now.bytes) k).broken ≡ false) }
        ensures { (take (length (unique_columns (key_of (schema_of self.now.bytes) k))) result ≡ unique_columns (key_of (schema_of self.now.bytes) k)) × Columns (suc (table_of (schema_of self.now.bytes) (key_of (schema_of self.now.bytes) k).parent).columns) (length (unique_columns (key_of (schema_of self.now.bytes) k))) result }
    {
        columns_at(self.bytes, numbers::key_start(self.bytes, k) + 10)
    }

    // ---- broken keys

    // The mask of foreign key k's n parent columns; there is none where a column is above 7.
    fn parent_mask(&self, k: usize, n: usize) -> Option<usize>
        requires { (k < length (schema_of self.now.bytes).keys) × (n ≡ length (child_key (key_of (schema_of self.now.bytes) k))) }
        ensures { MatchOption result (256 ≤ column_mask (Fields.parent_column_of self.now.bytes k) (Fields.width_of self.now.bytes k)) (λ m. m ≡ column_mask (Fields.parent_column_of self.now.bytes k) (Fields.width_of self.now.bytes k)) }
    {
        let mut mask = 0;
        for i in 0..n {
            let c = self.key_byte(k, 10 + i);
            if 8 <= c {
                return None;
            }
            mask += numbers::power(c);
        }
        Some(mask)
    }

    // Whether table t has a unique key with the mask m of n columns.
    fn has_unique(&self, t: usize, n: usize, m: usize) -> bool
        requires { (t < length (schema_of self.now.bytes).tables) × (ones m ≡ n) }
        ensures { result ≡ any_from (λ i. eqb (Fields.unique_of self.now.bytes t i) m) 4 0 }
    {
        (0..4).any(|i| mask_is(self.unique_mask(t, i), n, m))
    }

    // Whether foreign key k of n columns, where it is windowed, has its end: a column of the parent table t that is not in the
    // mask m of the parent columns.
    fn has_end(&self, k: usize, t: usize, n: usize, m: usize) -> bool
        requires { ((k < length (schema_of self.now.bytes).keys)) × (((t < length (schema_of self.now.bytes).tables) × (t ≡ Fields.parent_of self.now.bytes k)) × ((n ≡ length (child_key (key_of (schema_of self.now.bytes) k))) × (m ≡ column_mask (Fields.parent_column_of self.now.bytes k) (Fields.width_of self.now.bytes k)))) }
        ensures { result ≡ Fields.has_end self.now.bytes k }
    {
        if self.windows(k) == 0 {
            return true;
        }
        let end = self.end_column(k, n);
        end < self.columns(t) && !numbers::bit_of(end, m)
    }

    // Whether foreign key k is broken.
    pub fn is_broken(&self, k: usize) -> bool
        requires { k < length (schema_of self.now.bytes).keys }
        ensures { result ≡ (key_of (schema_of self.now.bytes) k).broken }
    {
        let t = self.parent(k);
        let tables = self.table_count();
        if tables <= t {
            return true;
        }
        let n = self.width(k);
        match self.parent_mask(k, n) {
            None => true,
            Some(m) => !(self.has_unique(t, n, m) && self.has_end(k, t, n, m)),
        }
    }

    // ---- the area

    // The words of table t's rows.
    pub fn table_words(&self, t: usize) -> usize
        requires { t < length (schema_of self.now.bytes).tables }
        ensures { (result ≡ table_size (table_of (schema_of self.now.bytes) t)) × (result ≤ 9216) }
    {
        let n = self.rows(t);
        let m = self.columns(t);
        n * (m + 1)
    }

    // The first word of table t's rows; of the journal, where t is the number of tables.
    pub fn start_of(&self, t: usize) -> usize
        requires { t ≤ length (schema_of self.now.bytes).tables }
        ensures { (result ≡ table_offset (schema_of self.now.bytes) t) × (result ≤ 333 + 9216 * t) }
    {
        let mut at = 333;
        for i in 0..t {
            at += self.table_words(i);
        }
        at
    }

    // The first word of the journal.
    pub fn journal_start(&self) -> usize
        ensures { (result ≡ rows_start + rows_size (schema_of self.now.bytes).tables) × (result ≤ 333 + 9216 * 16) }
    {
        self.start_of(self.table_count())
    }

    // The length of the area.
    pub fn area_length(&self) -> usize
        ensures { (result ≡ area_size (schema_of self.now.bytes)) × (result < 188750) }
    {
        self.journal_start() + self.room() * 10
    }
}

// The action of a code; the check refuses a code of none.
pub fn action_of(code: usize) -> Action
    ensures { result ≡ Fields.action_from code }
{
    Action::try_from(code).unwrap_or(Action::NoAction)
}

// The four bytes from p on, and four zeros.
fn columns_at(bytes: &[u8], p: usize) -> [usize; 8]
    requires { p + 4 ≤ length bytes.now }
    ensures { result ≡ Bytes.four bytes.now p }
{
    [
        numbers::byte_at(bytes, p),
        numbers::byte_at(bytes, p + 1),
        numbers::byte_at(bytes, p + 2),
        numbers::byte_at(bytes, p + 3),
        0,
        0,
        0,
        0,
    ]
}

// Whether a unique key's mask is the mask m of n columns: it has as many ones, and is m.
fn mask_is(u: usize, n: usize, m: usize) -> bool
    requires { (u < 256) × (ones m ≡ n) }
    ensures { result ≡ eqb u m }
{
    numbers::ones_of(u) == n && u == m
}
