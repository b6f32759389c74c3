// Refusal 1, the header and the table records of schema bytes.

#![tactic(auto)]

ghost use Rattle.std.specs.Prelude.{◌≡◌, ◌+◌, ◌-◌, ◌*◌, ◌≤◌, ◌<◌, length};
ghost use Rattle.schema.specs.Ranges.{all_from};
ghost use Rattle.schema.specs.Fields;
ghost use Rattle.schema.specs.Check;

// ---- numbers

// Whether x is lo to hi.
pub fn is_within(lo: usize, hi: usize, x: usize) -> bool
    ensures { result ≡ Check.within lo hi x }
{
    (lo..=hi).contains(&x)
}

// ---- runs of bytes

// Whether bytes from to to, counted from at, are all b.
pub fn all_bytes(s: &[u8], at: usize, b: u8, from: usize, to: usize) -> bool
    requires { (from ≤ to) × (at + to ≤ length s.now) }
    ensures { result ≡ all_from (Check.is_byte s.now at b) (to - from) from }
{
    (from..to).all(|i| s[at + i] == b)
}

// ---- the header

// The six fields behind the four bytes: tables, foreign keys, offsets, journal room, whole length.
fn header_rest(s: &[u8]) -> bool
    requires { 16 ≤ length s.now }
    ensures { result ≡ Check.header_rest s.now }
{
    let tables = numbers::half_at(s, 4);
    let keys = numbers::half_at(s, 6);
    let end = 16 + 80 * tables;
    let whole = end + 16 * keys;
    is_within(1, 16, tables)
        & (keys <= 32)
        & (numbers::half_at(s, 8) == 16)
        & (numbers::half_at(s, 10) == end)
        & is_within(1, 4096, numbers::half_at(s, 12))
        & (numbers::half_at(s, 14) == whole)
        & (s.len() == whole)
}

// The header: its 16 bytes are there, begin with the four bytes, and each field is in its range.
pub fn header_rules(s: &[u8]) -> bool
    ensures { result ≡ Check.header_rules s.now }
{
    16 <= s.len() && s.starts_with(b"FKB1") && header_rest(s)
}

// ---- a table record

// Whether mask i, counted from at, has no bit at the columns and above.
fn mask_rule(s: &[u8], at: usize, columns: usize, i: usize) -> bool
    requires { (at + i < length s.now) × (columns < 64) }
    ensures { result ≡ Check.mask_rule s.now at columns i }
{
    (numbers::byte_at(s, at + i) >> columns) == 0
}

// Whether unique key i + 1 is unused where unique key i is.
fn unique_rule(s: &[u8], t: usize, i: usize) -> bool
    requires { (Fields.table_start t + 80 ≤ length s.now) × (i < 3) }
    ensures { result ≡ Check.unique_rule s.now t i }
{
    let at = 16 + 80 * t + 4;
    (s[at + (i + 1)] == 0) | (s[at + i] != 0)
}

// Whether default c is 0 where it is NULL or there is no such column.
fn default_rule(s: &[u8], t: usize, c: usize) -> bool
    requires { (Fields.table_start t + 80 ≤ length s.now) × (c < 8) }
    ensures { result ≡ Check.default_rule s.now t c }
{
    let at = 16 + 80 * t;
    let columns = numbers::byte_at(s, at + 2);
    let nulls = numbers::byte_at(s, at + 8);
    (numbers::word_at(s, at + 16 + 8 * c) == 0) | ((c < columns) & !numbers::is_bit(nulls, c))
}

// Rows 1 to 1,024, columns 1 to 8.
fn size_rules(s: &[u8], t: usize) -> bool
    requires { Fields.table_start t + 80 ≤ length s.now }
    ensures { result ≡ Check.size_rules s.now t }
{
    let at = 16 + 80 * t;
    is_within(1, 1024, numbers::half_at(s, at)) & is_within(1, 8, numbers::byte_at(s, at + 2))
}

// The rules of table record t: sizes, masks, unique keys, zero bytes, defaults.
fn table_rules(s: &[u8], t: usize) -> bool
    requires { Fields.table_start t + 80 ≤ length s.now }
    ensures { result ≡ Check.table_rules s.now t }
{
    if !size_rules(s, t) {
        return false;
    }
    let at = 16 + 80 * t;
    let columns = numbers::byte_at(s, at + 2);
    (0..7).all(|i| mask_rule(s, at + 3, columns, i))
        && (0..3).all(|i| unique_rule(s, t, i))
        && all_bytes(s, at + 10, 0, 0, 6)
        && (0..8).all(|c| default_rule(s, t, c))
}

// Whether the first n table records break no rule.
pub fn all_tables(s: &[u8], n: usize) -> bool
    requires { 16 + 80 * n ≤ length s.now }
    ensures { result ≡ all_from (Check.table_rules s.now) n 0 }
{
    (0..n).all(|t| table_rules(s, t))
}
