// Refusal 1, the foreign key records of schema bytes, and the whole.

#![tactic(auto)]

ghost use Rattle.std.specs.Prelude.{◌≡◌, ◌+◌, ◌≤◌, ◌<◌, leb, length};
ghost use Rattle.schema.specs.Fields;
ghost use Rattle.schema.specs.Check;

use schema::{Action, Match};

// ---- a foreign key record

// Whether a code is an action's.
fn action_rule(code: usize) -> bool
    ensures { result ≡ Check.action_rule code }
{
    Action::try_from(code).is_ok()
}

// Whether a code is a match's.
fn match_rule(code: usize) -> bool
    ensures { result ≡ leb code 1 }
{
    Match::try_from(code).is_ok()
}

// Whether column i, counted from at, is below the number of columns.
fn column_rule(s: &[u8], at: usize, columns: usize, i: usize) -> bool
    requires { at + i < length s.now }
    ensures { result ≡ Fields.column_rule s.now at columns i }
{
    numbers::byte_at(s, at + i) < columns
}

// Whether column i, counted from at, is none of those before it.
fn new_column(s: &[u8], at: usize, i: usize) -> bool
    requires { at + i < length s.now }
    ensures { result ≡ Check.new_column s.now at i }
{
    (0..i).all(|j| s[at + i] != s[at + j])
}

// Whether n of four columns are distinct, and those past n are 255.
fn columns_rule(s: &[u8], at: usize, n: usize) -> bool
    requires { (at + 4 ≤ length s.now) × (n ≤ 4) }
    ensures { result ≡ Check.columns_rule s.now at n }
{
    (0..n).all(|i| new_column(s, at, i)) && schema_tables::all_bytes(s, at, 255, n, 4)
}

// Whether foreign key k, if windowed, has two columns or more and both actions below 2.
fn windowed_rule(s: &[u8], k: usize) -> bool
    requires { (16 ≤ length s.now) × (Fields.key_start s.now k + 16 ≤ length s.now) }
    ensures { result ≡ Check.windowed_rule s.now k }
{
    let at = numbers::key_start(s, k);
    if numbers::byte_at(s, at + 15) == 0 {
        return true;
    }
    (2 <= numbers::byte_at(s, at + 5))
        & ((numbers::byte_at(s, at + 3) < 2) & (numbers::byte_at(s, at + 4) < 2))
}

// Child table, deferred, actions, column count, match and window of foreign key k are in their ranges.
fn code_rules(s: &[u8], k: usize) -> bool
    requires { (16 ≤ length s.now) × (Fields.key_start s.now k + 16 ≤ length s.now) }
    ensures { result ≡ Check.code_rules s.now k }
{
    let at = numbers::key_start(s, k);
    let tables = numbers::half_at(s, 4);
    (numbers::byte_at(s, at) < tables)
        & (numbers::byte_at(s, at + 2) <= 1)
        & action_rule(numbers::byte_at(s, at + 3))
        & action_rule(numbers::byte_at(s, at + 4))
        & schema_tables::is_within(1, 4, numbers::byte_at(s, at + 5))
        & match_rule(numbers::byte_at(s, at + 14))
        & (numbers::byte_at(s, at + 15) <= 1)
        & windowed_rule(s, k)
}

// The rules of foreign key record k that refusal 1 names.
fn key_rules(s: &[u8], k: usize) -> bool
    requires { (16 ≤ length s.now) × (Fields.key_start s.now k + 16 ≤ length s.now) }
    ensures { result ≡ Check.key_rules s.now k }
{
    if !code_rules(s, k) {
        return false;
    }
    let at = numbers::key_start(s, k);
    let child = numbers::byte_at(s, at);
    let n = numbers::byte_at(s, at + 5);
    let columns = numbers::byte_at(s, 16 + 80 * child + 2);
    (0..n).all(|i| column_rule(s, at + 6, columns, i))
        && columns_rule(s, at + 6, n)
        && columns_rule(s, at + 10, n)
}

// Whether the bytes break no rule that refusal 1 names.
pub fn is_well_formed(s: &[u8]) -> bool
    ensures { result ≡ Check.well_formed s.now }
{
    if !schema_tables::header_rules(s) {
        return false;
    }
    let tables = numbers::half_at(s, 4);
    let keys = numbers::half_at(s, 6);
    schema_tables::all_tables(s, tables) && (0..keys).all(|k| key_rules(s, k))
}
