// Refusal 10: whether an area is damaged.

#![tactic(auto)]

ghost use Rattle.std.specs.Prelude.{◌≡◌, ◌&&◌, ◌+◌, ◌*◌, ◌/◌, ◌%◌, ◌≤◌, pos, ltb, length, get_or, take, drop};
ghost use Rattle.schema.specs.Ranges.{all, all_from};
ghost use Rattle.schema.specs.Fields.{schema_of};
ghost use Rattle.schema.specs.Sizes.{area_size};
ghost use Rattle.rules.specs.Values.{nat_of};
ghost use Rattle.rules.specs.Calls.{in_table};
ghost use Rattle.rules.specs.State.{opener_fits, kept_in_range, saved_in_range, uses_rise, placed, undamaged};
ghost use Rattle.rules.specs.Area.{view, legible};
ghost use Rattle.bridge.specs.Ready.{Ready};
ghost use Rattle.area_form.specs.Damage.{Sized, header_in_range, natural_part, kept_limit, lowest_levels};

use fields::Schema;

// ---- what only the words can tell

// Whether words 0 to 3 are in range.
fn header_in_range(schema: &Schema, area: &[i64]) -> bool
    requires { Sized schema.now.bytes area.now }
    ensures { result ≡ header_in_range (schema_of schema.now.bytes) area.now }
{
    let room = schema.room();
    words::is_in_range_at(area, 0, 9)
        & words::is_natural_at(area, 1)
        & words::is_in_range_at(area, 2, room)
        & words::is_zero_at(area, 3)
}

// Whether n parts of `stride` words each, from `at` on, begin with a word that is not negative.
fn all_natural(area: &[i64], at: usize, stride: usize, n: usize) -> bool
    requires { (1 ≤ stride) × (at + n * stride ≤ length area.now) }
    ensures { result ≡ all_from (natural_part area.now at stride) n 0 }
{
    (0..n).all(|i| words::is_natural_at(area, at + i * stride))
}

// Whether the words are a book.
fn is_legible(schema: &Schema, area: &[i64]) -> bool
    requires { Sized schema.now.bytes area.now }
    ensures { result ≡ legible (schema_of schema.now.bytes) area.now }
{
    if !header_in_range(schema, area) {
        return false;
    }
    let levels = words::nat_at(area, 0);
    let used = words::nat_at(area, 2);
    let journal = schema.journal_start();
    all_natural(area, 36, 33, levels) & all_natural(area, journal, 10, used)
}

// ---- what the book tells

// Whether word 1 says who opened the transaction, or that none is open.
fn opener_fits(area: &[i64]) -> bool
    requires { 4 ≤ length area.now }
    ensures { result ≡ opener_fits (ltb 0 (nat_of (get_or area.now 0 (pos 0)))) (nat_of (get_or area.now 1 (pos 0))) }
{
    let opener = words::nat_at(area, 1);
    if words::nat_at(area, 0) == 0 {
        return opener == 0;
    }
    (1 <= opener) & (opener <= 2)
}

// The most orphans that foreign key k can have: the rows of its child table; 0 where there is no such key.
fn kept_limit(schema: &Schema, k: usize) -> usize
    ensures { result ≡ kept_limit (schema_of schema.now.bytes) (drop k (schema_of schema.now.bytes).keys) }
{
    if schema.key_count() <= k {
        return 0;
    }
    let child = schema.child(k);
    schema.rows(child)
}

// Whether the 32 words at `at` are in range as kept numbers.
pub fn kept_in_range(schema: &Schema, area: &[i64], at: usize) -> bool
    requires { at + 32 ≤ length area.now }
    ensures { result ≡ kept_in_range (schema_of schema.now.bytes) (schema_of schema.now.bytes).keys (take 32 (drop at area.now)) }
{
    (0..32).all(|k| {
        let limit = kept_limit(schema, k);
        words::is_in_range_at(area, at + k, limit)
    })
}

// Whether the saved numbers of every open level are in range.
fn saved_in_range(schema: &Schema, area: &[i64]) -> bool
    requires { Ready schema.now.bytes area.now }
    ensures { result ≡ all (saved_in_range (schema_of schema.now.bytes)) (view (schema_of schema.now.bytes) area.now).levels }
{
    let levels = words::nat_at(area, 0);
    (0..levels).all(|i| kept_in_range(schema, area, 37 + i * 33))
}

// Whether the journal uses of the open levels rise from 0 to the use now.
fn uses_rise(area: &[i64]) -> bool
    requires { (333 ≤ length area.now) × (nat_of (get_or area.now 0 (pos 0)) ≤ 9) }
    ensures { result ≡ uses_rise (nat_of (get_or area.now 2 (pos 0))) (lowest_levels (nat_of (get_or area.now 0 (pos 0))) area.now) }
{
    let mut above = words::nat_at(area, 2);
    for i in (0..words::nat_at(area, 0)).rev() {
        let base = words::nat_at(area, 36 + i * 33);
        if above < base {
            return false;
        }
        above = base;
    }
    above == 0
}

// Whether a journal place is in a table.
fn is_place(schema: &Schema, place: usize) -> bool
    ensures { result ≡ in_table (schema_of schema.now.bytes) (place / 1024) (place % 1024) }
{
    schema.is_in_table(place / 1024, place % 1024)
}

// Whether the place of every used journal record is in a table.
fn places_fit(schema: &Schema, area: &[i64]) -> bool
    requires { Ready schema.now.bytes area.now }
    ensures { result ≡ all (placed (schema_of schema.now.bytes)) (view (schema_of schema.now.bytes) area.now).work.used }
{
    let journal = schema.journal_start();
    let used = words::nat_at(area, 2);
    (0..used).all(|j| is_place(schema, words::nat_at(area, journal + j * 10)))
}

// Whether refusal 10 does not refuse the area.
pub fn is_undamaged(schema: &Schema, area: &[i64]) -> bool
    requires { length area.now ≡ area_size (schema_of schema.now.bytes) }
    ensures { result ≡ legible (schema_of schema.now.bytes) area.now && undamaged (schema_of schema.now.bytes) (view (schema_of schema.now.bytes) area.now) }
{
    if !is_legible(schema, area) {
        return false;
    }
    opener_fits(area)
        & kept_in_range(schema, area, 4)
        & saved_in_range(schema, area)
        & uses_rise(area)
        & places_fit(schema, area)
}
