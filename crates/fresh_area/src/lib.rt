// Fresh areas: how long one is for a schema, and making one.

#![tactic(auto)]

ghost use Rattle.std.specs.Prelude.{◌≡◌, ◌≤◌, ◌<◌, min};
ghost use Rattle.schema.specs.Fields.{schema_of};
ghost use Rattle.rules.specs.Engine.{make_fresh};
ghost use Rattle.fresh_area.specs.Fresh.{fresh_area, area_words};

use fields::Schema;
use rules::{Answer, Done, Refusal};

// Zeroes an area of the right length.
fn clear_area(schema: &Schema, area: &mut [i64]) -> Answer
    ensures { (result, area.new) ≡ fresh_area (schema_of schema.now.bytes) area.old }
{
    if area.len() != schema.area_length() {
        return Err(Refusal::WrongLength);
    }
    words::clear_from(area, 0);
    Ok(Done { changed: 0, net: 0 })
}

// The length of an area for a schema; 0 where the schema is refused, as C is told.
pub fn area_words(schema: &[u8]) -> usize
    ensures { (result ≡ area_words schema.now) × (result < 188750) }
{
    match Schema::check(schema) {
        Ok(schema) => schema.area_length(),
        Err(_) => 0,
    }
}

// Makes an area fresh: refused by 1 and 3 only.
pub fn make_fresh(schema: &[u8], area: &mut [i64]) -> Answer
    ensures { (result, area.new) ≡ make_fresh schema.now area.old }
{
    let schema = Schema::check(schema)?;
    clear_area(&schema, area)
}

// How many of `room` words the area takes: as many as the schema needs, or all if there are fewer.
pub fn words_taken(schema: &[u8], room: usize) -> usize
    ensures { (result ≡ min (area_words schema.now) room) × (result ≤ room) }
{
    area_words(schema).min(room)
}
