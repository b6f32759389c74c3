// The engine's functions for C, each under its own name. A slice is a pointer and a length.

#![tactic(auto)]

ghost use Rattle.std.specs.Prelude.{◌≡◌, ◌∷◌, [], pos};
ghost use Rattle.schema.specs.Check;
ghost use Rattle.engine.specs.Calls.{call_words};
ghost use Rattle.fresh_area.specs.Fresh.{area_words};
ghost use Rattle.rules.specs.OrphanList.{list_orphans};
ghost use Rattle.rules.specs.DeleteBound.{bound_answer};
ghost use Rattle.capi.specs.Shown.{fresh_code};

use capi::CallAnswer;
use rules::{Listed, Numbered, Orphan};

// The number of what the check of schema bytes finds: 0 or 1.
#[unsafe(no_mangle)]
pub extern "C" fn hoofbook_check_schema(bytes: &[u8]) -> i64
    ensures { result ≡ pos (Check.number_of (Check.check_schema bytes.now)) }
{
    capi::hoofbook_check_schema(bytes)
}

// The length of an area for a schema; 0 where the schema is refused.
#[unsafe(no_mangle)]
pub extern "C" fn hoofbook_area_words(schema: &[u8]) -> i64
    ensures { result ≡ pos (area_words schema.now) }
{
    capi::hoofbook_area_words(schema)
}

// Makes an area fresh; answers the code.
#[unsafe(no_mangle)]
pub extern "C" fn hoofbook_make_fresh(schema: &[u8], area: &mut [i64]) -> i64
    ensures { (result, area.new) ≡ fresh_code schema.now area.old }
{
    capi::hoofbook_make_fresh(schema, area)
}

// Carries out a call, or refuses it.
#[unsafe(no_mangle)]
pub extern "C" fn hoofbook_call(schema: &[u8], area: &mut [i64], call: &[i64]) -> CallAnswer
    ensures { (result.code ∷ result.changed ∷ result.net ∷ [], area.new) ≡ call_words schema.now call.now area.old }
{
    capi::hoofbook_call(schema, area, call)
}

// Lists all orphans, by foreign key and then by row, or refuses by 1, 3, 10 or 22 with nothing written.
#[unsafe(no_mangle)]
pub extern "C" fn hoofbook_list_orphans(schema: &[u8], area: &[i64], list: &mut [Orphan]) -> Listed
    ensures { (result, list.new) ≡ list_orphans schema.now area.now list.old }
{
    capi::hoofbook_list_orphans(schema, area, list)
}

// Answers how much one delete can touch, or refuses by 1, 3 or 10.
#[unsafe(no_mangle)]
pub extern "C" fn hoofbook_delete_bound(schema: &[u8], area: &[i64]) -> Numbered
    ensures { result ≡ bound_answer schema.now area.now }
{
    capi::hoofbook_delete_bound(schema, area)
}
