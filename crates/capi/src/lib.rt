// The engine's functions as C sees them: numbers and structs of numbers. `capi_c` exports each under its own name.

#![tactic(auto)]

ghost use Rattle.std.specs.Prelude.{◌≡◌, ◌∷◌, [], pos};
ghost use Rattle.schema.specs.Check;
ghost use Rattle.engine.specs.Calls.{call_words};
ghost use Rattle.fresh_area.specs.Fresh.{area_words};
ghost use Rattle.rules.specs.OrphanList.{list_orphans};
ghost use Rattle.rules.specs.DeleteBound.{bound_answer};
ghost use Rattle.capi.specs.Shown.{fresh_code};

use rules::{Listed, Numbered, Orphan};

// The answer to a call. C reads all three fields, so that it is no Result.
#[repr(C)]
#[derive(Clone, Copy)]
pub struct CallAnswer {
    pub code: i64,
    pub changed: i64,
    pub net: i64,
}

// The number of what the check of schema bytes finds: 0 or 1.
pub fn hoofbook_check_schema(bytes: &[u8]) -> i64
    ensures { result ≡ pos (Check.number_of (Check.check_schema bytes.now)) }
{
    i64::from(schema_check::number(schema_check::check_schema(bytes)))
}

// The length of an area for a schema; 0 where the schema is refused.
pub fn hoofbook_area_words(schema: &[u8]) -> i64
    ensures { result ≡ pos (area_words schema.now) }
{
    words::word_of(fresh_area::area_words(schema))
}

// Makes an area fresh; answers the code.
pub fn hoofbook_make_fresh(schema: &[u8], area: &mut [i64]) -> i64
    ensures { (result, area.new) ≡ fresh_code schema.now area.old }
{
    let answer = fresh_area::make_fresh(schema, area);
    answers::code_of(answer)
}

// Carries out a call, or refuses it.
pub fn hoofbook_call(schema: &[u8], area: &mut [i64], call: &[i64]) -> CallAnswer
    ensures { (result.code ∷ result.changed ∷ result.net ∷ [], area.new) ≡ call_words schema.now call.now area.old }
{
    let answer = engine::call_words(schema, area, call);
    CallAnswer {
        code: answer[0],
        changed: answer[1],
        net: answer[2],
    }
}

// Lists all orphans, by foreign key and then by row, or refuses by 1, 3, 10 or 22 with nothing written: the one function that writes records into a lent slice of structs.
pub fn hoofbook_list_orphans(schema: &[u8], area: &[i64], list: &mut [Orphan]) -> Listed
    ensures { (result, list.new) ≡ list_orphans schema.now area.now list.old }
{
    let mut plan = match orphan_plan::plan_list(schema, area, list.len()) {
        Err(refusal) => {
            return Listed {
                code: answers::refusal_number(refusal),
                count: 0,
            };
        }
        Ok(plan) => plan,
    };
    for i in 0..plan.total {
        plan = orphan_plan::next_planned(schema, area, plan);
        list[i] = plan.at.orphan;
    }
    Listed {
        code: 0,
        count: plan.total,
    }
}

// Answers how much one delete can touch, or refuses by 1, 3 or 10.
pub fn hoofbook_delete_bound(schema: &[u8], area: &[i64]) -> Numbered
    ensures { result ≡ bound_answer schema.now area.now }
{
    delete_bound::delete_bound(schema, area)
}
