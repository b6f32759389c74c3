// The engine: a call, for any schema bytes, any area and any call.

#![tactic(auto)]

ghost use Rattle.std.specs.Prelude.{◌≡◌};
ghost use Rattle.schema.specs.Fields.{schema_of};
ghost use Rattle.rules.specs.Area.{area_step};
ghost use Rattle.rules.specs.Engine.{call_on};
ghost use Rattle.laws.specs.Reached.{Reached};
ghost use Rattle.engine.specs.Calls.{call_words};

use fields::Schema;
use rules::{Answer, Refusal};

// ---- calls

// A call under an accepted schema: refusals 3, 4 and 10, then the call.
fn call_area(schema: &Schema, area: &mut [i64], call: &[i64]) -> Answer
    ensures { (result, area.new) ≡ area_step (schema_of schema.now.bytes) call.now area.old }
{
    if area.len() != schema.area_length() {
        return Err(Refusal::WrongLength);
    }
    let request = call_form::read_call(schema, call)?;
    if !area_form::is_undamaged(schema, area) {
        return Err(Refusal::Damaged);
    }
    calls::carry_out(schema, area, call, Ok(request), false)
}

// A call on an area that calls led to from a fresh one, under a schema that was accepted: only refusal 4, then the call.
pub fn next(schema: &[u8], area: &mut [i64], call: &[i64]) -> Answer
    requires { Reached schema.now area.old }
    ensures { (result, area.new) ≡ call_on schema.now call.now area.old }
{
    let schema = Schema::new(schema);
    let asked = call_form::read_call(&schema, call)?;
    calls::carry_out(&schema, area, call, Ok(asked), true)
}

// ---- public operations

// Carries out a call, or refuses it.
pub fn call(schema: &[u8], area: &mut [i64], call: &[i64]) -> Answer
    ensures { (result, area.new) ≡ call_on schema.now call.now area.old }
{
    let schema = Schema::check(schema)?;
    call_area(&schema, area, call)
}

// Carries out a call, or refuses it; answers its code, rows changed and net.
pub fn call_words(schema: &[u8], area: &mut [i64], numbers: &[i64]) -> [i64; 3]
    ensures { (result, area.new) ≡ call_words schema.now numbers.now area.old }
{
    let answer = call(schema, area, numbers);
    answers::answer_words(answer)
}

// The same on an area that calls led to from a fresh one, under a schema that was accepted.
pub fn next_words(schema: &[u8], area: &mut [i64], numbers: &[i64]) -> [i64; 3]
    requires { Reached schema.now area.old }
    ensures { (result, area.new) ≡ call_words schema.now numbers.now area.old }
{
    let answer = next(schema, area, numbers);
    answers::answer_words(answer)
}
