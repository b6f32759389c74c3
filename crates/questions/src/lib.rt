// Questions about an area: what refuses all of them.

#![tactic(auto)]

ghost use Rattle.std.specs.Prelude.{◌≡◌, Ok};
ghost use Rattle.rules.specs.Questions.{area_verdict};

use fields::Schema;
use rules::{Refusal, Verdict};

// Under an accepted schema: refusals 3 and 10.
fn words_verdict(schema: &Schema, area: &[i64]) -> Verdict
    ensures { result ≡ area_verdict schema.now.bytes area.now (Ok tt) }
{
    if area.len() != schema.area_length() {
        return Err(Refusal::WrongLength);
    }
    if !area_form::is_undamaged(schema, area) {
        return Err(Refusal::Damaged);
    }
    Ok(())
}

// Refusals 1, 3 and 10.
pub fn area_verdict(schema: &[u8], area: &[i64]) -> Verdict
    ensures { result ≡ area_verdict schema.now area.now (Ok tt) }
{
    let schema = Schema::check(schema)?;
    words_verdict(&schema, area)
}
