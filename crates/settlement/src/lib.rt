// The kept numbers settled at a statement's end: refusals 19 and 20.
// `clean` says that every journal word past the records in use is known to be zero.

#![tactic(auto)]

ghost use Rattle.std.specs.Prelude.{◌≡◌, ◌<◌};
ghost use Rattle.schema.specs.Fields.{schema_of};
ghost use Rattle.rules.specs.Lists.{plus};
ghost use Rattle.rules.specs.State.{in_transaction};
ghost use Rattle.rules.specs.Statement.{immediate_zero, enforced, after_statement};
ghost use Rattle.rules.specs.Area.{view};
ghost use Rattle.bridge.specs.Fit.{work_of, Holds};
ghost use Rattle.bridge.specs.Ready.{Ready};
ghost use Rattle.area.specs.Spare.{Spare};
ghost use Rattle.settlement.specs.Settled.{settle_verdict, After, Settling};

use fields::Schema;
use rules::{Refusal, Verdict};

// Whether every kept number of an immediate foreign key is 0.
fn immediate_zero(schema: &Schema, kept: [i64; 32]) -> bool
    ensures { result ≡ immediate_zero (schema_of schema.now.bytes).keys kept }
{
    let n = schema.key_count();
    (0..n).all(|k| schema.is_deferred(k) | words::same_word(0, kept[k]))
}

// Whether refusal 20 lets the kept numbers pass.
fn is_enforced(schema: &Schema, inside: bool, kept: [i64; 32]) -> bool
    ensures { result ≡ enforced inside (schema_of schema.now.bytes) kept }
{
    if inside {
        immediate_zero(schema, kept)
    } else {
        sums::all_zero(kept)
    }
}

// Writes the kept numbers of an accepted statement; outside a transaction the journal is then emptied.
fn write_kept(schema: &Schema, area: &mut [i64], kept: [i64; 32], clean: bool)
    requires { Ready schema.now.bytes area.old × Spare clean (schema_of schema.now.bytes) area.old }
    ensures { Holds (schema_of schema.now.bytes) area.new (after_statement (work_of (schema_of schema.now.bytes) area.old) kept (view (schema_of schema.now.bytes) area.old)) }
{
    words::put_numbers(area, 4, kept);
    if words::nat_at(area, 0) == 0 {
        area::empty_journal(schema, area, clean);
    }
}

// Moves the kept numbers by the tally; refused by 19 or 20, writes nothing.
pub fn settle(schema: &Schema, area: &mut [i64], tally: [i64; 32], clean: bool) -> Verdict
    requires { Settling schema.now.bytes area.old tally × Spare clean (schema_of schema.now.bytes) area.old }
    ensures { (result ≡ settle_verdict (schema_of schema.now.bytes) (in_transaction (view (schema_of schema.now.bytes) area.old).levels) (plus (view (schema_of schema.now.bytes) area.old).kept tally)) × After (schema_of schema.now.bytes) result (plus (view (schema_of schema.now.bytes) area.old).kept tally) area.old area.new }
{
    let before = words::numbers_at(area, 4);
    let kept = sums::plus_of(before, tally);
    if !area_form::kept_in_range(schema, &kept[0..32], 0) {
        return Err(Refusal::KeptOutOfRange);
    }
    let inside = 1 <= words::nat_at(area, 0);
    if !is_enforced(schema, inside, kept) {
        return Err(Refusal::OrphansLeft);
    }
    write_kept(schema, area, kept, clean);
    Ok(())
}
