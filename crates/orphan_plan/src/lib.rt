// The checks of the orphan list, how many orphans there are, and where the search for them begins.

#![tactic(auto)]

ghost use Rattle.std.specs.Prelude.{◌≡◌, ◌<◌};
ghost use Rattle.schema.specs.Fields.{schema_of};
ghost use Rattle.rules.specs.OrphanList.{orphan_total};
ghost use Rattle.bridge.specs.Fit.{work_of};
ghost use Rattle.bridge.specs.Ready.{Ready, Sound};
ghost use Rattle.orphan_plan.specs.Planned.{Planned};
ghost use Rattle.orphan_scan.specs.Scan.{Unfinished, Next};

use fields::Schema;
use orphan_scan::Cursor;
use rules::Refusal;

// How many orphans there are, and where the search stands: while the list is written, behind the last orphan found.
#[derive(Clone, Copy)]
pub struct Plan {
    pub total: usize,
    pub at: Cursor,
}

// The number of orphans of all foreign keys.
fn orphan_total(schema: &Schema, area: &[i64]) -> usize
    requires { Ready schema.now.bytes area.now }
    ensures { result ≡ orphan_total (schema_of schema.now.bytes).keys (work_of (schema_of schema.now.bytes) area.now).tabs }
{
    let mut total = 0;
    for k in 0..schema.key_count() {
        total += orphans::count_orphans(schema, area, k);
    }
    total
}

// The plan for a lent list of `room` records: refusal 22.
fn plan_rows(schema: &Schema, area: &[i64], room: usize) -> Result<Plan, Refusal>
    requires { Sound schema.now.bytes area.now }
    ensures { Planned schema.now.bytes area.now room result }
{
    let total = orphan_total(schema, area);
    let is_short = room < total;
    if is_short {
        return Err(Refusal::ListTooShort);
    }
    Ok(Plan {
        total,
        at: orphan_scan::start(schema),
    })
}

// The plan: refusals 1, 3, 10 and 22.
pub fn plan_list(schema: &[u8], area: &[i64], room: usize) -> Result<Plan, Refusal>
    ensures { Planned schema.now area.now room result }
{
    questions::area_verdict(schema, area)?;
    plan_rows(&Schema::new(schema), area, room)
}

// The plan behind the next orphan, where there is one.
pub fn next_planned(schema: &[u8], area: &[i64], plan: Plan) -> Plan
    requires { Unfinished schema.now area.now plan.at }
    ensures { (result.total ≡ plan.total) × Next schema.now area.now plan.at result.at }
{
    Plan {
        at: orphan_scan::next_orphan(&Schema::new(schema), area, plan.at),
        ..plan
    }
}
