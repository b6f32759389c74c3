// A statement: row changes with their actions, and its end, where the kept numbers are settled.
// `clean` says that every journal word past the records in use is known to be zero.

#![tactic(auto)]

ghost use Rattle.std.specs.Prelude.{◌≡◌, true, ◌<◌, length};
ghost use Rattle.schema.specs.Fields.{schema_of};
ghost use Rattle.schema.specs.Records.{table_of};
ghost use Rattle.rules.specs.Lists.{plus};
ghost use Rattle.rules.specs.Change.{change};
ghost use Rattle.rules.specs.Statement.{statement};
ghost use Rattle.rules.specs.Area.{view, on_words};
ghost use Rattle.bridge.specs.Fit.{work_of};
ghost use Rattle.bridge.specs.Ready.{Sound, result_of};
ghost use Rattle.area.specs.Spare.{Spare};
ghost use Rattle.moves.specs.Tally.{Follows, Tallied};
ghost use Rattle.settlement.specs.Settled.{Settling, After, settled};
ghost use Rattle.found.specs.Sought.{sets_in, found_changes, changes_by, Seeks, Search};
ghost use Rattle.statements.specs.Ended.{concluded, Ending, Ended};

use fields::Schema;
use found::{Cell, Given, Seeking};
use rules::{Answer, Done, Verdict};

// ---- a statement's end

// Settles a statement whose row changes ended by `made`; one that was refused stays as it is.
fn settle_made(
    schema: &Schema,
    area: &mut [i64],
    tally: [i64; 32],
    made: Verdict,
    clean: bool,
) -> Verdict
    requires { Settling schema.now.bytes area.old tally × Spare clean (schema_of schema.now.bytes) area.old }
    ensures { (result ≡ concluded made (settled (schema_of schema.now.bytes) tally area.old)) × After (schema_of schema.now.bytes) result (plus (view (schema_of schema.now.bytes) area.old).kept tally) area.old area.new }
{
    made?;
    settlement::settle(schema, area, tally, clean)
}

// Ends a statement that began at the journal use `used` and whose row changes ended by `made`: settles it, or puts it back.
// Answers the records written and the tally's sum.
fn conclude(
    schema: &Schema,
    area: &mut [i64],
    tally: [i64; 32],
    used: usize,
    made: Verdict,
    clean: bool,
) -> Answer
    requires { Ending schema.now.bytes area.old tally used × Spare clean (schema_of schema.now.bytes) area.old }
    ensures { Ended (schema_of schema.now.bytes) (concluded made (settled (schema_of schema.now.bytes) tally area.old)) used tally result area.old area.new }
{
    let changed = words::nat_at(area, 2) - used;
    match settle_made(schema, area, tally, made, clean) {
        Ok(()) => {
            let net = sums::sum_of(tally);
            Ok(Done { changed, net })
        }
        Err(refusal) => {
            area::put_back(schema, area, used, clean);
            Err(refusal)
        }
    }
}

// ---- one row

// Changes row r of table t to an image, as a statement: with its actions, settled at its end.
pub fn change_row(
    schema: &Schema,
    area: &mut [i64],
    t: usize,
    r: usize,
    image: [i64; 9],
    clean: bool,
) -> Answer
    requires { Sound schema.now.bytes area.old × ((t < length (schema_of schema.now.bytes).tables) × ((r < (table_of (schema_of schema.now.bytes) t).rows) × Spare clean (schema_of schema.now.bytes) area.old)) }
    ensures { (result, area.new) ≡ on_words (statement (schema_of schema.now.bytes) (change 16 (schema_of schema.now.bytes) t r image) (view (schema_of schema.now.bytes) area.old)) }
{
    let used = words::nat_at(area, 2);
    let mut tally = [0i64; 32];
    let made = changes::row_change(schema, area, &mut tally, t, r, image, 16);
    conclude(schema, area, tally, used, made, clean)
}

// ---- every row that is found

// Changes every row of table t that is found by x, by rising number, each with its actions.
fn found_walk(
    schema: &Schema,
    area: &mut [i64],
    tally: &mut [i64; 32],
    t: usize,
    x: Seeking,
    given: Given,
) -> Verdict
    requires { Tallied schema.now.bytes tally.old area.old × (Seeks schema.now.bytes t x × (sets_in (table_of (schema_of schema.now.bytes) t).columns given ≡ true)) }
    ensures { (result_of result (work_of (schema_of schema.now.bytes) area.new) ≡ changes_by (schema_of schema.now.bytes) t x given (work_of (schema_of schema.now.bytes) area.old)) × Follows (schema_of schema.now.bytes) tally.old area.old tally.new area.new }
{
    // A loop by hand: the search goes on from the row after the one found.
    let mut j = 0;
    while let Some(i) = found::next_found(area, x, j) {
        let image = found::image_given(schema, area, t, i, given);
        changes::row_change(schema, area, tally, t, i, image, 16)?;
        j = i + 1;
    }
    Ok(())
}

// Changes every row of table t that is found, as one statement, settled after the last row.
pub fn change_found(
    schema: &Schema,
    area: &mut [i64],
    t: usize,
    sought: Cell,
    given: Given,
    clean: bool,
) -> Answer
    requires { Sound schema.now.bytes area.old × (Search (schema_of schema.now.bytes) t sought given × Spare clean (schema_of schema.now.bytes) area.old) }
    ensures { (result, area.new) ≡ on_words (statement (schema_of schema.now.bytes) (found_changes (schema_of schema.now.bytes) t sought given) (view (schema_of schema.now.bytes) area.old)) }
{
    let used = words::nat_at(area, 2);
    let mut tally = [0i64; 32];
    let x = found::seeking_of(schema, t, sought);
    let made = found_walk(schema, area, &mut tally, t, x, given);
    conclude(schema, area, tally, used, made, clean)
}
