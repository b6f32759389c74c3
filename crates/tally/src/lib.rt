// A row written, and the statement's tally of orphans kept even with it.

#![tactic(auto)]

ghost use Rattle.std.specs.Prelude.{◌≡◌, ◌<◌, length};
ghost use Rattle.schema.specs.Fields.{schema_of};
ghost use Rattle.rules.specs.Lists.{plus, less};
ghost use Rattle.rules.specs.Rows;
ghost use Rattle.rules.specs.Book.{write};
ghost use Rattle.bridge.specs.Fit.{work_of};
ghost use Rattle.sums.specs.Small.{Small};
ghost use Rattle.moves.specs.Tally.{Follows, TalliedAt};
ghost use Rattle.table_keys.specs.Touched.{KeysOf};

use fields::Schema;
use table_keys::TableKeys;

// A tally less the counts that are taken, plus those that are added.
fn moved(tally: [i64; 32], taken: [i64; 32], added: [i64; 32]) -> [i64; 32]
    requires { Small 2048 tally × (Small 2048 taken × Small 2048 added) }
    ensures { result ≡ plus (less tally taken) added }
{
    sums::plus_of(sums::less_of(tally, taken), added)
}

// Gives row r of table t a new image, its old words going to the journal, and the tally follows; answers the old image.
// `keys` has the foreign keys that touch the table.
pub fn write_tallied(
    schema: &Schema,
    area: &mut [i64],
    tally: &mut [i64; 32],
    keys: TableKeys,
    t: usize,
    r: usize,
    image: [i64; 9],
) -> [i64; 9]
    requires { TalliedAt schema.now.bytes tally.old area.old t r × (KeysOf schema.now.bytes t keys × (0 < length (work_of (schema_of schema.now.bytes) area.old).spare)) }
    ensures { (result ≡ Rows.image t r (work_of (schema_of schema.now.bytes) area.old).tabs) × ((work_of (schema_of schema.now.bytes) area.new ≡ write t r image (work_of (schema_of schema.now.bytes) area.old)) × Follows (schema_of schema.now.bytes) tally.old area.old tally.new area.new) }
{
    let old = area::image_of(schema, area, t, r);
    let width = schema.columns(t) + 1;
    let new = words::image_at(&image[0..9], 0, width);
    let before = row_orphans::row_counts(schema, area, keys, t, r, old, new);
    area::write_row(schema, area, t, r, image);
    let after = row_orphans::row_counts(schema, area, keys, t, r, new, old);
    *tally = moved(*tally, before, after);
    old
}
