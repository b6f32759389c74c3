// Rows and the journal, in the area's words: all that knows where they stand.

#![tactic(auto, using(crate::proofs::Places::area_long, crate::proofs::Journal::use_in_room))]

ghost use Rattle.std.specs.Prelude.{◌≡◌, ◌∷◌, suc, ◌+◌, ◌*◌, ◌^◌, ◌≤◌, ◌<◌, pos, eqb, length, get_or, set, take};
ghost use Rattle.std.proofs.lemmas.List.Edits.{sets};
ghost use Rattle.schema.specs.Fields.{schema_of};
ghost use Rattle.schema.specs.Records.{table_of};
ghost use Rattle.schema.specs.Sizes.{rows_size, rows_start, area_size};
ghost use Rattle.rules.specs.Area.{words, view};
ghost use Rattle.rules.specs.Book.{write, undo, undo_to, cleared, emptied};
ghost use Rattle.rules.specs.Rows;
ghost use Rattle.rules.specs.Values.{nat_of};
ghost use Rattle.bridge.specs.Fit.{work_of};
ghost use Rattle.bridge.specs.Ready.{Ready, Placed, Undoable};
ghost use Rattle.bridge.proofs.Offsets.{row_offset};
ghost use Rattle.area.specs.Places.{RowPlace};
ghost use Rattle.area.specs.Worked.{Worked};
ghost use Rattle.area.specs.Undone.{Undone};
ghost use Rattle.area.specs.Spare.{Spare, DirtyEnd};

use fields::Schema;

// ---- rows

// The first word of row r of table t.
pub fn place_of(schema: &Schema, t: usize, r: usize) -> usize
    requires { RowPlace schema.now.bytes t r }
    ensures { result ≡ rows_start + row_offset (schema_of schema.now.bytes) t r }
{
    let start = schema.start_of(t);
    let c = schema.columns(t);
    start + r * (c + 1)
}

// The image of row r of table t: its state and its values, padded with zeros to nine words.
pub fn image_of(schema: &Schema, area: &[i64], t: usize, r: usize) -> [i64; 9]
    requires { Placed schema.now.bytes area.now t r }
    ensures { result ≡ Rows.image t r (work_of (schema_of schema.now.bytes) area.now).tabs }
{
    let p = place_of(schema, t, r);
    let c = schema.columns(t);
    words::image_at(area, p, c + 1)
}

// Writes row r of table t, through the table's part of the area.
fn put_in_table(schema: &Schema, area: &mut [i64], t: usize, r: usize, image: [i64; 9])
    requires { RowPlace schema.now.bytes t r × (length area.old ≡ area_size (schema_of schema.now.bytes)) }
    ensures { area.new ≡ sets area.old (rows_start + row_offset (schema_of schema.now.bytes) t r) (take (suc (table_of (schema_of schema.now.bytes) t).columns) image) }
{
    let start = schema.start_of(t);
    let end = start + schema.table_words(t);
    let width = schema.columns(t) + 1;
    words::write_row(area, start, end, width, r, image);
}

// ---- the journal

// Whether the journal is full.
pub fn is_full(schema: &Schema, area: &[i64]) -> bool
    requires { Ready schema.now.bytes area.now }
    ensures { result ≡ eqb (length (work_of (schema_of schema.now.bytes) area.now).spare) 0 }
{
    let used = words::nat_at(area, 2);
    let room = schema.room();
    room <= used
}

// The first word of journal record i; the end of the journal, where i is its room. Counted from the area's end, so that no table is looked at.
fn record_at(schema: &Schema, area: &[i64], i: usize) -> usize
    requires { Ready schema.now.bytes area.now × (i ≤ (schema_of schema.now.bytes).room) }
    ensures { result ≡ rows_start + rows_size (schema_of schema.now.bytes).tables + i * 10 }
{
    area.len() - (schema.room() - i) * 10
}

// Writes the journal record at `at`: a place and the old image of its row.
fn put_record(area: &mut [i64], at: usize, place: usize, old: [i64; 9])
    requires { (at + 10 ≤ length area.old) × (place < 2 ^ 63) }
    ensures { area.new ≡ sets area.old at (pos place ∷ old) }
{
    area[at] = words::word_of(place);
    words::put_words(area, at + 1, &old);
}

// Writes the journal record at `at`, and sets the use.
fn set_record(area: &mut [i64], at: usize, place: usize, old: [i64; 9], used: usize)
    requires { (at + 10 ≤ length area.old) × ((place < 2 ^ 63) × (used < 2 ^ 63)) }
    ensures { area.new ≡ set (sets area.old at (pos place ∷ old)) 2 (pos used) }
{
    put_record(area, at, place, old);
    area[2] = words::word_of(used);
}

// Gives row r of table t a new image, its old words going to the journal; answers the old image.
pub fn write_row(schema: &Schema, area: &mut [i64], t: usize, r: usize, image: [i64; 9]) -> [i64; 9]
    requires { Placed schema.now.bytes area.old t r × (0 < length (work_of (schema_of schema.now.bytes) area.old).spare) }
    ensures { (result ≡ Rows.image t r (work_of (schema_of schema.now.bytes) area.old).tabs) × Worked (schema_of schema.now.bytes) (write t r image) area.old area.new }
{
    let old = image_of(schema, area, t, r);
    let used = words::nat_at(area, 2);
    let at = record_at(schema, area, used);
    set_record(area, at, t * 1024 + r, old, used + 1);
    put_in_table(schema, area, t, r, image);
    old
}

// Undoes the newest journal record, which stands at the use `used`.
fn undo_one(schema: &Schema, area: &mut [i64], used: usize)
    requires { Undoable schema.now.bytes area.old × (nat_of (get_or area.old 2 (pos 0)) ≡ suc used) }
    ensures { Worked (schema_of schema.now.bytes) (undo 1) area.old area.new }
{
    let at = record_at(schema, area, used);
    let place = words::nat_at(area, at);
    let old = words::image_at(area, at + 1, 9);
    set_record(area, at, 0, [0i64; 9], used);
    put_in_table(schema, area, place / 1024, place % 1024, old);
}

// Undoes the journal's records, newest first, down to the use `to`.
pub fn undo_to(schema: &Schema, area: &mut [i64], to: usize)
    requires { Undoable schema.now.bytes area.old }
    ensures { Worked (schema_of schema.now.bytes) (undo_to to) area.old area.new }
{
    for used in (to..words::nat_at(area, 2)).rev() {
        undo_one(schema, area, used);
    }
}

// Zeroes every journal word past the records in use.
fn clear_spare(schema: &Schema, area: &mut [i64])
    requires { Ready schema.now.bytes area.old }
    ensures { area.new ≡ words (cleared (view (schema_of schema.now.bytes) area.old)) }
{
    let used = words::nat_at(area, 2);
    let at = record_at(schema, area, used);
    words::clear_from(area, at);
}

// Puts a refused statement back: undoes to the use `used` at its entry, and zeroes every journal word past that, unless they are known to be zero.
pub fn put_back(schema: &Schema, area: &mut [i64], used: usize, clean: bool)
    requires { Undoable schema.now.bytes area.old × ((used ≤ length (work_of (schema_of schema.now.bytes) area.old).used) × Spare clean (schema_of schema.now.bytes) area.old) }
    ensures { Undone (schema_of schema.now.bytes) used area.old area.new }
{
    undo_to(schema, area, used);
    if clean {
        return;
    }
    clear_spare(schema, area);
}

// The end of the journal's words that may not be zero.
fn dirty_end(schema: &Schema, area: &[i64], clean: bool) -> usize
    requires { Ready schema.now.bytes area.now × Spare clean (schema_of schema.now.bytes) area.now }
    ensures { DirtyEnd (schema_of schema.now.bytes) area.now result }
{
    if clean {
        let used = words::nat_at(area, 2);
        return record_at(schema, area, used);
    }
    area.len()
}

// Empties the journal: zeroes all its words that may not be zero, and its use.
pub fn empty_journal(schema: &Schema, area: &mut [i64], clean: bool)
    requires { Ready schema.now.bytes area.old × Spare clean (schema_of schema.now.bytes) area.old }
    ensures { Worked (schema_of schema.now.bytes) emptied area.old area.new }
{
    let at = record_at(schema, area, 0);
    let end = dirty_end(schema, area, clean);
    words::clear_from(&mut area[0..end], at);
    area[2] = 0;
}
