// Levels in an area's words: opened, closed, their kept numbers restored.

#![tactic(auto)]

ghost use Rattle.std.specs.Prelude.{◌≡◌, ◌∷◌, ◌+◌, ◌*◌, ◌-◌, ◌^◌, ◌≤◌, ◌<◌, pos, length, set, take, drop, replicate};
ghost use Rattle.std.proofs.lemmas.List.Edits.{sets};
ghost use Rattle.schema.specs.Sizes.{rows_start};
ghost use Rattle.levels.specs.Counts.{open_levels, records_used};

// Writes a level's words at `at`: the journal use and the kept numbers.
fn put_level(area: &mut [i64], at: usize, used: usize, kept: [i64; 32])
    requires { (at + 33 ≤ length area.old) × (used < 2 ^ 62) }
    ensures { area.new ≡ sets area.old at (pos used ∷ kept) }
{
    area[at] = words::word_of(used);
    words::put_words(area, at + 1, &kept);
}

// Opens the next level; the opener stays.
pub fn open_level(area: &mut [i64])
    requires { (rows_start ≤ length area.old) × ((open_levels area.old < 9) × (records_used area.old < 2 ^ 62)) }
    ensures { area.new ≡ set (sets area.old (36 + open_levels area.old * 33) (pos (records_used area.old) ∷ take 32 (drop 4 area.old))) 0 (pos (open_levels area.old + 1)) }
{
    let n = words::nat_at(area, 0);
    let used = words::nat_at(area, 2);
    let kept = words::numbers_at(area, 4);
    put_level(area, 36 + n * 33, used, kept);
    area[0] = words::word_of(n + 1);
}

// Closes the newest n levels.
pub fn close_levels(area: &mut [i64], n: usize)
    requires { (rows_start ≤ length area.old) × ((n ≤ open_levels area.old) × (open_levels area.old ≤ 9)) }
    ensures { area.new ≡ set (sets area.old (36 + (open_levels area.old - n) * 33) (replicate (n * 33) (pos 0))) 0 (pos (open_levels area.old - n)) }
{
    let left = words::nat_at(area, 0) - n;
    words::clear_part(area, 36 + left * 33, n * 33);
    area[0] = words::word_of(left);
}

// The kept numbers become those of level i, counted from 0 at the bottom.
pub fn load_kept(area: &mut [i64], i: usize)
    requires { (rows_start ≤ length area.old) × (i < 9) }
    ensures { area.new ≡ sets area.old 4 (take 32 (drop (37 + i * 33) area.old)) }
{
    let kept = words::numbers_at(area, 37 + i * 33);
    words::put_words(area, 4, &kept);
}
