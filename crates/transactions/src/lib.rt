// Transactions and savepoints: begin, savepoint, release, rollback to a level, rollback, commit.
// `clean` says that every journal word past the records in use is known to be zero.

#![tactic(auto)]

ghost use Rattle.std.specs.Prelude.{◌≡◌, ◌+◌, ◌*◌, ◌-◌, ◌≤◌, ◌<◌, pos, leb, length, get_or, take, drop};
ghost use Rattle.schema.specs.Fields.{schema_of};
ghost use Rattle.rules.specs.Lists.{sum, less};
ghost use Rattle.rules.specs.Values.{nat_of};
ghost use Rattle.rules.specs.Book;
ghost use Rattle.rules.specs.Calls;
ghost use Rattle.rules.specs.State;
ghost use Rattle.rules.specs.Step;
ghost use Rattle.rules.specs.Area.{view, on_words};
ghost use Rattle.bridge.specs.Fit.{Holds};
ghost use Rattle.bridge.specs.Ready.{Ready, Sound};
ghost use Rattle.sums.specs.Small.{Small};
ghost use Rattle.area.specs.Spare.{Spare};

use fields::Schema;
use rules::{Answer, Done, Refusal};

// Opens the next level of a transaction that `opener` opened.
fn open_next(schema: &Schema, area: &mut [i64], opener: usize)
    requires { Ready schema.now.bytes area.old × ((0 < length (view (schema_of schema.now.bytes) area.old).closed) × (opener < 3)) }
    ensures { Holds (schema_of schema.now.bytes) area.new (Book.push opener (drop 1 (view (schema_of schema.now.bytes) area.old).closed) (view (schema_of schema.now.bytes) area.old)) }
{
    levels::open_level(area);
    area[1] = words::word_of(opener);
}

// Kind 4: begin.
pub fn begin(schema: &Schema, area: &mut [i64]) -> Answer
    requires { Ready schema.now.bytes area.old }
    ensures { (result, area.new) ≡ on_words (Step.act (schema_of schema.now.bytes) Calls.begin (view (schema_of schema.now.bytes) area.old)) }
{
    if words::nat_at(area, 0) != 0 {
        return Err(Refusal::LevelState);
    }
    open_next(schema, area, 1);
    Ok(Done { changed: 0, net: 0 })
}

// Who opened the transaction in which the next level opens; n levels are open.
fn opener_of(area: &[i64], n: usize) -> usize
    requires { 1 < length area.now }
    ensures { result ≡ Step.opener_of (leb 1 n) (nat_of (get_or area.now 1 (pos 0))) }
{
    if n == 0 {
        return 2;
    }
    words::nat_at(area, 1)
}

// Kind 5: savepoint; outside a transaction it opens one.
pub fn savepoint(schema: &Schema, area: &mut [i64]) -> Answer
    requires { Sound schema.now.bytes area.old }
    ensures { (result, area.new) ≡ on_words (Step.act (schema_of schema.now.bytes) Calls.savepoint (view (schema_of schema.now.bytes) area.old)) }
{
    let n = words::nat_at(area, 0);
    if n == 9 {
        return Err(Refusal::LevelsFull);
    }
    let opener = opener_of(area, n);
    open_next(schema, area, opener);
    Ok(Done { changed: 0, net: 0 })
}

// Ends the transaction: every level closes, and the journal is emptied.
fn end(schema: &Schema, area: &mut [i64], clean: bool)
    requires { Ready schema.now.bytes area.old × Spare clean (schema_of schema.now.bytes) area.old }
    ensures { Holds (schema_of schema.now.bytes) area.new (Book.ended (view (schema_of schema.now.bytes) area.old).kept (view (schema_of schema.now.bytes) area.old).work (view (schema_of schema.now.bytes) area.old)) }
{
    let n = words::nat_at(area, 0);
    levels::close_levels(area, n);
    area[1] = 0;
    area::empty_journal(schema, area, clean);
}

// Commits, unless a kept number is not zero.
fn commit_now(schema: &Schema, area: &mut [i64], clean: bool) -> Answer
    requires { Ready schema.now.bytes area.old × Spare clean (schema_of schema.now.bytes) area.old }
    ensures { (result, area.new) ≡ on_words (Step.committed (view (schema_of schema.now.bytes) area.old)) }
{
    let kept = words::numbers_at(area, 4);
    if !sums::all_zero(kept) {
        return Err(Refusal::CommitWithOrphans);
    }
    end(schema, area, clean);
    Ok(Done { changed: 0, net: 0 })
}

// Kind 9: commit.
pub fn commit(schema: &Schema, area: &mut [i64], clean: bool) -> Answer
    requires { Ready schema.now.bytes area.old × Spare clean (schema_of schema.now.bytes) area.old }
    ensures { (result, area.new) ≡ on_words (Step.act (schema_of schema.now.bytes) Calls.commit (view (schema_of schema.now.bytes) area.old)) }
{
    if words::nat_at(area, 0) == 0 {
        return Err(Refusal::LevelState);
    }
    commit_now(schema, area, clean)
}

// Whether level a is open, and is not level 1 opened by begin.
fn is_open(schema: &Schema, area: &[i64], a: usize) -> bool
    requires { Ready schema.now.bytes area.now × (1 ≤ a) }
    ensures { result ≡ State.level_open (view (schema_of schema.now.bytes) area.now) a }
{
    let n = words::nat_at(area, 0);
    let opener = words::nat_at(area, 1);
    (a <= n) & !((a == 1) & (opener == 1))
}

// Kind 6: release of level a; of level 1 opened by a savepoint, a commit.
pub fn release(schema: &Schema, area: &mut [i64], a: usize, clean: bool) -> Answer
    requires { Ready schema.now.bytes area.old × ((1 ≤ a) × Spare clean (schema_of schema.now.bytes) area.old) }
    ensures { (result, area.new) ≡ on_words (Step.act (schema_of schema.now.bytes) (Calls.release a) (view (schema_of schema.now.bytes) area.old)) }
{
    if !is_open(schema, area, a) {
        return Err(Refusal::LevelState);
    }
    if a == 1 {
        return commit_now(schema, area, clean);
    }
    let n = words::nat_at(area, 0);
    levels::close_levels(area, n + 1 - a);
    Ok(Done { changed: 0, net: 0 })
}

// The net change of a rollback to level i, counted from 0 at the bottom.
fn net_to(area: &[i64], i: usize) -> i64
    requires { ((333 ≤ length area.now) × (i < 9)) × (Small 1024 (take 32 (drop 4 area.now)) × Small 1024 (take 32 (drop (37 + i * 33) area.now))) }
    ensures { result ≡ sum (less (take 32 (drop (37 + i * 33) area.now)) (take 32 (drop 4 area.now))) }
{
    let kept = words::numbers_at(area, 4);
    let saved = words::numbers_at(area, 37 + i * 33);
    let moved = sums::less_of(saved, kept);
    sums::sum_of(moved)
}

// Undoes to level i, counted from 0 at the bottom, whose use is `base`, and closes the n levels above it.
fn back_to(schema: &Schema, area: &mut [i64], i: usize, n: usize, base: usize)
    requires { Sound schema.now.bytes area.old × ((i + n + 1 ≡ length (view (schema_of schema.now.bytes) area.old).levels) × (base ≡ nat_of (get_or area.old (36 + i * 33) (pos 0)))) }
    ensures { Holds (schema_of schema.now.bytes) area.new (Book.back n (view (schema_of schema.now.bytes) area.old)) }
{
    area::undo_to(schema, area, base);
    levels::close_levels(area, n);
    levels::load_kept(area, i);
}

// Kind 7: rollback to level a, which stays open.
pub fn rollback_to(schema: &Schema, area: &mut [i64], a: usize) -> Answer
    requires { Sound schema.now.bytes area.old × (1 ≤ a) }
    ensures { (result, area.new) ≡ on_words (Step.act (schema_of schema.now.bytes) (Calls.rollback_to a) (view (schema_of schema.now.bytes) area.old)) }
{
    if !is_open(schema, area, a) {
        return Err(Refusal::LevelState);
    }
    let n = words::nat_at(area, 0);
    let used = words::nat_at(area, 2);
    let base = words::nat_at(area, 36 + (a - 1) * 33);
    let net = net_to(area, a - 1);
    back_to(schema, area, a - 1, n - a, base);
    let changed = used - base;
    Ok(Done { changed, net })
}

// Undoes the whole transaction and ends it.
fn abort(schema: &Schema, area: &mut [i64], clean: bool)
    requires { Sound schema.now.bytes area.old × ((0 < length (view (schema_of schema.now.bytes) area.old).levels) × Spare clean (schema_of schema.now.bytes) area.old) }
    ensures { Holds (schema_of schema.now.bytes) area.new (Book.abort (view (schema_of schema.now.bytes) area.old)) }
{
    area::undo_to(schema, area, 0);
    levels::load_kept(area, 0);
    end(schema, area, clean);
}

// Kind 8: rollback of the transaction.
pub fn rollback(schema: &Schema, area: &mut [i64], clean: bool) -> Answer
    requires { Sound schema.now.bytes area.old × Spare clean (schema_of schema.now.bytes) area.old }
    ensures { (result, area.new) ≡ on_words (Step.act (schema_of schema.now.bytes) Calls.rollback (view (schema_of schema.now.bytes) area.old)) }
{
    if words::nat_at(area, 0) == 0 {
        return Err(Refusal::LevelState);
    }
    let used = words::nat_at(area, 2);
    let net = net_to(area, 0);
    abort(schema, area, clean);
    Ok(Done { changed: used, net })
}
