// Calls laid end to end.

#![tactic(auto)]

ghost use Rattle.std.specs.Prelude.{◌≡◌, ◌+◌, ◌*◌, ◌-◌, ◌≤◌, length};
ghost use Rattle.engine.specs.Calls.{call_words};
ghost use Rattle.runs.specs.Runs.{ReachedIf, least, calls_run, one_run, run_calls};

// Where the call that begins at `from` ends.
fn call_end(words: usize, from: usize) -> usize
    requires { from ≤ words }
    ensures { result ≡ from + least 12 (words - from) }
{
    if 12 <= words - from {
        return from + 12;
    }
    words
}

// Whether the schema is accepted and the area a fresh one for it.
fn is_fresh(schema: &[u8], area: &[i64]) -> bool
    ensures { ReachedIf result schema.now area.now }
{
    let n = fresh_area::area_words(schema);
    if n == 0 {
        return false;
    }
    if area.len() != n {
        return false;
    }
    words::all_zero_from(area, 0)
}

// A call on an area, by the short way where calls led to the area from a fresh one.
fn call_once(schema: &[u8], area: &mut [i64], numbers: &[i64], reached: bool) -> [i64; 3]
    requires { ReachedIf reached schema.now area.old }
    ensures { (result, area.new) ≡ call_words schema.now numbers.now area.old }
{
    if reached {
        return engine::next_words(schema, area, numbers);
    }
    engine::call_words(schema, area, numbers)
}

// Runs call i of those laid end to end, and writes its answer.
fn run_call(
    schema: &[u8],
    area: &mut [i64],
    calls: &[i64],
    answers: &mut [i64],
    i: usize,
    reached: bool,
)
    requires { (i * 12 ≤ length calls.now) × (i * 3 + 3 ≤ length answers.old) × ReachedIf reached schema.now area.old }
    ensures { (area.new, answers.new) ≡ one_run schema.now calls.now i (area.old, answers.old) }
{
    let from = i * 12;
    let to = call_end(calls.len(), from);
    let answer = call_once(schema, area, &calls[from..to], reached);
    answers::put_answer(answers, i, answer);
}

// How many calls are run.
fn calls_run(words: usize, room: usize) -> usize
    ensures { result ≡ calls_run words room }
{
    let calls = words / 12 + (words % 12 + 11) / 12;
    let answers = room / 3;
    if calls <= answers {
        return calls;
    }
    answers
}

// Runs calls of twelve words laid end to end and writes their answers, three words each, as far as `answers` has room; says how many.
pub fn run(schema: &[u8], area: &mut [i64], calls: &[i64], answers: &mut [i64]) -> usize
    ensures { (result, area.new, answers.new) ≡ run_calls schema.now calls.now area.old answers.old }
{
    let n = calls_run(calls.len(), answers.len());
    let reached = is_fresh(schema, area);
    for i in 0..n {
        run_call(schema, area, calls, answers, i, reached);
    }
    n
}
