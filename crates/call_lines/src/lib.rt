// Calls in bytes, run one after the other: each answer is written as a line and counted in the tally.

#![tactic(auto)]

ghost use Rattle.std.specs.Prelude.{◌≡◌, ◌+◌, ◌*◌, ◌≤◌, length};
ghost use Rattle.rules.specs.Engine.{call_on};
ghost use Rattle.laws.specs.Reached.{Reached};
ghost use Rattle.lines.specs.Text.{SameBuffer};
ghost use Rattle.call_lines.specs.Runs.{call_at, call_count, run_at, ran};

use reports::Reporter;
use rules::Answer;

// Carries out call i of the bytes; one that is cut short is handed over as no words.
fn call_at(schema: &[u8], area: &mut [i64], bytes: &[u8], i: usize) -> Answer
    requires { Reached schema.now area.old × (i * 96 ≤ length bytes.now) }
    ensures { (result, area.new) ≡ call_on schema.now (call_at bytes.now i) area.old }
{
    let at = i * 96;
    if 96 <= bytes.len() - at {
        let words = decoding::words_at(bytes, at);
        return engine::next(schema, area, &words);
    }
    engine::next(schema, area, &[])
}

// Runs the calls that the bytes are on an area that calls led to, and writes their lines.
pub fn run_calls(schema: &[u8], area: &mut [i64], bytes: &[u8], reporter: &mut Reporter)
    requires { Reached schema.now area.old × (reporter.old.text.used + 64 * call_count (length bytes.now) ≤ length reporter.old.text.out.now) }
    ensures ran { run_at area.new reporter.new ≡ ran schema.now bytes.now (run_at area.old reporter.old) }
    ensures used { reporter.new.text.used ≤ length reporter.old.text.out.now }
    ensures same { SameBuffer reporter.old.text reporter.new.text }
    ensures reached { Reached schema.now area.new }
{
    for i in 0..bytes.len().div_ceil(96) {
        let answer = call_at(schema, area, bytes, i);
        reporter.report(answer);
    }
}
