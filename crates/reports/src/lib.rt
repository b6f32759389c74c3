// An answer reported: its line in the output buffer, and its part in the run's tally.

#![tactic(auto)]

ghost use Rattle.std.specs.Prelude.{◌≡◌, ◌+◌, ◌≤◌, length};
ghost use Rattle.rules.specs.Refusals.{shown};
ghost use Rattle.lines.specs.Text.{Puts};
ghost use Rattle.reports.specs.Reports.{line_of, counted_in};

use lines::{Figures, Text};
use rules::Answer;
use run_tally::Tally;

// How far a run has come: its tally, and how many bytes of the output buffer its lines take.
#[derive(Clone, Copy)]
pub struct Progress {
    pub tally: Tally,
    pub used: usize,
}

// What reports a run's answers: its tally, and its lines.
#[derive(Drop)]
pub struct Reporter<'a> {
    pub tally: Tally,
    pub text: Text<'a>,
}

// An answer in figures.
#[tactic(auto, unfolding(rules::specs::Refusals::shown, rules::specs::Refusals::number))]
fn figures_of(answer: Answer) -> Figures
    ensures { (result.code ≡ (shown answer).0) × (result.changed ≡ (shown answer).1) × (result.net ≡ (shown answer).2) }
{
    match answer {
        Ok(done) => Figures {
            code: 0,
            changed: done.changed as u64,
            net: done.net,
        },
        Err(refusal) => Figures {
            code: refusal as u64,
            changed: 0,
            net: 0,
        },
    }
}

impl Reporter<'_> {
    // How far the run has come.
    pub fn progress(&self) -> Progress
        ensures { (result.tally ≡ self.now.tally) × (result.used ≡ self.now.text.used) }
    {
        Progress {
            tally: self.tally,
            used: self.text.used,
        }
    }

    // Writes the line of an answer, and counts it.
    pub fn report(&mut self, answer: Answer)
        requires { self.old.text.used + 64 ≤ length self.old.text.out.now }
        ensures counted { self.new.tally ≡ counted_in self.old.tally answer }
        ensures put { Puts (line_of answer) self.old.text self.new.text }
        ensures used { self.new.text.used ≤ self.old.text.used + 64 }
    {
        let figures = figures_of(answer);
        self.text.put_answer_line(figures);
        self.tally.count(figures.code, figures.changed);
    }
}
