// Answers as words.

#![tactic(auto)]

ghost use Rattle.std.specs.Prelude.{◌≡◌, ◌+◌, ◌*◌, ◌≤◌, pos, length};
ghost use Rattle.std.proofs.lemmas.List.Edits.{sets};
ghost use Rattle.rules.specs.Refusals.{number, shown};
ghost use Rattle.answers.specs.AnswerWords.{answer_words};

use rules::{Answer, Refusal};

// The paper's number of a refusal.
#[tactic(auto, unfolding(rules::specs::Refusals::number))]
pub fn refusal_number(refusal: Refusal) -> i64
    ensures { result ≡ pos (number refusal) }
{
    refusal as i64
}

// An answer's code.
#[tactic(auto, unfolding(rules::specs::Refusals::shown))]
pub fn code_of(answer: Answer) -> i64
    ensures { result ≡ pos (shown answer).0 }
{
    match answer {
        Ok(_) => 0,
        Err(refusal) => refusal_number(refusal),
    }
}

// An answer's code, rows changed and net.
pub fn answer_words(answer: Answer) -> [i64; 3]
    requires { (shown answer).1 ≤ 4096 }
    ensures { result ≡ answer_words answer }
{
    match answer {
        Ok(done) => [0, words::word_of(done.changed), done.net],
        Err(refusal) => [refusal_number(refusal), 0, 0],
    }
}

// Writes answer i of those laid end to end.
pub fn put_answer(answers: &mut [i64], i: usize, answer: [i64; 3])
    requires { i * 3 + 3 ≤ length answers.old }
    ensures { answers.new ≡ sets answers.old (i * 3) answer }
{
    words::put_words(answers, i * 3, &answer);
}
