// Schema bytes: the enums of the actions, of a foreign key's match and of why the check refuses bytes, and the codes of the first two. The definitions are in specs/, their laws in proofs/.

#![tactic(auto)]

ghost use Rattle.std.specs.Prelude.{◌≡◌, ◌<◌, ◌≤◌, MatchResult};
ghost use Rattle.schema.specs.Fields.{action_from, match_from};

// What follows a deletion or a change of a parent key.
#[derive(Clone, Copy, PartialEq, Eq, Debug)]
pub enum Action {
    NoAction,
    Restrict,
    SetNull,
    SetDefault,
    Cascade,
}

// What NULL in a child key means. Simple: the row needs no parent. Full: all columns are NULL or none.
#[derive(Clone, Copy, PartialEq, Eq, Debug)]
pub enum Match {
    Simple,
    Full,
}

// A code that stands for no action, or for no match.
#[derive(Clone, Copy, PartialEq, Eq, Debug)]
pub struct UnknownCode(pub usize);

impl TryFrom<usize> for Action {
    type Error = UnknownCode;

    ghost try_from_gives = { λ code r. MatchResult r (λ action. (code ≤ 4) × (action ≡ action_from code)) (λ e. (e.0 ≡ code) × (4 < code)) };

    #[tactic(auto, unfolding(crate::specs::Fields::action_from))]
    fn try_from(code: usize) -> Result<Action, UnknownCode> {
        match code {
            0 => Ok(Action::NoAction),
            1 => Ok(Action::Restrict),
            2 => Ok(Action::SetNull),
            3 => Ok(Action::SetDefault),
            4 => Ok(Action::Cascade),
            _ => Err(UnknownCode(code)),
        }
    }
}

impl TryFrom<usize> for Match {
    type Error = UnknownCode;

    ghost try_from_gives = { λ code r. MatchResult r (λ m. (code ≤ 1) × (m ≡ match_from code)) (λ e. (e.0 ≡ code) × (1 < code)) };

    #[tactic(auto, unfolding(crate::specs::Fields::match_from))]
    fn try_from(code: usize) -> Result<Match, UnknownCode> {
        match code {
            0 => Ok(Match::Simple),
            1 => Ok(Match::Full),
            _ => Err(UnknownCode(code)),
        }
    }
}

// Why the check refuses schema bytes.
#[derive(Clone, Copy, PartialEq, Eq, Debug)]
pub enum SchemaError {
    // Refusal 1: the bytes break a rule.
    Malformed,
}
