// The rules of the record engine: the types of its answers. The definitions are in specs/, worked examples in proofs/.

#![tactic(auto)]

ghost use Rattle.std.specs.Prelude.{◌≡◌};
ghost use Rattle.rules.specs.declared.Refusal.TheVariants.{SchemaMalformed};

use schema::SchemaError;

// Why a call is refused, with the paper's number.
#[derive(Clone, Copy, PartialEq, Eq)]
pub enum Refusal {
    // Schema bytes break a rule.
    SchemaMalformed = 1,
    // Wrong area length.
    WrongLength = 3,
    // Not twelve words, or a word out of its range.
    BadCall = 4,
    // The area is damaged.
    Damaged = 10,
    // Insert on a live row; update or delete on a vacant one.
    RowState = 11,
    // Not while a transaction is open, only while one is, or no such level.
    LevelState = 12,
    // Nine levels are open.
    LevelsFull = 13,
    // Depth 17.
    TooDeep = 14,
    // Journal full.
    JournalFull = 15,
    // NOT NULL.
    NotNull = 16,
    // Unique.
    NotUnique = 17,
    // RESTRICT.
    Restricted = 18,
    // A kept number would leave its range.
    KeptOutOfRange = 19,
    // A statement leaves orphans.
    OrphansLeft = 20,
    // A commit with orphans.
    CommitWithOrphans = 21,
    // Orphan list too short.
    ListTooShort = 22,
    // A row change uses a broken key.
    BrokenKey = 23,
    // A written window is empty, or shares a day with another.
    BadWindow = 24,
}

impl From<SchemaError> for Refusal {
    ghost from_gives = { λ e r. r ≡ SchemaMalformed };

    fn from(error: SchemaError) -> Refusal {
        match error {
            SchemaError::Malformed => Refusal::SchemaMalformed,
        }
    }
}

// Whether checks pass, or which one refuses.
pub type Verdict = Result<(), Refusal>;

// What an accepted call did: rows changed, and net change in all kept orphans.
#[derive(Clone, Copy, PartialEq, Eq)]
pub struct Done {
    pub changed: usize,
    pub net: i64,
}

// The answer to a call.
pub type Answer = Result<Done, Refusal>;

// A record of the orphan list: a foreign key and a row of its child table. C reads its fields.
#[repr(C)]
#[derive(Clone, Copy)]
pub struct Orphan {
    pub key: usize,
    pub row: usize,
}

// The answer of the orphan list: the paper's code, and how many orphans there are.
// C reads both fields, so that it is no Result.
#[repr(C)]
#[derive(Clone, Copy)]
pub struct Listed {
    pub code: i64,
    pub count: usize,
}

// The answer of a question that asks for one number: the paper's code, and the number.
// C reads both fields, so that it is no Result.
#[repr(C)]
#[derive(Clone, Copy)]
pub struct Numbered {
    pub code: i64,
    pub number: i64,
}
