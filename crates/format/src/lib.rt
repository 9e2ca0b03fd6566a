// The answers of the calls, in the forms that 01 names.
#![tactic(auto)]

pub mod numbers;
pub mod sizes;
pub mod verdicts;
pub mod words;

ghost use Rattle.std.specs.Prelude.{◌≡◌, [], ◌∷◌, ◌<◌};
ghost use Rattle.protocol.specs.Answers.{refused, question, ask};
ghost use Rattle.format.specs.Verdict.{number_for, answer_of, told};

pub use sizes::Sizes;

// Why a call refuses: one case for each question of 01, and for 16 to 18 of request 3, under its number.
#[derive(Clone, Copy)]
pub enum Reason {
    ShortHeader = 1,
    SizeOutOfRange = 2,
    KeyLength = 3,
    KeySpareBit = 4,
    ChallengeLength = 5,
    HashSpareBit = 6,
    LeafLength = 7,
    LeafSpareBit = 8,
    WitnessForm = 9,
    OutputLength = 10,
    EquationFails = 11,
    ProofLength = 12,
    ProofSpareBit = 13,
    Inconsistent = 14,
    ProductDiffers = 15,
    DegreeUnserved = 16,
    ChallengeElement = 17,
    ProofElement = 18,
}

// The number that 01 gives a question.
impl From<Reason> for u32 {
    ghost from_gives = { λ reason n. (n ≡ number_for reason) × (n < 19) };

    fn from(reason: Reason) -> u32 {
        reason as u32
    }
}

// A number and a place held together.
#[derive(Clone, Copy)]
pub struct Refusal {
    pub number: Reason,
    pub place: u16,
}

// What a call answers.
#[derive(Clone, Copy)]
pub enum Verdict {
    Accepted,
    Refused(Refusal),
}

// What the questions told, as a call's answer.
impl From<Result<(), Refusal>> for Verdict {
    ghost from_gives = { λ asked verdict. answer_of verdict ≡ told asked };

    fn from(asked: Result<(), Refusal>) -> Verdict {
        match asked {
            Ok(()) => Verdict::Accepted,
            Err(refusal) => Verdict::Refused(refusal),
        }
    }
}

// A refusal that names a place; 0 where 01 gives none.
pub fn refuse(reason: Reason, place: u16) -> Refusal
    ensures { refused (number_for result.number) result.place ≡ refused (number_for reason) place }
{
    Refusal {
        number: reason,
        place,
    }
}

// One question: where it gets a no, the refusal, which names no place.
pub fn ask(yes: bool, reason: Reason) -> Result<(), Refusal>
    ensures { told result ≡ ask (question yes (number_for reason) 0 ∷ []) }
{
    if yes {
        return Ok(());
    }
    Err(refuse(reason, 0))
}
