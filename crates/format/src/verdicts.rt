// The answer to a question that is asked of every repetition, or of every equation.
ghost use Rattle.std.specs.Prelude.{◌≡◌, Bool, ℕ, [], ◌∷◌, ◌<◌, IfSome};
ghost use Rattle.protocol.specs.Lists.{all_below, first_not};
ghost use Rattle.protocol.specs.Answers.{question, ask};
ghost use Rattle.format.specs.Verdict.{number_for, told};
ghost use Rattle.format.specs.First.{FirstOf};

use super::{Reason, Refusal, refuse};

// The refusal with this reason and the place of the first that fails; accepted where none does.
pub fn answer(reason: Reason, first: Option<usize>) -> Result<(), Refusal>
    requires { IfSome first (λ i. i < 65536) }
    ensures { (n : ℕ) (p : ℕ → Bool) → FirstOf n p first → told result ≡ ask (question (all_below n p) (number_for reason) (first_not n p) ∷ []) }
{
    match first {
        Some(i) => Err(refuse(reason, i as u16)),
        None => Ok(()),
    }
}
