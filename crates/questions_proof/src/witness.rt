// Question 11: does the witness solve the system? Every equation is looked at; that the answer, place
// included, is told is 01's rule.
ghost use Rattle.std.specs.Prelude.{◌≡◌, length, [], ◌∷◌};
ghost use Rattle.protocol.specs.Shape.{shape_of};
ghost use Rattle.protocol.specs.Answers.{ask};
ghost use Rattle.protocol.specs.Questions.{q11};
ghost use Rattle.format.specs.Sizes.{alphabet_for, shape_for, SizesOf};
ghost use Rattle.format.specs.Verdict.{told};
ghost use Rattle.questions.specs.Facts.{TestFacts};

use equations::{equation_errors, first_failing};
use format::sizes::{MOST_EQUATIONS, Sizes};
use format::verdicts::answer;
use format::{Reason, Refusal};
use questions::key::{section_a, section_b, section_y};

fn test_equations(errors: &mut [u8], key: &[u8], witness: &[u8], s: Sizes) -> Result<(), Refusal>
    requires { SizesOf key.now s × TestFacts (alphabet_for s) (shape_for s) key.now witness.now × (length errors.old ≡ s.m) }
    ensures { told result ≡ ask (q11 (alphabet_for s) (shape_of key.now) key.now witness.now ∷ []) }
{
    let n = s.n;
    equation_errors(
        errors,
        section_a(key, s),
        section_b(key, s),
        section_y(key, s),
        witness,
        n,
    );
    answer(Reason::EquationFails, first_failing(errors))
}

// Accepted, or refused 11 with the lowest-numbered equation that fails.
pub fn solved(key: &[u8], witness: &[u8], s: Sizes) -> Result<(), Refusal>
    requires { SizesOf key.now s × TestFacts (alphabet_for s) (shape_for s) key.now witness.now }
    ensures { told result ≡ ask (q11 (alphabet_for s) (shape_of key.now) key.now witness.now ∷ []) }
{
    let m = s.m;
    // No heap: room for the largest key, of which the front is used.
    let mut errors = [0u8; MOST_EQUATIONS];
    test_equations(&mut errors[..m], key, witness, s)
}
