// Questions 5 to 10 of 01 and 17 of request 3, one input at a time.
ghost use Rattle.std.specs.Prelude.{◌≡◌, true, [], ◌∷◌, ◌≤◌};
ghost use Rattle.protocol.specs.Shape.{limits, per_tree, per_opened};
ghost use Rattle.protocol.specs.Alphabet.{elements_in};
ghost use Rattle.protocol.specs.Answers.{question, ask};
ghost use Rattle.protocol.specs.Questions.{ΔExact, h_exact, χExact, q6, q9, q17};
ghost use Rattle.format.specs.Sizes.{alphabet_for, shape_for};
ghost use Rattle.format.specs.Verdict.{told};
ghost use Rattle.questions.specs.Asking.{leaf_questions};

use format::sizes::{
    Sizes, batching_bytes, hash_matrix_bytes, hashed_bits, leaf_bits, leaves_bytes, tree_leaves,
    witness_bytes,
};
use format::{Reason, Refusal, ask};
use rows::elements::elements;
use rows::spare::{row_spare, rows_spare};

// Has Δ a byte for each repetition?
pub fn challenge_exact(delta: &[u8], s: Sizes) -> bool
    ensures { result ≡ ΔExact (alphabet_for s) (shape_for s) delta.now }
{
    delta.len() == s.tau
}

// Has H' its t rows?
pub fn hash_matrix_exact(hash_matrix: &[u8], s: Sizes) -> bool
    requires { limits (shape_for s) ≡ true }
    ensures { result ≡ h_exact (alphabet_for s) (shape_for s) hash_matrix.now }
{
    hash_matrix.len() == hash_matrix_bytes(s)
}

// Has χ its columns?
pub fn batching_exact(batching: &[u8], s: Sizes) -> bool
    requires { limits (shape_for s) ≡ true }
    ensures { result ≡ χExact (alphabet_for s) (shape_for s) batching.now }
{
    batching.len() == batching_bytes(s)
}

// Questions 5 and 6 of a call that takes H': `exact` is what question 5 asks, of H' and of the call's other
// challenges.
pub fn hash_matrix_form(exact: bool, hash_matrix: &[u8], s: Sizes) -> Result<(), Refusal>
    requires { (limits (shape_for s) ≡ true) × (exact ≡ true → h_exact (alphabet_for s) (shape_for s) hash_matrix.now ≡ true) }
    ensures { told result ≡ ask (question exact 5 0 ∷ q6 (alphabet_for s) (shape_for s) hash_matrix.now ∷ []) }
{
    ask(exact, Reason::ChallengeLength)?;
    let t = s.t;
    let spare = rows_spare(hash_matrix, hashed_bits(s), t);
    ask(spare, Reason::HashSpareBit)
}

// Question 17 of a call that takes χ and no Δ: is each byte an element of the field?
pub fn batching_form(batching: &[u8], s: Sizes) -> Result<(), Refusal>
    ensures { told result ≡ ask (q17 (alphabet_for s) (shape_for s) (elements_in (alphabet_for s) batching.now ∷ []) ∷ []) }
{
    let degree = s.degree;
    ask(elements(batching, degree), Reason::ChallengeElement)
}

// The same of the verifier, which takes both.
pub fn challenge_form(delta: &[u8], batching: &[u8], s: Sizes) -> Result<(), Refusal>
    ensures { told result ≡ ask (q17 (alphabet_for s) (shape_for s)
        (elements_in (alphabet_for s) delta.now ∷ elements_in (alphabet_for s) batching.now ∷ []) ∷ []) }
{
    let degree = s.degree;
    let both = elements(delta, degree) & elements(batching, degree);
    ask(both, Reason::ChallengeElement)
}

// Questions 7 and 8, of so many leaves for each repetition.
fn leaves_form(leaves: &[u8], s: Sizes, per: usize) -> Result<(), Refusal>
    requires { (limits (shape_for s) ≡ true) × (per ≤ 256) }
    ensures { told result ≡ ask (leaf_questions (alphabet_for s) (shape_for s) per leaves.now) }
{
    ask(leaves.len() == leaves_bytes(s, per), Reason::LeafLength)?;
    let spare = rows_spare(leaves, leaf_bits(s), s.tau * per);
    ask(spare, Reason::LeafSpareBit)
}

// The same of the full leaves that a prover's call takes.
pub fn full_form(leaves: &[u8], s: Sizes) -> Result<(), Refusal>
    requires { limits (shape_for s) ≡ true }
    ensures { told result ≡ ask (leaf_questions (alphabet_for s) (shape_for s) (per_tree (alphabet_for s)) leaves.now) }
{
    leaves_form(leaves, s, tree_leaves(s))
}

// And of the opened leaves that the verifier takes: all of each tree but one.
pub fn opened_form(opened: &[u8], s: Sizes) -> Result<(), Refusal>
    requires { limits (shape_for s) ≡ true }
    ensures { told result ≡ ask (leaf_questions (alphabet_for s) (shape_for s) (per_opened (alphabet_for s)) opened.now) }
{
    leaves_form(opened, s, tree_leaves(s) - 1)
}

// Question 9.
pub fn witness_form(witness: &[u8], s: Sizes) -> Result<(), Refusal>
    requires { limits (shape_for s) ≡ true }
    ensures { told result ≡ ask (q9 (alphabet_for s) (shape_for s) witness.now ∷ []) }
{
    ask(witness.len() == witness_bytes(s), Reason::WitnessForm)?;
    let n = s.n;
    ask(row_spare(witness, n), Reason::WitnessForm)
}
