// The questions on form of each call, in order, but for those on the proof (`proof`).
ghost use Rattle.std.specs.Prelude.{◌≡◌, true};
ghost use Rattle.protocol.specs.Shape.{limits};
ghost use Rattle.protocol.specs.Answers.{ask};
ghost use Rattle.protocol.specs.Calls.{test_questions};
ghost use Rattle.format.specs.Sizes.{setting_for, alphabet_for, shape_for, SizesOf};
ghost use Rattle.format.specs.Verdict.{told};
ghost use Rattle.questions.specs.Asking.{commit_inputs, hash_inputs, batch_inputs, prove_inputs, verify_inputs, CommitAsked, HashAsked, BatchAsked, ProveAsked};

use super::inputs::{
    batching_exact, batching_form, challenge_exact, challenge_form, full_form, hash_matrix_exact,
    hash_matrix_form, opened_form, witness_form,
};
use super::key::key_form;
use format::sizes::Sizes;
use format::{Reason, Refusal, ask};
use sections::outputs::{batch_bytes, commit_bytes, hash_bytes, proof_bytes};

fn commit_inputs(leaves: &[u8], witness: &[u8], out_len: usize, s: Sizes) -> Result<(), Refusal>
    requires { limits (shape_for s) ≡ true }
    ensures { told result ≡ ask (commit_inputs (alphabet_for s) (shape_for s) leaves.now witness.now out_len) }
{
    full_form(leaves, s)?;
    witness_form(witness, s)?;
    ask(out_len == commit_bytes(s), Reason::OutputLength)
}

fn hash_inputs(leaves: &[u8], hash_matrix: &[u8], out_len: usize, s: Sizes) -> Result<(), Refusal>
    requires { limits (shape_for s) ≡ true }
    ensures { told result ≡ ask (hash_inputs (alphabet_for s) (shape_for s) leaves.now hash_matrix.now out_len) }
{
    let exact = hash_matrix_exact(hash_matrix, s);
    hash_matrix_form(exact, hash_matrix, s)?;
    full_form(leaves, s)?;
    ask(out_len == hash_bytes(s), Reason::OutputLength)
}

fn batch_inputs(
    leaves: &[u8],
    witness: &[u8],
    batching: &[u8],
    out_len: usize,
    s: Sizes,
) -> Result<(), Refusal>
    requires { limits (shape_for s) ≡ true }
    ensures { told result ≡ ask (batch_inputs (alphabet_for s) (shape_for s) leaves.now witness.now batching.now out_len) }
{
    let exact = batching_exact(batching, s);
    ask(exact, Reason::ChallengeLength)?;
    batching_form(batching, s)?;
    full_form(leaves, s)?;
    witness_form(witness, s)?;
    ask(out_len == batch_bytes(s), Reason::OutputLength)
}

fn prove_inputs(
    leaves: &[u8],
    witness: &[u8],
    hash_matrix: &[u8],
    batching: &[u8],
    out_len: usize,
    s: Sizes,
) -> Result<(), Refusal>
    requires { limits (shape_for s) ≡ true }
    ensures { told result ≡ ask (prove_inputs (alphabet_for s) (shape_for s)
        leaves.now witness.now hash_matrix.now batching.now out_len) }
{
    let exact = hash_matrix_exact(hash_matrix, s) & batching_exact(batching, s);
    hash_matrix_form(exact, hash_matrix, s)?;
    batching_form(batching, s)?;
    full_form(leaves, s)?;
    witness_form(witness, s)?;
    ask(out_len == proof_bytes(s), Reason::OutputLength)
}

// The verifier: questions 5 to 8, with 17 after 6. Those on the key come before them, and those on the proof after.
pub fn verify_inputs(
    delta: &[u8],
    hash_matrix: &[u8],
    batching: &[u8],
    opened: &[u8],
    s: Sizes,
) -> Result<(), Refusal>
    requires { limits (shape_for s) ≡ true }
    ensures { told result ≡ ask (verify_inputs (alphabet_for s) (shape_for s) delta.now hash_matrix.now batching.now opened.now) }
{
    let exact = challenge_exact(delta, s)
        & hash_matrix_exact(hash_matrix, s)
        & batching_exact(batching, s);
    hash_matrix_form(exact, hash_matrix, s)?;
    challenge_form(delta, batching, s)?;
    opened_form(opened, s)
}

// The call that tests a key and a witness: questions 16, 1 to 4, 9.
pub fn test_form(key: &[u8], witness: &[u8], s: Sizes) -> Result<(), Refusal>
    requires { SizesOf key.now s }
    ensures { told result ≡ ask (test_questions (setting_for s) key.now witness.now) }
{
    key_form(key, s)?;
    witness_form(witness, s)
}

// The first step: questions 16, 1 to 4, 7 to 10. Of the output only its length is asked.
pub fn commit_form(
    key: &[u8],
    leaves: &[u8],
    witness: &[u8],
    out_len: usize,
    s: Sizes,
) -> Result<(), Refusal>
    requires { SizesOf key.now s }
    ensures { CommitAsked (setting_for s) key.now leaves.now witness.now out_len (told result) }
{
    key_form(key, s)?;
    commit_inputs(leaves, witness, out_len, s)
}

// The second step: questions 16, 1 to 8, 10.
pub fn hash_form(
    key: &[u8],
    leaves: &[u8],
    hash_matrix: &[u8],
    out_len: usize,
    s: Sizes,
) -> Result<(), Refusal>
    requires { SizesOf key.now s }
    ensures { HashAsked (setting_for s) key.now leaves.now hash_matrix.now out_len (told result) }
{
    key_form(key, s)?;
    hash_inputs(leaves, hash_matrix, out_len, s)
}

// The third step: questions 16, 1 to 5, 17, 7 to 10.
pub fn batch_form(
    key: &[u8],
    leaves: &[u8],
    witness: &[u8],
    batching: &[u8],
    out_len: usize,
    s: Sizes,
) -> Result<(), Refusal>
    requires { SizesOf key.now s }
    ensures { BatchAsked (setting_for s) key.now leaves.now witness.now batching.now out_len (told result) }
{
    key_form(key, s)?;
    batch_inputs(leaves, witness, batching, out_len, s)
}

// The whole call: questions 16, 1 to 6, 17, 7 to 10.
pub fn prove_form(
    key: &[u8],
    leaves: &[u8],
    witness: &[u8],
    hash_matrix: &[u8],
    batching: &[u8],
    out_len: usize,
    s: Sizes,
) -> Result<(), Refusal>
    requires { SizesOf key.now s }
    ensures { ProveAsked (setting_for s) key.now leaves.now witness.now hash_matrix.now batching.now out_len (told result) }
{
    key_form(key, s)?;
    prove_inputs(leaves, witness, hash_matrix, batching, out_len, s)
}
