// The calls: the questions in 01's order, and then the bytes. Question 11, the last, is answered before a
// section is computed. Each call makes its verdict of what its questions told, which `?` leaves with at the first no.
ghost use Rattle.std.specs.Prelude.{◌≡◌};
ghost use Rattle.protocol.specs.Setting.{setting};
ghost use Rattle.protocol.specs.Calls.{test_answer, commit_answer, hash_answer, batch_answer, prove_answer};
ghost use Rattle.format.specs.Verdict.{answer_of, told};
ghost use Rattle.demands.specs.Told.{CommitOutput, HashOutput, BatchOutput, ProveOutput};

use format::sizes::sizes_of;
use format::{Refusal, Verdict};
use questions::calls::{batch_form, commit_form, hash_form, prove_form, test_form};
use questions_proof::witness::solved;

// The second step (01): hash with H'. It takes no witness, and writes the sections ũ and Ṽ.
pub fn hash(key: &[u8], degree: u32, leaves: &[u8], matrix: &[u8], out: &mut [u8]) -> Verdict
    ensures result_value { answer_of result ≡ hash_answer (setting degree) key.now leaves.now matrix.now out.old }
    ensures hash_output { HashOutput (setting degree) key.now leaves.now matrix.now out.old out.new (answer_of result) }
{
    Verdict::from(try_hash(key, degree, leaves, matrix, out))
}

fn try_hash(
    key: &[u8],
    degree: u32,
    leaves: &[u8],
    matrix: &[u8],
    out: &mut [u8],
) -> Result<(), Refusal>
    ensures result_value { told result ≡ hash_answer (setting degree) key.now leaves.now matrix.now out.old }
    ensures hash_output { HashOutput (setting degree) key.now leaves.now matrix.now out.old out.new (told result) }
{
    let s = sizes_of(key, degree);
    hash_form(key, leaves, matrix, out.len(), s)?;
    prover::hash(out, leaves, matrix, s);
    Ok(())
}

// The test of a key and a witness (01): questions 16, 1 to 4, 9, 11.
pub fn test(key: &[u8], degree: u32, witness: &[u8]) -> Verdict
    ensures { answer_of result ≡ test_answer (setting degree) key.now witness.now }
{
    Verdict::from(try_test(key, degree, witness))
}

fn try_test(key: &[u8], degree: u32, witness: &[u8]) -> Result<(), Refusal>
    ensures { told result ≡ test_answer (setting degree) key.now witness.now }
{
    let s = sizes_of(key, degree);
    test_form(key, witness, s)?;
    solved(key, witness, s)
}

// The first step (01): commit. It takes the witness, and writes the sections C and d.
pub fn commit(key: &[u8], degree: u32, leaves: &[u8], witness: &[u8], out: &mut [u8]) -> Verdict
    ensures result_value { answer_of result ≡ commit_answer (setting degree) key.now leaves.now witness.now out.old }
    ensures commit_output { CommitOutput (setting degree) key.now leaves.now witness.now out.old out.new (answer_of result) }
{
    Verdict::from(try_commit(key, degree, leaves, witness, out))
}

fn try_commit(
    key: &[u8],
    degree: u32,
    leaves: &[u8],
    witness: &[u8],
    out: &mut [u8],
) -> Result<(), Refusal>
    ensures result_value { told result ≡ commit_answer (setting degree) key.now leaves.now witness.now out.old }
    ensures commit_output { CommitOutput (setting degree) key.now leaves.now witness.now out.old out.new (told result) }
{
    let s = sizes_of(key, degree);
    commit_form(key, leaves, witness, out.len(), s)?;
    solved(key, witness, s)?;
    prover::commit(out, leaves, witness, s);
    Ok(())
}

// The third step (01): batch. It takes the witness, and writes the sections QS0 and QS1.
pub fn batch(
    key: &[u8],
    degree: u32,
    leaves: &[u8],
    witness: &[u8],
    batching: &[u8],
    out: &mut [u8],
) -> Verdict
    ensures result_value { answer_of result ≡ batch_answer (setting degree) key.now leaves.now witness.now batching.now out.old }
    ensures batch_output { BatchOutput (setting degree) key.now leaves.now witness.now batching.now out.old out.new (answer_of result) }
{
    Verdict::from(try_batch(key, degree, leaves, witness, batching, out))
}

fn try_batch(
    key: &[u8],
    degree: u32,
    leaves: &[u8],
    witness: &[u8],
    batching: &[u8],
    out: &mut [u8],
) -> Result<(), Refusal>
    ensures result_value { told result ≡ batch_answer (setting degree) key.now leaves.now witness.now batching.now out.old }
    ensures batch_output { BatchOutput (setting degree) key.now leaves.now witness.now batching.now out.old out.new (told result) }
{
    let s = sizes_of(key, degree);
    batch_form(key, leaves, witness, batching, out.len(), s)?;
    solved(key, witness, s)?;
    prover::batch(out, key, leaves, witness, batching, s);
    Ok(())
}

// The three steps in one call (01).
pub fn prove(
    key: &[u8],
    degree: u32,
    leaves: &[u8],
    witness: &[u8],
    matrix: &[u8],
    batching: &[u8],
    out: &mut [u8],
) -> Verdict
    ensures result_value { answer_of result ≡ prove_answer (setting degree) key.now leaves.now witness.now matrix.now batching.now out.old }
    ensures prove_output { ProveOutput (setting degree) key.now leaves.now witness.now matrix.now batching.now
        out.old out.new (answer_of result) }
{
    Verdict::from(try_prove(key, degree, leaves, witness, matrix, batching, out))
}

fn try_prove(
    key: &[u8],
    degree: u32,
    leaves: &[u8],
    witness: &[u8],
    matrix: &[u8],
    batching: &[u8],
    out: &mut [u8],
) -> Result<(), Refusal>
    ensures result_value { told result ≡ prove_answer (setting degree) key.now leaves.now witness.now matrix.now batching.now out.old }
    ensures prove_output { ProveOutput (setting degree) key.now leaves.now witness.now matrix.now batching.now
        out.old out.new (told result) }
{
    let s = sizes_of(key, degree);
    prove_form(key, leaves, witness, matrix, batching, out.len(), s)?;
    solved(key, witness, s)?;
    prover::prove(out, key, leaves, witness, matrix, batching, s);
    Ok(())
}
