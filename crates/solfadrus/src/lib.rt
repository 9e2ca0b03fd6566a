// The calls that C makes. Each takes the degree of the field right after the key (request 3), and answers with one
// number: 0 for accepted, else number × 65,536 + place.
#![tactic(auto)]

ghost use Rattle.std.specs.Prelude.{◌≡◌};
ghost use Rattle.protocol.specs.Setting.{setting};
ghost use Rattle.demands.specs.Demands.{TestTold, CommitWrites, HashWrites, BatchWrites, ProveWrites, VerifyTold};

pub mod calls;
mod sizes;

// major × 65,536 + minor × 256 + patch
#[unsafe(no_mangle)]
pub extern "C" fn mq_version() -> u32
    ensures { result ≡ 512 }
{
    512
}

#[unsafe(no_mangle)]
pub extern "C" fn mq_test(key: &[u8], degree: u32, witness: &[u8]) -> u32
    ensures { TestTold (setting degree) key.now witness.now result }
{
    u32::from(calls::test(key, degree, witness))
}

#[unsafe(no_mangle)]
pub extern "C" fn mq_commit(
    key: &[u8],
    degree: u32,
    leaves: &[u8],
    witness: &[u8],
    out: &mut [u8],
) -> u32
    ensures { CommitWrites (setting degree) key.now leaves.now witness.now out.old out.new result }
{
    u32::from(calls::commit(key, degree, leaves, witness, out))
}

#[unsafe(no_mangle)]
pub extern "C" fn mq_hash(
    key: &[u8],
    degree: u32,
    leaves: &[u8],
    hash_matrix: &[u8],
    out: &mut [u8],
) -> u32
    ensures { HashWrites (setting degree) key.now leaves.now hash_matrix.now out.old out.new result }
{
    u32::from(calls::hash(key, degree, leaves, hash_matrix, out))
}

#[unsafe(no_mangle)]
pub extern "C" fn mq_batch(
    key: &[u8],
    degree: u32,
    leaves: &[u8],
    witness: &[u8],
    batching: &[u8],
    out: &mut [u8],
) -> u32
    ensures { BatchWrites (setting degree) key.now leaves.now witness.now batching.now out.old out.new result }
{
    u32::from(calls::batch(key, degree, leaves, witness, batching, out))
}

#[unsafe(no_mangle)]
pub extern "C" fn mq_prove(
    key: &[u8],
    degree: u32,
    leaves: &[u8],
    witness: &[u8],
    hash_matrix: &[u8],
    batching: &[u8],
    out: &mut [u8],
) -> u32
    ensures { ProveWrites (setting degree) key.now leaves.now witness.now hash_matrix.now batching.now out.old out.new result }
{
    u32::from(calls::prove(key, degree, leaves, witness, hash_matrix, batching, out))
}

#[unsafe(no_mangle)]
pub extern "C" fn mq_verify(
    key: &[u8],
    degree: u32,
    delta: &[u8],
    hash_matrix: &[u8],
    batching: &[u8],
    opened: &[u8],
    proof: &[u8],
) -> u32
    ensures { VerifyTold (setting degree) key.now delta.now hash_matrix.now batching.now opened.now proof.now result }
{
    u32::from(verifier::verify(key, degree, delta, hash_matrix, batching, opened, proof))
}
