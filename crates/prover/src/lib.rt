// The prover: its trees are loaded, and each step then writes its framed sections into its own part of the output.
#![tactic(auto)]

pub mod steps;

ghost use Rattle.std.specs.Prelude.{◌≡◌};
ghost use Rattle.format.specs.Sizes.{alphabet_for, shape_for};
ghost use Rattle.prover.specs.Loaded.{LoadReady, Loaded};
ghost use Rattle.questions.specs.Facts.{CommitFacts, HashFacts, BatchFacts, ProveFacts};
ghost use Rattle.prover.specs.Steps.{commit_frame, hash_frame, batch_frame, proof_frame, RestReady, RestWritten};

use format::Sizes;
use format::sizes::{MOST_LEAF, degree_of, leaf_bytes};
use forms_batching::panels::CELLS;
use lanes::LANES;
use sections::outputs::{commit_bytes, hash_bytes};
use steps::{batch_into, commit_into, hash_into};
use strings::BITS;

// No heap: room for the largest key, of which the front is used. The table of the v_e, and the u_e. The steps that
// batch put the table at the front of the cells, which need more room and are made when the table has served.
const TABLE_ROOM: usize = BITS * MOST_LEAF * LANES;

const SUMS_ROOM: usize = LANES * MOST_LEAF;

// The sums of all trees: u_e and v_e of every repetition.
fn load(table: &mut [u8], sums: &mut [u8], leaves: &[u8], s: Sizes)
    requires { LoadReady (alphabet_for s) (shape_for s) leaves.now table.old sums.old }
    ensures { Loaded (alphabet_for s) (shape_for s) leaves.now table.new sums.new }
{
    let w = leaf_bytes(s);
    tables::load_trees(
        &mut table[..BITS * w * LANES],
        &mut sums[..s.tau * w],
        leaves,
        s.tau,
        w,
        degree_of(s),
    );
}

// The first step (01): the sections C and d.
pub fn commit(out: &mut [u8], leaves: &[u8], witness: &[u8], s: Sizes)
    requires { CommitFacts (alphabet_for s) (shape_for s) leaves.now witness.now out.old }
    ensures { out.new ≡ commit_frame (alphabet_for s) (shape_for s) leaves.now witness.now }
{
    let mut table = [0u8; TABLE_ROOM];
    let mut sums = [0u8; SUMS_ROOM];
    load(&mut table, &mut sums, leaves, s);
    commit_into(out, witness, &sums, s);
}

// The second step (01): the sections ũ and Ṽ.
pub fn hash(out: &mut [u8], leaves: &[u8], matrix: &[u8], s: Sizes)
    requires { HashFacts (alphabet_for s) (shape_for s) leaves.now matrix.now out.old }
    ensures { out.new ≡ hash_frame (alphabet_for s) (shape_for s) leaves.now matrix.now }
{
    let mut table = [0u8; TABLE_ROOM];
    let mut sums = [0u8; SUMS_ROOM];
    load(&mut table, &mut sums, leaves, s);
    hash_into(out, matrix, &table, &sums, s);
}

// The third step (01): the sections QS0 and QS1.
pub fn batch(out: &mut [u8], key: &[u8], leaves: &[u8], witness: &[u8], batching: &[u8], s: Sizes)
    requires { BatchFacts (alphabet_for s) (shape_for s) key.now leaves.now witness.now batching.now out.old }
    ensures { out.new ≡ batch_frame (alphabet_for s) (shape_for s) leaves.now key.now witness.now batching.now }
{
    let mut space = [0u8; CELLS];
    let mut sums = [0u8; SUMS_ROOM];
    load(&mut space, &mut sums, leaves, s);
    batch_into(out, &mut space, key, witness, batching, &sums, s);
}

// The second and the third step, one after the other.
fn rest_into(
    out: &mut [u8],
    space: &mut [u8],
    key: &[u8],
    witness: &[u8],
    matrix: &[u8],
    batching: &[u8],
    sums: &[u8],
    s: Sizes,
)
    requires { RestReady (alphabet_for s) (shape_for s) key.now witness.now matrix.now batching.now space.old sums.now out.old }
    ensures { RestWritten (alphabet_for s) (shape_for s) key.now witness.now matrix.now batching.now
        space.old sums.now out.new }
{
    let split = hash_bytes(s);
    hash_into(&mut out[..split], matrix, space, sums, s);
    batch_into(&mut out[split..], space, key, witness, batching, sums, s);
}

// The three steps in one call (01): a whole proof.
pub fn prove(
    out: &mut [u8],
    key: &[u8],
    leaves: &[u8],
    witness: &[u8],
    matrix: &[u8],
    batching: &[u8],
    s: Sizes,
)
    requires { ProveFacts (alphabet_for s) (shape_for s) key.now leaves.now witness.now matrix.now batching.now out.old }
    ensures { out.new ≡ proof_frame (alphabet_for s) (shape_for s) leaves.now key.now witness.now matrix.now batching.now }
{
    let mut space = [0u8; CELLS];
    let mut sums = [0u8; SUMS_ROOM];
    load(&mut space, &mut sums, leaves, s);
    let split = commit_bytes(s);
    commit_into(&mut out[..split], witness, &sums, s);
    rest_into(
        &mut out[split..],
        &mut space,
        key,
        witness,
        matrix,
        batching,
        &sums,
        s,
    );
}
