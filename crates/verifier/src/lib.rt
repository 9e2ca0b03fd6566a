// The verifier: its questions on form, and then 14 and 15, 14 over all repetitions before 15 over any. All that it is
// lent is public.
#![tactic(auto)]

ghost use Rattle.std.specs.Prelude.{◌≡◌};
ghost use Rattle.protocol.specs.Setting.{setting};
ghost use Rattle.protocol.specs.Answers.{ask};
ghost use Rattle.protocol.specs.Calls.{verify_answer};
ghost use Rattle.format.specs.Sizes.{alphabet_for, shape_for};
ghost use Rattle.format.specs.Verdict.{answer_of, told};
ghost use Rattle.questions.specs.Facts.{ProofOf};
ghost use Rattle.verifier.specs.Given.{VerifyFacts, check_questions};
ghost use Rattle.verifier_product.specs.Product.{SpaceRoom};

use format::sizes::{Sizes, degree_of, leaf_bytes, sizes_of};
use format::verdicts::answer;
use format::{Reason, Refusal, Verdict};
use forms_batching::panels::CELLS;
use lanes::LANES;
use questions::calls::verify_inputs;
use questions::key::key_form;
use questions_proof::proof::proof_form;
use sections::reader::Proof;
use strings::BITS;
use verifier_consistency::check_consistency;
use verifier_product::check_product;

// The space of a call, for the largest key, since there is no heap. It is first the table of the W_e, and then the
// cells of the forms. These are longer than the longest table.
const SPACE: usize = CELLS;

// Questions 14 and 15, in that space.
fn ask_checks<'a>(
    space: &mut [u8],
    key: &[u8],
    delta: &[u8],
    matrix: &[u8],
    batching: &[u8],
    opened: &[u8],
    proof: Proof<'a>,
    s: Sizes,
) -> Result<(), Refusal>
    requires verify_facts { VerifyFacts (alphabet_for s) (shape_for s) key.now delta.now matrix.now batching.now opened.now proof.bytes.now × ProofOf (alphabet_for s) (shape_for s) proof }
    requires space_room { SpaceRoom (alphabet_for s) (shape_for s) space.old }
    ensures { told result ≡ ask (check_questions (alphabet_for s) (shape_for s)
        key.now delta.now matrix.now batching.now opened.now proof.entry.bytes.now) }
{
    let tau = s.tau;
    let w = leaf_bytes(s);
    let len = BITS * w * LANES;
    let table = &mut space[..len];
    tables_opened::load_opened(table, opened, delta, proof.c, tau, w, degree_of(s));
    let inconsistent = check_consistency(&space[..len], matrix, delta, proof, s);
    answer(Reason::Inconsistent, inconsistent)?;
    let differing = check_product(space, key, delta, batching, proof, s);
    answer(Reason::ProductDiffers, differing)
}

// Questions 14 and 15.
fn both_checks<'a>(
    key: &[u8],
    delta: &[u8],
    matrix: &[u8],
    batching: &[u8],
    opened: &[u8],
    proof: Proof<'a>,
    s: Sizes,
) -> Result<(), Refusal>
    requires { VerifyFacts (alphabet_for s) (shape_for s) key.now delta.now matrix.now batching.now opened.now proof.bytes.now × ProofOf (alphabet_for s) (shape_for s) proof }
    ensures { told result ≡ ask (check_questions (alphabet_for s) (shape_for s)
        key.now delta.now matrix.now batching.now opened.now proof.entry.bytes.now) }
{
    let mut space = [0u8; SPACE];
    ask_checks(&mut space, key, delta, matrix, batching, opened, proof, s)
}

// The verifier's questions: 16, 1 to 6, 17, 7, 8, 12, 13, 18, 14, 15.
fn try_verify(
    key: &[u8],
    degree: u32,
    delta: &[u8],
    matrix: &[u8],
    batching: &[u8],
    opened: &[u8],
    proof: &[u8],
) -> Result<(), Refusal>
    ensures { told result ≡ verify_answer (setting degree) key.now delta.now matrix.now batching.now opened.now proof.now }
{
    let s = sizes_of(key, degree);
    key_form(key, s)?;
    verify_inputs(delta, matrix, batching, opened, s)?;
    let proof = proof_form(proof, s)?;
    both_checks(key, delta, matrix, batching, opened, proof, s)
}

// The verifier (01). It writes nothing.
pub fn verify(
    key: &[u8],
    degree: u32,
    delta: &[u8],
    matrix: &[u8],
    batching: &[u8],
    opened: &[u8],
    proof: &[u8],
) -> Verdict
    ensures { answer_of result ≡ verify_answer (setting degree) key.now delta.now matrix.now batching.now opened.now proof.now }
{
    Verdict::from(try_verify(key, degree, delta, matrix, batching, opened, proof))
}
