// The proof: questions 12 and 13 of 01 and 18 of request 3.
ghost use Rattle.std.specs.Prelude.{◌≡◌, true};
ghost use Rattle.protocol.specs.Shape.{limits};
ghost use Rattle.protocol.specs.Sections.{sections_in};
ghost use Rattle.protocol.specs.Questions.{proof_spare, proof_elements};
ghost use Rattle.format.specs.Sizes.{alphabet_for, shape_for};
ghost use Rattle.questions.specs.Facts.{ProofOf, ProofAsked};

use format::sizes::{Sizes, leaf_bits, proof_lengths};
use format::{Reason, Refusal, ask};
use rows::elements::elements;
use rows::spare::{row_spare, rows_spare};
use sections::reader::{Proof, read_sections};

// Question 13: are the spare bits of C, d, ũ 0?
pub fn proof_spare<'a>(proof: Proof<'a>, s: Sizes) -> bool
    requires { (limits (shape_for s) ≡ true) × ProofOf (alphabet_for s) (shape_for s) proof }
    ensures { result ≡ proof_spare (alphabet_for s) (shape_for s) (sections_in (alphabet_for s) (shape_for s) proof.entry.bytes.now) }
{
    let n = s.n;
    let t = s.t;
    rows_spare(proof.c, leaf_bits(s), s.tau - 1) & row_spare(proof.d, n) & row_spare(proof.u, t)
}

// Question 18: is each byte of Ṽ, QS0 and QS1 an element of the field?
pub fn proof_elements<'a>(proof: Proof<'a>, s: Sizes) -> bool
    requires { ProofOf (alphabet_for s) (shape_for s) proof }
    ensures { result ≡ proof_elements (alphabet_for s) (shape_for s) (sections_in (alphabet_for s) (shape_for s) proof.entry.bytes.now) }
{
    let degree = s.degree;
    elements(proof.v, degree) & elements(proof.qs0, degree) & elements(proof.qs1, degree)
}

// Questions 12, 13 and 18: the whole of 12 comes before 13. Where all get a yes, it gives the proof with its sections.
pub fn proof_form<'a>(proof: &'a [u8], s: Sizes) -> Result<Proof<'a>, Refusal>
    requires { limits (shape_for s) ≡ true }
    ensures { ProofAsked (alphabet_for s) (shape_for s) proof.now result }
{
    let lengths = proof_lengths(s);
    let proof = read_sections(proof, &lengths)?;
    ask(proof_spare(proof, s), Reason::ProofSpareBit)?;
    ask(proof_elements(proof, s), Reason::ProofElement)?;
    Ok(proof)
}
