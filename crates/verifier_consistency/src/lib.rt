// The consistency check (01, verifier's rules): H.W_e = Ṽ_e + δ_e·ũ.
#![tactic(auto)]

ghost use Rattle.std.specs.Prelude.{◌≡◌, true, List, ℕ, ◌*◌, ◌≤◌, eqb, length};
ghost use Rattle.protocol.specs.Alphabet.{elements_in};
ghost use Rattle.protocol.specs.Shape.{limits, w_of, most_hash_rows};
ghost use Rattle.protocol.specs.Sections.{sections_in};
ghost use Rattle.lanes.specs.Lanes.{lanes};
ghost use Rattle.format.specs.Sizes.{alphabet_for, shape_for};
ghost use Rattle.questions.specs.Facts.{HashForm, ProofOf};
ghost use Rattle.verifier_consistency.specs.Consistency.{BitMasks, RowsOf, row_consistent, FirstInRows, FirstInconsistent};

use format::sizes::{MOST_HASH_ROWS, Sizes};
use lanes::LANES;
use sections::reader::Proof;
use strings::MASK_BYTE;

// masks[ρ] is all ones where bit ρ of ũ is set, and 0 elsewhere.
fn fill_masks(masks: &mut [u8], u: &[u8])
    requires { length masks.old ≤ length u.now * 8 }
    ensures { BitMasks u.now masks.new }
{
    for i in 0..masks.len() {
        masks[i] = strings::bit_at(u, i) * MASK_BYTE;
    }
}

// 0 where each entry of a repetition's hash, one for each mask, is that of Ṽ plus δ times the bit of ũ. All are looked
// at, whatever is found, so that the loop is one of whole registers.
fn difference(hashed: &[u8], v: &[u8], masks: &[u8], delta: u8) -> u8
    requires { (length masks.now ≤ length hashed.now) × (length masks.now ≤ length v.now) }
    ensures { (u : List ℕ) → BitMasks u masks.now → eqb result 0 ≡ row_consistent hashed.now v.now u delta (length masks.now) }
{
    let mut found = 0u8;
    for rho in 0..masks.len() {
        found |= hashed[rho] ^ (v[rho] ^ (delta & masks[rho]));
    }
    found
}

// The first repetition that is not consistent, with the masks made.
fn first_of(hashed: &[u8], v: &[u8], masks: &[u8], delta: &[u8], t: usize) -> Option<usize>
    requires { RowsOf delta.now t hashed.now v.now × (length masks.now ≡ t) }
    ensures { (u : List ℕ) → BitMasks u masks.now → FirstInRows hashed.now v.now u delta.now t result }
{
    for e in 0..delta.len() {
        let hashed_e = strings::row_at(hashed, t, e);
        let v_e = strings::row_at(v, t, e);
        if difference(hashed_e, v_e, masks, delta[e]) != 0 {
            return Some(e);
        }
    }
    None
}

// The same, the masks yet to be made.
fn first_masked(
    masks: &mut [u8],
    hashed: &[u8],
    v: &[u8],
    u: &[u8],
    delta: &[u8],
    t: usize,
) -> Option<usize>
    requires { RowsOf delta.now t hashed.now v.now × (length masks.old ≡ t) × (t ≤ length u.now * 8) }
    ensures { FirstInRows hashed.now v.now u.now delta.now t result }
{
    fill_masks(masks, u);
    first_of(hashed, v, masks, delta, t)
}

// The first repetition that is not consistent.
fn first_inconsistent(hashed: &[u8], v: &[u8], u: &[u8], delta: &[u8], t: usize) -> Option<usize>
    requires { RowsOf delta.now t hashed.now v.now × (t ≤ most_hash_rows) × (t ≤ length u.now * 8) }
    ensures { FirstInRows hashed.now v.now u.now delta.now t result }
{
    // No heap: room for the largest key, of which the front is used.
    let mut masks = [0u8; MOST_HASH_ROWS];
    first_masked(&mut masks[..t], hashed, v, u, delta, t)
}

// Question 14 in a buffer of exact length.
fn check_hashed<'a>(
    hashed: &mut [u8],
    table: &[u8],
    matrix: &[u8],
    delta: &[u8],
    proof: Proof<'a>,
    s: Sizes,
) -> Option<usize>
    requires s_value { (limits (shape_for s) ≡ true) × HashForm (alphabet_for s) (shape_for s) matrix.now
        × ProofOf (alphabet_for s) (shape_for s) proof × (length delta.now ≡ s.tau) }
    requires table_len { (length table.now ≡ 8 * w_of (alphabet_for s) (shape_for s) * lanes) × (length hashed.old ≡ s.tau * s.t) }
    requires delta_value { (elements_in (alphabet_for s) delta.now ≡ true) × (elements_in (alphabet_for s) (sections_in (alphabet_for s) (shape_for s) proof.bytes.now).Ṽ ≡ true) }
    ensures { FirstInconsistent (alphabet_for s) (shape_for s) delta.now matrix.now proof.entry.bytes.now table.now result }
{
    let t = s.t;
    hash::vectors::hash_all(hashed, matrix, table, s);
    first_inconsistent(hashed, proof.v, proof.u, delta, t)
}

// Question 14: the first repetition that is not consistent.
pub fn check_consistency<'a>(
    table: &[u8],
    matrix: &[u8],
    delta: &[u8],
    proof: Proof<'a>,
    s: Sizes,
) -> Option<usize>
    requires s_value { (limits (shape_for s) ≡ true) × HashForm (alphabet_for s) (shape_for s) matrix.now
        × ProofOf (alphabet_for s) (shape_for s) proof × (length delta.now ≡ s.tau) }
    requires table_len { length table.now ≡ 8 * w_of (alphabet_for s) (shape_for s) * lanes }
    requires delta_value { (elements_in (alphabet_for s) delta.now ≡ true) × (elements_in (alphabet_for s) (sections_in (alphabet_for s) (shape_for s) proof.bytes.now).Ṽ ≡ true) }
    ensures { FirstInconsistent (alphabet_for s) (shape_for s) delta.now matrix.now proof.entry.bytes.now table.now result }
{
    let tau = s.tau;
    let t = s.t;
    // No heap: room for the largest key, of which the front is used.
    let mut hashed = [0u8; LANES * MOST_HASH_ROWS];
    check_hashed(&mut hashed[..tau * t], table, matrix, delta, proof, s)
}
