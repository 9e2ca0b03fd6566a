// The product check (01, verifier's rules): K_e, the left side in every repetition, and the right side, to which it is
// held. All of it is public.
#![tactic(auto)]

ghost use Rattle.std.specs.Prelude.{◌≡◌, true, ℕ, ◌+◌, ◌*◌, ◌<◌, ◌≤◌, length};
ghost use Rattle.std.specs.Int.Bits.{bit_xor};
ghost use Rattle.protocol.specs.Strings.{bit};
ghost use Rattle.protocol.specs.Alphabet.{elements_in};
ghost use Rattle.protocol.specs.Sections.{sections_in};
ghost use Rattle.strings.specs.Sums.{byte_at, xor_sum};
ghost use Rattle.lanes.specs.Lanes.{lanes, lane_at};
ghost use Rattle.format.specs.Sizes.{alphabet_for, shape_for};
ghost use Rattle.forms_columns.specs.Stacks.{coordinate_of, VectorsRoom};
ghost use Rattle.forms_batching.specs.Batched.{CellsRoom, VectorsNarrow};
ghost use Rattle.forms_batching.specs.Lines.{VectorsEnd};
ghost use Rattle.questions.specs.Facts.{KeyFacts, ProofOf};
ghost use Rattle.forms.specs.Batch.{TableNarrow};
ghost use Rattle.verifier_product.specs.Product.{KeyLanes, EquationsOf, value_byte, LeftSides, FirstInRow, SpaceRoom, FirstDiffers};

use format::sizes::{MOST_VARIABLES, Sizes};
use forms::batch::{Forms, batch_forms};
use forms_batching::stacks::{VECTORS, fill_vectors};
use lanes::LANES;
use sections::reader::Proof;

// Adds δ_e to coordinate c of each lane, where the bit is set.
fn add_bit(table: &mut [u8], c: usize, bit: u8, delta: &[u8; LANES])
    requires { (c * lanes + lanes ≤ length table.old) × (bit < 2) }
    ensures by_index { (e : ℕ) → e < lanes → lane_at table.new c e ≡ bit_xor (lane_at table.old c e) (bit * byte_at delta.now e) }
    ensures by_index_2 { (q e : ℕ) → (q ≡ c → ⊥) → e < lanes → lane_at table.new q e ≡ lane_at table.old q e }
{
    let mut row = *strings::row_of::<LANES>(table, c);
    lanes::add_masked(&mut row, bit, delta);
    let at = c * LANES;
    table[at..at + LANES].copy_from_slice(&row);
}

// W_e becomes K_e in its first n coordinates; the others stay, and with them the mask's.
fn add_difference(table: &mut [u8], d: &[u8], n: usize, delta: &[u8; LANES])
    requires { (n * lanes ≤ length table.old) × (n ≤ length d.now * 8) }
    ensures key_lanes { KeyLanes n d.now delta.now table.old table.new }
    ensures by_index { (c e : ℕ) → n ≤ c → e < lanes → lane_at table.new c e ≡ lane_at table.old c e }
{
    for c in 0..n {
        add_bit(table, c, strings::bit_at(d, c), delta);
    }
}

// Σ_i row_i·y_i, the y_i being bits.
fn weigh(row: &[u8], y: &[u8]) -> u8
    requires { length row.now ≤ length y.now * 8 }
    ensures { result ≡ xor_sum (length row.now) (λ i. byte_at row.now i * bit y.now i) }
{
    let mut sum: u8 = 0;
    for i in 0..row.len() {
        sum ^= row[i] * strings::bit_at(y, i);
    }
    sum
}

// out[e] = Σ_i χ(e, i)·y_i, for each repetition e.
fn batch_values(out: &mut [u8], y: &[u8], chi: &[u8], m: usize, tau: usize)
    requires { (tau ≤ length out.old) × (length chi.now ≡ tau * m) × (m ≤ length y.now * 8) }
    ensures { (e : ℕ) → e < tau → byte_at out.new e ≡ value_byte m chi.now y.now e }
{
    for e in 0..tau {
        out[e] = weigh(strings::row_at(chi, m, e), y);
    }
}

// Adds the left side of each repetition, but for its mask: the batched equations of the sections a, b, y of a key at
// the vector of the repetition. `cells` is space.
fn product_lanes(
    left: &mut [u8; LANES],
    cells: &mut [u8],
    a: &[u8],
    b: &[u8],
    y: &[u8],
    chi: &[u8],
    delta: &[u8; LANES],
    vectors: &[u8],
    s: Sizes,
)
    requires equations_of { EquationsOf (shape_for s) a.now b.now y.now chi.now }
    requires rooms { VectorsRoom vectors.now × VectorsEnd s.n s.tau vectors.now × CellsRoom cells.old × VectorsNarrow s.degree s.tau vectors.now }
    ensures { LeftSides s.degree (shape_for s) a.now b.now y.now chi.now delta.now (coordinate_of vectors.now)
        left.old left.new }
{
    let n = s.n;
    let m = s.m;
    let tau = s.tau;
    let degree = s.degree;
    let mut linear = [0u8; LANES];
    let mut values = [0u8; LANES];
    let mut square = [0u8; LANES];
    let zeros = [0u8; MOST_VARIABLES];
    let f = Forms {
        n,
        m,
        tau,
        polar: false,
        degree,
    };
    batch_forms(left, &mut linear, cells, a, b, &zeros, chi, vectors, f);
    batch_values(&mut values, y, chi, m, tau);
    lanes::accumulate(left, delta, &linear, degree);
    lanes::accumulate(&mut square, delta, delta, degree);
    lanes::accumulate(left, &square, &values, degree);
}

// The right side: the first repetition whose left side is not QS0_e + QS1_e·δ_e.
fn first_differing(
    left: &[u8],
    qs0: &[u8],
    qs1: &[u8],
    delta: &[u8],
    degree: usize,
) -> Option<usize>
    requires { (length delta.now ≤ length left.now) × (length qs0.now ≡ length delta.now) × (length qs1.now ≡ length delta.now) }
    ensures { FirstInRow degree left.now qs0.now qs1.now delta.now result }
{
    for e in 0..delta.len() {
        if left[e] != qs0[e] ^ field::multiply(degree, qs1[e], delta[e]) {
            return Some(e);
        }
    }
    None
}

// out[e] = δ_e, in a row of lanes.
fn load_challenge(out: &mut [u8], delta: &[u8])
    requires { length delta.now ≤ length out.old }
    ensures { (e : ℕ) → e < length delta.now → byte_at out.new e ≡ byte_at delta.now e }
{
    out[..delta.len()].copy_from_slice(delta);
}

// Question 15: the first repetition whose product differs. The space begins with the
// table of the W_e, which become K_e. Once the masks and the vectors are taken from it, it is space for the forms.
pub fn check_product<'a>(
    space: &mut [u8],
    key: &[u8],
    delta: &[u8],
    batching: &[u8],
    proof: Proof<'a>,
    s: Sizes,
) -> Option<usize>
    requires key_facts { KeyFacts (alphabet_for s) (shape_for s) key.now × ProofOf (alphabet_for s) (shape_for s) proof × (length delta.now ≡ s.tau) }
    requires batching_len { (length batching.now ≡ s.tau * s.m) × SpaceRoom (alphabet_for s) (shape_for s) space.old }
    requires delta_value { (elements_in (alphabet_for s) delta.now ≡ true) × (elements_in (alphabet_for s) batching.now ≡ true)
        × (elements_in (alphabet_for s) (sections_in (alphabet_for s) (shape_for s) proof.bytes.now).QS0 ≡ true) × TableNarrow (alphabet_for s) (shape_for s) space.old }
    ensures { FirstDiffers (alphabet_for s) (shape_for s) key.now delta.now batching.now proof.entry.bytes.now space.old result }
{
    let n = s.n;
    let tau = s.tau;
    let mut challenge = [0u8; LANES];
    let mut left = [0u8; LANES];
    let mut vectors = [0u8; VECTORS];
    load_challenge(&mut challenge, delta);
    add_difference(space, proof.d, n, &challenge);
    lanes::add_masks(&mut left, space, s);
    fill_vectors(&mut vectors, tau, space, n);
    product_lanes(
        &mut left,
        space,
        questions::key::section_a(key, s),
        questions::key::section_b(key, s),
        questions::key::section_y(key, s),
        batching,
        &challenge,
        &vectors,
        s,
    );
    first_differing(&left, proof.qs0, proof.qs1, delta, s.degree)
}
