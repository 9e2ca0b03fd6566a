// The columns of products that stand in stacks, for all repetitions side by side, and their products with vectors. All
// of it is secret but the places, and whether the polar form is asked for.
#![tactic(auto)]

ghost use Rattle.std.specs.Prelude.{◌≡◌, true, false, ℕ, ◌+◌, ◌*◌, ◌<◌, ◌≤◌, length};
ghost use Rattle.strings.specs.Sums.{byte_at, bit_of, xor_sum};
ghost use Rattle.strings.specs.Rows.{RowsKept};
ghost use Rattle.lanes.specs.Lanes.{lanes, lane_at, LanesAdded};
ghost use Rattle.chunks.specs.Chunks.{chunk};
ghost use Rattle.forms_columns.specs.Stacks.{byte_product, planes, column_of, sixteen_of, value_of, coordinate_of, Weights, IsBits, StacksFit, PanelFits};

use chunks::CHUNK;
use field::Gf256;
use lanes::LANES;
use strings::{BITS, BYTE_VALUES, MASK_BYTE, SIXTEEN, word_at};

pub mod fronts;

// The planes of a stack: as many as a product of two elements of the larger field has coefficients before it is
// reduced.
pub const PLANES: usize = 2 * Gf256::DEGREE - 1;

// The bytes of a stack.
pub const STACK: usize = PLANES * CHUNK;

// A byte of each plane of a stack, for all repetitions.
const GATHERED: usize = PLANES * LANES;

// Sixteen coordinates of all repetitions.
pub const FRONT: usize = SIXTEEN * LANES;

// The sum of sixteen bytes from `at` on, in words: halves are added until one byte is left.
pub fn sum_at(s: &[u8], at: usize) -> u8
    requires { at + 16 ≤ length s.now }
    ensures { result ≡ xor_sum 16 (λ f. byte_at s.now (at + f)) }
{
    let all = word_at(s, at) ^ word_at(s, at + 8);
    let half = all ^ (all >> 32);
    let quarter = half ^ (half >> 16);
    ((quarter ^ (quarter >> 8)) % BYTE_VALUES) as u8
}

// out[e] = the sum of sixteen bytes from `at` on in stack e.
fn gather_row(out: &mut [u8], stacks: &[u8], at: usize, tau: usize)
    requires { (tau ≤ length out.old) × StacksFit tau stacks.now × (at + 16 ≤ planes * chunk) }
    ensures { (e : ℕ) → e < tau → byte_at out.new e ≡ sixteen_of stacks.now e at }
{
    for e in 0..tau {
        out[e] = sum_at(stacks, e * STACK + at);
    }
}

// Row s of the planes' bytes.
fn gather_at(rows: &mut [u8], s: usize, stacks: &[u8], at: usize, tau: usize)
    requires { (s * lanes + lanes ≤ length rows.old) × (tau ≤ lanes) × StacksFit tau stacks.now × (at + 16 ≤ planes * chunk) }
    ensures by_index { (e : ℕ) → e < tau → lane_at rows.new s e ≡ sixteen_of stacks.now e at }
    ensures rows_kept { RowsKept lanes s rows.old rows.new }
{
    let from = s * LANES;
    gather_row(&mut rows[from..from + LANES], stacks, at, tau);
}

// The planes of all repetitions, each the sum of its sixteen bytes of half h.
fn gather(rows: &mut [u8; GATHERED], stacks: &[u8], h: usize, tau: usize)
    requires { (tau ≤ lanes) × StacksFit tau stacks.now × (h < 2) }
    ensures { (s e : ℕ) → s < planes → e < tau → lane_at rows.new s e ≡ sixteen_of stacks.now e (s * chunk + h * 16) }
{
    for s in 0..PLANES {
        gather_at(rows, s, stacks, s * CHUNK + h * SIXTEEN, tau);
    }
}

// u[e] ^= weight where bit z of row[e] is set: by a mask.
fn add_weighted(u: &mut [u8; LANES], row: &[u8; LANES], z: usize, weight: u8)
    requires { z < 8 }
    ensures { LanesAdded lanes (λ e. bit_of (byte_at row.now e) z * weight) u.old u.new }
{
    for e in 0..LANES {
        u[e] ^= weight & ((row[e] >> z) % 2 * MASK_BYTE);
    }
}

// The powers of α, one for each plane. They are lent to `weigh`, which would else make them anew for each column.
fn weights_of(degree: usize) -> [u8; PLANES]
    ensures { Weights degree result }
{
    let mut weights = [0u8; PLANES];
    let mut weight: u8 = 1;
    for s in 0..PLANES {
        weights[s] = weight;
        weight = field::multiply(degree, 2, weight);
    }
    weights
}

// The value at bit z of the planes of each repetition, in its lane.
fn weigh(rows: &[u8; GATHERED], z: usize, weights: &[u8; PLANES]) -> [u8; LANES]
    requires { z < 8 }
    ensures { (d e : ℕ) → Weights d weights.now → e < lanes → byte_at result e ≡ value_of d rows.now z e }
{
    let mut u = [0u8; LANES];
    for s in 0..PLANES {
        add_weighted(&mut u, strings::row_of::<LANES>(rows, s), z, weights[s]);
    }
    u
}

// acc[e] ^= coordinate k of the front of repetition e, times u[e].
fn add_product(acc: &mut [u8; LANES], k: usize, front: &[u8; FRONT], u: &[u8; LANES], degree: usize)
    requires { k < 16 }
    ensures { LanesAdded lanes (λ e. byte_product degree (lane_at front.now k e) (byte_at u.now e)) acc.old acc.new }
{
    lanes::accumulate(acc, strings::row_of::<LANES>(front, k), u, degree);
}

// Adds u times bit c of xs to mid, where the polar form is asked for. The flag is no Option of the bits: they are there
// without it too, and what it leaves as it was would be said by cases of the Option in each contract.
fn add_polar(mid: &mut [u8; LANES], u: &[u8; LANES], c: usize, xs: &[u8; SIXTEEN], polar: bool)
    requires { (c < 16) × (byte_at xs.now c < 2) }
    ensures lanes_added { polar ≡ true → LanesAdded lanes (λ e. byte_at xs.now c * byte_at u.now e) mid.old mid.new }
    ensures mid_unchanged { polar ≡ false → mid.new ≡ mid.old }
{
    if polar {
        lanes::add_masked(mid, xs[c], u);
    }
}

// Column z of half h of a panel is bit z of the planes. Adds each of the eight, times its coordinate of the front, to
// quad; and, where the polar form is asked for, times its bit of xs, to mid.
fn add_columns(
    quad: &mut [u8; LANES],
    mid: &mut [u8; LANES],
    rows: &[u8; GATHERED],
    h: usize,
    front: &[u8; FRONT],
    xs: &[u8; SIXTEEN],
    polar: bool,
    weights: &[u8; PLANES],
    degree: usize,
)
    requires { IsBits xs.now × Weights degree weights.now × (h < 2) }
    ensures lanes_added { LanesAdded lanes (λ e. xor_sum 8 (λ z. byte_product degree (lane_at front.now (h * 8 + z) e) (value_of degree rows.now z e)))
        quad.old quad.new }
    ensures lanes_added_2 { polar ≡ true → LanesAdded lanes (λ e. xor_sum 8 (λ z. byte_at xs.now (h * 8 + z) * value_of degree rows.now z e))
        mid.old mid.new }
    ensures mid_unchanged { polar ≡ false → mid.new ≡ mid.old }
{
    for z in 0..BITS {
        let k = h * BITS + z;
        let u = weigh(rows, z, weights);
        add_product(quad, k, front, &u, degree);
        add_polar(mid, &u, k, xs, polar);
    }
}

// The sixteen columns of a panel of the stacks: times their coordinates of the vectors to quad; and times their bits of
// xs to mid, where the polar form is asked for. Lanes from tau on hold anything afterwards.
pub fn finish(
    quad: &mut [u8; LANES],
    mid: &mut [u8; LANES],
    stacks: &[u8],
    panel: usize,
    tau: usize,
    vectors: &[u8],
    xs: &[u8],
    polar: bool,
    degree: usize,
)
    requires { PanelFits stacks.now panel tau vectors.now xs.now }
    ensures lanes_added { LanesAdded tau (λ e. xor_sum 16 (λ s. byte_product degree (coordinate_of vectors.now e (panel * 16 + s)) (column_of degree stacks.now e s)))
        quad.old quad.new }
    ensures lanes_added_2 { polar ≡ true → LanesAdded tau (λ e. xor_sum 16 (λ s. byte_at xs.now (panel * 16 + s) * column_of degree stacks.now e s))
        mid.old mid.new }
    ensures mid_unchanged { polar ≡ false → mid.new ≡ mid.old }
{
    let mut front = [0u8; FRONT];
    fronts::fill_front(&mut front, vectors, panel * SIXTEEN, tau);
    let weights = weights_of(degree);
    let bits = strings::row_of::<SIXTEEN>(xs, panel);
    for h in 0..2 {
        let mut rows = [0u8; GATHERED];
        gather(&mut rows, stacks, h, tau);
        add_columns(quad, mid, &rows, h, &front, bits, polar, &weights, degree);
    }
}
