// The vectors of all repetitions side by side: byte c·LANES + e of a table is coordinate c of the vector of
// repetition e. A table, and what is computed from it, is secret: no branch and no index goes by it.
#![tactic(auto)]

ghost use Rattle.std.specs.Prelude.{◌≡◌, ℕ, ◌+◌, ◌*◌, ◌<◌, ◌≤◌, length};
ghost use Rattle.std.specs.Int.Bits.{bit_xor};
ghost use Rattle.galois.specs.Degrees.{field_of, degree_of};
ghost use Rattle.strings.specs.Sums.{byte_at};
ghost use Rattle.lanes.specs.Lanes.{lanes, lane_at, LanesAdded, ProductsAdded, mask_lane, mask_bits, first_mask, MasksIn, MaskBitsIn};

use field::{Field, Gf16, Gf256};
use format::Sizes;
use format::sizes::{MOST_REPETITIONS, mask_at};
use strings::MASK_BYTE;

// As many as a key may have repetitions (01: 1..48). Lanes from a key's own number on hold anything. The stride is
// fixed, so that loops over it have a constant length.
pub const LANES: usize = MOST_REPETITIONS;

// n variables, m equations, tau repetitions; the degree of the field.
#[derive(Clone, Copy)]
pub struct Dimensions {
    pub n: usize,
    pub m: usize,
    pub tau: usize,
    pub degree: usize,
}

// acc[e] ^= f[e]·t[e] in the field F, for each lane.
fn accumulate_in<F: Field>(acc: &mut [u8; LANES], f: &[u8; LANES], t: &[u8; LANES])
    ensures { ProductsAdded F.coded f.now t.now acc.old acc.new }
{
    for e in 0..LANES {
        acc[e] ^= F::multiply(f[e], t[e]);
    }
}

// acc[e] ^= f[e]·t[e] in the field of the degree, for each lane. Both factors vary with e: no mask is the same for a
// whole loop, which the compiler could make a branch. The degree is public, and each field has its own loop.
pub fn accumulate(acc: &mut [u8; LANES], f: &[u8; LANES], t: &[u8; LANES], degree: usize)
    ensures { ProductsAdded (field_of degree) f.now t.now acc.old acc.new }
{
    if degree == Gf16::DEGREE {
        accumulate_in::<Gf16>(acc, f, t);
    } else {
        accumulate_in::<Gf256>(acc, f, t);
    }
}

// acc[e] ^= src[e] or 0, by a secret bit: through a mask. The caller reads the bit from memory, where the compiler
// cannot see that it is a bit and make the mask a branch.
pub fn add_masked(acc: &mut [u8; LANES], bit: u8, src: &[u8; LANES])
    requires { bit < 2 }
    ensures { (e : ℕ) → e < lanes → byte_at acc.new e ≡ bit_xor (byte_at acc.old e) (bit * byte_at src.now e) }
{
    let mask = bit * MASK_BYTE;
    for e in 0..LANES {
        acc[e] ^= src[e] & mask;
    }
}

// Mask coordinate i of each repetition, in its lane.
fn mask_row(table: &[u8], i: usize, s: Sizes) -> [u8; LANES]
    requires { MasksIn s table.now × (i < degree_of s.degree) }
    ensures { (e : ℕ) → e < s.tau → byte_at result e ≡ lane_at table.now (first_mask s e + i) e }
{
    let mut row = [0u8; LANES];
    for e in 0..s.tau {
        row[e] = table[(mask_at(s, e) + i) * LANES + e];
    }
    row
}

// acc[e] ^= Σ α^i·T[at + i][e], where `at` is the first mask coordinate of repetition e: its mask A*₀ (01, prover's
// rules).
pub fn add_masks(acc: &mut [u8; LANES], table: &[u8], s: Sizes)
    requires { MasksIn s table.now }
    ensures { LanesAdded s.tau (λ e. mask_lane s.degree table.now (first_mask s e) e) acc.old acc.new }
{
    let degree = s.degree;
    for i in 0..field::degree_of(degree) {
        let weight = [field::mask_element(degree, i); LANES];
        let row = mask_row(table, i, s);
        accumulate(acc, &weight, &row, degree);
    }
}

// Σ α^i·u[at + i].
fn mask_byte(u: &[u8], at: usize, degree: usize) -> u8
    requires { (at + degree_of degree ≤ length u.now * 8) × (at < 65536) }
    ensures { result ≡ mask_bits degree u.now at }
{
    let mut sum: u8 = 0;
    for i in 0..field::degree_of(degree) {
        let weight = field::mask_element(degree, i);
        sum ^= field::multiply(degree, weight, strings::bit_at(u, at + i));
    }
    sum
}

// acc[e] ^= Σ α^i·u[at + i], where `at` is the first mask coordinate of repetition e: its mask A*₁ (01, prover's
// rules).
pub fn add_mask_bits(acc: &mut [u8; LANES], u: &[u8], s: Sizes)
    requires { MaskBitsIn s u.now }
    ensures { LanesAdded s.tau (λ e. mask_bits s.degree u.now (first_mask s e)) acc.old acc.new }
{
    for e in 0..s.tau {
        acc[e] ^= mask_byte(u, mask_at(s, e), s.degree);
    }
}
