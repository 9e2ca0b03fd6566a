// The sizes of a key, their limits, and the lengths that follow from them.
ghost use Rattle.std.specs.Prelude.{◌≡◌, true, ◌+◌, ◌*◌, ◌<◌, ◌≤◌, ◌^◌};
ghost use Rattle.protocol.specs.Strings.{bytes_for};
ghost use Rattle.algebra.specs.Coded.{Coded};
ghost use Rattle.protocol.specs.Alphabet.{Alphabet};
ghost use Rattle.protocol.specs.Setting.{served};
ghost use Rattle.protocol.specs.Shape.{within, limits, per_tree, mask_at, k_of, l_of, w_of};
ghost use Rattle.protocol.specs.Key.{key_lengths};
ghost use Rattle.protocol.specs.Sections.{lengths, commit_lengths, hash_lengths, batch_lengths};
ghost use Rattle.format.specs.Sizes.{setting_for, alphabet_for, shape_for, SizesOf};

use super::numbers::number2;
use field::{Gf16, Gf256};
use strings::BITS;

// n variables, m equations, τ repetitions, t hash rows; the degree of the field, and the symbols of the alphabet.
#[derive(Clone, Copy)]
pub struct Sizes {
    pub n: usize,
    pub m: usize,
    pub tau: usize,
    pub t: usize,
    pub degree: usize,
    pub alphabet: usize,
}

// The symbols of the one alphabet that is served: bits.
pub const BINARY: usize = 2;

// The limits of 01 and of requests 1 and 12, in one place.
pub const MOST_VARIABLES: usize = 320;

// A key may have no equations (request 12); of everything else it has at least one.
const LEAST_EQUATIONS: usize = 0;

pub const MOST_EQUATIONS: usize = 320;

pub const MOST_REPETITIONS: usize = 48;

pub const MOST_HASH_ROWS: usize = 288;

// What the largest key has: the coordinates that a row of H' covers, and the bytes of a leaf.
pub const MOST_HASHED: usize = MOST_VARIABLES + MOST_REPETITIONS * Gf256::DEGREE;

pub const MOST_LEAF: usize = (MOST_HASHED + MOST_HASH_ROWS + 7) / BITS;

// The bytes of n, m, τ, t at the start of a key.
pub const HEADER: usize = 8;

// The sizes in a key's header, with the degree that is named beside it. A key too short to have a header, which
// question 1 refuses, gives zeros.
pub fn sizes_of(key: &[u8], degree: u32) -> Sizes
    ensures { SizesOf key.now result × (result.degree ≡ degree) }
{
    let degree = degree as usize;
    if key.len() < HEADER {
        return Sizes {
            n: 0,
            m: 0,
            tau: 0,
            t: 0,
            degree,
            alphabet: BINARY,
        };
    }
    Sizes {
        n: number2(key, 0),
        m: number2(key, 2),
        tau: number2(key, 4),
        t: number2(key, 6),
        degree,
        alphabet: BINARY,
    }
}

// Question 16: is the degree one that is served?
pub fn degree_served(s: Sizes) -> bool
    ensures { result ≡ served (setting_for s) }
{
    let degree = s.degree;
    (degree == Gf256::DEGREE) | (degree == Gf16::DEGREE)
}

fn in_range(least: usize, most: usize, x: usize) -> bool
    ensures { result ≡ within least most x }
{
    (least <= x) & (x <= most)
}

// Question 2: are the sizes in range?
pub fn in_limits(s: Sizes) -> bool
    ensures { result ≡ limits (shape_for s) }
{
    let n = s.n;
    let m = s.m;
    let tau = s.tau;
    let t = s.t;
    in_range(1, MOST_VARIABLES, n)
        & in_range(LEAST_EQUATIONS, MOST_EQUATIONS, m)
        & in_range(1, MOST_REPETITIONS, tau)
        & in_range(1, MOST_HASH_ROWS, t)
}

// ⌈bits/8⌉, the bytes of a string of bits.
pub fn bytes_for(bits: usize) -> usize
    requires { bits + 7 < 2 ^ 64 }
    ensures { result ≡ bytes_for bits }
{
    (bits + 7) / BITS
}

// The degree of the field: as many mask coordinates has a repetition.
pub fn degree_of(s: Sizes) -> usize
    ensures { (result ≡ (alphabet_for s).masks) × (result ≤ 8) }
{
    field::degree_of(s.degree)
}

// The leaves of a tree: as many as the field has elements.
pub fn tree_leaves(s: Sizes) -> usize
    ensures { (result ≡ per_tree (alphabet_for s)) × (result ≤ 256) × (0 < result) }
{
    field::size_of(s.degree)
}

// The first mask coordinate of repetition e. Each repetition has its own mask, as many coordinates as the degree, and
// they stand one after another.
pub fn mask_at(s: Sizes, e: usize) -> usize
    requires { mask_at (alphabet_for s) (shape_for s) e < 2 ^ 64 }
    ensures { result ≡ mask_at (alphabet_for s) (shape_for s) e }
{
    s.n + e * degree_of(s)
}

// k = n + the masks of all repetitions: the coordinates that a row of H' covers.
pub fn hashed_bits(s: Sizes) -> usize
    requires { limits (shape_for s) ≡ true }
    ensures { result ≡ k_of (alphabet_for s) (shape_for s) }
{
    s.n + s.tau * degree_of(s)
}

// L = k + t: the coordinates of a leaf.
pub fn leaf_bits(s: Sizes) -> usize
    requires { limits (shape_for s) ≡ true }
    ensures { result ≡ l_of (alphabet_for s) (shape_for s) }
{
    hashed_bits(s) + s.t
}

// w = ⌈L/8⌉: the bytes of a leaf.
pub fn leaf_bytes(s: Sizes) -> usize
    requires { limits (shape_for s) ≡ true }
    ensures { result ≡ w_of (alphabet_for s) (shape_for s) }
{
    bytes_for(leaf_bits(s))
}

// ⌈n/8⌉: the bytes of a witness, of d, and of a row of A or b.
pub fn witness_bytes(s: Sizes) -> usize
    requires { limits (shape_for s) ≡ true }
    ensures { result ≡ bytes_for s.n }
{
    let n = s.n;
    bytes_for(n)
}

// The bytes of H': t rows of k bits.
pub fn hash_matrix_bytes(s: Sizes) -> usize
    requires { limits (shape_for s) ≡ true }
    ensures { result ≡ s.t * bytes_for (k_of (alphabet_for s) (shape_for s)) }
{
    s.t * bytes_for(hashed_bits(s))
}

// The bytes of χ: a column of m for each repetition.
pub fn batching_bytes(s: Sizes) -> usize
    requires { limits (shape_for s) ≡ true }
    ensures { result ≡ s.tau * s.m }
{
    s.tau * s.m
}

// The bytes of so many leaves for each repetition: those of a tree for the prover, one fewer for the verifier.
pub fn leaves_bytes(s: Sizes, per: usize) -> usize
    requires { (limits (shape_for s) ≡ true) × (per ≤ 256) }
    ensures { result ≡ s.tau * per * w_of (alphabet_for s) (shape_for s) }
{
    s.tau * per * leaf_bytes(s)
}

// The lengths of the key's sections A, b, y.
pub fn key_lengths(s: Sizes) -> [usize; 3]
    requires { limits (shape_for s) ≡ true }
    ensures { result ≡ key_lengths (alphabet_for s) (shape_for s) }
{
    let m = s.m;
    let row = witness_bytes(s);
    [m * s.n * row, m * row, bytes_for(m)]
}

// The lengths of the sections that the first step writes: C, d.
pub fn commit_lengths(s: Sizes) -> [usize; 2]
    requires { limits (shape_for s) ≡ true }
    ensures { result ≡ commit_lengths (alphabet_for s) (shape_for s) }
{
    [(s.tau - 1) * leaf_bytes(s), witness_bytes(s)]
}

// The lengths of the sections that the second step writes: ũ, Ṽ.
pub fn hash_lengths(s: Sizes) -> [usize; 2]
    requires { limits (shape_for s) ≡ true }
    ensures { result ≡ hash_lengths (alphabet_for s) (shape_for s) }
{
    let t = s.t;
    [bytes_for(t), s.tau * t]
}

// The lengths of the sections that the third step writes: QS0, QS1.
pub fn batch_lengths(s: Sizes) -> [usize; 2]
    requires { limits (shape_for s) ≡ true }
    ensures { result ≡ batch_lengths (alphabet_for s) (shape_for s) }
{
    [s.tau, s.tau]
}

// The lengths of a proof's six sections.
pub fn proof_lengths(s: Sizes) -> [usize; 6]
    requires { limits (shape_for s) ≡ true }
    ensures { result ≡ lengths (alphabet_for s) (shape_for s) }
{
    let first = commit_lengths(s);
    let second = hash_lengths(s);
    let tau = s.tau;
    [first[0], first[1], second[0], second[1], tau, tau]
}
