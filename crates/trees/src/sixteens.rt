// The sums of one tree, sixteen bytes of every leaf at a time: these stay in a register over all leaves, and two
// additions are made for a leaf.
//
// As in the sums row by row, plane p takes the running sum of the leaves where bit p of the leaf's number changes from
// j to j + 1. These bits are the lowest ones, up to some p, so that the running sum is held for the highest of them
// alone, and the held sums are added up at the end. Row k of what is held has the sums for p = 8 - k, and row 0 those
// for all planes: plane p is the sum of the rows 0, .., 8 - p. Where no leaf is left out, leaves are taken by four, and
// the rows of planes 0 and 1 stay in registers too (`fours`).
ghost use Rattle.std.specs.Prelude.{◌≡◌, cond, ℕ, ◌+◌, ◌*◌, ◌-◌, ◌<◌, ◌≤◌, ltb, length};
ghost use Rattle.std.specs.Int.Bits.{bit_xor};
ghost use Rattle.protocol.specs.Leaves.{place};
ghost use Rattle.strings.specs.Sums.{byte_at, bit_of};
ghost use Rattle.trees.specs.Trees.{leaf_byte, TreeFits, TreeSummed};
ghost use Rattle.trees.specs.Partial.{held_plane, RunningLeaves};

use super::fours::{Run, hold_fours};
use super::opened_leaf;
use field::Gf256;
use strings::{SIXTEEN, add_at, xor_row};

// A row for each plane, and one.
pub const HELD: usize = (Gf256::DEGREE + 1) * SIXTEEN;

// out[from + i] = sum[i], for each i. A loop, and not copy_from_slice: that asks at run time whether the two overlap,
// so that sum leaves its register, and the leaf sums take 2 to 3 % more.
fn put_sixteen(out: &mut [u8], from: usize, sum: &[u8; SIXTEEN])
    requires { from + 16 ≤ length out.old }
    ensures by_index { (i : ℕ) → i < 16 → byte_at out.new (from + i) ≡ byte_at sum.now i }
    ensures by_index_2 { (i : ℕ) → (from ≤ i → i < from + 16 → ⊥) → byte_at out.new i ≡ byte_at out.old i }
{
    for i in 0..SIXTEEN {
        out[from + i] = sum[i];
    }
}

// The row that takes the running sum of the leaves up to j: the bits that change from j to j + 1 are those up to the
// zeros at the end of j + 1.
pub fn held_row(j: usize) -> usize
    requires { j < 65536 }
    ensures upper_bound { result ≤ 8 }
    ensures by_index { (p : ℕ) → p < 8 → bit_of (bit_xor j (j + 1)) p ≡ cond (ltb result (8 + 1 - p)) 1 0 }
{
    let zeros = (j + 1).trailing_zeros() as usize;
    Gf256::DEGREE - zeros.min(Gf256::DEGREE)
}

// Adds sixteen bytes of leaf j, from `at` on, and nothing for the leaf that is left out.
fn add_part(sum: &mut [u8; SIXTEEN], tree: &[u8], w: usize, delta: usize, j: usize, at: usize)
    requires { ((j ≡ delta → ⊥) → place delta j * w + w ≤ length tree.now) × (at + 16 ≤ w) }
    ensures { (b : ℕ) → b < 16 → byte_at sum.new b ≡ bit_xor (byte_at sum.old b) (leaf_byte tree.now w delta j (at + b)) }
{
    if j != delta {
        add_at(sum, opened_leaf(tree, w, delta, j), at);
    }
}

// The running sum of the leaves from `from` on and below `to`, and what is held for the planes, one leaf after the
// other.
fn hold_leaves(
    sum: &mut [u8; SIXTEEN],
    held: &mut [u8; HELD],
    tree: &[u8],
    delta: usize,
    w: usize,
    at: usize,
    from: usize,
    to: usize,
)
    requires { (from ≤ to) × (to < 65536) × (at + 16 ≤ w) × TreeFits tree.now w delta to }
    ensures { RunningLeaves tree.now w delta at 8 sum.old held.old from
        → RunningLeaves tree.now w delta at 8 sum.new held.new to }
{
    for j in from..to {
        add_part(sum, tree, w, delta, j, at);
        xor_row(held, held_row(j), sum);
    }
}

// The running sum of all leaves, and what is held for eight planes, from 0: by four before the leaf that is left out
// and after it, and one by one the four that have it, and those at the end. Of a full tree of whole fours nothing is
// left after the first. The planes are eight at either degree: a constant here is one in the loops.
fn hold(
    sum: &mut [u8; SIXTEEN],
    held: &mut [u8; HELD],
    tree: &[u8],
    count: usize,
    delta: usize,
    w: usize,
    at: usize,
)
    requires fits { (count < 65536) × (at + 16 ≤ w) × TreeFits tree.now w delta count }
    requires nothing { ((i : ℕ) → i < 16 → byte_at sum.old i ≡ 0) × ((i : ℕ) → i < 144 → byte_at held.old i ≡ 0) }
    ensures { RunningLeaves tree.now w delta at 8 sum.new held.new count }
{
    let cut = delta.min(count) / 4 * 4;
    let next = count.min(cut + 4);
    let end = next + (count - next) / 4 * 4;
    let before = Run {
        at,
        skip: 0,
        from: 0,
        to: cut,
    };
    hold_fours(sum, held, tree, w, before);
    if cut < count {
        let after = Run {
            at,
            skip: 1,
            from: next,
            to: end,
        };
        hold_leaves(sum, held, tree, delta, w, at, cut, next);
        hold_fours(sum, held, tree, w, after);
        hold_leaves(sum, held, tree, delta, w, at, end, count);
    }
}

// Sixteen bytes of plane p, from `at` on, where p is one of the r planes.
fn put_plane(planes: &mut [u8], p: usize, r: usize, w: usize, at: usize, sum: &[u8; SIXTEEN])
    requires { (length planes.old ≡ r * w) × (at + 16 ≤ w) }
    ensures b_after { p < r → (b : ℕ) → b < 16 → byte_at planes.new (p * w + at + b) ≡ byte_at sum.now b }
    ensures by_index { (i : ℕ) → (p * w + at ≤ i → i < p * w + at + 16 → ⊥) → byte_at planes.new i ≡ byte_at planes.old i }
{
    if p < r {
        put_sixteen(planes, p * w + at, sum);
    }
}

// Sixteen bytes of each of r planes, from `at` on: the sums of the first rows of what is held for eight.
fn put_planes(planes: &mut [u8], held: &[u8; HELD], r: usize, w: usize, at: usize)
    requires { (length planes.old ≡ r * w) × (r ≤ 8) × (at + 16 ≤ w) }
    ensures by_index { (p b : ℕ) → p < r → b < 16 → byte_at planes.new (p * w + (at + b)) ≡ held_plane held.now 8 p b }
    ensures by_index_2 { (p b : ℕ) → p < r → b < at → byte_at planes.new (p * w + b) ≡ byte_at planes.old (p * w + b) }
{
    let mut sum = [0u8; SIXTEEN];
    add_at(&mut sum, held, 0);
    for k in 0..Gf256::DEGREE {
        add_at(&mut sum, held, (k + 1) * SIXTEEN);
        put_plane(planes, Gf256::DEGREE - 1 - k, r, w, at, &sum);
    }
}

// Sixteen bytes of u and of each plane, from `at` on. Those before are left.
fn sum_sixteen(
    u: &mut [u8],
    planes: &mut [u8],
    r: usize,
    tree: &[u8],
    count: usize,
    delta: usize,
    w: usize,
    at: usize,
)
    requires u_len { (length u.old ≡ w) × (length planes.old ≡ r * w) × (r ≤ 8) × (count < 65536) × (at + 16 ≤ w) × TreeFits tree.now w delta count }
    requires by_index { (p : ℕ) → p < r → bit_of count p ≡ 0 }
    ensures { (n : ℕ) → at ≤ n → TreeSummed tree.now w delta count r u.old planes.old n
        → TreeSummed tree.now w delta count r u.new planes.new (at + 16) }
{
    let mut sum = [0u8; SIXTEEN];
    let mut held = [0u8; HELD];
    hold(&mut sum, &mut held, tree, count, delta, w, at);
    put_sixteen(u, at, &sum);
    put_planes(planes, &held, r, w, at);
}

// `tree_sums` of leaves of sixteen bytes or more. The last sixteen may have bytes in common with those before.
pub fn sum_sixteens(
    u: &mut [u8],
    planes: &mut [u8],
    r: usize,
    tree: &[u8],
    count: usize,
    delta: usize,
    w: usize,
)
    requires u_len { (length u.old ≡ w) × (length planes.old ≡ r * w) × (r ≤ 8) × (count < 65536) × (16 ≤ w) × TreeFits tree.now w delta count }
    requires by_index { (p : ℕ) → p < r → bit_of count p ≡ 0 }
    ensures { TreeSummed tree.now w delta count r u.new planes.new w }
{
    let last = w - SIXTEEN;
    for at in (0..last).step_by(SIXTEEN) {
        sum_sixteen(u, planes, r, tree, count, delta, w, at);
    }
    sum_sixteen(u, planes, r, tree, count, delta, w, last);
}
