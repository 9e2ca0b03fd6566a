// The sums u and v of one tree of leaves, full or opened. Leaf delta is left out, and counts as 0; a full tree has
// delta at its count.
#![tactic(auto)]

mod fours;
mod sixteens;

ghost use Rattle.std.specs.Prelude.{◌≡◌, ℕ, ◌+◌, ◌*◌, ◌<◌, ◌≤◌, length};
ghost use Rattle.std.specs.Int.Bits.{bit_xor};
ghost use Rattle.protocol.specs.Leaves.{place, opened_leaf};
ghost use Rattle.strings.specs.Sums.{byte_at, bit_of};
ghost use Rattle.trees.specs.Trees.{leaf_byte, TreeFits, Absorbed, TreeSummed};

use sixteens::sum_sixteens;
use strings::SIXTEEN;

// A step of 01's v_e = Σ j·ℓ(e,j), bit by bit of the weight: adds a row to the planes p below r whose bit is set in j.
// The weight is public.
pub fn absorb(planes: &mut [u8], r: usize, j: usize, row: &[u8])
    requires { (length planes.old ≡ r * length row.now) × (r ≤ 8) }
    ensures { Absorbed (length row.now) r j row.now planes.old planes.new }
{
    for p in 0..r {
        if (j >> p) % 2 == 1 {
            strings::xor_row(planes, p, row);
        }
    }
}

// Where leaf j stands in an opened tree (01): above the leaf that is left out, the place is j - 1.
fn place_of(delta: usize, j: usize) -> usize
    requires { j ≡ delta → ⊥ }
    ensures { result ≡ place delta j }
{
    if j < delta { j } else { j - 1 }
}

// Leaf j of an opened tree, as that very part of the lent bytes (01).
pub fn opened_leaf(tree: &[u8], w: usize, delta: usize, j: usize) -> &[u8]
    requires { (j ≡ delta → ⊥) × (place delta j * w + w ≤ length tree.now) }
    ensures { (result.now ≡ opened_leaf w delta tree.now j) × (length result.now ≡ w) }
{
    strings::row_at(tree, w, place_of(delta, j))
}

// Adds leaf j to u, and nothing for the leaf that is left out.
fn add_leaf(u: &mut [u8], tree: &[u8], delta: usize, j: usize)
    requires { (j ≡ delta → ⊥) → place delta j * length u.old + length u.old ≤ length tree.now }
    ensures { (b : ℕ) → b < length u.old → byte_at u.new b
        ≡ bit_xor (byte_at u.old b) (leaf_byte tree.now (length u.old) delta j b) }
{
    let w = u.len();
    if j != delta {
        strings::xor_into(u, opened_leaf(tree, w, delta, j));
    }
}

// `tree_sums` row by row. Plane p takes the running sum of the leaves where bit p of the leaf's number changes, so that
// three rows are added for each leaf, and not five.
// Here and below the tree's bytes, count, delta and w stay parameters: of a struct each clause would name the fields.
fn sum_rows(
    u: &mut [u8],
    planes: &mut [u8],
    r: usize,
    tree: &[u8],
    count: usize,
    delta: usize,
    w: usize,
)
    requires u_len { (length u.old ≡ w) × (length planes.old ≡ r * w) × (r ≤ 8) × (count < 65536) × TreeFits tree.now w delta count }
    requires by_index { (p : ℕ) → p < r → bit_of count p ≡ 0 }
    ensures { TreeSummed tree.now w delta count r u.new planes.new w }
{
    u.fill(0);
    planes.fill(0);
    for j in 0..count {
        add_leaf(u, tree, delta, j);
        absorb(planes, r, j ^ (j + 1), u);
    }
}

// 01's sums of one tree with leaf delta left out: u is the sum of the leaves, and plane p the sum of the leaves j with
// bit p of j set. It needs a count whose low r bits are 0.
pub fn tree_sums(
    u: &mut [u8],
    planes: &mut [u8],
    r: usize,
    tree: &[u8],
    count: usize,
    delta: usize,
    w: usize,
)
    requires u_len { (length u.old ≡ w) × (length planes.old ≡ r * w) × (r ≤ 8) × (count < 65536) × TreeFits tree.now w delta count }
    requires by_index { (p : ℕ) → p < r → bit_of count p ≡ 0 }
    ensures { TreeSummed tree.now w delta count r u.new planes.new w }
{
    if w < SIXTEEN {
        sum_rows(u, planes, r, tree, count, delta, w);
    } else {
        sum_sixteens(u, planes, r, tree, count, delta, w);
    }
}
