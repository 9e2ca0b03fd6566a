// Leaf sums for all repetitions: u_e in the rows of a table, v_e in the lanes of another.
#![tactic(auto)]

mod parts;

ghost use Rattle.std.specs.Prelude.{◌≡◌, ℕ, ◌+◌, ◌*◌, ◌^◌, ◌<◌, ◌≤◌, length};
ghost use Rattle.protocol.specs.Lists.{block_at};
ghost use Rattle.protocol.specs.Strings.{from_bits};
ghost use Rattle.strings.specs.Sums.{byte_at, bit_of};
ghost use Rattle.strings.specs.Rows.{RowsKept};
ghost use Rattle.lanes.specs.Lanes.{lanes, LaneIs, LanesKept};
ghost use Rattle.trees.specs.Trees.{TreeFits, TreeSummed};
ghost use Rattle.tables.specs.Sums.{planes_byte, u_byte, v_byte, NoPlanesFrom, TreeReady, RowReady, TreesReady, SumsAre, TableIs};

use format::sizes::MOST_LEAF;
use lanes::LANES;
use parts::spread_parts;
use strings::{BITS, SIXTEEN};
use trees::tree_sums;

// The leaves of a tree, for a field of degree r.
pub fn leaves_of(r: usize) -> usize
    requires { r ≤ 8 }
    ensures { result ≡ 2 ^ r }
{
    1 << r
}

// The sums of one tree with leaf delta left out, in room for a plane to each bit of a byte: the planes from r on are 0.
pub fn sum_tree(u: &mut [u8], planes: &mut [u8], tree: &[u8], delta: usize, r: usize)
    requires { (length planes.old ≡ 8 * length u.old) × (r ≤ 8) × TreeFits tree.now (length u.old) delta (2 ^ r) }
    ensures tree_summed { TreeSummed tree.now (length u.old) delta (2 ^ r) r u.new planes.new (length u.old) }
    ensures no_planes_from { NoPlanesFrom r (length u.old) planes.new }
{
    let w = u.len();
    let end = r * w;
    tree_sums(u, &mut planes[..end], r, tree, leaves_of(r), delta, w);
    planes[end..].fill(0);
}

// The byte whose bit p is bit i of byte b of plane p.
fn gathered(planes: &[u8], w: usize, b: usize, i: usize) -> u8
    requires { (length planes.now ≡ 8 * w) × (b < w) × (i < 8) }
    ensures { result ≡ from_bits 8 (λ p. bit_of (byte_at planes.now (p * w + b)) i) }
{
    let mut sum = 0u8;
    for p in 0usize..BITS {
        sum ^= (planes[p * w + b] >> i) % 2 << p;
    }
    sum
}

// Writes lane e of the eight coordinates of byte b.
fn spread_byte(table: &mut [u8], e: usize, planes: &[u8], w: usize, b: usize)
    requires { (length table.old ≡ 8 * w * lanes) × (length planes.now ≡ 8 * w) × (e < lanes) × (b < w) }
    ensures by_index { (i : ℕ) → i < 8 → byte_at table.new ((b * 8 + i) * lanes + e) ≡ from_bits 8 (λ p. bit_of (byte_at planes.now (p * w + b)) i) }
    ensures by_index_2 { (c q : ℕ) → q < lanes → (q ≡ e → c < b * 8) → byte_at table.new (c * lanes + q) ≡ byte_at table.old (c * lanes + q) }
{
    for i in 0..BITS {
        table[(b * BITS + i) * LANES + e] = gathered(planes, w, b, i);
    }
}

// `spread` of planes of any width: bytes are walked, and the eight places in each.
fn spread_bytes(table: &mut [u8], e: usize, planes: &[u8], w: usize)
    requires { (length table.old ≡ 8 * w * lanes) × (length planes.now ≡ 8 * w) × (e < lanes) }
    ensures lane_is { LaneIs e (8 * w) (planes_byte planes.now w) table.new }
    ensures lanes_kept { LanesKept e table.old table.new }
{
    for b in 0..w {
        spread_byte(table, e, planes, w, b);
    }
}

// 01's v_e, coordinate by coordinate: writes lane e of the table from the planes of one tree. Bit p of coordinate c is
// coordinate c of plane p.
pub fn spread(table: &mut [u8], e: usize, planes: &[u8], w: usize)
    requires { (length table.old ≡ 8 * w * lanes) × (length planes.now ≡ 8 * w) × (e < lanes) }
    ensures lane_is { LaneIs e (8 * w) (planes_byte planes.now w) table.new }
    ensures lanes_kept { LanesKept e table.old table.new }
{
    if w < SIXTEEN {
        spread_bytes(table, e, planes, w);
    } else {
        spread_parts(table, e, planes, w);
    }
}

// 01's u_e and v_e of one tree: u takes the sum of its 2^r leaves, which are as long as u, and lane e of the table v_e.
pub fn load_tree(table: &mut [u8], u: &mut [u8], planes: &mut [u8], tree: &[u8], e: usize, r: usize)
    requires { TreeReady table.old planes.old tree.now (length u.old) e r }
    ensures by_index { (b : ℕ) → b < length u.old → byte_at u.new b ≡ u_byte tree.now (2 ^ r) (length u.old) b }
    ensures lane_is { LaneIs e (8 * length u.old) (v_byte tree.now (2 ^ r) (length u.old)) table.new }
    ensures lanes_kept { LanesKept e table.old table.new }
{
    let w = u.len();
    sum_tree(u, planes, tree, leaves_of(r), r);
    spread(table, e, planes, w);
}

// The same from the leaves of all trees, and u_e into its row of the sums.
fn load_row(
    table: &mut [u8],
    sums: &mut [u8],
    planes: &mut [u8],
    leaves: &[u8],
    e: usize,
    w: usize,
    r: usize,
)
    requires { RowReady table.old planes.old sums.old leaves.now w e r }
    ensures by_index { (b : ℕ) → b < w → byte_at sums.new (e * w + b) ≡ u_byte (block_at leaves.now (2 ^ r * w) e) (2 ^ r) w b }
    ensures lane_is { LaneIs e (8 * w) (v_byte (block_at leaves.now (2 ^ r * w) e) (2 ^ r) w) table.new }
    ensures rows_kept { RowsKept w e sums.old sums.new }
    ensures lanes_kept { LanesKept e table.old table.new }
{
    let tree = strings::row_at(leaves, leaves_of(r) * w, e);
    let at = e * w;
    load_tree(table, &mut sums[at..at + w], planes, tree, e, r);
}

// 01's u_e and v_e for every repetition e below tau, from the full leaves of w bytes, 2^r to a tree: u_e is row e of
// the sums, v_e is lane e of the table.
pub fn load_trees(table: &mut [u8], sums: &mut [u8], leaves: &[u8], tau: usize, w: usize, r: usize)
    requires { TreesReady table.old sums.old leaves.now tau w r }
    ensures sums_are { SumsAre sums.new leaves.now tau w (2 ^ r) }
    ensures table_is { TableIs table.new leaves.now tau w (2 ^ r) }
{
    // No heap: room for the largest key, of which the front is used.
    let mut planes = [0u8; BITS * MOST_LEAF];
    for e in 0..tau {
        load_row(table, sums, &mut planes[..BITS * w], leaves, e, w, r);
    }
}
