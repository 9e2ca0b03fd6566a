// The leaf sums alone, as a call from C, so that the benchmark can time them without the rest of a call. Only the
// benchmark links this crate: it is no part of the library.
#![tactic(auto)]

ghost use Rattle.std.specs.Prelude.{◌≡◌, true, false};
ghost use Rattle.tables.specs.Sums.{TreesReady};
ghost use Rattle.leaf_sums.specs.LeafSums.{SumsTold};

use format::sizes::MOST_LEAF;
use lanes::LANES;
use strings::BITS;
use tables::{leaves_of, load_trees};

// Whether the lengths are those of tau trees of 2^r leaves of w bytes.
fn fits(table: &[u8], sums: &[u8], leaves: &[u8], tau: usize, w: usize, r: usize) -> bool
    ensures trees_ready { result ≡ true → TreesReady table.now sums.now leaves.now tau w r }
    ensures fact { result ≡ false → TreesReady table.now sums.now leaves.now tau w r → ⊥ }
{
    tau <= LANES
        && w <= MOST_LEAF
        && r <= BITS
        && table.len() == BITS * w * LANES
        && sums.len() == tau * w
        && leaves.len() == tau * leaves_of(r) * w
}

// 01's u_e and v_e for every repetition e below tau, as the prover has them. It asks of the lengths first: where they
// do not fit it answers 1 and writes nothing, else 0.
#[unsafe(no_mangle)]
pub extern "C" fn sum_leaves(
    table: &mut [u8],
    sums: &mut [u8],
    leaves: &[u8],
    tau: usize,
    w: usize,
    r: usize,
) -> u32
    ensures { SumsTold leaves.now tau w r table.old sums.old table.new sums.new result }
{
    if fits(table, sums, leaves, tau, w, r) {
        load_trees(table, sums, leaves, tau, w, r);
        0
    } else {
        1
    }
}
