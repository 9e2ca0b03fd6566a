// Sixteen coordinates of every repetition side by side, from vectors that stand one after the other. What is turned is
// secret: no branch and no index goes by it.
ghost use Rattle.std.specs.Prelude.{◌≡◌, ℕ, ◌+◌, ◌*◌, ◌/◌, ◌<◌, ◌≤◌, length};
ghost use Rattle.protocol.specs.Shape.{most_variables};
ghost use Rattle.strings.specs.Sums.{byte_at};
ghost use Rattle.lanes.specs.Lanes.{lanes, lane_at};
ghost use Rattle.forms_columns.specs.Stacks.{coordinate_of, VectorsRoom, BlockTurned, BesideBlock, FrontIs};

use super::FRONT;
use chunks::cells::{copy_apart, copy_part};
use chunks::turns::{EIGHT_ROWS, part};
use format::sizes::MOST_VARIABLES;
use lanes::LANES;
use strings::{BITS, SIXTEEN};

// The sixteens of repetitions in a row of lanes.
const LANE_SIXTEENS: usize = LANES / SIXTEEN;

// Eight columns of sixteen bytes become the parts g, g + step, .. of dst.
fn put_columns(dst: &mut [u8], g: usize, step: usize, cols: &[u8; EIGHT_ROWS])
    requires { (0 < step) × ((g + 7 * step) * 16 + 16 ≤ length dst.old) }
    ensures by_index { (k j : ℕ) → k < 8 → j < 16 → byte_at dst.new ((g + k * step) * 16 + j) ≡ byte_at cols.now (k * 16 + j) }
    ensures beside_block { BesideBlock g step 8 dst.old dst.new }
{
    for k in 0..BITS {
        copy_part(dst, g + k * step, SIXTEEN, cols, k * SIXTEEN);
    }
}

// The eight columns of sixteen rows of eight bytes, which stand `width` bytes apart in src, the first at `from`, become
// the parts g, g + step, .. of dst.
pub fn turn_block(dst: &mut [u8], g: usize, step: usize, src: &[u8], from: usize, width: usize)
    requires { (0 < step) × ((g + 7 * step) * 16 + 16 ≤ length dst.old) × (from + 15 * width + 8 ≤ length src.now) }
    ensures block_turned { BlockTurned g step src.now from width dst.new }
    ensures beside_block { BesideBlock g step 8 dst.old dst.new }
{
    let mut rows = [0u8; EIGHT_ROWS];
    let mut cols = [0u8; EIGHT_ROWS];
    copy_apart(&mut rows, SIXTEEN, BITS, src, from, width);
    part(&mut cols, &rows);
    put_columns(dst, g, step, &cols);
}

// Sixteen coordinates, from `first` on, of the b-th sixteen repetitions.
fn fill_sixteen(front: &mut [u8; FRONT], vectors: &[u8], first: usize, b: usize)
    requires { VectorsRoom vectors.now × (first + 16 ≤ most_variables) × (b < lanes / 16) }
    ensures by_index { (k j : ℕ) → k < 16 → j < 16 → lane_at front.new k (b * 16 + j) ≡ coordinate_of vectors.now (b * 16 + j) (first + k) }
    ensures by_index_2 { (k e : ℕ) → k < 16 → e < b * 16 → lane_at front.new k e ≡ lane_at front.old k e }
{
    let at = b * SIXTEEN * MOST_VARIABLES + first;
    turn_block(front, b, LANE_SIXTEENS, vectors, at, MOST_VARIABLES);
    turn_block(
        front,
        BITS * LANE_SIXTEENS + b,
        LANE_SIXTEENS,
        vectors,
        at + BITS,
        MOST_VARIABLES,
    );
}

// The same of the first tau repetitions. Lanes from tau on hold anything.
pub fn fill_front(front: &mut [u8; FRONT], vectors: &[u8], first: usize, tau: usize)
    requires { VectorsRoom vectors.now × (first + 16 ≤ most_variables) × (tau ≤ lanes) }
    ensures { FrontIs tau vectors.now first front.new }
{
    for b in 0..tau.div_ceil(SIXTEEN) {
        fill_sixteen(front, vectors, first, b);
    }
}
