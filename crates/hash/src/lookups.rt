// The sums of each four coordinates of the vectors of all repetitions, in a table, and the product of a row of bits
// with those vectors by looking them up. The table, and what is computed from it, is secret: no branch and no index
// goes by it. Rows of bits that are looked up are public.
ghost use Rattle.std.specs.Prelude.{◌≡◌, ℕ, ◌+◌, ◌*◌, ◌/◌, ◌%◌, ◌<◌, ◌≤◌, length};
ghost use Rattle.std.specs.Int.Bits.{bit_xor};
ghost use Rattle.strings.specs.Sums.{byte_at};
ghost use Rattle.lanes.specs.Lanes.{lanes, lane_at};
ghost use Rattle.hash.specs.Entries.{LanesTabled, byte_looked_up, RowSelected};

use chunks::subsets::fill_group;
use lanes::LANES;
use strings::{BITS, add_at};

// The coordinates of a group, which half a byte of a row chooses from.
const GROUP: usize = BITS / 2;

// The entries of the table of sums for a group, one for each value of half a byte; and for the two groups of a byte.
const PER_GROUP: usize = 16;

pub const PER_BYTE: usize = 2 * PER_GROUP;

// The first entries of the table of sums: sixteen for each four of the n coordinates. Made once, they serve all
// rows of a block.
pub fn fill_sums(sums: &mut [u8], count: usize, n: usize, table: &[u8])
    requires { (count * lanes ≤ length sums.old) × (length table.now ≡ n * lanes) × (count % 16 ≡ 0) }
    ensures { LanesTabled table.now sums.new count }
{
    let groups = count / PER_GROUP;
    for g in 0..groups {
        fill_group(sums, LANES, GROUP, PER_GROUP, g, n, table);
    }
}

// Adds the two entries that byte b of a row, x, chooses. The row is public, so the table may be indexed by it.
fn add_chosen(dst: &mut [u8; LANES], b: usize, x: u8, sums: &[u8])
    requires { (b * 32 + 32) * lanes ≤ length sums.now }
    ensures { (e : ℕ) → e < lanes → byte_at dst.new e ≡ bit_xor (byte_at dst.old e) (byte_looked_up b x sums.now e) }
{
    let first = b * PER_BYTE;
    add_at(dst, sums, (first + usize::from(x % 16)) * LANES);
    add_at(dst, sums, (first + PER_GROUP + usize::from(x / 16)) * LANES);
}

// out[e] = Σ row(c)·T[c][e] over the n coordinates of the table T that was summed: two additions for eight of them.
pub fn look_up_row(out: &mut [u8; LANES], row: &[u8], sums: &[u8])
    requires { length row.now * 32 * lanes ≤ length sums.now }
    ensures { RowSelected row.now sums.now out.new }
{
    let mut sum = [0u8; LANES];
    for b in 0..row.len() {
        add_chosen(&mut sum, b, row[b], sums);
    }
    *out = sum;
}
