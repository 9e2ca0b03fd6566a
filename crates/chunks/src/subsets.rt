// The sums of all choices from each few rows of a table, so that one addition serves several rows. Callers give the
// width and the size of a group as constants, so that the loops are of whole registers. The rows may be secret: no
// branch and no index goes by them.
ghost use Rattle.std.specs.Prelude.{◌≡◌, ℕ, ◌+◌, ◌*◌, ◌^◌, ◌<◌, ◌≤◌, length};
ghost use Rattle.std.specs.Int.Bits.{bit_xor};
ghost use Rattle.protocol.specs.Shape.{most_repetitions};
ghost use Rattle.strings.specs.Sums.{byte_at};
ghost use Rattle.strings.specs.Rows.{RowsKept};
ghost use Rattle.chunks.specs.Subsets.{GroupFilled};

use super::cells::copy_part;
use super::masks::fill_part;
use format::sizes::MOST_REPETITIONS;

// The widest row that is served: one of all lanes.
const WIDEST: usize = MOST_REPETITIONS;

// Entry `to` becomes entry `from` plus a row.
fn fill_entry(sums: &mut [u8], w: usize, from: usize, to: usize, row: &[u8])
    requires { (from * w + w ≤ length sums.old) × (to * w + w ≤ length sums.old) × (length row.now ≡ w) × (w ≤ most_repetitions) }
    ensures by_index { (f : ℕ) → f < w → byte_at sums.new (to * w + f) ≡ bit_xor (byte_at sums.old (from * w + f)) (byte_at row.now f) }
    ensures rows_kept { RowsKept w to sums.old sums.new }
{
    let mut sum = [0u8; WIDEST];
    strings::xor_of(&mut sum[..w], strings::row_at(sums, w, from), row);
    copy_part(sums, to, w, &sum, 0);
}

// The `count` entries from base on, each plus a row, become the next as many.
fn fill_next(sums: &mut [u8], w: usize, base: usize, count: usize, row: &[u8])
    requires { ((base + count + count) * w ≤ length sums.old) × (length row.now ≡ w) × (w ≤ most_repetitions) × (0 < w) }
    ensures by_index { (v f : ℕ) → v < count → f < w
        → byte_at sums.new ((base + count + v) * w + f) ≡ bit_xor (byte_at sums.old ((base + v) * w + f)) (byte_at row.now f) }
    ensures by_index_2 { (q f : ℕ) → q < base + count → f < w → byte_at sums.new (q * w + f) ≡ byte_at sums.old (q * w + f) }
{
    for v in 0..count {
        fill_entry(sums, w, base + v, base + count + v, row);
    }
}

// Adds row c of the table, whose rows are as long as dst. Rows from n on are 0.
fn add_row(dst: &mut [u8], c: usize, n: usize, table: &[u8])
    requires { length table.now ≡ n * length dst.old }
    ensures { (f : ℕ) → f < length dst.old → byte_at dst.new f
        ≡ bit_xor (byte_at dst.old f) (byte_at table.now (c * length dst.old + f)) }
{
    let w = dst.len();
    if c < n {
        strings::xor_into(dst, strings::row_at(table, w, c));
    }
}

// The sums of a group of rows: with each row the sums so far are doubled.
pub fn fill_group(
    sums: &mut [u8],
    w: usize,
    size: usize,
    entries: usize,
    g: usize,
    n: usize,
    table: &[u8],
)
    requires { ((g * entries + entries) * w ≤ length sums.old) × (length table.now ≡ n * w) × (entries ≡ 2 ^ size) × (size ≤ 5) × (w ≤ most_repetitions) × (0 < w) }
    ensures group_filled { GroupFilled table.now w size entries g sums.new }
    ensures by_index { (q f : ℕ) → q < g * entries → f < w → byte_at sums.new (q * w + f) ≡ byte_at sums.old (q * w + f) }
{
    fill_part(sums, g * entries, w, 0);
    let mut count = 1;
    for s in 0..size {
        let mut row = [0u8; WIDEST];
        add_row(&mut row[..w], g * size + s, n, table);
        fill_next(sums, w, g * entries, count, &row[..w]);
        count *= 2;
    }
}
