// The hash of every repetition's vector: H·v_e, H = [H' | identity], row by row, so many bytes of each row at a time.
ghost use Rattle.std.specs.Prelude.{◌≡◌, true, ℕ, ◌+◌, ◌*◌, ◌<◌, ◌≤◌, length};
ghost use Rattle.protocol.specs.Lists.{part, block_at};
ghost use Rattle.protocol.specs.Strings.{bytes_for};
ghost use Rattle.protocol.specs.Shape.{limits, k_of, w_of};
ghost use Rattle.strings.specs.Sums.{byte_at};
ghost use Rattle.lanes.specs.Lanes.{lanes};
ghost use Rattle.format.specs.Sizes.{alphabet_for, shape_for};
ghost use Rattle.hash.specs.Hashed.{BlockTabled, BlockFits, Column, Columns, Hashed};
ghost use Rattle.questions.specs.Facts.{HashForm};

use super::lookups::{PER_BYTE, fill_sums, look_up_row};
use format::Sizes;
use lanes::LANES;
use strings::{BITS, add_at, row_of};

// The bytes of a row of H' that one table of sums serves, so that the table does not grow with the rows.
const BLOCK: usize = 21;

// Of each of the t rows of H', which have `width` bytes, the `len` bytes from `from` on. k is the first coordinate of
// the identity, and tau the number of repetitions.
#[derive(Clone, Copy)]
struct Block {
    width: usize,
    from: usize,
    len: usize,
    k: usize,
    t: usize,
    tau: usize,
}

// `len` bytes of s from `at` on, as that part of it.
fn part_of(s: &[u8], at: usize, len: usize) -> &[u8]
    requires { at + len ≤ length s.now }
    ensures { (result.now ≡ part s.now at len) × (length result.now ≡ len) }
{
    &s[at..at + len]
}

// Takes the lanes below tau from column rho of a table of rows of t bytes, one row for each repetition.
fn take_column(column: &mut [u8; LANES], out: &[u8], rho: usize, t: usize, tau: usize)
    requires { (length out.now ≡ tau * t) × (rho < t) × (tau ≤ lanes) }
    ensures { (e : ℕ) → e < tau → byte_at column.new e ≡ byte_at out.now (e * t + rho) }
{
    for e in 0..tau {
        column[e] = out[e * t + rho];
    }
}

// Puts the lanes below tau into column rho of a table of rows of t bytes, one row for each repetition.
fn put_column(out: &mut [u8], rho: usize, t: usize, tau: usize, column: &[u8; LANES])
    requires { (length out.old ≡ tau * t) × (rho < t) × (tau ≤ lanes) }
    ensures by_index { (e : ℕ) → e < tau → byte_at out.new (e * t + rho) ≡ byte_at column.now e }
    ensures by_index_2 { (e r : ℕ) → e < tau → r < t → (r ≡ rho → ⊥) → byte_at out.new (e * t + r) ≡ byte_at out.old (e * t + r) }
{
    for e in 0..tau {
        out[e * t + rho] = column[e];
    }
}

// Takes what row rho has in the output, where a block came before.
fn take_before(taken: &mut [u8; LANES], out: &[u8], rho: usize, b: Block)
    requires { (length out.now ≡ b.tau * b.t) × (rho < b.t) × (b.tau ≤ lanes) }
    ensures { (0 < b.from) → (e : ℕ) → e < b.tau → byte_at taken.new e ≡ byte_at out.now (e * b.t + rho) }
{
    if b.from != 0 {
        take_column(taken, out, rho, b.t, b.tau);
    }
}

// What a row has before the block at `from`: the identity's coordinate c before the first, and else what was taken. It
// is handed on and not copied: so the row's sum stays in registers.
fn start_of<'a>(taken: &'a [u8; LANES], table: &'a [u8], c: usize, from: usize) -> &'a [u8; LANES]
    requires { c * lanes + lanes ≤ length table.now }
    ensures { ((from ≡ 0) → result.now ≡ block_at table.now lanes c) × ((0 < from) → result.now ≡ taken.now) }
{
    if from == 0 { row_of(table, c) } else { taken }
}

// Row rho of a block: what its bytes of the row select is added, for each lane.
fn hash_row(out: &mut [u8], matrix: &[u8], table: &[u8], sums: &[u8], rho: usize, b: Block)
    requires block_fits { BlockFits matrix.now table.now b out.old sums.now × (rho < b.t) }
    requires block_tabled { BlockTabled b.from b.len table.now sums.now × (0 < b.from → Column matrix.now table.now b b.from rho out.old) }
    ensures column { Column matrix.now table.now b (b.from + b.len) rho out.new }
    ensures by_index { (e r : ℕ) → e < b.tau → r < b.t → (r ≡ rho → ⊥) → byte_at out.new (e * b.t + r) ≡ byte_at out.old (e * b.t + r) }
{
    let at = rho * b.width + b.from;
    let mut taken = [0u8; LANES];
    take_before(&mut taken, out, rho, b);
    let mut sum = [0u8; LANES];
    look_up_row(&mut sum, part_of(matrix, at, b.len), sums);
    add_at(&mut sum, start_of(&taken, table, b.k + rho, b.from), 0);
    put_column(out, rho, b.t, b.tau, &sum);
}

// The rows of a block, after the blocks before it.
fn hash_block(out: &mut [u8], matrix: &[u8], table: &[u8], sums: &[u8], b: Block)
    requires block_fits { BlockFits matrix.now table.now b out.old sums.now }
    requires block_tabled { BlockTabled b.from b.len table.now sums.now × (0 < b.from → Columns matrix.now table.now b b.from out.old) }
    ensures { Columns matrix.now table.now b (b.from + b.len) out.new }
{
    for rho in 0..b.t {
        hash_row(out, matrix, table, sums, rho, b);
    }
}

// The sums of each four coordinates that `len` bytes of a row of H' can select, from byte `from` on.
fn fill_entries(entries: &mut [u8], table: &[u8], from: usize, len: usize)
    requires { ((from + len) * 8 * lanes ≤ length table.now) × (len * 32 * lanes ≤ length entries.old) }
    ensures { BlockTabled from len table.now entries.new }
{
    let rows = len * BITS;
    let at = from * BITS * LANES;
    let front = part_of(table, at, rows * LANES);
    fill_sums(entries, len * PER_BYTE, rows, front);
}

// Byte e·t + ρ is row ρ of H·v_e, for the vectors v_e of the table (the verifier's are W_e). The table of sums is
// needed here only, and so is off the stack when the batch step, the deepest, begins.
pub fn hash_all(out: &mut [u8], matrix: &[u8], table: &[u8], s: Sizes)
    requires { (limits (shape_for s) ≡ true) × HashForm (alphabet_for s) (shape_for s) matrix.now
        × (length table.now ≡ 8 * w_of (alphabet_for s) (shape_for s) * lanes) × (length out.old ≡ s.tau * s.t) }
    ensures { Hashed matrix.now (bytes_for (k_of (alphabet_for s) (shape_for s))) (k_of (alphabet_for s) (shape_for s)) s.t s.tau table.now out.new }
{
    let k = format::sizes::hashed_bits(s);
    let width = format::sizes::bytes_for(k);
    // No heap: room for the largest block, of which the front is used.
    let mut entries = [0u8; BLOCK * PER_BYTE * LANES];
    for g in 0..width.div_ceil(BLOCK) {
        let from = g * BLOCK;
        let len = BLOCK.min(width - from);
        fill_entries(&mut entries, table, from, len);
        let b = Block {
            width,
            from,
            len,
            k,
            t: s.t,
            tau: s.tau,
        };
        hash_block(out, matrix, table, &entries, b);
    }
}
