// Sixteen rows of a set: its eight byte columns, with what is added to them, put among the cells.
ghost use Rattle.std.specs.Prelude.{◌≡◌, ℕ, ◌+◌, ◌*◌, ◌/◌, ◌%◌, ◌<◌, ◌≤◌, length, drop};
ghost use Rattle.std.specs.Int.Bits.{bit_xor};
ghost use Rattle.strings.specs.Sums.{byte_at};
ghost use Rattle.chunks.specs.Chunks.{chunk, cell_at};
ghost use Rattle.forms_folds.specs.Folds.{before, piece_sixteens, piece_rows, most_panels, bytes_past};
ghost use Rattle.forms_folds.specs.Sets.{Parted, summed, chunk_place, Put, ChunksKept, RowsFit};

use super::mirrors::PIECE_ROWS;
use super::{PANELS, Piece};
use chunks::CHUNK;
use chunks::cells::{copy_apart, copy_front, copy_part};
use chunks::turns::{EIGHT_ROWS, part};
use strings::{BITS, SIXTEEN};

// The byte columns of a set, two to a panel.
pub const COLUMNS: usize = 2 * PANELS;

// The bytes of eight rows of a set.
const SET_ROWS: usize = BITS * COLUMNS;

// Adds to each of a chunk's two columns of bytes one of `turned`: the first column's stands from `at` on, the second's
// a row further. The count is a constant, so that the chunk stays in registers.
fn add_turned(sum: &mut [u8; CHUNK], turned: &[u8], at: usize)
    requires { at + piece_rows + 16 ≤ length turned.now }
    ensures { (e : ℕ) → e < chunk → byte_at sum.new e ≡ bit_xor (byte_at sum.old e) (byte_at turned.now (at + (e / 16 * piece_rows + e % 16))) }
{
    for f in 0..SIXTEEN {
        sum[f] ^= turned[at + f];
        sum[SIXTEEN + f] ^= turned[at + PIECE_ROWS + f];
    }
}

// Below its own sixteen a panel has no rows. What is added to a chunk is added where it is put: eight columns of sums
// at once would not fit registers.
fn put_panel(
    cells: &mut [u8],
    made: &[u8; EIGHT_ROWS],
    turned: &[u8],
    piece: Piece,
    p: usize,
    q: usize,
    m: usize,
    i: usize,
)
    requires { RowsFit piece.first piece.end piece.count q m i cells.old made.now turned.now × (p < 4) }
    ensures e_after { q ≤ piece.first + p → piece.first + p < piece.end → (e : ℕ) → e < chunk
        → cell_at cells.new (chunk_place piece.first piece.count p q m i) e ≡ summed made.now turned.now q p e }
    ensures by_index { (at e : ℕ) → (q ≤ piece.first + p → at ≡ chunk_place piece.first piece.count p q m i → ⊥) → e < chunk
        → cell_at cells.new at e ≡ cell_at cells.old at e }
{
    let panel = piece.first + p;
    if q <= panel {
        if panel < piece.end {
            let mut sum = [0u8; CHUNK];
            copy_front(&mut sum, made, p * CHUNK, CHUNK);
            add_turned(&mut sum, turned, 2 * p * PIECE_ROWS + q * SIXTEEN);
            copy_part(cells, (piece.begin(p) + q) * m + i, CHUNK, &sum, 0);
        }
    }
}

// What was made of the sixteen rows q is put for each panel of the piece.
pub fn put_rows(
    cells: &mut [u8],
    made: &[u8; EIGHT_ROWS],
    turned: &[u8],
    piece: Piece,
    q: usize,
    m: usize,
    i: usize,
)
    requires { RowsFit piece.first piece.end piece.count q m i cells.old made.now turned.now }
    ensures put { Put piece.first piece.end piece.count q m i 4 made.now turned.now cells.new }
    ensures chunks_kept { ChunksKept piece.first piece.count q m i 4 cells.old cells.new }
{
    for p in 0..PANELS {
        put_panel(cells, made, turned, piece, p, q, m, i);
    }
}

// The sixteen rows q of the matrix that stands in src from `from` on: eight bytes of each are taken, and parted into
// columns. They are taken in two halves, so that the addresses of the rows fit registers, and all is made in local
// arrays of constant length, which stay there.
pub fn part_rows(
    made: &mut [u8; EIGHT_ROWS],
    src: &[u8],
    from: usize,
    width: usize,
    first: usize,
    q: usize,
)
    requires { (first < most_panels) × (q < piece_sixteens) × (from + (q * 16 + 16) * width + bytes_past ≤ length src.now) }
    ensures { Parted width (drop from src.now) first q made.new }
{
    let mut rows = [0u8; EIGHT_ROWS];
    let at = from + q * SIXTEEN * width + 2 * first;
    copy_apart(&mut rows[..SET_ROWS], BITS, COLUMNS, src, at, width);
    copy_apart(
        &mut rows[SET_ROWS..EIGHT_ROWS],
        BITS,
        COLUMNS,
        src,
        at + BITS * width,
        width,
    );
    part(made, &rows);
}
