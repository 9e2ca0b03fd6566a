// What is added to the byte columns of a set: the entries of eight rows, turned.
ghost use Rattle.std.specs.Prelude.{◌≡◌, ℕ, ◌+◌, ◌*◌, ◌/◌, ◌%◌, ◌<◌, ◌≤◌, length, drop};
ghost use Rattle.strings.specs.Sums.{byte_at, bit_of};
ghost use Rattle.strings.specs.Rows.{RowsKept};
ghost use Rattle.forms_folds.specs.Folds.{piece_sixteens, piece_rows, most_panels, bytes_past};
ghost use Rattle.forms_folds.specs.Sets.{Mirrored, Reflected, Mirrors, TurnedFits, ColumnFits};

use super::{PIECE_SIXTEENS, Piece};
use chunks::masks::fill_part;
use chunks::turns::{EIGHT_ROWS, turn_rows};
use strings::{BITS, SIXTEEN};

// The most rows of a piece. A row of `turned` has a byte for each.
pub const PIECE_ROWS: usize = PIECE_SIXTEENS * SIXTEEN;

// Bytes at, .., at + 127 of row k of `turned`.
fn turn_part(turned: &mut [u8], k: usize, at: usize, src: &[u8], from: usize, width: usize)
    requires { (k * piece_rows + at + 128 ≤ length turned.old) × (from + 7 * width + 16 ≤ length src.now) }
    ensures by_index { (r z : ℕ) → r < 128 → z < 8 → bit_of (byte_at turned.new (k * piece_rows + at + r)) z
        ≡ bit_of (byte_at src.now (from + z * width + r / 8)) (r % 8) }
    ensures by_index_2 { (x : ℕ) → x < k * piece_rows + at → byte_at turned.new x ≡ byte_at turned.old x }
    ensures by_index_3 { (x : ℕ) → byte_at turned.new (k * piece_rows + at + (128 + x)) ≡ byte_at turned.old (k * piece_rows + at + (128 + x)) }
{
    let start = k * PIECE_ROWS + at;
    turn_rows(&mut turned[start..start + EIGHT_ROWS], src, from, width);
}

// The eight rows whose entries fold onto byte column col stand together. Their columns from 128 on are not among the
// first sixteen bytes.
fn turn_column(
    turned: &mut [u8],
    k: usize,
    src: &[u8],
    from: usize,
    width: usize,
    col: usize,
    count: usize,
)
    requires { ColumnFits k from width col count src.now turned.old }
    ensures mirrored { Mirrored width (drop from src.now) col count turned.new k }
    ensures rows_kept { RowsKept piece_rows k turned.old turned.new }
{
    let start = from + col * BITS * width;
    turn_part(turned, k, 0, src, start, width);
    if count > 8 {
        if col / 2 > 8 {
            turn_part(turned, k, SIXTEEN, src, start + 2, width);
        }
    }
}

// The first sixteen has none before it.
fn turn_above(
    turned: &mut [u8],
    k: usize,
    src: &[u8],
    from: usize,
    width: usize,
    col: usize,
    count: usize,
)
    requires { ColumnFits k from width col count src.now turned.old }
    ensures mirrored { Mirrored width (drop from src.now) col count turned.new k }
    ensures rows_kept { RowsKept piece_rows k turned.old turned.new }
{
    if col >= 2 {
        turn_column(turned, k, src, from, width, col, count);
    }
}

// In the rows of the column's own sixteen nothing is added to an entry. A piece may end before them.
fn clear_own(turned: &mut [u8], k: usize, col: usize)
    requires { (k < 8) × TurnedFits turned.old }
    ensures j_after { col / 2 < piece_sixteens → (j : ℕ) → j < 16 → byte_at turned.new ((k * piece_sixteens + col / 2) * 16 + j) ≡ 0 }
    ensures by_index { (q j : ℕ) → (col / 2 < piece_sixteens → q ≡ k * piece_sixteens + col / 2 → ⊥) → j < 16
        → byte_at turned.new (q * 16 + j) ≡ byte_at turned.old (q * 16 + j) }
{
    if col / 2 < PIECE_SIXTEENS {
        fill_part(turned, k * PIECE_SIXTEENS + col / 2, SIXTEEN, 0);
    }
}

// What is added to the entries of byte column col.
fn reflect(
    turned: &mut [u8],
    k: usize,
    src: &[u8],
    from: usize,
    width: usize,
    col: usize,
    count: usize,
)
    requires { ColumnFits k from width col count src.now turned.old }
    ensures reflected { Reflected width (drop from src.now) col count turned.new k }
    ensures rows_kept { RowsKept piece_rows k turned.old turned.new }
{
    turn_above(turned, k, src, from, width, col, count);
    clear_own(turned, k, col);
}

// The byte columns of the piece's panels, of the matrix that stands in src from `from` on, for the piece's sixteens of
// rows. From `width` on a row has no bytes: nothing is turned there.
pub fn reflect_all(turned: &mut [u8], src: &[u8], from: usize, width: usize, piece: Piece)
    requires { (piece.first < piece.end) × (piece.end ≤ piece.first + 4) × (piece.end ≤ most_panels) × (piece.count ≤ piece_sixteens)
        × (8 < piece.count → piece.end ≤ piece_sixteens) × TurnedFits turned.old × (from + piece.end * 16 * width + bytes_past ≤ length src.now) }
    ensures { Mirrors width (drop from src.now) piece.first piece.end piece.count turned.new }
{
    let start = 2 * piece.first;
    let end = width.min(2 * piece.end);
    for col in start..end {
        reflect(turned, col - start, src, from, width, col, piece.count);
    }
}
