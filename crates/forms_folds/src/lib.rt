// The matrices of a key, folded, as the kernels take them: panels of sixteen columns of every matrix, four at a time,
// so that eight bytes of a row are read together. The rows of four panels are taken in pieces that the cells hold.
#![tactic(auto)]

ghost use Rattle.std.specs.Prelude.{◌≡◌, List, ℕ, ◌+◌, ◌*◌, ◌<◌, ◌≤◌, length, drop};
ghost use Rattle.protocol.specs.Lists.{block_at};
ghost use Rattle.chunks.specs.Chunks.{chunk, most_block};
ghost use Rattle.forms_folds.specs.Folds.{before, height, piece_sixteens, cell_sixteens, most_panels, Folded, FoldedSet};
ghost use Rattle.forms_folds.specs.Sets.{Mirrors, SetFolded, MatrixFolded, OthersKept, CellsFit, FoldFits, PieceOf, RoomFits, MatrixFits};

use chunks::CHUNK;
use chunks::cells::copy_front;
use chunks::turns::EIGHT_ROWS;
use mirrors::{PIECE_ROWS, reflect_all};
use rows::{COLUMNS, part_rows, put_rows};
use strings::SIXTEEN;

mod mirrors;
mod rows;

// The panels of a set.
pub const PANELS: usize = 4;

// The most sixteens of rows of a piece.
pub const PIECE_SIXTEENS: usize = 10;

// What is added to the byte columns of a piece.
const TURNED: usize = COLUMNS * PIECE_ROWS;

// So many bytes are read past the rows of a matrix.
const PAST: usize = 48;

// The sixteens of rows that the cells hold, a chunk of each for every matrix: 5 + 6 + 7 + 8, those of the panels 4 to
// 7. A piece is cut so that it fits them.
pub const CELL_SIXTEENS: usize = 26;

// A piece of four panels: of the panels first, .., end - 1, the first `count` sixteens of rows. All are counted in the
// trailing matrix, which is what is left of a matrix without its first `top` sixteens of rows and columns. A piece
// further down is thus the first piece of a smaller matrix.
#[derive(Clone, Copy)]
pub struct Piece {
    pub top: usize,
    pub first: usize,
    pub end: usize,
    pub count: usize,
}

impl Piece {
    // The sixteens of rows that stand before those of panel first + p: each panel has one more than the panel before
    // it, unless the piece ends above them all.
    fn begin(self, p: usize) -> usize
        requires { (self.first ≤ most_panels) × (self.count ≤ piece_sixteens) × (p < 4) }
        ensures { result ≡ before self.first self.count p }
    {
        if self.first < self.count {
            p * (2 * self.first + p + 1) / 2
        } else {
            p * self.count
        }
    }

    // The sixteens of rows of panel first + p.
    fn height(self, p: usize) -> usize
        requires { (self.first ≤ most_panels) × (p < 4) }
        ensures { result ≡ height self.first self.count p }
    {
        if self.first < self.count {
            self.first + p + 1
        } else {
            self.count
        }
    }

    // Panel first + p, where the cells hold the piece.
    pub fn panel<'a>(self, cells: &'a [u8], m: usize, p: usize) -> &'a [u8]
        requires { (self.first ≤ most_panels) × (self.count ≤ piece_sixteens) × (p < 4)
            × (before self.first self.count p + height self.first self.count p ≤ cell_sixteens) × (m ≤ most_block) × CellsFit m cells.now }
        ensures { (length result.now ≡ height self.first self.count p * (m * chunk))
            × ((n w top : ℕ) (A : List ℕ) → FoldedSet n w m A top self.first self.count cells.now → Folded n w m A top (self.first + p) self.count result.now) }
    {
        let from = self.begin(p) * m * CHUNK;
        &cells[from..from + self.height(p) * m * CHUNK]
    }
}

// Sixteen rows after sixteen, with what `turned` adds to them.
fn fold_all(
    cells: &mut [u8],
    turned: &[u8],
    src: &[u8],
    from: usize,
    width: usize,
    piece: Piece,
    m: usize,
    i: usize,
)
    requires { FoldFits width src.now from piece.first piece.end piece.count m i cells.old turned.now
        × Mirrors width (drop from src.now) piece.first piece.end piece.count turned.now }
    ensures set_folded { SetFolded width (drop from src.now) piece.first piece.end piece.count m i piece.count cells.new }
    ensures others_kept { OthersKept m i cells.old cells.new }
{
    for q in 0..piece.count {
        let mut made = [0u8; EIGHT_ROWS];
        part_rows(&mut made, src, from, width, piece.first, q);
        put_rows(cells, &made, turned, piece, q, m, i);
    }
}

// The matrix that stands in src from `from` on, as the i-th of m. Its rows are read up to a whole sixteen, and some
// bytes further.
fn fold_matrix(
    cells: &mut [u8],
    turned: &mut [u8],
    src: &[u8],
    from: usize,
    width: usize,
    piece: Piece,
    m: usize,
    i: usize,
)
    requires { FoldFits width src.now from piece.first piece.end piece.count m i cells.old turned.old }
    ensures set_folded { SetFolded width (drop from src.now) piece.first piece.end piece.count m i piece.count cells.new }
    ensures others_kept { OthersKept m i cells.old cells.new }
{
    reflect_all(turned, src, from, width, piece);
    fold_all(cells, turned, src, from, width, piece, m, i);
}

// Near the end of the key there may be less than is read, so the matrix is copied to where there is more.
fn fold_last(
    cells: &mut [u8],
    turned: &mut [u8],
    room: &mut [u8],
    a: &[u8],
    n: usize,
    width: usize,
    piece: Piece,
    m: usize,
    i: usize,
)
    requires { MatrixFits n width piece.top piece.first piece.end piece.count m i a.now cells.old turned.old room.old }
    ensures matrix_folded { MatrixFolded n width (block_at a.now (n * width) i) piece.top piece.first piece.count m i cells.new }
    ensures others_kept { OthersKept m i cells.old cells.new }
{
    let shift = piece.top * (SIXTEEN * width + 2);
    copy_front(room, a, i * (n * width) + shift, n * width - shift);
    fold_matrix(cells, turned, room, 0, width, piece, m, i);
}

fn load_matrix(
    cells: &mut [u8],
    turned: &mut [u8],
    room: &mut [u8],
    a: &[u8],
    n: usize,
    width: usize,
    piece: Piece,
    m: usize,
    i: usize,
)
    requires { MatrixFits n width piece.top piece.first piece.end piece.count m i a.now cells.old turned.old room.old }
    ensures matrix_folded { MatrixFolded n width (block_at a.now (n * width) i) piece.top piece.first piece.count m i cells.new }
    ensures others_kept { OthersKept m i cells.old cells.new }
{
    let from = i * (n * width) + piece.top * (SIXTEEN * width + 2);
    if from + piece.end * SIXTEEN * width + PAST <= a.len() {
        fold_matrix(cells, turned, a, from, width, piece, m, i);
    } else {
        fold_last(cells, turned, room, a, n, width, piece, m, i);
    }
}

// A piece of each of m matrices, one panel after the other. Where n ends before a panel, nothing is put for it. The
// kernels read a panel in the order of the cells: sixteen rows, then a matrix, then each of its two columns of bytes.
// `room` is space for one matrix.
pub fn load_piece(
    cells: &mut [u8],
    room: &mut [u8],
    a: &[u8],
    n: usize,
    width: usize,
    m: usize,
    piece: Piece,
)
    requires { PieceOf n width piece.top piece.first piece.end piece.count × (m ≤ most_block) × (length a.now ≡ m * (n * width))
        × CellsFit m cells.old × RoomFits room.old }
    ensures { FoldedSet n width m a.now piece.top piece.first piece.count cells.new }
{
    let mut turned = [0u8; TURNED];
    for i in 0..m {
        load_matrix(cells, &mut turned, room, a, n, width, piece, m, i);
    }
}
