// The forms of all equations, batched first: a sum of matrices by public bytes, and then the products with the secret
// vectors of all repetitions. Set after set of four panels, piece after piece of its rows, panel after panel.
#![tactic(auto)]

ghost use Rattle.std.specs.Prelude.{◌≡◌, ℕ, ◌+◌, ◌*◌, ◌-◌, ◌<◌, ◌≤◌, length};
ghost use Rattle.std.specs.Int.Bits.{bit_xor};
ghost use Rattle.protocol.specs.Shape.{most_variables};
ghost use Rattle.strings.specs.Sums.{byte_at, mask_byte};
ghost use Rattle.chunks.specs.Chunks.{most_block};
ghost use Rattle.forms_choices.specs.Entries.{IsBytes, ChosenAll};
ghost use Rattle.forms_columns.specs.Stacks.{coordinate_of};
ghost use Rattle.forms_folds.specs.Folds.{FoldedSet};
ghost use Rattle.forms_folds.specs.Sets.{CellsFit, PieceOf, RoomFits};
ghost use Rattle.forms_batching.specs.Lines.{line_form};
ghost use Rattle.forms_pieces.specs.FormSums.{form_sum, polar_sum, BatchFits};
ghost use Rattle.forms_pieces.specs.Pieces.{rows_of, PieceAt, NextPlace};

use chunks::{CHUNK, MOST_BLOCK};
use format::sizes::MOST_VARIABLES;
use forms_batching::lines::Part;
use forms_batching::panels::{Batch, stack_part};
use forms_columns::STACK;
use forms_folds::{PANELS, PIECE_SIXTEENS, Piece};
use forms_sums::sums::ENTRIES;
use lanes::LANES;
use strings::{MASK_BYTE, SIXTEEN};

// The table of sums of as many equations as a block may have: 32 entries for each five. Before it is filled, space for
// a matrix, and for a chunk of each line.
const SUMS: usize = MOST_BLOCK / 5 * ENTRIES * CHUNK;

// So many sixteens of rows do the cells hold of each of four panels that lie below them.
const SHORT_PIECE: usize = 6;

// The bits of a witness, each as a mask.
fn widen(bits: &mut [u8; MOST_VARIABLES], xs: &[u8])
    requires { (most_variables ≤ length xs.now) × ((c : ℕ) → byte_at xs.now c < 2) }
    ensures { (c : ℕ) → c < most_variables → byte_at bits.new c ≡ byte_at xs.now c * mask_byte }
{
    for c in 0..MOST_VARIABLES {
        bits[c] = xs[c] * MASK_BYTE;
    }
}

// Where a walk over the pieces stands: at panel p of the set from `first` on, in its piece from the sixteen `top` on.
#[derive(Clone, Copy)]
pub struct Place {
    pub first: usize,
    pub top: usize,
    pub p: usize,
}

// The sixteens of rows of the first piece of a trailing matrix, whose set is the panels first, .., end - 1.
fn rows_of(first: usize, end: usize) -> usize
    ensures { result ≡ rows_of first end }
{
    if first <= PANELS {
        return end;
    }
    if first == 2 * PANELS {
        if end <= PIECE_SIXTEENS {
            return end;
        }
    }
    SHORT_PIECE
}

impl Place {
    // Its piece of matrices of n columns.
    fn piece(self, n: usize) -> Piece
        requires { (self.top ≤ self.first) × (self.first * 16 < n) × (n ≤ most_variables) }
        ensures { PieceAt n self.first self.top result }
    {
        let first = self.first - self.top;
        let end = (self.first + PANELS).min(n.div_ceil(SIXTEEN)) - self.top;
        let count = rows_of(first, end);
        Piece {
            top: self.top,
            first,
            end,
            count,
        }
    }

    // After the last panel of a piece comes the next piece of the set, and after the last piece the next set.
    fn next(self, piece: Piece) -> Place
        requires { (self.first ≤ most_variables) × (self.p < 4) × (piece.top ≤ most_variables) × (piece.end ≤ most_variables) × (piece.count ≤ most_variables) }
        ensures { NextPlace self.first self.p piece result }
    {
        if self.first + self.p + 1 < piece.top + piece.end {
            return Place {
                first: self.first,
                top: piece.top,
                p: self.p + 1,
            };
        }
        if piece.count < piece.end {
            return Place {
                first: self.first,
                top: piece.top + piece.count,
                p: 0,
            };
        }
        Place {
            first: self.first + PANELS,
            top: 0,
            p: 0,
        }
    }
}

// A piece is loaded for its first panel; for the others it stands there already. `room` is space for a matrix.
fn load(
    cells: &mut [u8],
    room: &mut [u8],
    a: &[u8],
    n: usize,
    width: usize,
    m: usize,
    piece: Piece,
    p: usize,
)
    requires piece_of { PieceOf n width piece.top piece.first piece.end piece.count × (m ≤ most_block) × (length a.now ≡ m * (n * width))
        × CellsFit m cells.old × RoomFits room.old }
    requires folded_set { (p ≡ 0 → ⊥) → FoldedSet n width m a.now piece.top piece.first piece.count cells.old }
    ensures { FoldedSet n width m a.now piece.top piece.first piece.count cells.new }
{
    if p == 0 {
        forms_folds::load_piece(cells, room, a, n, width, m, piece);
    }
}

// Adds to quad the form of the batched matrix at the vectors; and to mid its polar form at them and the bits xs, and
// the batched lines at the vectors. Half of the polar form, that which has the vectors on the right, is a linear form
// of each equation, and is added to its line. Where `polar` is not asked for the bits are 0, and so is the polar form.
// `cells` is space.
pub fn add_forms(
    quad: &mut [u8; LANES],
    mid: &mut [u8; LANES],
    lines: &mut [u8],
    cells: &mut [u8],
    a: &[u8],
    words: &[u64],
    vectors: &[u8],
    xs: &[u8],
    s: Batch,
)
    requires { BatchFits s.degree s.n s.width s.m s.tau s.groups s.polar quad.old mid.old lines.old cells.old a.now words.now vectors.now xs.now }
    ensures by_index { (χ : ℕ → ℕ → ℕ) (e : ℕ) → IsBytes χ → ChosenAll χ s.m s.tau words.now → e < s.tau
        → byte_at quad.new e
        ≡ bit_xor (byte_at quad.old e) (form_sum s.degree s.n s.width s.m a.now χ e (coordinate_of vectors.now e) (coordinate_of vectors.now e)) }
    ensures by_index_2 { (χ : ℕ → ℕ → ℕ) (e : ℕ) → IsBytes χ → ChosenAll χ s.m s.tau words.now → e < s.tau
        → byte_at mid.new e
        ≡ bit_xor (bit_xor (byte_at mid.old e) (polar_sum s.degree s.n s.width s.m a.now χ e (byte_at xs.now) (coordinate_of vectors.now e)))
        (line_form s.degree s.n lines.old s.m χ e (coordinate_of vectors.now e)) }
{
    // No heap: room for the largest key, of which the front is used.
    let mut sums = [0u8; SUMS];
    let mut bits = [0u8; MOST_VARIABLES];
    let mut stacks = [0u8; LANES * STACK];
    widen(&mut bits, xs);
    let mut place = Place {
        first: 0,
        top: 0,
        p: 0,
    };
    // A walk and no count: how far a turn goes is the piece's to say.
    while place.first * SIXTEEN < s.n {
        let piece = place.piece(s.n);
        load(cells, &mut sums, a, s.n, s.width, s.m, piece, place.p);
        let held = piece.panel(cells, s.m, place.p);
        let rows = (piece.first + place.p + 1).min(piece.count);
        let panel = place.first + place.p;
        let part = Part {
            m: s.m,
            panel,
            top: place.top,
            rows,
        };
        forms_batching::lines::add_left(lines, &mut sums, held, &bits, s.polar, part);
        stack_part(
            &mut stacks,
            &mut sums,
            held,
            words,
            vectors,
            place.top,
            rows,
            s,
        );
        forms_columns::finish(
            quad, mid, &stacks, panel, s.tau, vectors, xs, s.polar, s.degree,
        );
        place = place.next(piece);
    }
    forms_batching::lines::add_lines(mid, &mut sums, lines, words, vectors, s);
}
