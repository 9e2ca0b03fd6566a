// The lines of the equations, in which the prover's bits are added from the left, and their batch times the vectors of
// the repetitions. A line is bits, one for each coordinate: the coefficients of a linear form. They stand in tables of
// chunks, so that a line may have more bits than a chunk. The cells, and the words of what the batching bytes choose,
// are public; lines, bits, vectors, and the sums of any of them are secret: no branch and no index goes by them.
ghost use Rattle.std.specs.Prelude.{◌≡◌, true, false, List, ℕ, ◌+◌, ◌*◌, ◌/◌, ◌%◌, ◌<◌, ◌≤◌, length};
ghost use Rattle.std.specs.Int.Bits.{bit_xor, bit_and};
ghost use Rattle.protocol.specs.Shape.{most_variables};
ghost use Rattle.galois.specs.Degrees.{field_of};
ghost use Rattle.strings.specs.Sums.{byte_at, bit_of, xor_sum, byte_values};
ghost use Rattle.strings.specs.Rows.{RowsKept};
ghost use Rattle.lanes.specs.Lanes.{lanes};
ghost use Rattle.chunks.specs.Chunks.{most_block, chunk, cell_at};
ghost use Rattle.forms_choices.specs.Entries.{most_sums, looked_up, InWords, IsBytes, ChosenAll, WordsFit, GroupsFor, Weighed};
ghost use Rattle.forms_columns.specs.Stacks.{coordinate_of};
ghost use Rattle.forms_batching.specs.Batched.{WeighedAll, VectorsFit, SumsRoom};
ghost use Rattle.forms_batching.specs.Lines.{chunk_bits, LinesFit, line_byte, PartCells, left_byte, LeftAdded, LinesBeside, weighed_line, dot_of, line_product, VectorsEnd, line_form};

use super::panels::Batch;
use chunks::cells::copy_part;
use chunks::turns::{EIGHT_ROWS, turn_rows};
use chunks::{CHUNK, MOST_BLOCK};
use field::{Field, Gf16, Gf256};
use format::sizes::MOST_VARIABLES;
use lanes::LANES;
use strings::{BITS, SIXTEEN};

// As many planes as a turn takes rows, each a chunk.
const ELEMENT_PLANES: usize = BITS * CHUNK;

// As many elements as two turns give: one for each coordinate of a chunk.
const ELEMENTS: usize = 2 * EIGHT_ROWS;

// The panels of a chunk: each has two bytes of it.
const CHUNK_PANELS: usize = CHUNK / 2;

// The tables of chunks of the lines of as many variables as a key may have. A constant's value may hold no call, as
// that of div_ceil.
const LINES_TABLES: usize = (MOST_VARIABLES + ELEMENTS - 1) / ELEMENTS;

// The bytes of the lines of as many equations as a block may have.
pub const LINES: usize = LINES_TABLES * MOST_BLOCK * CHUNK;

// Adds the chunk at `at`, both its halves under the same sixteen masks.
fn add_masked(acc: &mut [u8; CHUNK], cells: &[u8], at: usize, bits: &[u8], from: usize)
    requires { (at + chunk ≤ length cells.now) × (from + 16 ≤ length bits.now) }
    ensures { (k : ℕ) → k < chunk
        → byte_at acc.new k ≡ bit_xor (byte_at acc.old k) (bit_and (byte_at cells.now (at + k)) (byte_at bits.now (from + k % 16))) }
{
    for f in 0..SIXTEEN {
        acc[f] ^= cells[at + f] & bits[from + f];
        acc[SIXTEEN + f] ^= cells[at + SIXTEEN + f] & bits[from + f];
    }
}

// Chunk i of the sums becomes the sum of the chunks of matrix i, in the rows whose bits are set: those of `rows`
// sixteens, the first of which is the sixteen `top` of the matrix.
fn sum_left(
    sums: &mut [u8],
    i: usize,
    cells: &[u8],
    bits: &[u8; MOST_VARIABLES],
    m: usize,
    top: usize,
    rows: usize,
)
    requires { (i < m) × (m * chunk ≤ length sums.old) × PartCells m rows cells.now × (m ≤ most_block) × ((top + rows) * 16 ≤ most_variables) }
    ensures by_index { (k : ℕ) → k < chunk → cell_at sums.new i k ≡ left_byte cells.now m bits.now i top rows k }
    ensures rows_kept { RowsKept chunk i sums.old sums.new }
{
    let mut acc = [0u8; CHUNK];
    for q in 0..rows {
        add_masked(
            &mut acc,
            cells,
            (q * m + i) * CHUNK,
            bits,
            (top + q) * SIXTEEN,
        );
    }
    copy_part(sums, i, CHUNK, &acc, 0);
}

// The same for each of the m matrices.
fn sum_each(
    sums: &mut [u8],
    cells: &[u8],
    bits: &[u8; MOST_VARIABLES],
    m: usize,
    top: usize,
    rows: usize,
)
    requires { (m * chunk ≤ length sums.old) × PartCells m rows cells.now × (m ≤ most_block) × ((top + rows) * 16 ≤ most_variables) }
    ensures { (i k : ℕ) → i < m → k < chunk → cell_at sums.new i k ≡ left_byte cells.now m bits.now i top rows k }
{
    for i in 0..m {
        sum_left(sums, i, cells, bits, m, top, rows);
    }
}

// Adds to each line its two sums of sixteen bytes, at the panel's columns. They are taken from memory: of a chunk in
// registers the compiler would make a chain of bytes.
fn add_each(lines: &mut [u8], sums: &[u8], m: usize, panel: usize)
    requires { LinesFit m lines.old × (m * chunk ≤ length sums.now) × (m ≤ most_block) × (panel * 16 < most_variables) }
    ensures by_index { (i h : ℕ) → i < m → h < 2
        → line_byte lines.new m i (panel * 2 + h) ≡ bit_xor (line_byte lines.old m i (panel * 2 + h)) (xor_sum 16 (λ f. cell_at sums.now i (h * 16 + f))) }
    ensures lines_beside { LinesBeside m panel lines.old lines.new }
{
    let first = panel / CHUNK_PANELS * m;
    for i in 0..m {
        let at = (first + i) * CHUNK + panel % CHUNK_PANELS * 2;
        lines[at] ^= forms_columns::sum_at(sums, i * CHUNK);
        lines[at + 1] ^= forms_columns::sum_at(sums, i * CHUNK + SIXTEEN);
    }
}

// A part of a panel, the sixteen columns of that number, of m matrices: `rows` sixteens of rows, the first of which is
// the sixteen `top`.
#[derive(Clone, Copy)]
pub struct Part {
    pub m: usize,
    pub panel: usize,
    pub top: usize,
    pub rows: usize,
}

// Adds to each line a part of a panel of its folded matrix, times the bits from the left, where the polar form is asked
// for. `cells` holds the part; the bits are lent as masks. `sums` is space.
pub fn add_left(
    lines: &mut [u8],
    sums: &mut [u8],
    cells: &[u8],
    bits: &[u8; MOST_VARIABLES],
    polar: bool,
    s: Part,
)
    requires { LinesFit s.m lines.old × (s.m * chunk ≤ length sums.old) × PartCells s.m s.rows cells.now × (s.m ≤ most_block) × (s.panel * 16 < most_variables) × ((s.top + s.rows) * 16 ≤ most_variables) }
    ensures left_added { polar ≡ true → LeftAdded s.m s.panel s.top s.rows bits.now cells.now lines.old lines.new }
    ensures lines_beside { LinesBeside s.m s.panel lines.old lines.new }
    ensures lines_unchanged { polar ≡ false → lines.new ≡ lines.old }
{
    if polar {
        sum_each(sums, cells, bits, s.m, s.top, s.rows);
        add_each(lines, sums, s.m, s.panel);
    }
}

// The sum of the products of the coordinates of f, each with its own of t, in the field F.
fn dot_in<F: Field>(f: &[u8], t: &[u8; ELEMENTS]) -> u8
    requires { length f.now ≤ chunk_bits }
    ensures { result ≡ dot_of F.coded f.now t.now (length f.now) }
{
    let mut sum: u8 = 0;
    for c in 0..f.len() {
        sum ^= F::multiply(f[c], t[c]);
    }
    sum
}

// The same in the field of the degree: each field has its own loop.
fn dot(f: &[u8], t: &[u8; ELEMENTS], degree: usize) -> u8
    requires { length f.now ≤ chunk_bits }
    ensures { result ≡ dot_of (field_of degree) f.now t.now (length f.now) }
{
    if degree == Gf16::DEGREE {
        dot_in::<Gf16>(f, t)
    } else {
        dot_in::<Gf256>(f, t)
    }
}

// Plane p becomes the sum of the entries that row r of the words chooses.
fn look_up_plane(
    planes: &mut [u8; ELEMENT_PLANES],
    p: usize,
    words: &[u64],
    r: usize,
    groups: usize,
    sums: &[u8],
)
    requires { (p < 8) × (r * 4 + 4 ≤ length words.now) × InWords groups × (most_sums ≤ length sums.now) }
    ensures by_index { (f : ℕ) → f < chunk → cell_at planes.new p f ≡ looked_up sums.now words.now r groups f }
    ensures rows_kept { RowsKept chunk p planes.old planes.new }
{
    let at = p * CHUNK;
    forms_sums::sums::look_up(&mut planes[at..at + CHUNK], words, r, groups, sums);
}

// The eight planes of the batched line whose rows of words begin with row `base`.
fn look_up_planes(
    planes: &mut [u8; ELEMENT_PLANES],
    words: &[u64],
    base: usize,
    groups: usize,
    sums: &[u8],
)
    requires { ((base + 8) * 4 ≤ length words.now) × InWords groups × (most_sums ≤ length sums.now) }
    ensures { (p f : ℕ) → p < 8 → f < chunk → cell_at planes.new p f ≡ looked_up sums.now words.now (base + p) groups f }
{
    for p in 0..Gf256::DEGREE {
        look_up_plane(planes, p, words, base + p, groups, sums);
    }
}

// Sixteen bytes of each plane become 128 elements, one for each coordinate.
fn turn_half(elements: &mut [u8], h: usize, planes: &[u8; ELEMENT_PLANES])
    requires { (h * 128 + 128 ≤ length elements.old) × (h < 2) }
    ensures by_index { (r p : ℕ) → r < 128 → p < 8 → bit_of (byte_at elements.new (h * 128 + r)) p ≡ bit_of (cell_at planes.now p (h * 16 + r / 8)) (r % 8) }
    ensures rows_kept { RowsKept 128 h elements.old elements.new }
    ensures by_index_2 { (k : ℕ) → byte_at elements.new k < byte_values }
{
    let at = h * EIGHT_ROWS;
    turn_rows(
        &mut elements[at..at + EIGHT_ROWS],
        planes,
        h * SIXTEEN,
        CHUNK,
    );
}

// The batched line of repetition e, of which `sums` has a table of chunks, times so many coordinates of its vector,
// from `from` on.
fn line_product(
    words: &[u64],
    e: usize,
    groups: usize,
    sums: &[u8],
    vectors: &[u8],
    from: usize,
    count: usize,
    degree: usize,
) -> u8
    requires { ((e * 8 + 8) * 4 ≤ length words.now) × (e < lanes) × InWords groups × (most_sums ≤ length sums.now) × (e * most_variables + most_variables ≤ length vectors.now)
        × (from + count ≤ most_variables) × (count ≤ chunk_bits) }
    ensures { (S : List ℕ) (χ : ℕ → ℕ) (m : ℕ) → Weighed S χ m sums.now words.now groups (e * 8)
        → result ≡ line_product degree vectors.now e from count (weighed_line S χ m) }
{
    let mut planes = [0u8; ELEMENT_PLANES];
    let mut elements = [0u8; ELEMENTS];
    look_up_planes(&mut planes, words, e * BITS, groups, sums);
    turn_half(&mut elements, 0, &planes);
    turn_half(&mut elements, 1, &planes);
    let at = e * MOST_VARIABLES + from;
    dot(&vectors[at..at + count], &elements, degree)
}

// Adds to each of the first tau places of mid the product of its repetition.
fn add_products(
    mid: &mut [u8; LANES],
    tau: usize,
    words: &[u64],
    groups: usize,
    sums: &[u8],
    vectors: &[u8],
    from: usize,
    count: usize,
    degree: usize,
)
    requires { (tau ≤ lanes) × WordsFit tau words.now × InWords groups × (most_sums ≤ length sums.now) × VectorsFit tau vectors.now
        × (from + count ≤ most_variables) × (count ≤ chunk_bits) }
    ensures { (S : List ℕ) (χ : ℕ → ℕ → ℕ) (m e : ℕ) → WeighedAll S χ m sums.now words.now groups tau → e < tau
        → byte_at mid.new e ≡ bit_xor (byte_at mid.old e) (line_product degree vectors.now e from count (weighed_line S (χ e) m)) }
{
    for e in 0..tau {
        mid[e] ^= line_product(words, e, groups, sums, vectors, from, count, degree);
    }
}

// Adds to each place of mid the batched line of its repetition times its vector: for each table of chunks, the
// coordinates that it has. `sums` is space for the tables of sums of the lines.
pub fn add_lines(
    mid: &mut [u8; LANES],
    sums: &mut [u8],
    lines: &[u8],
    words: &[u64],
    vectors: &[u8],
    s: Batch,
)
    requires { SumsRoom sums.old × LinesFit s.m lines.now × (s.n ≤ most_variables) × (s.m ≤ most_block) × (s.tau ≤ lanes)
        × GroupsFor s.m s.groups × WordsFit s.tau words.now × VectorsFit s.tau vectors.now × VectorsEnd s.n s.tau vectors.now }
    ensures { (χ : ℕ → ℕ → ℕ) (e : ℕ) → IsBytes χ → ChosenAll χ s.m s.tau words.now → e < s.tau
        → byte_at mid.new e
        ≡ bit_xor (byte_at mid.old e) (line_form s.degree s.n lines.now s.m χ e (coordinate_of vectors.now e)) }
{
    for g in 0..s.n.div_ceil(ELEMENTS) {
        let from = g * ELEMENTS;
        let count = ELEMENTS.min(MOST_VARIABLES - from);
        let table = strings::row_at(lines, s.m * CHUNK, g);
        forms_sums::sums::fill_sums(sums, s.groups, s.m, table);
        add_products(
            mid, s.tau, words, s.groups, sums, vectors, from, count, s.degree,
        );
    }
}
