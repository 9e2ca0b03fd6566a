// The batched matrix times the vectors of the repetitions. The words of what the batching bytes choose are public; the
// vectors and the stacks are secret: no branch and no index goes by them.
ghost use Rattle.std.specs.Prelude.{◌≡◌, List, ℕ, ◌+◌, ◌*◌, ◌^◌, ◌<◌, ◌≤◌, length};
ghost use Rattle.std.specs.Int.Bits.{bit_xor};
ghost use Rattle.protocol.specs.Shape.{most_variables};
ghost use Rattle.galois.specs.Degrees.{degree_of};
ghost use Rattle.strings.specs.Sums.{byte_at};
ghost use Rattle.strings.specs.Rows.{RowsKept};
ghost use Rattle.lanes.specs.Lanes.{lanes, lane_at};
ghost use Rattle.chunks.specs.Chunks.{chunk, Masks};
ghost use Rattle.forms_choices.specs.Entries.{most_sums, up_to, InWords, WordsFit, Weighed};
ghost use Rattle.forms_columns.specs.Stacks.{byte_product, planes, stack_at, stack_of, coordinate_of, StacksFit};
ghost use Rattle.forms_batching.specs.Batched.{weighed_bit, WeighedAll, VectorsFit, VectorsNarrow, VectorsAre, SixteenTurned, BesideSixteen, plane_times, row_times, CollectFits, Collected};
ghost use Rattle.forms_batching.specs.Lines.{VectorsEnd};

use super::panels::Batch;
use chunks::cells::copy_part;
use chunks::{CHUNK, PAIR};
use field::Gf256;
use format::sizes::MOST_VARIABLES;
use forms_columns::STACK;
use forms_columns::fronts::turn_block;
use lanes::LANES;
use strings::{BITS, SIXTEEN};

// A mask for each bit of an element, each a chunk.
const MASKS: usize = Gf256::DEGREE * CHUNK;

// The pairs of planes of an element of the larger field.
const PLANE_PAIRS: usize = Gf256::DEGREE / 2;

// The vectors of as many repetitions as there are lanes, one after the other.
pub const VECTORS: usize = LANES * MOST_VARIABLES;

// The sixteens of coordinates of a vector.
const VECTOR_SIXTEENS: usize = MOST_VARIABLES / SIXTEEN;

// Sixteen coordinates, from 16·c on, of the first tau repetitions: eight repetitions at a time, turned.
fn turn_sixteen(vectors: &mut [u8; VECTORS], tau: usize, table: &[u8], c: usize)
    requires { (tau ≤ lanes) × ((c * 16 + 16) * lanes ≤ length table.now) × (c * 16 + 16 ≤ most_variables) }
    ensures sixteen_turned { SixteenTurned tau c table.now vectors.new }
    ensures beside_sixteen { BesideSixteen c vectors.old vectors.new }
{
    for b in 0..tau.div_ceil(BITS) {
        let from = c * SIXTEEN * LANES + b * BITS;
        turn_block(
            vectors,
            b * BITS * VECTOR_SIXTEENS + c,
            VECTOR_SIXTEENS,
            table,
            from,
            LANES,
        );
    }
}

// The same for the first `count` sixteens of coordinates.
fn turn_sixteens(vectors: &mut [u8; VECTORS], tau: usize, table: &[u8], count: usize)
    requires { (tau ≤ lanes) × (count * 16 * lanes ≤ length table.now) × (count * 16 ≤ most_variables) }
    ensures { (e k : ℕ) → e < tau → k < count * 16 → coordinate_of vectors.new e k ≡ lane_at table.now k e }
{
    for c in 0..count {
        turn_sixteen(vectors, tau, table, c);
    }
}

// Coordinate c of the vector of repetition e, 0 from n on.
fn lane_byte(table: &[u8], c: usize, n: usize, e: usize) -> u8
    requires { (n * lanes ≤ length table.now) × (e < lanes) }
    ensures { result ≡ up_to n (λ k. lane_at table.now k e) c }
{
    if c < n { table[c * LANES + e] } else { 0 }
}

// The coordinates from `from` on.
fn fill_vector(v: &mut [u8], from: usize, table: &[u8], n: usize, e: usize)
    requires { (n * lanes ≤ length table.now) × (e < lanes) × (from ≤ most_variables) }
    ensures { (c : ℕ) → c < length v.old → byte_at v.new c ≡ up_to n (λ k. lane_at table.now k e) (from + c) }
{
    for c in 0..v.len() {
        v[c] = lane_byte(table, from + c, n, e);
    }
}

fn put_vector(vectors: &mut [u8; VECTORS], e: usize, from: usize, table: &[u8], n: usize)
    requires { (n * lanes ≤ length table.now) × (e < lanes) × (from ≤ most_variables) }
    ensures by_index { (c : ℕ) → from ≤ c → c < most_variables → coordinate_of vectors.new e c ≡ up_to n (λ k. lane_at table.now k e) c }
    ensures by_index_2 { (f c : ℕ) → c < most_variables → (f ≡ e → from ≤ c → ⊥) → coordinate_of vectors.new f c ≡ coordinate_of vectors.old f c }
{
    let at = e * MOST_VARIABLES;
    fill_vector(
        &mut vectors[at + from..at + MOST_VARIABLES],
        from,
        table,
        n,
        e,
    );
}

// The coordinates from `from` on, of the first tau repetitions.
fn fill_rest(vectors: &mut [u8; VECTORS], tau: usize, from: usize, table: &[u8], n: usize)
    requires { (n * lanes ≤ length table.now) × (tau ≤ lanes) × (from ≤ most_variables) }
    ensures by_index { (e c : ℕ) → e < tau → from ≤ c → c < most_variables → coordinate_of vectors.new e c ≡ up_to n (λ k. lane_at table.now k e) c }
    ensures by_index_2 { (e c : ℕ) → c < from → coordinate_of vectors.new e c ≡ coordinate_of vectors.old e c }
{
    for e in 0..tau {
        put_vector(vectors, e, from, table, n);
    }
}

// The vectors one after the other: the coordinates of a repetition stand together, 0 from n on. Whole sixteens of
// coordinates are turned; the others are taken one by one.
pub fn fill_vectors(vectors: &mut [u8; VECTORS], tau: usize, table: &[u8], n: usize)
    requires { (n * lanes ≤ length table.now) × (n ≤ most_variables) × (tau ≤ lanes) }
    ensures vectors_are { VectorsAre n tau table.now vectors.new }
    ensures vectors_end { VectorsEnd n tau vectors.new }
{
    let count = n / SIXTEEN;
    turn_sixteens(vectors, tau, table, count);
    fill_rest(vectors, tau, count * SIXTEEN, table, n);
}

// Both halves of a chunk become sixteen bytes of src, from `from` on.
fn fill_halves(v: &mut [u8; CHUNK], src: &[u8], from: usize)
    requires { from + 16 ≤ length src.now }
    ensures { (h f : ℕ) → h < 2 → f < 16 → byte_at v.new (h * 16 + f) ≡ byte_at src.now (from + f) }
{
    copy_part(v, 0, SIXTEEN, src, from);
    copy_part(v, 1, SIXTEEN, src, from);
}

// Adds to a stack planes 2·k and 2·k + 1 of a chunk of the batched matrix, times v.
fn absorb_two(
    t: &mut [u8],
    k: usize,
    words: &[u64],
    base: usize,
    groups: usize,
    sums: &[u8],
    masks: &[u8; MASKS],
)
    requires { (length t.old ≡ planes * chunk) × (k < 4) × ((base + 8) * 4 ≤ length words.now) × InWords groups × (most_sums ≤ length sums.now) }
    ensures { (d : ℕ) (S v : List ℕ) (χ : ℕ → ℕ) (m f z : ℕ) → Weighed S χ m sums.now words.now groups base
        → Masks v masks.now → byte_at v f < 2 ^ degree_of d → f < chunk
        → stack_at d t.new f z ≡ bit_xor (stack_at d t.old f z) (bit_xor (plane_times d v S χ m f z (2 * k)) (plane_times d v S χ m f z (2 * k + 1))) }
{
    let mut both = [0u8; PAIR];
    forms_sums::sums::look_up_two(&mut both, words, base + 2 * k, groups, sums);
    forms_planes::absorb_planes(t, 2 * k, &both, masks);
}

// Adds a chunk of the batched matrix to a stack, times v: it is the sum of the rows S, each times its byte χ, whose
// bits the words hold; r is the degree of the field, and an element has so many planes. The loop has a constant length,
// and so is unrolled.
fn absorb(
    t: &mut [u8],
    words: &[u64],
    base: usize,
    groups: usize,
    sums: &[u8],
    masks: &[u8; MASKS],
    r: usize,
)
    requires { (length t.old ≡ planes * chunk) × ((base + 8) * 4 ≤ length words.now) × InWords groups × (most_sums ≤ length sums.now) }
    ensures { (d : ℕ) (S v : List ℕ) (χ : ℕ → ℕ) (m f z : ℕ) → r ≡ degree_of d → Weighed S χ m sums.now words.now groups base
        → Masks v masks.now → byte_at v f < 2 ^ degree_of d → f < chunk
        → stack_at d t.new f z ≡ bit_xor (stack_at d t.old f z) (byte_product d (byte_at v f) (weighed_bit S χ m f z)) }
{
    for k in 0..PLANE_PAIRS {
        if 2 * k < r {
            absorb_two(t, k, words, base, groups, sums, masks);
        }
    }
}

// Adds to the stack of repetition e sixteen rows of the batched matrix, from `first` on, times the vector of e.
fn absorb_lane(
    stacks: &mut [u8],
    e: usize,
    words: &[u64],
    groups: usize,
    sums: &[u8],
    vectors: &[u8],
    first: usize,
    r: usize,
)
    requires { (e * (planes * chunk) + planes * chunk ≤ length stacks.old) × ((e * 8 + 8) * 4 ≤ length words.now) × InWords groups
        × (most_sums ≤ length sums.now) × (e * most_variables + most_variables ≤ length vectors.now) × (first + 16 ≤ most_variables) × (e < lanes) }
    ensures by_index { (d : ℕ) (S : List ℕ) (χ : ℕ → ℕ) (m h f z : ℕ) → r ≡ degree_of d → Weighed S χ m sums.now words.now groups (e * 8)
        → coordinate_of vectors.now e (first + f) < 2 ^ degree_of d → h < 2 → f < 16
        → stack_of d stacks.new e (h * 16 + f) z ≡ bit_xor (stack_of d stacks.old e (h * 16 + f) z) (row_times d vectors.now e first S χ m h f z) }
    ensures rows_kept { RowsKept (planes * chunk) e stacks.old stacks.new }
{
    let mut v = [0u8; CHUNK];
    let mut masks = [0u8; MASKS];
    fill_halves(&mut v, vectors, e * MOST_VARIABLES + first);
    chunks::masks::fill_masks(&mut masks, &v);
    let at = e * STACK;
    absorb(
        &mut stacks[at..at + STACK],
        words,
        e * BITS,
        groups,
        sums,
        &masks,
        r,
    );
}

// The same for each of the tau repetitions.
fn absorb_lanes(
    stacks: &mut [u8],
    tau: usize,
    words: &[u64],
    groups: usize,
    sums: &[u8],
    vectors: &[u8],
    first: usize,
    r: usize,
)
    requires { StacksFit tau stacks.old × WordsFit tau words.now × InWords groups × (most_sums ≤ length sums.now)
        × VectorsFit tau vectors.now × (first + 16 ≤ most_variables) × (tau ≤ lanes) }
    ensures { (d : ℕ) (S : List ℕ) (χ : ℕ → ℕ → ℕ) (m e h f z : ℕ) → r ≡ degree_of d → WeighedAll S χ m sums.now words.now groups tau
        → VectorsNarrow d tau vectors.now → e < tau → h < 2 → f < 16
        → stack_of d stacks.new e (h * 16 + f) z ≡ bit_xor (stack_of d stacks.old e (h * 16 + f) z) (row_times d vectors.now e first S (χ e) m h f z) }
{
    for e in 0..tau {
        absorb_lane(stacks, e, words, groups, sums, vectors, first, r);
    }
}

// Adds to the stacks `rows` sixteens of rows of a panel of the batched matrix, from the sixteen `top` on, each row
// times its coordinate of the vectors. The cells hold these rows. The batching bytes are public, and so are the tables
// that they index; `sums` is space for these.
pub fn collect(
    stacks: &mut [u8],
    sums: &mut [u8],
    cells: &[u8],
    words: &[u64],
    vectors: &[u8],
    top: usize,
    rows: usize,
    s: Batch,
)
    requires { CollectFits s.m s.tau s.groups top rows stacks.old sums.old cells.now words.now vectors.now }
    ensures { Collected s.degree s.tau top rows s.m words.now cells.now vectors.now stacks.old stacks.new }
{
    let r = field::degree_of(s.degree);
    for q in 0..rows {
        let table = strings::row_at(cells, s.m * CHUNK, q);
        forms_sums::sums::fill_sums(sums, s.groups, s.m, table);
        forms_sums::sums::add_first(stacks, sums);
        absorb_lanes(
            stacks,
            s.tau,
            words,
            s.groups,
            sums,
            vectors,
            (top + q) * SIXTEEN,
            r,
        );
    }
}
