// The batched forms of the equations at the vectors of all repetitions (01, prover's rules). The key and the batching
// bytes are public; the vectors and the witness are secret.
ghost use Rattle.std.specs.Prelude.{◌≡◌, ℕ, ◌+◌, ◌*◌, ◌<◌, ◌≤◌, length, take, drop};
ghost use Rattle.protocol.specs.Strings.{bit};
ghost use Rattle.strings.specs.Sums.{byte_at};
ghost use Rattle.strings.specs.Rows.{RowsKept};
ghost use Rattle.lanes.specs.Lanes.{LanesAdded};
ghost use Rattle.chunks.specs.Chunks.{chunk, cell_at};
ghost use Rattle.forms_columns.specs.Stacks.{coordinate_of};
ghost use Rattle.forms_batching.specs.Lines.{lines_tables, LinesFit};
ghost use Rattle.forms.specs.Batch.{LinesAre, forms_byte, middles_byte, block_forms, block_middles, FormsInputs, BlockInputs, BatchInputs};

use chunks::{CHUNK, MOST_BLOCK};
use format::sizes::MOST_VARIABLES;
use forms_batching::lines::LINES;
use forms_batching::panels::Batch;
use forms_choices::fives::{ROW_WORDS, fill_words, groups_for};
use forms_pieces::add_forms;
use lanes::{Dimensions, LANES};
use strings::BITS;

// The words of the choices: a row for each bit of a byte, for each of as many repetitions as a key may have.
const WORDS: usize = BITS * LANES * ROW_WORDS;

// Chunk r of the lines begins with so many bytes of b, from `from` on.
fn put_chunk(lines: &mut [u8], r: usize, b: &[u8], from: usize, len: usize)
    requires { (r * chunk + chunk ≤ length lines.old) × (from + len ≤ length b.now) × (len ≤ chunk) }
    ensures by_index { (f : ℕ) → f < len → cell_at lines.new r f ≡ byte_at b.now (from + f) }
    ensures rows_kept { RowsKept chunk r lines.old lines.new }
{
    let at = r * CHUNK;
    chunks::cells::copy_front(&mut lines[at..at + CHUNK], b, from, len);
}

// Table g of the lines: a chunk of each of the m rows of b, of `width` bytes.
fn put_table(lines: &mut [u8], g: usize, b: &[u8], width: usize, m: usize)
    requires { ((g * m + m) * chunk ≤ length lines.old) × (length b.now ≡ m * width) × (g * chunk ≤ width) }
    ensures by_index { (i f : ℕ) → i < m → f < chunk → g * chunk + f < width → cell_at lines.new (g * m + i) f ≡ byte_at b.now (i * width + (g * chunk + f)) }
    ensures by_index_2 { (r f : ℕ) → r < g * m → f < chunk → cell_at lines.new r f ≡ cell_at lines.old r f }
{
    let len = CHUNK.min(width - g * CHUNK);
    for i in 0..m {
        put_chunk(lines, g * m + i, b, i * width + g * CHUNK, len);
    }
}

// The m lines become the rows of b, of `width` bytes.
fn put_lines(lines: &mut [u8], b: &[u8], width: usize, m: usize)
    requires { LinesFit m lines.old × (length b.now ≡ m * width) × (width ≤ lines_tables * chunk) }
    ensures { LinesAre m width b.now lines.new }
{
    for g in 0..width.div_ceil(CHUNK) {
        put_table(lines, g, b, width, m);
    }
}

// `count` rows of a table, from row `first` on, as that part of it.
fn rows_at(table: &[u8], width: usize, first: usize, count: usize) -> &[u8]
    requires { first * width + count * width ≤ length table.now }
    ensures { (result.now ≡ take (count * width) (drop (first * width) table.now)) × (length result.now ≡ count * width) }
{
    let at = first * width;
    &table[at..at + count * width]
}

// How many equations there are, of how many variables, for how many repetitions; whether the polar form is asked for;
// and the degree of the field. The flag is no Option of the bits: bits that are all 0 have one formula for both cases.
#[derive(Clone, Copy)]
pub struct Forms {
    pub n: usize,
    pub m: usize,
    pub tau: usize,
    pub polar: bool,
    pub degree: usize,
}

// A block of a key's equations: `count` of them, from `from` on.
#[derive(Clone, Copy)]
pub struct Block {
    pub forms: Forms,
    pub from: usize,
    pub count: usize,
}

// What a block of equations adds: see `batch_forms`. The sections a and b are lent from the block's first equation to
// its last.
fn batch_block(
    quad: &mut [u8; LANES],
    lin: &mut [u8; LANES],
    cells: &mut [u8],
    a: &[u8],
    b: &[u8],
    xs: &[u8],
    chi: &[u8],
    vectors: &[u8],
    k: Block,
)
    requires { BlockInputs k.forms.degree k.forms.n k.forms.m k.forms.tau k.from k.count quad.old lin.old cells.old a.now b.now xs.now chi.now vectors.now k.forms.polar }
    ensures lanes_added { LanesAdded k.forms.tau (λ e. block_forms k.forms.degree k.forms.n k.forms.m k.from k.count a.now chi.now e (coordinate_of vectors.now e))
        quad.old quad.new }
    ensures lanes_added_2 { LanesAdded k.forms.tau
        (λ e. block_middles k.forms.degree k.forms.n k.forms.m k.from k.count a.now b.now (byte_at xs.now) chi.now e (coordinate_of vectors.now e))
        lin.old lin.new }
{
    let f = k.forms;
    let groups = groups_for(k.count);
    let width = f.n.div_ceil(BITS);
    // No heap: room for the largest key, of which the front is used.
    let mut words = [0u64; WORDS];
    let mut lines = [0u8; LINES];
    fill_words(&mut words, chi, f.m, k.from, k.count, f.tau);
    put_lines(&mut lines, b, width, k.count);
    let s = Batch {
        n: f.n,
        width,
        m: k.count,
        tau: f.tau,
        groups,
        polar: f.polar,
        degree: f.degree,
    };
    add_forms(quad, lin, &mut lines, cells, a, &words, vectors, xs, s);
}

// The batched forms of a key, added to what stands there: fᵀ·A·f to quad, and xᵀ·A·f + (A·x)ᵀ·f + b·f to lin, where f
// is the vector of repetition e. The bits of x are lent one to a byte, 0 from n on. Where the polar form is not asked
// for they are all 0, and lin gets b·f. The equations go through the kernels block after block. `cells` is space.
pub fn batch_forms(
    quad: &mut [u8; LANES],
    lin: &mut [u8; LANES],
    cells: &mut [u8],
    a: &[u8],
    b: &[u8],
    xs: &[u8],
    chi: &[u8],
    vectors: &[u8],
    f: Forms,
)
    requires { FormsInputs f.degree f.n f.m f.tau quad.old lin.old cells.old a.now b.now xs.now chi.now vectors.now f.polar }
    ensures lanes_added { LanesAdded f.tau (λ e. forms_byte f.degree f.n f.m a.now chi.now e (coordinate_of vectors.now e))
        quad.old quad.new }
    ensures lanes_added_2 { LanesAdded f.tau
        (λ e. middles_byte f.degree f.n f.m a.now b.now (byte_at xs.now) chi.now e (coordinate_of vectors.now e))
        lin.old lin.new }
{
    let width = f.n.div_ceil(BITS);
    let size = f.n * width;
    for g in 0..f.m.div_ceil(MOST_BLOCK) {
        let from = g * MOST_BLOCK;
        let count = MOST_BLOCK.min(f.m - from);
        let k = Block {
            forms: f,
            from,
            count,
        };
        batch_block(
            quad,
            lin,
            cells,
            rows_at(a, size, from, count),
            rows_at(b, width, from, count),
            xs,
            chi,
            vectors,
            k,
        );
    }
}

// The batched coefficients of the tau repetitions, added to what stands in qs0 and qs1, of the sections a and b of a
// key at the witness x. `cells` is space.
pub fn batch_lanes(
    qs0: &mut [u8; LANES],
    qs1: &mut [u8; LANES],
    cells: &mut [u8],
    a: &[u8],
    b: &[u8],
    x: &[u8],
    chi: &[u8],
    vectors: &[u8],
    d: Dimensions,
)
    requires { BatchInputs d.degree d.n d.m d.tau qs0.old qs1.old cells.old a.now b.now x.now chi.now vectors.now }
    ensures lanes_added { LanesAdded d.tau (λ e. forms_byte d.degree d.n d.m a.now chi.now e (coordinate_of vectors.now e))
        qs0.old qs0.new }
    ensures lanes_added_2 { LanesAdded d.tau
        (λ e. middles_byte d.degree d.n d.m a.now b.now (bit x.now) chi.now e (coordinate_of vectors.now e))
        qs1.old qs1.new }
{
    let mut xs = [0u8; MOST_VARIABLES];
    equations::unpack(&mut xs, x, d.n);
    let f = Forms {
        n: d.n,
        m: d.m,
        tau: d.tau,
        polar: true,
        degree: d.degree,
    };
    batch_forms(qs0, qs1, cells, a, b, &xs, chi, vectors, f);
}
