// A part of a panel of the batched matrix, in stacks.
ghost use Rattle.forms_batching.specs.Batched.{CollectFits, PartStacked};

use chunks::{CHUNK, MOST_BLOCK};
use forms_columns::STACK;
use forms_folds::CELL_SIXTEENS;

// The chunks of a piece, one for each equation and sixteen rows: the space that is lent for the cells.
pub const CELLS: usize = CELL_SIXTEENS * MOST_BLOCK * CHUNK;

// How equations are batched: m of them, of n variables, with rows of `width` bytes, for tau repetitions. So many
// groups of five are looked up. Whether the polar form is asked for. The degree of the field.
#[derive(Clone, Copy)]
pub struct Batch {
    pub n: usize,
    pub width: usize,
    pub m: usize,
    pub tau: usize,
    pub groups: usize,
    pub polar: bool,
    pub degree: usize,
}

// The stacks of `rows` sixteens of rows of a panel, from the sixteen `top` on: from zeros, the columns of the batched
// matrix, times the vectors from the left. `cells` holds these rows; `sums` is space.
pub fn stack_part(
    stacks: &mut [u8],
    sums: &mut [u8],
    cells: &[u8],
    words: &[u64],
    vectors: &[u8],
    top: usize,
    rows: usize,
    s: Batch,
)
    requires { CollectFits s.m s.tau s.groups top rows stacks.old sums.old cells.now words.now vectors.now }
    ensures { PartStacked s.degree s.tau top rows s.m words.now cells.now vectors.now stacks.new }
{
    stacks[..s.tau * STACK].fill(0);
    super::stacks::collect(stacks, sums, cells, words, vectors, top, rows, s);
}
