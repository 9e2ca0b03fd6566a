// The number that bit p of each of five bytes writes, for each bit and each five: sixteen fives to a register. Bytes
// five apart are costly to gather, so eight are taken where each five begins, and merged into rows: row z has byte z
// of each of sixteen fives.
ghost use Rattle.std.specs.Prelude.{◌≡◌, ℕ, ◌+◌, ◌*◌, ◌/◌, ◌%◌, ◌<◌, ◌≤◌, length};
ghost use Rattle.strings.specs.Sums.{byte_at};
ghost use Rattle.strings.specs.Rows.{RowsKept};
ghost use Rattle.chunks.specs.Chunks.{most_block};
ghost use Rattle.forms_choices.specs.Entries.{fives, choice, in_rows};

use chunks::MOST_BLOCK;
use chunks::cells::copy_apart;
use chunks::turns::{EIGHT_ROWS, part};
use strings::{BITS, SIXTEEN};

// The bytes of which a number is chosen.
const FIVE: usize = 5;

// The numbers of one bit, for the most fives.
pub const FIVES: usize = MOST_BLOCK / FIVE;

// The numbers of all bits, with room for ten where the last two begin.
pub const PICKS: usize = BITS * FIVES + 8;

// So many bytes are taken where each five begins: as many as rows are merged into.
pub const TAKEN: usize = 8;

// The bytes of two sixteens of fives, eight rows each.
pub const SIXTEENS: usize = 2 * EIGHT_ROWS;

// The rows of the sixteen fives h. They are taken eight bytes apart: after each, three bytes of the next.
pub fn fill_rows(rows: &mut [u8; SIXTEENS], h: usize, bytes: &[u8])
    requires { (h < 2) × (most_block + 3 ≤ length bytes.now) }
    ensures by_index { (i : ℕ) → i < 128 → byte_at rows.new (h * 128 + i) ≡ byte_at bytes.now (h * 80 + i % 16 * 5 + i / 16) }
    ensures rows_kept { RowsKept 128 h rows.old rows.new }
{
    let mut apart = [0u8; EIGHT_ROWS];
    copy_apart(
        &mut apart,
        SIXTEEN,
        TAKEN,
        bytes,
        h * (SIXTEEN * FIVE),
        FIVE,
    );
    let at = h * EIGHT_ROWS;
    part(&mut rows[at..at + EIGHT_ROWS], &apart);
}

// Bit p of each of five bytes, the first lowest.
fn choose(rows: &[u8; SIXTEENS], h: usize, g: usize, p: usize) -> u8
    requires { (h < 2) × (g < 16) × (p < 8) }
    ensures { result ≡ choice (in_rows rows.now) p (h * 16 + g) }
{
    let at = h * EIGHT_ROWS + g;
    let mut number = 0u8;
    for z in 0..FIVE {
        number = number * 2 + (rows[at + (FIVE - 1 - z) * SIXTEEN] >> p) % 2;
    }
    number
}

fn choose_both(plane: &mut [u8], rows: &[u8; SIXTEENS], p: usize)
    requires { (length plane.old ≡ fives) × (p < 8) }
    ensures { (g : ℕ) → g < fives → byte_at plane.new g ≡ choice (in_rows rows.now) p g }
{
    for g in 0..SIXTEEN {
        plane[g] = choose(rows, 0, g, p);
        plane[SIXTEEN + g] = choose(rows, 1, g, p);
    }
}

fn choose_at(picks: &mut [u8; PICKS], rows: &[u8; SIXTEENS], p: usize)
    requires { p < 8 }
    ensures by_index { (g : ℕ) → g < fives → byte_at picks.new (p * fives + g) ≡ choice (in_rows rows.now) p g }
    ensures rows_kept { RowsKept fives p picks.old picks.new }
{
    let at = p * FIVES;
    choose_both(&mut picks[at..at + FIVES], rows, p);
}

// All eight bits, before any is written on, so that they stay in registers.
pub fn choose_all(picks: &mut [u8; PICKS], rows: &[u8; SIXTEENS])
    ensures { (p g : ℕ) → p < 8 → g < fives → byte_at picks.new (p * fives + g) ≡ choice (in_rows rows.now) p g }
{
    for p in 0..BITS {
        choose_at(picks, rows, p);
    }
}
