// Eight rows of bits turned into columns of bytes, sixteen bytes of each row at a time, and sixteen rows of bytes into
// columns: lengths are constants, so that the loops are of whole registers. What is turned may be secret: no branch and
// no index goes by it.
ghost use Rattle.std.specs.Prelude.{◌≡◌, ℕ, ◌+◌, ◌*◌, ◌/◌, ◌%◌, ◌<◌, ◌≤◌, length};
ghost use Rattle.strings.specs.Sums.{byte_at};
ghost use Rattle.chunks.specs.Turns.{Step, Exchanged, Passed, Turned, TurnedAt};

use super::cells::copy_apart;
use strings::{BITS, SIXTEEN};

// The bytes of eight rows of sixteen: a row for each bit of a byte.
pub const EIGHT_ROWS: usize = BITS * SIXTEEN;

// The first four of these rows, or the last.
const HALF: usize = EIGHT_ROWS / 2;

// The rows' first half and last half exchange the bits s places apart. Callers give s and mask as constants.
fn exchange(out: &mut [u8; EIGHT_ROWS], rows: &[u8; EIGHT_ROWS], s: usize, mask: u8)
    requires { (s < 8) × Step s mask }
    ensures { Exchanged s rows.now 64 out.new }
{
    for j in 0..HALF {
        let a = rows[j];
        let b = rows[HALF + j];
        let moved = ((a >> s) ^ b) & mask;
        out[j] = a ^ (moved << s);
        out[HALF + j] = b ^ moved;
    }
}

// Byte j of the first half and byte j of the last, side by side.
fn merge(out: &mut [u8], rows: &[u8; EIGHT_ROWS])
    requires { 128 ≤ length out.old }
    ensures { (i : ℕ) → i < 128 → byte_at out.new i ≡ byte_at rows.now (i % 2 * 64 + i / 2) }
{
    for j in 0..HALF {
        out[2 * j] = rows[j];
        out[2 * j + 1] = rows[HALF + j];
    }
}

// A pass. In one loop the machine would take half registers only.
fn one_pass(out: &mut [u8], rows: &[u8; EIGHT_ROWS], s: usize, mask: u8)
    requires { (s < 8) × Step s mask × (128 ≤ length out.old) }
    ensures { Passed s 64 rows.now 128 out.new }
{
    let mut between = [0u8; EIGHT_ROWS];
    exchange(&mut between, rows, s, mask);
    merge(out, &between);
}

// Byte r of out becomes column r of the eight rows. Each pass moves one bit of a row's number from a byte's place to a
// bit's place.
pub fn turn(out: &mut [u8], rows: &[u8; EIGHT_ROWS])
    requires { 128 ≤ length out.old }
    ensures { Turned 16 rows.now out.new }
{
    let mut one = [0u8; EIGHT_ROWS];
    let mut two = [0u8; EIGHT_ROWS];
    one_pass(&mut one, rows, 4, 15);
    one_pass(&mut two, &one, 2, 51);
    one_pass(out, &two, 1, 85);
}

// Sixteen bytes of each of eight rows, which stand `width` bytes apart in src, the first at `from`.
pub fn turn_rows(out: &mut [u8], src: &[u8], from: usize, width: usize)
    requires { (from + 7 * width + 16 ≤ length src.now) × (128 ≤ length out.old) }
    ensures { TurnedAt width from src.now out.new }
{
    let mut rows = [0u8; EIGHT_ROWS];
    copy_apart(&mut rows, BITS, SIXTEEN, src, from, width);
    turn(out, &rows);
}

// Sixteen rows of eight bytes become eight columns of sixteen: each merge moves one bit of a row's number to the low
// end of a byte's place.
pub fn part(cols: &mut [u8], rows: &[u8; EIGHT_ROWS])
    requires { 128 ≤ length cols.old }
    ensures { (i : ℕ) → i < 128 → byte_at cols.new i ≡ byte_at rows.now (i % 16 * 8 + i / 16) }
{
    let mut one = [0u8; EIGHT_ROWS];
    let mut two = [0u8; EIGHT_ROWS];
    merge(&mut one, rows);
    merge(&mut two, &one);
    merge(&mut one, &two);
    merge(cols, &one);
}
