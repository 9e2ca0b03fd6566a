// Spare bits, as 01 has them: those past the last coordinate of a row, which must be 0.
ghost use Rattle.std.specs.Prelude.{◌≡◌, ◌+◌, ◌*◌, ◌<◌, ◌≤◌, ◌%◌, ◌^◌, eqb, length};
ghost use Rattle.protocol.specs.Strings.{bytes_for, spare_zero};
ghost use Rattle.rows.specs.Spare.{bits_spare};

use format::sizes::bytes_for;
use strings::BITS;

// The spare bits of all rows together, none of them looked at alone: rows may be secret, so every turn does the same
// and nothing leaves early. By an index: a fold over `chunks_exact` takes 1.6 cycles a row, and this one 1.
fn spare_bits(s: &[u8], bits: usize, rows: usize) -> u8
    requires { (length s.now ≡ rows * bytes_for bits) × (1 ≤ bits % 8) × (bits + 7 < 2 ^ 64) }
    ensures { eqb result 0 ≡ bits_spare bits rows s.now }
{
    let width = bytes_for(bits);
    let used = bits % BITS;
    let mut found: u8 = 0;
    for i in 0..rows {
        found |= s[i * width + width - 1] >> used;
    }
    found
}

// Are the spare bits of each row 0? The rows are of so many bits each, and fill s.
pub fn rows_spare(s: &[u8], bits: usize, rows: usize) -> bool
    requires { (length s.now ≡ rows * bytes_for bits) × (bits + 7 < 2 ^ 64) }
    ensures { result ≡ bits_spare bits rows s.now }
{
    if bits % BITS == 0 {
        return true;
    }
    spare_bits(s, bits, rows) == 0
}

// The same of one row.
pub fn row_spare(s: &[u8], bits: usize) -> bool
    requires { (length s.now ≡ bytes_for bits) × (bits + 7 < 2 ^ 64) }
    ensures { result ≡ spare_zero s.now bits }
{
    rows_spare(s, bits, 1)
}
