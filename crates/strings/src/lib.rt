// Byte strings as the code walks them: sums in place, rows of a table, single bits, and words of eight bytes.
#![tactic(auto)]

pub mod copies;
pub mod parity;

ghost use Rattle.std.specs.Prelude.{◌≡◌, ℕ, ◌+◌, ◌*◌, ◌<◌, ◌≤◌, length};
ghost use Rattle.std.specs.Int.Bits.{bit_xor};
ghost use Rattle.protocol.specs.Lists.{block_at};
ghost use Rattle.protocol.specs.Strings.{bit};
ghost use Rattle.strings.specs.Sums.{byte_at};
ghost use Rattle.strings.specs.Rows.{RowAdded, RowsKept};
ghost use Rattle.strings.specs.Words.{word_of};

// The values of a byte, and the mask of a bit that is set: all bits of a byte.
pub const BYTE_VALUES: u64 = 256;

pub const MASK_BYTE: u8 = 255;

// The bits of a byte.
pub const BITS: usize = 8;

// The bytes of a word.
pub const WORD: usize = 8;

// The bytes of a register of the machine. Loops of this length stay in registers.
pub const SIXTEEN: usize = 16;

// dst[i] ^= src[i], for each i.
pub fn xor_into(dst: &mut [u8], src: &[u8])
    requires { length src.now ≡ length dst.old }
    ensures { (i : ℕ) → i < length dst.old → byte_at dst.new i ≡ bit_xor (byte_at dst.old i) (byte_at src.now i) }
{
    for i in 0..dst.len() {
        dst[i] ^= src[i];
    }
}

// dst[i] ^= src[from + i], for each i. The length is a constant, so that a caller's local array stays in registers.
pub fn add_at<const N: usize>(dst: &mut [u8; N], src: &[u8], from: usize)
    requires { from + N ≤ length src.now }
    ensures { (i : ℕ) → i < N → byte_at dst.new i ≡ bit_xor (byte_at dst.old i) (byte_at src.now (from + i)) }
{
    for i in 0..N {
        dst[i] ^= src[from + i];
    }
}

// dst[i] = a[i] ^ b[i], for each i.
pub fn xor_of(dst: &mut [u8], a: &[u8], b: &[u8])
    requires { (length a.now ≡ length dst.old) × (length b.now ≡ length dst.old) }
    ensures { (i : ℕ) → i < length dst.old → byte_at dst.new i ≡ bit_xor (byte_at a.now i) (byte_at b.now i) }
{
    for i in 0..dst.len() {
        dst[i] = a[i] ^ b[i];
    }
}

// Row i of a table, as that part of it.
pub fn row_at(table: &[u8], width: usize, i: usize) -> &[u8]
    requires { i * width + width ≤ length table.now }
    ensures { (result.now ≡ block_at table.now width i) × (length result.now ≡ width) }
{
    let from = i * width;
    &table[from..from + width]
}

// The same of rows whose length is a constant.
pub fn row_of<const N: usize>(table: &[u8], i: usize) -> &[u8; N]
    requires { i * N + N ≤ length table.now }
    ensures { result.now ≡ block_at table.now N i }
{
    let from = i * N;
    table[from..].first_chunk::<N>().unwrap()
}

// Adds src to row i of a table whose rows are as long as src, and leaves the other rows.
pub fn xor_row(table: &mut [u8], i: usize, src: &[u8])
    requires { i * length src.now + length src.now ≤ length table.old }
    ensures row_added { RowAdded (length src.now) i src.now table.old table.new }
    ensures rows_kept { RowsKept (length src.now) i table.old table.new }
{
    let w = src.len();
    let at = i * w;
    xor_into(&mut table[at..at + w], src);
}

// Coordinate c of a bit string.
pub fn bit_at(s: &[u8], c: usize) -> u8
    requires { c < length s.now * 8 }
    ensures { result ≡ bit s.now c }
{
    (s[c / BITS] >> (c % BITS)) % 2
}

// Adds a bit to coordinate c of a bit string.
pub fn xor_bit(s: &mut [u8], c: usize, q: u8)
    requires { (c < length s.old * 8) × (q < 2) }
    ensures c_after { bit s.new c ≡ bit_xor (bit s.old c) q }
    ensures by_index { (d : ℕ) → (d ≡ c → ⊥) → bit s.new d ≡ bit s.old d }
{
    s[c / BITS] ^= q << (c % BITS);
}

// Eight bytes as one number, lowest first: one load. Byte by byte, since with `first_chunk` the time of question 11
// hangs more on where its code comes to lie (docs/DESIGN-PASS.md).
pub fn word_at(s: &[u8], at: usize) -> u64
    requires { at + 8 ≤ length s.now }
    ensures { result ≡ word_of s.now at 8 }
{
    u64::from_le_bytes([
        s[at],
        s[at + 1],
        s[at + 2],
        s[at + 3],
        s[at + 4],
        s[at + 5],
        s[at + 6],
        s[at + 7],
    ])
}
