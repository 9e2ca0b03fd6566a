// The product of two rows of bits over GF(2): the parity of the ones that they share.
ghost use Rattle.std.specs.Prelude.{◌≡◌, ◌+◌, ◌*◌, ◌%◌, ◌<◌, ◌≤◌, length};
ghost use Rattle.std.specs.Int.Count.{ones};
ghost use Rattle.strings.specs.Products.{bit_product};
ghost use Rattle.strings.specs.Shared.{shared};

use super::{BITS, WORD, word_at};

// The first words of row AND x, eight bytes each, added by exclusive or, which keeps the parity of their ones.
fn shared_words(row: &[u8], x: &[u8], words: usize) -> u64
    requires { (length x.now ≡ length row.now) × (length row.now ≤ 100000) × (words * 8 ≤ length row.now) }
    ensures { ones result % 2 ≡ shared (words * 8) row.now x.now % 2 }
{
    let mut sum = 0u64;
    for i in 0..words {
        sum ^= word_at(row, i * WORD) & word_at(x, i * WORD);
    }
    sum
}

// The rest of row AND x, from byte `from` on: of its last word, the bytes before these shifted out.
fn last_word(row: &[u8], x: &[u8], from: usize) -> u64
    requires { (length x.now ≡ length row.now) × (8 ≤ length row.now) × (from < length row.now) × (length row.now ≤ from + 8) }
    ensures { ones result + shared from row.now x.now ≡ shared (length row.now) row.now x.now }
{
    let at = row.len() - WORD;
    let over = from - at;
    (word_at(row, at) & word_at(x, at)) >> (over * BITS)
}

// The ones that two short rows share.
fn shared_bytes(row: &[u8], x: &[u8]) -> u32
    requires { (length x.now ≡ length row.now) × (length row.now ≤ 100000) }
    ensures { result ≡ shared (length row.now) row.now x.now }
{
    row.iter().zip(x).map(|(r, s)| (r & s).count_ones()).sum()
}

// The product of two rows of bits over GF(2), as 01 has it: row AND x, the ones counted, their parity taken. Words of
// eight bytes are added before they are counted; only a row shorter than a word is counted by bytes. The length is
// public; no branch and no index goes by the bits.
pub fn row_product(row: &[u8], x: &[u8]) -> u8
    requires { (length x.now ≡ length row.now) × (length row.now ≤ 100000) }
    ensures { (result ≡ bit_product (length row.now * 8) row.now x.now) × (result < 2) }
{
    if row.len() < WORD {
        return (shared_bytes(row, x) % 2) as u8;
    }
    let words = (row.len() - 1) / WORD;
    let sum = shared_words(row, x, words) ^ last_word(row, x, words * WORD);
    (sum.count_ones() % 2) as u8
}
