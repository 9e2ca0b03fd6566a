// Sums of the rows that public bits select. Five rows at a time, the 32 sums of them are in a table, so that one
// addition serves five rows.
ghost use Rattle.std.specs.Prelude.{◌≡◌, ℕ, ◌+◌, ◌*◌, ◌-◌, ◌<◌, ◌≤◌, length};
ghost use Rattle.std.specs.Int.Bits.{bit_xor};
ghost use Rattle.strings.specs.Sums.{byte_at};
ghost use Rattle.strings.specs.Rows.{RowsKept};
ghost use Rattle.chunks.specs.Chunks.{chunk, cell_at};
ghost use Rattle.forms_choices.specs.Entries.{fives, most_sums, Tabled, five, word_byte, looked_up, InWords};

use chunks::cells::{copy_front, copy_part};
use chunks::subsets::fill_group;
use chunks::{CHUNK, PAIR};
use forms_choices::fives::ROW_WORDS;
use strings::add_at;

// The rows of a group.
const FIVE: usize = 5;

// The entries of the table of sums for five rows, one for each value of five bits.
pub const ENTRIES: usize = 32;

// The table of sums of the n rows, 32 entries for each five of them. Made once, it serves every plane of every
// repetition.
pub fn fill_sums(sums: &mut [u8], groups: usize, n: usize, table: &[u8])
    requires { (groups * 32 * chunk ≤ length sums.old) × (length table.now ≡ n * chunk) }
    ensures { Tabled table.now sums.new (groups * 32) }
{
    for g in 0..groups {
        fill_group(sums, CHUNK, FIVE, ENTRIES, g, n, table);
    }
}

// Where the entry stands that five j of a word chooses among the 32 of group g.
fn entry_place(w: u64, g: usize, j: usize) -> usize
    requires { (j < 10) × (g < fives) }
    ensures { (result ≡ (g * 32 + five w j) * chunk) × (five w j < 32) }
{
    (g * ENTRIES + ((w >> (5 * j)) % 32) as usize) * CHUNK
}

// Adds the entry that five j of word k chooses.
fn add_five(sum: &mut [u8; CHUNK], w: u64, sums: &[u8], k: usize, j: usize)
    requires { (j < 10) × (k * 10 + j < fives) × (most_sums ≤ length sums.now) }
    ensures { (f : ℕ) → f < chunk → byte_at sum.new f ≡ bit_xor (byte_at sum.old f) (cell_at sums.now ((k * 10 + j) * 32 + five w j) f) }
{
    add_at(sum, sums, entry_place(w, k * 10 + j, j));
}

// Adds the entries that the first N fives of word k choose, w for the first and x for the second: side by side, so that
// neither waits for the other. The last word has two fives to look up, the others ten: the count is a constant, and
// each of the two functions that this makes is called from one place, so that the compiler inlines it.
fn add_words<const N: usize>(
    first: &mut [u8; CHUNK],
    second: &mut [u8; CHUNK],
    w: u64,
    x: u64,
    sums: &[u8],
    k: usize,
)
    requires { (N ≤ 10) × (k * 10 + N ≤ fives) × (most_sums ≤ length sums.now) }
    ensures by_index { (f : ℕ) → f < chunk → byte_at first.new f ≡ bit_xor (byte_at first.old f) (word_byte sums.now k N w f) }
    ensures by_index_2 { (f : ℕ) → f < chunk → byte_at second.new f ≡ bit_xor (byte_at second.old f) (word_byte sums.now k N x f) }
{
    for j in 0..N {
        add_five(first, w, sums, k, j);
        add_five(second, x, sums, k, j);
    }
}

// Adds what the last word chooses, where there are more groups than the others have fives.
fn add_last(
    first: &mut [u8; CHUNK],
    second: &mut [u8; CHUNK],
    w: u64,
    x: u64,
    groups: usize,
    sums: &[u8],
)
    requires { InWords groups × (most_sums ≤ length sums.now) }
    ensures by_index { (f : ℕ) → f < chunk → byte_at first.new f ≡ bit_xor (byte_at first.old f) (word_byte sums.now 3 (groups - 30) w f) }
    ensures by_index_2 { (f : ℕ) → f < chunk → byte_at second.new f ≡ bit_xor (byte_at second.old f) (word_byte sums.now 3 (groups - 30) x f) }
{
    if groups > 30 {
        add_words::<2>(first, second, w, x, sums, 3);
    }
}

// Chunk 0 of out is the sum of the entries that row r of the words chooses for so many groups of five, and chunk 1 that
// of row r + 1.
pub fn look_up_two(out: &mut [u8; PAIR], words: &[u64], r: usize, groups: usize, sums: &[u8])
    requires { (r * 4 + 8 ≤ length words.now) × InWords groups × (most_sums ≤ length sums.now) }
    ensures by_index { (f : ℕ) → f < chunk → cell_at out.new 0 f ≡ looked_up sums.now words.now r groups f }
    ensures by_index_2 { (f : ℕ) → f < chunk → cell_at out.new 1 f ≡ looked_up sums.now words.now (r + 1) groups f }
{
    let mut first = [0u8; CHUNK];
    let mut second = [0u8; CHUNK];
    let at = r * ROW_WORDS;
    for k in 0..groups / 10 {
        add_words::<10>(
            &mut first,
            &mut second,
            words[at + k],
            words[at + ROW_WORDS + k],
            sums,
            k,
        );
    }
    add_last(
        &mut first,
        &mut second,
        words[at + 3],
        words[at + ROW_WORDS + 3],
        groups,
        sums,
    );
    copy_part(out, 0, CHUNK, &first, 0);
    copy_part(out, 1, CHUNK, &second, 0);
}

// dst[f] ^= sums[f] for a chunk. As the first entry is 0 this changes nothing; but it is an access to the start of two
// arrays, from which the compiler learns that it may align them, and so add from memory at once. A loop, and not
// `add_at` on the first chunk of dst: how long that array is after the call stood in no fact that a proof could use.
pub fn add_first(dst: &mut [u8], sums: &[u8])
    requires { (chunk ≤ length dst.old) × (chunk ≤ length sums.now) }
    ensures by_index { (f : ℕ) → f < chunk → byte_at dst.new f ≡ bit_xor (byte_at dst.old f) (byte_at sums.now f) }
    ensures by_index_2 { (f : ℕ) → chunk ≤ f → byte_at dst.new f ≡ byte_at dst.old f }
{
    for f in 0..CHUNK {
        dst[f] ^= sums[f];
    }
}

// Adds the entries that the first N fives of word k choose.
fn add_word<const N: usize>(sum: &mut [u8; CHUNK], w: u64, sums: &[u8], k: usize)
    requires { (N ≤ 10) × (k * 10 + N ≤ fives) × (most_sums ≤ length sums.now) }
    ensures { (f : ℕ) → f < chunk → byte_at sum.new f ≡ bit_xor (byte_at sum.old f) (word_byte sums.now k N w f) }
{
    for j in 0..N {
        add_five(sum, w, sums, k, j);
    }
}

// The sum of the entries that row r of the words chooses for so many groups of five. `look_up_two` stands beside it
// for speed: a function that is called from two places was not inlined, and a row alone waits for its own sum.
pub fn look_up(out: &mut [u8], words: &[u64], r: usize, groups: usize, sums: &[u8])
    requires { (length out.old ≡ chunk) × (r * 4 + 4 ≤ length words.now) × InWords groups × (most_sums ≤ length sums.now) }
    ensures { (f : ℕ) → f < chunk → byte_at out.new f ≡ looked_up sums.now words.now r groups f }
{
    let mut sum = [0u8; CHUNK];
    let at = r * ROW_WORDS;
    for k in 0..groups / 10 {
        add_word::<10>(&mut sum, words[at + k], sums, k);
    }
    if groups > 30 {
        add_word::<2>(&mut sum, words[at + 3], sums, 3);
    }
    copy_front(out, &sum, 0, CHUNK);
}
