// Which entries of the tables of sums the batching bytes choose, which are public: row 8·e + p is for bit p of the
// bytes of repetition e, a number below 32 for each five equations. A word holds ten of them, so that one load serves
// ten look-ups; the last two of 32 begin a fourth word, whose other fives are not looked up.
ghost use Rattle.std.specs.Prelude.{◌≡◌, ℕ, ◌+◌, ◌*◌, ◌<◌, ◌≤◌, length};
ghost use Rattle.strings.specs.Sums.{byte_at};
ghost use Rattle.strings.specs.Rows.{RowsKept};
ghost use Rattle.chunks.specs.Chunks.{most_block};
ghost use Rattle.forms_choices.specs.Entries.{fives, picks_bytes, fives_word, Chosen, ChosenAll, WordsFit, GroupsFor};

use super::picks::{FIVES, PICKS, SIXTEENS, TAKEN, choose_all, fill_rows};
use chunks::MOST_BLOCK;
use chunks::cells::copy_front;
use strings::BITS;

// The words of a row.
pub const ROW_WORDS: usize = 4;

// Room for the bytes of the most equations of a block, and for what is taken where the last five begins.
const BYTES: usize = MOST_BLOCK + TAKEN;

// The numbers of a word.
const TEN: usize = 10;

// A word: ten numbers, five bits to each, the first lowest.
fn word_at(picks: &[u8; PICKS], at: usize) -> u64
    requires { at + 10 ≤ picks_bytes }
    ensures { result ≡ fives_word picks.now at }
{
    let mut word = 0u64;
    for k in 0..TEN {
        word = word * 32 + u64::from(picks[at + TEN - 1 - k]);
    }
    word
}

// The four words of a row. The last takes eight numbers of the next bit too, which are not looked up.
fn put(row: &mut [u64], picks: &[u8; PICKS], at: usize)
    requires { (length row.old ≡ 4) × (at + 40 ≤ picks_bytes) }
    ensures { (k : ℕ) → k < 4 → byte_at row.new k ≡ fives_word picks.now (at + k * 10) }
{
    for k in 0..ROW_WORDS {
        row[k] = word_at(picks, at + k * TEN);
    }
}

// Row r, which is for bit p.
fn put_row(words: &mut [u64], r: usize, p: usize, picks: &[u8; PICKS])
    requires { (r * 4 + 4 ≤ length words.old) × (p < 8) }
    ensures by_index { (k : ℕ) → k < 4 → byte_at words.new (r * 4 + k) ≡ fives_word picks.now (p * fives + k * 10) }
    ensures rows_kept { RowsKept 4 r words.old words.new }
{
    let at = r * ROW_WORDS;
    put(&mut words[at..at + ROW_WORDS], picks, p * FIVES);
}

// The eight rows of repetition e.
fn put_rows(words: &mut [u64], e: usize, picks: &[u8; PICKS])
    requires { (e * 8 + 8) * 4 ≤ length words.old }
    ensures by_index { (p k : ℕ) → p < 8 → k < 4 → byte_at words.new ((e * 8 + p) * 4 + k) ≡ fives_word picks.now (p * fives + k * 10) }
    ensures by_index_2 { (q k : ℕ) → q < e * 8 → k < 4 → byte_at words.new (q * 4 + k) ≡ byte_at words.old (q * 4 + k) }
{
    for p in 0..BITS {
        put_row(words, e * BITS + p, p, picks);
    }
}

// The rows of repetition e, whose m bytes stand in chi from `at` on.
fn fill_repetition(words: &mut [u64], e: usize, chi: &[u8], at: usize, m: usize)
    requires { (m ≤ most_block) × ((e * 8 + 8) * 4 ≤ length words.old) × (at + m ≤ length chi.now) }
    ensures by_index { (χ : ℕ → ℕ → ℕ) (p : ℕ) → p < 8 → ((i : ℕ) → i < m → χ e i ≡ byte_at chi.now (at + i))
        → Chosen χ m words.new (e * 8 + p) }
    ensures by_index_2 { (q k : ℕ) → q < e * 8 → k < 4 → byte_at words.new (q * 4 + k) ≡ byte_at words.old (q * 4 + k) }
{
    let mut bytes = [0u8; BYTES];
    copy_front(&mut bytes, chi, at, m);
    let mut rows = [0u8; SIXTEENS];
    fill_rows(&mut rows, 0, &bytes);
    fill_rows(&mut rows, 1, &bytes);
    let mut picks = [0u8; PICKS];
    choose_all(&mut picks, &rows);
    put_rows(words, e, &picks);
}

// The fives that are looked up for m equations: those of whole words of ten, or all 32.
pub fn groups_for(m: usize) -> usize
    requires { m ≤ most_block }
    ensures { GroupsFor m result }
{
    ((m + 49) / 50 * TEN).min(FIVES)
}

// The words of what m bytes of each of tau repetitions choose. Those of repetition e stand in chi from e·stride + from
// on: a block of equations is batched by a part of each repetition's bytes.
pub fn fill_words(words: &mut [u64], chi: &[u8], stride: usize, from: usize, m: usize, tau: usize)
    requires { (m ≤ most_block) × (from + m ≤ stride) × WordsFit tau words.old × (length chi.now ≡ tau * stride) }
    ensures { ChosenAll (λ e i. byte_at chi.now (e * stride + from + i)) m tau words.new }
{
    for e in 0..tau {
        fill_repetition(words, e, chi, e * stride + from, m);
    }
}
