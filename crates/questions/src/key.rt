// The degree and the key: question 16, questions 1 to 4 of 01; and the sections of the key.
ghost use Rattle.std.specs.Prelude.{◌≡◌, true, ◌&&◌, ◌+◌, ◌*◌, ◌<◌, length, get_or, drop};
ghost use Rattle.protocol.specs.Strings.{bytes_for};
ghost use Rattle.protocol.specs.Frames.{section_no, framed_length};
ghost use Rattle.protocol.specs.Setting.{served};
ghost use Rattle.protocol.specs.Shape.{limits};
ghost use Rattle.protocol.specs.Key.{key_lengths, key_spare, section_a, section_b, section_y};
ghost use Rattle.protocol.specs.Answers.{ask};
ghost use Rattle.format.specs.Sizes.{setting_for, alphabet_for, shape_for, SizesOf};
ghost use Rattle.format.specs.Verdict.{told};
ghost use Rattle.protocol.specs.Calls.{key_questions};
ghost use Rattle.questions.specs.Asking.{header_questions, SizedKey};

use format::sizes::{HEADER, Sizes, degree_served, in_limits, key_lengths};
use format::{Reason, Refusal, ask};
use rows::spare::{row_spare, rows_spare};
use sections::{framed_length, section_no, sections_form};

// The bytes of a key of these sizes.
pub fn key_bytes(s: Sizes) -> usize
    requires { limits (shape_for s) ≡ true }
    ensures { result ≡ 8 + framed_length (key_lengths (alphabet_for s) (shape_for s)) }
{
    let lengths = key_lengths(s);
    HEADER + framed_length(&lengths)
}

// Section i of a key whose sections are exact, as part of it.
fn key_section(key: &[u8], s: Sizes, i: usize) -> &[u8]
    requires { SizedKey (alphabet_for s) (shape_for s) key.now × (i < 3) }
    ensures { (result.now ≡ section_no (key_lengths (alphabet_for s) (shape_for s)) i (drop 8 key.now)) × (length result.now ≡ get_or (key_lengths (alphabet_for s) (shape_for s)) i 0) }
{
    let lengths = key_lengths(s);
    section_no(&key[HEADER..], &lengths, i)
}

// The matrices A.
pub fn section_a(key: &[u8], s: Sizes) -> &[u8]
    requires { SizedKey (alphabet_for s) (shape_for s) key.now }
    ensures { (result.now ≡ section_a (alphabet_for s) (shape_for s) key.now) × (length result.now ≡ s.m * s.n * bytes_for s.n) }
{
    key_section(key, s, 0)
}

// The linear parts b.
pub fn section_b(key: &[u8], s: Sizes) -> &[u8]
    requires { SizedKey (alphabet_for s) (shape_for s) key.now }
    ensures { (result.now ≡ section_b (alphabet_for s) (shape_for s) key.now) × (length result.now ≡ s.m * bytes_for s.n) }
{
    key_section(key, s, 1)
}

// The right sides y.
pub fn section_y(key: &[u8], s: Sizes) -> &[u8]
    requires { SizedKey (alphabet_for s) (shape_for s) key.now }
    ensures { (result.now ≡ section_y (alphabet_for s) (shape_for s) key.now) × (length result.now ≡ bytes_for s.m) }
{
    key_section(key, s, 2)
}

// Question 4: are the key's spare bits 0?
pub fn key_spare(key: &[u8], s: Sizes) -> bool
    requires { SizedKey (alphabet_for s) (shape_for s) key.now }
    ensures { result ≡ key_spare (alphabet_for s) (shape_for s) key.now }
{
    let n = s.n;
    let m = s.m;
    rows_spare(section_a(key, s), n, m * n)
        & rows_spare(section_b(key, s), n, m)
        & row_spare(section_y(key, s), m)
}

// Questions 1 to 4.
fn header_form(key: &[u8], s: Sizes) -> Result<(), Refusal>
    requires { SizesOf key.now s }
    ensures { told result ≡ ask (header_questions (alphabet_for s) key.now) }
{
    ask(HEADER <= key.len(), Reason::ShortHeader)?;
    ask(in_limits(s), Reason::SizeOutOfRange)?;
    let lengths = key_lengths(s);
    sections_form(key, HEADER, &lengths, Reason::KeyLength)?;
    ask(key_spare(key, s), Reason::KeySpareBit)
}

// Question 16, and then 1 to 4.
pub fn key_form(key: &[u8], s: Sizes) -> Result<(), Refusal>
    requires { SizesOf key.now s }
    ensures { told result ≡ ask (key_questions (setting_for s) key.now) }
{
    ask(degree_served(s), Reason::DegreeUnserved)?;
    header_form(key, s)
}

// Are the sizes in range, and is the degree served?
pub fn in_range(s: Sizes) -> bool
    ensures { result ≡ (served (setting_for s) && limits (shape_for s)) }
{
    degree_served(s) & in_limits(s)
}
