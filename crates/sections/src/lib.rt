// Sections, each after its byte count of four bytes: how one is found, and how a string of them is read.
#![tactic(auto)]

pub mod frames;
pub mod outputs;
pub mod reader;

ghost use Rattle.std.specs.Prelude.{◌≡◌, [], ◌∷◌, ◌+◌, ◌-◌, ◌<◌, ◌≤◌, ◌^◌, length, get_or, take, drop};
ghost use Rattle.protocol.specs.Lists.{part};
ghost use Rattle.protocol.specs.Frames.{framed, section_no, framed_length};
ghost use Rattle.protocol.specs.Reader.{section_at};
ghost use Rattle.protocol.specs.Answers.{question, ask};
ghost use Rattle.sections.specs.Span.{extent_of, Inside};
ghost use Rattle.format.specs.Verdict.{number_for, told};

use format::numbers::number4;
use format::{Reason, Refusal, ask, refuse};

// Where a section's bytes start and end, or that it is not there whole. No Option: 01 names an enum of the two.
#[derive(Clone, Copy)]
pub enum Span {
    At { start: usize, end: usize },
    Missing,
}

// The bytes of a count.
pub const COUNT: usize = 4;

// The section whose count stands at index at, by that count, whatever it is; missing where it is not there whole.
// Lengths are compared by differences, so that no sum wraps.
pub fn find(s: &[u8], at: usize) -> Span
    ensures result_value { extent_of result ≡ section_at s.now at }
    ensures inside { Inside s.now result }
{
    if s.len() < at {
        return Span::Missing;
    }
    if s.len() - at < COUNT {
        return Span::Missing;
    }
    let start = at + COUNT;
    let count = number4(s, at);
    if s.len() - start < count {
        return Span::Missing;
    }
    Span::At {
        start,
        end: start + count,
    }
}

// The section itself, as 01 gives it back: part of the lent bytes.
pub fn section<'a>(s: &'a [u8], start: usize, end: usize) -> &'a [u8]
    requires { (start ≤ end) × (end ≤ length s.now) }
    ensures { result.now ≡ part s.now start (end - start) }
{
    &s[start..end]
}

// Question 3: one section at a time, from index at on. Are they of exactly these lengths, and does s end with the last?
// Where one is not there whole, or is of another length, it leaves with the refusal and reads no further.
pub fn sections_form(s: &[u8], at: usize, lengths: &[usize], reason: Reason) -> Result<(), Refusal>
    requires { at ≤ length s.now }
    ensures { told result ≡ ask (question (framed lengths.now (drop at s.now)) (number_for reason) 0 ∷ []) }
{
    let mut next = at;
    for &length in lengths {
        let Span::At { start, end } = find(s, next) else {
            return Err(refuse(reason, 0));
        };
        ask(end - start == length, reason)?;
        next = end;
    }
    ask(next == s.len(), reason)
}

// Where the count of section i stands, in a string of sections of these lengths.
fn count_at(lengths: &[usize], i: usize) -> usize
    requires { (i ≤ length lengths.now) × (framed_length lengths.now < 2 ^ 64) }
    ensures { result ≡ framed_length (take i lengths.now) }
{
    let mut at = 0;
    for j in 0..i {
        at += COUNT + lengths[j];
    }
    at
}

// The length of a string of sections of these lengths, counts included.
pub fn framed_length(lengths: &[usize]) -> usize
    requires { framed_length lengths.now < 2 ^ 64 }
    ensures { result ≡ framed_length lengths.now }
{
    count_at(lengths, lengths.len())
}

// Section i of a string of sections of these lengths, as part of it.
pub fn section_no<'a>(s: &'a [u8], lengths: &[usize], i: usize) -> &'a [u8]
    requires { (framed_length lengths.now ≤ length s.now) × (i < length lengths.now) }
    ensures { (result.now ≡ section_no lengths.now i s.now) × (length result.now ≡ get_or lengths.now i 0) }
{
    let start = count_at(lengths, i) + COUNT;
    section(s, start, start + lengths[i])
}
