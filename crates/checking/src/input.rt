// The check program's input: key, Δ, H', χ, opened leaves and proof, each after its four-byte count, and no more.
ghost use Rattle.std.specs.Prelude.{◌≡◌, ◌≤◌, length};
ghost use Rattle.protocol.specs.Frames.{framed_length};
ghost use Rattle.protocol.specs.Check.{eight, check_of};
ghost use Rattle.format.specs.Verdict.{answer_of};
ghost use Rattle.checking.specs.Checked.{checked_of, lengths_read, verify_parts};

use field::Gf256;
use format::Verdict;
use sections::{Span, find, section_no};

// The most bytes that are taken, counts included.
const MOST_INPUT: usize = 65536;

// The degree of the check program (request 3).
const DEGREE: u32 = Gf256::DEGREE as u32;

// The sections of the input.
const SECTIONS: usize = 6;

// The lengths of the input's sections, by the counts that stand there, one after the other, where all are whole and
// nothing is left over.
fn read_lengths(s: &[u8]) -> Option<[usize; SECTIONS]>
    ensures { result ≡ lengths_read s.now }
{
    let mut lengths = [0; SECTIONS];
    let mut next = 0;
    for i in 0..SECTIONS {
        let Span::At { start, end } = find(s, next) else {
            return None;
        };
        lengths[i] = end - start;
        next = end;
    }
    (next == s.len()).then_some(lengths)
}

// What the verifier answers to six sections of these lengths.
fn verify_sections(input: &[u8], lengths: &[usize; SECTIONS]) -> Verdict
    requires { framed_length lengths.now ≤ length input.now }
    ensures { answer_of result ≡ verify_parts lengths.now input.now }
{
    verifier::verify(
        section_no(input, lengths, 0),
        DEGREE,
        section_no(input, lengths, 1),
        section_no(input, lengths, 2),
        section_no(input, lengths, 3),
        section_no(input, lengths, 4),
        section_no(input, lengths, 5),
    )
}

// What the verifier answers to the input's six sections, if they could be read.
pub fn read_and_verify(input: &[u8]) -> Option<Verdict>
    ensures { checked_of result ≡ check_of eight input.now }
{
    if MOST_INPUT < input.len() {
        return None;
    }
    let lengths = read_lengths(input)?;
    Some(verify_sections(input, &lengths))
}
