// The check program's line: verdict, number and place, a space between. Each part is written after what stands there.
// Not by `write!`: its contract lets it fail, and then says nothing of what is written. A line can't fail.
ghost use Rattle.std.specs.Prelude.{◌≡◌, ◌∷◌, ◌++◌, ◌+◌, ◌<◌, ◌≤◌, length, drop};
ghost use Rattle.std.proofs.lemmas.List.Edits.{sets};
ghost use Rattle.protocol.specs.Check.{decimal, line_of};
ghost use Rattle.checking.specs.Checked.{checked_of, line_text};

use format::Verdict;

// Room for a line. A bound is 21 (a word of 8, two numbers of 16 bits, each after a space, and the line feed); the
// longest that is printed, `refused 14 47` and its line feed, has 14.
pub const LINE: usize = 32;

// The bytes of a part. Answers where they end.
fn put(out: &mut [u8; LINE], at: usize, part: &[u8]) -> usize
    requires { at + length part.now ≤ 32 }
    ensures value { result ≡ at + length part.now }
    ensures put { out.new ≡ sets out.old at part.now }
{
    let end = at + part.len();
    out[at..end].copy_from_slice(part);
    end
}

// A space, and the digits of x.
fn put_number(out: &mut [u8; LINE], at: usize, x: u32) -> usize
    requires { (at + 6 ≤ 32) × (x < 65536) }
    ensures value { (result ≡ at + length (32 ∷ decimal x)) × (result ≤ at + 6) }
    ensures put { out.new ≡ sets out.old at (32 ∷ decimal x) }
{
    let next = put(out, at, b" ");
    let mut digits = itoa::Buffer::new();
    put(out, next, digits.format(x).as_bytes())
}

// A word, two numbers, and the end of the line.
fn put_line(out: &mut [u8; LINE], word: &[u8], number: u32, place: u32) -> usize
    requires { (length word.now ≤ 8) × (number < 65536) × (place < 65536) }
    ensures value { (result ≡ length (line_text word.now number place)) × (result ≤ length out.new) }
    ensures put { out.new ≡ line_text word.now number place ++ drop result out.old }
{
    let after_word = put(out, 0, word);
    let after_number = put_number(out, after_word, number);
    let after_place = put_number(out, after_number, place);
    put(out, after_place, b"\n")
}

// The line of an outcome, at the start of out; the bytes after it stay as they were. No outcome: the input could not be
// read.
pub fn write_line(outcome: Option<Verdict>, out: &mut [u8; LINE]) -> usize
    ensures value { (result ≡ length (line_of (checked_of outcome))) × (result ≤ length out.new) }
    ensures line { out.new ≡ line_of (checked_of outcome) ++ drop result out.old }
{
    match outcome {
        None => put_line(out, b"unread", 0, 0),
        Some(verdict) => match verdict {
            Verdict::Accepted => put_line(out, b"accepted", 0, 0),
            Verdict::Refused(refusal) => {
                let number = u32::from(refusal.number);
                let place = u32::from(refusal.place);
                put_line(out, b"refused", number, place)
            }
        },
    }
}
