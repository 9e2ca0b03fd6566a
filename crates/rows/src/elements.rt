// Bytes that must be elements of the field (request 3): at degree 4 those below 16. At degree 8 every byte is one.
ghost use Rattle.std.specs.Prelude.{◌≡◌, eqb};
ghost use Rattle.protocol.specs.Alphabet.{elements_in};
ghost use Rattle.protocol.specs.Setting.{setting, alphabet_of};
ghost use Rattle.rows.specs.Spare.{narrow};

use field::Gf16;

// What the bytes have above the elements of the smaller field, all together. What is tested is public, but so it takes
// sixteen bytes at a time.
fn above_narrow(s: &[u8]) -> u8
    ensures { eqb result 0 ≡ narrow s.now }
{
    s.iter().fold(0, |found, x| found | x / Gf16::SIZE as u8)
}

// Is each byte an element of the field of the degree?
pub fn elements(s: &[u8], degree: usize) -> bool
    ensures { result ≡ elements_in (alphabet_of (setting degree)) s.now }
{
    let above = above_narrow(s);
    (degree != Gf16::DEGREE) | (above == 0)
}
