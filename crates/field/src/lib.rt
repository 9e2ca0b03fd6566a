// Arithmetic in the fields of sixteen and of 256 elements, each element in a byte; and in the field of a degree.
#![tactic(auto)]

ghost use Rattle.std.specs.Prelude.{◌≡◌, refl, ℕ, ◌*◌, ◌<◌};
ghost use Rattle.algebra.specs.Coded.{Coded, mul_byte};
ghost use Rattle.galois.specs.Gf16.{gf16, modulus as modulus_16};
ghost use Rattle.galois.specs.Gf256.{gf256, modulus as modulus_256};
ghost use Rattle.galois.specs.Degrees.{field_of, degree_of, size_of, mask_element_of};
ghost use Rattle.field.specs.Elements.{mask_of, doubled_mod, product_mod, Doubles, Weighs, doubles_16, doubles_256, weighs_16, weighs_256};

// A field whose elements are the numbers below its size: bit i of one is the coefficient of X^i.
pub trait Field {
    ghost coded: { Coded };

    ghost polynomial: { ℕ };

    fn degree() -> usize
        ensures { result ≡ coded.degree };

    fn size() -> usize
        ensures { result ≡ coded.base.size };

    fn modulus() -> u16
        ensures { result ≡ polynomial };

    ghost product: { (a b : ℕ) → mul_byte coded a b ≡ product_mod coded.degree polynomial a b };

    ghost doubles: { Doubles coded.degree polynomial };

    ghost weighs: { Weighs coded };

    // The product of the elements in the low bits of a and b, on bytes throughout so that a loop over it takes sixteen
    // to a register. As many turns as the degree, whatever the operands are, with no branch and no table that goes by
    // them.
    final fn multiply(a: u8, b: u8) -> u8
        ensures { result ≡ mul_byte coded a b }
    {
        let mut rest = a;
        let mut shifted = (usize::from(b) % Self::size()) as u8;
        let mut sum: u8 = 0;
        for _ in 0..Self::degree() {
            sum ^= masked(rest % 2, shifted);
            shifted = double::<Self>(shifted);
            rest /= 2;
        }
        sum
    }

    // The power of X, the element 02, that weighs mask coordinate s; 0 past the last of them.
    final fn mask_element(s: usize) -> u8
        ensures { result ≡ mask_of coded s }
    {
        if s < Self::degree() { 1u8 << s } else { 0 }
    }
}

// x, or 0, by a mask: no branch goes by the bit.
fn masked(bit: u8, x: u8) -> u8
    requires { bit < 2 }
    ensures { result ≡ x * bit }
{
    x & (bit * 255)
}

// X·x: one place up, and the modulus in place of the bit that falls out. The modulus's own top bit is that bit, so the
// bits below it are what is added.
fn double<F: Field>(x: u8) -> u8
    requires { x < F.coded.base.size }
    ensures { result ≡ doubled_mod F.coded.degree F.polynomial x }
{
    let top = (F::size() / 2) as u8;
    (x % top * 2) ^ masked(x / top, (usize::from(F::modulus()) % F::size()) as u8)
}

// GF(16). The trait's functions state what the constants are, so that neither can change alone. The constants are the
// type's own, since Rattle refuses names in one trait that differ only in case, as DEGREE and `degree`.
#[derive(Clone, Copy)]
pub struct Gf16;

impl Gf16 {
    pub const DEGREE: usize = 4;

    pub const SIZE: usize = 16;

    // X^4 + X + 1.
    pub const MODULUS: u16 = 0x13;
}

impl Field for Gf16 {
    ghost coded = { gf16 };

    ghost polynomial = { modulus_16 };

    ghost product = { λ a b. refl };

    ghost doubles = { doubles_16 };

    ghost weighs = { weighs_16 };

    fn degree() -> usize {
        Self::DEGREE
    }

    fn size() -> usize {
        Self::SIZE
    }

    fn modulus() -> u16 {
        Self::MODULUS
    }
}

// GF(256) as FIPS 197 has it.
#[derive(Clone, Copy)]
pub struct Gf256;

impl Gf256 {
    pub const DEGREE: usize = 8;

    pub const SIZE: usize = 256;

    // X^8 + X^4 + X^3 + X + 1.
    pub const MODULUS: u16 = 0x11B;
}

impl Field for Gf256 {
    ghost coded = { gf256 };

    ghost polynomial = { modulus_256 };

    ghost product = { λ a b. refl };

    ghost doubles = { doubles_256 };

    ghost weighs = { weighs_256 };

    fn degree() -> usize {
        Self::DEGREE
    }

    fn size() -> usize {
        Self::SIZE
    }

    fn modulus() -> u16 {
        Self::MODULUS
    }
}

// The product in the field of the degree, a number as C gives it: any but 4 names the larger field, as in `field_of`.
// The degree is public: a branch may go by it.
pub fn multiply(degree: usize, a: u8, b: u8) -> u8
    ensures { result ≡ mul_byte (field_of degree) a b }
{
    if degree == Gf16::DEGREE {
        Gf16::multiply(a, b)
    } else {
        Gf256::multiply(a, b)
    }
}

// The degree itself: 4, or 8 for any other number.
pub fn degree_of(degree: usize) -> usize
    ensures { result ≡ degree_of degree }
{
    if degree == Gf16::DEGREE {
        Gf16::DEGREE
    } else {
        Gf256::DEGREE
    }
}

// How many elements the field of the degree has.
pub fn size_of(degree: usize) -> usize
    ensures { result ≡ size_of degree }
{
    if degree == Gf16::DEGREE {
        Gf16::SIZE
    } else {
        Gf256::SIZE
    }
}

// The weight of mask coordinate s in the field of the degree.
pub fn mask_element(degree: usize, s: usize) -> u8
    ensures { result ≡ mask_element_of degree s }
{
    if degree == Gf16::DEGREE {
        Gf16::mask_element(s)
    } else {
        Gf256::mask_element(s)
    }
}
