// The spare bits of byte strings, cleared.
ghost use Rattle.std.specs.Prelude.{◌≡◌, ℕ, ◌*◌, ◌<◌, ◌≤◌, length};
ghost use Rattle.protocol.specs.Strings.{bytes_for, bit};

use super::BITS;

// Makes the spare bits of a string of n coordinates 0, by a mask: n alone decides whether there are any.
pub fn clear_spare(s: &mut [u8], n: usize)
    requires { length s.old ≡ bytes_for n }
    ensures by_index { (c : ℕ) → c < n → bit s.new c ≡ bit s.old c }
    ensures by_index_2 { (c : ℕ) → n ≤ c → c < length s.old * 8 → bit s.new c ≡ 0 }
{
    if n % BITS != 0 {
        s[n / BITS] &= (1u8 << (n % BITS)) - 1;
    }
}
