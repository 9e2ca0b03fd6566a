// The symbols of request 11 as elements of GF(256). Symbol c of a string is its bits 2c and 2c + 1, and stands for the
// first plus ω times the second, where ω is what symbol 2 stands for.
#![tactic(auto)]

ghost use Rattle.std.specs.Prelude.{◌≡◌, ◌+◌, ◌*◌, ◌<◌, length};
ghost use Rattle.symbols.specs.Omega.{omega_times, symbol_element};

use field::{Field, Gf256};
use strings::bit_at;

// ω. "0, 1, 2, 3 stand for 00, 01, BC, BD in GF(256)."
pub const OMEGA: u8 = 0xBC;

// ω·x. The constant is the factor whose bits choose, so that the compiler makes it a few shifts.
pub fn times_omega(x: u8) -> u8
    ensures { result ≡ omega_times x }
{
    Gf256::multiply(OMEGA, x)
}

// The element that symbol c of a string stands for. No branch goes by its bits.
pub fn symbol_at(s: &[u8], c: usize) -> u8
    requires { (2 * c + 1 < length s.now * 8) × (c < 65536) }
    ensures { result ≡ symbol_element s.now c }
{
    bit_at(s, 2 * c) ^ bit_at(s, 2 * c + 1) * OMEGA
}
