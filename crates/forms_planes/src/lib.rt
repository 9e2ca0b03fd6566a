// Two planes of bits, added to a stack times a vector: two at a time, because a plane of the stack is then read and
// written once for both. The vectors and what is computed from them are secret: no branch and no index goes by it. The
// same code serves a field of any degree: in an element of fewer than eight bits the other bits are 0.
#![tactic(auto)]

ghost use Rattle.std.specs.Prelude.{◌≡◌, List, ℕ, ◌+◌, ◌*◌, ◌^◌, ◌<◌, ◌≤◌, length};
ghost use Rattle.std.specs.Int.Bits.{bit_xor, bit_and};
ghost use Rattle.galois.specs.Degrees.{degree_of};
ghost use Rattle.strings.specs.Sums.{byte_at};
ghost use Rattle.chunks.specs.Chunks.{chunk, pair, cell_at, Masks};
ghost use Rattle.forms_columns.specs.Stacks.{planes, stack_at, two_planes, MasksAt};

use chunks::CHUNK;
use field::Gf256;

// Adds x under a mask to byte f of plane s.
fn add_byte(t: &mut [u8], s: usize, f: usize, x: u8, mask: u8)
    requires { (s * chunk + chunk ≤ length t.old) × (f < chunk) }
    ensures f_after { cell_at t.new s f ≡ bit_xor (cell_at t.old s f) (bit_and x mask) }
    ensures by_index { (q g : ℕ) → (q ≡ s → g ≡ f → ⊥) → g < chunk → cell_at t.new q g ≡ cell_at t.old q g }
{
    t[s * CHUNK + f] ^= x & mask;
}

// Adds at byte f two planes, x and y there, whose weights are α^p and α^(p+1), times v, whose masks are lent: mask b is
// that of α^b.
fn absorb_byte(t: &mut [u8], p: usize, f: usize, x: u8, y: u8, masks: &[u8])
    requires { (length t.old ≡ planes * chunk) × (p < 7) × (f < chunk) × (length masks.now ≡ 8 * chunk) }
    ensures by_index { (d v z : ℕ) → MasksAt v f masks.now → v < 2 ^ degree_of d
        → stack_at d t.new f z ≡ bit_xor (stack_at d t.old f z) (two_planes d p x y z v) }
    ensures by_index_2 { (q g : ℕ) → (g ≡ f → ⊥) → g < chunk → cell_at t.new q g ≡ cell_at t.old q g }
{
    for b in 0..Gf256::DEGREE {
        let mask = masks[b * CHUNK + f];
        add_byte(t, p + b, f, x, mask);
        add_byte(t, p + 1 + b, f, y, mask);
    }
}

// The same at each byte of two planes that stand side by side.
pub fn absorb_planes(t: &mut [u8], p: usize, both: &[u8], masks: &[u8])
    requires { (length t.old ≡ planes * chunk) × (p < 7) × (length both.now ≡ pair) × (length masks.now ≡ 8 * chunk) }
    ensures { (d : ℕ) (v : List ℕ) (f z : ℕ) → Masks v masks.now → byte_at v f < 2 ^ degree_of d → f < chunk
        → stack_at d t.new f z ≡ bit_xor (stack_at d t.old f z) (two_planes d p (cell_at both.now 0 f) (cell_at both.now 1 f) z (byte_at v f)) }
{
    for f in 0..CHUNK {
        absorb_byte(t, p, f, both[f], both[CHUNK + f], masks);
    }
}
