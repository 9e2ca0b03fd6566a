// The sections C, d and ũ, made of the leaf sums u_e.
ghost use Rattle.std.specs.Prelude.{◌≡◌, ℕ, ◌+◌, ◌*◌, ◌-◌, ◌<◌, ◌≤◌, length};
ghost use Rattle.std.specs.Int.Bits.{bit_xor};
ghost use Rattle.protocol.specs.Strings.{bytes_for, bit, pack};
ghost use Rattle.strings.specs.Sums.{byte_at};
ghost use Rattle.lanes.specs.Lanes.{lanes};
ghost use Rattle.tables.specs.Sums.{CorrectionsAre};
ghost use Rattle.prover_sections.specs.Hash.{hash_bit};

use format::sizes::bytes_for;

// C_(e+1) = u_(e+1) + u, as row e of the section.
fn write_correction(out: &mut [u8], sums: &[u8], e: usize, w: usize)
    requires { (e < lanes) × (e * w + w ≤ length out.old) × ((e + 1) * w + w ≤ length sums.now) }
    ensures by_index { (b : ℕ) → b < w → byte_at out.new (e * w + b) ≡ bit_xor (byte_at sums.now ((e + 1) * w + b)) (byte_at sums.now b) }
    ensures by_index_2 { (q b : ℕ) → (q ≡ e → ⊥) → b < w → byte_at out.new (q * w + b) ≡ byte_at out.old (q * w + b) }
{
    let next = strings::row_at(sums, w, e + 1);
    let first = strings::row_at(sums, w, 0);
    let at = e * w;
    strings::xor_of(&mut out[at..at + w], next, first);
}

// 01's section C: C_e = u_e + u for e = 1 to tau - 1, from the rows u_e. C_0 is all zero and not sent.
pub fn write_corrections(out: &mut [u8], sums: &[u8], tau: usize, w: usize)
    requires { (tau * w ≤ length sums.now) × (length out.old ≡ (tau - 1) * w) × (tau ≤ lanes) }
    ensures { CorrectionsAre out.new sums.now (tau - 1) w }
{
    for e in 1..tau {
        write_correction(out, sums, e - 1, w);
    }
}

// 01's section d = x + the first n bits of u. The mask bits of u that share its last byte are cleared.
pub fn write_difference(out: &mut [u8], witness: &[u8], u: &[u8], n: usize)
    requires { (length out.old ≡ bytes_for n) × (length witness.now ≡ bytes_for n) × (bytes_for n ≤ length u.now) }
    ensures { out.new ≡ pack n (λ c. bit_xor (bit witness.now c) (bit u.now c)) }
{
    let count = out.len();
    strings::xor_of(out, witness, &u[..count]);
    strings::copies::clear_spare(out, n);
}

// Row rho of H = [H' | identity] times u: the product with row rho of H', plus bit k + rho, where the identity has its
// 1.
fn hash_bit(matrix: &[u8], u: &[u8], k: usize, rho: usize) -> u8
    requires { (rho * bytes_for k + bytes_for k ≤ length matrix.now) × (k + rho < length u.now * 8) × (length u.now ≤ 100000) }
    ensures { result ≡ hash_bit matrix.now u.now k rho }
{
    let width = bytes_for(k);
    let row = strings::row_at(matrix, width, rho);
    strings::parity::row_product(row, &u[..width]) ^ strings::bit_at(u, k + rho)
}

// 01's section ũ = H·u, of t bits, with H' as the matrix.
pub fn write_hash_bits(out: &mut [u8], matrix: &[u8], u: &[u8], k: usize, t: usize)
    requires { (length out.old ≡ bytes_for t) × (length matrix.now ≡ t * bytes_for k) × (k + t ≤ length u.now * 8) × (length u.now ≤ 100000) }
    ensures { out.new ≡ pack t (hash_bit matrix.now u.now k) }
{
    out.fill(0);
    for rho in 0..t {
        strings::xor_bit(out, rho, hash_bit(matrix, u, k, rho));
    }
}
