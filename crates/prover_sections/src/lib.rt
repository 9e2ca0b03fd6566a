// The sections C, d, ũ and Ṽ, each after its count, written where the output has them.
#![tactic(auto)]

mod vole;

ghost use Rattle.format.specs.Sizes.{alphabet_for, shape_for};
ghost use Rattle.prover_sections.specs.Framed.{CReady, CWritten, DReady, DWritten, UReady, UWritten, VReady, VWritten};

use format::Sizes;
use format::sizes::{bytes_for, hashed_bits, leaf_bytes};
use hash::vectors::hash_all;
use lanes::LANES;
use sections::COUNT;
use sections::frames::put_count;
use strings::{BITS, row_at};
use vole::{write_corrections, write_difference, write_hash_bits};

// C, from the u_e.
pub fn write_c(out: &mut [u8], sums: &[u8], s: Sizes)
    requires { CReady (alphabet_for s) (shape_for s) sums.now out.old }
    ensures { CWritten (alphabet_for s) (shape_for s) sums.now out.new }
{
    let w = leaf_bytes(s);
    put_count(&mut out[..COUNT], (s.tau - 1) * w);
    write_corrections(&mut out[COUNT..], sums, s.tau, w);
}

// d, from u_0 and the witness.
pub fn write_d(out: &mut [u8], witness: &[u8], sums: &[u8], s: Sizes)
    requires { DReady (alphabet_for s) (shape_for s) witness.now sums.now out.old }
    ensures { DWritten (alphabet_for s) (shape_for s) witness.now sums.now out.new }
{
    let w = leaf_bytes(s);
    put_count(&mut out[..COUNT], witness.len());
    write_difference(&mut out[COUNT..], witness, row_at(sums, w, 0), s.n);
}

// ũ, from u_0 and H'.
pub fn write_u(out: &mut [u8], matrix: &[u8], sums: &[u8], s: Sizes)
    requires { UReady (alphabet_for s) (shape_for s) matrix.now sums.now out.old }
    ensures { UWritten (alphabet_for s) (shape_for s) matrix.now sums.now out.new }
{
    let w = leaf_bytes(s);
    let k = hashed_bits(s);
    put_count(&mut out[..COUNT], bytes_for(s.t));
    write_hash_bits(&mut out[COUNT..], matrix, row_at(sums, w, 0), k, s.t);
}

// Ṽ, from the v_e and H'.
pub fn write_v(out: &mut [u8], matrix: &[u8], table: &[u8], s: Sizes)
    requires { VReady (alphabet_for s) (shape_for s) matrix.now table.now out.old }
    ensures { VWritten (alphabet_for s) (shape_for s) matrix.now table.now out.new }
{
    let w = leaf_bytes(s);
    put_count(&mut out[..COUNT], s.tau * s.t);
    hash_all(&mut out[COUNT..], matrix, &table[..BITS * w * LANES], s);
}
