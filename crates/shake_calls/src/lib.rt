// SHAKE256 as calls from C, each way that the crate shake offers it, so that NIST's vectors can be put to the compiled
// code. Only tests/shake.sh links this crate: it is no part of the library.
#![tactic(auto)]

ghost use Rattle.std.specs.Prelude.{◌≡◌, length};
ghost use Rattle.sponge.specs.Sponge.{shake256};

use shake::Shake;

// All at once.
#[unsafe(no_mangle)]
pub extern "C" fn shake_whole(out: &mut [u8], input: &[u8])
    ensures { out.new ≡ shake256 input.now (length out.old) }
{
    shake::shake256(out, input);
}

// The input in two pieces, the first of `cut` bytes where it has as many, and so the output.
#[unsafe(no_mangle)]
pub extern "C" fn shake_pieces(out: &mut [u8], input: &[u8], cut: usize, pause: usize)
    ensures { out.new ≡ shake256 input.now (length out.old) }
{
    let (head, tail) = input.split_at(cut.min(input.len()));
    let first = pause.min(out.len());
    let whole = Shake::new().absorb(head).absorb(tail).finish();
    let given = whole.squeeze(&mut out[..first]);
    given.squeeze(&mut out[first..]);
}
