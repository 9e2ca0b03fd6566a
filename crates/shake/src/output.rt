// Bytes of the lanes written out, by whole lanes where it can be.
ghost use Rattle.std.specs.Prelude.{◌≡◌, ◌+◌, ◌*◌, ◌%◌, ◌≤◌, length};
ghost use Rattle.sponge.specs.Lanes.{listed};
ghost use Rattle.sponge.specs.Sponge.{rate, byte_in};

use strings::WORD;

// Writes the bytes of the lanes from byte `at` on.
fn emit_bytes(out: &mut [u8], lanes: &[u64; 25], at: usize)
    requires { at + length out.old ≤ rate }
    ensures { out.new ≡ listed (length out.old) (byte_in lanes.now) at }
{
    for i in 0..out.len() {
        let j = at + i;
        out[i] = lanes[j / WORD].to_le_bytes()[j % WORD];
    }
}

// The same from a lane's first byte on, by whole lanes.
fn emit_words(out: &mut [u8], lanes: &[u64; 25], first: usize)
    requires { (8 * first + length out.old ≤ rate) × (length out.old % 8 ≡ 0) }
    ensures { out.new ≡ listed (length out.old) (byte_in lanes.now) (8 * first) }
{
    for i in 0..out.len() / WORD {
        let at = i * WORD;
        out[at..at + WORD].copy_from_slice(&lanes[first + i].to_le_bytes());
    }
}

// Writes the bytes of the lanes from byte `at` on: up to a lane's end, by whole lanes, and those that are left.
pub fn emit(out: &mut [u8], lanes: &[u64; 25], at: usize)
    requires { at + length out.old ≤ rate }
    ensures { out.new ≡ listed (length out.old) (byte_in lanes.now) at }
{
    let head = ((WORD - at % WORD) % WORD).min(out.len());
    let tail = head + (out.len() - head) / WORD * WORD;
    emit_bytes(&mut out[..head], lanes, at);
    emit_words(&mut out[head..tail], lanes, (at + head) / WORD);
    emit_bytes(&mut out[tail..], lanes, at + tail);
}
