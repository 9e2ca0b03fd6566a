// Bytes added to those of the lanes, by whole lanes where it can be.
ghost use Rattle.std.specs.Prelude.{◌≡◌, ◌+◌, ◌*◌, ◌%◌, ◌≤◌, length};
ghost use Rattle.sponge.specs.Sponge.{rate, added_all};

use strings::{WORD, word_at};

// Adds bytes from byte `at` of the lanes on.
fn mix_bytes(lanes: &mut [u64; 25], at: usize, part: &[u8])
    requires { at + length part.now ≤ rate }
    ensures { lanes.new ≡ added_all lanes.old at part.now }
{
    for i in 0..part.len() {
        let j = at + i;
        lanes[j / WORD] ^= u64::from(part[i]) << (8 * (j % WORD));
    }
}

// The same from a lane's first byte on, by whole lanes.
fn mix_words(lanes: &mut [u64; 25], first: usize, part: &[u8])
    requires { (8 * first + length part.now ≤ rate) × (length part.now % 8 ≡ 0) }
    ensures { lanes.new ≡ added_all lanes.old (8 * first) part.now }
{
    for i in 0..part.len() / WORD {
        lanes[first + i] ^= word_at(part, i * WORD);
    }
}

// Adds bytes from byte `at` of the lanes on: up to a lane's end, by whole lanes, and those that are left.
pub fn mix(lanes: &mut [u64; 25], at: usize, part: &[u8])
    requires { at + length part.now ≤ rate }
    ensures { lanes.new ≡ added_all lanes.old at part.now }
{
    let head = ((WORD - at % WORD) % WORD).min(part.len());
    let tail = head + (part.len() - head) / WORD * WORD;
    mix_bytes(lanes, at, &part[..head]);
    mix_words(lanes, (at + head) / WORD, &part[head..tail]);
    mix_bytes(lanes, at + tail, &part[tail..]);
}
