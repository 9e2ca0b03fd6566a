// SHAKE256 of FIPS 202, its state by value: new, absorb piece after piece, finish, squeeze piece after piece.
#![tactic(auto)]

pub mod input;
pub mod output;
pub mod state;

ghost use Rattle.std.specs.Prelude.{◌≡◌, ◌-◌, ◌<◌, ◌≤◌, length};
ghost use Rattle.sponge.specs.Sponge.{rate, suffix, last_bit, added, shake256};
ghost use Rattle.shake.specs.Pieces.{settled, fresh, absorbed, finished, given, after};
ghost use Rattle.shake.specs.Held.{held};

use input::mix;
use keccak::permute;
use output::emit;
pub use state::Shake;
use strings::WORD;

// The bytes of a block.
pub const RATE: usize = 136;

// The last byte of a block.
const LAST: usize = RATE - 1;

// The domain suffix 1111 and the first bit of the padding; and its last bit.
const SUFFIX: u64 = 0x1F;

const LAST_BIT: u64 = 0x80;

impl Shake {
    // The state before any byte.
    pub fn new() -> Shake
        ensures state { held result ≡ fresh }
        ensures inside { result.absorbed < rate }
    {
        Shake {
            lanes: [0; 25],
            absorbed: 0,
        }
    }

    // The state after the bytes of a piece.
    pub fn absorb(self, piece: &[u8]) -> Shake
        ensures state { held result ≡ absorbed (held self) piece.now }
        ensures inside { result.absorbed < rate }
    {
        let mut lanes = self.lanes;
        let mut at = self.absorbed % RATE;
        // How far a turn goes is computed: up to the end of a block.
        let mut rest = piece;
        while !rest.is_empty() {
            let (part, left) = rest.split_at((RATE - at).min(rest.len()));
            mix(&mut lanes, at, part);
            at = settle(&mut lanes, at + part.len());
            rest = left;
        }
        Shake {
            lanes,
            absorbed: at,
        }
    }

    // The state after the padding: its bytes are the output.
    pub fn finish(self) -> Shake
        ensures state { held result ≡ finished (held self) }
        ensures inside { result.absorbed < rate }
    {
        let mut lanes = self.lanes;
        pad(&mut lanes, self.absorbed % RATE);
        permute(&mut lanes);
        Shake { lanes, absorbed: 0 }
    }

    // Gives the next bytes of the output.
    pub fn squeeze(self, out: &mut [u8]) -> Shake
        ensures bytes { out.new ≡ given (held self) (length out.old) }
        ensures state { held result ≡ after (held self) (length out.old) }
        ensures inside { result.absorbed < rate }
    {
        let mut lanes = self.lanes;
        let mut at = self.absorbed % RATE;
        // By an index, since its step is computed, and each part is lent for its turn alone.
        let mut i = 0;
        while i < out.len() {
            let n = (RATE - at).min(out.len() - i);
            emit(&mut out[i..i + n], &lanes, at);
            at = settle(&mut lanes, at + n);
            i += n;
        }
        Shake {
            lanes,
            absorbed: at,
        }
    }
}

// A full block is permuted. The next byte's place is returned.
fn settle(lanes: &mut [u64; 25], at: usize) -> usize
    ensures { (lanes.new, result) ≡ settled lanes.old at }
{
    if at == RATE {
        permute(lanes);
        0
    } else {
        at
    }
}

// Adds the padding after `at` bytes of a block.
fn pad(lanes: &mut [u64; 25], at: usize)
    requires { at < rate }
    ensures { lanes.new ≡ added (added lanes.old at suffix) (rate - 1) last_bit }
{
    lanes[at / WORD] ^= SUFFIX << (8 * (at % WORD));
    lanes[LAST / WORD] ^= LAST_BIT << (8 * (LAST % WORD));
}

// SHAKE256 of a string where a block holds the input and a block the output: no state is passed.
pub fn short(out: &mut [u8], input: &[u8])
    requires { (length input.now < rate) × (length out.old ≤ rate) }
    ensures { out.new ≡ shake256 input.now (length out.old) }
{
    let mut lanes = [0; 25];
    mix(&mut lanes, 0, input);
    pad(&mut lanes, input.len());
    permute(&mut lanes);
    emit(out, &lanes, 0);
}

// The same for any lengths, by way of a state.
fn long(out: &mut [u8], input: &[u8])
    ensures { out.new ≡ shake256 input.now (length out.old) }
{
    Shake::new().absorb(input).finish().squeeze(out);
}

// SHAKE256 of a string, as many bytes as there is room for.
pub fn shake256(out: &mut [u8], input: &[u8])
    ensures { out.new ≡ shake256 input.now (length out.old) }
{
    if input.len() < RATE && out.len() <= RATE {
        short(out, input);
    } else {
        long(out, input);
    }
}
