// Masks, whose bytes are all ones or 0. What the masks are made of may be secret: no branch and no index goes by it.
ghost use Rattle.std.specs.Prelude.{◌≡◌, ℕ, ◌+◌, ◌*◌, ◌<◌, ◌≤◌, length};
ghost use Rattle.strings.specs.Sums.{byte_at, bit_of, mask_byte};
ghost use Rattle.strings.specs.Rows.{RowsKept};
ghost use Rattle.chunks.specs.Chunks.{chunk, Masks};

use super::CHUNK;
use strings::{BITS, MASK_BYTE};

pub fn fill_part(dst: &mut [u8], g: usize, w: usize, x: u8)
    requires { g * w + w ≤ length dst.old }
    ensures by_index { (j : ℕ) → j < w → byte_at dst.new (g * w + j) ≡ x }
    ensures rows_kept { RowsKept w g dst.old dst.new }
{
    let at = g * w;
    dst[at..at + w].fill(x);
}

// out[f] is all ones where bit b of v[f] is set, and 0 elsewhere.
fn fill_mask(out: &mut [u8], v: &[u8], b: usize)
    requires { (length out.old ≡ chunk) × (length v.now ≡ chunk) × (b < 8) }
    ensures { (f : ℕ) → f < chunk → byte_at out.new f ≡ bit_of (byte_at v.now f) b * mask_byte }
{
    for f in 0..CHUNK {
        out[f] = (v[f] >> b) % 2 * MASK_BYTE;
    }
}

fn fill_mask_at(masks: &mut [u8], v: &[u8], b: usize)
    requires { (length masks.old ≡ 8 * chunk) × (length v.now ≡ chunk) × (b < 8) }
    ensures by_index { (f : ℕ) → f < chunk → byte_at masks.new (b * chunk + f) ≡ bit_of (byte_at v.now f) b * mask_byte }
    ensures rows_kept { RowsKept chunk b masks.old masks.new }
{
    let at = b * CHUNK;
    fill_mask(&mut masks[at..at + CHUNK], v, b);
}

pub fn fill_masks(masks: &mut [u8], v: &[u8])
    requires { (length masks.old ≡ 8 * chunk) × (length v.now ≡ chunk) }
    ensures { Masks v.now masks.new }
{
    for b in 0..BITS {
        fill_mask_at(masks, v, b);
    }
}
