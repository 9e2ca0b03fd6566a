// Parts of strings.
ghost use Rattle.std.specs.Prelude.{◌≡◌, ℕ, ◌+◌, ◌*◌, ◌<◌, ◌≤◌, length};
ghost use Rattle.strings.specs.Sums.{byte_at};
ghost use Rattle.strings.specs.Rows.{RowsKept};

// The first bytes of dst become those of src from `from` on. A loop, and not copy_from_slice, here and below: that asks
// at run time whether the two overlap, so that what is copied leaves the registers: leaf sums take a tenth more.
pub fn copy_front(dst: &mut [u8], src: &[u8], from: usize, len: usize)
    requires { (len ≤ length dst.old) × (from + len ≤ length src.now) }
    ensures by_index { (f : ℕ) → f < len → byte_at dst.new f ≡ byte_at src.now (from + f) }
    ensures by_index_2 { (f : ℕ) → len ≤ f → byte_at dst.new f ≡ byte_at dst.old f }
{
    for f in 0..len {
        dst[f] = src[from + f];
    }
}

// Part g of dst, of w bytes, becomes that of src from `from` on.
pub fn copy_part(dst: &mut [u8], g: usize, w: usize, src: &[u8], from: usize)
    requires { (g * w + w ≤ length dst.old) × (from + w ≤ length src.now) }
    ensures by_index { (f : ℕ) → f < w → byte_at dst.new (g * w + f) ≡ byte_at src.now (from + f) }
    ensures rows_kept { RowsKept w g dst.old dst.new }
{
    let at = g * w;
    copy_front(&mut dst[at..at + w], src, from, w);
}

// The first parts of dst, of w bytes, become those that stand `width` bytes apart in src, the first at `from`. The
// last of these must end before src does. Callers give count and w as constants, so that what they copy to stays in
// registers.
pub fn copy_apart(dst: &mut [u8], count: usize, w: usize, src: &[u8], from: usize, width: usize)
    requires { (count * w ≤ length dst.old) × (from + count * width + w ≤ length src.now + width) }
    ensures { (z f : ℕ) → z < count → f < w → byte_at dst.new (z * w + f) ≡ byte_at src.now (from + z * width + f) }
{
    for z in 0..count {
        copy_part(dst, z, w, src, from + z * width);
    }
}
