// Numbers as 01 writes them: two or four bytes, lowest first.
ghost use Rattle.std.specs.Prelude.{◌≡◌, ◌+◌, ◌<◌, ◌≤◌, length};
ghost use Rattle.protocol.specs.Frames.{num2, num4};

// The number in two bytes of s, from index at on.
pub fn number2(s: &[u8], at: usize) -> usize
    requires { at + 2 ≤ length s.now }
    ensures { (result ≡ num2 s.now at) × (result < 65536) }
{
    usize::from(u16::from_le_bytes(*s[at..].first_chunk::<2>().unwrap()))
}

// The number in four bytes of s, from index at on.
pub fn number4(s: &[u8], at: usize) -> usize
    requires { at + 4 ≤ length s.now }
    ensures { (result ≡ num4 s.now at) × (result < 4294967296) }
{
    u32::from_le_bytes(*s[at..].first_chunk::<4>().unwrap()) as usize
}
