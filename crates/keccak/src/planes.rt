// The parts of a round of Keccak-f[1600]: what θ adds, and each plane after ρ, π, χ and ι. Of the lanes some are held
// with each bit changed. The planes are no twins: each has other complements, and other ands and ors.
ghost use Rattle.std.specs.Prelude.{◌≡◌};
ghost use Rattle.sponge.specs.Lanes.{listed};
ghost use Rattle.sponge.specs.Keccak.{column, effects};
ghost use Rattle.keccak.specs.Planes.{moved, plane₀, plane₁, plane₂, plane₃, plane₄};

// What θ adds to the lanes of each sheet.
pub fn effects(a: &[u64; 25]) -> [u64; 5]
    ensures { result ≡ effects (listed 5 (column a.now) 0) }
{
    let c0 = a[0] ^ a[5] ^ a[10] ^ a[15] ^ a[20];
    let c1 = a[1] ^ a[6] ^ a[11] ^ a[16] ^ a[21];
    let c2 = a[2] ^ a[7] ^ a[12] ^ a[17] ^ a[22];
    let c3 = a[3] ^ a[8] ^ a[13] ^ a[18] ^ a[23];
    let c4 = a[4] ^ a[9] ^ a[14] ^ a[19] ^ a[24];
    [
        c4 ^ c1.rotate_left(1),
        c0 ^ c2.rotate_left(1),
        c1 ^ c3.rotate_left(1),
        c2 ^ c4.rotate_left(1),
        c3 ^ c0.rotate_left(1),
    ]
}

// Plane 0, with ι.
pub fn plane0(a: &[u64; 25], d: &[u64; 5], k: u64) -> [u64; 5]
    ensures { result ≡ plane₀ k (moved a.now d.now) }
{
    let b0 = a[0] ^ d[0];
    let b1 = (a[6] ^ d[1]).rotate_left(44);
    let b2 = (a[12] ^ d[2]).rotate_left(43);
    let b3 = (a[18] ^ d[3]).rotate_left(21);
    let b4 = (a[24] ^ d[4]).rotate_left(14);
    [
        (b0 ^ (b1 | b2)) ^ k,
        b1 ^ (b3 | !b2),
        b2 ^ (b3 & b4),
        b3 ^ (b4 | b0),
        b4 ^ (b0 & b1),
    ]
}

// The planes 1 to 4.
pub fn plane1(a: &[u64; 25], d: &[u64; 5]) -> [u64; 5]
    ensures { result ≡ plane₁ (moved a.now d.now) }
{
    let b5 = (a[3] ^ d[3]).rotate_left(28);
    let b6 = (a[9] ^ d[4]).rotate_left(20);
    let b7 = (a[10] ^ d[0]).rotate_left(3);
    let b8 = (a[16] ^ d[1]).rotate_left(45);
    let b9 = (a[22] ^ d[2]).rotate_left(61);
    [
        b5 ^ (b6 | b7),
        b6 ^ (b7 & b8),
        b7 ^ (b8 | !b9),
        b8 ^ (b9 | b5),
        b9 ^ (b5 & b6),
    ]
}

pub fn plane2(a: &[u64; 25], d: &[u64; 5]) -> [u64; 5]
    ensures { result ≡ plane₂ (moved a.now d.now) }
{
    let b10 = (a[1] ^ d[1]).rotate_left(1);
    let b11 = (a[7] ^ d[2]).rotate_left(6);
    let b12 = (a[13] ^ d[3]).rotate_left(25);
    let b13 = (a[19] ^ d[4]).rotate_left(8);
    let b14 = (a[20] ^ d[0]).rotate_left(18);
    [
        b10 ^ (b11 | b12),
        b11 ^ (b12 & b13),
        b12 ^ (!b13 & b14),
        !b13 ^ (b14 | b10),
        b14 ^ (b10 & b11),
    ]
}

pub fn plane3(a: &[u64; 25], d: &[u64; 5]) -> [u64; 5]
    ensures { result ≡ plane₃ (moved a.now d.now) }
{
    let b15 = (a[4] ^ d[4]).rotate_left(27);
    let b16 = (a[5] ^ d[0]).rotate_left(36);
    let b17 = (a[11] ^ d[1]).rotate_left(10);
    let b18 = (a[17] ^ d[2]).rotate_left(15);
    let b19 = (a[23] ^ d[3]).rotate_left(56);
    [
        b15 ^ (b16 & b17),
        b16 ^ (b17 | b18),
        b17 ^ (b19 | !b18),
        !b18 ^ (b19 & b15),
        b19 ^ (b15 | b16),
    ]
}

pub fn plane4(a: &[u64; 25], d: &[u64; 5]) -> [u64; 5]
    ensures { result ≡ plane₄ (moved a.now d.now) }
{
    let b20 = (a[2] ^ d[2]).rotate_left(62);
    let b21 = (a[8] ^ d[3]).rotate_left(55);
    let b22 = (a[14] ^ d[4]).rotate_left(39);
    let b23 = (a[15] ^ d[0]).rotate_left(41);
    let b24 = (a[21] ^ d[1]).rotate_left(2);
    [
        b20 ^ (!b21 & b22),
        !b21 ^ (b22 | b23),
        b22 ^ (b23 & b24),
        b23 ^ (b24 | b20),
        b24 ^ (b20 & b21),
    ]
}
