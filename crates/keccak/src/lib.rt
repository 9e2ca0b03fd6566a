// Keccak-f[1600] of FIPS 202, with six lanes held with each bit changed between the rounds: χ then wants seven
// complements in place of twenty-five.
#![tactic(auto)]

pub mod planes;

ghost use Rattle.std.specs.Prelude.{◌≡◌};
ghost use Rattle.sponge.specs.Keccak.{rounded, keccak};
ghost use Rattle.keccak.specs.Flags.{flips, outer};

use planes::{effects, plane0, plane1, plane2, plane3, plane4};

// The round constants, and how many rounds there are.
const CONSTANTS: [u64; 24] = [
    0x0000000000000001,
    0x0000000000008082,
    0x800000000000808a,
    0x8000000080008000,
    0x000000000000808b,
    0x0000000080000001,
    0x8000000080008081,
    0x8000000000008009,
    0x000000000000008a,
    0x0000000000000088,
    0x0000000080008009,
    0x000000008000000a,
    0x000000008000808b,
    0x800000000000008b,
    0x8000000000008089,
    0x8000000000008003,
    0x8000000000008002,
    0x8000000000000080,
    0x000000000000800a,
    0x800000008000000a,
    0x8000000080008081,
    0x8000000000008080,
    0x0000000080000001,
    0x8000000080008008,
];

// A lane of ones: what is added to it has each bit changed.
pub const ONES: u64 = 0xffff_ffff_ffff_ffff;

// Changes the lanes that are held changed between the rounds.
fn flip(a: [u64; 25]) -> [u64; 25]
    ensures { result ≡ flips outer a }
{
    [
        a[0], !a[1], !a[2], a[3], a[4], a[5], a[6], a[7], !a[8], a[9], a[10], a[11], !a[12], a[13],
        a[14], a[15], a[16], !a[17], a[18], a[19], !a[20], a[21], a[22], a[23], a[24],
    ]
}

// A round of lanes held so. ODD changes nothing in it. A function that is called in one place is compiled into its
// caller, and two rounds a turn go from lanes to lanes and back with no copy: 710 cycles a permutation, with one a turn
// 768. So each round of a turn is an instance of its own.
fn round<const ODD: bool>(a: &[u64; 25], k: u64) -> [u64; 25]
    ensures { result ≡ flips outer (rounded k (flips outer a.now)) }
{
    let d = effects(a);
    let p = plane0(a, &d, k);
    let q = plane1(a, &d);
    let r = plane2(a, &d);
    let s = plane3(a, &d);
    let t = plane4(a, &d);
    [
        p[0], p[1], p[2], p[3], p[4], q[0], q[1], q[2], q[3], q[4], r[0], r[1], r[2], r[3], r[4],
        s[0], s[1], s[2], s[3], s[4], t[0], t[1], t[2], t[3], t[4],
    ]
}

// The twenty-four rounds, two a turn. They stand apart from `permute`: written there they take 3 % longer.
fn permuted(a: [u64; 25]) -> [u64; 25]
    ensures { result ≡ keccak a }
{
    let mut s = flip(a);
    for i in 0..12 {
        let half = round::<false>(&s, CONSTANTS[2 * i]);
        s = round::<true>(&half, CONSTANTS[2 * i + 1]);
    }
    flip(s)
}

// The permutation in place: no copy of the state is made.
pub fn permute(lanes: &mut [u64; 25])
    ensures { lanes.new ≡ keccak lanes.old }
{
    *lanes = permuted(*lanes);
}
