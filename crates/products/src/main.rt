// Prints three products in GF(256), beside what is expected: the two worked in FIPS 197, section 4.2, and a pair of
// inverses.
#![tactic(auto)]

use field::{Field, Gf256};
use std::io;

fn show(rt: &impl Print, a: u8, b: u8, expected: u8) -> io::Result<()> {
    let product = Gf256::multiply(a, b);
    println!(rt; "{a:02x}*{b:02x} = {product:02x}, expected {expected:02x}")
}

fn main(rt: HostRuntime) -> io::Result<()> {
    show(&rt, 0x57, 0x83, 0xC1)?;
    show(&rt, 0x57, 0x13, 0xFE)?;
    show(&rt, 0x05, 0x52, 0x01)
}
