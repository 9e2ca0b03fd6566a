// The check program's work, on slices: six sections read, the verifier asked, one line written.
#![tactic(auto)]

mod input;
mod line;

ghost use Rattle.std.specs.Prelude.{◌≡◌, ◌++◌, ◌≤◌, length, drop};
ghost use Rattle.protocol.specs.Check.{eight, check_line};

pub use input::read_and_verify;
pub use line::{LINE, write_line};

// The check program of 01, from its whole input to its whole output: the line stands at the start of out, and the bytes
// after it are as they were. Answers the line's length.
pub fn check_line(input: &[u8], out: &mut [u8; LINE]) -> usize
    ensures value { (result ≡ length (check_line eight input.now)) × (result ≤ length out.new) }
    ensures line { out.new ≡ check_line eight input.now ++ drop result out.old }
{
    write_line(read_and_verify(input), out)
}
