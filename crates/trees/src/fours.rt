// Leaves by four, where none is left out: of these, two leaves go to plane 0 alone and one to the planes 0 and 1, so
// that their sums stay in registers, and one in four is added to what is held in memory.
ghost use Rattle.std.specs.Prelude.{◌≡◌, ℕ, ◌+◌, ◌*◌, ◌-◌, ◌%◌, ◌<◌, ◌≤◌, length};
ghost use Rattle.trees.specs.Partial.{held_plane, RunningHeld, RunningLow, ThreeAdded, Placed, FoursFit};

use super::sixteens::{HELD, held_row};
use strings::{SIXTEEN, add_at, row_at, xor_into, xor_row};

// The leaves from `from` on and below `to`, sixteen bytes of each from `at` on. Leaf j stands at place j - skip.
#[derive(Clone, Copy)]
pub struct Run {
    pub at: usize,
    pub skip: usize,
    pub from: usize,
    pub to: usize,
}

// The first three of four leaves, sixteen bytes of each from `at` on: after the first and the third the running sum is
// due in plane 0, after the second in planes 0 and 1.
fn add_three(
    sum: &mut [u8; SIXTEEN],
    first: &mut [u8; SIXTEEN],
    second: &mut [u8; SIXTEEN],
    leaf: &[u8],
    next: &[u8],
    third: &[u8],
    at: usize,
)
    requires { (at + 16 ≤ length leaf.now) × (at + 16 ≤ length next.now) × (at + 16 ≤ length third.now) }
    ensures { ThreeAdded at leaf.now next.now third.now
        sum.old first.old second.old sum.new first.new second.new }
{
    add_at(sum, leaf, at);
    xor_into(first, sum);
    add_at(sum, next, at);
    xor_into(second, sum);
    add_at(sum, third, at);
    xor_into(first, sum);
}

// The leaves of a span, four by four, each handed on as that very part of the lent bytes (01).
fn add_fours(
    sum: &mut [u8; SIXTEEN],
    held: &mut [u8; HELD],
    first: &mut [u8; SIXTEEN],
    second: &mut [u8; SIXTEEN],
    tree: &[u8],
    w: usize,
    run: Run,
)
    requires { FoursFit 8 w run.at run.skip run.from run.to tree.now }
    ensures { (f : ℕ → ℕ → ℕ) → Placed f run.from run.to run.skip tree.now w run.at
        → RunningLow f 8 (held_plane held.old 8) sum.old first.old second.old run.from
        → RunningLow f 8 (held_plane held.new 8) sum.new first.new second.new run.to }
{
    for k in 0..(run.to - run.from) / 4 {
        let j = run.from + k * 4;
        let place = j - run.skip;
        add_three(
            sum,
            first,
            second,
            row_at(tree, w, place),
            row_at(tree, w, place + 1),
            row_at(tree, w, place + 2),
            run.at,
        );
        add_at(sum, row_at(tree, w, place + 3), run.at);
        xor_row(held, held_row(j + 3), sum);
    }
}

// The same from what is held alone, and back: the sums that are kept apart begin at 0, and are added to their rows at
// the end.
pub fn hold_fours(sum: &mut [u8; SIXTEEN], held: &mut [u8; HELD], tree: &[u8], w: usize, run: Run)
    requires { FoursFit 8 w run.at run.skip run.from run.to tree.now }
    ensures { (f : ℕ → ℕ → ℕ) → Placed f run.from run.to run.skip tree.now w run.at
        → RunningHeld f 8 sum.old held.old run.from → RunningHeld f 8 sum.new held.new run.to }
{
    let mut s = *sum;
    let mut first = [0u8; SIXTEEN];
    let mut second = [0u8; SIXTEEN];
    add_fours(&mut s, held, &mut first, &mut second, tree, w, run);
    *sum = s;
    xor_row(held, held_row(0), &first);
    xor_row(held, held_row(1), &second);
}
