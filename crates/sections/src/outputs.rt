// The lengths of what the steps write: strings of sections.
ghost use Rattle.std.specs.Prelude.{◌≡◌, true};
ghost use Rattle.protocol.specs.Shape.{limits};
ghost use Rattle.protocol.specs.Frames.{framed_length};
ghost use Rattle.protocol.specs.Sections.{lengths, commit_lengths, hash_lengths, batch_lengths};
ghost use Rattle.format.specs.Sizes.{alphabet_for, shape_for};

use super::framed_length;
use format::Sizes;
use format::sizes::{batch_lengths, commit_lengths, hash_lengths, proof_lengths};

// What the first step writes, counts included.
pub fn commit_bytes(s: Sizes) -> usize
    requires { limits (shape_for s) ≡ true }
    ensures { result ≡ framed_length (commit_lengths (alphabet_for s) (shape_for s)) }
{
    let lengths = commit_lengths(s);
    framed_length(&lengths)
}

// What the second step writes, counts included.
pub fn hash_bytes(s: Sizes) -> usize
    requires { limits (shape_for s) ≡ true }
    ensures { result ≡ framed_length (hash_lengths (alphabet_for s) (shape_for s)) }
{
    let lengths = hash_lengths(s);
    framed_length(&lengths)
}

// What the third step writes, counts included.
pub fn batch_bytes(s: Sizes) -> usize
    requires { limits (shape_for s) ≡ true }
    ensures { result ≡ framed_length (batch_lengths (alphabet_for s) (shape_for s)) }
{
    let lengths = batch_lengths(s);
    framed_length(&lengths)
}

// A whole proof, counts included.
pub fn proof_bytes(s: Sizes) -> usize
    requires { limits (shape_for s) ≡ true }
    ensures { result ≡ framed_length (lengths (alphabet_for s) (shape_for s)) }
{
    let lengths = proof_lengths(s);
    framed_length(&lengths)
}
