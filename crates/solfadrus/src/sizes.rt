// The sizes of a key's data, for callers who allocate: 0 where a size or the degree is not served.
ghost use Rattle.std.specs.Prelude.{◌≡◌, ◌+◌, ◌*◌, true, false};
ghost use Rattle.protocol.specs.Strings.{bytes_for};
ghost use Rattle.protocol.specs.Frames.{framed_length};
ghost use Rattle.protocol.specs.Setting.{setting};
ghost use Rattle.protocol.specs.Shape.{per_tree, per_opened, k_of, w_of};
ghost use Rattle.protocol.specs.Key.{key_lengths};
ghost use Rattle.protocol.specs.Sections.{lengths, commit_lengths, hash_lengths, batch_lengths};
ghost use Rattle.solfadrus.specs.Sized.{shape, sizes_of, is_sized, sized};

use format::{Sizes, sizes};
use questions::key::in_range;
use sections::outputs;

// What `size` answers of the sizes, where they are in range and the degree is served, else 0.
fn sized<F: FnOnce(Sizes) -> usize>(
    n: usize,
    m: usize,
    tau: usize,
    t: usize,
    degree: u32,
    size: F,
) -> usize
    requires { is_sized (setting degree) (shape n m tau t) ≡ true → F.pre size (sizes_of n m tau t degree) }
    ensures in_range { is_sized (setting degree) (shape n m tau t) ≡ true → F.post size (sizes_of n m tau t degree) result }
    ensures out_of_range { is_sized (setting degree) (shape n m tau t) ≡ false → result ≡ 0 }
{
    let s = Sizes {
        n,
        m,
        tau,
        t,
        degree: degree as usize,
        alphabet: sizes::BINARY,
    };
    if in_range(s) { size(s) } else { 0 }
}

#[unsafe(no_mangle)]
pub extern "C" fn mq_key_size(n: usize, m: usize, tau: usize, t: usize, degree: u32) -> usize
    ensures { result ≡ sized (setting degree) (shape n m tau t) (λ A z. 8 + framed_length (key_lengths A z)) }
{
    sized(n, m, tau, t, degree, questions::key::key_bytes)
}

#[unsafe(no_mangle)]
pub extern "C" fn mq_witness_size(n: usize, m: usize, tau: usize, t: usize, degree: u32) -> usize
    ensures { result ≡ sized (setting degree) (shape n m tau t) (λ A z. bytes_for z.n) }
{
    sized(n, m, tau, t, degree, sizes::witness_bytes)
}

#[unsafe(no_mangle)]
pub extern "C" fn mq_leaves_size(n: usize, m: usize, tau: usize, t: usize, degree: u32) -> usize
    ensures { result ≡ sized (setting degree) (shape n m tau t) (λ A z. z.τ * per_tree A * w_of A z) }
{
    sized(
        n,
        m,
        tau,
        t,
        degree,
        |s| sizes::leaves_bytes(s, sizes::tree_leaves(s)),
    )
}

#[unsafe(no_mangle)]
pub extern "C" fn mq_opened_size(n: usize, m: usize, tau: usize, t: usize, degree: u32) -> usize
    ensures { result ≡ sized (setting degree) (shape n m tau t) (λ A z. z.τ * per_opened A * w_of A z) }
{
    sized(
        n,
        m,
        tau,
        t,
        degree,
        |s| sizes::leaves_bytes(s, sizes::tree_leaves(s) - 1),
    )
}

#[unsafe(no_mangle)]
pub extern "C" fn mq_hash_matrix_size(
    n: usize,
    m: usize,
    tau: usize,
    t: usize,
    degree: u32,
) -> usize
    ensures { result ≡ sized (setting degree) (shape n m tau t) (λ A z. z.t * bytes_for (k_of A z)) }
{
    sized(n, m, tau, t, degree, sizes::hash_matrix_bytes)
}

#[unsafe(no_mangle)]
pub extern "C" fn mq_batching_size(n: usize, m: usize, tau: usize, t: usize, degree: u32) -> usize
    ensures { result ≡ sized (setting degree) (shape n m tau t) (λ A z. z.τ * z.m) }
{
    sized(n, m, tau, t, degree, sizes::batching_bytes)
}

#[unsafe(no_mangle)]
pub extern "C" fn mq_delta_size(n: usize, m: usize, tau: usize, t: usize, degree: u32) -> usize
    ensures { result ≡ sized (setting degree) (shape n m tau t) (λ A z. z.τ) }
{
    sized(n, m, tau, t, degree, |s| s.tau)
}

#[unsafe(no_mangle)]
pub extern "C" fn mq_commit_size(n: usize, m: usize, tau: usize, t: usize, degree: u32) -> usize
    ensures { result ≡ sized (setting degree) (shape n m tau t) (λ A z. framed_length (commit_lengths A z)) }
{
    sized(n, m, tau, t, degree, outputs::commit_bytes)
}

#[unsafe(no_mangle)]
pub extern "C" fn mq_hash_size(n: usize, m: usize, tau: usize, t: usize, degree: u32) -> usize
    ensures { result ≡ sized (setting degree) (shape n m tau t) (λ A z. framed_length (hash_lengths A z)) }
{
    sized(n, m, tau, t, degree, outputs::hash_bytes)
}

#[unsafe(no_mangle)]
pub extern "C" fn mq_batch_size(n: usize, m: usize, tau: usize, t: usize, degree: u32) -> usize
    ensures { result ≡ sized (setting degree) (shape n m tau t) (λ A z. framed_length (batch_lengths A z)) }
{
    sized(n, m, tau, t, degree, outputs::batch_bytes)
}

#[unsafe(no_mangle)]
pub extern "C" fn mq_proof_size(n: usize, m: usize, tau: usize, t: usize, degree: u32) -> usize
    ensures { result ≡ sized (setting degree) (shape n m tau t) (λ A z. framed_length (lengths A z)) }
{
    sized(n, m, tau, t, degree, outputs::proof_bytes)
}
