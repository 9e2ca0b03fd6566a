// The state of SHAKE256 between the pieces.
// The lanes, and how many bytes of the present block have been absorbed, or given: the place of the next byte.
// A place past the block counts from its start again.
#[derive(Clone, Copy)]
pub struct Shake {
    pub lanes: [u64; 25],
    pub absorbed: usize,
}
