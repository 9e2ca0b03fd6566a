// The verifier's W_e = Σ over j≠Δ_e of (j+Δ_e)·ℓ(e,j), plus Δ_e·C_e, from the opened leaves. With 0 put for the leaf
// that is left out, W_e = v + Δ_e·(u + C_e), where u and v are the sums of the leaves as the prover has them. Nothing
// that the verifier is lent is secret.
#![tactic(auto)]

ghost use Rattle.std.specs.Prelude.{◌+◌, ◌*◌, ◌-◌, ◌^◌, ◌<◌, ◌≤◌, length};
ghost use Rattle.lanes.specs.Lanes.{lanes, LaneIs, LanesKept};
ghost use Rattle.tables_opened.specs.Opened.{w_byte, CorrectionAdded, OpenedFits, OpenedInputs, OpenedTableIs};

use format::sizes::MOST_LEAF;
use strings::BITS;
use tables::{leaves_of, spread, sum_tree};
use trees::absorb;

// Adds C_e to u. C_0 is all zero and not sent, so that C_e is row e - 1 of the section.
fn add_correction(u: &mut [u8], corrections: &[u8], e: usize)
    requires { (e * length u.old ≤ length corrections.now) × (e < lanes) }
    ensures { CorrectionAdded corrections.now e u.old u.new }
{
    let w = u.len();
    if e != 0 {
        strings::xor_into(u, strings::row_at(corrections, w, e - 1));
    }
}

// 01's W_e of one tree, from its 2^r - 1 opened leaves, which are as long as u: it is lane e of the table.
pub fn load_lane(
    table: &mut [u8],
    u: &mut [u8],
    planes: &mut [u8],
    tree: &[u8],
    delta: usize,
    corrections: &[u8],
    e: usize,
    r: usize,
)
    requires { OpenedFits table.old planes.old tree.now corrections.now (length u.old) e delta r }
    ensures lane_is { LaneIs e (8 * length u.old)
        (w_byte tree.now corrections.now (2 ^ r) (length u.old) e delta) table.new }
    ensures lanes_kept { LanesKept e table.old table.new }
{
    let w = u.len();
    sum_tree(u, planes, tree, delta, r);
    add_correction(u, corrections, e);
    absorb(planes, BITS, delta, u);
    spread(table, e, planes, w);
}

// 01's W_e for every repetition e below tau, from the opened leaves of w bytes, 2^r - 1 to a tree, Δ and the section C:
// W_e is lane e of the table.
pub fn load_opened(
    table: &mut [u8],
    opened: &[u8],
    delta: &[u8],
    corrections: &[u8],
    tau: usize,
    w: usize,
    r: usize,
)
    requires { OpenedInputs table.old opened.now delta.now corrections.now tau w r }
    ensures { OpenedTableIs table.new opened.now delta.now corrections.now tau w (2 ^ r) }
{
    let len = (leaves_of(r) - 1) * w;
    // No heap: room for the largest key, of which the front is used.
    let mut u = [0u8; MOST_LEAF];
    let mut planes = [0u8; BITS * MOST_LEAF];
    for e in 0..tau {
        load_lane(
            table,
            &mut u[..w],
            &mut planes[..BITS * w],
            strings::row_at(opened, len, e),
            usize::from(delta[e]),
            corrections,
            e,
            r,
        );
    }
}
