// A lane of the table, sixteen bytes of each plane at a time: the bits are turned all together, and bytes written. They
// are secret: no branch and no index goes by them.
ghost use Rattle.std.specs.Prelude.{◌≡◌, ℕ, ◌+◌, ◌*◌, ◌<◌, ◌≤◌, length};
ghost use Rattle.protocol.specs.Lists.{block_at};
ghost use Rattle.protocol.specs.Strings.{bit, from_bits};
ghost use Rattle.strings.specs.Sums.{byte_at, bit_of};
ghost use Rattle.lanes.specs.Lanes.{lanes, LaneIs, LanesKept};
ghost use Rattle.tables.specs.Sums.{eight_rows, planes_byte};

use chunks::turns::{EIGHT_ROWS, turn_rows};
use lanes::LANES;
use strings::{BITS, SIXTEEN};

// Writes lane e of as many coordinates as there are columns, from c on.
fn put_lane(table: &mut [u8], e: usize, c: usize, columns: &[u8; EIGHT_ROWS])
    requires { ((c + eight_rows) * lanes ≤ length table.old) × (e < lanes) }
    ensures by_index { (i : ℕ) → i < eight_rows → byte_at table.new ((c + i) * lanes + e) ≡ from_bits 8 (bit_of (byte_at columns.now i)) }
    ensures by_index_2 { (d q : ℕ) → q < lanes → (q ≡ e → d < c) → byte_at table.new (d * lanes + q) ≡ byte_at table.old (d * lanes + q) }
{
    for i in 0..EIGHT_ROWS {
        table[(c + i) * LANES + e] = columns[i];
    }
}

// Writes lane e of the coordinates of sixteen bytes, from `at` on.
fn spread_part(table: &mut [u8], e: usize, planes: &[u8], w: usize, at: usize)
    requires { (length table.old ≡ 8 * w * lanes) × (length planes.now ≡ 8 * w) × (e < lanes) × (at + 16 ≤ w) }
    ensures by_index { (i : ℕ) → i < eight_rows → byte_at table.new ((at * 8 + i) * lanes + e) ≡ from_bits 8 (λ p. bit (block_at planes.now w p) (at * 8 + i)) }
    ensures by_index_2 { (c q : ℕ) → q < lanes → (q ≡ e → c < at * 8) → byte_at table.new (c * lanes + q) ≡ byte_at table.old (c * lanes + q) }
{
    let mut columns = [0u8; EIGHT_ROWS];
    turn_rows(&mut columns, planes, at, w);
    put_lane(table, e, at * BITS, &columns);
}

// `spread` of planes of sixteen bytes or more. The last sixteen may have bytes in common with those before.
pub fn spread_parts(table: &mut [u8], e: usize, planes: &[u8], w: usize)
    requires { (length table.old ≡ 8 * w * lanes) × (length planes.now ≡ 8 * w) × (e < lanes) × (16 ≤ w) }
    ensures lane_is { LaneIs e (8 * w) (planes_byte planes.now w) table.new }
    ensures lanes_kept { LanesKept e table.old table.new }
{
    let last = w - SIXTEEN;
    for at in (0..last).step_by(SIXTEEN) {
        spread_part(table, e, planes, w, at);
    }
    spread_part(table, e, planes, w, last);
}
