// Whether a witness solves the equations of a key: arithmetic over GF(2), each product of a row with x taken as 01 has
// it (`parity`). The witness is secret, so no branch goes by it before every equation is looked at.
#![tactic(auto)]

ghost use Rattle.std.specs.Prelude.{◌≡◌, ℕ, ◌*◌, ◌<◌, ◌≤◌, length};
ghost use Rattle.protocol.specs.Strings.{bytes_for, bit};
ghost use Rattle.strings.specs.Sums.{byte_at};
ghost use Rattle.equations.specs.Equations.{error_bit, key_error, EquationsFit, FirstIn};

// out[c] = bit c of x, for the first n.
pub fn unpack(out: &mut [u8], x: &[u8], n: usize)
    requires { (n ≤ length out.old) × (n ≤ length x.now * 8) }
    ensures by_index { (c : ℕ) → c < n → byte_at out.new c ≡ bit x.now c }
    ensures by_index_2 { (c : ℕ) → n ≤ c → byte_at out.new c ≡ byte_at out.old c }
{
    for c in 0..n {
        out[c] = strings::bit_at(x, c);
    }
}

// The error of one equation at x: its left side plus y (01, verifier's rules), that is
// Σ_ρ x_ρ·(row ρ of the matrix times x), plus row times x, plus y. Every row is multiplied, whatever its x_ρ.
fn equation_error(matrix: &[u8], row: &[u8], y: u8, x: &[u8], n: usize) -> u8
    requires { (length x.now ≡ bytes_for n) × (length row.now ≡ length x.now) × (length matrix.now ≡ n * length x.now) × (n < 65536) }
    ensures { result ≡ error_bit n matrix.now row.now y x.now }
{
    let width = x.len();
    let mut sum = strings::parity::row_product(row, x) ^ y;
    for rho in 0..n {
        let product = strings::parity::row_product(strings::row_at(matrix, width, rho), x);
        sum ^= strings::bit_at(x, rho) & product;
    }
    sum
}

// errors[i] = the error of equation i of the sections A, b, y of a key at the witness x, 0 or 1 (question 11). Every
// equation is looked at, whatever the others gave.
pub fn equation_errors(errors: &mut [u8], a: &[u8], b: &[u8], y: &[u8], x: &[u8], n: usize)
    requires { EquationsFit n (length errors.old) a.now b.now y.now x.now }
    ensures { (i : ℕ) → i < length errors.old → byte_at errors.new i ≡ key_error n a.now b.now y.now x.now i }
{
    let width = x.len();
    let size = n * width;
    for i in 0..errors.len() {
        let matrix = strings::row_at(a, size, i);
        let row = strings::row_at(b, width, i);
        errors[i] = equation_error(matrix, row, strings::bit_at(y, i), x, n);
    }
}

// The first equation whose error is not 0. This is the answer to question 11, which the caller is told, so it may
// branch.
pub fn first_failing(errors: &[u8]) -> Option<usize>
    ensures { FirstIn errors.now result }
{
    errors.iter().position(|error| *error != 0)
}
