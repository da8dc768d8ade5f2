// Simple packing: the number that a cell of a dual-polarisation file tells, from the cell's own number Z and section 5's R, E and D. It is
// worked out by one sum and one division of 64-bit floats, and its distance from the exact number is promised over whole numbers.
// Stands on `fraction`, the laws of rounding. Above it stand `dual_format`, the checks of a dual-polarisation file, and `dualpol`, its calls.
#![tactic(auto)]

ghost use Rattle.std.specs.Prelude.{◌≡◌, true, ◌⊎◌, ◌-◌, ◌^◌, ◌≤◌};
ghost use Rattle.scaled.specs.Scaled.{finite_single, scaled_value, cell_of, RightCell, Packing};

// Whether the four octets of R hold a number: the exponent is not all ones.
pub fn is_finite(bits: u32) -> bool
    ensures { result ≡ finite_single bits }
{
    bits % 2147483648 / 8388608 != 255
}

// 2^E
fn two_to(e: u16) -> u32
    requires { e ≤ 2 }
    ensures { result ≡ 2 ^ e }
{
    if e == 0 {
        return 1;
    }
    if e == 1 {
        return 2;
    }
    4
}

// 10^D
fn ten_to(d: u16) -> u32
    requires { d ≤ 4 }
    ensures { result ≡ 10 ^ d }
{
    if d == 0 {
        return 1;
    }
    if d == 1 {
        return 10;
    }
    if d == 2 {
        return 100;
    }
    if d == 3 {
        return 1000;
    }
    10000
}

// All ones in a cell of 8 or of 16 bits.
fn all_ones(width: u8) -> u16
    requires { (width ≡ 8) ⊎ (width ≡ 16) }
    ensures { result ≡ 2 ^ width - 1 }
{
    if width == 8 {
        return 255;
    }
    65535
}

// (R + Z x 2^E) / 10^D: what is added and what divides are taken over exactly, so that the sum rounds once and the division once.
fn unpack(bits: u32, e: u16, d: u16, z: u16) -> f64
    requires { (finite_single bits ≡ true) × (e ≤ 2) × (d ≤ 4) }
    ensures { result ≡ scaled_value bits z e d }
{
    let r = f32::from_bits(bits);
    let n = (z as u32) * two_to(e);
    let p = ten_to(d);
    ((r as f64) + (n as f64)) / (p as f64)
}

// The value that a cell of `width` bits tells that holds z; None where it is missing.
pub fn cell_of(bits: u32, e: u16, d: u16, width: u8, z: u16) -> Option<f64>
    requires { Packing bits e d width }
    ensures exact { result ≡ cell_of width bits e d z }
    ensures near { RightCell result bits z e d }
{
    if z == all_ones(width) {
        return None;
    }
    Some(unpack(bits, e, d, z))
}
