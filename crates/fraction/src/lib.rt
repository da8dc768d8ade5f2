// A whole number divided once, as a 64-bit float, and how near that is to the exact fraction. The laws are about rounding itself, for either
// format and for any numbers: one rounding (proofs/Round.antt), one division of whole numbers (Quotient.antt), a sum (Sum.antt), and a division
// of what is itself only near (Steps.antt). Stands on nothing; the crate `values` takes a bin's value over with it, and `scaled` a packed cell's.
#![tactic(auto)]

ghost use Rattle.std.specs.Prelude.{◌≡◌};
ghost use Rattle.fraction.specs.Quotient.{hundredths};

// A whole number of hundredths: every i32 is taken over exactly, so that the division alone rounds.
pub fn hundredths_of(z: i32) -> f64
    ensures { result ≡ hundredths z }
{
    (z as f64) / 100.0
}
