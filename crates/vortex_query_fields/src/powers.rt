// Powers of ten.
ghost use Rattle.std.specs.Prelude.{◌≡◌, ◌<◌, ◌≤◌, ◌^◌};

/// A power of ten that 128 bits hold.
#[tactic(auto, using(crate::proofs::Tens::ten_fits, crate::proofs::Tens::ten_most, crate::proofs::Tens::ten_some))]
pub fn power_of_ten(exponent: u32) -> u128
    requires { exponent ≤ 38 }
    ensures value { result ≡ 10 ^ exponent }
    ensures some { 0 < result }
    ensures most { result ≤ 10 ^ 38 }
{
    10u128.pow(exponent)
}
