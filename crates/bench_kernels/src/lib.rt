//! The lane kernels at one closure each, under C names, so that `bench/kernels` can time them beside stock Rust.
#![tactic(auto)]

ghost use Rattle.std.specs.Prelude.{◌≡◌, ◌≤◌, length};
ghost use Rattle.vortex_buffer.specs.Bits.{words_for};

use vortex_compute::{
    CompareOperator, Lanes, compare_u64_bits, map_bits_into, map_into, try_map_into,
};

/// Three times each value and one, into `out`.
#[unsafe(no_mangle)]
pub extern "C" fn bench_map_into(values: &[u64], out: &mut [u64])
    requires { length out.old ≡ length values.now }
{
    map_into(
        &Lanes::new(values),
        out,
        |value: u64| value.wrapping_mul(3).wrapping_add(1),
    );
}

/// Whether each value is below the constant, as bits.
#[unsafe(no_mangle)]
pub extern "C" fn bench_map_bits_into(values: &[u64], constant: u64, words: &mut [u64])
    requires { words_for (length values.now) ≤ length words.old }
{
    map_bits_into(&Lanes::new(values), words, |value: u64| value < constant);
}

/// The values in half as many bits: the first that does not fit, counted from 1, or 0.
#[unsafe(no_mangle)]
pub extern "C" fn bench_try_map_into(values: &[u64], out: &mut [u32]) -> usize
    requires { length out.old ≡ length values.now }
{
    match try_map_into(
        &Lanes::new(values),
        out,
        |value: u64| u32::try_from(value).ok(),
    ) {
        Ok(()) => 0,
        Err(i) => i.wrapping_add(1),
    }
}

/// Whether each value is below the constant, as bits, by the comparison kernel.
#[unsafe(no_mangle)]
pub extern "C" fn bench_compare_u64_bits(values: &[u64], constant: u64, words: &mut [u64])
    requires { words_for (length values.now) ≤ length words.old }
{
    compare_u64_bits(values, constant, CompareOperator::Lt, words);
}
