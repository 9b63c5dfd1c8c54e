// Which bits are set, looked for by words.
ghost use Rattle.std.specs.Prelude.{◌≡◌, ◌<◌, IfNone, IfSome, false, true, length, replicate, slice_index_or, take};

use vortex_buffer::BitBuffer;

/// The place of the first bit that is set, or none where no bit is.
pub fn first_set(bits: &BitBuffer) -> Option<usize>
    ensures none { IfNone result (bits.now ≡ replicate (length bits.now) false) }
    ensures within { IfSome result (λ first. first < length bits.now) }
    ensures set { IfSome result (λ first. slice_index_or bits.now first false ≡ true) }
    ensures before { IfSome result (λ first. take first bits.now ≡ replicate first false) }
{
    for k in 0..bits.len().div_ceil(64) {
        let word = bits.word(k);
        if word != 0 {
            return Some(64 * k + word.trailing_zeros() as usize);
        }
    }
    None
}
