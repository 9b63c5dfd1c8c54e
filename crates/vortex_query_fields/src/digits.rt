// Digits as numbers.
ghost use Rattle.std.specs.Prelude.{◌≡◌, ◌<◌, ◌≤◌, ◌+◌, ◌^◌, IfSome, length};
ghost use Rattle.vortex_query_fields.specs.Numbers.{below, digits_spelled, number_after};

/// The number of few more digits, after those that gave `start`: no sum of them passes 64 bits.
#[inline]
pub fn few_digits(start: u64, before: usize, bytes: &[u8]) -> Option<u64>
    requires start { start < 10 ^ before }
    requires few { before + length bytes.now ≤ 19 }
    ensures value { result ≡ number_after start bytes.now }
    ensures small { IfSome result (λ n. n < 10 ^ (before + length bytes.now)) }
{
    let _ = before;
    let mut number = start;
    for byte in bytes {
        if !byte.is_ascii_digit() {
            return None;
        }
        number = number * 10 + (*byte - b'0') as u64;
    }
    Some(number)
}

/// The number of any number of digits, where it has 64 bits at most.
pub fn many_digits(bytes: &[u8]) -> Option<u64>
    ensures { result ≡ below (2 ^ 64) (number_after 0 bytes.now) }
{
    let mut number = 0u64;
    for byte in bytes {
        if !byte.is_ascii_digit() {
            return None;
        }
        let digit = (*byte - b'0') as u64;
        number = number.checked_mul(10)?.checked_add(digit)?;
    }
    Some(number)
}

/// The number of 1 to 39 digits, where it has 64 bits at most.
#[inline]
pub fn digits(bytes: &[u8]) -> Option<u64>
    ensures { result ≡ below (2 ^ 64) (digits_spelled bytes.now) }
{
    if bytes.is_empty() || bytes.len() > 39 {
        return None;
    }
    if bytes.len() <= 19 {
        return few_digits(0, 0, bytes);
    }
    many_digits(bytes)
}
