// Header cells and fields.
ghost use Rattle.std.specs.Prelude.{◌≡◌, option_map};
ghost use Rattle.vortex_query.specs.Fields.{cell_name, digits_number, field_number, text_in};

// The number of 1 to 39 digits.
fn digits(bytes: &[u8]) -> Option<u64>
    ensures { result ≡ digits_number bytes.now }
{
    if bytes.is_empty() || bytes.len() > 39 {
        return None;
    }
    let mut number = 0u64;
    for byte in bytes {
        if !byte.is_ascii_digit() {
            return None;
        }
        let digit = (*byte - b'0') as u64;
        number = number.checked_mul(10)?.checked_add(digit)?;
    }
    Some(number)
}

/// The number that a field of a `u64` column spells.
pub fn number_of(field: &[u8]) -> Option<u64>
    ensures { result ≡ field_number field.now }
{
    match field.strip_prefix(b"-") {
        Some(rest) => digits(rest).filter(|number| *number == 0),
        None => digits(field),
    }
}

// The bytes as a text, where they are one.
fn text_of(bytes: &[u8]) -> Option<&str>
    ensures { option_map (λ text. text.now) result ≡ text_in bytes.now }
{
    match str::from_utf8(bytes) {
        Ok(text) => Some(text),
        Err(_) => None,
    }
}

/// The name in a header cell.
pub fn name_of(cell: &[u8]) -> Option<&str>
    ensures { option_map (λ name. name.now) result ≡ cell_name cell.now }
{
    let name = cell.strip_suffix(b":u64")?;
    if name.is_empty() { None } else { text_of(name) }
}
