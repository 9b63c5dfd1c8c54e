// Truths and texts.
ghost use Rattle.std.specs.Prelude.{◌≡◌, option_map};
ghost use Rattle.vortex_query_fields.specs.Values.{text_spelled, truth_spelled};

/// The truth that a field spells: `true` or `false`.
pub fn truth_in(field: &[u8]) -> Option<bool>
    ensures { result ≡ truth_spelled field.now }
{
    if field == b"true".as_slice() {
        return Some(true);
    }
    if field == b"false".as_slice() {
        Some(false)
    } else {
        None
    }
}

/// The text that a field is, where it is UTF-8.
pub fn text_in(field: &[u8]) -> Option<&str>
    ensures { option_map (λ text. text.now) result ≡ text_spelled field.now }
{
    match str::from_utf8(field) {
        Ok(text) => Some(text),
        Err(_) => None,
    }
}
