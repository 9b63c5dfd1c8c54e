// How much the entries of a dictionary may be.

/// How many entries a dictionary may have, and how many bytes they may cost. The greatest number is no limit.
#[derive(Clone, Copy)]
pub struct DictConstraints {
    /// How many bytes all entries may cost. A number costs the bytes of its width, whether null or not; a text or a list of
    /// bytes costs 16, and its length besides where that is above 12; null beside these costs 16.
    pub max_bytes: usize,
    /// How many entries there may be.
    pub max_len: usize,
}

/// No limit.
pub const UNCONSTRAINED: DictConstraints = DictConstraints {
    max_bytes: 18446744073709551615,
    max_len: 18446744073709551615,
};
