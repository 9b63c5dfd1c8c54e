// What refusals say to a reader.
use std::alloc::{AllocError, Global};
use std::fmt::Display;
use std::test::Fail;
use vortex_wire::{BadMetadata, MetadataError};

// Whether this is what the value prints for a reader.
fn says<T: Display>(alloc: Global, value: &T, want: &str) -> Result<bool, AllocError> {
    let text = format!(in alloc; "{value}")?;
    Ok(text.as_str() == want)
}

#[test]
fn refusals_say_what_is_wrong(rt: HostRuntime) -> Result<(), Fail> {
    let alloc = rt.alloc();
    assert!(rt; says(alloc, &BadMetadata, "the metadata is malformed")?);
    for (error, want) in [
        (MetadataError::BadMetadata, "the metadata is malformed"),
        (MetadataError::OutOfMemory, "out of memory"),
    ] {
        assert!(rt; says(alloc, &error, want)?, "{want}");
    }
    Ok(())
}
