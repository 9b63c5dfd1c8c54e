// What refusals say to a reader.
use std::alloc::{AllocError, Global};
use std::fmt::{Debug, Display};
use std::test::Fail;
use vortex_array::{BadPrecision, FilterError, Name, WrongType};

// Whether this is what the value prints for a reader.
fn says<T: Display>(alloc: Global, value: &T, want: &str) -> Result<bool, AllocError> {
    let text = format!(in alloc; "{value}")?;
    Ok(text.as_str() == want)
}

// Whether this is what the value prints for a programmer.
fn shows<T: Debug>(alloc: Global, value: &T, want: &str) -> Result<bool, AllocError> {
    let text = format!(in alloc; "{value:?}")?;
    Ok(text.as_str() == want)
}

#[test]
fn refusals_say_what_is_wrong(rt: HostRuntime) -> Result<(), Fail> {
    let alloc = rt.alloc();
    assert!(rt; says(alloc, &BadPrecision, "a decimal has 1 to 38 digits")?);
    assert!(rt; says(alloc, &WrongType, "the value does not fit the type")?);
    for (error, want) in [
        (
            FilterError::MismatchedTypes,
            "the types do not fit the filter",
        ),
        (FilterError::OutOfMemory, "out of memory"),
    ] {
        assert!(rt; says(alloc, &error, want)?, "{want}");
    }
    Ok(())
}

// Whether a refusal names the column that is unknown.
fn names_the_column(alloc: Global, name: &str, want: &str) -> Result<bool, AllocError> {
    let name = Name::from_str(alloc, name)?;
    says(alloc, &FilterError::UnknownColumn { name }, want)
}

// Whether a name prints so.
fn prints(alloc: Global, name: &str, said: &str, shown: &str) -> Result<bool, AllocError> {
    let name = Name::from_str(alloc, name)?;
    Ok(says(alloc, &name, said)? && shows(alloc, &name, shown)?)
}

#[test]
fn names_are_said_as_they_are(rt: HostRuntime) -> Result<(), Fail> {
    let alloc = rt.alloc();
    assert!(rt; names_the_column(alloc, "zz", "no column has the name zz")?);
    assert!(rt; prints(alloc, "a\"b", "a\"b", "\"a\\\"b\"")?);
    Ok(())
}
