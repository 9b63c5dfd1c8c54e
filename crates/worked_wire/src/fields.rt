// Single numbers and fields.
use crate::shown::bytes_of;
use std::alloc::{AllocError, Global};
use std::test::Fail;
use vortex_wire::{WireField, WirePayload, next_field, next_varint};

// What the number is that begins at a place and ends at another at the latest, as text.
fn number(alloc: Global, digits: &str, at: usize, end: usize) -> Result<String, AllocError> {
    let bytes = bytes_of(alloc, digits)?;
    if at > end || end > bytes.len() {
        return String::from_str(alloc, "no such place");
    }
    match next_varint(bytes.as_slice(), at, end) {
        Ok((number, end)) => format!(in alloc; "{number} {end}"),
        Err(_) => String::from_str(alloc, "bad"),
    }
}

// Bytes, the two places, and the number with the place where it ends.
const NUMBERS: [(&str, usize, usize, &str); 12] = [
    ("", 0, 0, "bad"),
    ("00", 0, 1, "0 1"),
    ("00", 1, 1, "bad"),
    ("ac0200", 0, 3, "300 2"),
    ("ac0200", 1, 3, "2 2"),
    ("ac0200", 0, 1, "bad"),
    ("ffac0200", 1, 3, "300 3"),
    ("80", 0, 1, "bad"),
    ("ffffffffffffffffff01", 0, 10, "18446744073709551615 10"),
    ("ffffffffffffffffff02", 0, 10, "bad"),
    ("ffffffffffffffffff8100", 0, 11, "bad"),
    ("80808080808080808000", 0, 10, "0 10"),
];

#[test]
fn numbers_are_read(rt: HostRuntime) -> Result<(), Fail> {
    for (digits, at, end, want) in NUMBERS {
        assert_eq!(rt; number(rt.alloc(), digits, at, end)?.as_str(), want);
    }
    Ok(())
}

// What the field is that begins at a place, as text.
fn field(alloc: Global, digits: &str, at: usize) -> Result<String, AllocError> {
    let bytes = bytes_of(alloc, digits)?;
    if at > bytes.len() {
        return String::from_str(alloc, "no such place");
    }
    let Ok(next) = next_field(bytes.as_slice(), at) else {
        return String::from_str(alloc, "bad");
    };
    let Some(field) = next else {
        return String::from_str(alloc, "end");
    };
    field_text(alloc, field)
}

fn field_text(alloc: Global, field: WireField) -> Result<String, AllocError> {
    let number = field.number;
    let end = field.end;
    match field.payload {
        WirePayload::Varint(held) => format!(in alloc; "{number} number {held} to {end}"),
        WirePayload::Eight => format!(in alloc; "{number} eight to {end}"),
        WirePayload::Run { start, end } => format!(in alloc; "{number} run {start} to {end}"),
        WirePayload::Four => format!(in alloc; "{number} four to {end}"),
    }
}

// Bytes, the place, and the field with the place where it ends.
const FIELDS: [(&str, usize, &str); 13] = [
    ("", 0, "end"),
    ("0801", 2, "end"),
    ("08ac02", 0, "1 number 300 to 3"),
    ("080110ac02", 2, "2 number 300 to 5"),
    ("11010203040506070800", 0, "2 eight to 9"),
    ("1a02aabb", 0, "3 run 2 to 4"),
    ("08011a02aabb", 2, "3 run 4 to 6"),
    ("2501020304", 0, "4 four to 5"),
    ("f8ffffff0f00", 0, "536870911 number 0 to 6"),
    ("0001", 0, "bad"),
    ("1b", 0, "bad"),
    ("1c", 0, "bad"),
    ("1a03aabb", 0, "bad"),
];

#[test]
fn fields_are_read(rt: HostRuntime) -> Result<(), Fail> {
    for (digits, at, want) in FIELDS {
        assert_eq!(rt; field(rt.alloc(), digits, at)?.as_str(), want);
    }
    Ok(())
}
