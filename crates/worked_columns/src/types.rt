// Types of columns.
use std::test::Fail;
use vortex_array::{DType, DecimalDType, Nullability, PType};

// The types that have these nulls: truth values, two widths, two decimals, texts and bytes.
fn types_with(nulls: Nullability) -> Result<[DType; 7], Fail> {
    Ok([
        DType::Bool(nulls),
        DType::Primitive(PType::U8, nulls),
        DType::Primitive(PType::I8, nulls),
        DType::Decimal(DecimalDType::try_new(9, 2)?, nulls),
        DType::Decimal(DecimalDType::try_new(9, 3)?, nulls),
        DType::Utf8(nulls),
        DType::Binary(nulls),
    ])
}

#[test]
fn types_agree_but_for_their_nulls(rt: HostRuntime) -> Result<(), Fail> {
    for (i, dtype) in types_with(Nullability::NonNullable)?.iter().enumerate() {
        for (k, other) in types_with(Nullability::Nullable)?.iter().enumerate() {
            assert_eq!(rt;
                dtype.same_apart_from_nullability(other),
                i == k,
                "{i} and {k}"
            );
            assert!(rt; *dtype != *other, "{i} and {k} with their nulls");
        }
    }
    Ok(())
}

#[test]
fn every_type_has_a_form_with_nulls_and_one_without(rt: HostRuntime) -> Result<(), Fail> {
    for (i, dtype) in types_with(Nullability::NonNullable)?.iter().enumerate() {
        let with_nulls = dtype.into_nullable();
        assert!(rt; !dtype.is_nullable(), "{i}");
        assert!(rt; with_nulls.is_nullable(), "{i} with nulls");
        assert!(rt; with_nulls.into_nullable() == with_nulls, "{i} twice");
        assert!(rt;
            with_nulls.same_apart_from_nullability(dtype),
            "{i} is another type"
        );
        assert!(rt;
            with_nulls.into_non_nullable() == *dtype,
            "{i} without nulls"
        );
        assert!(rt;
            with_nulls.nullability() == Nullability::Nullable,
            "{i} nulls"
        );
        assert!(rt;
            dtype.nullability() == Nullability::NonNullable,
            "{i} no nulls"
        );
    }
    Ok(())
}
