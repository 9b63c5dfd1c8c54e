// What is written is read as the same.
ghost use Rattle.vortex_query_fields.specs.Laws.{FieldsAreRead, HeadersAreRead, TypesAreRead};

/// The name of a type is read as the type.
pub fn types_are_read()
    ensures { TypesAreRead }
{}

/// A header cell that is written is read as its column, where the column's name is not empty.
pub fn headers_are_read()
    ensures { HeadersAreRead }
{}

/// The field of a row that fits its type is read as that row. The empty text and no bytes are read as null in a column that
/// has nulls.
pub fn fields_are_read()
    ensures { FieldsAreRead }
{}
