// The numbers of the widths of whole numbers.
ghost use Rattle.std.specs.Prelude.{◌≡◌, IsTrue};
ghost use Rattle.vortex_array.specs.Plain.{is_primitive_type};
ghost use Rattle.vortex_array_children.specs.Children.{type_number, width_of_number};

use vortex_array::{DType, PType};

/// The width of this number, or none exactly where no width has it.
pub fn width_numbered(number: i32) -> Option<PType>
    ensures { result ≡ width_of_number number }
{
    PType::from_number(number)
}

/// The number of the width of a type of whole numbers.
pub fn width_number(dtype: DType) -> i32
    requires { IsTrue (is_primitive_type dtype) }
    ensures { result ≡ type_number dtype }
{
    match dtype {
        DType::Primitive(width, _) => width.number(),
        _ => unreachable!(),
    }
}
