// Whether a filter can be asked of a table's columns, and copies of filters.
ghost use Rattle.std.specs.Prelude.{◌≡◌, ◌∷◌, ◌++◌, [], Ok, not, find, is_some, option_copied, IfErr, IfOk, IsOkAnd};
ghost use Rattle.vortex_array_types.specs.Cells.{dtype_of};
ghost use Rattle.vortex_array_types.specs.Checked.{Checks, Cause, unknown_in as unknown_name_in};
ghost use Rattle.vortex_array_types.specs.declared.filter.Filter.TheVariants as filters;
ghost use Rattle.vortex_array_types.specs.Typed.{filter_names, is_constant as is_constant_operand, is_text, is_truth_value, operand_names, operand_type, same_type, well_typed};

use crate::column::ColumnDesc;
use crate::filter::{BetweenOptions, Filter, Operand};
use crate::names::Name;
use crate::types::DType;
use sqlite_items::Boxed;
use std::alloc::{AllocError, Global};
use thiserror::Error;
use vortex_buffer::CompareOperator;

/// Why a filter cannot be asked of a table's columns.
#[derive(Debug, PartialEq, Eq, Error)]
pub enum FilterError {
    /// No column has this name: the first such name of the filter, from left to right.
    #[error("no column has the name {name}")]
    UnknownColumn { name: Name },
    /// All names are known, and a type rule is broken.
    #[error("the types do not fit the filter")]
    MismatchedTypes,
    /// Memory ran out.
    #[error("out of memory")]
    OutOfMemory,
}

impl Drop for FilterError {
    fn drop(self) {
        match self {
            FilterError::UnknownColumn { name: _name } => {}
            FilterError::MismatchedTypes => {}
            FilterError::OutOfMemory => {}
        }
    }
}

impl From<AllocError> for FilterError {
    ghost use Rattle.vortex_array_types.specs.declared.filter_check.FilterError.TheVariants.{OutOfMemory};

    ghost from_gives = { λ _ error. error ≡ OutOfMemory };

    fn from(_error: AllocError) -> FilterError {
        FilterError::OutOfMemory
    }
}

impl Operand {
    /// A second operand that is equal.
    pub fn try_clone(&self, alloc: Global) -> Result<Operand, AllocError>
        ensures { IfOk result (λ x. x ≡ self.now) }
    {
        match self {
            Operand::Column(name) => Ok(Operand::Column(name.try_clone(alloc)?)),
            Operand::Constant(scalar) => Ok(Operand::Constant(scalar.try_clone(alloc)?)),
        }
    }
}

impl Filter {
    /// A second filter that is equal.
    pub fn try_clone(&self, alloc: Global) -> Result<Filter, AllocError>
        ensures { IfOk result (λ f. f ≡ self.now) }
    {
        match self {
            Filter::Truth(x) => truth_copied(alloc, x),
            Filter::Compare(operator, x, y) => compare_copied(alloc, *operator, x, y),
            Filter::Between(options, x, lower, upper) => {
                between_copied(alloc, *options, x, lower, upper)
            }
            Filter::Like(x, pattern) => like_copied(alloc, x, pattern),
            Filter::IsNull(x) => is_null_copied(alloc, x),
            Filter::Not(f) => not_of(alloc, f.get().try_clone(alloc)),
            Filter::And(f, g) => {
                let f = f.get().try_clone(alloc);
                and_of(alloc, f, g.get().try_clone(alloc))
            }
            Filter::Or(f, g) => {
                let f = f.get().try_clone(alloc);
                or_of(alloc, f, g.get().try_clone(alloc))
            }
        }
    }

    /// The first name of the filter, from left to right, that no column has.
    pub fn unknown_name(&self, columns: &[ColumnDesc]) -> Option<&Name>
        ensures { option_copied result ≡ unknown_name_in columns.now self.now }
    {
        unknown_in(columns, self)
    }

    /// Whether the filter meets the type rules. Two operands that are compared have the same type apart from nullability,
    /// a text is matched with a constant text, and a truth value alone is a filter by itself.
    pub fn is_well_typed(&self, columns: &[ColumnDesc]) -> bool
        ensures { result ≡ well_typed columns.now (Some self.now) }
    {
        is_typed(columns, self)
    }

    /// Whether the filter can be asked of rows of these columns: each of its names is a column's, and it meets the
    /// type rules.
    ///
    /// # Errors
    /// `UnknownColumn` with the first name, from left to right, that no column has; else `MismatchedTypes` where a type
    /// rule is broken. Memory is taken for an unknown name alone.
    pub fn check(&self, alloc: Global, columns: &[ColumnDesc]) -> Result<(), FilterError>
        ensures ok { IfOk result (λ _. Checks columns.now self.now) }
        ensures err { IfErr result (Cause columns.now self.now) }
    {
        if let Some(name) = self.unknown_name(columns) {
            let name = name.try_clone(alloc)?;
            return Err(FilterError::UnknownColumn { name });
        }
        if !self.is_well_typed(columns) {
            return Err(FilterError::MismatchedTypes);
        }
        Ok(())
    }
}

// A truth value, copied.
fn truth_copied(alloc: Global, x: &Operand) -> Result<Filter, AllocError>
    ensures { IfOk result (λ f. f ≡ filters.Truth x.now) }
{
    Ok(Filter::Truth(x.try_clone(alloc)?))
}

// Whether an operand is null, copied.
fn is_null_copied(alloc: Global, x: &Operand) -> Result<Filter, AllocError>
    ensures { IfOk result (λ f. f ≡ filters.IsNull x.now) }
{
    Ok(Filter::IsNull(x.try_clone(alloc)?))
}

// Two operands compared, copied.
fn compare_copied(
    alloc: Global,
    operator: CompareOperator,
    x: &Operand,
    y: &Operand,
) -> Result<Filter, AllocError>
    ensures { IfOk result (λ f. f ≡ filters.Compare operator x.now y.now) }
{
    let x = x.try_clone(alloc)?;
    let y = y.try_clone(alloc)?;
    Ok(Filter::Compare(operator, x, y))
}

// An operand between two others, copied.
fn between_copied(
    alloc: Global,
    options: BetweenOptions,
    x: &Operand,
    lower: &Operand,
    upper: &Operand,
) -> Result<Filter, AllocError>
    ensures { IfOk result (λ f. f ≡ filters.Between options x.now lower.now upper.now) }
{
    let x = x.try_clone(alloc)?;
    let lower = lower.try_clone(alloc)?;
    let upper = upper.try_clone(alloc)?;
    Ok(Filter::Between(options, x, lower, upper))
}

// An operand like a pattern, copied.
fn like_copied(alloc: Global, x: &Operand, pattern: &Operand) -> Result<Filter, AllocError>
    ensures { IfOk result (λ f. f ≡ filters.Like x.now pattern.now) }
{
    let x = x.try_clone(alloc)?;
    let pattern = pattern.try_clone(alloc)?;
    Ok(Filter::Like(x, pattern))
}

// The negation of a filter, where there was memory.
fn not_of(alloc: Global, f: Result<Filter, AllocError>) -> Result<Filter, AllocError>
    ensures { IfOk result (λ h. IsOkAnd f (λ x. h ≡ filters.Not x)) }
{
    match boxed(alloc, f) {
        Ok(f) => Ok(Filter::Not(f)),
        Err(e) => Err(e),
    }
}

// Two filters in boxes, where there was memory for both.
fn both(
    alloc: Global,
    f: Result<Filter, AllocError>,
    g: Result<Filter, AllocError>,
) -> Result<(Boxed<Filter>, Boxed<Filter>), AllocError>
    ensures { IfOk result (λ pair. (f ≡ Ok pair.0) × (g ≡ Ok pair.1)) }
{
    match boxed(alloc, f) {
        Ok(f) => match boxed(alloc, g) {
            Ok(g) => Ok((f, g)),
            Err(e) => Err(e),
        },
        Err(e) => Err(e),
    }
}

// Two filters that both hold, where there was memory.
fn and_of(
    alloc: Global,
    f: Result<Filter, AllocError>,
    g: Result<Filter, AllocError>,
) -> Result<Filter, AllocError>
    ensures { IfOk result (λ h. IsOkAnd f (λ x. IsOkAnd g (λ y. h ≡ filters.And x y))) }
{
    match both(alloc, f, g) {
        Ok((f, g)) => Ok(Filter::And(f, g)),
        Err(e) => Err(e),
    }
}

// Two filters of which one holds, where there was memory.
fn or_of(
    alloc: Global,
    f: Result<Filter, AllocError>,
    g: Result<Filter, AllocError>,
) -> Result<Filter, AllocError>
    ensures { IfOk result (λ h. IsOkAnd f (λ x. IsOkAnd g (λ y. h ≡ filters.Or x y))) }
{
    match both(alloc, f, g) {
        Ok((f, g)) => Ok(Filter::Or(f, g)),
        Err(e) => Err(e),
    }
}

// A filter in a box, where there was memory for it.
fn boxed(alloc: Global, f: Result<Filter, AllocError>) -> Result<Boxed<Filter>, AllocError>
    ensures { IfOk result (λ boxed. f ≡ Ok boxed) }
{
    Boxed::new(alloc, f?)
}

/// The type of the column with this name, or none where no column has the name.
pub fn column_type(columns: &[ColumnDesc], name: &str) -> Option<DType>
    ensures { result ≡ dtype_of columns.now name.now }
{
    let mut rest = columns;
    while let [column, behind @ ..] = rest {
        if column.name.as_str() == name {
            return Some(column.dtype);
        }
        rest = behind;
    }
    None
}

// The name of an operand, where no column has it.
fn unknown_operand<'a>(columns: &[ColumnDesc], operand: &'a Operand) -> Option<&'a Name>
    ensures { option_copied result ≡ find (λ n. not (is_some (dtype_of columns.now n))) (operand_names operand.now) }
{
    match operand {
        Operand::Column(name) if column_type(columns, name.as_str()).is_none() => Some(name),
        _ => None,
    }
}

// The first name of two operands that no column has.
#[tactic(auto, using(crate::proofs::UnknownNames::find_append))]
fn unknown_of_two<'a>(columns: &[ColumnDesc], x: &'a Operand, y: &'a Operand) -> Option<&'a Name>
    ensures { option_copied result ≡ find (λ n. not (is_some (dtype_of columns.now n))) (operand_names x.now ++ operand_names y.now) }
{
    match unknown_operand(columns, x) {
        Some(name) => Some(name),
        None => unknown_operand(columns, y),
    }
}

// The first name of three operands that no column has.
#[tactic(auto, using(crate::proofs::UnknownNames::find_append))]
fn unknown_of_three<'a>(
    columns: &[ColumnDesc],
    x: &'a Operand,
    y: &'a Operand,
    z: &'a Operand,
) -> Option<&'a Name>
    ensures { option_copied result ≡ find (λ n. not (is_some (dtype_of columns.now n))) (operand_names x.now ++ operand_names y.now ++ operand_names z.now) }
{
    match unknown_of_two(columns, x, y) {
        Some(name) => Some(name),
        None => unknown_operand(columns, z),
    }
}

// The first name of a filter, from left to right, that no column has.
#[tactic(auto, using(crate::specs::declared::filter::Filter::the_lemmas, crate::proofs::UnknownNames::find_append))]
fn unknown_in<'a>(columns: &[ColumnDesc], filter: &'a Filter) -> Option<&'a Name>
    ensures { option_copied result ≡ unknown_name_in columns.now filter.now }
{
    match filter {
        Filter::Truth(x) => unknown_operand(columns, x),
        Filter::IsNull(x) => unknown_operand(columns, x),
        Filter::Compare(_, x, y) => unknown_of_two(columns, x, y),
        Filter::Like(x, y) => unknown_of_two(columns, x, y),
        Filter::Between(_, x, lower, upper) => unknown_of_three(columns, x, lower, upper),
        Filter::Not(f) => unknown_in(columns, f.get()),
        Filter::And(f, g) => match unknown_in(columns, f.get()) {
            Some(name) => Some(name),
            None => unknown_in(columns, g.get()),
        },
        Filter::Or(f, g) => match unknown_in(columns, f.get()) {
            Some(name) => Some(name),
            None => unknown_in(columns, g.get()),
        },
    }
}

// The type of a column or of a constant, where it is known.
fn type_of(columns: &[ColumnDesc], operand: &Operand) -> Option<DType>
    ensures { result ≡ operand_type columns.now operand.now }
{
    match operand {
        Operand::Column(name) => column_type(columns, name.as_str()),
        Operand::Constant(scalar) => Some(scalar.dtype()),
    }
}

// Whether two operands have types that are the same apart from nullability.
fn agree(columns: &[ColumnDesc], x: &Operand, y: &Operand) -> bool
    ensures { result ≡ same_type (operand_type columns.now x.now) (operand_type columns.now y.now) }
{
    match (type_of(columns, x), type_of(columns, y)) {
        (Some(t), Some(u)) => t.same_apart_from_nullability(&u),
        _ => false,
    }
}

// Whether an operand is a text.
fn is_text_operand(columns: &[ColumnDesc], x: &Operand) -> bool
    ensures { result ≡ is_text (operand_type columns.now x.now) }
{
    matches!(type_of(columns, x), Some(DType::Utf8(_)))
}

// Whether an operand is a truth value.
fn is_truth_operand(columns: &[ColumnDesc], x: &Operand) -> bool
    ensures { result ≡ is_truth_value (operand_type columns.now x.now) }
{
    matches!(type_of(columns, x), Some(DType::Bool(_)))
}

// Whether an operand is a constant.
fn is_constant(x: &Operand) -> bool
    ensures { result ≡ is_constant_operand x.now }
{
    matches!(x, Operand::Constant(_))
}

// Whether a filter meets the type rules.
#[tactic(auto, using(crate::specs::declared::filter::Filter::the_lemmas))]
fn is_typed(columns: &[ColumnDesc], filter: &Filter) -> bool
    ensures { result ≡ well_typed columns.now (Some filter.now) }
{
    match filter {
        Filter::Truth(x) => is_truth_operand(columns, x),
        Filter::IsNull(_) => true,
        Filter::Compare(_, x, y) => agree(columns, x, y),
        Filter::Between(_, x, lower, upper) => agree(columns, x, lower) && agree(columns, x, upper),
        Filter::Like(x, y) => is_text_operand(columns, x)
            && is_text_operand(columns, y)
            && is_constant(y),
        Filter::Not(f) => is_typed(columns, f.get()),
        Filter::And(f, g) => is_typed(columns, f.get()) && is_typed(columns, g.get()),
        Filter::Or(f, g) => is_typed(columns, f.get()) && is_typed(columns, g.get()),
    }
}
