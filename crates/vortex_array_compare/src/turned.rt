// Operators turned round.
ghost use Rattle.std.specs.Prelude.{◌≡◌};
ghost use Rattle.vortex_array_compare.specs.Turned.{TurnedRound, turned};

use vortex_compute::CompareOperator;

/// The operator that holds of two values where this one holds of them the other way round.
pub fn turned_operator(operator: CompareOperator) -> CompareOperator
    ensures value { result ≡ turned operator }
    ensures meaning { TurnedRound operator result }
{
    let turned = the_other_way(operator);
    turned
}

// Less and greater changed.
fn the_other_way(operator: CompareOperator) -> CompareOperator
    ensures { result ≡ turned operator }
{
    match operator {
        CompareOperator::Eq => CompareOperator::Eq,
        CompareOperator::NotEq => CompareOperator::NotEq,
        CompareOperator::Gt => CompareOperator::Lt,
        CompareOperator::Gte => CompareOperator::Lte,
        CompareOperator::Lt => CompareOperator::Gt,
        CompareOperator::Lte => CompareOperator::Gte,
    }
}
