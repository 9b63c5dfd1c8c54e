// What the definitions of the calls of three values imply, each law the contract of a function that does nothing.
ghost use Rattle.vortex_array_kinds.specs.TruthLaws.{AndByRow, BoundedByRow, ComparedByRow, LikedByRow, NegatedByRow, OrByRow};

/// A comparison of two operands answers for each row as the filter that compares them.
pub fn compared_by_row()
    ensures { ComparedByRow }
{}

/// Between answers for each row as the filter that bounds.
pub fn bounded_by_row()
    ensures { BoundedByRow }
{}

/// Like answers for each row as the filter that matches.
pub fn liked_by_row()
    ensures { LikedByRow }
{}

/// A conjunction answers for a row as the filter that joins two, where its sides answer as these do.
pub fn joined_by_and_by_row()
    ensures { AndByRow }
{}

/// A disjunction answers for a row as the filter that joins two, where its sides answer as these do.
pub fn joined_by_or_by_row()
    ensures { OrByRow }
{}

/// A negation answers for a row as the filter that negates one, where its column answers as that does.
pub fn negated_by_row()
    ensures { NegatedByRow }
{}
