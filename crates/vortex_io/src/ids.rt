// Numbers that name owners and their requests.

/// Who submitted a request, and whom its completion is for.
#[derive(Clone, Copy, Debug, PartialEq, Eq, Hash, PartialOrd, Ord)]
pub struct IoOwnerId(pub u64);

/// Which of its owner's requests one is. The owner gives the numbers.
#[derive(Clone, Copy, Debug, PartialEq, Eq, Hash, PartialOrd, Ord)]
pub struct IoRequestId(pub u64);
