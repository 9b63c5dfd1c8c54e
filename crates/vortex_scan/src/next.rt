// A closure that makes planners.
ghost use Rattle.std.specs.Prelude.{◌≡◌};

use crate::planner::Planner;

/// A closure, stored.
#[derive(Drop)]
pub struct Next<F> {
    make: F,
}

/// Stores a closure that makes planners.
pub fn next_fn<Input, P: Planner, F: Fn(Input) -> Result<P, P::Error>>(f: F) -> Next<F>
    ensures { result.make ≡ f }
{
    Next { make: f }
}

impl<F> Next<F> {
    /// What the closure answers.
    pub fn call<Input, P: Planner>(&self, input: Input) -> Result<P, P::Error>
    where
        F: Fn(Input) -> Result<P, P::Error>,
        requires { F.pre self.now.make input }
        ensures { F.post self.now.make input result }
    {
        (self.make)(input)
    }
}
