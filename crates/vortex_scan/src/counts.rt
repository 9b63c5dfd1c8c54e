// The visits that a run makes.
ghost use Rattle.std.specs.Prelude.{◌≡◌};
ghost use Rattle.vortex_scan.specs.Visits.{is_due};

/// How many visits a run made, how many since it asked all sources, and how many it may make.
#[derive(Clone, Copy, Debug, PartialEq, Eq)]
pub struct Counts {
    pub visits: u64,
    pub since: Option<u64>,
    pub limit: u64,
}

/// Whether it is time to ask all sources: 64 visits were made since, or they never were asked.
pub fn is_due(since: Option<u64>) -> bool
    ensures { result ≡ is_due since }
{
    match since {
        None => true,
        Some(visits) => visits >= 64,
    }
}
