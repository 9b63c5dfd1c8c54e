// Roots that are counted.
ghost use Rattle.std.specs.Prelude.{◌≡◌};
ghost use Rattle.vortex_scan.specs.RunState.{live_count};

use crate::item::Slot;

/// How many roots are live.
pub fn count_live<S>(slots: &[Slot<S>]) -> usize
    ensures { result ≡ live_count slots.now }
{
    slots.iter().filter(|slot| slot.live).count()
}
