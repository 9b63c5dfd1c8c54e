// The ready item with the least key.
ghost use Rattle.std.specs.Prelude.{◌≡◌, ℕ, ◌+◌, ◌<◌, ◌++◌, ◌∷◌, [], false, length, slice_get, Some, MatchOption};
ghost use Rattle.vortex_scan.specs.Keys.{key_less, IsLeastReady, LeastOf};
ghost use Rattle.vortex_scan.specs.declared.item.Item.{Item};

use crate::item::Item;

// The number at a place of a path followed by a number.
fn number_at(path: &[u64], next: u64, place: usize) -> Option<u64>
    ensures { result ≡ slice_get (path.now ++ next ∷ []) place }
{
    if place < path.len() {
        Some(path[place])
    } else if place == path.len() {
        Some(next)
    } else {
        None
    }
}

// Whether one key stands before another.
fn less(a: &[u64], x: u64, b: &[u64], y: u64) -> bool
    ensures { result ≡ key_less (a.now ++ x ∷ []) (b.now ++ y ∷ []) }
{
    let mut i = 0;
    loop {
        let Some(q) = number_at(b, y, i) else {
            return false
        };
        let Some(p) = number_at(a, x, i) else {
            return true
        };
        if p < q {
            return true;
        }
        if q < p {
            return false;
        }
        i += 1;
    }
}

// The better of the best so far and the item at i.
fn better<W>(items: &[Item<W>], best: Option<usize>, i: usize) -> Option<usize>
    requires in_range { i < length items.now }
    requires so_far { LeastOf items.now i best }
    ensures { LeastOf items.now (i + 1) result }
{
    let x = &items[i];
    if !x.ready {
        return best;
    }
    let Some(b) = best else { return Some(i) };
    let y = &items[b];
    if less(x.path.as_slice(), x.next, y.path.as_slice(), y.next) {
        return Some(i);
    }
    best
}

/// The place of the ready item with the least key, if an item is ready.
pub fn least_ready<W>(items: &[Item<W>]) -> Option<usize>
    ensures { MatchOption result
        ((j : ℕ) (other : Item W) → slice_get items.now j ≡ Some other → other.ready ≡ false)
        (λ at. (item : Item W) × IsLeastReady items.now at item) }
{
    let mut best: Option<usize> = None;
    for i in 0..items.len() {
        best = better(items, best, i);
    }
    best
}
