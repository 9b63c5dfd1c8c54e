// How items leave, and what their sources are told.
ghost use Rattle.std.specs.Prelude.{◌≡◌, ℕ, ◌<◌, ◌&&◌, length, slice_get, Some};
ghost use Rattle.vortex_scan.specs.Steps.{ClearsLast, Retires};
ghost use Rattle.vortex_scan.specs.Sources.{KeepsEach, Releases};
ghost use Rattle.vortex_scan.specs.RunState.{has_root, live_with};
ghost use Rattle.vortex_scan.specs.declared.item.Item.{Item};

use crate::errors::Visited;
use crate::item::{Item, Slot};
use crate::sources;
use vortex_io::{IoOwnerId, IoSource};
use vortex_scan_types::RootId;

// Whether a root has a live item.
fn has_root<W>(items: &[Item<W>], root: RootId) -> bool
    ensures { result ≡ has_root root items.now }
{
    items.iter().any(|item| item.root.0 == root.0)
}

// An owner's fetches are given up at its source, and all of them with the last item.
fn leave<S: IoSource>(slot: &mut Slot<S>, owner: IoOwnerId, others: bool)
    ensures { (released : S) × Releases S.IoSource owner slot.old.source released × ClearsLast S.IoSource others released slot.new.source × (slot.new.live ≡ (others && slot.old.live)) }
{
    sources::release(&mut slot.source, owner);
    if !others {
        sources::clear(&mut slot.source);
        slot.live = false;
    }
}

/// The item at a place leaves.
pub fn retire<W: Drop, S: IoSource>(
    items: &mut Vec<Item<W>>,
    slots: &mut Vec<Slot<S>>,
    at: usize,
) -> Visited
    requires in_range { at < length items.old.items }
    requires known { (item : Item W) → slice_get items.old.items at ≡ Some item → item.root.0 < length slots.old.items }
    ensures step { (item : Item W) (owners : ℕ) → slice_get items.old.items at ≡ Some item →
        Retires S.IoSource at item (live_with items.old.items slots.old.items owners) (live_with items.new.items slots.new.items owners) result }
    ensures sources { KeepsEach S.IoSource slots.old.items slots.new.items }
{
    let item = items.remove(at);
    let others = has_root(items, item.root);
    let slot = &mut slots[item.root.0 as usize];
    leave(slot, item.owner, others);
    if others {
        Visited::Went
    } else {
        Visited::RootDone(item.root)
    }
}
