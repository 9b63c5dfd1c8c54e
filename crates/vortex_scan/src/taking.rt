// Roots that are cancelled, and sources that are handed back.
ghost use Rattle.std.specs.Prelude.{◌≡◌, ℕ, ◌≤◌, [], false, not, filter, length, slice_get, vec_capacity};
ghost use Rattle.vortex_scan.specs.RunState.{is_of_root, live_with};
ghost use Rattle.vortex_scan.specs.Sources.{Clears, ClearsEach};
ghost use Rattle.vortex_scan.specs.Steps.{CancelsLive};

use crate::item::{Item, Slot};
use crate::sources;
use vortex_io::IoSource;
use vortex_scan_types::RootId;

// The items of a root leave.
fn drop_items<W: Drop>(items: &mut Vec<Item<W>>, root: RootId)
    ensures { items.new.items ≡ filter (λ item. not (is_of_root root item)) items.old.items }
{
    items.retain(|item| item.root.0 != root.0);
}

// The source of a root is cleared, and the root is no longer live.
fn end<S: IoSource>(slot: &mut Slot<S>)
    ensures cleared { Clears S.IoSource slot.old.source slot.new.source }
    ensures ended { slot.new.live ≡ false }
{
    sources::clear(&mut slot.source);
    slot.live = false;
}

/// A root's items leave, its source is cleared, and it is no longer live. Where it is not live, nothing changes.
pub fn forget<W: Drop, S: IoSource>(
    items: &mut Vec<Item<W>>,
    slots: &mut Vec<Slot<S>>,
    root: RootId,
)
    ensures { (owners : ℕ) → CancelsLive S.IoSource root (slice_get slots.old.items root.0) (live_with items.old.items slots.old.items owners) (live_with items.new.items slots.new.items owners) }
{
    if root.0 >= slots.len() as u64 || !slots[root.0 as usize].live {
        return;
    }
    end(&mut slots[root.0 as usize]);
    drop_items(items, root);
}

/// Clears each source and hands it over, in order. There is room.
pub fn clear_all<S: IoSource>(slots: Vec<Slot<S>>, sources: &mut Vec<S>)
    requires none { sources.old.items ≡ [] }
    requires room { length slots.items ≤ vec_capacity sources.old }
    ensures { ClearsEach S.IoSource slots.items sources.new.items }
{
    for slot in slots {
        sources.push_reserved(slot.into_cleared());
    }
}
