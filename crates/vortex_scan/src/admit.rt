// How a root joins.
ghost use Rattle.std.specs.Prelude.{◌≡◌, ◌≢◌, ◌↔◌, ◌⊎◌, ◌+◌, ◌-◌, ◌^◌, ◌≤◌, ◌++◌, ◌∷◌, [], true, false, length, Some, IfOk, MatchResult, vec_len, vec_capacity};
ghost use Rattle.vortex_scan.specs.Calls.{IsRefusedFor};
ghost use Rattle.vortex_scan.specs.Steps.{root_item};
ghost use Rattle.vortex_scan.specs.declared.worker.Work.{Work};

use crate::errors::{AdmitError, Refused};
use crate::fetches::Fetches;
use crate::item::{Item, Slot};
use crate::worker::Work;
use std::alloc::{AllocError, Global};
use vortex_io::IoOwnerId;
use vortex_scan_types::{Place, RootId, WorkScope};

// Why no root may join, if so: the run has failed, or no number is left.
fn refusal(failed: bool, next_root: u64, next_owner: u64) -> Option<AdmitError>
    ensures run_failed { result ≡ Some AdmitError.RunFailed ↔ (failed ≡ true) }
    ensures ids_exhausted { result ≡ Some AdmitError.IdsExhausted ↔ ((failed ≡ false) × ((next_root ≡ 2 ^ 64 - 1) ⊎ (next_owner ≡ 2 ^ 64 - 1))) }
    ensures memory { result ≢ Some AdmitError.OutOfMemory }
{
    if failed {
        return Some(AdmitError::RunFailed);
    }
    if next_root == u64::MAX || next_owner == u64::MAX {
        return Some(AdmitError::IdsExhausted);
    }
    None
}

// Makes room for one more of each, and changes no list.
fn make_room<P: Drop, M: Drop, S: Drop>(
    items: &mut Vec<Item<Work<P, M>>>,
    slots: &mut Vec<Slot<S>>,
    room: &mut Vec<S>,
) -> Result<(), AllocError>
    requires { room.old.items ≡ [] }
    ensures kept { (items.new.items ≡ items.old.items) × (slots.new.items ≡ slots.old.items) × (room.new.items ≡ []) }
    ensures less { vec_capacity room.old ≤ vec_capacity room.new }
    ensures ok { IfOk result (λ _. (vec_len items.new + 1 ≤ vec_capacity items.new) × (vec_len slots.new + 1 ≤ vec_capacity slots.new) × (length slots.new.items + 1 ≤ vec_capacity room.new)) }
{
    let needed = slots.len() + 1;
    items.reserve(1)?;
    slots.reserve(1)?;
    room.reserve(needed)
}

// The item of a root and its source join, or both come back.
fn join<P: Drop, M: Drop, S: Drop>(
    alloc: Global,
    items: &mut Vec<Item<Work<P, M>>>,
    slots: &mut Vec<Slot<S>>,
    room: &mut Vec<S>,
    root: RootId,
    owner: IoOwnerId,
    planner: P,
    scope: WorkScope,
    source: S,
) -> Result<(), Refused<P, S>>
    requires { room.old.items ≡ [] }
    ensures room { room.new.items ≡ [] }
    ensures less { vec_capacity room.old ≤ vec_capacity room.new }
    ensures ok { MatchResult result
        (λ _. (slots.new.items ≡ slots.old.items ++ record { source = source; live = true } ∷ [])
        × (items.new.items ≡ items.old.items ++ root_item root.0 owner.0 scope (Work.Planner planner) ∷ []) × (length slots.old.items + 1 ≤ vec_capacity room.new))
        (λ refused. (slots.new.items ≡ slots.old.items) × (items.new.items ≡ items.old.items) × (refused.planner ≡ planner) × (refused.source ≡ source) × (refused.error ≡ AdmitError.OutOfMemory)) }
{
    let Ok(path) = Place::of_root(alloc, root) else {
        return Err(Refused {
            planner,
            source,
            error: AdmitError::OutOfMemory,
        });
    };
    if make_room(items, slots, room).is_err() {
        return Err(Refused {
            planner,
            source,
            error: AdmitError::OutOfMemory,
        });
    }
    items.push_reserved(Item {
        root,
        owner,
        scope,
        path,
        next: 0,
        asked: Fetches::new(alloc),
        ready: true,
        work: Work::Planner(planner),
    });
    slots.push_reserved(Slot { source, live: true });
    Ok(())
}

/// A root joins under the next numbers, or comes back with its source and the reason.
pub fn admit_root<P: Drop, M: Drop, S: Drop>(
    alloc: Global,
    failed: bool,
    items: &mut Vec<Item<Work<P, M>>>,
    slots: &mut Vec<Slot<S>>,
    room: &mut Vec<S>,
    next_root: u64,
    next_owner: u64,
    planner: P,
    scope: WorkScope,
    source: S,
) -> Result<(), Refused<P, S>>
    requires { room.old.items ≡ [] }
    ensures room { room.new.items ≡ [] }
    ensures less { vec_capacity room.old ≤ vec_capacity room.new }
    ensures ok { MatchResult result
        (λ _. (slots.new.items ≡ slots.old.items ++ record { source = source; live = true } ∷ [])
        × (items.new.items ≡ items.old.items ++ root_item next_root next_owner scope (Work.Planner planner) ∷ []) × (length slots.old.items + 1 ≤ vec_capacity room.new))
        (λ refused. (slots.new.items ≡ slots.old.items) × (items.new.items ≡ items.old.items) × (refused.planner ≡ planner) × (refused.source ≡ source)) }
    ensures run_failed { IsRefusedFor AdmitError.RunFailed result ↔ (failed ≡ true) }
    ensures ids_exhausted { IsRefusedFor AdmitError.IdsExhausted result ↔ ((failed ≡ false) × ((next_root ≡ 2 ^ 64 - 1) ⊎ (next_owner ≡ 2 ^ 64 - 1))) }
{
    if let Some(error) = refusal(failed, next_root, next_owner) {
        return Err(Refused {
            planner,
            source,
            error,
        });
    }
    join(
        alloc,
        items,
        slots,
        room,
        RootId(next_root),
        IoOwnerId(next_owner),
        planner,
        scope,
        source,
    )
}
