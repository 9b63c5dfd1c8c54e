// Results that come to items.
ghost use Rattle.std.specs.Prelude.{◌≡◌, ◌↔◌, List, [], false, true, position, IsTrue, MatchResult};
ghost use Rattle.std.specs.List.{list_any};
ghost use Rattle.vortex_io.specs.declared.request.Fetch.{Fetch};
ghost use Rattle.vortex_scan.specs.Fetching.{is_answer};
ghost use Rattle.vortex_scan.specs.Steps.{Delivers, Hands, expects, handed};
ghost use Rattle.vortex_scan.specs.Fails.{DeliverFails};

use crate::errors::RunError;
use crate::item::Item;
use crate::state::State;
use crate::worker::Worker;
use vortex_io::Completion;
use vortex_scan_types::RootId;

// The place of the live item of a root that expects a completion.
fn expecting<W, C>(items: &[Item<W>], root: RootId, completion: &Completion<C>) -> Option<usize>
    ensures { result ≡ position (expects root completion.now) items.now }
{
    items.iter().position(|item| item.root.0 == root.0 && item.asked.expect(completion))
}

// An item takes the result of a fetch that it has outstanding. The answer is whether it is parked with nothing outstanding.
fn hand<W: Worker>(item: &mut Item<W>, completion: Completion<W::Payload>) -> bool
    requires { list_any (is_answer completion) item.old.asked ≡ true }
    ensures { (left : List Fetch) × (work : W) × Hands W.Worker completion item.old left work × (item.new ≡ handed W.Worker item.old left work)
        × (IsTrue result ↔ ((item.new.ready ≡ false) × (left ≡ []))) }
{
    item.asked.take(&completion);
    item.work.take(completion.request, completion.result);
    if item.work.state() != State::Waiting {
        item.ready = true;
    }
    !item.ready && item.asked.is_empty()
}

/// Delivers a completion to the live item of a root that expects it.
pub fn deliver<W: Worker>(
    items: &mut Vec<Item<W>>,
    root: RootId,
    completion: Completion<W::Payload>,
) -> Result<(), RunError<W::Error>>
    ensures { MatchResult result (λ _. Delivers W.Worker root completion items.old.items items.new.items) (λ error. DeliverFails W.Worker root completion items.old.items error) }
{
    let Some(at) = expecting(items, root, &completion) else {
        return Err(RunError::Protocol {
            root,
            owner: completion.owner,
            request: completion.request,
        })
    };
    let item = &mut items[at];
    if hand(item, completion) {
        return Err(RunError::WaitsForNothing);
    }
    Ok(())
}
