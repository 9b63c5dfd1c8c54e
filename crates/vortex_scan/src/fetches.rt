// The fetches that an item has published and was not given.
ghost use Rattle.std.specs.Prelude.{◌≡◌, ◌==◌, ◌↔◌, ◌++◌, ◌∷◌, [], true, false, position, IsTrue};
ghost use Rattle.std.specs.List.{list_any};
ghost use Rattle.vortex_io.specs.Source.{Taken, fetches, is_of_kind};
ghost use Rattle.vortex_io.specs.declared.request.Fetch.{Fetch};
ghost use Rattle.vortex_scan.specs.Fetching.{is_answer, numbers};
ghost use Rattle.vortex_scan.specs.Numbers.{repeats};

use std::alloc::{AllocError, Global};
use std::marker::Model;
use vortex_io::{Completion, Fetch, IoIntent, IoOwnerId, IoRequest, IoRequestId};

/// Fetches of one item, the oldest first. Contracts see the list of them.
pub struct Fetches {
    items: Vec<Fetch>,
}

impl Drop for Fetches {
    fn drop(self) {
        let Fetches { items: _items } = self;
    }
}

impl Model for Fetches {
    ghost use Rattle.std.specs.Prelude.{List};
    ghost use Rattle.vortex_io.specs.declared.request.Fetch.{Fetch};

    ghost Value = { List Fetch };

    ghost view = { λ f. f.items.items };
}

// Whether a fetch of this number stands in the list.
fn has_number(fetches: &[Fetch], number: IoRequestId) -> bool
    ensures { result ≡ list_any (λ (fetch : Fetch). fetch.request.0 == number.0) fetches.now }
{
    fetches.iter().any(|fetch| fetch.request.0 == number.0)
}

// Adds a request, if it is a fetch, or answers false where its number would stand twice.
fn add(items: &mut Vec<Fetch>, owner: IoOwnerId, request: IoRequest) -> Result<bool, AllocError>
    requires { repeats (numbers items.old.items) ≡ false }
    ensures added { result ≡ Ok true → items.new.items ≡ items.old.items ++ fetches owner (request ∷ []) }
    ensures fresh { result ≡ Ok true → repeats (numbers items.new.items) ≡ false }
    ensures repeated { result ≡ Ok false → repeats (numbers (items.old.items ++ fetches owner (request ∷ []))) ≡ true }
{
    match request.intent {
        IoIntent::Prefetch => Ok(true),
        IoIntent::Announce => Ok(true),
        IoIntent::Fetch => {
            if has_number(items, request.request) {
                return Ok(false);
            }
            items.push(Fetch {
                owner,
                request: request.request,
                target: request.target,
            })?;
            Ok(true)
        }
    }
}

// Adds the fetches of a batch, or answers false where a number would stand twice.
fn add_all(
    items: &mut Vec<Fetch>,
    owner: IoOwnerId,
    batch: &[IoRequest],
) -> Result<bool, AllocError>
    requires { repeats (numbers items.old.items) ≡ false }
    ensures added { result ≡ Ok true → items.new.items ≡ items.old.items ++ fetches owner batch.now }
    ensures fresh { result ≡ Ok true → repeats (numbers (items.old.items ++ fetches owner batch.now)) ≡ false }
    ensures repeated { result ≡ Ok false → repeats (numbers (items.old.items ++ fetches owner batch.now)) ≡ true }
{
    for request in batch {
        if !add(items, owner, *request)? {
            return Ok(false);
        }
    }
    Ok(true)
}

// Whether a fetch is what a completion answers.
fn answers<C>(fetch: &Fetch, completion: &Completion<C>) -> bool
    ensures { result ≡ is_answer completion.now fetch.now }
{
    fetch.owner.0 == completion.owner.0
        && fetch.request.0 == completion.request.0
        && completion.result.matches(&fetch.target)
}

// Whether one of the fetches is what a completion answers.
fn expect<C>(items: &[Fetch], completion: &Completion<C>) -> bool
    ensures { result ≡ list_any (is_answer completion.now) items.now }
{
    items.iter().any(|fetch| answers(fetch, completion))
}

// The place of the first fetch that a completion answers.
fn place_of<C>(items: &[Fetch], completion: &Completion<C>) -> Option<usize>
    ensures { result ≡ position (is_answer completion.now) items.now }
{
    items.iter().position(|fetch| answers(fetch, completion))
}

// Takes out the first fetch that a completion answers.
fn take<C>(items: &mut Vec<Fetch>, completion: &Completion<C>)
    requires { list_any (is_answer completion.now) items.old.items ≡ true }
    ensures { (entry : Fetch) × Taken completion.now.owner completion.now.request items.old.items items.new.items entry × IsTrue (is_of_kind entry.target completion.now.result) }
{
    match place_of(items, completion) {
        Some(place) => {
            items.remove(place);
        }
        None => unreachable!(),
    }
}

impl Fetches {
    /// No fetch yet.
    pub fn new(alloc: Global) -> Fetches
        ensures { result ≡ [] }
    {
        Fetches {
            items: Vec::new(alloc),
        }
    }

    /// Whether there is none.
    pub fn is_empty(&self) -> bool
        ensures { IsTrue result ↔ (self.now ≡ []) }
    {
        self.items.len() == 0
    }

    /// The fetches.
    pub fn as_slice(&self) -> &[Fetch]
        ensures { result.now ≡ self.now }
    {
        self.items.as_slice()
    }

    /// Whether one of them is what a completion answers.
    pub fn expect<C>(&self, completion: &Completion<C>) -> bool
        ensures { result ≡ list_any (is_answer completion.now) self.now }
    {
        expect(self.items.as_slice(), completion)
    }

    /// Takes out one that a completion answers.
    pub fn take<C>(&mut self, completion: &Completion<C>)
        requires { list_any (is_answer completion.now) self.old ≡ true }
        ensures { (entry : Fetch) × Taken completion.now.owner completion.now.request self.old self.new entry × IsTrue (is_of_kind entry.target completion.now.result) }
    {
        take(&mut self.items, completion);
    }

    /// Adds the fetches of a batch, or answers false where a number would stand twice.
    pub fn add_all(&mut self, owner: IoOwnerId, batch: &[IoRequest]) -> Result<bool, AllocError>
        requires { repeats (numbers self.old) ≡ false }
        ensures added { result ≡ Ok true → self.new ≡ self.old ++ fetches owner batch.now }
        ensures fresh { result ≡ Ok true → repeats (numbers (self.old ++ fetches owner batch.now)) ≡ false }
        ensures repeated { result ≡ Ok false → repeats (numbers (self.old ++ fetches owner batch.now)) ≡ true }
    {
        add_all(&mut self.items, owner, batch)
    }
}
