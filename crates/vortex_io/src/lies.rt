// What a source that lies does with its parts: the completions that it gives, and the list of what is outstanding.
ghost use Rattle.std.specs.Prelude.{◌≡◌, ◌++◌, IfErr, IfOk, IsSome, OnErr, OnOk};
ghost use Rattle.std.specs.Option.{option_copied};
ghost use Rattle.vortex_buffer.specs.Counts.{one_more};
ghost use Rattle.vortex_io.specs.Source.{fetches};
ghost use Rattle.vortex_io.specs.Lying.{lie_at, without, IsCopied, SameCompletion, SameResult};
ghost use Rattle.vortex_io.specs.declared.request.IoError.TheVariants.{OutOfMemory};

use super::held::add_fetches;
use super::ids::{IoOwnerId, IoRequestId};
use super::lying::Lie;
use super::payload::Payload;
use super::request::{Completion, Fetch, IoError, IoRequest, IoResult};
use std::alloc::{AllocError, Global};
use std::collections::VecDeque;

// The completion that is given at a call, if it is listed.
fn lie_of<C>(lies: &[Lie<C>], call: u64) -> Option<&Completion<C>>
    ensures { option_copied result ≡ lie_at lies.now call }
{
    let lie = lies.iter().find(|lie| lie.call == call)?;
    Some(&lie.completion)
}

// A result that stands for the same.
fn copy_result<C: Payload>(alloc: Global, told: &IoResult<C>) -> Result<IoResult<C>, AllocError>
    ensures { IfOk result (λ given. SameResult C.means told.now given) }
{
    match told {
        IoResult::Chunk(chunk) => Ok(IoResult::Chunk(chunk.copy(alloc)?)),
        IoResult::Size(size) => Ok(IoResult::Size(*size)),
    }
}

// A completion that stands for the same.
fn copy_completion<C: Payload>(
    alloc: Global,
    told: &Completion<C>,
) -> Result<Completion<C>, AllocError>
    ensures { IfOk result (λ given. SameCompletion C.means told.now given) }
{
    Ok(Completion {
        owner: told.owner,
        request: told.request,
        result: copy_result(alloc, &told.result)?,
    })
}

/// What a source that lies keeps for itself: the lies, the number of its next call, how often a completion was answered,
/// and what is outstanding.
pub struct Lies<C> {
    pub alloc: Global,
    pub listed: Vec<Lie<C>>,
    pub calls: u64,
    pub answers: u64,
    pub outstanding: VecDeque<Fetch>,
}

impl<C: Drop> Drop for Lies<C> {
    fn drop(self) {
        let Lies {
            alloc: _alloc,
            listed: _listed,
            calls: _calls,
            answers: _answers,
            outstanding: _outstanding,
        } = self;
    }
}

impl<C: Payload> Lies<C> {
    /// Counts a call, and gives a copy of the completion that is listed for it, if one is.
    pub fn next(&mut self) -> Result<Option<Completion<C>>, IoError>
        ensures counted { self.new ≡ record self.old { calls = one_more self.old.calls } }
        ensures ok { IfOk result (λ given. IsCopied C.means (lie_at self.old.listed.items self.old.calls) given) }
        ensures err { IfErr result (λ error. (error ≡ OutOfMemory) × IsSome (lie_at self.old.listed.items self.old.calls)) }
    {
        let call = self.calls;
        self.calls = call.saturating_add(1);
        match lie_of(&self.listed, call) {
            Some(lie) => Ok(Some(copy_completion(self.alloc, lie)?)),
            None => Ok(None),
        }
    }

    /// Adds the fetches of an owner's batch.
    pub fn add(&mut self, owner: IoOwnerId, batch: &[IoRequest]) -> Result<(), AllocError>
        ensures kept { self.new ≡ record self.old { outstanding = self.new.outstanding } }
        ensures ok { OnOk result (self.new.outstanding.items ≡ self.old.outstanding.items ++ fetches owner batch.now) }
        ensures err { OnErr result (self.new.outstanding.items ≡ self.old.outstanding.items) }
    {
        self.outstanding.reserve(batch.len())?;
        add_fetches(&mut self.outstanding, owner, batch);
        Ok(())
    }

    /// Counts a completion and passes it on, and takes out the first fetch that it names, if there is one.
    pub fn counted(&mut self, answer: Completion<C>) -> Completion<C>
        ensures same { result ≡ answer }
        ensures counted { self.new ≡ record self.old { answers = one_more self.old.answers; outstanding = self.new.outstanding } }
        ensures taken { self.new.outstanding.items ≡ without answer.owner answer.request self.old.outstanding.items }
    {
        self.answers = self.answers.saturating_add(1);
        take_first(&mut self.outstanding, answer.owner, answer.request);
        answer
    }
}

// Takes out the first fetch of that owner and number, if there is one.
fn take_first(outstanding: &mut VecDeque<Fetch>, owner: IoOwnerId, request: IoRequestId)
    ensures { outstanding.new.items ≡ without owner request outstanding.old.items }
{
    for place in 0..outstanding.len() {
        let fetch = outstanding[place];
        if fetch.owner == owner && fetch.request == request {
            let _ = outstanding.remove(place);
            return;
        }
    }
}
