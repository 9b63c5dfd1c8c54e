// The calls of a source, each with all that its trait says as one relation.
ghost use Rattle.vortex_scan.specs.Sources.{Clears, Polls, Releases, Submits, Waits};
ghost use Rattle.std.specs.Prelude.{◌<◌, length};

use vortex_io::{Completion, IoBatch, IoError, IoOwnerId, IoSource};

pub fn submit<S: IoSource>(source: &mut S, owner: IoOwnerId, batch: IoBatch) -> Result<(), IoError>
    ensures { Submits S.IoSource owner batch result source.old source.new }
{
    source.submit(owner, batch)
}

pub fn poll<S: IoSource>(source: &mut S) -> Result<Option<Completion<S::Payload>>, IoError>
    ensures { Polls S.IoSource S.Payload.Payload result source.old source.new }
{
    source.poll()
}

pub fn wait<S: IoSource>(source: &mut S) -> Result<Completion<S::Payload>, IoError>
    requires { 0 < length (S.outstanding source.old) }
    ensures { Waits S.IoSource S.Payload.Payload result source.old source.new }
{
    source.wait()
}

pub fn release<S: IoSource>(source: &mut S, owner: IoOwnerId)
    ensures { Releases S.IoSource owner source.old source.new }
{
    source.release(owner);
}

pub fn clear<S: IoSource>(source: &mut S)
    ensures { Clears S.IoSource source.old source.new }
{
    source.clear();
}
