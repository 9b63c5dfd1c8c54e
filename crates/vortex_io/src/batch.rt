// The requests of one submission.
ghost use Rattle.std.specs.Prelude.{◌≡◌, ◌∷◌, ◌++◌, [], length, OnOk, OnErr};

use super::request::IoRequest;
use std::alloc::{AllocError, Global};
use std::marker::Model;

/// Requests that are submitted together. Contracts see the list of them.
pub struct IoBatch {
    requests: Vec<IoRequest>,
}

impl Drop for IoBatch {
    fn drop(self) {
        let IoBatch {
            requests: _requests,
        } = self;
    }
}

impl Model for IoBatch {
    ghost use Rattle.std.specs.Prelude.{List};
    ghost use Rattle.vortex_io.specs.declared.request.IoRequest.{IoRequest};

    ghost Value = { List IoRequest };

    ghost view = { λ batch. batch.requests.items };
}

impl IoBatch {
    /// No request yet. It takes no memory.
    pub fn new(alloc: Global) -> IoBatch
        ensures { result ≡ [] }
    {
        IoBatch {
            requests: Vec::new(alloc),
        }
    }

    /// Adds a request at the end. Without memory the requests stay.
    pub fn push(&mut self, request: IoRequest) -> Result<(), AllocError>
        ensures ok { OnOk result (self.new ≡ self.old ++ request ∷ []) }
        ensures err { OnErr result (self.new ≡ self.old) }
    {
        self.requests.push(request)?;
        Ok(())
    }

    /// The requests, in the order in which they were added.
    pub fn as_slice(&self) -> &[IoRequest]
        ensures { result.now ≡ self.now }
    {
        self.requests.as_slice()
    }

    /// How many requests there are.
    pub fn len(&self) -> usize
        ensures { result ≡ length self.now }
    {
        self.requests.len()
    }
}
