// Why the program ends with a status other than 0.
ghost use Rattle.std.specs.Prelude.{◌≡◌};
ghost use Rattle.vortex_query.specs.Query.{line_of};
ghost use Rattle.vortex_query.specs.Refused.{status_of};

/// Why a scan did not end well.
#[derive(Clone, Copy, Debug, PartialEq, Eq)]
pub enum Refusal {
    /// Memory ran out.
    OutOfMemory,
    /// The words, the request or the table are of a form that is not built.
    NotBuilt,
    /// The request names a column that the table lacks.
    UnknownColumn,
    /// The input failed.
    ReadFailed,
    /// The output failed.
    WriteFailed,
}

impl Refusal {
    /// The status that tells of it.
    pub fn status(self) -> u8
        ensures { result ≡ status_of self }
    {
        match self {
            Refusal::OutOfMemory => 1,
            Refusal::UnknownColumn => 4,
            Refusal::ReadFailed => 6,
            Refusal::WriteFailed => 7,
            Refusal::NotBuilt => 8,
        }
    }

    /// The line that tells of it.
    pub fn line(self) -> &'static [u8]
        ensures { result.now ≡ line_of (status_of self) }
    {
        match self {
            Refusal::OutOfMemory => b"vxscan: out of memory\n",
            Refusal::UnknownColumn => b"vxscan: request refused\n",
            Refusal::ReadFailed => b"vxscan: read failed\n",
            Refusal::WriteFailed => b"vxscan: write failed\n",
            Refusal::NotBuilt => b"vxscan: not built\n",
        }
    }
}
