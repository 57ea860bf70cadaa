//! Why a call is refused.
ghost use Rattle.std.specs.Prelude.{◌≡◌};
ghost use Rattle.con_units.specs.Code.{number_of};

/// There was no memory.
#[derive(Clone, Copy, Debug, PartialEq, Eq, Drop)]
pub struct OutOfMemory;

/// Why a client's call is refused.
#[derive(Clone, Copy, Debug, PartialEq, Eq, Drop)]
pub enum Code {
    /// A right is missing (`ERROR_ACCESS_DENIED`).
    Denied,
    /// There is no such handle, or it is of another kind (`ERROR_INVALID_HANDLE`).
    BadHandle,
    /// There is no such alias (`ERROR_GEN_FAILURE`).
    NoAlias,
    /// An argument is invalid (`ERROR_INVALID_PARAMETER`).
    BadArgument,
    /// The console is closed (`ERROR_BROKEN_PIPE`).
    Closed,
    /// A read was ended by ctrl+C (`ERROR_OPERATION_ABORTED`).
    Aborted,
    /// A stated limit is reached (`ERROR_NOT_ENOUGH_QUOTA`).
    Limit,
}

impl Code {
    /// The number that a report shows: 5, 6, 31, 87, 109, 995 or 1816.
    pub fn number(self) -> u32
        ensures { result ≡ number_of self }
    {
        match self {
            Code::Denied => 5,
            Code::BadHandle => 6,
            Code::NoAlias => 31,
            Code::BadArgument => 87,
            Code::Closed => 109,
            Code::Aborted => 995,
            Code::Limit => 1816,
        }
    }
}
