//! Where a job stands in its line, and how its transaction goes.
use alp_session::Next;

/// Where a job stands in its line.
#[derive(Clone, Copy)]
pub enum Stage {
    /// The line is the next one, and its client has not come to it.
    Coming,
    /// This is what the client does next for it.
    Asking(Next),
    /// A collect was answered that the call waits. A Tick at that server comes next, and after it this.
    Ticking { server: u8, after: Next },
    /// Its transaction timed out, and the call is collected for the last time.
    Last,
}

/// How a transaction goes.
#[derive(Clone, Copy)]
pub enum Way {
    /// Nothing of the line was refused so far, but maybe to wait.
    Going,
    /// Something of the line was refused otherwise.
    Refused,
    /// The line is the one that gives it up.
    GivenUp,
}
