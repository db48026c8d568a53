//! What stands between the turn of a client thread and the reply that it hands on.

/// Each client thread comes by after its turn, once it has left the monitor, and before it hands on the reply. A gate may hold it for a
/// while, as tests do.
pub trait Gate {
    /// The call of that number, of this client, has had its turn at the server.
    fn hold(&self, server: u8, client: u8, number: u32);
}

/// Holds nobody.
#[derive(Clone, Copy)]
pub struct OpenGate;

impl Gate for OpenGate {
    fn hold(&self, _server: u8, _client: u8, _number: u32) {}
}
