//! What is called round each step of a script.

/// Called round step n, counted from 0, of each script whose steps run beside others.
pub trait Gate: Sync {
    /// Before step n of a client.
    fn before(&self, client: u8, n: u32);

    /// After step n of a client.
    fn after(&self, client: u8, n: u32);
}

/// A gate that does nothing.
#[derive(Clone, Copy, PartialEq, Eq)]
pub struct NoGate;

impl Gate for NoGate {
    fn before(&self, _client: u8, _n: u32) {}

    fn after(&self, _client: u8, _n: u32) {}
}
