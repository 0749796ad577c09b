/// Where a worker may be held between two cells.
pub trait Gate {
    /// A worker of the host is about to do a turn of the session.
    fn cross(&self, host: u32, session: u32);

    /// The session has been put back after that turn.
    fn passed(&self, host: u32, session: u32);
}

/// A gate that holds nobody.
pub struct OpenGate;

impl Gate for OpenGate {
    fn cross(&self, _host: u32, _session: u32) {}

    fn passed(&self, _host: u32, _session: u32) {}
}
