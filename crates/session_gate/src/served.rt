/// How a request that is no move was answered.
#[derive(Clone, Copy, Debug, PartialEq, Eq)]
pub enum ServedAs {
    Ran,
    Died,
    /// The session was dead.
    Dead,
}
