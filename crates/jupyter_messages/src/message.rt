use session_core::{Ask, Channel, Header};

/// What a message asks.
#[derive(Debug, Drop)]
pub enum MessageKind {
    /// Open the kernel on this host.
    Open { host: u64 },
    /// Do this on the kernel's session.
    Ask(Ask),
}

/// A message.
#[derive(Debug, Drop)]
pub struct Message {
    pub header: Header,
    pub channel: Channel,
    /// The kernel's UUID, as one number with the high byte first.
    pub kernel: u128,
    pub kind: MessageKind,
}
