use plain_data::Items;
use reply_frames::NodeError;
use session_core::{Alone, Engine};

/// How serving a link ended, if memory sufficed.
#[derive(Clone, Copy, Debug, PartialEq, Eq)]
pub enum LinkEnd {
    /// The link ended, and what it gave is frames alone.
    Ended,
    /// What the link gave has a length that no frame has, or ends within a frame.
    BadFrame,
    /// The link met a fault.
    LinkFault,
}

/// What came of a link.
#[derive(Drop)]
pub struct LinkReport<E: Engine> {
    pub end: LinkEnd,
    /// The errors, in order.
    pub errors: Items<NodeError>,
    /// The sessions that were served, with their kernels, in the order in which they were opened.
    pub runs: Vec<(u128, Alone<E>)>,
}
