use plain_data::Items;
use reply_frames::NodeError;

/// What was taken in at a desk.
#[derive(Drop)]
pub struct Handed<D> {
    /// Where the sessions were opened and the requests were handed in.
    pub desk: D,
    /// The errors, in order. The error that the stream is broken isn't one of them.
    pub errors: Items<NodeError>,
    /// Where the stream stops being frames: the place of the first byte of a length that no frame has, or of a frame that is
    /// cut off.
    pub broken: Option<u64>,
}

/// How taking in ended.
#[derive(Clone, Copy, Debug, PartialEq, Eq)]
pub enum IntakeEnd {
    /// The input ended, or has a length that no frame has.
    End,
    /// The source met a fault.
    Failed,
    /// 4,294,967,295 reads each took a byte.
    TooMany,
}
