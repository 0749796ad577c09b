/// How a run on a stream ended, if memory sufficed.
#[derive(Clone, Copy, Debug, PartialEq, Eq)]
pub enum RunEnd {
    /// The input was read to its end, and is frames alone.
    Whole,
    /// The input has a length that no frame has, or ends within a frame.
    Broken,
    /// The source met a fault.
    SourceFailed,
    /// 4,294,967,295 reads each took a byte.
    TooManyReads,
}
