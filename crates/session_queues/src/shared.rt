use crate::items::{ControlNumbers, MainItem, MainNumbers, OutNumbers};
use ruled_queue::Queue;
use session_core::{Entry, Request};

/// The queues of a session, which its threads share.
pub struct SharedQueues {
    pub main: Queue<MainItem, MainNumbers>,
    pub control: Queue<Request, ControlNumbers>,
    pub out: Queue<Entry, OutNumbers>,
}

impl Drop for SharedQueues {
    fn drop(self) {
        let Self { main, control, out } = self;
        main.destroy();
        control.destroy();
        out.destroy();
    }
}
