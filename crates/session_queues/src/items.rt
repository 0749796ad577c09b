use ruled_queue::Numbering;
use session_core::{Channel, Entry, Header, Request};

/// What waits in the main queue.
#[derive(Debug, Drop)]
pub enum MainItem {
    /// The session of this kernel is opened on that host. It only comes first.
    Opening {
        kernel: u128,
        host: u32,
        request: Header,
        channel: Channel,
    },
    /// A request that isn't of the control list.
    Asked(Request),
}

/// How the main queue numbers its items.
pub struct MainNumbers;

impl Numbering<MainItem> for MainNumbers {
    ghost use Rattle.session_queues.specs.Items.{number_of, IsForMain, is_opening};

    ghost number = { number_of };

    ghost is_fit = { IsForMain };

    ghost opens = { is_opening };
}

/// How the control queue numbers its requests.
pub struct ControlNumbers;

impl Numbering<Request> for ControlNumbers {
    ghost use Rattle.session_queues.specs.Items.{frontend_of, IsForControl, opens_control};

    ghost number = { frontend_of };

    ghost is_fit = { IsForControl };

    ghost opens = { opens_control };
}

/// All entries have one number.
pub struct OutNumbers;

impl Numbering<Entry> for OutNumbers {
    ghost use Rattle.session_queues.specs.Items.{number_of_entry, IsForOut, opens_out};

    ghost number = { number_of_entry };

    ghost is_fit = { IsForOut };

    ghost opens = { opens_out };
}
