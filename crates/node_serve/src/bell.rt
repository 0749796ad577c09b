use host_workers::Gate;
use std::sync::{Condvar, CondvarTimeouts, Mutex, Wait};
use std::time::{Clock, Duration};

/// What wakes the thread of a link once a session of the link has answered. It counts how often it was rung, so that none sleeps
/// past a ring after it looked.
#[derive(Drop)]
pub(crate) struct Bell {
    rings: Mutex<u64>,
    rung: Condvar,
}

impl Bell {
    pub(crate) fn new() -> Bell {
        Bell {
            rings: Mutex::new(0),
            rung: Condvar::new(),
        }
    }

    fn ring<R: Wait>(&self, rt: &R) {
        let mut rings = self.rings.lock(rt);
        *rings = rings.wrapping_add(1);
        self.rung.notify_all();
    }

    /// How often it was rung.
    pub(crate) fn rings<R: Wait>(&self, rt: &R) -> u64 {
        *self.rings.lock(rt)
    }

    /// Sleeps until it is rung once more than that, or for so many milliseconds.
    pub(crate) fn wait_past<R: Wait + Clock>(&self, rt: &R, seen: u64, patience: u32) {
        let within = Duration::from_millis(u64::from(patience));
        let _ = self
            .rung
            .wait_timeout_while(rt, self.rings.lock(rt), within, |rings| *rings == seen);
    }
}

/// A gate that rings once a session was put back.
#[derive(Drop)]
pub(crate) struct RingingGate<'r, 'g, 'b, G, R> {
    rt: &'r R,
    gate: &'g G,
    bell: &'b Bell,
}

impl<'r, 'g, 'b, G, R> RingingGate<'r, 'g, 'b, G, R> {
    pub(crate) fn new(rt: &'r R, gate: &'g G, bell: &'b Bell) -> RingingGate<'r, 'g, 'b, G, R> {
        RingingGate { rt, gate, bell }
    }
}

impl<'r, 'g, 'b, G: Gate, R: Wait> Gate for RingingGate<'r, 'g, 'b, G, R> {
    fn cross(&self, host: u32, session: u32) {
        self.gate.cross(host, session);
    }

    fn passed(&self, host: u32, session: u32) {
        self.gate.passed(host, session);
        self.bell.ring(self.rt);
    }
}
