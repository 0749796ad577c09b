use std::sync::{Condvar, Mutex, Wait};

/// What the workers of a host sleep on. It counts how often it was rung, so that none sleeps past a ring after it looked.
#[derive(Drop)]
pub(crate) struct Bell {
    rings: Mutex<u64>,
    rung: Condvar,
}

impl Bell {
    pub(crate) fn new() -> Bell {
        Bell {
            rings: Mutex::new(0),
            rung: Condvar::new(),
        }
    }

    /// Wakes all who sleep here.
    pub(crate) fn ring<R: Wait>(&self, rt: &R) {
        let mut rings = self.rings.lock(rt);
        *rings = rings.wrapping_add(1);
        self.rung.notify_all();
    }

    /// How often it was rung.
    pub(crate) fn rings<R: Wait>(&self, rt: &R) -> u64 {
        *self.rings.lock(rt)
    }

    /// Sleeps until it is rung once more than that.
    pub(crate) fn wait_past<R: Wait>(&self, rt: &R, seen: u64) {
        let _ = self
            .rung
            .wait_while(rt, self.rings.lock(rt), |rings| *rings == seen);
    }
}
