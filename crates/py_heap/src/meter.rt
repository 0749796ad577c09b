ghost use Rattle.std.specs.Prelude.{◌≡◌, ◌+◌, ◌<◌, ◌≤◌, ◌↔◌, OnOk, OnErr};

use std::error::Error;
use std::fmt;
use std::marker::Model;

/// The most units on a meter.
pub const METER_LIMIT: u32 = 16_777_216;

/// Why a call on the state was refused.
#[derive(Clone, Copy, Debug, PartialEq, Eq)]
pub enum HeapFault {
    /// The meter would pass its limit.
    MeterSpent,
}

impl fmt::Display for HeapFault {
    fn fmt<W: fmt::Write>(&self, f: &mut fmt::Formatter<W>) -> fmt::Result {
        match self {
            HeapFault::MeterSpent => write!(f, "the meter is spent"),
        }
    }
}

impl Error for HeapFault {}

/// The units that a session has spent, at most `METER_LIMIT`. Contracts see their number.
#[derive(Debug, Drop)]
pub struct Meter {
    units: u32,
}

impl Model for Meter {
    ghost use Rattle.std.specs.Prelude.{ℕ, ◌≤◌};
    ghost use Rattle.std.specs.Coded.{coded_ℕ};

    ghost Value = { ℕ };

    ghost coded = { coded_ℕ };

    ghost view = { λ m. m.units };

    ghost invariant = { λ m. m.units ≤ 16777216 };
}

impl Meter {
    /// A meter with this many units.
    pub fn new(units: u32) -> Meter
        requires { units ≤ METER_LIMIT }
        ensures { result ≡ units }
    {
        Meter { units }
    }

    /// How many units there are.
    pub fn units(&self) -> u32
        ensures value { result ≡ self.now }
        ensures limit { result ≤ METER_LIMIT }
    {
        self.units
    }

    /// Raises the meter, if it stays within its limit.
    pub fn charge(&mut self, n: u64) -> Result<(), HeapFault>
        ensures ok { OnOk result (self.new ≡ self.old + n) }
        ensures spent { (result ≡ Err HeapFault.MeterSpent) ↔ (METER_LIMIT < self.old + n) }
        ensures err { OnErr result (self.new ≡ self.old) }
    {
        if n > u64::from(METER_LIMIT - self.units) {
            return Err(HeapFault::MeterSpent);
        }
        self.units += n as u32;
        Ok(())
    }
}
