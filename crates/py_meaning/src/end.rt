use nb_outside::Drawn;
use plain_data::{Items, Text};
use py_machine::{Marks, PyError};
use std::error::Error;
use std::fmt;

/// The error that ended a cell.
#[derive(Debug, Drop)]
pub enum CellError {
    /// The cell raised this error.
    Raised(PyError),
    /// A draw failed, which is an OSError.
    Feed,
}

impl fmt::Display for CellError {
    fn fmt<W: fmt::Write>(&self, f: &mut fmt::Formatter<W>) -> fmt::Result {
        match self {
            CellError::Raised(error) => write!(f, "{error}"),
            CellError::Feed => write!(f, "OSError: feed"),
        }
    }
}

impl Error for CellError {}

/// How a cell ended.
#[derive(Drop)]
pub struct CellEnd {
    /// All that it printed.
    pub printed: Text,
    /// The text of its last expression's value, if that is one and isn't None.
    pub result: Option<Text>,
    /// The error that ended it, if one did.
    pub error: Option<CellError>,
    /// The steps that it took.
    pub steps: u32,
    /// What it drew, in order.
    pub draws: Items<Drawn>,
    /// The names that it looked up first and those that it bound or unbound, the addresses of the objects that it changed,
    /// and whether it drew.
    pub marks: Marks,
}
