//! The engine of the product: a kernel, the history of its cells, the planner and the restorer.
//!
//! `notebook_meaning` tells what a list of asks means. A notebook that stands for such a list is as one that served these asks
//! and never moved, however often it did. docs/JOURNAL.md tells what an engine is. A law says that a session that is written down
//! under a feasible plan is restored from its bytes.
//!
//! The contracts leave open when memory runs out, so a body that always answers that it ran out meets them. Therefore the tests
//! of the program run the calls.
#![tactic(auto)]

mod cells;
mod engine;
mod notebook;
mod packing;
mod replies;
mod saved_laws;
mod session;

pub use notebook::Notebook;
pub use saved_laws::a_session_is_restored_from_its_bytes;
