//! The history graph of a session as it is kept, cell by cell.
//!
//! After each cell the parts of the state are found, and the graph gets the cell's record, a version of each part that the
//! cell wrote and of each name that it deleted, and a mark at each version that these replace. What a history graph is:
//! docs/HISTORY.md. (Li et al., ElasticNotebook, PVLDB 17(2).) A cell that would bring the number of cells, of versions, of
//! names, of distinct texts or of the bytes of a part to 2^32 isn't added, and the answer says which number it is.
#![tactic(auto)]

mod active;
mod fault;
mod growth;
mod heads;
mod history;
mod laws;
mod missing;
mod reads;
mod record;
mod room;
mod sets;
mod texts;
mod versions;
mod written;

pub use fault::HistoryFault;
pub use history::History;
pub use laws::{
    a_checked_graph_stays_one, a_history_stays_one, checked_graphs_have_cells, histories_have_cells,
};
pub use sets::{add_names, is_in};
pub use written::by_least;
