use history_graph::History;
use py_kernel::Kernel;

/// A session that was restored.
#[derive(Drop)]
pub struct Restored {
    pub kernel: Kernel,
    /// The checkpoint's graph, and the parts of the kernel's state.
    pub history: History,
    /// How many objects the state has.
    pub objects: usize,
}
