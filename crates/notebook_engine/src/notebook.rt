ghost use Rattle.std.specs.Prelude.{◌≡◌};
ghost use Rattle.restore_run.specs.Usable.{IsUsableSession};

use crate::session::Session;
use graph_model::Graph;
use py_heap::State;
use py_reader::Trees;
use restore_run::Restored;
use std::alloc::Global;
use std::marker::Model;

/// A notebook: a session, and what was read of the codes of its cells since it was opened or restored.
///
/// Its session may go on, also if it was restored from bytes of which nothing else is known: its state is valid, its graph has no fault
/// and tells of the state, its parts are the state's, and each cell is within the bounds of a checkpoint. The type keeps this, so a
/// notebook whose run met a fault begins anew.
#[derive(Drop)]
pub struct Notebook {
    pub(crate) session: Session,
    pub(crate) trees: Trees,
}

impl Model for Notebook {
    ghost use Rattle.std.specs.Prelude.{refl};
    ghost use Rattle.std.specs.Coded.{code_by, coded×};
    ghost use Rattle.py_kernel.specs.Kernels.{KernelView};
    ghost use Rattle.py_kernel.specs.contracts.kernel.Kernel as kernels;
    ghost use Rattle.history_graph.specs.Histories.{HistoryView};
    ghost use Rattle.history_graph.specs.contracts.history.History as histories;
    ghost use Rattle.notebook_engine.specs.declared.session.Session.{Session};

    ghost Value = { Session };

    ghost coded = { code_by (KernelView × HistoryView) (coded× kernels.the_row.coded histories.the_row.coded) (λ s. (s.kernel, s.history)) (λ p. record { kernel = p.0; history = p.1 }) (λ _. refl) };

    ghost use Rattle.restore_run.specs.Usable.{IsUsableSession};

    ghost view = { λ n. n.session };

    ghost invariant = { λ n. IsUsableSession n.session.kernel.state n.session.history };
}

impl Notebook {
    /// The session that was restored. Takes no memory.
    pub fn of(alloc: Global, restored: Restored) -> Notebook
        requires { IsUsableSession restored.kernel.state restored.history }
        ensures kernel { result.kernel ≡ restored.kernel }
        ensures history { result.history ≡ restored.history }
    {
        let Restored {
            kernel,
            history,
            ..
        } = restored;
        Notebook {
            session: Session { kernel, history },
            trees: Trees::new(alloc),
        }
    }

    /// The state. Takes no memory.
    pub fn state(&self) -> &State
        ensures state { result.now ≡ self.now.kernel.state }
        ensures usable { IsUsableSession self.now.kernel.state self.now.history }
    {
        self.session.kernel.state()
    }

    /// The graph of its cells. Takes no memory.
    pub fn graph(&self) -> &Graph
        ensures graph { result.now ≡ self.now.history.graph }
        ensures usable { IsUsableSession self.now.kernel.state self.now.history }
    {
        self.session.history.graph()
    }
}
