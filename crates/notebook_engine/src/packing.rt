ghost use Rattle.std.specs.Prelude.{ℕ, ◌≡◌, List, IfOk};
ghost use Rattle.graph_model.specs.declared.plan.Plan.{Plan};
ghost use Rattle.graph_model.specs.Graphs.{IsFirstStuck};
ghost use Rattle.session_core.specs.Meanings.{Served, IsPacked};
ghost use Rattle.session_core.specs.Engines.{Packs};
ghost use Rattle.notebook_meaning.specs.Cells.{cells_of};
ghost use Rattle.notebook_meaning.specs.Notebooks.{HasObjectsOf, notebooks};
ghost use Rattle.restore_run.specs.Usable.{IsUsableSession};
ghost use Rattle.notebook_engine.specs.Holding.{StandsForAsks, IsImage};
ghost use Rattle.notebook_engine.specs.Packing.{IsStuckFault};

use crate::notebook::Notebook;
use crate::session::Session;
use checkpoint_bytes::write_checkpoint;
use cut_network::{PlanFault, plan};
use graph_model::{Graph, Weights};
use plan_model::check_weights;
use restore_run::{RestoreFault, restore};
use session_core::{PackFault, Packed, copies_of_texts};
use std::alloc::{AllocError, Global};

/// A version that is stuck, with its names.
fn stuck(alloc: Global, graph: &Graph, version: u32, cell: u32) -> PackFault
    requires { (c : ℕ) × IsFirstStuck graph.now version c }
    ensures { IsStuckFault graph.now version cell result }
{
    let x = &graph.versions.as_slice()[version as usize - 1];
    match copies_of_texts(alloc, x.names.as_slice()) {
        Ok(names) => PackFault::Stuck {
            version,
            cell,
            names,
        },
        Err(_) => PackFault::OutOfMemory,
    }
}

/// Why the bytes of a pack weren't restored: memory ran out.
fn ran_out(_fault: RestoreFault) -> AllocError
    requires { _fault ≡ RestoreFault.OutOfMemory }
{
    AllocError
}

impl Session {
    /// The session's checkpoint under a least-cost plan.
    pub(crate) fn packed(&self, alloc: Global, weights: &Weights) -> Result<Packed, PackFault>
        requires { IsUsableSession self.now.kernel.state self.now.history }
        ensures { (served : List Served) → StandsForAsks self.now served → Packs notebooks served weights.now result }
    {
        let graph = self.history.graph();
        if let Err(fault) = check_weights(graph, weights) {
            return Err(PackFault::BadWeights(fault));
        }
        let certified = match plan(alloc, graph, weights) {
            Ok(certified) => certified,
            Err(PlanFault::Stuck { version, cell }) => {
                return Err(stuck(alloc, graph, version, cell));
            }
            Err(PlanFault::OutOfMemory) => return Err(PackFault::OutOfMemory),
        };
        match write_checkpoint(alloc, self.kernel.state(), graph, &certified.plan) {
            Ok(bytes) => Ok(Packed { bytes, certified }),
            Err(_) => Err(PackFault::OutOfMemory),
        }
    }
}

impl Notebook {
    /// The session whose checkpoint these bytes are, and how many objects it has.
    pub(crate) fn unpacked(
        alloc: Global,
        bytes: &[u8],
        host: u32,
    ) -> Result<(Notebook, u32), AllocError>
        requires { (served : List Served) × (plan : Plan) × IsPacked notebooks served plan bytes.now }
        ensures image { IfOk result (λ made. IsImage made.0 bytes.now host) }
        ensures stands { IfOk result (λ made. (served : List Served) (plan : Plan) → IsPacked notebooks served plan bytes.now
            → StandsForAsks made.0 served × HasObjectsOf (cells_of served) made.1) }
    {
        match restore(alloc, bytes, host) {
            Ok(restored) => {
                let objects = restored.objects;
                if objects > u32::MAX as usize {
                    return Err(AllocError);
                }
                Ok((Notebook::of(alloc, restored), objects as u32))
            }
            Err(fault) => Err(ran_out(fault)),
        }
    }
}
