ghost use Rattle.std.specs.Prelude.{ℕ, ◌≤◌, Bool, List};
ghost use Rattle.flow_model.specs.Flows.{Net, IsNet, IsLegal, IsCut, value, cut_capacity};

/// No legal flow has a greater value than a cut has capacity.
pub fn a_cut_bounds_every_flow()
    ensures { (net : Net) (flow : List ℕ) (side : ℕ → Bool) → IsNet net → IsLegal net flow → IsCut side
        → value net flow ≤ cut_capacity side net.arcs }
{}
