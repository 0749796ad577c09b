ghost use Rattle.std.specs.Prelude.{ℕ, Bool, ◌≡◌, ◌<◌, ◌≤◌, ◌^◌};
ghost use Rattle.flow_model.specs.Flows.{IsCut, cut_capacity};
ghost use Rattle.graph_model.specs.declared.graph.Graph.{Graph};
ghost use Rattle.graph_model.specs.declared.plan.Plan.{Plan};
ghost use Rattle.graph_model.specs.declared.plan.Weights.{Weights};
ghost use Rattle.graph_model.specs.declared.plan.Certified.{Certified};
ghost use Rattle.graph_model.specs.Graphs.{IsStuck};
ghost use Rattle.graph_model.specs.Faults.{IsGraph};
ghost use Rattle.graph_model.specs.Plans.{NamesOf, IsFeasible, AreAdmitted, cost};
ghost use Rattle.graph_model.specs.Networks.{IsCertified, net_of, plan_of_cut};

/// No feasible plan costs less than one that is certified.
pub fn no_plan_undercuts()
    ensures { (g : Graph) (w : Weights) (c : Certified) (p : Plan) → IsGraph g → AreAdmitted g w → IsCertified g w c
        → NamesOf g p → IsFeasible g p → c.cost ≤ cost g w p }
{}

/// A cut of the plan network whose capacity is below 2^63 stands for a feasible plan, which costs that capacity.
pub fn a_least_cut_is_a_feasible_plan()
    ensures { (g : Graph) (w : Weights) (side : ℕ → Bool) → IsGraph g → AreAdmitted g w → IsCut side
        → cut_capacity side (net_of g w).arcs < 2 ^ 63
        → NamesOf g (plan_of_cut g side) × IsFeasible g (plan_of_cut g side)
        × (cost g w (plan_of_cut g side) ≡ cut_capacity side (net_of g w).arcs) }
{}

/// A graph with a stuck pair has no feasible plan.
pub fn a_stuck_pair_forbids_every_plan()
    ensures { (g : Graph) (v c : ℕ) (p : Plan) → IsStuck g v c → ¬ IsFeasible g p }
{}
