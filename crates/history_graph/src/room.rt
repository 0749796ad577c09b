ghost use Rattle.std.specs.Prelude.{◌≡◌, ◌<◌, ◌≤◌, ◌+◌, ◌^◌, None, MatchOption};
ghost use Rattle.graph_model.specs.declared.plan.Tally.TheVariants as tally;
ghost use Rattle.history_graph.specs.Room.{IsFirstOf};

use graph_model::Tally;

/// The first of these numbers that is 2^32 or more: one cell more than these; the versions and the new ones together; the
/// names.
pub(crate) fn first_over(cells: usize, versions: usize, news: usize, names: usize) -> Option<Tally>
    ensures { IsFirstOf cells versions news names result }
{
    let most = u32::MAX as usize;
    if cells >= most {
        return Some(Tally::Cells);
    }
    if versions > most || news > most - versions {
        return Some(Tally::Versions);
    }
    if names > most {
        return Some(Tally::Names);
    }
    None
}
