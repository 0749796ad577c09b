ghost use Rattle.std.specs.Prelude.{ℕ, ◌<◌, ◌≤◌, List, length, Option};
ghost use Rattle.std.specs.List.{AllByRecursion};
ghost use Rattle.jupyter_frames.specs.Framing.{Cutting};
ghost use Rattle.node_intake.specs.Intake.{Taken, most_requests};
ghost use Rattle.node_run.specs.Ends.{IsCaused};
ghost use Rattle.node_run.specs.Journals.{Answers};
ghost use Rattle.node_run.specs.Streams.{Streams};
ghost use Rattle.notebook_meaning.specs.Notebooks.{notebooks};
ghost use Rattle.unmoved_sessions.specs.Cells.{AsksCell};
ghost use Rattle.unmoved_sessions.specs.Streams.{AreBodiesOf, StreamsAsUnmoved};

/// If the frames of a stream open one session and ask nothing but cells of it, what a run writes are the frames of the opening and
/// then, for each cell in turn, of the reply of a session that never moves, until it dies. If the stream
/// breaks off, the frame of that error comes first.
pub fn a_stream_of_cells_is_answered_as_by_a_session_that_never_moves()
    ensures { (hosts status : ℕ) (gives : Answers) (faults_old faults_new reads_old reads_new : ℕ) (bytes left : List ℕ) (sink_old sink_new : Option (List ℕ)) (cut : Cutting bytes) (s : Taken)
        → AreBodiesOf s cut.bodies → s.host < hosts → length s.requests ≤ most_requests → AllByRecursion AsksCell s.requests
        → Streams notebooks hosts gives (IsCaused faults_old faults_new reads_old reads_new) status bytes left sink_old sink_new → StreamsAsUnmoved gives (IsCaused faults_old faults_new reads_old reads_new) status s bytes cut left sink_old sink_new }
{}
