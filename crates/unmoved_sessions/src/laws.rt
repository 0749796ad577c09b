ghost use Rattle.std.specs.Prelude.{◌≡◌, ℕ, List, [], ◌∷◌, ◌++◌, Option};
ghost use Rattle.std.specs.List.{AllByRecursion};
ghost use Rattle.nb_outside.specs.declared.feed.Drawn.{Drawn};
ghost use Rattle.session_core.specs.declared.entry.Entry.{Entry};
ghost use Rattle.session_core.specs.declared.entry.Entry.TheVariants.{Opened};
ghost use Rattle.node_intake.specs.Intake.{Taken};
ghost use Rattle.node_run.specs.Journals.{IsJournalOf};
ghost use Rattle.notebook_meaning.specs.Notebooks.{notebooks};
ghost use Rattle.node_intake.specs.Intake.{control_requests};
ghost use Rattle.std.specs.Prelude.{Some};
ghost use Rattle.unmoved_sessions.specs.Alike.{HadMemoryThroughout, AreAlike};
ghost use Rattle.unmoved_sessions.specs.Cells.{AsksCell, IsNoDeath};
ghost use Rattle.unmoved_sessions.specs.Answered.{AreAnswered, AreAnsweredUntilDeath};
ghost use Rattle.session_core.specs.Legal.{IsLegal};
ghost use Rattle.unmoved_sessions.specs.Ended.{EndsSession, TellsDeath};

use session_core::Engine;

/// If nothing but cells is asked of a session, and it doesn't die, its journal is its opening and then, for each cell in turn,
/// the reply of a session that never moves.
pub fn a_session_of_cells_is_one_that_never_moves()
    ensures { (hosts : ℕ) (answers : Option (List Drawn)) (s : Taken) (es : List Entry) → IsJournalOf notebooks hosts answers s es → AllByRecursion AsksCell s.requests → AllByRecursion IsNoDeath es
        → (entries : List Entry) × (es ≡ Opened s.host s.request s.channel ∷ entries) × AreAnswered s.host [] s.requests entries }
{}

/// If nothing but cells is asked of a session, its journal is its opening and then, for each cell in turn, the reply of a session
/// that never moves, until it dies.
pub fn a_session_of_cells_never_moves_until_it_dies()
    ensures { (hosts : ℕ) (answers : Option (List Drawn)) (s : Taken) (es : List Entry) → IsJournalOf notebooks hosts answers s es → AllByRecursion AsksCell s.requests
        → (entries : List Entry) × (es ≡ Opened s.host s.request s.channel ∷ entries) × AreAnsweredUntilDeath s.host [] s.requests entries }
{}

/// A session that isn't short of memory has one journal, if it is asked for no move on control and its feed tells what it gives: of
/// two journals of it, in neither of which memory ran out, each entry is the same, but that a move may have been made by another
/// certificate.
pub fn a_session_has_one_journal()
    ensures { (hosts : ℕ) (gives : List Drawn) (s : Taken) (es fs : List Entry) → control_requests s ≡ [] → IsJournalOf notebooks hosts (Some gives) s es → IsJournalOf notebooks hosts (Some gives) s fs
        → HadMemoryThroughout es → HadMemoryThroughout fs → AreAlike es fs }
{}

/// A dead session stays dead, whatever its engine: after a death, and after a shutdown without a restart, each entry of a legal journal
/// says that the session is dead, or refuses a move for that.
pub fn a_dead_session_stays_dead<E: Engine>()
    ensures { (hosts : ℕ) (journal before later : List Entry) (e : Entry) → IsLegal E.meaning hosts journal → journal ≡ before ++ e ∷ later → EndsSession e
        → AllByRecursion TellsDeath later }
{}
