//! What holds of every journal, and after every list of events. Each law is the contract of a function that does nothing.

ghost use Rattle.std.specs.Prelude.{◌≡◌, ℕ, List, ◌∷◌, [], ◌++◌};
ghost use Rattle.session_core.specs.declared.entry.Entry.{Entry};
ghost use Rattle.session_core.specs.Legal.{IsLegal, MayCome, progress_of};
ghost use Rattle.std.specs.Prelude.{◌≢◌, ◌<◌, ◌≤◌, ◌⊎◌, length, slice_get, Some};
ghost use Rattle.session_core.specs.declared.request.Header.{Header};
ghost use Rattle.session_core.specs.declared.request.Channel.{Channel};
ghost use Rattle.session_core.specs.declared.request.Request.{Request};
ghost use Rattle.session_core.specs.Asks.{is_main, is_control};
ghost use Rattle.session_core.specs.Legal.{main_asked, control_asked};
ghost use Rattle.session_core.specs.Machine.{Session, Event, opened_session, Happen, main_admitted, control_admitted, HasResident, IsSeated};
ghost use Rattle.std.specs.Prelude.{Option};
ghost use Rattle.session_core.specs.Answering.{IsRunOnce, NoneMoves};
ghost use Rattle.nb_outside.specs.declared.feed.Drawn.{Drawn};
ghost use Rattle.graph_model.specs.declared.plan.Certified.{Certified};
ghost use Rattle.session_core.specs.declared.reply.Reply.{Reply};
ghost use Rattle.session_core.specs.declared.entry.Entry.TheVariants.{Opened, Ran, Adopted, Refused};
ghost use Rattle.session_core.specs.Entries.{IsOfMove};
ghost use Rattle.session_core.specs.Legal.{asked, owner_after};
ghost use Rattle.session_core.specs.declared.entry.MoveRefusal.TheVariants.{Stuck};
ghost use Rattle.session_core.specs.Meanings.{more};
ghost use Rattle.session_core.specs.Legal.{HasBestPlan, NamesStuck};
ghost use Rattle.session_core.specs.Answering.{Has};
ghost use Rattle.session_core.specs.Reaching.{AreAll, BeginsWith, IsReached};

use crate::engine::Engine;
use plan_model::laws::no_plan_undercuts;

/// A legal journal with one more entry, which may come there, is legal.
#[tactic(auto, using(crate::proofs::Progressing::legal_more))]
pub fn a_legal_journal_goes_on<E: Engine>()
    ensures { (hosts : ℕ) (entries : List Entry) (entry : Entry) → IsLegal E.meaning hosts entries
        → MayCome E.meaning hosts (progress_of entries) entry → IsLegal E.meaning hosts (entries ++ entry ∷ []) }
{}

/// However requests, cells and moves interleave, after every list of events the journal is legal. On each of the two lists,
/// what was admitted is what the journal answers, and then what waits. At most one host has the Resident, and the Resident is
/// where the journal says.
#[tactic(auto, using(crate::proofs::Happening::opened_goes_on, crate::proofs::Happening::one_has))]
pub fn each_session_is_one_legal_history<E: Engine>()
    ensures legal { (hosts host : ℕ) (request : Header) (channel : Channel) (events : List Event) (s : Session) → host < hosts
        → Happen E.meaning hosts (opened_session host request channel) events s → IsLegal E.meaning hosts s.journal }
    ensures main { (hosts host : ℕ) (request : Header) (channel : Channel) (events : List Event) (s : Session) → host < hosts
        → Happen E.meaning hosts (opened_session host request channel) events s → main_admitted events ≡ main_asked s.journal ++ s.waiting.main }
    ensures control { (hosts host : ℕ) (request : Header) (channel : Channel) (events : List Event) (s : Session) → host < hosts
        → Happen E.meaning hosts (opened_session host request channel) events s → control_admitted events ≡ control_asked s.journal ++ s.waiting.control }
    ensures one_host { (s : Session) (a b : ℕ) → HasResident s.seat a → HasResident s.seat b → a ≡ b }
    ensures seated { (hosts host : ℕ) (request : Header) (channel : Channel) (events : List Event) (s : Session) → host < hosts
        → Happen E.meaning hosts (opened_session host request channel) events s → IsSeated s.seat (progress_of s.journal) }
{}

/// Each legal journal is one that the machine leads to: some events lead from its opening to a session with this journal, whatever was
/// admitted to the two lists, of which what the journal answers is the first.
#[tactic(auto, using(crate::proofs::Leading::reached))]
pub fn each_legal_journal_is_one_of_the_machine<E: Engine>()
    ensures { (hosts host : ℕ) (request : Header) (channel : Channel) (journal : List Entry) (main control : List Request) → IsLegal E.meaning hosts journal
        → Has journal [] (Opened host request channel) → BeginsWith main (main_asked journal) → BeginsWith control (control_asked journal)
        → AreAll is_main main → AreAll is_control control → IsReached E.meaning hosts host request channel journal main control }
{}

/// The k-th cell is the k-th admitted request. A cell here is any request of the main list. The same holds of the requests of
/// the control list.
#[tactic(auto, using(crate::proofs::Once::answered_in_order))]
pub fn the_kth_cell_is_the_kth_admitted_request<E: Engine>()
    ensures main { (hosts host : ℕ) (request : Header) (channel : Channel) (events : List Event) (s : Session) (k : ℕ) → host < hosts
        → Happen E.meaning hosts (opened_session host request channel) events s → k < length (main_asked s.journal)
        → slice_get (main_asked s.journal) k ≡ slice_get (main_admitted events) k }
    ensures control { (hosts host : ℕ) (request : Header) (channel : Channel) (events : List Event) (s : Session) (k : ℕ) → host < hosts
        → Happen E.meaning hosts (opened_session host request channel) events s → k < length (control_asked s.journal)
        → slice_get (control_asked s.journal) k ≡ slice_get (control_admitted events) k }
{}

/// Each admitted request waits, or it was run once, by the session's owner then: one entry of the journal, and no other,
/// answers it, and that entry's host owned the session there.
pub fn each_request_is_run_once_by_the_owner_then<E: Engine>()
    ensures main { (hosts host : ℕ) (request : Header) (channel : Channel) (events : List Event) (s : Session) (k : ℕ) (r : Request) → host < hosts
        → Happen E.meaning hosts (opened_session host request channel) events s → slice_get (main_admitted events) k ≡ Some r
        → (length (main_asked s.journal) ≤ k) ⊎ IsRunOnce is_main s.journal k r }
    ensures control { (hosts host : ℕ) (request : Header) (channel : Channel) (events : List Event) (s : Session) (k : ℕ) (r : Request) → host < hosts
        → Happen E.meaning hosts (opened_session host request channel) events s → slice_get (control_admitted events) k ≡ Some r
        → (length (control_asked s.journal) ≤ k) ⊎ IsRunOnce is_control s.journal k r }
{}

/// Each request that a legal journal answers is answered by one of its entries and by no other, and that entry's host owned the
/// session there.
pub fn each_answer_is_given_once_by_the_owner_then<E: Engine>()
    ensures main { (hosts : ℕ) (journal : List Entry) (k : ℕ) (r : Request) → IsLegal E.meaning hosts journal
        → slice_get (main_asked journal) k ≡ Some r → IsRunOnce is_main journal k r }
    ensures control { (hosts : ℕ) (journal : List Entry) (k : ℕ) (r : Request) → IsLegal E.meaning hosts journal
        → slice_get (control_asked journal) k ≡ Some r → IsRunOnce is_control journal k r }
{}

/// Without requests to move no journal is sealed: no entry of a legal journal that answers none of them is of a move, and the host
/// of its opening owns the session throughout.
pub fn without_requests_to_move_no_journal_is_sealed<E: Engine>()
    ensures stays { (hosts : ℕ) (journal before : List Entry) (e : Entry) → IsLegal E.meaning hosts journal → NoneMoves (asked journal)
        → Has journal before e → ¬ IsOfMove e }
    ensures owner { (hosts host : ℕ) (request : Header) (channel : Channel) (journal before rest : List Entry) → IsLegal E.meaning hosts journal
        → NoneMoves (asked journal) → Has journal [] (Opened host request channel) → journal ≡ before ++ rest → before ≢ []
        → owner_after before ≡ Some host }
{}

/// Each reply is that of one kernel that never moved: the answer to the ask with its draws, after all that was served before.
pub fn each_reply_is_of_a_kernel_that_never_moved<E: Engine>()
    ensures { (hosts : ℕ) (journal before : List Entry) (host : ℕ) (request : Request) (draws : List Drawn) (reply : Reply)
        → IsLegal E.meaning hosts journal → Has journal before (Ran host request draws reply)
        → (reply ≡ E.meaning.answer (progress_of before).served request.ask draws) × E.meaning.IsRun (more (progress_of before).served request.ask draws) }
{}

/// A completed move is by a feasible plan that none undercuts, and all objects come over.
pub fn a_completed_move_is_by_a_plan_that_none_undercuts<E: Engine>()
    ensures { (hosts : ℕ) (journal before : List Entry) (from to : ℕ) (request : Request) (certified : Certified) (objects : ℕ)
        → IsLegal E.meaning hosts journal → Has journal before (Adopted from to request certified objects)
        → HasBestPlan E.meaning (progress_of before).served request.ask certified × E.meaning.HasObjects (progress_of before).served objects }
{
    no_plan_undercuts();
}

/// A refusal to plan names a version that can be neither copied nor computed again.
pub fn a_refusal_to_plan_names_a_stuck_part<E: Engine>()
    ensures { (hosts : ℕ) (journal before : List Entry) (host : ℕ) (request : Request) (version cell : ℕ) (names : List (List ℕ))
        → IsLegal E.meaning hosts journal → Has journal before (Refused host request (Stuck version cell names))
        → NamesStuck E.meaning (progress_of before).served version cell names }
{}
