//! What a session that was served to its end has answered. A law is the contract of a function that does nothing.

ghost use Rattle.std.specs.Prelude.{◌≡◌, ℕ, ◌<◌, ◌≤◌, List, [], ◌++◌};
ghost use Rattle.ruled_queue.specs.Rule.{of, Keeps};
ghost use Rattle.session_core.specs.declared.request.Request.{Request};
ghost use Rattle.session_core.specs.declared.entry.Entry.{Entry};
ghost use Rattle.session_core.specs.Legal.{asked};
ghost use Rattle.session_queues.specs.declared.items.MainItem.{MainItem};
ghost use Rattle.session_queues.specs.Items.{number_of, frontend_of};
ghost use Rattle.session_queues.specs.Ends.{Held, FoundNothing};
ghost use Rattle.session_gate.specs.Answered.{opening_of, as_main, as_control, IsAnswered};

/// If nothing is owed and both queues were found empty, the journal has what a pass admitted and the owner took in by a join:
/// each number's list is what the journal has of that number, in order. On main the opening is the first of number 0. If the
/// owner holds number 0, the journal has nothing of a number that wasn't given.
#[tactic(auto, using(crate::proofs::Gathered::main_all, crate::proofs::Gathered::control_all, crate::proofs::Gathered::main_none, crate::proofs::Gathered::control_none))]
pub fn each_list_is_its_part_of_the_journal()
    ensures main { (kernel : ℕ) (entries : List Entry) (ends : Held) (n : ℕ) (l : List MainItem) → IsAnswered kernel entries ends [] → FoundNothing ends → Keeps n l ends.main.lists
        → l ≡ of number_of n (opening_of kernel entries ++ as_main (asked entries)) }
    ensures control { (kernel : ℕ) (entries : List Entry) (ends : Held) (n : ℕ) (l : List Request) → IsAnswered kernel entries ends [] → FoundNothing ends → Keeps n l ends.control.lists
        → l ≡ of frontend_of n (as_control (asked entries)) }
    ensures no_other_on_main { (kernel : ℕ) (entries : List Entry) (ends : Held) (n : ℕ) → IsAnswered kernel entries ends [] → FoundNothing ends → 0 < ends.main.given → ends.main.given ≤ n
        → of number_of n (opening_of kernel entries ++ as_main (asked entries)) ≡ [] }
    ensures no_other_on_control { (kernel : ℕ) (entries : List Entry) (ends : Held) (n : ℕ) → IsAnswered kernel entries ends [] → FoundNothing ends → 0 < ends.control.given → ends.control.given ≤ n
        → of frontend_of n (as_control (asked entries)) ≡ [] }
{}
