//! What bytes are restored to. The law is the contract of a function that does nothing.

ghost use Rattle.std.specs.Prelude.{◌≡◌, ℕ, List};
ghost use Rattle.restore_run.specs.declared.restored.Restored.{Restored};
ghost use Rattle.restore_run.specs.declared.fault.RestoreFault.{RestoreFault};
ghost use Rattle.restore_run.specs.Restoring.{IsRestoredOn, IsRestoreFault};

/// Bytes are restored to one session at the most, or refused for one reason at the most, and never both. So what `restore` gives on a host
/// is told by its contract alone, unless memory runs out.
pub fn bytes_are_restored_in_one_way()
    ensures apart { (bytes : List ℕ) (on : ℕ) (r : Restored) (f : RestoreFault) → IsRestoredOn bytes on r → IsRestoreFault bytes f → ⊥ }
    ensures one_session { (bytes : List ℕ) (on : ℕ) (r other : Restored) → IsRestoredOn bytes on r → IsRestoredOn bytes on other → r ≡ other }
    ensures one_fault { (bytes : List ℕ) (f other : RestoreFault) → IsRestoreFault bytes f → IsRestoreFault bytes other → f ≡ other }
{}
