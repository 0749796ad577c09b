//! A node takes in the same of a stream, however its bytes were cut. Each law is the contract of a function that does
//! nothing.

ghost use Rattle.std.specs.Prelude.{◌≡◌, ◌<◌, ℕ, List, ◌++◌, ◌∷◌, []};
ghost use Rattle.std.specs.List.{All};
ghost use Rattle.jupyter_messages.specs.Reading.{message_in};
ghost use Rattle.node_intake.specs.Intake.{Node, IsIntake, with_frames, with_message};

use jupyter_frames::laws::{a_stream_has_one_cutting, every_stream_has_a_cutting};

/// However a stream was cut into pieces, the same is taken in of it.
pub fn a_stream_has_one_intake()
    ensures { (hosts : ℕ) (bytes : List ℕ) (node other : Node) → IsIntake hosts bytes node → IsIntake hosts bytes other → node ≡ other }
{
    a_stream_has_one_cutting();
}

/// Of every stream something is taken in, whatever its bytes.
pub fn every_stream_has_an_intake()
    ensures { (hosts : ℕ) (bytes : List ℕ) → All (λ b. b < 256) bytes → (node : Node) × IsIntake hosts bytes node }
{
    every_stream_has_a_cutting();
}

/// A frame may be taken in as soon as it is whole: to take in some frames and one more is to take in the frames, and then the
/// one.
#[tactic(auto, using(crate::proofs::InOrder::frame_more))]
pub fn frames_are_taken_in_as_they_come()
    ensures { (hosts : ℕ) (node : Node) (bodies : List (List ℕ)) (body : List ℕ) →
        with_frames hosts node (bodies ++ body ∷ []) ≡ with_message hosts (with_frames hosts node bodies) (message_in body) }
{}
