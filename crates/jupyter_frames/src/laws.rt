//! A stream has one cutting into frames, and a `Framer` gives it, however the stream comes. Each law is the contract of a
//! function that does nothing.

ghost use Rattle.std.specs.Prelude.{◌≡◌, ℕ, ◌<◌, List, ◌++◌, ◌∷◌, [], length};
ghost use Rattle.std.specs.List.{All, AllByRecursion, flat_map};
ghost use Rattle.jupyter_frames.specs.declared.framer.Next.{Next};
ghost use Rattle.jupyter_frames.specs.Framing.{frame, IsBody, IsRest, IsBad, stream, Cutting, Held, place_after};
ghost use Rattle.jupyter_frames.specs.Answers.{Gives};
ghost use Rattle.jupyter_frames.specs.Turns.{Turn, nothing_held, DoAll, came, given, SaysNone};

/// However a stream was cut into pieces: it has one list of frames and one rest, in which no whole frame begins.
pub fn a_stream_has_one_cutting()
    ensures { (bodies others : List (List ℕ)) (rest other : List ℕ) → AllByRecursion IsBody bodies → AllByRecursion IsBody others
        → IsRest rest → IsRest other → stream bodies rest ≡ stream others other → (bodies ≡ others) × (rest ≡ other) }
{}

/// Every stream has a cutting.
#[tactic(auto, using(crate::proofs::Cutting::cutting_of))]
pub fn every_stream_has_a_cutting()
    ensures { (bytes : List ℕ) → All (λ b. b < 256) bytes → Cutting bytes }
{}

/// Taking a piece or giving a frame doesn't change the stream: what was given, what is held and what comes make it up.
pub fn giving_keeps_the_stream()
    ensures fed { (given : List (List ℕ)) (held piece : List ℕ) → stream given (held ++ piece) ≡ stream given held ++ piece }
    ensures taken { (given : List (List ℕ)) (held body rest : List ℕ) → held ≡ frame body ++ rest → stream (given ++ body ∷ []) rest ≡ stream given held }
{}

/// A bad length stays one, whatever comes.
pub fn a_bad_length_stays()
    ensures { (held piece : List ℕ) (n : ℕ) → IsBad held n → IsBad (held ++ piece) n }
{}

/// However a stream is cut into pieces, and whenever frames are asked for, what was given is the first frames of what came, in
/// order. It is all of them if `next` says that no whole frame is left. What is held comes after them, and its place is where
/// they end.
pub fn however_a_stream_comes()
    ensures held { (turns : List Turn) (held : Held) → DoAll nothing_held turns held → came turns ≡ stream (given turns) held.bytes }
    ensures place { (turns : List Turn) (held : Held) → DoAll nothing_held turns held → held.place ≡ place_after 0 (length (flat_map frame (given turns))) }
    ensures first { (turns : List Turn) (held : Held) (cut : Cutting (came turns)) → DoAll nothing_held turns held
        → (more : List (List ℕ)) × (cut.bodies ≡ given turns ++ more) }
    ensures all { (turns : List Turn) (held new : Held) (next : Next) (cut : Cutting (came turns)) → DoAll nothing_held turns held
        → Gives held next new → SaysNone next → (cut.bodies ≡ given turns) × (cut.rest ≡ held.bytes) }
{}
