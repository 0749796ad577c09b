ghost use Rattle.std.specs.Prelude.{◌≡◌};
ghost use Rattle.checkpoint_bytes.specs.Texts.{checkpoint_text, checkpoint_text1};
ghost use Rattle.checkpoint_bytes.specs.Examples.{small_state, small_graph, small_plan, small_bytes, small_bytes1};

/// The text of a session after the cell `x = 2`, with its version copied: 96 bytes in version 1, and 104 in version 2.
pub fn the_text_of_a_small_checkpoint()
    ensures one { checkpoint_text1 small_state small_graph small_plan ≡ small_bytes1 }
    ensures two { checkpoint_text small_state small_graph small_plan ≡ small_bytes }
{}
