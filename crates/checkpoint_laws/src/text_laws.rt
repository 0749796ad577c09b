//! Checkpoints and the bytes that they are read from. Each law is the contract of a function that does nothing.

ghost use Rattle.std.specs.Prelude.{◌≡◌, ◌<◌, ◌⊎◌, ℕ, List, [], ◌++◌, length, All, Ok};
ghost use Rattle.checkpoint_reader.specs.declared.checkpoint.Checkpoint.{Checkpoint};
ghost use Rattle.checkpoint_reader.specs.declared.fields.Fields.{Fields};
ghost use Rattle.checkpoint_reader.specs.Fields.{fields};
ghost use Rattle.checkpoint_reader.specs.Judging.{IsAnswer};
ghost use Rattle.checkpoint_laws.specs.Texts.{fields_text, version_in};

/// Bytes whose fields are read are the text of what was read, in version 1 or 2 of the format as they say, and the reading ends where they end.
/// So in version 2 each text to which they refer is once in the table, in the order of first use, and no other is.
pub fn what_is_read_is_a_text()
    ensures version { (bytes : List ℕ) (read : Fields) (end : ℕ) → All (λ byte. byte < 256) bytes → fields bytes 0 ≡ Ok (read, end)
        → (version_in bytes ≡ 1) ⊎ (version_in bytes ≡ 2) }
    ensures text { (bytes : List ℕ) (read : Fields) (end : ℕ) → All (λ byte. byte < 256) bytes → fields bytes 0 ≡ Ok (read, end)
        → (bytes ≡ fields_text (version_in bytes) read) × (end ≡ length bytes) }
{}

/// No two lists of bytes of one version of the format are read as the same checkpoint. If bytes are a checkpoint, the same bytes with more after
/// them aren't one.
pub fn a_checkpoint_has_one_text()
    ensures alone { (a b : List ℕ) (k : Checkpoint) → All (λ byte. byte < 256) a → All (λ byte. byte < 256) b → version_in a ≡ version_in b
        → IsAnswer (fields a 0) (Ok k) → IsAnswer (fields b 0) (Ok k) → a ≡ b }
    ensures no_prefix { (a more : List ℕ) (k l : Checkpoint) → All (λ byte. byte < 256) a
        → IsAnswer (fields a 0) (Ok k) → IsAnswer (fields (a ++ more) 0) (Ok l) → more ≡ [] }
{}
