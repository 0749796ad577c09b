//! Parts and their texts. Each law is the contract of a function that does nothing.

ghost use Rattle.std.specs.Prelude.{◌≡◌, ◌<◌, ℕ, List, ◌++◌, length, take, All, Ok};
ghost use Rattle.part_bytes.specs.declared.part.PartValue.{PartValue};
ghost use Rattle.part_bytes.specs.Texts.{bytes_of};
ghost use Rattle.checkpoint_reader.specs.PartReading.{part_read};
ghost use Rattle.checkpoint_laws.specs.SpelledParts.{HasPartText};
ghost use Rattle.checkpoint_laws.specs.Closed.{IsClosedPart};
ghost use Rattle.checkpoint_laws.specs.Examples.{knot, knot_bytes};

/// A part that has a text is read from it, with its length, whatever follows; so two parts that have texts have different ones,
/// and neither begins the other.
pub fn a_part_text_is_read_back()
    ensures read { (part : PartValue) (rest : List ℕ) → HasPartText part → part_read (bytes_of part ++ rest) ≡ Ok (part, length (bytes_of part)) }
    ensures alone { (part other : PartValue) (rest more : List ℕ) → HasPartText part → HasPartText other → bytes_of part ++ rest ≡ bytes_of other ++ more → part ≡ other }
{}

/// What is read is a part that has a text; the bytes begin with that text, and its length is told. So a part is read exactly
/// if the bytes begin with a text.
pub fn what_is_read_has_a_text()
    ensures { (bytes : List ℕ) (part : PartValue) (size : ℕ) → All (λ byte. byte < 256) bytes → part_read bytes ≡ Ok (part, size)
        → HasPartText part × (take size bytes ≡ bytes_of part) × (size ≡ length (bytes_of part)) }
{}

/// What is read is a part by itself. Each reference in it is the number of one of its objects, which are numbered in the order in
/// which they are referred to first; no object is a handle, no dict has a key twice, and a function is what its source is read as.
/// Its names are such as a program may bind, ascend by their bytes and are distinct; there are as many values, and only a name that
/// is alone may have none.
pub fn what_is_read_is_closed()
    ensures { (bytes : List ℕ) (part : PartValue) (size : ℕ) → All (λ byte. byte < 256) bytes → part_read bytes ≡ Ok (part, size) → IsClosedPart part }
{}

/// A list of itself and of a dict that holds it is a part under one name, and this is its text.
pub fn a_knot_has_a_text()
    ensures part { HasPartText knot }
    ensures text { bytes_of knot ≡ knot_bytes }
{}
