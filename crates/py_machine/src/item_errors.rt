ghost use Rattle.std.specs.Prelude.{◌≡◌, IfOk};
ghost use Rattle.py_machine.specs.Errors as spec;

use crate::error::{ErrorKind, PyError, boxed_error};
use crate::kind::{ValueKind, kind_name};
use plain_data::{Boxed, Text};
use py_heap::SequenceKind;
use std::alloc::{AllocError, Global};

/// The error of an index or a slice of a value of this kind.
#[cold]
#[inline(never)]
pub fn not_subscriptable(alloc: Global, kind: ValueKind) -> Result<Boxed<PyError>, AllocError>
    ensures { IfOk result (λ error. error ≡ spec.not_subscriptable kind) }
{
    let kind = kind_name(kind);
    let text = format!(in alloc; "'{kind}' object is not subscriptable")?;
    boxed_error(alloc, ErrorKind::Type, Text::from_string(text))
}

/// The error of a `for` over a value of this kind.
#[cold]
#[inline(never)]
pub fn not_iterable(alloc: Global, kind: ValueKind) -> Result<Boxed<PyError>, AllocError>
    ensures { IfOk result (λ error. error ≡ spec.not_iterable kind) }
{
    let kind = kind_name(kind);
    let text = format!(in alloc; "'{kind}' object is not iterable")?;
    boxed_error(alloc, ErrorKind::Type, Text::from_string(text))
}

/// The error of an assignment to an item of a value of this kind.
#[cold]
#[inline(never)]
pub fn no_item_assignment(alloc: Global, kind: ValueKind) -> Result<Boxed<PyError>, AllocError>
    ensures { IfOk result (λ error. error ≡ spec.no_item_assignment kind) }
{
    let kind = kind_name(kind);
    let text = format!(in alloc; "'{kind}' object does not support item assignment")?;
    boxed_error(alloc, ErrorKind::Type, Text::from_string(text))
}

/// The error of a deletion of an item of a value of this kind.
#[cold]
#[inline(never)]
pub fn no_item_deletion(alloc: Global, kind: ValueKind) -> Result<Boxed<PyError>, AllocError>
    ensures { IfOk result (λ error. error ≡ spec.no_item_deletion kind) }
{
    let kind = kind_name(kind);
    let text = format!(in alloc; "'{kind}' object does not support item deletion")?;
    boxed_error(alloc, ErrorKind::Type, Text::from_string(text))
}

/// The error of an index or a bound of a slice that is no number.
#[cold]
#[inline(never)]
pub fn not_an_index(alloc: Global) -> Result<Boxed<PyError>, AllocError>
    ensures { IfOk result (λ error. error ≡ spec.not_an_index) }
{
    let text = Text::new(alloc, "indices must be integers")?;
    boxed_error(alloc, ErrorKind::Type, text)
}

fn index_text(kind: SequenceKind) -> &'static str
    ensures { result.now ≡ spec.index_text kind }
{
    match kind {
        SequenceKind::List => "list index out of range",
        SequenceKind::Tuple => "tuple index out of range",
    }
}

/// The error of an index past the ends of a list or a tuple.
#[cold]
#[inline(never)]
pub fn no_index(alloc: Global, kind: SequenceKind) -> Result<Boxed<PyError>, AllocError>
    ensures { IfOk result (λ error. error ≡ spec.no_index kind) }
{
    let text = Text::new(alloc, index_text(kind))?;
    boxed_error(alloc, ErrorKind::Index, text)
}

/// The error of an index past the ends of a text.
#[cold]
#[inline(never)]
pub fn no_text_index(alloc: Global) -> Result<Boxed<PyError>, AllocError>
    ensures { IfOk result (λ error. error ≡ spec.no_text_index) }
{
    let text = Text::new(alloc, "string index out of range")?;
    boxed_error(alloc, ErrorKind::Index, text)
}

/// The error of an assignment or a deletion past the ends of a list.
#[cold]
#[inline(never)]
pub fn no_assigned_index(alloc: Global) -> Result<Boxed<PyError>, AllocError>
    ensures { IfOk result (λ error. error ≡ spec.no_assigned_index) }
{
    let text = Text::new(alloc, "list assignment index out of range")?;
    boxed_error(alloc, ErrorKind::Index, text)
}

/// The error of a `pop` past the ends of a list.
#[cold]
#[inline(never)]
pub fn no_popped_index(alloc: Global) -> Result<Boxed<PyError>, AllocError>
    ensures { IfOk result (λ error. error ≡ spec.no_popped_index) }
{
    let text = Text::new(alloc, "pop index out of range")?;
    boxed_error(alloc, ErrorKind::Index, text)
}

/// The error of a `pop` from an empty list.
#[cold]
#[inline(never)]
pub fn popped_empty(alloc: Global) -> Result<Boxed<PyError>, AllocError>
    ensures { IfOk result (λ error. error ≡ spec.popped_empty) }
{
    let text = Text::new(alloc, "pop from empty list")?;
    boxed_error(alloc, ErrorKind::Index, text)
}

/// The error of a key that a dict doesn't have, by what the key shows.
#[cold]
#[inline(never)]
pub fn no_key(alloc: Global, shown: Text) -> Result<Boxed<PyError>, AllocError>
    ensures { IfOk result (λ error. error ≡ spec.no_key shown) }
{
    boxed_error(alloc, ErrorKind::Key, shown)
}

/// The error of a dict whose size changed while a `for` goes over it.
#[cold]
#[inline(never)]
pub fn changed_size(alloc: Global) -> Result<Boxed<PyError>, AllocError>
    ensures { IfOk result (λ error. error ≡ spec.changed_size) }
{
    let text = Text::new(alloc, "dictionary changed size during iteration")?;
    boxed_error(alloc, ErrorKind::Runtime, text)
}

/// The error of unpacking a value of this kind, which holds nothing that comes one after the other.
#[cold]
#[inline(never)]
pub fn not_unpacked(alloc: Global, kind: ValueKind) -> Result<Boxed<PyError>, AllocError>
    ensures { IfOk result (λ error. error ≡ spec.not_unpacked kind) }
{
    let kind = kind_name(kind);
    let text = format!(in alloc; "cannot unpack non-iterable {kind} object")?;
    boxed_error(alloc, ErrorKind::Type, Text::from_string(text))
}

/// The error of unpacking fewer values than there are targets.
fn not_enough(alloc: Global, wanted: usize, got: usize) -> Result<Boxed<PyError>, AllocError>
    ensures { IfOk result (λ error. error ≡ spec.not_enough wanted got) }
{
    let text = format!(in alloc; "not enough values to unpack (expected {wanted}, got {got})")?;
    boxed_error(alloc, ErrorKind::Value, Text::from_string(text))
}

/// The error of unpacking more values than there are targets.
fn too_many(alloc: Global, wanted: usize) -> Result<Boxed<PyError>, AllocError>
    ensures { IfOk result (λ error. error ≡ spec.too_many wanted) }
{
    let text = format!(in alloc; "too many values to unpack (expected {wanted})")?;
    boxed_error(alloc, ErrorKind::Value, Text::from_string(text))
}

/// The error of unpacking another number of values than there are targets.
#[cold]
#[inline(never)]
pub fn wrong_count(alloc: Global, wanted: usize, got: usize) -> Result<Boxed<PyError>, AllocError>
    ensures { IfOk result (λ error. error ≡ spec.wrong_count wanted got) }
{
    if got < wanted {
        not_enough(alloc, wanted, got)
    } else {
        too_many(alloc, wanted)
    }
}

/// The error of `range` anywhere but as the source of a `for`.
#[cold]
#[inline(never)]
pub fn range_elsewhere(alloc: Global) -> Result<Boxed<PyError>, AllocError>
    ensures { IfOk result (λ error. error ≡ spec.range_elsewhere) }
{
    let text = Text::new(alloc, "range() stands only as the source of a for")?;
    boxed_error(alloc, ErrorKind::Type, text)
}

/// The error of a step of `range` that is 0.
#[cold]
#[inline(never)]
pub fn zero_range_step(alloc: Global) -> Result<Boxed<PyError>, AllocError>
    ensures { IfOk result (λ error. error ≡ spec.zero_range_step) }
{
    let text = Text::new(alloc, "range() arg 3 must not be zero")?;
    boxed_error(alloc, ErrorKind::Value, text)
}

/// The error of a text that spells no number, by what the text shows.
#[cold]
#[inline(never)]
pub fn invalid_literal(alloc: Global, shown: &Text) -> Result<Boxed<PyError>, AllocError>
    ensures { IfOk result (λ error. error ≡ spec.invalid_literal shown.now) }
{
    let shown = shown.as_str();
    let text = format!(in alloc; "invalid literal for int() with base 10: {shown}")?;
    boxed_error(alloc, ErrorKind::Value, Text::from_string(text))
}

/// The error of a `split` at the empty text.
#[cold]
#[inline(never)]
pub fn empty_separator(alloc: Global) -> Result<Boxed<PyError>, AllocError>
    ensures { IfOk result (λ error. error ≡ spec.empty_separator) }
{
    let text = Text::new(alloc, "empty separator")?;
    boxed_error(alloc, ErrorKind::Value, text)
}
