ghost use Rattle.std.specs.Prelude.{◌≡◌, IfOk};
ghost use Rattle.py_machine.specs.Errors as spec;

use plain_data::{Boxed, Text};
use std::alloc::{AllocError, Global};
use std::error::Error;
use std::fmt;

/// The name of a Python error.
#[derive(Clone, Copy, Debug, PartialEq, Eq)]
pub enum ErrorKind {
    Syntax,
    Name,
    UnboundLocal,
    Type,
    Attribute,
    Overflow,
    Recursion,
    StepLimit,
    Memory,
    ZeroDivision,
    Value,
    Index,
    Key,
    Runtime,
}

impl ErrorKind {
    /// The name, as replies say it.
    pub fn name(self) -> &'static str
        ensures { result.now ≡ spec.error_name self }
    {
        match self {
            ErrorKind::Syntax => "SyntaxError",
            ErrorKind::Name => "NameError",
            ErrorKind::UnboundLocal => "UnboundLocalError",
            ErrorKind::Type => "TypeError",
            ErrorKind::Attribute => "AttributeError",
            ErrorKind::Overflow => "OverflowError",
            ErrorKind::Recursion => "RecursionError",
            ErrorKind::StepLimit => "StepLimitError",
            ErrorKind::Memory => "MemoryError",
            ErrorKind::ZeroDivision => "ZeroDivisionError",
            ErrorKind::Value => "ValueError",
            ErrorKind::Index => "IndexError",
            ErrorKind::Key => "KeyError",
            ErrorKind::Runtime => "RuntimeError",
        }
    }
}

impl fmt::Display for ErrorKind {
    fn fmt<W: fmt::Write>(&self, f: &mut fmt::Formatter<W>) -> fmt::Result {
        f.write_str(self.name())
    }
}

/// A Python error, which ends its cell.
#[derive(Debug, Drop)]
pub struct PyError {
    pub kind: ErrorKind,
    pub text: Text,
}

impl fmt::Display for PyError {
    fn fmt<W: fmt::Write>(&self, f: &mut fmt::Formatter<W>) -> fmt::Result {
        let name = self.kind.name();
        let text = self.text.as_str();
        write!(f, "{name}: {text}")
    }
}

impl Error for PyError {}

/// Why a run ended early.
#[derive(Debug, Drop)]
pub enum Fault {
    /// Memory ran out: nothing is known of the run.
    OutOfMemory,
    /// A draw failed.
    DrawFailed,
    /// The run raised this error. It is boxed: a value that is handed on is copied with the room that an error takes.
    Raised(Boxed<PyError>),
}

impl fmt::Display for Fault {
    fn fmt<W: fmt::Write>(&self, f: &mut fmt::Formatter<W>) -> fmt::Result {
        match self {
            Fault::OutOfMemory => write!(f, "out of memory"),
            Fault::DrawFailed => write!(f, "a draw failed"),
            Fault::Raised(error) => {
                let error = error.get();
                write!(f, "{error}")
            }
        }
    }
}

impl Error for Fault {}

impl From<AllocError> for Fault {
    ghost use Rattle.std.specs.Prelude.{◌≡◌};
    ghost use Rattle.py_machine.specs.declared.error.Fault.TheVariants.{OutOfMemory};

    ghost from_gives = { λ _ e. e ≡ OutOfMemory };

    fn from(_: AllocError) -> Fault {
        Fault::OutOfMemory
    }
}

/// The error of this kind with this text, in the box that `Fault::Raised` holds.
pub(crate) fn boxed_error(
    alloc: Global,
    kind: ErrorKind,
    text: Text,
) -> Result<Boxed<PyError>, AllocError>
    ensures { IfOk result (λ error. error ≡ record { kind = kind; text = text }) }
{
    Boxed::new(alloc, PyError { kind, text })
}

/// The error of a number past 128 bits.
#[cold]
#[inline(never)]
pub fn overflow_error(alloc: Global) -> Result<Boxed<PyError>, AllocError>
    ensures { IfOk result (λ error. error ≡ spec.overflow_error) }
{
    let text = Text::new(alloc, "number past 128 bits")?;
    boxed_error(alloc, ErrorKind::Overflow, text)
}

/// The error of level 801.
#[cold]
#[inline(never)]
pub fn recursion_error(alloc: Global) -> Result<Boxed<PyError>, AllocError>
    ensures { IfOk result (λ error. error ≡ spec.recursion_error) }
{
    let text = Text::new(alloc, "maximum recursion depth exceeded")?;
    boxed_error(alloc, ErrorKind::Recursion, text)
}

/// The error of a step past the limit.
#[cold]
#[inline(never)]
pub fn step_limit_error(alloc: Global) -> Result<Boxed<PyError>, AllocError>
    ensures { IfOk result (λ error. error ≡ spec.step_limit_error) }
{
    let text = Text::new(alloc, "1000000 steps")?;
    boxed_error(alloc, ErrorKind::StepLimit, text)
}

/// The error of a charge past the meter's limit.
#[cold]
#[inline(never)]
pub fn memory_error(alloc: Global) -> Result<Boxed<PyError>, AllocError>
    ensures { IfOk result (λ error. error ≡ spec.memory_error) }
{
    let text = Text::new(alloc, "meter spent")?;
    boxed_error(alloc, ErrorKind::Memory, text)
}

/// The error of a name that has no value.
#[cold]
#[inline(never)]
pub fn name_error(alloc: Global, name: &Text) -> Result<Boxed<PyError>, AllocError>
    ensures { IfOk result (λ error. error ≡ spec.name_error name.now) }
{
    let name = name.as_str();
    let text = format!(in alloc; "name '{name}' is not defined")?;
    boxed_error(alloc, ErrorKind::Name, Text::from_string(text))
}

/// The error of a local that isn't bound by now.
#[cold]
#[inline(never)]
pub fn unbound_error(alloc: Global, name: &Text) -> Result<Boxed<PyError>, AllocError>
    ensures { IfOk result (λ error. error ≡ spec.unbound_error name.now) }
{
    let name = name.as_str();
    let text = format!(in alloc;
        "cannot access local variable '{name}' where it is not associated with a value"
    )?;
    boxed_error(alloc, ErrorKind::UnboundLocal, Text::from_string(text))
}
