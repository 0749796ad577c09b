ghost use Rattle.std.specs.Prelude.{◌≡◌};
ghost use Rattle.py_machine.specs.Errors as spec;

/// What sort of value a value is.
#[derive(Clone, Copy, Debug, PartialEq, Eq)]
pub enum ValueKind {
    /// None. A reference to no object counts as one; a session has none such.
    Nothing,
    Bool,
    Number,
    Text,
    List,
    Tuple,
    Dict,
    Function,
    Handle,
    Builtin,
}

/// The name of a kind, as errors say it.
pub fn kind_name(kind: ValueKind) -> &'static str
    ensures { result.now ≡ spec.kind_name kind }
{
    match kind {
        ValueKind::Nothing => "NoneType",
        ValueKind::Bool => "bool",
        ValueKind::Number => "int",
        ValueKind::Text => "str",
        ValueKind::List => "list",
        ValueKind::Tuple => "tuple",
        ValueKind::Dict => "dict",
        ValueKind::Function => "function",
        ValueKind::Handle => "handle",
        ValueKind::Builtin => "builtin_function_or_method",
    }
}
