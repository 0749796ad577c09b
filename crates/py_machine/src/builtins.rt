ghost use Rattle.std.specs.Prelude.{◌≡◌};
ghost use Rattle.py_machine.specs.Builtins as spec;

use py_value::Builtin;

/// The built-in function of that name.
#[tactic(auto, unfolding(crate::specs::Builtins::builtin_named))]
pub fn builtin_named(name: &str) -> Option<Builtin>
    ensures { result ≡ spec.builtin_named name.now }
{
    if name == "print" {
        Some(Builtin::Print)
    } else if name == "len" {
        Some(Builtin::Len)
    } else if name == "str" {
        Some(Builtin::Str)
    } else if name == "repr" {
        Some(Builtin::Repr)
    } else if name == "int" {
        Some(Builtin::Int)
    } else if name == "range" {
        Some(Builtin::Range)
    } else if name == "draw" {
        Some(Builtin::Draw)
    } else if name == "handle" {
        Some(Builtin::Handle)
    } else if name == "tell" {
        Some(Builtin::Tell)
    } else {
        None
    }
}
