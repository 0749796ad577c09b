ghost use Rattle.std.specs.Prelude.{◌≡◌};
ghost use Rattle.py_machine.specs.Methods as spec;

use plain_data::SharedText;

/// A method of a list.
#[derive(Clone, Copy, Debug, PartialEq, Eq)]
pub enum ListMethod {
    Append,
    Insert,
    Pop,
    Extend,
    Clear,
}

/// A method of a dict.
#[derive(Clone, Copy, Debug, PartialEq, Eq)]
pub enum DictMethod {
    Get,
    Pop,
    Clear,
}

/// A method of a text.
#[derive(Clone, Copy, Debug, PartialEq, Eq)]
pub enum TextMethod {
    Join,
    Split,
    StartsWith,
    EndsWith,
}

/// A method of one value: of the list or the dict at an address, or of a text.
#[derive(Drop)]
pub enum BoundMethod {
    List(ListMethod, u32),
    Dict(DictMethod, u32),
    Text(TextMethod, SharedText),
}

/// The method of lists with this name.
#[tactic(auto, unfolding(crate::specs::Methods::list_method_named))]
pub fn list_method_named(name: &str) -> Option<ListMethod>
    ensures { result ≡ spec.list_method_named name.now }
{
    if name == "append" {
        Some(ListMethod::Append)
    } else if name == "insert" {
        Some(ListMethod::Insert)
    } else if name == "pop" {
        Some(ListMethod::Pop)
    } else if name == "extend" {
        Some(ListMethod::Extend)
    } else if name == "clear" {
        Some(ListMethod::Clear)
    } else {
        None
    }
}

/// The method of dicts with this name.
#[tactic(auto, unfolding(crate::specs::Methods::dict_method_named))]
pub fn dict_method_named(name: &str) -> Option<DictMethod>
    ensures { result ≡ spec.dict_method_named name.now }
{
    if name == "get" {
        Some(DictMethod::Get)
    } else if name == "pop" {
        Some(DictMethod::Pop)
    } else if name == "clear" {
        Some(DictMethod::Clear)
    } else {
        None
    }
}

/// The method of texts with this name.
#[tactic(auto, unfolding(crate::specs::Methods::text_method_named))]
pub fn text_method_named(name: &str) -> Option<TextMethod>
    ensures { result ≡ spec.text_method_named name.now }
{
    if name == "join" {
        Some(TextMethod::Join)
    } else if name == "split" {
        Some(TextMethod::Split)
    } else if name == "startswith" {
        Some(TextMethod::StartsWith)
    } else if name == "endswith" {
        Some(TextMethod::EndsWith)
    } else {
        None
    }
}

/// The name of a method of lists.
pub fn list_method_name(method: ListMethod) -> &'static str
    ensures { result.now ≡ spec.list_method_name method }
{
    match method {
        ListMethod::Append => "append",
        ListMethod::Insert => "insert",
        ListMethod::Pop => "pop",
        ListMethod::Extend => "extend",
        ListMethod::Clear => "clear",
    }
}

/// The name of a method of dicts.
pub fn dict_method_name(method: DictMethod) -> &'static str
    ensures { result.now ≡ spec.dict_method_name method }
{
    match method {
        DictMethod::Get => "get",
        DictMethod::Pop => "pop",
        DictMethod::Clear => "clear",
    }
}

/// The name of a method of texts.
pub fn text_method_name(method: TextMethod) -> &'static str
    ensures { result.now ≡ spec.text_method_name method }
{
    match method {
        TextMethod::Join => "join",
        TextMethod::Split => "split",
        TextMethod::StartsWith => "startswith",
        TextMethod::EndsWith => "endswith",
    }
}
