ghost use Rattle.std.specs.Prelude.{◌≡◌, ◌<◌, ◌↔◌, IsTrue, Contains};
ghost use Rattle.graph_model.specs.Faults.{TextBelow, Ascends, least_name};

use plain_data::Text;

/// Whether the first text comes before the second, by the bytes.
pub(crate) fn is_below(x: &str, y: &str) -> bool
    ensures { IsTrue result ↔ TextBelow x.now y.now }
{
    x < y
}

/// Whether the texts are equal.
fn is_same(x: &Text, y: &Text) -> bool
    ensures { IsTrue result ↔ (x.now ≡ y.now) }
{
    x == y
}

/// Whether each text but the last comes before the next.
pub(crate) fn texts_ascend(texts: &[Text]) -> bool
    ensures { IsTrue result ↔ Ascends TextBelow texts.now }
{
    let Some((mut last, rest)) = texts.split_first() else {
        return true;
    };
    for text in rest {
        if !is_below(last.as_str(), text.as_str()) {
            return false;
        }
        last = text;
    }
    true
}

/// Whether each number but the last is below the next.
pub fn numbers_ascend(numbers: &[u32]) -> bool
    ensures { IsTrue result ↔ Ascends (λ m n. m < n) numbers.now }
{
    let Some((mut last, rest)) = numbers.split_first() else {
        return true;
    };
    for number in rest {
        if last >= number {
            return false;
        }
        last = number;
    }
    true
}

/// Whether the name is among the names.
pub(crate) fn has_name(names: &[Text], name: &Text) -> bool
    ensures { IsTrue result ↔ Contains names.now name.now }
{
    for other in names {
        if is_same(other, name) {
            return true;
        }
    }
    false
}

/// The first of the names; the empty text if there is none.
pub(crate) fn least_name(names: &[Text]) -> &str
    ensures { result.now ≡ least_name names.now }
{
    match names {
        [first, ..] => first.as_str(),
        [] => "",
    }
}
