ghost use Rattle.std.specs.Prelude.{◌≡◌, drop};
ghost use Rattle.plain_data.specs.Cuts as spec;

/// The longest beginning of whole characters within `most` bytes, and the rest.
pub fn cut_at(text: &str, most: usize) -> (&str, &str)
    ensures front { result.0.now ≡ spec.prefix_within most text.now }
    ensures back { result.1.now ≡ drop (spec.cut_within most text.now) text.now }
{
    text.split_at(text.floor_char_boundary(most))
}
