use crate::text_rest::TextRest;

/// What a `for` goes over, from where it has come to.
#[derive(Drop)]
pub enum Iteration {
    /// The items of the list or tuple at the address `at`, from the index `next` on.
    Items {
        at: u32,
        next: usize,
    },
    /// The keys of the dict at the address `at`, from the index `next` on. The dict had `size` pairs at the start.
    Keys {
        at: u32,
        next: usize,
        size: usize,
    },
    /// The characters of what is left of a text.
    Characters(TextRest),
    /// The numbers from `next` on by `step`, before `stop`. There is no next one past 128 bits.
    Range {
        next: Option<i128>,
        stop: i128,
        step: i128,
    },
}
