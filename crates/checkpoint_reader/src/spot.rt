/// How far a part was read.
#[derive(Clone, Copy, Debug)]
pub struct Spot {
    /// The place of the next byte.
    pub at: usize,
    /// How many objects were referred to.
    pub met: usize,
    /// How many may be referred to.
    pub most: usize,
    /// How many texts of the table were referred to, before the part and in it.
    pub known: usize,
}
