// The shape of a cut message.

// The number of its fragments, and of the last one the data octets, blocks and pad octets.
#[derive(Clone, Copy, PartialEq, Eq, Debug)]
pub struct Shape {
    pub fragments: usize,
    pub octets: usize,
    pub blocks: usize,
    pub pad: usize,
}
