// What a drill is played in, beside both ends.

#[derive(Drop)]
pub(crate) struct Scene<F> {
    // The message store, which is lent to the receiver.
    pub(crate) store: Vec<u8>,
    // Where what is handed up is shown.
    pub(crate) panel: Vec<u8>,
    pub(crate) air: F,
    // What is told so far.
    pub(crate) text: Vec<u8>,
}
