// The image of a fragment: its data, pad and check, read in place from the lent message.
ghost use Rattle.std.specs.Prelude.{◌≡◌, length};

use fragment::piece::Fragment;

#[derive(Drop)]
pub(crate) struct Image<'f, 'm, C> {
    pub fragment: &'f Fragment<C>,
    pub serial: u32,
    pub message: &'m [u8],
    // The check of data and pad.
    pub seal: u32,
    ghost lent: { length message.now ≡ fragment.now.message },
}
