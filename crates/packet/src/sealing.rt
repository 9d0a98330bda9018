// Sealing a fragment and reading its image octet by octet.
ghost use Rattle.std.specs.Prelude.{◌≡◌, ℕ, ◌+◌, ◌<◌, ◌≤◌, length, slice_index};
ghost use Rattle.fragment.specs.Cutting.{piece_of};
ghost use Rattle.fragment.specs.Laws.{data_in};
ghost use Rattle.fragment.specs.Streams.{stream_of};
ghost use Rattle.packet.specs.Images.{covered, image_of};
ghost use Rattle.packet.specs.Sealing.{image_in};

use crate::image::Image;
use check32::Check;
use fragment::piece::Fragment;

// As many zero octets as a pad may have.
const ZEROS: [u8; 20] = [0; 20];

// The check of a fragment's data and pad.
fn seal_of<K: Check, C>(fragment: &Fragment<C>, serial: u32, message: &[u8]) -> u32
    requires { length message.now ≡ fragment.now.message }
    ensures { result ≡ K.Check.number (covered (data_in (piece_of fragment.now) (stream_of serial message.now)) fragment.now.pad) }
{
    let from = fragment.offset;
    let to = from + fragment.octets;
    let mut check = K::start();
    check.update(&serial.to_be_bytes()[from.min(4)..to.min(4)]);
    check.update(&message[from.saturating_sub(4)..to.saturating_sub(4)]);
    check.update(&ZEROS[0..fragment.pad]);
    check.finish()
}

// The octet at a place of a stream.
fn stream_octet(serial: u32, message: &[u8], place: usize) -> u8
    requires { place < length message.now + 4 }
    ensures { result ≡ slice_index (stream_of serial message.now) place }
{
    if place < 4 {
        serial.to_be_bytes()[place]
    } else {
        message[place - 4]
    }
}

impl<'f, 'm, C> Image<'f, 'm, C> {
    pub(crate) fn sealed<K: Check>(
        fragment: &'f Fragment<C>,
        serial: u32,
        message: &'m [u8],
    ) -> Image<'f, 'm, C>
        requires { length message.now ≡ fragment.now.message }
        ensures fragment { result.fragment.now ≡ fragment.now }
        ensures image { image_in result ≡ image_of K.Check.number (piece_of fragment.now) (stream_of serial message.now) }
    {
        Image {
            fragment,
            serial,
            message,
            seal: seal_of::<K, C>(fragment, serial, message),
        }
    }

    // The octet at a place of the image.
    pub(crate) fn octet(&self, place: usize) -> u8
        requires { place < self.now.fragment.now.octets + self.now.fragment.now.pad + 4 }
        ensures { result ≡ slice_index (image_in self.now) place }
    {
        let content = self.fragment.octets;
        let sealed = content + self.fragment.pad;
        if place < content {
            stream_octet(self.serial, self.message, self.fragment.offset + place)
        } else if place < sealed {
            0
        } else {
            self.seal.to_be_bytes()[place - sealed]
        }
    }
}
