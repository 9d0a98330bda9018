// The words of the command line.
ghost use Rattle.std.specs.Prelude.{◌^◌, ◌<◌};
ghost use Rattle.std.specs.Option.{SomeIff};
ghost use Rattle.std.specs.Str.Parse.{IsNumeral, digits_value};

use check32::CheckName;
use fragment::name::CarrierName;
use packet::values::Route;

// How a message is to be cut.
#[derive(Clone, Copy)]
pub(crate) struct Order {
    pub carrier: CarrierName,
    pub check: CheckName,
    pub serial: u32,
    pub route: Route,
}

// The order in these words, the program's name first.
pub(crate) fn order_of(words: &[String]) -> Option<Order> {
    let [_, carrier, check, serial, source, destination] = words else {
        return None;
    };
    Some(Order {
        carrier: carrier.parse().ok()?,
        check: check.parse().ok()?,
        serial: serial_of(serial)?,
        route: Route {
            source: address_of(source)?,
            destination: address_of(destination)?,
        },
    })
}

// A serial in decimal figures, with no sign before them.
fn serial_of(word: &str) -> Option<u32>
    ensures { SomeIff result (IsNumeral 10 word.now × (digits_value 10 word.now < 2 ^ 32)) (digits_value 10 word.now) }
{
    if let [b'+', ..] = word.as_bytes() {
        return None;
    }
    word.parse().ok()
}

// An address in decimal figures: a serial that fits two octets.
fn address_of(word: &str) -> Option<u16>
    ensures { SomeIff result (IsNumeral 10 word.now × (digits_value 10 word.now < 2 ^ 16)) (digits_value 10 word.now) }
{
    u16::try_from(serial_of(word)?).ok()
}
