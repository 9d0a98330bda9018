// The worked figures: how messages of some lengths are cut, the longest packets, and a selective packet's frame numbers.
#![tactic(auto)]

ghost use Rattle.std.specs.Prelude.{◌≡◌};
ghost use Rattle.figures.specs.Shapes.{shape_of};
ghost use Rattle.figures.specs.Figures.{FiguresStand};

use fragment::carrier::Carrier;
use fragment::cutting::fragment_count;
use fragment::piece::Fragment;
pub use shape::Shape;

mod shape;

// How a message with so many octets is cut, or none where it is refused. The worked figures stand.
pub fn shape_of<C: Carrier>(message: usize) -> Option<Shape>
    ensures value { result ≡ shape_of C.Carrier.terms message }
    ensures figures { FiguresStand }
{
    let Ok(fragments) = fragment_count::<C>(message) else {
        return None;
    };
    let last = Fragment::<C>::cut(message, 0)?;
    Some(Shape {
        fragments,
        octets: last.octets,
        blocks: last.blocks,
        pad: last.pad,
    })
}

#[cfg(test)]
mod tests {
    use super::*;
    use fault::EndFault;
    use fragment::carrier::{DataCall, VoiceAlongCall};
    use std::test::Fail;

    #[test]
    fn longest_data_call_message(rt: HostRuntime) -> Result<(), Fail> {
        assert_eq!(rt; fragment_count::<DataCall>(161_788), Ok(512));
        let Some(first) = Fragment::<DataCall>::cut(161_788, 511) else {
            return Err(Fail::new("no first fragment"));
        };
        assert!(rt; first.start && first.number == 511 && first.offset == 0 && first.octets == 316);
        let Some(second) = Fragment::<DataCall>::cut(161_788, 510) else {
            return Err(Fail::new("no second fragment"));
        };
        assert!(rt; !second.start && second.offset == 316 && second.octets == 316);
        let Some(last) = Fragment::<DataCall>::cut(161_788, 0) else {
            return Err(Fail::new("no last fragment"));
        };
        assert!(rt; !last.start && last.offset == 161_476 && last.octets == 316 && last.pad == 0);
        assert!(rt; Fragment::<DataCall>::cut(161_788, 512).is_none());
        Ok(())
    }

    #[test]
    fn refused_messages(rt: HostRuntime) {
        assert_eq!(rt; fragment_count::<DataCall>(161_789), Err(EndFault::TooLong));
        assert_eq!(rt; EndFault::TooLong.number(), 2);
        assert_eq!(rt; fragment_count::<DataCall>(0), Err(EndFault::Empty));
        assert_eq!(rt; EndFault::Empty.number(), 1);
        assert_eq!(rt;
            fragment_count::<VoiceAlongCall>(121),
            Err(EndFault::TooLong)
        );
        assert_eq!(rt; fragment_count::<VoiceAlongCall>(120), Ok(1));
    }

    #[test]
    fn shapes_of_the_table(rt: HostRuntime) {
        assert_eq!(rt;
            shape_of::<DataCall>(13),
            Some(Shape {
                fragments: 1,
                octets: 17,
                blocks: 2,
                pad: 19
            })
        );
        assert_eq!(rt;
            shape_of::<DataCall>(313),
            Some(Shape {
                fragments: 2,
                octets: 1,
                blocks: 1,
                pad: 15
            })
        );
        assert_eq!(rt;
            shape_of::<VoiceAlongCall>(120),
            Some(Shape {
                fragments: 1,
                octets: 124,
                blocks: 16,
                pad: 0
            })
        );
        assert_eq!(rt; shape_of::<VoiceAlongCall>(121), None);
    }
}
