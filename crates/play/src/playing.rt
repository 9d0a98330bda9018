// A drill, played over a fresh pair.
ghost use Rattle.std.specs.Prelude.{◌≡◌, IfOk};
ghost use Rattle.play.specs.Stories.{told_of};
ghost use Rattle.play.specs.Views.{asked_by};

use crate::scene::Scene;
use crate::sending::octets_of;
use crate::stage::Short;
use air::airs::Schedule;
use check32::Check;
use exchange::pair::Exchange;
use fragment::carrier::Carrier;
use script::values::Script;
use std::alloc::{AllocError, Global};

// The octets of the message store, and of the panel behind it.
const ROOM: usize = 65_536;

// The addresses of both ends.
const OWN: u16 = 1;

const PEER: u16 = 2;

// What a drill tells. Store and panel are made once for all its messages.
pub(crate) fn play<C: Carrier, K: Check>(
    heap: Global,
    script: &Script,
) -> Result<Vec<u8>, AllocError>
    ensures { IfOk result (λ text. text.items ≡ told_of C.Carrier.terms K.Check.number (asked_by script.now)) }
{
    let mut scene = Scene {
        store: octets_of(heap, ROOM, 0)?,
        panel: octets_of(heap, ROOM, 0)?,
        air: Schedule::new(&script.turns),
        text: Vec::new(heap),
    };
    let Ok(exchange) = Exchange::<C, K>::new(
        OWN,
        PEER,
        script.head.retries,
        script.head.serial,
        &scene.store,
    ) else {
        return Ok(scene.text);
    };
    match scene.send_all(&script.sends, exchange) {
        Ok(stage) => {
            stage.retire();
            Ok(scene.text)
        }
        Err(short) => {
            let Short { stage, error } = short;
            stage.retire();
            Err(error)
        }
    }
}
