// A receiver for one pair, over a carrier and a check.
ghost use Rattle.std.specs.Prelude.{◌≡◌, true};
ghost use Rattle.receiver.specs.Few.{few_in};

use crate::state::State;
use packet::values::Route;
use std::marker::PhantomData;

#[derive(Drop)]
pub struct Receiver<C, K> {
    // The route of its responses: from here to the sender.
    pub route: Route,
    pub state: State,
    pub kind: PhantomData<(C, K)>,
    ghost few: { few_in state.phase ≡ true },
}
