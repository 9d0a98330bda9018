// The fate of one turn.
use crate::few::UpToThree;

// One octet of a good record altered: the record and the place in its block, both from 0, and what is XORed.
#[derive(Clone, Copy, PartialEq, Eq, Debug)]
pub struct Alteration {
    pub record: u8,
    pub place: u8,
    pub mask: u8,
}

// One hearing of the packet.
#[derive(Clone, Copy, PartialEq, Eq, Debug)]
pub struct Hearing {
    // The records that come bad: 2^i stands for record i.
    pub bad: u16,
    pub alteration: Option<Alteration>,
    // Whether the response to it is heard.
    pub reply: bool,
}

// The packet is heard up to three times.
pub type Hearings = UpToThree<Hearing>;

#[derive(Clone, Copy, PartialEq, Eq, Debug)]
pub struct Fate {
    // Whether the receiver's wait runs out before the packet is heard.
    pub wait: bool,
    pub heard: Hearings,
}

impl Fate {
    // No hearing and no wait.
    pub const SILENT: Fate = Fate {
        wait: false,
        heard: UpToThree::Empty,
    };
}
