// Phase and event meet: the rows of the protocol, the phase changed in place.
ghost use Rattle.std.specs.Prelude.{◌≡◌};
ghost use Rattle.receiver.specs.Rows.{idle, blocks_anew, lost, filling, row, row_of, full_row, stray, gathering, event_of};
ghost use Rattle.receiver.specs.declared.state.Phase.TheVariants.{Collecting, Waiting};

use crate::state::{Act, Event, Gathering, Phase, State};
use packet::values::{Code, Header};

impl Gathering {
    // What a full packet begins.
    fn of(start: bool, header: Header) -> Gathering
        ensures { result ≡ gathering start header }
    {
        Gathering {
            number: header.number,
            start,
            blocks: header.records,
            pad: header.pad,
        }
    }
}

// What a packet with this header is to a receiver.
impl From<Header> for Event {
    ghost from_gives = { λ header event. event ≡ event_of header };

    fn from(header: Header) -> Event {
        if header.selective {
            Event::Selective(header)
        } else if header.start {
            Event::FullStart(header)
        } else {
            Event::Full(header)
        }
    }
}

impl State {
    pub(crate) fn idle(&mut self)
        ensures { self.new ≡ idle self.old }
    {
        self.phase = Phase::Idle;
        self.filled = 0;
    }

    fn lose(&mut self) -> Act
        ensures { row self.new result ≡ lost self.old }
    {
        self.idle();
        Act::Answer(Code::OutOfStep)
    }

    fn stray(&mut self, header: Header) -> Act
        ensures { row self.new result ≡ stray self.old header }
    {
        if header.start {
            Act::Answer(Code::FullRetry)
        } else {
            self.lose()
        }
    }

    // Sets out to collect a fragment.
    fn collect(&mut self, g: Gathering) -> Act
        ensures { row self.new result ≡ filling self.old g }
    {
        self.phase = Phase::Collecting(g);
        Act::Fill(g)
    }

    // Makes the block store anew and sets out to collect a fragment.
    fn collect_anew(&mut self, g: Gathering) -> Act
        ensures { row self.new result ≡ filling (blocks_anew self.old) g }
    {
        self.blocks.renew();
        self.collect(g)
    }

    // A full packet without start while this fragment is collected.
    fn full_collecting(&mut self, h: Header, g: Gathering) -> Act
        ensures { row self.new result ≡ full_row self.old h (Collecting g) }
    {
        if h.number != g.number || g.start {
            self.lose()
        } else if h.records == g.blocks && h.pad == g.pad {
            self.collect(Gathering::of(false, h))
        } else {
            self.collect_anew(Gathering::of(false, h))
        }
    }

    // A full packet without start while fragment v is in.
    fn full_waiting(&mut self, h: Header, v: u16) -> Act
        ensures { row self.new result ≡ full_row self.old h (Waiting v) }
    {
        if h.number == v {
            Act::Answer(Code::Ack)
        } else if h.number.checked_add(1) == Some(v) {
            self.collect_anew(Gathering::of(false, h))
        } else {
            self.lose()
        }
    }

    pub(crate) fn meet(&mut self, event: Event) -> Act
        ensures { row self.new result ≡ row_of self.old event }
    {
        match (event, self.phase) {
            (Event::FullStart(h), _) => {
                self.filled = 0;
                self.collect_anew(Gathering::of(true, h))
            }
            (Event::Full(h), Phase::Collecting(g)) => self.full_collecting(h, g),
            (Event::Full(h), Phase::Waiting(v)) => self.full_waiting(h, v),
            (Event::Selective(h), Phase::Collecting(g))
                if h.number == g.number && h.start == g.start => { self.collect(g) }
            (Event::Selective(h), Phase::Waiting(v)) if h.number == v => Act::Answer(Code::Ack),
            (Event::Full(h) | Event::Selective(h), Phase::Done) if h.number == 0 => {
                Act::Answer(Code::Ack)
            }
            (Event::Full(_), _) => self.lose(),
            (Event::Selective(h), _) => self.stray(h),
            (Event::Expiry, Phase::Collecting(_) | Phase::Waiting(_)) => {
                self.idle();
                Act::Rest
            }
            (Event::Expiry, Phase::Idle | Phase::Done) => Act::Rest,
        }
    }
}
