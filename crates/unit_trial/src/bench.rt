// A sender at one of its stages, and the commands that drive it.
use check32::Check;
use fragment::carrier::Carrier;
use hex_digits::{Hex, octets_of};
use packet::write::LONGEST_PACKET;
use sender::states::{Awaiting, Ready, Refusal, Sending};
use sender::values::Next;

enum Stage<C, K> {
    Between(Ready<C, K>),
    Within(Sending<C, K>),
    Waiting(Awaiting<C, K>),
}

// Carries out the commands for one sender, and says what each came to.
pub(crate) fn drive<C: Carrier, K: Check>(name: &str, input: &str, text: &mut String) {
    let mut message = Vec::new(*text.allocator());
    let mut stage: Option<Stage<C, K>> = None;
    for line in input.lines() {
        if let Some((word, command)) = line.split_once(' ')
            && word == name
        {
            stage = act(stage, command, &mut message, text);
        }
    }
    if let Some(stage) = stage {
        stage.retire();
    }
}

fn act<C: Carrier, K: Check>(
    stage: Option<Stage<C, K>>,
    command: &str,
    message: &mut Vec<u8>,
    text: &mut String,
) -> Option<Stage<C, K>> {
    let (word, rest) = command.split_once(' ').unwrap_or((command, ""));
    if word == "new" {
        if let Some(stage) = stage {
            stage.retire();
        }
        return Stage::new(rest, text);
    }
    if word == "start"
        && let Ok(Some(octets)) = octets_of(*text.allocator(), rest.as_bytes())
    {
        *message = octets;
    }
    let stage = stage?;
    Some(match word {
        "start" => stage.start(message, text),
        "put" => stage.put(message, &mut [0; LONGEST_PACKET], text),
        "short" => stage.put(message, &mut [0; 30], text),
        "other" => stage.put(b"?", &mut [0; LONGEST_PACKET], text),
        "hear" => stage.hear(rest, text),
        "over" => stage.over(text),
        _ => stage,
    })
}

// A missing or wrong figure counts as 0.
fn figure(word: Option<&str>) -> u32 {
    word.and_then(|w| w.parse().ok()).unwrap_or(0)
}

impl<C: Carrier, K: Check> Stage<C, K> {
    // A sender with these addresses, retry limit and first serial, each cut to its width.
    fn new(figures: &str, text: &mut String) -> Option<Self> {
        let mut words = figures.split(' ');
        let own = (figure(words.next()) & 0xffff) as u16;
        let peer = (figure(words.next()) & 0xffff) as u16;
        let limit = (figure(words.next()) & 0xff) as u8;
        let first = figure(words.next());
        match Ready::new(own, peer, limit, first) {
            Ok(sender) => {
                let _ = text.push_str("(made)\n");
                Some(Stage::Between(sender))
            }
            Err(fault) => {
                let _ = write!(text, "(refused {fault})\n");
                None
            }
        }
    }

    fn start(self, message: &[u8], text: &mut String) -> Self {
        let Stage::Between(sender) = self else {
            return self;
        };
        match sender.start(message) {
            Ok(sender) => {
                let _ = text.push_str("(started)\n");
                Stage::Within(sender)
            }
            Err(Refusal { kept, fault }) => {
                let _ = write!(text, "(refused {fault})\n");
                Stage::Between(kept)
            }
        }
    }

    fn put(self, message: &[u8], packet: &mut [u8], text: &mut String) -> Self {
        let Stage::Within(sender) = self else {
            return self;
        };
        match sender.put_out(message, packet) {
            Ok((sender, length)) => {
                if let Some(octets) = packet.get(..length) {
                    let _ = write!(text, "{}\n", Hex(octets));
                }
                Stage::Waiting(sender)
            }
            Err(Refusal { kept, fault }) => {
                let _ = write!(text, "(refused {fault})\n");
                Stage::Within(kept)
            }
        }
    }

    fn hear(self, digits: &str, text: &mut String) -> Self {
        let Stage::Waiting(sender) = self else {
            return self;
        };
        let Ok(Some(response)) = octets_of(*text.allocator(), digits.as_bytes()) else {
            return Stage::Waiting(sender);
        };
        match sender.hear(&response) {
            Ok(next) => Self::after(next, text),
            Err(Refusal { kept, fault }) => {
                let _ = write!(text, "(refused {fault})\n");
                Stage::Waiting(kept)
            }
        }
    }

    fn over(self, text: &mut String) -> Self {
        let Stage::Waiting(sender) = self else {
            return self;
        };
        Self::after(sender.wait_over(), text)
    }

    fn after(next: Next<Sending<C, K>, Ready<C, K>>, text: &mut String) -> Self {
        match next {
            Next::On(sender) => {
                let _ = text.push_str("(on)\n");
                Stage::Within(sender)
            }
            Next::Ended(report, sender) => {
                let _ = write!(text, "{report}\n");
                Stage::Between(sender)
            }
        }
    }

    fn retire(self) {
        match self {
            Stage::Between(sender) => {
                let _ = sender.retire();
            }
            Stage::Within(sender) => {
                let _ = sender.retire();
            }
            Stage::Waiting(sender) => {
                let _ = sender.retire();
            }
        }
    }
}
