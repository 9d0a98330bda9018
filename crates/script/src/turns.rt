// The turns of a drill, read.
ghost use Rattle.std.specs.Prelude.{◌≡◌};
ghost use Rattle.script.specs.Words.{seen, after};
ghost use Rattle.script.specs.Turns.{records_from, bad_of, altered, alteration_of, heard, hearing_of, hearings_of, turn_of};

use crate::words::{is_end, read_next, read_optional, read_small, read_word};
use air::fate::{Alteration, Fate, Hearing, Hearings};
use air::few::UpToThree;

// What stands behind a word, if the word is there.
fn read_after<'a, T, F: FnOnce(&'a [u8]) -> Option<(T, &'a [u8])>>(
    text: &'a [u8],
    word: &[u8],
    read: F,
) -> Option<(Option<T>, &'a [u8])>
    requires { F.IsAlwaysCallable read }
    ensures { (gives : _) → ((x : _) (r : _) → F.post read x r → seen r ≡ gives x.now) → seen result ≡ after word.now gives text.now }
{
    let Some(rest) = read_word(text, word) else {
        return Some((None, text));
    };
    let (value, rest) = read(rest)?;
    Some((Some(value), rest))
}

// Bad records, each behind a space and above the one before.
fn read_records(text: &[u8]) -> Option<(u16, &[u8])>
    ensures { seen result ≡ records_from 16 0 0 text.now }
{
    let mut rest = text;
    let mut least = 0;
    let mut bad = 0;
    // At most 16; the loop is left early in two ways.
    for _ in 0..16u8 {
        let Some(more) = read_word(rest, b" ") else {
            return Some((bad, rest));
        };
        let (record, more) = read_small(more, 15)?;
        if record < least {
            return None;
        }
        bad += 1 << record;
        least = record + 1;
        rest = more;
    }
    Some((bad, rest))
}

// The bad records, if any are listed.
fn read_bad(text: &[u8]) -> Option<(u16, &[u8])>
    ensures { seen result ≡ bad_of text.now }
{
    let Some(rest) = read_word(text, b" (bad") else {
        return Some((0, text));
    };
    let (bad, rest) = read_records(rest)?;
    if bad == 0 {
        return None;
    }
    let rest = read_word(rest, b")")?;
    Some((bad, rest))
}

// What is altered.
fn read_altered(text: &[u8]) -> Option<(Alteration, &[u8])>
    ensures { seen result ≡ altered text.now }
{
    let (record, rest) = read_small(text, 15)?;
    let (place, rest) = read_next(rest, 19)?;
    let (mask, rest) = read_next(rest, 255)?;
    if mask == 0 {
        return None;
    }
    let rest = read_word(rest, b")")?;
    Some((
        Alteration {
            record,
            place,
            mask,
        },
        rest,
    ))
}

// What is altered, if anything is.
fn read_alteration(text: &[u8]) -> Option<(Option<Alteration>, &[u8])>
    ensures { seen result ≡ alteration_of text.now }
{
    read_after(text, b" (alter ", read_altered)
}

// What is heard.
fn read_heard(text: &[u8]) -> Option<(Hearing, &[u8])>
    ensures { seen result ≡ heard text.now }
{
    let (bad, rest) = read_bad(text)?;
    let (alteration, rest) = read_alteration(rest)?;
    let (reply, rest) = read_optional(rest, b" (reply)");
    let rest = read_word(rest, b")")?;
    Some((
        Hearing {
            bad,
            alteration,
            reply,
        },
        rest,
    ))
}

// One hearing, if it is there.
fn read_hearing(text: &[u8]) -> Option<(Option<Hearing>, &[u8])>
    ensures { seen result ≡ hearing_of text.now }
{
    read_after(text, b" (heard", read_heard)
}

// Up to three hearings.
fn read_hearings(text: &[u8]) -> Option<(Hearings, &[u8])>
    ensures { seen result ≡ hearings_of text.now }
{
    let mut heard = UpToThree::Empty;
    let mut rest = text;
    for _ in 0..3u8 {
        let (hearing, more) = read_hearing(rest)?;
        let Some(hearing) = hearing else {
            return Some((heard, more));
        };
        heard = heard.and(hearing);
        rest = more;
    }
    Some((heard, rest))
}

// The fate in a line.
pub(crate) fn read_turn(line: &[u8]) -> Option<Fate>
    ensures { result ≡ turn_of line.now }
{
    let text = read_word(line, b"(turn")?;
    let (wait, rest) = read_optional(text, b" (wait)");
    let (heard, rest) = read_hearings(rest)?;
    is_end(rest).then_some(Fate { wait, heard })
}
