// The lines that a turn or a refusal adds to the text.
ghost use Rattle.std.specs.Prelude.{◌≡◌, ℕ, List, ◌++◌, IfOk, OnOk};
ghost use Rattle.air.specs.declared.fate.Fate.{Fate};
ghost use Rattle.agreement.specs.Histories as histories;
ghost use Rattle.exchange.specs.Views.{ups_in, joined_in, brief_with};
ghost use Rattle.tell.specs.Printed.{report_line};
ghost use Rattle.play.specs.Stories.{event_text};
ghost use Rattle.play.specs.Views.{ups_lines, left_in, left_for};

use crate::stage::{Short, Stage, Turn};
use air::few::UpToThree;
use check32::Check;
use exchange::pair::{Turned, Up};
use fault::EndFault;
use fragment::carrier::Carrier;
use sender::values::{Next, Report};
use std::alloc::AllocError;
use std::ops::ControlFlow;
use tell::faults::{DrillFault, Refused};
use tell::print::{Line, push_line};

// What the hearings of a turn handed up, in their order.
fn push_ups(text: &mut Vec<u8>, ups: UpToThree<Up>) -> Result<(), AllocError>
    ensures { OnOk result (text.new.items ≡ text.old.items ++ ups_lines (ups_in ups)) }
{
    for up in ups {
        let Up { serial, octets } = up;
        push_line(text, Line::Up { serial, octets })?;
    }
    Ok(())
}

// What the last turn of a session handed up, and how the session ended.
fn push_end(text: &mut Vec<u8>, ups: UpToThree<Up>, report: Report) -> Result<(), AllocError>
    ensures { OnOk result (text.new.items ≡ text.old.items ++ (ups_lines (ups_in ups) ++ report_line report)) }
{
    push_ups(text, ups)?;
    push_line(text, Line::Report(report))
}

// What a turn handed up, and the report if the session ended by it.
pub(crate) fn tell_turn<C: Carrier, K: Check>(
    text: &mut Vec<u8>,
    turned: Turned<C, K>,
) -> Result<Turn<C, K>, Short<C, K>>
    ensures { IfOk result (λ turn. (store : List ℕ) (fates : ℕ → Fate) → left_in text.new.items turn store fates ≡ left_for text.old.items (brief_with (joined_in turned.next) (ups_in turned.ups) store fates)) }
{
    let Turned { ups, next } = turned;
    match next {
        Next::On(transfer) => match push_ups(text, ups) {
            Ok(()) => Ok(ControlFlow::Continue(transfer)),
            Err(error) => Err(Short {
                stage: Stage::Within(transfer),
                error,
            }),
        },
        Next::Ended(report, exchange) => match push_end(text, ups, report) {
            Ok(()) => Ok(ControlFlow::Break(Stage::Between(exchange))),
            Err(error) => Err(Short {
                stage: Stage::Between(exchange),
                error,
            }),
        },
    }
}

// An end refuses what the line asks for.
pub(crate) fn tell_refused<C: Carrier, K: Check>(
    text: &mut Vec<u8>,
    line: usize,
    fault: EndFault,
    stage: Stage<C, K>,
) -> Result<Stage<C, K>, Short<C, K>>
    ensures same { IfOk result (λ y. y ≡ stage) }
    ensures after { OnOk result (text.new.items ≡ text.old.items ++ event_text line (histories.refused fault)) }
{
    let refused = Refused {
        line,
        fault: DrillFault::from(fault),
    };
    match push_line(text, Line::Refused(refused)) {
        Ok(()) => Ok(stage),
        Err(error) => Err(Short { stage, error }),
    }
}
