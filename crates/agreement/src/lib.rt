// The agreement of both ends over whole histories, as a theorem.
#![tactic(auto)]

ghost use Rattle.agreement.specs.Agreement.{HistoriesAgree};
ghost use Rattle.agreement.specs.Instances.{Speaks};

use check32::Check;
use fragment::carrier::Carrier;

// Every history of a pair agrees, on every carrier and with every check.
pub fn histories_agree<C: Carrier, K: Check>()
    ensures { HistoriesAgree C.Carrier.terms K.Check.number }
{}

// Both carriers with both checks meet what the agreement asks, and each outcome happens.
pub fn each_outcome_happens()
    ensures { Speaks }
{}
