// The promises of whole days, each the contract of a function.
#![tactic(auto)]

ghost use Rattle.promises.specs.Promises.{SerialEquivalence, EveryStateTested, NeverIdle, FullyBooked, OnlyUsefulRuns, EachRunOnce, WasteBounded, DecidedWhenKnown, ConfigIndependent, DecisionsFinal, VerdictsFit, Progress};
ghost use Rattle.promises.specs.Lent.{LentDays, LentTaken, LentSerialEquivalence, LentEveryStateTested};
ghost use Rattle.promises.specs.Wrong.{WrongQueues};

// The decisions are those of serial testing, if the reports taken are what the bench says.
pub fn serial_equivalence()
    ensures { SerialEquivalence }
{}

// Every state that a part ever had in the main line was reported good.
pub fn every_state_tested()
    ensures { EveryStateTested }
{}

// While a change waits, a run is running.
pub fn never_idle()
    ensures { NeverIdle }
{}

// A bench is free only if every useful run is running or known.
pub fn fully_booked()
    ensures { FullyBooked }
{}

// At most as many runs run as there are benches, each useful, none twice.
pub fn only_useful_runs()
    ensures { OnlyUsefulRuns }
{}

// If nothing is rejected or withdrawn, each part of each change is run once.
pub fn each_run_once()
    ensures { EachRunOnce }
{}

// A rejection or a withdrawal wastes no more runs than are looked at.
pub fn waste_bounded()
    ensures { WasteBounded }
{}

// A change waits for its own runs only, unless one before it shares a part.
pub fn decided_when_known()
    ensures { DecidedWhenKnown }
{}

// The decisions do not depend on the number of benches or the depth.
pub fn config_independent()
    ensures { ConfigIndependent }
{}

// Landed changes keep their places, and the rejected stay.
pub fn decisions_final()
    ensures { DecisionsFinal }
{}

// What a reachable queue holds fits its sections.
pub fn verdicts_fit()
    ensures { VerdictsFit }
{}

// Every report that is taken makes a measure fall.
pub fn progress()
    ensures { Progress }
{}

// The day over lent numbers is the day on records.
pub fn lent_days()
    ensures { LentDays }
{}

// An event is taken over lent numbers exactly if it is taken on records and is well formed.
pub fn lent_taken()
    ensures { LentTaken }
{}

// Serial equivalence, of what the numbers say.
pub fn lent_serial_equivalence()
    ensures { LentSerialEquivalence }
{}

// Every state was tested, of what the numbers say.
pub fn lent_every_state_tested()
    ensures { LentEveryStateTested }
{}

// Six wrong queues each break a promise on a computed day.
pub fn wrong_queues()
    ensures { WrongQueues }
{}
