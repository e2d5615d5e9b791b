//! The rules of the board as definitions, and the laws of whole runs proved on them. It has no code of its own: each function
//! here says by its contract that a statement of specs/ is proved, so that without its proof the crate fails.
#![tactic(auto)]

ghost use Rattle.rules.specs.Cases.{AllSay, cases};
ghost use Rattle.rules.specs.Examples.{SamplePlays, TwoOrders, OldCopyFetched};
ghost use Rattle.rules.specs.Laws.{NoStale, EqualLoads, SettledPages, OrderDecides, RefusalsTold, RacesNamed};
ghost use Rattle.rules.specs.Runs.{Ran};

/// No accepted load gives a stale word, in any run.
pub fn no_stale()
    ensures { (r : Ran) → NoStale r }
{}

/// Two accepted loads of one word are equal exactly when no store to it was accepted between them, in any run.
pub fn equal_loads()
    ensures { (r : Ran) → EqualLoads r }
{}

/// Settled pages agree exactly where the last accepted stores agree, in any two runs.
pub fn settled_pages()
    ensures { (r q : Ran) → SettledPages r q }
{}

/// The order of holders with each core's own calls decides every load, in any two runs.
pub fn order_decides()
    ensures { (r q : Ran) → OrderDecides r q }
{}

/// Figures, size and history decide whether and why a call is refused, in any run.
pub fn refusals_told()
    ensures { (r : Ran) → RefusalsTold r }
{}

/// A race names another core's store of the word in this phase, or else the earliest load of it, in any run.
pub fn races_named()
    ensures { (r : Ran) → RacesNamed r }
{}

/// The ten cases.
pub fn ten_cases()
    ensures { AllSay cases }
{}

/// The sample job's twelve answers.
pub fn sample_job()
    ensures { SamplePlays }
{}

/// Two different orders of one run meet the premises of the order law, so that it speaks of something.
pub fn two_orders()
    ensures { TwoOrders }
{}

/// A copy in a locked strip that has grown old is fetched again.
pub fn old_copy_fetched()
    ensures { OldCopyFetched }
{}
