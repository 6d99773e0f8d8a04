//! The machine with one hart while the hart is in added code: it does what the hart does that executes these words alone.
#![tactic(auto)]

ghost use Rattle.added_runs.specs.Laws.{StubLaw, CountLaw};

/// Where a hart that executes added code alone comes to a word at which it leaves, and meets no fault however long it
/// runs, the only hart of the machine comes there too by events of its own and goes back to the header at which it has
/// left the original. Until then nothing is written or read, and the run does not end.
pub fn the_only_hart_executes_added_code()
    ensures { StubLaw }
{}

/// Up to the first word at which it leaves, and with that, the only hart counts one event for each instruction. Of what is
/// counted of the entries only that of its own changes: by one division for each fork that it has met, and by the turns
/// that slot 23 told there. The run has not ended before.
pub fn the_only_hart_counts_its_events()
    ensures { CountLaw }
{}
