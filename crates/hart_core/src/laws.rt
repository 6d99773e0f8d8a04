ghost use Rattle.hart_core.specs.Laws.{IdleLaw, EndedLaw, AppendLaw, GrowthLaw};
ghost use Rattle.hart_core.specs.Sample.{SampleRun};

/// An event that is not effective changes nothing.
pub fn idle_law()
    ensures { IdleLaw }
{}

/// After the ending nothing changes, whatever order of events comes.
pub fn ended_law()
    ensures { EndedLaw }
{}

/// The events of two orders, one behind the other.
pub fn append_law()
    ensures { AppendLaw }
{}

/// Output that events of hart 0 have written stays.
pub fn growth_law()
    ensures { GrowthLaw }
{}

/// Two harts in a small image, from the start through a fork and a join back to the header.
pub fn a_sample_runs()
    ensures { SampleRun }
{}
