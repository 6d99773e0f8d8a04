ghost use Rattle.loop_data.specs.FactLaws.{FactLaw, ArrivalLaw, SomePassLaw, OnePassLaw};

/// Where a run executes the words of a loop of a nest, those that use a cell access its bytes and no other word
/// writes them, and no sum or store of 32 bits of a location's value loses bits, each location with a fact in the
/// loop's pass has the value that the fact gives, over the values at the last arrival at the loop's header.
pub fn facts_hold()
    ensures visit { FactLaw }
    ensures arrival { ArrivalLaw }
{}

/// What the pass over a loop knows at each word is determined by its equations: they have a solution, and
/// no two.
pub fn one_pass()
    ensures some { SomePassLaw }
    ensures only { OnePassLaw }
{}

ghost use Rattle.loop_data.specs.EffectLaws.{UnreadLaw, UnwrittenLaw};

/// What an instruction asks of memory, where it leads and what it writes is determined by pc, memory and the
/// registers that it reads; it leaves the registers that it does not write as they are.
pub fn registers_of_an_effect()
    ensures unread { UnreadLaw }
    ensures unwritten { UnwrittenLaw }
{}
