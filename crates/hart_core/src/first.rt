ghost use Rattle.std.specs.Prelude.{◌≡◌, IsSome, unwrap_or};
ghost use Rattle.hart_core.specs.Machine.{State};
ghost use Rattle.hart_core.specs.Acting.{configuration_of, Keeps};
ghost use Rattle.hart_core.specs.Runs.{Runs, TellsReads, DoesNoCall};

use crate::harts::{Event, Harts};
use outside_ports::{Sink, Source};
use serial_run::End;

impl Harts {
    /// Events of hart 0, and of no other, until the run has an ending, but at most `fuel`. `Spent` comes exactly where
    /// these have given none; the machine then has no ending. After a fault of the source or the sink hart 0 stands at
    /// the call in which it was met, and nothing has been read or written since.
    pub fn run_first<I: Source, O: Sink>(&mut self, fuel: u64, input: &mut I, out: &mut O) -> End
        ensures end { result ≡ unwrap_or self.new.ended End.Spent }
        ensures runs { Runs fuel
            (configuration_of self.old (I.rest input.old) (I.faults input.old) (O.written out.old) (O.faults out.old))
            (configuration_of self.new (I.rest input.new) (I.faults input.new) (O.written out.new) (O.faults out.new)) }
        ensures keeps { Keeps
            (configuration_of self.old (I.rest input.old) (I.faults input.old) (O.written out.old) (O.faults out.old))
            (configuration_of self.new (I.rest input.new) (I.faults input.new) (O.written out.new) (O.faults out.new)) }

        // Events without reads (63), and without writes (64).
        ensures takes_nothing { (s : State) → self.old ≡ s.core → DoesNoCall 63 fuel s → input.new ≡ input.old }
        ensures sends_nothing { (s : State) → self.old ≡ s.core → TellsReads fuel s (I.rest input.old)
            → DoesNoCall 64 fuel s → out.new ≡ out.old }

        // A machine that has an ending.
        ensures stays { IsSome self.old.ended → self.new ≡ self.old }
        ensures input_stays { IsSome self.old.ended → input.new ≡ input.old }
        ensures output_stays { IsSome self.old.ended → out.new ≡ out.old }
    {
        if let Some(end) = self.ended() {
            return end;
        }
        for k in 0..fuel {
            match self.event(0, input, out) {
                Event::Did => {}
                Event::Idle => return End::Spent,
                Event::Ended(end) => return end,
            }
        }
        End::Spent
    }
}
