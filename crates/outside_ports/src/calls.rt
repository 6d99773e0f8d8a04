ghost use Rattle.std.specs.Prelude.{◌≡◌, ◌≤◌, ◌↔◌, Contains, IsErr, OnOk, OnErr};
ghost use Rattle.outside_ports.specs.Fakes.{next_number};

use crate::ports::Failed;

// The calls of a fake: which of them fail, by their numbers from 0, the number of the next one, and
// the count of faults. Both counts stand still at 2 ^ 64 - 1.
#[derive(Drop)]
pub(crate) struct Calls {
    pub(crate) fails: Vec<u64>,
    pub(crate) number: u64,
    pub(crate) faults: u64,
}

impl Calls {
    pub(crate) fn new(fails: Vec<u64>) -> Calls
        ensures { result ≡ record { fails = fails; number = 0; faults = 0 } }
    {
        Calls {
            fails,
            number: 0,
            faults: 0,
        }
    }

    // Numbers a call, which is a fault where its number is among those that fail.
    pub(crate) fn begin(&mut self) -> Result<(), Failed>
        ensures failed { IsErr result ↔ Contains self.old.fails.items self.old.number }
        ensures ok { OnOk result (self.new ≡ record self.old { number = next_number self.old.number }) }
        ensures err { OnErr result (self.new ≡ record self.old {
          number = next_number self.old.number;
          faults = next_number self.old.faults;
        }) }
        ensures never_falls { self.old.faults ≤ self.new.faults }
    {
        let number = self.number;
        self.number = number.saturating_add(1);
        if self.fails.contains(&number) {
            return Err(self.fault());
        }
        Ok(())
    }

    // Counts a fault.
    pub(crate) fn fault(&mut self) -> Failed
        ensures counted { self.new ≡ record self.old { faults = next_number self.old.faults } }
        ensures never_falls { self.old.faults ≤ self.new.faults }
    {
        self.faults = self.faults.saturating_add(1);
        Failed
    }
}
