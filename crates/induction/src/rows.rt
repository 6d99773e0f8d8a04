ghost use Rattle.std.specs.Prelude.{ℕ, ◌≡◌, ◌≢◌, ◌<◌, ◌≤◌, length, IfOk, IfErr};
ghost use Rattle.std.specs.List.{All};
ghost use Rattle.std.specs.List.Sorted.{IsStrictlyIncreasing};
ghost use Rattle.linear_forms.specs.Locations.{location_of, IsLocation};
ghost use Rattle.induction.specs.declared.writers.Writers.{Writers};
ghost use Rattle.induction.specs.declared.writers.Writers.TheVariants.{Nowhere};
ghost use Rattle.induction.specs.Masks.{AreFirstReads};
ghost use Rattle.induction.specs.Words.{AreSized};
ghost use Rattle.induction.specs.Writers.{AreWriters};
ghost use Rattle.induction.specs.Rows.{TellsClass, IsCarriedAt, TellsRow, IsLeastAt, TellsInner, TellsInnerRow};

use crate::moves::step_for;
use crate::reads::first_reads;
use crate::words::{Words, is_private};
use crate::writers::{Writers, writers_of};
use linear_forms::Loc;
use loop_data::{Class, Level};

/// The location of a number.
fn location(r: usize) -> Loc
    requires { r < 48 }
    ensures { result ≡ location_of r }
{
    if r < 32 {
        Loc::Reg(r as u8)
    } else {
        Loc::Cell((r - 32) as u8)
    }
}

/// The class of a location that these words of the root write; or the location, where it is carried.
fn written_class(
    levels: &[Level],
    level: &Level,
    words: &Words,
    r: usize,
    by: Writers,
    reads: u64,
) -> Result<Option<Class>, Loc>
    requires levels { All (λ l. IsStrictlyIncreasing l.body) levels.now }
    requires level { IsStrictlyIncreasing level.now.body }
    requires sized { AreSized level.now.body words.now }
    requires writers { AreWriters words.now.flow (length level.now.body) r by }
    requires some { by ≢ Nowhere }
    requires reads { AreFirstReads words.now.flow words.now.masks.items reads }
    requires other { 1 ≤ r }
    requires location { r < 48 }
    ensures ok { IfOk result (TellsClass levels.now level.now words.now r) }
    ensures err { IfErr result (IsCarriedAt levels.now level.now words.now r) }
{
    match step_for(levels, level, words, r, by) {
        Some(step) => Ok(Some(Class::Induction(step))),
        None => {
            if is_private(words, reads, r) {
                Ok(Some(Class::Private))
            } else {
                Err(location(r))
            }
        }
    }
}

/// The class of a location that these words of the root write, if any; or the location, where it is carried.
fn root_class(
    levels: &[Level],
    level: &Level,
    words: &Words,
    r: usize,
    by: Writers,
    reads: u64,
) -> Result<Option<Class>, Loc>
    requires levels { All (λ l. IsStrictlyIncreasing l.body) levels.now }
    requires level { IsStrictlyIncreasing level.now.body }
    requires sized { AreSized level.now.body words.now }
    requires writers { AreWriters words.now.flow (length words.now.flow.instrs.items) r by }
    requires reads { AreFirstReads words.now.flow words.now.masks.items reads }
    requires other { 1 ≤ r }
    requires location { r < 48 }
    ensures ok { IfOk result (TellsClass levels.now level.now words.now r) }
    ensures err { IfErr result (IsCarriedAt levels.now level.now words.now r) }
{
    match by {
        Writers::Nowhere => Ok(None),
        by => written_class(levels, level, words, r, by, reads),
    }
}

/// The classes of the locations in the root; or the least that it carries.
pub fn root_row(levels: &[Level], level: &Level, words: &Words) -> Result<[Option<Class>; 48], Loc>
    requires levels { All (λ l. IsStrictlyIncreasing l.body) levels.now }
    requires level { IsStrictlyIncreasing level.now.body }
    requires sized { AreSized level.now.body words.now }
    ensures ok { IfOk result (TellsRow levels.now level.now words.now) }
    ensures err { IfErr result (IsLeastAt levels.now level.now words.now) }
{
    let writers = writers_of(&words.flow);
    let reads = first_reads(&words.flow, words.masks.as_slice());
    let mut row = [None; 48];
    for r in 1..48 {
        let class = match root_class(levels, level, words, r, writers[r], reads) {
            Ok(class) => class,
            Err(loc) => return Err(loc),
        };
        row[r] = class;
    }
    Ok(row)
}

/// The class of a location that these words of an inner loop write, if any, where it is an induction of that.
fn inner_class(
    levels: &[Level],
    level: &Level,
    words: &Words,
    r: usize,
    by: Writers,
) -> Option<Class>
    requires levels { All (λ l. IsStrictlyIncreasing l.body) levels.now }
    requires level { IsStrictlyIncreasing level.now.body }
    requires sized { AreSized level.now.body words.now }
    requires writers { AreWriters words.now.flow (length words.now.flow.instrs.items) r by }
    requires location { r < 48 }
    ensures { TellsInner levels.now level.now words.now r result }
{
    match step_for(levels, level, words, r, by) {
        Some(step) => Some(Class::Induction(step)),
        None => None,
    }
}

/// The inductions of an inner loop.
pub fn inner_row(levels: &[Level], level: &Level, words: &Words) -> [Option<Class>; 48]
    requires levels { All (λ l. IsStrictlyIncreasing l.body) levels.now }
    requires level { IsStrictlyIncreasing level.now.body }
    requires sized { AreSized level.now.body words.now }
    ensures { TellsInnerRow levels.now level.now words.now result }
{
    let writers = writers_of(&words.flow);
    let mut row = [None; 48];
    for r in 1..48 {
        row[r] = inner_class(levels, level, words, r, writers[r]);
    }
    row
}
