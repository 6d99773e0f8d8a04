ghost use Rattle.std.specs.Prelude.{ℕ, ◌≡◌, ◌<◌, [], length, slice_index_or};
ghost use Rattle.std.specs.List.{All};
ghost use Rattle.loop_data.specs.declared.accesses.Access.{Access};
ghost use Rattle.loop_data.specs.declared.equations.Duty.{Duty};
ghost use Rattle.induction.specs.OneClass.{HasAllRows};
ghost use Rattle.loop_choice.specs.Entries.{HasAllEntries};

use alias_checks::Check;
use loop_data::{Access, Class, Classes, Duty, Plan};

/// That a row has an entry for each location.
fn has_each_location(row: [Option<Class>; 48])
    ensures { length row ≡ 48 }
{}

/// That each inner loop has a row, with an entry for each location.
fn have_each_location(rows: [[Option<Class>; 48]; 3])
    ensures count { length rows ≡ 3 }
    ensures each { (i : ℕ) → i < 3 → length (slice_index_or rows i []) ≡ 48 }
{}

/// That there is an entry for each location, in the root and in each inner loop.
fn has_all_rows(classes: &Classes)
    ensures { HasAllRows classes.now }
{
    has_each_location(classes.root);
    have_each_location(classes.inner);
}

/// That there is a place for each depth.
fn has_each_depth(around: [u32; 3])
    ensures { length around ≡ 3 }
{}

/// That each duty has a place for each depth.
fn duties_have_each_depth(duties: &[Duty])
    ensures { All (λ (d : Duty). length d.around ≡ 3) duties.now }
{
    for duty in duties {
        has_each_depth(duty.around);
    }
}

/// That each access has a place for each depth.
fn accesses_have_each_depth(accesses: &[Access])
    ensures { All (λ (a : Access). length a.around ≡ 3) accesses.now }
{
    for access in accesses {
        has_each_depth(access.around);
    }
}

/// That a plan and its check have all their entries.
pub(crate) fn have_all_entries(plan: &Plan, check: &Check)
    ensures { HasAllEntries plan.now check.now }
{
    has_all_rows(&plan.classes);
    duties_have_each_depth(check.duties.as_slice());
    accesses_have_each_depth(check.accesses.list.as_slice());
}
