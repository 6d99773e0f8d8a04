ghost use Rattle.std.specs.Prelude.{◌≡◌, ◌≤◌, IfOk, length};
ghost use Rattle.alias_checks.specs.Listing.{AreSameCells};

use arrayvec::ArrayVec;
use loop_data::{Access, Cells, Duty, Trip};
use std::alloc::{AllocError, Global};

/// The same cells.
pub(crate) fn same_cells(cells: &Cells) -> Cells
    ensures { AreSameCells result cells.now }
{
    let mut list = ArrayVec::new();
    let _ = list.try_extend_from_slice(cells.list.as_slice());
    let mut uses = ArrayVec::new();
    let _ = uses.try_extend_from_slice(cells.uses.as_slice());
    Cells {
        list,
        uses,
        fault: cells.fault,
    }
}

/// The same trip.
fn same_trip(trip: &Trip) -> Trip
    ensures { result ≡ trip.now }
{
    Trip {
        relation: trip.relation,
        signed: trip.signed,
        start: trip.start.copied(),
        bound: trip.bound.copied(),
        step: trip.step,
    }
}

/// The same trips.
pub(crate) fn same_trips(alloc: Global, trips: &[Trip]) -> Result<Vec<Trip>, AllocError>
    ensures { IfOk result (λ v. v.items ≡ trips.now) }
{
    let mut copies = Vec::with_capacity(alloc, trips.len())?;
    for trip in trips {
        copies.push(same_trip(trip))?;
    }
    Ok(copies)
}

/// The same duty.
fn same_duty(duty: &Duty) -> Duty
    ensures { result ≡ duty.now }
{
    Duty {
        at: duty.at,
        level: duty.level,
        around: duty.around,
        form: duty.form.copied(),
    }
}

/// The same duties.
pub(crate) fn same_duties(alloc: Global, duties: &[Duty]) -> Result<Vec<Duty>, AllocError>
    ensures { IfOk result (λ v. v.items ≡ duties.now) }
{
    let mut copies = Vec::with_capacity(alloc, duties.len())?;
    for duty in duties {
        copies.push(same_duty(duty))?;
    }
    Ok(copies)
}

/// The same access.
fn same_access(access: &Access) -> Access
    ensures { result ≡ access.now }
{
    Access {
        at: access.at,
        level: access.level,
        around: access.around,
        form: access.form.copied(),
        width: access.width,
        store: access.store,
    }
}

/// The same accesses.
pub(crate) fn same_accesses(accesses: &[Access]) -> ArrayVec<Access, 32>
    requires { length accesses.now ≤ 32 }
    ensures { result.items ≡ accesses.now }
{
    let mut copies = ArrayVec::new();
    for access in accesses {
        copies.push(same_access(access));
    }
    copies
}
