ghost use Rattle.std.specs.Prelude.{◌≡◌, pos, int_le};
ghost use Rattle.dependence_tests.specs.PairTests.{are_disjoint};
ghost use Rattle.alias_checks.specs.Areas.{may_read, may_write, flags_permit, bounds_have, in_bounds};

/// What is done with the bytes of a range.
#[derive(Clone, Copy, PartialEq, Eq, Debug)]
pub enum Permission {
    /// They are read.
    Read,
    /// They are written.
    Write,
    /// They are read and written.
    ReadAndWrite,
}

/// Whether flags say that an area may be read.
fn may_read(flags: u32) -> bool
    ensures { result ≡ may_read flags }
{
    flags / 4 % 2 == 1
}

/// Whether flags say that an area may be written.
fn may_write(flags: u32) -> bool
    ensures { result ≡ may_write flags }
{
    flags / 2 % 2 == 1
}

/// Whether flags permit an access.
fn flags_permit(permission: Permission, flags: u32) -> bool
    ensures { result ≡ flags_permit permission flags }
{
    match permission {
        Permission::Read => may_read(flags),
        Permission::Write => may_write(flags),
        Permission::ReadAndWrite => may_read(flags) && may_write(flags),
    }
}

/// Whether an address is at most a number.
fn is_from(low: u64, number: i64) -> bool
    ensures { result ≡ int_le (pos low) number }
{
    low as i128 <= number as i128
}

/// Whether a number is at most an address.
fn is_up_to(number: i64, end: u64) -> bool
    ensures { result ≡ int_le number (pos end) }
{
    number as i128 <= end as i128
}

/// Whether all of a range lies between the bounds of an area, which permits the access.
fn bounds_have(permission: Permission, range: (i64, i64), area: (u64, u64, u32)) -> bool
    ensures { result ≡ bounds_have permission range area }
{
    flags_permit(permission, area.2) && (is_from(area.0, range.0) && is_up_to(range.1, area.1))
}

/// Whether all of a range lies between the bounds of one area, which permits the access.
#[tactic(auto, unfolding(crate::specs::Areas::in_bounds))]
pub(crate) fn in_bounds(
    areas: &[(u64, u64, u32)],
    permission: Permission,
    range: (i64, i64),
) -> bool
    ensures { result ≡ in_bounds areas.now permission range }
{
    for area in areas {
        if bounds_have(permission, range, *area) {
            return true;
        }
    }
    false
}

/// Whether one of two ranges ends where the other begins, or before.
pub(crate) fn are_disjoint(first: (i64, i64), second: (i64, i64)) -> bool
    ensures { result ≡ are_disjoint first second }
{
    first.1 <= second.0 || second.1 <= first.0
}
