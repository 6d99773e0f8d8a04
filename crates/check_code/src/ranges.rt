ghost use Rattle.std.specs.Prelude.{◌≡◌, ◌+◌, ◌-◌, ◌*◌, ◌<◌, ◌≤◌, ◌^◌, ℕ, List, [], ◌∷◌, IfOk, true, length};
ghost use Rattle.std.specs.List.{All};
ghost use Rattle.alias_checks.specs.Areas.{flags_permit};
ghost use Rattle.stub_laws.specs.Code.{Appended};
ghost use Rattle.check_code.specs.Macros.{area_code, permitted, areas_code, PassesArea};

use crate::macros::{push, push_number, push_open};
use alias_checks::areas::Permission;
use rv64_decode::{BranchOp, Instr, Reg, XInstr};
use std::alloc::AllocError;

/// Whether flags of a program header permit an access.
fn permits(permission: Permission, flags: u32) -> bool
    ensures { result ≡ flags_permit permission flags }
{
    let reads = flags / 4 % 2 == 1;
    let writes = flags / 2 % 2 == 1;
    match permission {
        Permission::Read => reads,
        Permission::Write => writes,
        Permission::ReadAndWrite => reads && writes,
    }
}

/// How many areas permit an access.
fn count(permission: Permission, areas: &[(u64, u64, u32)]) -> usize
    ensures { result ≡ length (permitted permission areas.now) }
{
    let mut count = 0;
    for area in areas {
        if permits(permission, area.2) {
            count += 1;
        }
    }
    count
}

/// Appends the words of one area, with so many areas behind it, in six words.
fn push_area(code: &mut Vec<u32>, low: u64, end: u64, left: usize) -> Result<(), AllocError>
    requires bounds { (low < 2 ^ 31) × (end < 2 ^ 31) }
    requires left { left < 128 }
    ensures { IfOk result (λ u. Appended code.old.items code.new.items (area_code low end (6 * left + 1))) }
{
    push_number(code, Reg::new(7), low as i64)?;
    let below = Instr::Branch {
        op: BranchOp::Blt,
        rs1: Reg::new(5),
        rs2: Reg::new(7),
        imm: 16,
    };
    push(code, XInstr::Base(below))?;
    push_number(code, Reg::new(7), end as i64)?;
    let within = Instr::Branch {
        op: BranchOp::Bge,
        rs1: Reg::new(7),
        rs2: Reg::new(6),
        imm: left as i32 * 24 + 8,
    };
    push(code, XInstr::Base(within))?;
    Ok(())
}

/// Appends the words of an area where it permits the access, and tells how many such areas are left behind
/// it, where from it on there are so many.
fn push_if_permitted(
    code: &mut Vec<u32>,
    permission: Permission,
    area: &(u64, u64, u32),
    left: usize,
) -> Result<usize, AllocError>
    requires low { (area.now.0 < 2 ^ 31) × (area.now.1 < 2 ^ 31) }
    requires few { left ≤ 128 }
    requires some { flags_permit permission area.now.2 ≡ true → 1 ≤ left }
    ensures { IfOk result (λ n. PassesArea permission area.now left code.old.items code.new.items n) }
{
    if permits(permission, area.2) {
        push_area(code, area.0, area.1, left - 1)?;
        return Ok(left - 1);
    }
    Ok(left)
}

/// Appends what goes on where the range from x5 to x6, as signed numbers, lies in an area that permits the
/// access, and to the open target elsewhere: six words for each such area, and one. It works with x7. Areas
/// are given by their low addresses, their ends and their flags, in address order.
pub fn push_areas(
    code: &mut Vec<u32>,
    permission: Permission,
    areas: &[(u64, u64, u32)],
) -> Result<(), AllocError>
    requires few { length areas.now ≤ 128 }
    requires low { All (λ a. (a.0 < 2 ^ 31) × (a.1 < 2 ^ 31)) areas.now }
    ensures { IfOk result (λ u. Appended code.old.items code.new.items (areas_code (permitted permission areas.now))) }
{
    let mut left = count(permission, areas);
    for area in areas {
        left = push_if_permitted(code, permission, area, left)?;
    }
    push_open(code)?;
    Ok(())
}
