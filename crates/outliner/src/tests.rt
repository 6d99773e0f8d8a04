// Words by hand from the fields of their forms, at the places that they have in the added code of a loop that fills two
// arrays with 7 words in its body.

ghost use Rattle.std.specs.Prelude.{◌≡◌, IfOk, length};
ghost use Rattle.std.specs.List.Sorted.{IsStrictlyIncreasing};
ghost use Rattle.rv64_decode.specs.Form.{IsSigned, IsMultiple, InForm};

use crate::copies::{push_copy, target_of};
use crate::ends::{push_leave, push_refuse, push_save};
use crate::places::arrival;
use crate::turns::{push_begin, push_fork, push_join, push_next};
use loop_data::{Addresses, Cell, Class, Level};
use rv64_decode::{BranchOp, ImmOp, Instr, LoadOp, Reg, StoreOp, UpperOp};
use std::alloc::{AllocError, Global};
use std::test::Fail;

#[test]
fn registers_are_saved_and_come_back(rt: HostRuntime) -> Result<(), Fail> {
    let mut code = Vec::new(rt.alloc());
    push_save(&mut code)?;
    push_refuse(&mut code)?;
    let words: [u32; 15] = [
        0x0102_800B,
        0x0113_000B,
        0x0123_800B,
        0x013E_000B,
        0x014E_800B,
        0x015F_000B,
        0x016F_800B,
        0x0100_128B,
        0x0110_130B,
        0x0120_138B,
        0x0130_1E0B,
        0x0140_1E8B,
        0x0150_1F0B,
        0x0160_1F8B,
        0x0000_400B,
    ];
    assert_eq!(rt; code.as_slice(), words.as_slice());
    Ok(())
}

#[test]
fn turns_are_divided(rt: HostRuntime) -> Result<(), Fail> {
    let mut code = Vec::new(rt.alloc());
    push_fork(&mut code, 259, 316)?;
    let words: [u32; 16] = [
        0x0000_528B,
        0x0000_630B,
        0x0170_138B,
        0x0013_8393,
        0x0062_8E33,
        0xFFFE_0E13,
        0x026E_7E33,
        0x027E_0EB3,
        0x026E_DEB3,
        0x001E_0E13,
        0x027E_0E33,
        0x026E_5E33,
        0x41DE_0E33,
        0x01CE_000B,
        0x000E_1463,
        0x0A80_006F,
    ];
    assert_eq!(rt; code.as_slice(), words.as_slice());
    Ok(())
}

#[test]
fn locations_move_on_to_the_first_turn(rt: HostRuntime) -> Result<(), Fail> {
    let mut classes = [None; 48];
    classes[10] = Some(Class::Induction(8));
    classes[11] = Some(Class::Private);
    classes[28] = Some(Class::Induction(-1));
    classes[35] = Some(Class::Induction(1));
    let mut code = Vec::new(rt.alloc());
    push_begin(&mut code, &classes, 275, 301)?;
    let words: [u32; 26] = [
        0x0005_0293,
        0x0000_0337,
        0x0083_031B,
        0x03D3_0333,
        0x0062_82B3,
        0x0002_8513,
        0x0130_128B,
        0x0000_0337,
        0xFFF3_031B,
        0x03D3_0333,
        0x0062_82B3,
        0x0132_800B,
        0x0030_128B,
        0x0000_0337,
        0x0013_031B,
        0x03D3_0333,
        0x0062_82B3,
        0x0032_800B,
        0x0100_128B,
        0x0110_130B,
        0x0120_138B,
        0x0130_1E0B,
        0x0140_1E8B,
        0x0150_1F0B,
        0x0160_1F8B,
        0x0040_006F,
    ];
    assert_eq!(rt; code.as_slice(), words.as_slice());
    Ok(())
}

#[test]
fn turns_follow_each_other(rt: HostRuntime) -> Result<(), Fail> {
    let mut code = Vec::new(rt.alloc());
    push_next(&mut code, 308, 301)?;
    push_join(&mut code)?;
    let words: [u32; 9] = [
        0x01D2_800B,
        0x01C0_128B,
        0xFFF2_8293,
        0x01C2_800B,
        0x0002_8663,
        0x01D0_128B,
        0xFCDF_F06F,
        0x01D0_128B,
        0x0000_300B,
    ];
    assert_eq!(rt; code.as_slice(), words.as_slice());
    Ok(())
}

fn cell(base: Option<u8>, offset: i64, wide: bool, stored: bool) -> Cell
    ensures { result ≡ record { base = base; offset = offset; wide = wide; stored = stored } }
{
    Cell {
        base,
        offset,
        wide,
        stored,
    }
}

#[test]
fn stored_cells_go_into_memory(rt: HostRuntime) -> Result<(), Fail> {
    let cells = [
        cell(Some(2), 8, true, true),
        cell(Some(5), -4, false, true),
        cell(Some(8), 16, true, false),
        cell(None, 0x1_1800, true, true),
    ];
    let mut code = Vec::new(rt.alloc());
    push_leave(&mut code, cells.as_slice())?;
    let words: [u32; 16] = [
        0x01D2_800B,
        0x0000_128B,
        0x0051_3423,
        0x01D0_128B,
        0x01D3_000B,
        0x0010_130B,
        0xFE62_AE23,
        0x01D0_130B,
        0x01D2_800B,
        0x01E3_000B,
        0x0030_128B,
        0x0001_2337,
        0x8053_3023,
        0x01D0_128B,
        0x01E0_130B,
        0x0000_400B,
    ];
    assert_eq!(rt; code.as_slice(), words.as_slice());
    Ok(())
}

// The loop whose header and exit these are.
fn level(alloc: Global, header: u64, exit: u64) -> Level {
    Level {
        header,
        body: Addresses::new(Vec::new(alloc)),
        back: exit,
        exit,
        depth: 0,
    }
}

// auipc x5, 1; ld x6 and lw x7 of two cells, and sd and sw to them.
fn push_cell_words(code: &mut Vec<u32>, level: &Level) -> Result<(), AllocError> {
    let auipc = Instr::Upper {
        op: UpperOp::Auipc,
        rd: Reg::new(5),
        imm: 0x1000,
    };
    push_copy(code, level, 0x1_0000, 301, 303, 311, false, None, &auipc)?;
    let ld = Instr::Load {
        op: LoadOp::Ld,
        rd: Reg::new(6),
        rs1: Reg::new(2),
        imm: 8,
    };
    push_copy(code, level, 0x1_0004, 303, 304, 311, false, Some(0), &ld)?;
    let lw = Instr::Load {
        op: LoadOp::Lw,
        rd: Reg::new(7),
        rs1: Reg::new(2),
        imm: 16,
    };
    push_copy(code, level, 0x1_0008, 304, 306, 311, false, Some(1), &lw)?;
    let sd = Instr::Store {
        op: StoreOp::Sd,
        rs1: Reg::new(2),
        rs2: Reg::new(6),
        imm: 8,
    };
    push_copy(code, level, 0x1_000C, 306, 307, 311, false, Some(0), &sd)?;
    let sw = Instr::Store {
        op: StoreOp::Sw,
        rs1: Reg::new(2),
        rs2: Reg::new(7),
        imm: 16,
    };
    push_copy(code, level, 0x1_0010, 307, 308, 311, false, Some(1), &sw)?;
    Ok(())
}

#[test]
fn cells_of_copies_are_slots(rt: HostRuntime) -> Result<(), Fail> {
    let alloc = rt.alloc();
    let level = level(alloc, 0x1_0000, 0x1_001C);
    let mut code = Vec::new(alloc);
    push_cell_words(&mut code, &level)?;
    let words: [u32; 7] = [
        0x0001_12B7,
        0x0002_829B,
        0x0000_130B,
        0x0010_138B,
        0x0003_839B,
        0x0003_000B,
        0x0013_800B,
    ];
    assert_eq!(rt; code.as_slice(), words.as_slice());
    Ok(())
}

// A branch over a word, the branch at which the loop is left, a jump back, and a word before the header.
fn push_jumps(code: &mut Vec<u32>, level: &Level) -> Result<(), AllocError> {
    let over = Instr::Branch {
        op: BranchOp::Beq,
        rs1: Reg::new(6),
        rs2: Reg::new(7),
        imm: 8,
    };
    push_copy(code, level, 0x1_0014, 308, 310, 314, false, None, &over)?;
    let exit = Instr::Branch {
        op: BranchOp::Bne,
        rs1: Reg::new(10),
        rs2: Reg::new(11),
        imm: -28,
    };
    push_copy(code, level, 0x1_001C, 309, 314, 314, true, None, &exit)?;
    let back = Instr::Jal {
        rd: Reg::new(0),
        imm: -16,
    };
    push_copy(code, level, 0x1_0020, 310, 306, 314, false, None, &back)?;
    let last = Instr::AluImm {
        op: ImmOp::Addi,
        rd: Reg::new(10),
        rs1: Reg::new(10),
        imm: 1,
    };
    push_copy(code, level, 0x0_FFFC, 311, 314, 314, false, None, &last)?;
    Ok(())
}

#[test]
fn copies_lead_to_copies(rt: HostRuntime) -> Result<(), Fail> {
    let alloc = rt.alloc();
    let level = level(alloc, 0x1_0000, 0x1_001C);
    let mut code = Vec::new(alloc);
    push_jumps(&mut code, &level)?;
    let words: [u32; 5] = [
        0x0073_0463,
        0x0140_006F,
        0xFF1F_F06F,
        0x0015_0513,
        0x0080_006F,
    ];
    assert_eq!(rt; code.as_slice(), words.as_slice());
    Ok(())
}

// A loop of five words that begins at its third: it is left at the word before that, and its last word is a jump to its
// first.
fn turned(alloc: Global) -> Result<Level, AllocError>
    ensures { IfOk result (λ l. IsStrictlyIncreasing l.body × (length l.body ≡ 5)) }
{
    let body: [u64; 5] = [0x0_FFF8, 0x0_FFFC, 0x1_0000, 0x1_0004, 0x1_0008];
    Ok(Level {
        header: 0x1_0000,
        body: Addresses::new(Vec::from_slice(alloc, &body)?),
        back: 0x0_FFFC,
        exit: 0x0_FFFC,
        depth: 0,
    })
}

// A jump by so many bytes.
fn jump(imm: i32) -> Instr {
    Instr::Jal {
        rd: Reg::new(0),
        imm,
    }
}

// A branch by so many bytes.
fn branch(imm: i32) -> Instr
    requires { IsSigned 13 imm × IsMultiple 1 imm }
    ensures form { InForm result }
{
    Instr::Branch {
        op: BranchOp::Bne,
        rs1: Reg::new(10),
        rs2: Reg::new(11),
        imm,
    }
}

// The places of the copies of its words, of which that of the second has two words, and the place behind them.
static TURNED: [u32; 6] = [312, 313, 315, 316, 317, 318];

#[test]
fn copies_go_on_in_the_loop(rt: HostRuntime) -> Result<(), Fail> {
    let level = turned(rt.alloc())?;
    let rows: [(u64, bool, Instr, u64, u32); 6] = [
        (0x0_FFFC, true, branch(-28), 0x1_0000, 318),
        (0x0_FFFC, true, branch(8), 0x1_0004, 316),
        (0x1_0000, false, branch(8), 0x1_0008, 317),
        (0x1_0004, false, branch(-4), 0x1_0000, 318),
        (0x1_0008, false, jump(-16), 0x0_FFF8, 312),
        (0x1_0008, false, jump(-8), 0x1_0000, 318),
    ];
    for (at, leaving, i, address, place) in rows {
        let target = target_of(&level, at, leaving, &i);
        assert_eq!(rt; target, address);
        assert_eq!(rt; arrival(&level, &TURNED, target), place);
    }
    Ok(())
}

// The exit branch of that loop, from which a turn falls through to the header: both jumps lead behind the turn.
#[test]
fn exit_before_the_header_ends_a_turn(rt: HostRuntime) -> Result<(), Fail> {
    let level = turned(rt.alloc())?;
    let exit = branch(-28);
    let to = arrival(&level, &TURNED, target_of(&level, 0x0_FFFC, true, &exit));
    if to != TURNED[5] {
        return Err(Fail::from("the place behind the turn"));
    }
    let mut code = Vec::new(rt.alloc());
    push_copy(&mut code, &level, 0x0_FFFC, 313, to, 318, true, None, &exit)?;
    let words: [u32; 2] = [0x0140_006F, 0x0100_006F];
    assert_eq!(rt; code.as_slice(), words.as_slice());
    Ok(())
}
