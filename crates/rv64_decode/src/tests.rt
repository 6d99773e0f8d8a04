// Words from outside: the tables hold what GNU as makes of the instructions beside them
// (bench/instruction_words.py), and the other words stand by the manual's listings.

use crate::{
    AluOp, BranchOp, ImmOp, Instr, LoadOp, Reg, Regs, StoreOp, UpperOp, XInstr, decode, decode_x,
    encode, encode_x,
};
use std::process::Abort;

const ALU: [(u32, AluOp, u8, u8, u8); 30] = [
    (0x01F0_82B3, AluOp::Add, 5, 1, 31),
    (0x41E2_0333, AluOp::Sub, 6, 4, 30),
    (0x01D3_93B3, AluOp::Sll, 7, 7, 29),
    (0x01C5_2433, AluOp::Slt, 8, 10, 28),
    (0x01B6_B4B3, AluOp::Sltu, 9, 13, 27),
    (0x01A8_4533, AluOp::Xor, 10, 16, 26),
    (0x0199_D5B3, AluOp::Srl, 11, 19, 25),
    (0x418B_5633, AluOp::Sra, 12, 22, 24),
    (0x017C_E6B3, AluOp::Or, 13, 25, 23),
    (0x016E_7733, AluOp::And, 14, 28, 22),
    (0x015F_87BB, AluOp::Addw, 15, 31, 21),
    (0x4141_083B, AluOp::Subw, 16, 2, 20),
    (0x0132_98BB, AluOp::Sllw, 17, 5, 19),
    (0x0124_593B, AluOp::Srlw, 18, 8, 18),
    (0x4115_D9BB, AluOp::Sraw, 19, 11, 17),
    (0x0307_0A33, AluOp::Mul, 20, 14, 16),
    (0x02F8_9AB3, AluOp::Mulh, 21, 17, 15),
    (0x02EA_2B33, AluOp::Mulhsu, 22, 20, 14),
    (0x02DB_BBB3, AluOp::Mulhu, 23, 23, 13),
    (0x02CD_4C33, AluOp::Div, 24, 26, 12),
    (0x02BE_DCB3, AluOp::Divu, 25, 29, 11),
    (0x02A0_6D33, AluOp::Rem, 26, 0, 10),
    (0x0291_FDB3, AluOp::Remu, 27, 3, 9),
    (0x0283_0E3B, AluOp::Mulw, 28, 6, 8),
    (0x0274_CEBB, AluOp::Divw, 29, 9, 7),
    (0x0266_5F3B, AluOp::Divuw, 30, 12, 6),
    (0x0257_EFBB, AluOp::Remw, 31, 15, 5),
    (0x0249_703B, AluOp::Remuw, 0, 18, 4),
    (0x01FF_8033, AluOp::Add, 0, 31, 31),
    (0x4000_0FB3, AluOp::Sub, 31, 0, 0),
];

const IMMEDIATE: [(u32, ImmOp, u8, u8, i32); 33] = [
    (0x05D0_0393, ImmOp::Addi, 7, 0, 93),
    (0xFFF1_A613, ImmOp::Slti, 12, 3, -1),
    (0x7FF3_3893, ImmOp::Sltiu, 17, 6, 2047),
    (0x8004_CB13, ImmOp::Xori, 22, 9, -2048),
    (0x0016_6D93, ImmOp::Ori, 27, 12, 1),
    (0xFA37_F013, ImmOp::Andi, 0, 15, -93),
    (0x5559_029B, ImmOp::Addiw, 5, 18, 1365),
    (0x0000_1F93, ImmOp::Slli, 31, 0, 0),
    (0x0010_9F13, ImmOp::Slli, 30, 1, 1),
    (0x01FF_9F93, ImmOp::Slli, 31, 31, 31),
    (0x0200_1F13, ImmOp::Slli, 30, 0, 32),
    (0x03FF_9F13, ImmOp::Slli, 30, 31, 63),
    (0x0000_5F93, ImmOp::Srli, 31, 0, 0),
    (0x0010_DF13, ImmOp::Srli, 30, 1, 1),
    (0x01FF_DF93, ImmOp::Srli, 31, 31, 31),
    (0x0200_5F13, ImmOp::Srli, 30, 0, 32),
    (0x03FF_DF13, ImmOp::Srli, 30, 31, 63),
    (0x4000_5F93, ImmOp::Srai, 31, 0, 0),
    (0x4010_DF13, ImmOp::Srai, 30, 1, 1),
    (0x41FF_DF93, ImmOp::Srai, 31, 31, 31),
    (0x4200_5F13, ImmOp::Srai, 30, 0, 32),
    (0x43FF_DF13, ImmOp::Srai, 30, 31, 63),
    (0x0000_1F9B, ImmOp::Slliw, 31, 0, 0),
    (0x0010_9F1B, ImmOp::Slliw, 30, 1, 1),
    (0x01FF_9F9B, ImmOp::Slliw, 31, 31, 31),
    (0x0000_5F9B, ImmOp::Srliw, 31, 0, 0),
    (0x0010_DF1B, ImmOp::Srliw, 30, 1, 1),
    (0x01FF_DF9B, ImmOp::Srliw, 31, 31, 31),
    (0x4000_5F9B, ImmOp::Sraiw, 31, 0, 0),
    (0x4010_DF1B, ImmOp::Sraiw, 30, 1, 1),
    (0x41FF_DF9B, ImmOp::Sraiw, 31, 31, 31),
    (0x05D0_0893, ImmOp::Addi, 17, 0, 93),
    (0x0000_0013, ImmOp::Addi, 0, 0, 0),
];

const UPPER: [(u32, UpperOp, u8, i32); 7] = [
    (0x0002_05B7, UpperOp::Lui, 11, 131072),
    (0x8000_0FB7, UpperOp::Lui, 31, -2147483648),
    (0xFFFF_F0B7, UpperOp::Lui, 1, -4096),
    (0x7FFF_F2B7, UpperOp::Lui, 5, 2147479552),
    (0x0000_1517, UpperOp::Auipc, 10, 4096),
    (0xFFFF_E197, UpperOp::Auipc, 3, -8192),
    (0x0000_0017, UpperOp::Auipc, 0, 0),
];

const LOAD: [(u32, LoadOp, u8, u8, i32); 7] = [
    (0x0000_8A03, LoadOp::Lb, 20, 1, 0),
    (0x7FF1_9A83, LoadOp::Lh, 21, 3, 2047),
    (0x8002_AB03, LoadOp::Lw, 22, 5, -2048),
    (0x0083_CB83, LoadOp::Lbu, 23, 7, 8),
    (0xFF84_DC03, LoadOp::Lhu, 24, 9, -8),
    (0x4005_EC83, LoadOp::Lwu, 25, 11, 1024),
    (0xFFF6_BD03, LoadOp::Ld, 26, 13, -1),
];

const STORE: [(u32, StoreOp, u8, u8, i32); 8] = [
    (0x808F_8023, StoreOp::Sb, 31, 8, -2048),
    (0x7E9F_1FA3, StoreOp::Sh, 30, 9, 2047),
    (0x00AE_AFA3, StoreOp::Sw, 29, 10, 31),
    (0x02BE_3023, StoreOp::Sd, 28, 11, 32),
    (0xFECD_8FA3, StoreOp::Sb, 27, 12, -1),
    (0xFEDD_1023, StoreOp::Sh, 26, 13, -32),
    (0x00EC_A023, StoreOp::Sw, 25, 14, 0),
    (0x54FC_3AA3, StoreOp::Sd, 24, 15, 1365),
];

const BRANCH: [(u32, BranchOp, u8, u8, i32); 13] = [
    (0xFFE0_02E3, BranchOp::Beq, 0, 30, -28),
    (0x7FD0_9FE3, BranchOp::Bne, 1, 29, 4094),
    (0x81C1_4063, BranchOp::Blt, 2, 28, -4096),
    (0x01B1_D0E3, BranchOp::Bge, 3, 27, 2048),
    (0x01A2_6163, BranchOp::Bltu, 4, 26, 2),
    (0x0192_FF63, BranchOp::Bgeu, 5, 25, 30),
    (0xFF83_0FE3, BranchOp::Beq, 6, 24, -2),
    (0x8173_90E3, BranchOp::Bne, 7, 23, -2048),
    (0x0364_4063, BranchOp::Blt, 8, 22, 32),
    (0x4154_D063, BranchOp::Bge, 9, 21, 1024),
    (0x0145_6063, BranchOp::Bltu, 10, 20, 0),
    (0xAB35_F5E3, BranchOp::Bgeu, 11, 19, -1366),
    (0xFED5_92E3, BranchOp::Bne, 11, 13, -28),
];

const JAL: [(u32, u8, i32); 8] = [
    (0x0000_006F, 0, 0),
    (0x0010_00EF, 1, 2048),
    (0x8000_02EF, 5, -1048576),
    (0x7FFF_FFEF, 31, 1048574),
    (0x0000_106F, 0, 4096),
    (0xFFFF_F0EF, 1, -2),
    (0x7FE0_016F, 2, 2046),
    (0xD545_51EF, 3, -699052),
];

const FENCE: [(u32, u8, u8, i32); 4] = [
    (0x0FF0_000F, 0, 0, 255),
    (0x0310_000F, 0, 0, 49),
    (0x8330_000F, 0, 0, -1997),
    (0x0230_000F, 0, 0, 35),
];

const JALR: [(u32, u8, u8, i32); 3] = [
    (0x0000_8067, 0, 1, 0),
    (0x8002_80E7, 1, 5, -2048),
    (0x7FFF_8FE7, 31, 31, 2047),
];

fn reg(number: u8) -> Reg {
    Reg::new(number % 32)
}

fn agree(rt: &impl Abort, word: u32, i: &Instr) {
    assert_eq!(rt; decode(word), Some(*i), "of {word:08x}");
    assert_eq!(rt; encode(*i), Some(word), "of {i:?}");
    agree_in_added_code(rt, word, XInstr::Base(*i));
}

fn agree_in_added_code(rt: &impl Abort, word: u32, i: XInstr) {
    assert_eq!(rt; decode_x(word), Some(i), "of {word:08x}");
    assert_eq!(rt; encode_x(i), Some(word), "of {i:?}");
}

#[test]
fn operations_on_two_registers(rt: HostRuntime) {
    for (word, op, rd, rs1, rs2) in ALU {
        let (rd, rs1, rs2) = (reg(rd), reg(rs1), reg(rs2));
        agree(&rt, word, &Instr::Alu { op, rd, rs1, rs2 });
    }
}

#[test]
fn operations_on_a_register_and_an_immediate(rt: HostRuntime) {
    for (word, op, rd, rs1, imm) in IMMEDIATE {
        let (rd, rs1) = (reg(rd), reg(rs1));
        agree(&rt, word, &Instr::AluImm { op, rd, rs1, imm });
    }
    for (word, op, rd, imm) in UPPER {
        let rd = reg(rd);
        agree(&rt, word, &Instr::Upper { op, rd, imm });
    }
}

#[test]
fn loads_and_stores(rt: HostRuntime) {
    for (word, op, rd, rs1, imm) in LOAD {
        let (rd, rs1) = (reg(rd), reg(rs1));
        agree(&rt, word, &Instr::Load { op, rd, rs1, imm });
    }
    for (word, op, rs1, rs2, imm) in STORE {
        let (rs1, rs2) = (reg(rs1), reg(rs2));
        agree(&rt, word, &Instr::Store { op, rs1, rs2, imm });
    }
}

#[test]
fn branches_and_jumps(rt: HostRuntime) {
    for (word, op, rs1, rs2, imm) in BRANCH {
        let (rs1, rs2) = (reg(rs1), reg(rs2));
        agree(&rt, word, &Instr::Branch { op, rs1, rs2, imm });
    }
    for (word, rd, imm) in JAL {
        let rd = reg(rd);
        agree(&rt, word, &Instr::Jal { rd, imm });
    }
    for (word, rd, rs1, imm) in JALR {
        let (rd, rs1) = (reg(rd), reg(rs1));
        agree(&rt, word, &Instr::Jalr { rd, rs1, imm });
    }
}

#[test]
fn fences_and_calls(rt: HostRuntime) {
    for (word, rd, rs1, imm) in FENCE {
        let (rd, rs1) = (reg(rd), reg(rs1));
        agree(&rt, word, &Instr::Fence { rd, rs1, imm });
    }
    // every field of a fence is free, reserved ones too
    let (rd, rs1) = (reg(8), reg(5));
    agree(&rt, 0xFFF2_840F, &Instr::Fence { rd, rs1, imm: -1 });
    agree(&rt, 0x0000_0073, &Instr::Ecall);
    agree(&rt, 0x0010_0073, &Instr::Ebreak);
}

#[test]
fn words_outside_the_table(rt: HostRuntime) {
    let words = [
        // all zeros and all ones, which the manual keeps as illegal
        0x0000_0000,
        0xFFFF_FFFF,
        // a load whose opcode has a low bit cleared, and a compressed nop
        0x0000_0002,
        0x0000_0001,
        // slliw, srliw and sraiw with bit 25 set
        0x0201_151B,
        0x0201_551B,
        0x4201_551B,
        // slli with bit 26 set, srai with bit 31 set
        0x0400_1F93,
        0xC000_5F93,
        // funct7 of another row: sll and slt with bit 30 set, mulhw
        0x4000_1033,
        0x4000_2033,
        0x0200_103B,
        // funct3 of no row: a branch, a load, a store, jalr, slliw's neighbour
        0x0000_2063,
        0x0000_7003,
        0x0000_4023,
        0x0000_1067,
        0x0000_201B,
        // fence.i, csrrw, wfi, mret, and ecall with a register
        0x0000_100F,
        0x3000_1073,
        0x1050_0073,
        0x3020_0073,
        0x0000_80F3,
        // lr.w, flw, and custom-0
        0x1000_202F,
        0x0000_2007,
        0x0102_800B,
        // the opcode of an operation without its number: 0x53 is of floating point
        0x0000_0053,
    ];
    for word in words {
        assert_eq!(rt; decode(word), None, "of {word:08x}");
    }
}

fn refuse(rt: &impl Abort, i: &Instr) {
    assert_eq!(rt; encode(*i), None, "of {i:?}");
}

#[test]
fn immediates_outside_twelve_bits(rt: HostRuntime) {
    for imm in [-2049, 2048, i32::MIN, i32::MAX] {
        let (op, rd, rs1) = (ImmOp::Addi, reg(1), reg(2));
        refuse(&rt, &Instr::AluImm { op, rd, rs1, imm });
        let (op, rd, rs1) = (LoadOp::Ld, reg(1), reg(2));
        refuse(&rt, &Instr::Load { op, rd, rs1, imm });
        let (op, rs1, rs2) = (StoreOp::Sd, reg(1), reg(2));
        refuse(&rt, &Instr::Store { op, rs1, rs2, imm });
        let (rd, rs1) = (reg(1), reg(2));
        refuse(&rt, &Instr::Jalr { rd, rs1, imm });
        let (rd, rs1) = (reg(0), reg(0));
        refuse(&rt, &Instr::Fence { rd, rs1, imm });
    }
}

#[test]
fn immediates_outside_their_forms(rt: HostRuntime) {
    for (op, imm) in [
        (ImmOp::Slli, 64),
        (ImmOp::Srli, -1),
        (ImmOp::Srai, 64),
        (ImmOp::Slliw, 32),
        (ImmOp::Srliw, 32),
        (ImmOp::Sraiw, -1),
    ] {
        let (rd, rs1) = (reg(1), reg(2));
        refuse(&rt, &Instr::AluImm { op, rd, rs1, imm });
    }
    for imm in [1, 4095, 0x1800, -1] {
        let (op, rd) = (UpperOp::Lui, reg(1));
        refuse(&rt, &Instr::Upper { op, rd, imm });
    }
    for imm in [1, -1, 4096, -4098] {
        let (op, rs1, rs2) = (BranchOp::Beq, reg(1), reg(2));
        refuse(&rt, &Instr::Branch { op, rs1, rs2, imm });
    }
    for imm in [1, -1, 0x10_0000, -0x10_0002] {
        let rd = reg(1);
        refuse(&rt, &Instr::Jal { rd, imm });
    }
}

#[test]
fn registers_keep_what_is_written(rt: HostRuntime) {
    let mut regs = Regs::new();
    regs.set(reg(0), 7);
    regs.set(reg(1), u64::MAX);
    regs.set(reg(31), 31);
    assert_eq!(rt; regs.get(reg(0)), 0);
    assert_eq!(rt; regs.get(reg(1)), u64::MAX);
    assert_eq!(rt; regs.get(reg(2)), 0);
    assert_eq!(rt; regs.get(reg(31)), 31);
}
