// Expected results from outside: the tables are worked out from the manual's text on unbounded
// integers (bench/alu_vectors.py), and the other values stand by the manual's text.

ghost use Rattle.std.specs.Prelude.{◌≡◌, [], Some};
ghost use Rattle.rv64_decode.specs.Area.{why, readable_of};
ghost use Rattle.rv64_decode.specs.XForm.{HasSlot};

use crate::arithmetic::{alu, alu_imm, extended};
use crate::{Decoded, Fault, Next, XNext, exec, exec_decoded, exec_x};
use rv64_decode::{
    AluOp, BranchOp, ImmOp, Instr, LoadOp, MemFault, Reg, Regs, StoreOp, UpperOp, Width, Words,
    XInstr,
};

const EDGES: [u64; 20] = [
    0,
    1,
    2,
    7,
    31,
    63,
    64,
    0x7FFF_FFFF,
    0x8000_0000,
    0x8000_0001,
    0xFFFF_FFFF,
    0x1_0000_0000,
    0x7FFF_FFFF_FFFF_FFFF,
    0x8000_0000_0000_0000,
    0x8000_0000_0000_0001,
    0xFFFF_FFFF_8000_0000,
    0xFFFF_FFFF_FFFF_FFF9,
    0xFFFF_FFFF_FFFF_FFFE,
    0xFFFF_FFFF_FFFF_FFFF,
    0x123_4567_89AB_CDEF,
];

const NUMBERS: [i32; 15] = [
    0, 1, -1, 2, -2, 7, -7, 31, 63, 64, 1365, -1366, 2047, -2047, -2048,
];

const AMOUNTS: [i32; 15] = [0, 1, 2, 7, 15, 16, 30, 31, 32, 33, 47, 48, 61, 62, 63];

const AMOUNTS_W: [i32; 8] = [0, 1, 2, 7, 15, 16, 30, 31];

const ROWS: [(AluOp, u64, u64, u64); 64] = [
    (AluOp::Add, 0xFFFF_FFFF_FFFF_FFFF, 1, 0),
    (AluOp::Add, 0x7FFF_FFFF_FFFF_FFFF, 1, 0x8000_0000_0000_0000),
    (AluOp::Sub, 0, 1, 0xFFFF_FFFF_FFFF_FFFF),
    (AluOp::Sub, 0x8000_0000_0000_0000, 1, 0x7FFF_FFFF_FFFF_FFFF),
    (AluOp::Sll, 1, 63, 0x8000_0000_0000_0000),
    (AluOp::Sll, 3, 65, 6),
    (AluOp::Slt, 0x8000_0000_0000_0000, 0x7FFF_FFFF_FFFF_FFFF, 1),
    (AluOp::Slt, 0, 0xFFFF_FFFF_FFFF_FFFF, 0),
    (AluOp::Sltu, 0x8000_0000_0000_0000, 0x7FFF_FFFF_FFFF_FFFF, 0),
    (AluOp::Sltu, 0, 0xFFFF_FFFF_FFFF_FFFF, 1),
    (
        AluOp::Xor,
        0xFFFF_FFFF_FFFF_FFFF,
        61680,
        0xFFFF_FFFF_FFFF_0F0F,
    ),
    (AluOp::Srl, 0x8000_0000_0000_0000, 63, 1),
    (AluOp::Srl, 0xFFFF_FFFF_FFFF_FFFF, 64, 0xFFFF_FFFF_FFFF_FFFF),
    (AluOp::Sra, 0x8000_0000_0000_0000, 63, 0xFFFF_FFFF_FFFF_FFFF),
    (AluOp::Sra, 0x8000_0000_0000_0000, 64, 0x8000_0000_0000_0000),
    (AluOp::Or, 240, 15, 255),
    (AluOp::And, 0xFFFF_FFFF_FFFF_FFFF, 61680, 61680),
    (AluOp::Addw, 0x7FFF_FFFF, 1, 0xFFFF_FFFF_8000_0000),
    (AluOp::Addw, 0xFFFF_FFFF, 1, 0),
    (AluOp::Subw, 0xFFFF_FFFF_8000_0000, 1, 0x7FFF_FFFF),
    (AluOp::Subw, 0, 0x1_0000_0000, 0),
    (AluOp::Sllw, 1, 31, 0xFFFF_FFFF_8000_0000),
    (AluOp::Sllw, 1, 32, 1),
    (AluOp::Srlw, 0xFFFF_FFFF_FFFF_FFFF, 0, 0xFFFF_FFFF_FFFF_FFFF),
    (AluOp::Srlw, 0xFFFF_FFFF_FFFF_FFFF, 1, 0x7FFF_FFFF),
    (AluOp::Sraw, 0x8000_0000, 31, 0xFFFF_FFFF_FFFF_FFFF),
    (AluOp::Sraw, 0x1_0000_0000, 0, 0),
    (AluOp::Mul, 0x1_0000_0000, 0x1_0000_0000, 0),
    (AluOp::Mul, 0xFFFF_FFFF_FFFF_FFFF, 0xFFFF_FFFF_FFFF_FFFF, 1),
    (AluOp::Mulh, 0xFFFF_FFFF_FFFF_FFFF, 0xFFFF_FFFF_FFFF_FFFF, 0),
    (
        AluOp::Mulh,
        0x8000_0000_0000_0000,
        0x8000_0000_0000_0000,
        0x4000_0000_0000_0000,
    ),
    (AluOp::Mulh, 0x8000_0000_0000_0000, 1, 0xFFFF_FFFF_FFFF_FFFF),
    (
        AluOp::Mulhsu,
        0xFFFF_FFFF_FFFF_FFFF,
        0xFFFF_FFFF_FFFF_FFFF,
        0xFFFF_FFFF_FFFF_FFFF,
    ),
    (
        AluOp::Mulhsu,
        0x8000_0000_0000_0000,
        0xFFFF_FFFF_FFFF_FFFF,
        0x8000_0000_0000_0000,
    ),
    (AluOp::Mulhsu, 1, 0xFFFF_FFFF_FFFF_FFFF, 0),
    (
        AluOp::Mulhu,
        0xFFFF_FFFF_FFFF_FFFF,
        0xFFFF_FFFF_FFFF_FFFF,
        0xFFFF_FFFF_FFFF_FFFE,
    ),
    (AluOp::Mulhu, 0x8000_0000_0000_0000, 2, 1),
    (AluOp::Div, 7, 0, 0xFFFF_FFFF_FFFF_FFFF),
    (
        AluOp::Div,
        0x8000_0000_0000_0000,
        0xFFFF_FFFF_FFFF_FFFF,
        0x8000_0000_0000_0000,
    ),
    (AluOp::Div, 0xFFFF_FFFF_FFFF_FFF9, 2, 0xFFFF_FFFF_FFFF_FFFD),
    (AluOp::Div, 7, 0xFFFF_FFFF_FFFF_FFFE, 0xFFFF_FFFF_FFFF_FFFD),
    (AluOp::Divu, 0x8000_0000_0000_0000, 0, 0xFFFF_FFFF_FFFF_FFFF),
    (AluOp::Divu, 0xFFFF_FFFF_FFFF_FFFF, 2, 0x7FFF_FFFF_FFFF_FFFF),
    (AluOp::Rem, 0xFFFF_FFFF_FFFF_FFF9, 0, 0xFFFF_FFFF_FFFF_FFF9),
    (AluOp::Rem, 0x8000_0000_0000_0000, 0xFFFF_FFFF_FFFF_FFFF, 0),
    (AluOp::Rem, 0xFFFF_FFFF_FFFF_FFF9, 2, 0xFFFF_FFFF_FFFF_FFFF),
    (AluOp::Rem, 7, 0xFFFF_FFFF_FFFF_FFFE, 1),
    (AluOp::Remu, 7, 0, 7),
    (AluOp::Remu, 0xFFFF_FFFF_FFFF_FFFF, 10, 5),
    (AluOp::Mulw, 0x8000_0000, 2, 0),
    (AluOp::Mulw, 65535, 0x1_0001, 0xFFFF_FFFF_FFFF_FFFF),
    (AluOp::Divw, 7, 0x1_0000_0000, 0xFFFF_FFFF_FFFF_FFFF),
    (AluOp::Divw, 0x8000_0000, 0xFFFF_FFFF, 0xFFFF_FFFF_8000_0000),
    (AluOp::Divw, 0xFFFF_FFFF_FFFF_FFF9, 2, 0xFFFF_FFFF_FFFF_FFFD),
    (AluOp::Divuw, 1, 0, 0xFFFF_FFFF_FFFF_FFFF),
    (AluOp::Divuw, 0xFFFF_FFFF, 1, 0xFFFF_FFFF_FFFF_FFFF),
    (AluOp::Divuw, 0xFFFF_FFFF_FFFF_FFFF, 2, 0x7FFF_FFFF),
    (AluOp::Remw, 0x8000_0000, 0, 0xFFFF_FFFF_8000_0000),
    (AluOp::Remw, 0x8000_0000, 0xFFFF_FFFF_FFFF_FFFF, 0),
    (AluOp::Remw, 0xFFFF_FFFF_FFFF_FFF9, 2, 0xFFFF_FFFF_FFFF_FFFF),
    (AluOp::Remw, 7, 0xFFFF_FFFF_FFFF_FFFE, 1),
    (AluOp::Remuw, 0x8000_0000, 0, 0xFFFF_FFFF_8000_0000),
    (AluOp::Remuw, 0xFFFF_FFFF, 0x8000_0000, 0x7FFF_FFFF),
    (AluOp::Remuw, 0xFFFF_FFFF_FFFF_FFFF, 10, 5),
];

const DIGESTS: [(AluOp, u64); 28] = [
    (AluOp::Add, 0xFA83_E890_3CCF_250A),
    (AluOp::Sub, 0x846D_163E_6B0E_55C2),
    (AluOp::Sll, 0x5423_A5BF_CFD6_014B),
    (AluOp::Slt, 0xB94C_E0BF_89AE_90A4),
    (AluOp::Sltu, 0x9000_06E9_5567_8667),
    (AluOp::Xor, 0xA858_A816_3C3D_1725),
    (AluOp::Srl, 0x21F3_7182_A84F_344D),
    (AluOp::Sra, 0xBD2B_1972_FDE8_0055),
    (AluOp::Or, 0xB361_674C_3595_D613),
    (AluOp::And, 0x3952_AFE8_E627_B075),
    (AluOp::Addw, 0x5078_C7E5_CC76_3E6C),
    (AluOp::Subw, 0x7842_B913_D852_7BEE),
    (AluOp::Sllw, 0x3819_5628_FEDD_4069),
    (AluOp::Srlw, 0x729F_ADC2_7DFC_ED13),
    (AluOp::Sraw, 0xA106_EBF7_3A26_41B9),
    (AluOp::Mul, 0xD32_AC58_3F71_00C0),
    (AluOp::Mulh, 0x71C4_FD13_92F7_5106),
    (AluOp::Mulhsu, 0xB102_962A_05D1_AB83),
    (AluOp::Mulhu, 0x97D2_B63C_F832_8B2E),
    (AluOp::Div, 0x3772_B6EE_EBEB_9288),
    (AluOp::Divu, 0x510D_2484_DAB8_6DB4),
    (AluOp::Rem, 0x62D8_FF4B_897F_C0BB),
    (AluOp::Remu, 0x3277_E196_3469_6CA9),
    (AluOp::Mulw, 0xBCA0_D3FA_13D1_7D2D),
    (AluOp::Divw, 0x5C77_6C1A_4DC6_1D44),
    (AluOp::Divuw, 0x23E7_29A1_CC51_85AA),
    (AluOp::Remw, 0xDCB_950A_4173_74F1),
    (AluOp::Remuw, 0xAC16_2FA0_415F_68A9),
];

const NUMBER_DIGESTS: [(ImmOp, u64); 7] = [
    (ImmOp::Addi, 0xD5F1_6870_FDD2_3E79),
    (ImmOp::Slti, 0x56F4_FAA8_79B9_7E33),
    (ImmOp::Xori, 0x5950_337B_4742_9272),
    (ImmOp::Ori, 0x553_115D_D6B1_3F34),
    (ImmOp::Andi, 0xD90F_1D11_9567_2009),
    (ImmOp::Sltiu, 0xD881_A7AE_0CE8_8C4C),
    (ImmOp::Addiw, 0xBC44_C968_FBAB_B2F3),
];

const AMOUNT_DIGESTS: [(ImmOp, u64); 3] = [
    (ImmOp::Slli, 0x5A87_8C14_8350_D632),
    (ImmOp::Srli, 0x3BF3_B355_C967_5CE4),
    (ImmOp::Srai, 0x5FB1_D0FF_D541_4B95),
];

const AMOUNT_W_DIGESTS: [(ImmOp, u64); 3] = [
    (ImmOp::Slliw, 0x19D_363B_628F_7D55),
    (ImmOp::Srliw, 0x75A_8AFC_B52C_E70D),
    (ImmOp::Sraiw, 0x759A_2EAA_5A74_B1D6),
];

// One more result in a digest: a turn, a sum without carries and a product, each of which can be
// undone, so that one wrong result changes the digest.
fn folded(digest: u64, word: u64) -> u64 {
    (digest.rotate_left(5) ^ word).wrapping_mul(0x517C_C1B7_2722_0A95)
}

fn digest_of(op: AluOp) -> u64 {
    let mut digest = 0;
    for a in EDGES {
        for b in EDGES {
            digest = folded(digest, alu(op, a, b));
        }
    }
    digest
}

fn digest_with(op: ImmOp, immediates: &[i32]) -> u64 {
    let mut digest = 0;
    for a in EDGES {
        for imm in immediates {
            digest = folded(digest, alu_imm(op, a, *imm));
        }
    }
    digest
}

#[test]
fn operations_on_two_words(rt: HostRuntime) {
    for (op, a, b, want) in ROWS {
        assert_eq!(rt; alu(op, a, b), want, "{op:?} of {a:x} and {b:x}");
    }
    for (op, want) in DIGESTS {
        assert_eq!(rt; digest_of(op), want, "{op:?} at the edges");
    }
}

#[test]
fn operations_on_a_word_and_an_immediate(rt: HostRuntime) {
    for (op, want) in NUMBER_DIGESTS {
        assert_eq!(rt; digest_with(op, &NUMBERS), want, "{op:?} at the edges");
    }
    for (op, want) in AMOUNT_DIGESTS {
        assert_eq!(rt; digest_with(op, &AMOUNTS), want, "{op:?} at the edges");
    }
    for (op, want) in AMOUNT_W_DIGESTS {
        assert_eq!(rt; digest_with(op, &AMOUNTS_W), want, "{op:?} at the edges");
    }
}

#[test]
fn loads_extend_their_number(rt: HostRuntime) {
    assert_eq!(rt; extended(LoadOp::Lb, 0x7F), 0x7F);
    assert_eq!(rt; extended(LoadOp::Lb, 0x80), 0xFFFF_FFFF_FFFF_FF80);
    assert_eq!(rt; extended(LoadOp::Lbu, 0x80), 0x80);
    assert_eq!(rt; extended(LoadOp::Lh, 0x7FFF), 0x7FFF);
    assert_eq!(rt; extended(LoadOp::Lh, 0x8000), 0xFFFF_FFFF_FFFF_8000);
    assert_eq!(rt; extended(LoadOp::Lhu, 0x8000), 0x8000);
    assert_eq!(rt; extended(LoadOp::Lw, 0x7FFF_FFFF), 0x7FFF_FFFF);
    assert_eq!(rt; extended(LoadOp::Lw, 0x8000_0000), 0xFFFF_FFFF_8000_0000);
    assert_eq!(rt; extended(LoadOp::Lwu, 0x8000_0000), 0x8000_0000);
    assert_eq!(rt; extended(LoadOp::Ld, u64::MAX), u64::MAX);
}

// A memory without an area.
#[derive(Drop)]
struct Nowhere;

impl Nowhere {
    fn why(&self, addr: u64, width: Width) -> MemFault
        ensures { Some result ≡ why readable_of [] addr width }
    {
        if addr % width.bytes() == 0 {
            MemFault::Unmapped
        } else {
            MemFault::Misaligned
        }
    }
}

impl Words for Nowhere {
    ghost memory = { λ _. [] };

    ghost allows = { λ _ _. Unit {0} };

    ghost moves = { λ _ _ _. Unit {0} };

    ghost stays = { λ _. tt };

    fn load(&mut self, addr: u64, width: Width) -> Result<u64, MemFault> {
        Err(self.why(addr, width))
    }

    fn store(&mut self, addr: u64, width: Width, _value: u64) -> Result<(), MemFault> {
        Err(self.why(addr, width))
    }
}

const PC: u64 = 0x10_0000;

fn reg(number: u8) -> Reg {
    Reg::new(number % 32)
}

// x1 is -1, x2 is 2, and any other register is 0.
fn registers() -> Regs {
    let mut regs = Regs::new();
    regs.set(reg(1), u64::MAX);
    regs.set(reg(2), 2);
    regs
}

fn at(pc: u64, i: &Instr, regs: &mut Regs) -> Next {
    exec(*i, pc, regs, &mut Nowhere)
}

fn misaligned(addr: u64) -> Next {
    let kind = Fault::Target;
    Next::Fault { kind, addr }
}

#[test]
fn the_next_instruction_follows(rt: HostRuntime) {
    let mut regs = registers();
    let (op, rd, rs1, imm) = (ImmOp::Addi, reg(5), reg(2), -3);
    let next = at(u64::MAX - 3, &Instr::AluImm { op, rd, rs1, imm }, &mut regs);
    assert_eq!(rt; next, Next::At(0));
    assert_eq!(rt; regs.get(reg(5)), u64::MAX);
    let (rd, rs1) = (reg(5), reg(1));
    let next = at(PC, &Instr::Fence { rd, rs1, imm }, &mut regs);
    assert_eq!(rt; next, Next::At(PC + 4));
    assert_eq!(rt; regs.get(reg(5)), u64::MAX);
}

#[test]
fn decoded_instructions_are_executed(rt: HostRuntime) {
    let mut regs = registers();
    let (op, rd, rs1, rs2) = (AluOp::Add, reg(5), reg(1), reg(2));
    let add = Decoded::new(Instr::Alu { op, rd, rs1, rs2 });
    let next = exec_decoded(&add, PC, &mut regs, &mut Nowhere);
    assert_eq!(rt; next, Next::At(PC + 4));
    assert_eq!(rt; regs.get(reg(5)), 1);
}

#[test]
fn upper_immediates(rt: HostRuntime) {
    let mut regs = registers();
    let (op, rd, imm) = (UpperOp::Lui, reg(5), i32::MIN);
    at(PC, &Instr::Upper { op, rd, imm }, &mut regs);
    assert_eq!(rt; regs.get(reg(5)), 0xFFFF_FFFF_8000_0000);
    let (op, rd, imm) = (UpperOp::Auipc, reg(6), -0x20_0000);
    at(PC, &Instr::Upper { op, rd, imm }, &mut regs);
    assert_eq!(rt; regs.get(reg(6)), 0xFFFF_FFFF_FFF0_0000);
}

#[test]
fn x0_stays_zero(rt: HostRuntime) {
    let mut regs = registers();
    let (op, rd, rs1, imm) = (ImmOp::Addi, reg(0), reg(2), 1);
    at(PC, &Instr::AluImm { op, rd, rs1, imm }, &mut regs);
    assert_eq!(rt; regs.get(reg(0)), 0);
    let (rd, imm) = (reg(0), 8);
    let next = at(PC, &Instr::Jal { rd, imm }, &mut regs);
    assert_eq!(rt; next, Next::At(PC + 8));
    assert_eq!(rt; regs.get(reg(0)), 0);
}

#[test]
fn branches_compare_whole_registers(rt: HostRuntime) {
    for (op, first, second, goes) in [
        (BranchOp::Beq, 1, 1, true),
        (BranchOp::Beq, 1, 2, false),
        (BranchOp::Bne, 1, 2, true),
        (BranchOp::Bne, 2, 2, false),
        (BranchOp::Blt, 1, 2, true),
        (BranchOp::Blt, 2, 1, false),
        (BranchOp::Blt, 2, 2, false),
        (BranchOp::Bge, 1, 2, false),
        (BranchOp::Bge, 2, 1, true),
        (BranchOp::Bge, 2, 2, true),
        (BranchOp::Bltu, 1, 2, false),
        (BranchOp::Bltu, 2, 1, true),
        (BranchOp::Bltu, 2, 2, false),
        (BranchOp::Bgeu, 1, 2, true),
        (BranchOp::Bgeu, 2, 1, false),
        (BranchOp::Bgeu, 2, 2, true),
    ] {
        let (rs1, rs2, imm) = (reg(first), reg(second), -16);
        let next = at(PC, &Instr::Branch { op, rs1, rs2, imm }, &mut registers());
        let want = if goes { PC - 16 } else { PC + 4 };
        assert_eq!(rt; next, Next::At(want), "{op:?} of x{first} and x{second}");
    }
}

#[test]
fn jumps_leave_the_address_after_them(rt: HostRuntime) {
    let mut regs = registers();
    let (rd, imm) = (reg(3), -0x10_0000);
    assert_eq!(rt; at(PC, &Instr::Jal { rd, imm }, &mut regs), Next::At(0));
    assert_eq!(rt; regs.get(reg(3)), PC + 4);

    // rs1 is read before rd is written, and bit 0 of the sum is cleared
    regs.set(reg(5), 0x2001);
    let (rd, rs1, imm) = (reg(5), reg(5), -4);
    assert_eq!(rt;
        at(PC, &Instr::Jalr { rd, rs1, imm }, &mut regs),
        Next::At(0x1FFC)
    );
    assert_eq!(rt; regs.get(reg(5)), PC + 4);
}

#[test]
fn targets_are_multiples_of_four(rt: HostRuntime) {
    let mut regs = registers();
    let (rd, imm) = (reg(3), 2);
    assert_eq!(rt;
        at(PC, &Instr::Jal { rd, imm }, &mut regs),
        misaligned(PC + 2)
    );
    let (rd, rs1, imm) = (reg(3), reg(2), 1);
    assert_eq!(rt;
        at(PC, &Instr::Jalr { rd, rs1, imm }, &mut regs),
        misaligned(2)
    );
    assert_eq!(rt; regs.get(reg(3)), 0);
    let (op, rs1, rs2, imm) = (BranchOp::Beq, reg(2), reg(2), -2);
    assert_eq!(rt;
        at(PC, &Instr::Branch { op, rs1, rs2, imm }, &mut regs),
        misaligned(PC - 2)
    );
    let (op, rs1, rs2, imm) = (BranchOp::Bne, reg(2), reg(2), -2);
    assert_eq!(rt;
        at(PC, &Instr::Branch { op, rs1, rs2, imm }, &mut regs),
        Next::At(PC + 4)
    );
}

#[test]
fn refused_accesses_and_calls(rt: HostRuntime) {
    let mut regs = registers();
    let (op, rd, rs1, imm) = (LoadOp::Lw, reg(2), reg(2), 2);
    let next = at(PC, &Instr::Load { op, rd, rs1, imm }, &mut regs);
    let kind = Fault::Load(MemFault::Unmapped);
    assert_eq!(rt; next, Next::Fault { kind, addr: 4 });
    assert_eq!(rt; regs.get(reg(2)), 2);
    let (op, rs1, rs2, imm) = (StoreOp::Sd, reg(2), reg(1), 2);
    let next = at(PC, &Instr::Store { op, rs1, rs2, imm }, &mut regs);
    let kind = Fault::Store(MemFault::Misaligned);
    assert_eq!(rt; next, Next::Fault { kind, addr: 4 });
    assert_eq!(rt; at(PC, &Instr::Ecall, &mut regs), Next::Call);
    let kind = Fault::Break;
    assert_eq!(rt;
        at(PC, &Instr::Ebreak, &mut regs),
        Next::Fault { kind, addr: PC }
    );
}

// On hart 2 of 5.
fn added_at(pc: u64, i: &XInstr, regs: &mut Regs, slots: &mut [u64; 32]) -> XNext
    requires { HasSlot i.now }
{
    exec_x(*i, pc, regs, slots, 2, 5, &mut Nowhere)
}

#[test]
fn added_instructions_of_one_hart(rt: HostRuntime) {
    let next = XNext::Own(Next::At(PC + 4));
    let mut regs = registers();
    let mut slots = [7; 32];
    let put = XInstr::Put {
        slot: 31,
        rs1: reg(2),
    };
    assert_eq!(rt; added_at(PC, &put, &mut regs, &mut slots), next);
    assert_eq!(rt; slots[31], 2);
    assert_eq!(rt; slots[30], 7);
    let get = XInstr::Get {
        rd: reg(5),
        slot: 31,
    };
    assert_eq!(rt; added_at(PC, &get, &mut regs, &mut slots), next);
    assert_eq!(rt; regs.get(reg(5)), 2);
    let id = XInstr::Id { rd: reg(5) };
    slots[31] = 9;
    assert_eq!(rt;
        added_at(u64::MAX - 3, &id, &mut regs, &mut slots),
        XNext::Own(Next::At(0))
    );
    assert_eq!(rt; regs.get(reg(5)), 2);
    let harts = XInstr::Harts { rd: reg(6) };
    assert_eq!(rt; added_at(PC, &harts, &mut regs, &mut slots), next);
    assert_eq!(rt; regs.get(reg(6)), 5);
    let none = XInstr::Harts { rd: reg(0) };
    assert_eq!(rt; added_at(PC, &none, &mut regs, &mut slots), next);
    assert_eq!(rt; regs.get(reg(0)), 0);
}

#[test]
fn base_instructions_of_added_code(rt: HostRuntime) {
    let mut regs = registers();
    let mut slots = [7; 32];
    let (op, rd, rs1, imm) = (ImmOp::Addi, reg(5), reg(2), -3);
    let add = XInstr::Base(Instr::AluImm { op, rd, rs1, imm });
    let next = added_at(PC, &add, &mut regs, &mut slots);
    assert_eq!(rt; next, XNext::Own(Next::At(PC + 4)));
    assert_eq!(rt; regs.get(reg(5)), u64::MAX);
    let ecall = XInstr::Base(Instr::Ecall);
    let next = added_at(PC, &ecall, &mut regs, &mut slots);
    assert_eq!(rt; next, XNext::Own(Next::Call));
    let (op, rd, rs1, imm) = (LoadOp::Lw, reg(2), reg(2), 2);
    let load = XInstr::Base(Instr::Load { op, rd, rs1, imm });
    let kind = Fault::Load(MemFault::Unmapped);
    let next = added_at(PC, &load, &mut regs, &mut slots);
    assert_eq!(rt; next, XNext::Own(Next::Fault { kind, addr: 4 }));
    assert_eq!(rt; slots, [7; 32]);
}

#[test]
fn instructions_of_several_harts_change_nothing(rt: HostRuntime) {
    for i in [XInstr::Par, XInstr::Join, XInstr::Back] {
        let mut regs = registers();
        let mut slots = [7; 32];
        assert_eq!(rt;
            added_at(PC, &i, &mut regs, &mut slots),
            XNext::Shared,
            "of {i:?}"
        );
        assert_eq!(rt; regs, registers());
        assert_eq!(rt; slots, [7; 32]);
    }
}
