ghost use Rattle.std.specs.Prelude.{◌≡◌, ℕ, List, Ok};
ghost use Rattle.rv64_decode.specs.Ask.{after, IsAllowed};
ghost use Rattle.rv64_decode.specs.Registers.{register, with_register};
ghost use Rattle.rv64_decode.specs.Row.{alu as alu_of, alu_imm as alu_imm_of, upper as upper_of, asks, outcome, row, jump as jump_of, next_pc, IsStop};
ghost use Rattle.rv64_decode.specs.declared.outcome.Next.TheVariants.{At};
ghost use Rattle.rv64_meaning.specs.Executes.{Executes};
ghost use Rattle.rv64_meaning.specs.Mnemonics.{instr_of};

use crate::arithmetic::{alu, alu_imm, extended, plus_offset, taken, upper};
use crate::decoded::Decoded;
use crate::mnemonic::Mnemonic;
use rv64_decode::{
    AluOp, BranchOp, Fault, ImmOp, Instr, LoadOp, Next, Reg, Regs, StoreOp, UpperOp, Words,
};

// A taken branch.
fn branch_to(target: u64) -> Next
    ensures { (regs : List ℕ) → result ≡ (jump_of target regs regs).next }
{
    if target % 4 == 0 {
        Next::At(target)
    } else {
        Next::Fault {
            kind: Fault::Target,
            addr: target,
        }
    }
}

// A jump, which leaves the address after it in `rd`.
fn jump(target: u64, rd: Reg, pc: u64, regs: &mut Regs) -> Next
    ensures next { result ≡ (jump_of target regs.old (with_register regs.old rd (next_pc pc))).next }
    ensures registers { regs.new ≡ (jump_of target regs.old (with_register regs.old rd (next_pc pc))).regs }
    ensures stop { IsStop result → regs.new ≡ regs.old }
{
    if target % 4 != 0 {
        return Next::Fault {
            kind: Fault::Target,
            addr: target,
        };
    }
    regs.set(rd, pc.wrapping_add(4));
    Next::At(target)
}

// A load of the number at `rs1` plus the immediate.
#[inline(always)]
fn load<W: Words>(op: LoadOp, d: &Decoded, pc: u64, regs: &mut Regs, mem: &mut W) -> Next
    requires { W.allows mem.old (asks (Instr.Load op d.now.rd d.now.rs1 d.now.imm) regs.old) }
    ensures does { Executes (Instr.Load op d.now.rd d.now.rs1 d.now.imm) pc regs.old (W.memory mem.old)
        result regs.new (W.memory mem.new) }
    ensures moves { W.moves mem.old (asks (Instr.Load op d.now.rd d.now.rs1 d.now.imm) regs.old) mem.new }
{
    let addr = plus_offset(regs.get(d.rs1), d.imm);
    match mem.load(addr, op.width()) {
        Ok(n) => {
            regs.set(d.rd, extended(op, n));
            Next::At(pc.wrapping_add(4))
        }
        Err(why) => Next::Fault {
            kind: Fault::Load(why),
            addr,
        },
    }
}

// A store of the low bytes of `rs2`, at the same.
#[inline(always)]
fn store<W: Words>(op: StoreOp, d: &Decoded, pc: u64, regs: &Regs, mem: &mut W) -> Next
    requires { W.allows mem.old (asks (Instr.Store op d.now.rs1 d.now.rs2 d.now.imm) regs.now) }
    ensures does { Executes (Instr.Store op d.now.rs1 d.now.rs2 d.now.imm) pc regs.now (W.memory mem.old)
        result regs.now (W.memory mem.new) }
    ensures moves { W.moves mem.old (asks (Instr.Store op d.now.rs1 d.now.rs2 d.now.imm) regs.now) mem.new }
{
    let addr = plus_offset(regs.get(d.rs1), d.imm);
    match mem.store(addr, op.width(), regs.get(d.rs2)) {
        Ok(()) => Next::At(pc.wrapping_add(4)),
        Err(why) => Next::Fault {
            kind: Fault::Store(why),
            addr,
        },
    }
}

// An operation on two registers.
#[inline(always)]
fn operate(op: AluOp, d: &Decoded, pc: u64, regs: &mut Regs) -> Next
    ensures next { result ≡ At (next_pc pc) }
    ensures registers { regs.new ≡ with_register regs.old d.now.rd
        (alu_of op (register regs.old d.now.rs1) (register regs.old d.now.rs2)) }
{
    regs.set(d.rd, alu(op, regs.get(d.rs1), regs.get(d.rs2)));
    Next::At(pc.wrapping_add(4))
}

// An operation on a register and an immediate.
#[inline(always)]
fn operate_imm(op: ImmOp, d: &Decoded, pc: u64, regs: &mut Regs) -> Next
    ensures next { result ≡ At (next_pc pc) }
    ensures registers { regs.new ≡ with_register regs.old d.now.rd
        (alu_imm_of op (register regs.old d.now.rs1) d.now.imm) }
{
    regs.set(d.rd, alu_imm(op, regs.get(d.rs1), d.imm));
    Next::At(pc.wrapping_add(4))
}

// An upper immediate.
#[inline(always)]
fn set_upper(op: UpperOp, d: &Decoded, pc: u64, regs: &mut Regs) -> Next
    ensures next { result ≡ At (next_pc pc) }
    ensures registers { regs.new ≡ with_register regs.old d.now.rd (upper_of op pc d.now.imm) }
{
    regs.set(d.rd, upper(op, pc, d.imm));
    Next::At(pc.wrapping_add(4))
}

// A branch, by whether its comparison holds.
#[inline(always)]
fn branch(op: BranchOp, d: &Decoded, pc: u64, regs: &Regs) -> Next
    ensures { result ≡ (row (Instr.Branch op d.now.rs1 d.now.rs2 d.now.imm) pc regs.now (Ok 0)).next }
{
    if taken(op, regs.get(d.rs1), regs.get(d.rs2)) {
        branch_to(plus_offset(pc, d.imm))
    } else {
        Next::At(pc.wrapping_add(4))
    }
}

// A jump to an address that a register has.
#[inline(always)]
fn jump_to_register(d: &Decoded, pc: u64, regs: &mut Regs) -> Next
    ensures next { result ≡ (row (Instr.Jalr d.now.rd d.now.rs1 d.now.imm) pc regs.old (Ok 0)).next }
    ensures registers { regs.new ≡ (row (Instr.Jalr d.now.rd d.now.rs1 d.now.imm) pc regs.old (Ok 0)).regs }
    ensures stop { IsStop result → regs.new ≡ regs.old }
{
    let sum = plus_offset(regs.get(d.rs1), d.imm);
    jump(sum - sum % 2, d.rd, pc, regs)
}

/// Executes one decoded instruction at the address `pc`, as [`exec`] does. All mnemonics are in one match,
/// so that one jump finds what is to be done.
#[inline(always)]
pub fn exec_decoded<W: Words>(d: &Decoded, pc: u64, regs: &mut Regs, mem: &mut W) -> Next
    requires { IsAllowed (W.allows mem.old) (asks (instr_of d.now) regs.old) }
    ensures next { result ≡ (outcome (instr_of d.now) pc regs.old (W.memory mem.old)).next }
    ensures registers { regs.new ≡ (outcome (instr_of d.now) pc regs.old (W.memory mem.old)).regs }
    ensures memory { W.memory mem.new ≡ after (W.memory mem.old) (asks (instr_of d.now) regs.old) }
    ensures moves { W.moves mem.old (asks (instr_of d.now) regs.old) mem.new }

    // Where the run does not go on by the instruction alone, nothing has changed.
    ensures stop_registers { IsStop result → regs.new ≡ regs.old }
    ensures stop_memory { IsStop result → W.memory mem.new ≡ W.memory mem.old }
{
    match d.mnemonic {
        Mnemonic::Add => operate(AluOp::Add, d, pc, regs),
        Mnemonic::Sub => operate(AluOp::Sub, d, pc, regs),
        Mnemonic::Sll => operate(AluOp::Sll, d, pc, regs),
        Mnemonic::Slt => operate(AluOp::Slt, d, pc, regs),
        Mnemonic::Sltu => operate(AluOp::Sltu, d, pc, regs),
        Mnemonic::Xor => operate(AluOp::Xor, d, pc, regs),
        Mnemonic::Srl => operate(AluOp::Srl, d, pc, regs),
        Mnemonic::Sra => operate(AluOp::Sra, d, pc, regs),
        Mnemonic::Or => operate(AluOp::Or, d, pc, regs),
        Mnemonic::And => operate(AluOp::And, d, pc, regs),
        Mnemonic::Addw => operate(AluOp::Addw, d, pc, regs),
        Mnemonic::Subw => operate(AluOp::Subw, d, pc, regs),
        Mnemonic::Sllw => operate(AluOp::Sllw, d, pc, regs),
        Mnemonic::Srlw => operate(AluOp::Srlw, d, pc, regs),
        Mnemonic::Sraw => operate(AluOp::Sraw, d, pc, regs),
        Mnemonic::Mul => operate(AluOp::Mul, d, pc, regs),
        Mnemonic::Mulh => operate(AluOp::Mulh, d, pc, regs),
        Mnemonic::Mulhsu => operate(AluOp::Mulhsu, d, pc, regs),
        Mnemonic::Mulhu => operate(AluOp::Mulhu, d, pc, regs),
        Mnemonic::Div => operate(AluOp::Div, d, pc, regs),
        Mnemonic::Divu => operate(AluOp::Divu, d, pc, regs),
        Mnemonic::Rem => operate(AluOp::Rem, d, pc, regs),
        Mnemonic::Remu => operate(AluOp::Remu, d, pc, regs),
        Mnemonic::Mulw => operate(AluOp::Mulw, d, pc, regs),
        Mnemonic::Divw => operate(AluOp::Divw, d, pc, regs),
        Mnemonic::Divuw => operate(AluOp::Divuw, d, pc, regs),
        Mnemonic::Remw => operate(AluOp::Remw, d, pc, regs),
        Mnemonic::Remuw => operate(AluOp::Remuw, d, pc, regs),
        Mnemonic::Addi => operate_imm(ImmOp::Addi, d, pc, regs),
        Mnemonic::Slti => operate_imm(ImmOp::Slti, d, pc, regs),
        Mnemonic::Sltiu => operate_imm(ImmOp::Sltiu, d, pc, regs),
        Mnemonic::Xori => operate_imm(ImmOp::Xori, d, pc, regs),
        Mnemonic::Ori => operate_imm(ImmOp::Ori, d, pc, regs),
        Mnemonic::Andi => operate_imm(ImmOp::Andi, d, pc, regs),
        Mnemonic::Slli => operate_imm(ImmOp::Slli, d, pc, regs),
        Mnemonic::Srli => operate_imm(ImmOp::Srli, d, pc, regs),
        Mnemonic::Srai => operate_imm(ImmOp::Srai, d, pc, regs),
        Mnemonic::Addiw => operate_imm(ImmOp::Addiw, d, pc, regs),
        Mnemonic::Slliw => operate_imm(ImmOp::Slliw, d, pc, regs),
        Mnemonic::Srliw => operate_imm(ImmOp::Srliw, d, pc, regs),
        Mnemonic::Sraiw => operate_imm(ImmOp::Sraiw, d, pc, regs),
        Mnemonic::Lui => set_upper(UpperOp::Lui, d, pc, regs),
        Mnemonic::Auipc => set_upper(UpperOp::Auipc, d, pc, regs),
        Mnemonic::Lb => load(LoadOp::Lb, d, pc, regs, mem),
        Mnemonic::Lh => load(LoadOp::Lh, d, pc, regs, mem),
        Mnemonic::Lw => load(LoadOp::Lw, d, pc, regs, mem),
        Mnemonic::Lbu => load(LoadOp::Lbu, d, pc, regs, mem),
        Mnemonic::Lhu => load(LoadOp::Lhu, d, pc, regs, mem),
        Mnemonic::Lwu => load(LoadOp::Lwu, d, pc, regs, mem),
        Mnemonic::Ld => load(LoadOp::Ld, d, pc, regs, mem),
        Mnemonic::Sb => store(StoreOp::Sb, d, pc, regs, mem),
        Mnemonic::Sh => store(StoreOp::Sh, d, pc, regs, mem),
        Mnemonic::Sw => store(StoreOp::Sw, d, pc, regs, mem),
        Mnemonic::Sd => store(StoreOp::Sd, d, pc, regs, mem),
        Mnemonic::Beq => branch(BranchOp::Beq, d, pc, regs),
        Mnemonic::Bne => branch(BranchOp::Bne, d, pc, regs),
        Mnemonic::Blt => branch(BranchOp::Blt, d, pc, regs),
        Mnemonic::Bge => branch(BranchOp::Bge, d, pc, regs),
        Mnemonic::Bltu => branch(BranchOp::Bltu, d, pc, regs),
        Mnemonic::Bgeu => branch(BranchOp::Bgeu, d, pc, regs),
        Mnemonic::Jal => jump(plus_offset(pc, d.imm), d.rd, pc, regs),
        Mnemonic::Jalr => jump_to_register(d, pc, regs),
        Mnemonic::Fence => Next::At(pc.wrapping_add(4)),
        Mnemonic::Ecall => Next::Call,
        Mnemonic::Ebreak => Next::Fault {
            kind: Fault::Break,
            addr: pc,
        },
    }
}

/// Executes one instruction at the address `pc` (RISC-V unprivileged manual, RV64I and M). `ecall` is
/// left to the caller. An instruction that loads or stores may be executed where its access may be
/// asked of the memory, and any other always.
pub fn exec<W: Words>(i: Instr, pc: u64, regs: &mut Regs, mem: &mut W) -> Next
    requires { IsAllowed (W.allows mem.old) (asks i regs.old) }
    ensures next { result ≡ (outcome i pc regs.old (W.memory mem.old)).next }
    ensures registers { regs.new ≡ (outcome i pc regs.old (W.memory mem.old)).regs }
    ensures memory { W.memory mem.new ≡ after (W.memory mem.old) (asks i regs.old) }
    ensures moves { W.moves mem.old (asks i regs.old) mem.new }

    // Where the run does not go on by the instruction alone, nothing has changed.
    ensures stop_registers { IsStop result → regs.new ≡ regs.old }
    ensures stop_memory { IsStop result → W.memory mem.new ≡ W.memory mem.old }
{
    exec_decoded(&Decoded::new(i), pc, regs, mem)
}
