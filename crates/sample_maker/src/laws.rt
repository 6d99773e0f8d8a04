ghost use Rattle.rv64_decode.specs.Table.{Means};
ghost use Rattle.rv64_decode.specs.declared.instr.AluOp.{AluOp};
ghost use Rattle.rv64_decode.specs.declared.instr.BranchOp.{BranchOp};
ghost use Rattle.rv64_decode.specs.declared.instr.ImmOp.{ImmOp};
ghost use Rattle.rv64_decode.specs.declared.instr.Instr.{Instr};
ghost use Rattle.rv64_decode.specs.declared.instr.LoadOp.{LoadOp};
ghost use Rattle.rv64_decode.specs.declared.instr.StoreOp.{StoreOp};
ghost use Rattle.sample_maker.specs.Assembly.{add, sub, addi, addiw, xori, ld, lbu, sd, sb, bne, lui, ecall};
ghost use Rattle.sample_maker.specs.Meanings.{MeanAlu, MeanImm, MeanLoad, MeanStore, MeanBranch, MeanLui, NearestAndLow, NearestFits, LowFits};

/// The words of which the programs are made mean the instructions that they are named for.
pub fn words_mean_instructions()
    ensures add { MeanAlu add AluOp.Add }
    ensures sub { MeanAlu sub AluOp.Sub }
    ensures addi { MeanImm addi ImmOp.Addi }
    ensures addiw { MeanImm addiw ImmOp.Addiw }
    ensures xori { MeanImm xori ImmOp.Xori }
    ensures ld { MeanLoad ld LoadOp.Ld }
    ensures lbu { MeanLoad lbu LoadOp.Lbu }
    ensures sd { MeanStore sd StoreOp.Sd }
    ensures sb { MeanStore sb StoreOp.Sb }
    ensures bne { MeanBranch bne BranchOp.Bne }
    ensures lui { MeanLui lui }
    ensures ecall { Means ecall Instr.Ecall }
{}

/// The two words that set a register to a number below 2^31 - 2^11 add up to it.
pub fn two_words_make_a_number()
    ensures sum { NearestAndLow }
    ensures upper { NearestFits }
    ensures lower { LowFits }
{}
