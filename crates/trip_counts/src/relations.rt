ghost use Rattle.std.specs.Prelude.{◌≡◌};
ghost use Rattle.loop_data.specs.Trips.{stay, is_signed, turned, approaches};

use loop_data::Relation;
use rv64_decode::BranchOp;

/// The relation of its operands under which a branch stays in a loop, where its taken side does or does
/// not. None where it stays as long as they are the same.
pub fn stay(op: BranchOp, taken_stays: bool) -> Option<Relation>
    ensures { result ≡ stay op taken_stays }
{
    match (op, taken_stays) {
        (BranchOp::Beq, true) | (BranchOp::Bne, false) => None,
        (BranchOp::Beq, false) | (BranchOp::Bne, true) => Some(Relation::Differ),
        (BranchOp::Blt, true) | (BranchOp::Bge, false) => Some(Relation::Less),
        (BranchOp::Bltu, true) | (BranchOp::Bgeu, false) => Some(Relation::Less),
        (BranchOp::Blt, false) | (BranchOp::Bge, true) => Some(Relation::AtLeast),
        (BranchOp::Bltu, false) | (BranchOp::Bgeu, true) => Some(Relation::AtLeast),
    }
}

/// Whether a branch reads its operands as signed numbers.
pub fn is_signed(op: BranchOp) -> bool
    ensures { result ≡ is_signed op }
{
    match op {
        BranchOp::Bltu | BranchOp::Bgeu => false,
        _ => true,
    }
}

/// The relation of the second operand to the first.
pub fn turned(relation: Relation) -> Relation
    ensures { result ≡ turned relation }
{
    match relation {
        Relation::Differ => Relation::Differ,
        Relation::Less => Relation::More,
        Relation::AtMost => Relation::AtLeast,
        Relation::More => Relation::Less,
        Relation::AtLeast => Relation::AtMost,
    }
}

/// Whether a word comes, with this step, to where the relation ends.
pub fn approaches(relation: Relation, step: i64) -> bool
    ensures { result ≡ approaches relation step }
{
    match relation {
        Relation::Differ => step != 0,
        Relation::Less | Relation::AtMost => 0 < step,
        Relation::More | Relation::AtLeast => step < 0,
    }
}
