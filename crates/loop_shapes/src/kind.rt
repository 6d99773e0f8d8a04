ghost use Rattle.std.specs.Prelude.{◌≡◌, ◌↔◌, ◌<◌, IfOk, IfSome, IfNone, IsTrue, ℕ};
ghost use Rattle.loop_shapes.specs.Class.{AreClasses, IsWordOfClass, HasPairing, class_of, does_of};
ghost use Rattle.loop_data.specs.Instructions.{IsPaired};
ghost use Rattle.loop_shapes.specs.Kinds.{HasKind};
ghost use Rattle.loop_shapes.specs.Net.{IsNet, graph_of};
ghost use Rattle.loop_data.specs.Paths.{IsWord};
ghost use Rattle.loop_shapes.specs.Places.{at, count_of};
ghost use Rattle.rv64_decode.specs.Table.{decoded};
ghost use Rattle.rv64_decode.specs.Fields.{rd_of, rs1_of};

use crate::net::{Net, address_of};
use loop_data::flow::place_of;
use rv64_decode::{Instr, UpperOp, decode};
use std::alloc::{AllocError, Global};

/// What a word does that a loop may not do, or must do to leave.
#[derive(Clone, Copy, PartialEq, Eq, Debug)]
pub enum Kind {
    /// It calls a function.
    Calls,
    /// It makes a system call.
    Asks,
    /// It jumps to an address that is not known.
    JumpsAnywhere,
    /// It stands for no instruction of RV64IM.
    IsNothing,
    /// It branches.
    Branches,
}

/// A word by what matters of it to loops.
#[derive(Clone, Copy, PartialEq, Eq, Debug)]
pub enum Class {
    /// A jump, by the register that it links.
    Jump { rd: u8 },
    /// A jump through a register, by the register that it links and the one it reads.
    RegisterJump { rd: u8, rs1: u8 },
    /// A call of the environment.
    Ask,
    /// No instruction.
    Nothing,
    /// A branch.
    Fork,
    /// auipc, by the register that it sets.
    UpperPc { rd: u8 },
    /// Any other instruction.
    Other,
}

// The register that a word writes.
fn written(bits: u32) -> u8
    ensures { result ≡ rd_of bits }
{
    (bits / 128 % 32) as u8
}

// The first register that a word reads.
fn read(bits: u32) -> u8
    ensures { result ≡ rs1_of bits }
{
    (bits / 32768 % 32) as u8
}

// The class of a word.
fn class_of_word(bits: u32) -> Class
    ensures { result ≡ class_of (decoded bits) }
{
    match decode(bits) {
        None => Class::Nothing,
        Some(Instr::Jal { .. }) => Class::Jump { rd: written(bits) },
        Some(Instr::Jalr { .. }) => Class::RegisterJump {
            rd: written(bits),
            rs1: read(bits),
        },
        Some(Instr::Ecall) => Class::Ask,
        Some(Instr::Branch { .. }) => Class::Fork,
        Some(
            Instr::Upper {
                op: UpperOp::Auipc,
                ..
            },
        ) => Class::UpperPc { rd: written(bits) },
        Some(_) => Class::Other,
    }
}

// The class of the word at a place.
fn class_of_place(net: &Net, place: usize) -> Class
    requires net { IsNet net.now }
    requires within { place < count_of (graph_of net.now) }
    ensures { IsWordOfClass (graph_of net.now) (at (graph_of net.now) place) result }
{
    class_of_word(net.graph.words.as_slice()[place].bits)
}

/// The classes of the words, by their places.
pub fn classes_of(alloc: Global, net: &Net) -> Result<Vec<Class>, AllocError>
    requires { IsNet net.now }
    ensures { IfOk result (λ v. AreClasses (graph_of net.now) v.items) }
{
    let mut all = Vec::with_capacity(alloc, net.at.len())?;
    for place in 0..net.at.len() {
        all.push(class_of_place(net, place))?;
    }
    Ok(all)
}

// The class of the word at an address.
fn class_at(net: &Net, x: u64) -> Option<Class>
    requires { IsNet net.now }
    ensures found { IfSome result (IsWordOfClass (graph_of net.now) x) }
    ensures none { IfNone result (¬ IsWord (graph_of net.now) x) }
{
    let place = place_of(net.at.as_slice(), x)?;
    Some(class_of_word(net.graph.words.as_slice()[place].bits))
}

// Whether a class is that of an auipc on this register.
fn is_upper(class: Option<Class>, register: u8) -> bool
    ensures { IsTrue result ↔ (class ≡ Some (Class.UpperPc register)) }
{
    match class {
        Some(Class::UpperPc { rd }) => rd == register,
        _ => false,
    }
}

// Whether the word before this address is an auipc on the register.
fn is_paired(net: &Net, x: u64, register: u8) -> bool
    requires { IsNet net.now }
    ensures { IsTrue result ↔ IsPaired (graph_of net.now) x register }
{
    if x < 4 {
        return false;
    }
    is_upper(class_at(net, x - 4), register)
}

// Whether the word before a jump through a register sets it.
fn pairing(net: &Net, x: u64, class: Class) -> bool
    requires { IsNet net.now }
    ensures { HasPairing (graph_of net.now) x class result }
{
    match class {
        Class::RegisterJump { rs1, .. } => is_paired(net, x, rs1),
        _ => false,
    }
}

// What a word of a class does.
fn does(kind: Kind, class: Class, paired: bool) -> bool
    ensures { result ≡ does_of kind class paired }
{
    match kind {
        Kind::Calls => match class {
            Class::Jump { rd } => rd != 0,
            Class::RegisterJump { rd, .. } => rd != 0 && paired,
            _ => false,
        },
        Kind::Asks => matches!(class, Class::Ask),
        Kind::JumpsAnywhere => match class {
            Class::RegisterJump { rd, .. } => rd == 0 || !paired,
            _ => false,
        },
        Kind::IsNothing => matches!(class, Class::Nothing),
        Kind::Branches => matches!(class, Class::Fork),
    }
}

/// Whether the word at a place does this, from the classes of the words.
pub fn has_kind_at(net: &Net, classes: &[Class], place: usize, kind: Kind) -> bool
    requires net { IsNet net.now }
    requires classes { AreClasses (graph_of net.now) classes.now }
    requires within { place < count_of (graph_of net.now) }
    ensures { IsTrue result ↔ HasKind kind (graph_of net.now) (at (graph_of net.now) place) }
{
    let x = address_of(net, place);
    let class = classes[place];
    does(kind, class, pairing(net, x, class))
}

/// Whether the word at an address does this.
pub fn has_kind(net: &Net, x: u64, kind: Kind) -> bool
    requires { IsNet net.now }
    ensures { IsTrue result ↔ HasKind kind (graph_of net.now) x }
{
    match class_at(net, x) {
        Some(class) => does(kind, class, pairing(net, x, class)),
        None => false,
    }
}
