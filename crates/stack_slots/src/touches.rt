ghost use Rattle.std.specs.Prelude.{ℕ, ◌≡◌, ◌<◌, Some, IfOk, ℤ, ◌+ℤ◌, map, true, false};
ghost use Rattle.rv64_decode.specs.Row.{signed64};
ghost use Rattle.linear_forms.specs.Forms.{between};
ghost use Rattle.loop_data.specs.declared.values.Values.{Values};
ghost use Rattle.loop_data.specs.Facts.{Number, Offset, fact_read, fact_sum};
ghost use Rattle.loop_data.specs.Locations.{no_cells};
ghost use Rattle.loop_data.specs.LoopCode.{code_of};
ghost use Rattle.loop_data.specs.Lookups.{offset_from, fact_of, fact_in, cell_map, AreNumbered};
ghost use Rattle.loop_data.specs.Paths.{IsInOrder};
ghost use Rattle.stack_slots.specs.Touches.{is_kept, is_unset, known_by, known_address, touch_by, loads_cells, stores_cells, touch_of, word_at};

use crate::words::{BodyWord, KnownAddress, Touch};
use arrayvec::ArrayVec;
use linear_forms::Loc;
use loop_data::flow::instr_at;
use loop_data::value_places::mark_body;
use loop_data::{Cells, Graph, Value, Values};
use rv64_decode::{Instr, LoadOp, Reg, StoreOp, Width};
use std::alloc::{AllocError, Global};

/// The least number from which on an offset can pass the numbers of 31 bits.
const ADDRESS_LIMIT: i64 = 0x7FFF_F800;

/// How far from its register a cell can stand.
const REACH: i64 = 2048;

/// No cells, and no word that accesses one.
pub fn no_cells() -> Cells
    ensures none { cell_map result ≡ no_cells }
    ensures numbered { AreNumbered result }
{
    Cells {
        list: ArrayVec::new(),
        uses: ArrayVec::new(),
        fault: None,
    }
}

/// Which locations the words of a body write.
fn written_in(graph: &Graph, body: &[u64]) -> [bool; 48]
    requires { IsInOrder graph.now }
    ensures { is_unset result ≡ is_kept (code_of graph.now no_cells) body.now }
{
    let mut flags = [false; 48];
    mark_body(&mut flags, graph, &no_cells(), body);
    flags
}

/// Whether a register is one but x0, and is not written.
fn is_unset(written: &[bool; 48], register: u8) -> bool
    ensures { result ≡ is_unset written.now register }
{
    1 <= register && register < 32 && !written[register as usize]
}

/// The address, if it is one of a cell.
fn number_address(address: i64) -> Option<KnownAddress>
    ensures { result ≡ known_by (λ q. false) (Some (Number address)) }
{
    if 0 <= address && address < ADDRESS_LIMIT {
        Some(KnownAddress {
            base: None,
            offset: address,
        })
    } else {
        None
    }
}

/// The address at an offset from a register that is not written, if it is one of a cell.
fn near_address(register: u8, offset: i64) -> Option<KnownAddress>
    ensures { result ≡ known_by (λ q. true) (Some (Offset register offset)) }
{
    if -REACH <= offset && offset < REACH {
        Some(KnownAddress {
            base: Some(register),
            offset,
        })
    } else {
        None
    }
}

/// The address at an offset from the header's value of a location, if that is a register that is not written.
fn kept_address(written: &[bool; 48], loc: Loc, offset: i64) -> Option<KnownAddress>
    ensures { result ≡ known_by (is_unset written.now) (offset_from loc offset) }
{
    match loc {
        Loc::Reg(register) => {
            if is_unset(written, register) {
                near_address(register, offset)
            } else {
                None
            }
        }
        Loc::Cell(_) => None,
    }
}

/// The known address at an offset from a value.
fn address_from(written: &[bool; 48], value: Value, offset: i32) -> Option<KnownAddress>
    ensures { result ≡ known_by (is_unset written.now) (fact_sum (fact_of value) (Some (Number offset))) }
{
    match value {
        Value::Known(n) => match n.cast_signed().checked_add(offset as i64) {
            Some(sum) => number_address(sum),
            None => None,
        },
        Value::Base(loc, n) => match n.cast_signed().checked_add(offset as i64) {
            Some(sum) => kept_address(written, loc, sum),
            None => None,
        },
        Value::Nothing => None,
    }
}

/// What a register reads.
fn read(values: &[Value; 48], r: Reg) -> Value
    ensures { fact_of result ≡ fact_read (fact_in values.now) r }
{
    if r.number() == 0 {
        Value::Known(0)
    } else {
        values[r.number() as usize]
    }
}

/// The known address at an offset from a register.
fn known_address(
    written: &[bool; 48],
    values: &[Value; 48],
    base: Reg,
    offset: i32,
) -> Option<KnownAddress>
    ensures { result ≡ known_address (is_unset written.now) (fact_in values.now) base offset }
{
    address_from(written, read(values, base), offset)
}

/// Whether a load can be one of a cell.
fn loads_cells(op: LoadOp) -> bool
    ensures { result ≡ loads_cells op }
{
    match op {
        LoadOp::Lw | LoadOp::Ld => true,
        _ => false,
    }
}

/// Whether a store can be one to a cell.
fn stores_cells(op: StoreOp) -> bool
    ensures { result ≡ stores_cells op }
{
    match op {
        StoreOp::Sw | StoreOp::Sd => true,
        _ => false,
    }
}

/// What an instruction accesses at a known address, where these locations are written, and these are the values
/// before it.
pub fn touch_of(written: &[bool; 48], values: &[Value; 48], instr: &Option<Instr>) -> Option<Touch>
    ensures { result ≡ touch_of (is_unset written.now) (fact_in values.now) instr.now }
{
    match *instr {
        Some(
            Instr::Load {
                op,
                rd: _,
                rs1,
                imm,
            },
        ) => {
            let address = known_address(written, values, rs1, imm)?;
            Some(Touch {
                address,
                width: op.width(),
                store: false,
                of_cell: loads_cells(op),
            })
        }
        Some(
            Instr::Store {
                op,
                rs1,
                rs2: _,
                imm,
            },
        ) => {
            let address = known_address(written, values, rs1, imm)?;
            Some(Touch {
                address,
                width: op.width(),
                store: true,
                of_cell: stores_cells(op),
            })
        }
        _ => None,
    }
}

/// The word at the address of a point, with what it accesses, where these are the values before it.
fn word_at(graph: &Graph, body: &[u64], written: &[bool; 48], point: &Values) -> BodyWord
    requires graph { IsInOrder graph.now }
    requires written { is_unset written.now ≡ is_kept (code_of graph.now no_cells) body.now }
    ensures { result ≡ word_at (code_of graph.now no_cells) body.now (fact_in point.now.of) point.now.at }
{
    let instr = instr_at(graph, point.at);
    let touch = touch_of(written, &point.of, &instr);
    BodyWord {
        at: point.at,
        instr,
        touch,
    }
}

/// The words of a body, where these are the values before each.
pub fn words_at(
    alloc: Global,
    graph: &Graph,
    body: &[u64],
    points: &[Values],
) -> Result<Vec<BodyWord>, AllocError>
    requires { IsInOrder graph.now }
    ensures { IfOk result (λ v. v.items ≡ map
        (λ (p : Values). word_at (code_of graph.now no_cells) body.now (fact_in p.of) p.at) points.now) }
{
    let written = written_in(graph, body);
    points
        .iter()
        .map(|p| word_at(graph, body, &written, p))
        .collect(alloc)
}
