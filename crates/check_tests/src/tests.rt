ghost use Rattle.std.specs.Prelude.{◌<◌, ◌≡◌, ◌^◌, IfOk, IfSome, IsTrue};
ghost use Rattle.std.specs.List.{All};
ghost use Rattle.elf_image.specs.Layout.{IsLoadable};
ghost use Rattle.guest_memory.specs.Areas.{areas_of};
ghost use Rattle.rv64_decode.specs.Range.{AreWords, AreBytes};
ghost use Rattle.serial_run.specs.Sound.{HaveBytes};
ghost use Rattle.loop_data.specs.Graphs.{IsGraph};
ghost use Rattle.loop_data.specs.LoopWords.{AreNest};
ghost use Rattle.loop_shapes.specs.Places.{count_of};
ghost use Rattle.loop_choice.specs.Asking.{CanBeAsked};
ghost use Rattle.loop_choice.specs.Judging.{IsOneOfLoops, IsPlanOf};
ghost use Rattle.check_tests.specs.Held.{AreDivided};

use alias_checks::holds;
use elf_image::{Bytes, Elf, Segment, Segments, read_elf};
use flow_recovery::laws::starts;
use flow_recovery::recover;
use guest_memory::build;
use loop_choice::laws::{held_turns_are_independent, plans_can_be_asked};
use loop_choice::{PlanAndCheck, judge};
use loop_data::{Graph, LoopShape};
use loop_shapes::laws::nests;
use loop_shapes::loops;
use rv64_decode::{Reg, Regs, instructions_keep_words};
use sample_maker::{Kind, make_sample};
use serial_run::states_are_sound;
use std::alloc::{AllocError, Global};
use std::process::Abort;
use std::test::Fail;

// How many turns the check of a loop is to tell, where it is arrived at with these values in registers and the memory
// with which the program starts.
struct Case {
    name: &'static str,
    regs: &'static [(u8, u64)],
    turns: Option<u64>,
}

// The loop that adds two arrays of 20 numbers at 0x20000 and 0x200a0: a0 is where the sums are stored, a1 and a2 are
// the arrays, and a3 is the end of the first.
static SUMS: [Case; 8] = [
    Case {
        name: "behind both arrays",
        regs: &[(10, 0x20140), (11, 0x20000), (12, 0x200a0), (13, 0x200a0)],
        turns: Some(19),
    },
    Case {
        name: "in place of the first array",
        regs: &[(10, 0x20000), (11, 0x20000), (12, 0x200a0), (13, 0x200a0)],
        turns: Some(19),
    },
    Case {
        name: "from the second element of the first array on",
        regs: &[(10, 0x20008), (11, 0x20000), (12, 0x200a0), (13, 0x200a0)],
        turns: None,
    },
    Case {
        name: "in the element before each of the first array",
        regs: &[(10, 0x20000), (11, 0x20008), (12, 0x200b0), (13, 0x200a8)],
        turns: None,
    },
    Case {
        name: "with the last sum of the 19 turns at the end of the area",
        regs: &[(10, 0x20148), (11, 0x20000), (12, 0x200a0), (13, 0x200a0)],
        turns: Some(19),
    },
    Case {
        name: "with the last of them beyond the area",
        regs: &[(10, 0x20150), (11, 0x20000), (12, 0x200a0), (13, 0x200a0)],
        turns: None,
    },
    Case {
        name: "over the code",
        regs: &[(10, 0x10000), (11, 0x20000), (12, 0x200a0), (13, 0x200a0)],
        turns: None,
    },
    Case {
        name: "of 16 numbers, of which 15 turns stay",
        regs: &[(10, 0x20140), (11, 0x20000), (12, 0x200a0), (13, 0x20080)],
        turns: None,
    },
];

// A nest that counts its turns in a cell, and clears rows of 10 numbers; and behind it a call that ends the run.
const ROWS: [u8; 52] = [
    0x83, 0x33, 0x01, 0x00, // 0x10000: ld t2,0(sp)
    0x93, 0x83, 0x13, 0x00, // 0x10004: addi t2,t2,1
    0x23, 0x30, 0x71, 0x00, // 0x10008: sd t2,0(sp)
    0x13, 0x06, 0x05, 0x00, // 0x1000c: addi a2,a0,0
    0x13, 0x03, 0x05, 0x05, // 0x10010: addi t1,a0,80
    0x23, 0x30, 0x06, 0x00, // 0x10014: sd x0,0(a2)
    0x13, 0x06, 0x86, 0x00, // 0x10018: addi a2,a2,8
    0xe3, 0x1c, 0x66, 0xfe, // 0x1001c: bne a2,t1,-8
    0x13, 0x05, 0x05, 0x05, // 0x10020: addi a0,a0,80
    0x93, 0x82, 0x12, 0x00, // 0x10024: addi t0,t0,1
    0xe3, 0x9c, 0x92, 0xfc, // 0x10028: bne t0,s1,-40
    0x93, 0x08, 0xd0, 0x05, // 0x1002c: addi a7,x0,93
    0x73, 0x00, 0x00, 0x00, // 0x10030: ecall
];

// The cell lies at sp, the rows from a0 on, and t0 counts up to s1.
static COUNTED: [Case; 6] = [
    Case {
        name: "the cell in another area than the rows",
        regs: &[(2, 0x7f00_0000), (10, 0x11000), (5, 0), (9, 20)],
        turns: Some(19),
    },
    Case {
        name: "the cell behind the rows of 19 turns",
        regs: &[(2, 0x115f0), (10, 0x11000), (5, 0), (9, 20)],
        turns: Some(19),
    },
    Case {
        name: "the cell in the last of these rows",
        regs: &[(2, 0x115e8), (10, 0x11000), (5, 0), (9, 20)],
        turns: None,
    },
    Case {
        name: "the cell in the first row",
        regs: &[(2, 0x11000), (10, 0x11000), (5, 0), (9, 20)],
        turns: None,
    },
    Case {
        name: "the cell in an area that may not be written",
        regs: &[(2, 0x10000), (10, 0x11000), (5, 0), (9, 20)],
        turns: None,
    },
    Case {
        name: "a cell that is not aligned",
        regs: &[(2, 0x7f00_0004), (10, 0x11000), (5, 0), (9, 20)],
        turns: None,
    },
];

// Bytes are bytes.
fn are_bytes(bytes: &[u8])
    ensures { All (λ b. b < 256) bytes.now }
{
    let _bytes = bytes;
}

// The bytes of segments are bytes.
fn have_bytes(segments: &[Segment])
    ensures { HaveBytes segments.now }
{
    for i in 0..segments.len() {
        are_bytes(segments[i].bytes.as_slice());
    }
}

// The bytes with which an executable starts are bytes.
fn starts_with_bytes(elf: &Elf)
    requires { IsLoadable elf.now }
    ensures { AreBytes (areas_of elf.now) }
{
    states_are_sound();
    have_bytes(elf.segments.as_slice());
}

// Registers with these values.
fn registers(values: &[(u8, u64)]) -> Regs
    ensures { AreWords result }
{
    instructions_keep_words();
    let mut regs = Regs::new();
    for (number, value) in values {
        regs.set(Reg::new(*number % 32), *value);
    }
    regs
}

// The check of a plan can be asked at the start of the program.
fn can_be_asked(elf: &Elf, graph: &Graph, shape: &LoopShape, both: &PlanAndCheck)
    requires loadable { IsLoadable elf.now }
    requires nest { AreNest graph.now shape.now.levels }
    requires plan { IsPlanOf graph.now elf.now shape.now both.now.0 both.now.1 }
    ensures { CanBeAsked elf.now both.now.1 }
{
    plans_can_be_asked();
}

// What the check of a plan tells at the start of the program. So many turns are independent.
fn asked(
    alloc: Global,
    elf: &Elf,
    graph: &Graph,
    shape: &LoopShape,
    both: &PlanAndCheck,
    regs: &Regs,
) -> Result<Option<u64>, AllocError>
    requires loadable { IsLoadable elf.now }
    requires graph { IsGraph elf.now graph.now }
    requires shape { IsOneOfLoops graph.now shape.now }
    requires plan { IsPlanOf graph.now elf.now shape.now both.now.0 both.now.1 }
    requires registers { AreWords regs.now }
    ensures { IfOk result (λ told. IfSome told (AreDivided elf.now graph.now shape.now regs.now)) }
{
    nests();
    held_turns_are_independent();
    can_be_asked(elf, graph, shape, both);
    starts_with_bytes(elf);
    let memory = build(alloc, elf)?;
    match holds(both.check(), regs, &memory) {
        Some(turns) => Ok(Some(turns.root)),
        None => Ok(None),
    }
}

// What the check of a loop tells at the start of the program, if the loop has one.
fn told(
    alloc: Global,
    elf: &Elf,
    graph: &Graph,
    shape: &LoopShape,
    regs: &Regs,
) -> Result<Option<u64>, AllocError>
    requires loadable { IsLoadable elf.now }
    requires graph { IsGraph elf.now graph.now }
    requires shape { IsOneOfLoops graph.now shape.now }
    requires registers { AreWords regs.now }
    ensures { IfOk result (λ told. IfSome told (AreDivided elf.now graph.now shape.now regs.now)) }
{
    let judged = judge(alloc, graph, elf, shape)?;
    match &judged.plan {
        Some(both) => asked(alloc, elf, graph, shape, both, regs),
        None => Ok(None),
    }
}

// Whether a program has few words.
fn is_short(graph: &Graph) -> bool
    ensures { IsTrue result → count_of graph.now < 2 ^ 32 }
{
    graph.words.as_slice().len() < 10000
}

// What the check of the loop at a header tells.
fn told_in(alloc: Global, elf: &Elf, header: u64, regs: &Regs) -> Result<Option<u64>, AllocError>
    requires loadable { IsLoadable elf.now }
    requires registers { AreWords regs.now }
{
    starts();
    let Ok(graph) = recover(alloc, elf) else {
        return Ok(None);
    };
    if !is_short(&graph) {
        return Ok(None);
    }
    let shapes = loops(alloc, &graph)?;
    for i in 0..shapes.len() {
        if shapes[i].header == header {
            return told(alloc, elf, &graph, &shapes[i], regs);
        }
    }
    Ok(None)
}

// An executable of this code alone.
fn rows(alloc: Global) -> Result<Elf, AllocError>
    ensures { IfOk result IsLoadable }
{
    let mut segments = Vec::new(alloc);
    segments.push(Segment {
        index: 0,
        vaddr: 0x10000,
        memsz: 52,
        flags: 5,
        bytes: Bytes::new(Vec::from_array(alloc, ROWS)?),
    })?;
    Ok(Elf {
        entry: 0x10000,
        segments: Segments::new(segments),
    })
}

fn look_at_all<R: Abort>(
    rt: &R,
    alloc: Global,
    elf: &Elf,
    header: u64,
    cases: &[Case],
) -> Result<(), AllocError>
    requires { IsLoadable elf.now }
{
    for case in cases {
        let turns = told_in(alloc, elf, header, &registers(case.regs))?;
        let name = case.name;
        assert!(rt; turns == case.turns, "{name}");
    }
    Ok(())
}

#[test]
fn sums_of_two_arrays(rt: HostRuntime) -> Result<(), Fail> {
    let alloc = rt.alloc();
    let file = make_sample(alloc, Kind::Vadd, 20).map_err(|_error| "no sample")?;
    let elf = read_elf(alloc, file.as_slice()).map_err(|_error| "no executable")?;
    look_at_all(&rt, alloc, &elf, 0x100f0, &SUMS)?;
    Ok(())
}

#[test]
fn rows_beside_a_cell(rt: HostRuntime) -> Result<(), AllocError> {
    let alloc = rt.alloc();
    let elf = rows(alloc)?;
    look_at_all(&rt, alloc, &elf, 0x10000, &COUNTED)
}
