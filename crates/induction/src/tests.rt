ghost use Rattle.std.specs.Prelude.{◌≡◌, ◌≤◌, [], ◌∷◌, length, slice_index, IfOk};
ghost use Rattle.loop_data.specs.Paths.{IsInOrder};
ghost use Rattle.loop_data.specs.LoopWords.{AreNest};
ghost use Rattle.loop_data.proofs.SampleNest.{graph, root, inside};

use crate::classes;
use arrayvec::ArrayVec;
use loop_data::{
    Addresses, Cells, Class, Classes, Graph, GraphWords, Level, Levels, LoopShape, Word,
};
use std::alloc::{AllocError, Global};
use std::process::Abort;

// A word that leads to one other.
fn word(at: u64, bits: u32, next: u64) -> Word
    ensures { result ≡ record { at = at; bits = bits; steps = record { items = next ∷ [] } } }
{
    let mut steps = ArrayVec::new();
    steps.push(next);
    Word { at, bits, steps }
}

// A branch, which leads to the next word and to its target.
fn branch(at: u64, bits: u32, next: u64, target: u64) -> Word
    ensures { result ≡ record { at = at; bits = bits; steps = record { items = next ∷ target ∷ [] } } }
{
    let mut steps = ArrayVec::new();
    steps.push(next);
    steps.push(target);
    Word { at, bits, steps }
}

// The words of a loop with a loop in it.
fn words(alloc: Global) -> Result<Vec<Word>, AllocError>
    ensures { IfOk result (λ v. v.items ≡ graph.words) }
{
    let mut all = Vec::new(alloc);
    all.push(word(0, 0x0001_3483, 4))?; // ld x9, 0(x2)
    all.push(word(4, 0x0000_0313, 8))?; // addi x6, x0, 0
    all.push(word(8, 0x0013_0313, 12))?; // addi x6, x6, 1
    all.push(branch(12, 0xFE83_1EE3, 16, 8))?; // bne x6, x8, 8
    all.push(word(16, 0x0061_3423, 20))?; // sd x6, 8(x2)
    all.push(word(20, 0x0012_829B, 24))?; // addiw x5, x5, 1
    all.push(branch(24, 0xFE92_94E3, 28, 0))?; // bne x5, x9, 0
    Ok(all)
}

// Those words as a program, which starts with the first.
fn program(alloc: Global) -> Result<Graph, AllocError>
    ensures { IfOk result (λ g. g ≡ graph) }
{
    let words = words(alloc)?;
    let mut starts = Vec::new(alloc);
    starts.push(0)?;
    Ok(Graph {
        words: GraphWords::new(words),
        starts: Addresses::new(starts),
    })
}

// A loop of these words.
fn level(alloc: Global, body: &[u64], back: u64, depth: u32) -> Result<Level, AllocError>
    requires { 1 ≤ length body.now }
    ensures { IfOk result (λ l. l ≡ record {
      header = slice_index body.now 0;
      body = body.now;
      back = back;
      exit = back;
      depth = depth;
    }) }
{
    Ok(Level {
        header: body[0],
        body: Addresses::new(Vec::from_slice(alloc, body)?),
        back,
        exit: back,
        depth,
    })
}

// The loop with the loop in it.
fn shape(alloc: Global) -> Result<LoopShape, AllocError>
    ensures { IfOk result (λ s. s.levels ≡ root ∷ inside ∷ []) }
{
    let mut levels = Vec::new(alloc);
    levels.push(level(alloc, &[0, 4, 8, 12, 16, 20, 24], 24, 0)?)?;
    levels.push(level(alloc, &[8, 12], 12, 1)?)?;
    Ok(LoopShape {
        header: 0,
        levels: Levels::new(levels),
        early: None,
    })
}

// The classes of its registers.
fn found(alloc: Global) -> Result<Option<Classes>, AllocError> {
    let program = program(alloc)?;
    let shape = shape(alloc)?;
    let cells = Cells {
        list: ArrayVec::new(),
        uses: ArrayVec::new(),
        fault: None,
    };
    match classes(alloc, &shape, &program, &cells) {
        Ok(found) => Ok(Some(found)),
        Err(_) => Ok(None),
    }
}

fn look_at<R: Abort>(rt: &R, found: &Classes) {
    assert!(rt; found.root[5] == Some(Class::Induction(1)));
    assert!(rt; found.root[6] == Some(Class::Private));
    assert!(rt; found.root[9] == Some(Class::Private));
    assert!(rt; found.root[8] == None);
    assert!(rt; found.inner[0][6] == Some(Class::Induction(1)));
    assert!(rt; found.inner[0][5] == None);
    assert!(rt; found.inner[1][6] == None);
}

#[test]
fn classes_of_a_loop_in_a_loop(rt: HostRuntime) -> Result<(), AllocError> {
    let found = found(rt.alloc())?;
    assert!(rt; found.is_some());
    if let Some(found) = found {
        look_at(&rt, &found);
    }
    Ok(())
}
