ghost use Rattle.std.specs.Prelude.{◌≡◌, ◌≢◌, ◌+◌, ◌-◌, ◌^◌, ◌<◌, ◌≤◌, ◌++◌, ℕ, true, List, [], Some, length, take, drop, IfOk, IfErr, OnOk, OnErr, IsErrOf};
ghost use Rattle.rv64_decode.specs.Area.{readable_of, writable_of};
ghost use Rattle.rv64_decode.specs.Registers.{with_register};
ghost use Rattle.outside_ports.specs.Ports.{Rose};
ghost use Rattle.guest_memory.specs.Layout.{KeepAreas};
ghost use Rattle.guest_memory.specs.Spans.{all_permitted, bytes_at, with_bytes_at};
ghost use Rattle.guest_calls.specs.Calls.{a1, a2, a7, called, bytes_read, read_answer, bytes_written, write_answer, moved_break};
ghost use Rattle.guest_calls.specs.Faults.{TellsReader, IsStored, ChangesInBuffer, SendsPart};

use crate::{Brk, Going, PortFault};
use guest_memory::Memory;
use outside_ports::{Sink, Source};
use rv64_decode::{Reg, Regs};

/// How many bytes one turn of a read moves at most.
const BUFFER_SIZE: usize = 512;

// The negated numbers of errors, as words.
const EBADF: u64 = u64::MAX - 8;

const EFAULT: u64 = u64::MAX - 13;

const ENOSYS: u64 = u64::MAX - 37;

// Moves bytes of the input through `buffer` to the guest's buffer at `addr`: none only at the input's
// end.
fn read_some<I: Source>(
    mem: &mut Memory,
    addr: u64,
    buffer: &mut [u8],
    input: &mut I,
) -> Result<u64, PortFault>
    requires room { 0 < length buffer.old }
    requires writable { all_permitted writable_of (length buffer.old) mem.old addr ≡ true }
    ensures count { IfOk result (λ k. k ≤ length buffer.old) }
    ensures moved { IfOk result (λ k. (xs : List ℕ) → I.rest input.old ≡ Some xs → k ≤ length xs) }
    ensures stored { IfOk result (λ k. IsStored mem.old addr k (I.rest input.old) mem.new) }
    ensures rest { IfOk result (λ k. (xs : List ℕ) → I.rest input.old ≡ Some xs
        → I.rest input.new ≡ Some (drop k xs)) }
    ensures at_end { IfOk result (λ k. (xs : List ℕ) → I.rest input.old ≡ Some xs → k ≡ 0 → xs ≡ []) }
    ensures writable { (n x : ℕ) → all_permitted writable_of n mem.new x ≡ all_permitted writable_of n mem.old x }
    ensures stays { OnErr result (mem.new ≡ mem.old) }
    ensures failed { OnErr result (Rose (I.faults input.old) (I.faults input.new)) }
    ensures fault { IfErr result (λ e. e ≡ PortFault.Read) }
    ensures never_falls { I.faults input.old ≤ I.faults input.new }
{
    let Ok(count) = input.read(buffer) else {
        return Err(PortFault::Read);
    };
    mem.set_bytes(addr, &buffer[..count]);
    Ok(count as u64)
}

// Fills the buffer at `addr` from the input, up to the input's end, and says how many bytes came.
fn fill<I: Source>(mem: &mut Memory, addr: u64, len: u64, input: &mut I) -> Result<u64, PortFault>
    requires fits { addr + len < 2 ^ 64 }
    requires writable { all_permitted writable_of len mem.old addr ≡ true }
    ensures count { IfOk result (λ k. (xs : List ℕ) → I.rest input.old ≡ Some xs
        → k ≡ length (take len xs)) }
    ensures memory { OnOk result ((xs : List ℕ) → I.rest input.old ≡ Some xs
        → mem.new ≡ with_bytes_at mem.old addr (take len xs)) }
    ensures rest { OnOk result ((xs : List ℕ) → I.rest input.old ≡ Some xs
        → I.rest input.new ≡ Some (drop len xs)) }
    ensures buffer { OnErr result (ChangesInBuffer mem.old addr len mem.new) }
    ensures areas { KeepAreas mem.old mem.new }
    ensures failed { OnErr result (Rose (I.faults input.old) (I.faults input.new)) }
    ensures fault { IfErr result (λ e. e ≡ PortFault.Read) }
    ensures never_falls { I.faults input.old ≤ I.faults input.new }
{
    let mut buffer = [0; BUFFER_SIZE];
    let mut done = 0;
    while done < len {
        let most = (len - done).min(BUFFER_SIZE as u64) as usize;
        match read_some(mem, addr + done, &mut buffer[..most], input) {
            Ok(count) => {
                if count == 0 {
                    return Ok(done);
                }
                done += count;
            }
            Err(fault) => return Err(fault),
        }
    }
    Ok(done)
}

// Appends bytes of the buffer at `addr`, of which `room` bytes are left: at least one.
fn write_some<O: Sink>(mem: &Memory, addr: u64, room: u64, out: &mut O) -> Result<u64, PortFault>
    requires room { 0 < room }
    requires readable { all_permitted readable_of room mem.now addr ≡ true }
    ensures count { IfOk result (λ k. (0 < k) × (k ≤ room)) }
    ensures appended { IfOk result (λ k. (ys : List ℕ) → O.written out.old ≡ Some ys
        → O.written out.new ≡ Some (ys ++ bytes_at k mem.now addr)) }
    ensures prefix { OnErr result ((ys : List ℕ) → O.written out.old ≡ Some ys
        → (k : ℕ) × (k ≤ room) × (O.written out.new ≡ Some (ys ++ bytes_at k mem.now addr))) }
    ensures failed { OnErr result (Rose (O.faults out.old) (O.faults out.new)) }
    ensures fault { IfErr result (λ e. e ≡ PortFault.Write) }
    ensures never_falls { O.faults out.old ≤ O.faults out.new }
{
    let Ok(count) = out.write(mem.piece(addr, room)) else {
        return Err(PortFault::Write);
    };
    Ok(count as u64)
}

// Appends the whole buffer at `addr`.
fn send<O: Sink>(mem: &Memory, addr: u64, len: u64, out: &mut O) -> Result<(), PortFault>
    requires fits { addr + len < 2 ^ 64 }
    requires readable { all_permitted readable_of len mem.now addr ≡ true }
    ensures appended { OnOk result ((ys : List ℕ) → O.written out.old ≡ Some ys
        → O.written out.new ≡ Some (ys ++ bytes_at len mem.now addr)) }
    ensures prefix { OnErr result ((ys : List ℕ) → O.written out.old ≡ Some ys
        → (k : ℕ) × (k ≤ len) × (O.written out.new ≡ Some (ys ++ bytes_at k mem.now addr))) }
    ensures failed { OnErr result (Rose (O.faults out.old) (O.faults out.new)) }
    ensures fault { IfErr result (λ e. e ≡ PortFault.Write) }
    ensures never_falls { O.faults out.old ≤ O.faults out.new }
{
    let mut done = 0;
    while done < len {
        match write_some(mem, addr + done, len - done, out) {
            Ok(count) => done += count,
            Err(fault) => return Err(fault),
        }
    }
    Ok(())
}

// The answer to a read, which has moved its bytes.
fn read<I: Source>(
    fd: u64,
    addr: u64,
    len: u64,
    mem: &mut Memory,
    input: &mut I,
) -> Result<u64, PortFault>
    ensures answer { IfOk result (λ n. (xs : List ℕ) → I.rest input.old ≡ Some xs
        → n ≡ read_answer fd addr len mem.old xs) }
    ensures memory { OnOk result ((xs : List ℕ) → I.rest input.old ≡ Some xs
        → mem.new ≡ with_bytes_at mem.old addr (bytes_read fd addr len mem.old xs)) }
    ensures rest { OnOk result ((xs : List ℕ) → I.rest input.old ≡ Some xs
        → I.rest input.new ≡ Some (drop (length (bytes_read fd addr len mem.old xs)) xs)) }
    ensures buffer { OnErr result (ChangesInBuffer mem.old addr len mem.new) }
    ensures areas { KeepAreas mem.old mem.new }
    ensures failed { OnErr result (Rose (I.faults input.old) (I.faults input.new)) }
    ensures fault { IfErr result (λ e. e ≡ PortFault.Read) }
    ensures never_falls { I.faults input.old ≤ I.faults input.new }
{
    if fd != 0 {
        return Ok(EBADF);
    }
    if !mem.can_write(addr, len) {
        return Ok(EFAULT);
    }
    match fill(mem, addr, len, input) {
        Ok(count) => Ok(count),
        Err(fault) => Err(fault),
    }
}

// The answer to a write, which has sent its bytes.
fn write<O: Sink>(fd: u64, addr: u64, len: u64, mem: &Memory, out: &mut O) -> Result<u64, PortFault>
    ensures answer { IfOk result (λ n. n ≡ write_answer fd addr len mem.now) }
    ensures appended { OnOk result ((ys : List ℕ) → O.written out.old ≡ Some ys
        → O.written out.new ≡ Some (ys ++ bytes_written fd addr len mem.now)) }
    ensures prefix { OnErr result ((ys : List ℕ) → O.written out.old ≡ Some ys
        → SendsPart ys (bytes_written fd addr len mem.now) (O.written out.new)) }
    ensures failed { OnErr result (Rose (O.faults out.old) (O.faults out.new)) }
    ensures fault { IfErr result (λ e. e ≡ PortFault.Write) }
    ensures never_falls { O.faults out.old ≤ O.faults out.new }
{
    if fd != 1 && fd != 2 {
        return Ok(EBADF);
    }
    if !mem.can_read(addr, len) {
        return Ok(EFAULT);
    }
    match send(mem, addr, len, out) {
        Ok(()) => Ok(len),
        Err(fault) => Err(fault),
    }
}

// Moves the break, where the address is one that it may have.
fn move_break(brk: &mut Brk, to: u64) -> u64
    ensures answer { result ≡ moved_break brk.old to }
    ensures brk { brk.new ≡ record brk.old { at = moved_break brk.old to } }
{
    if brk.low <= to && to <= brk.high {
        brk.at = to;
    }
    brk.at
}

// The call has this answer, and the run goes on.
fn answer(regs: &mut Regs, value: u64) -> Going
    ensures going { result ≡ Going.On }
    ensures registers { regs.new ≡ with_register regs.old 10 value }
{
    regs.set(Reg::new(10), value);
    Going::On
}

/// Answers the call whose number stands in a7 and whose arguments stand in a0, a1 and a2: read (63),
/// write (64), exit (93, 94), brk (214), and -38 for every other number. A buffer is tested before
/// any byte moves. After a fault of the source nothing is known of the bytes of the guest's buffer,
/// and after one of the sink a first part of the buffer has gone out; nothing else has changed.
#[tactic(auto, unfolding(crate::specs::Calls::called))]
pub fn call<I: Source, O: Sink>(
    regs: &mut Regs,
    mem: &mut Memory,
    brk: &mut Brk,
    input: &mut I,
    out: &mut O,
) -> Result<Going, PortFault>
    ensures going { IfOk result (λ going. (xs : List ℕ) → TellsReader regs.old (I.rest input.old) xs
        → going ≡ (called regs.old mem.old brk.old xs).going) }
    ensures registers { OnOk result ((xs : List ℕ) → TellsReader regs.old (I.rest input.old) xs
        → regs.new ≡ (called regs.old mem.old brk.old xs).regs) }
    ensures memory { OnOk result ((xs : List ℕ) → TellsReader regs.old (I.rest input.old) xs
        → mem.new ≡ (called regs.old mem.old brk.old xs).memory) }
    ensures brk { OnOk result ((xs : List ℕ) → brk.new ≡ (called regs.old mem.old brk.old xs).brk) }
    ensures rest { OnOk result ((xs : List ℕ) → I.rest input.old ≡ Some xs
        → I.rest input.new ≡ Some (called regs.old mem.old brk.old xs).rest) }
    ensures written { OnOk result ((xs ys : List ℕ) → O.written out.old ≡ Some ys
        → O.written out.new ≡ Some (ys ++ (called regs.old mem.old brk.old xs).written)) }
    ensures areas { KeepAreas mem.old mem.new }
    ensures takes_nothing { a7 regs.old ≢ 63 → input.new ≡ input.old }
    ensures sends_nothing { a7 regs.old ≢ 64 → out.new ≡ out.old }

    // After a fault.
    ensures read { IsErrOf result PortFault.Read → a7 regs.old ≡ 63 }
    ensures write { IsErrOf result PortFault.Write → a7 regs.old ≡ 64 }
    ensures registers_stay { OnErr result (regs.new ≡ regs.old) }
    ensures brk_stays { OnErr result (brk.new ≡ brk.old) }
    ensures memory_stays { IsErrOf result PortFault.Write → mem.new ≡ mem.old }
    ensures buffer { IsErrOf result PortFault.Read
        → ChangesInBuffer mem.old (a1 regs.old) (a2 regs.old) mem.new }
    ensures prefix { OnErr result ((xs ys : List ℕ) → O.written out.old ≡ Some ys
        → SendsPart ys (called regs.old mem.old brk.old xs).written (O.written out.new)) }
    ensures read_fault { IsErrOf result PortFault.Read → Rose (I.faults input.old) (I.faults input.new) }
    ensures write_fault { IsErrOf result PortFault.Write → Rose (O.faults out.old) (O.faults out.new) }
    ensures input_never_falls { I.faults input.old ≤ I.faults input.new }
    ensures output_never_falls { O.faults out.old ≤ O.faults out.new }
{
    let first = regs.get(Reg::new(10));
    let addr = regs.get(Reg::new(11));
    let len = regs.get(Reg::new(12));
    match regs.get(Reg::new(17)) {
        63 => match read(first, addr, len, mem, input) {
            Ok(count) => Ok(answer(regs, count)),
            Err(fault) => Err(fault),
        },
        64 => match write(first, addr, len, mem, out) {
            Ok(count) => Ok(answer(regs, count)),
            Err(fault) => Err(fault),
        },
        93 | 94 => Ok(Going::Exit((first % 256) as u8)),
        214 => Ok(answer(regs, move_break(brk, first))),
        _ => Ok(answer(regs, ENOSYS)),
    }
}
