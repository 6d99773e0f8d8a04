ghost use Rattle.std.specs.Prelude.{◌≡◌, ◌+◌, ◌-◌, ◌/◌, ◌<◌, ◌≤◌, ◌^◌, length, drop};
ghost use Rattle.rv64_decode.specs.Area.{bytes_of, holds as holds_of};
ghost use Rattle.byteorder.specs.Endian.{little_number};
ghost use Rattle.guest_memory.specs.Layout.{end_of, with_bytes, spliced};
ghost use Rattle.guest_memory.specs.Access.{permission_of};

use byteorder::{ByteOrder, LittleEndian};
use rv64_decode::Width;
use std::marker::Model;

/// What is to be done with bytes.
#[derive(Clone, Copy)]
pub(crate) enum Access {
    Read,
    Write,
}

/// Bytes from an address on, and what may be done with them.
#[derive(Drop)]
pub(crate) struct GuestArea {
    low: u64,
    readable: bool,
    writable: bool,
    executable: bool,
    bytes: Vec<u8>,
}

impl Model for GuestArea {
    ghost use Rattle.rv64_decode.specs.Area.{Area};
    ghost use Rattle.guest_memory.specs.Layout.{end_of};
    ghost use Rattle.std.specs.Prelude.{◌+◌, ◌<◌, ◌^◌, length};

    ghost Value = { Area };

    ghost view = { λ a. record {
      low = a.low;
      readable = a.readable;
      writable = a.writable;
      executable = a.executable;
      bytes = a.bytes.items;
    } };

    ghost invariant = { λ a. a.low + length a.bytes.items < 2 ^ 63 };
}

impl GuestArea {
    pub fn new(
        low: u64,
        readable: bool,
        writable: bool,
        executable: bool,
        bytes: Vec<u8>,
    ) -> GuestArea
        requires { low + length bytes.items < 2 ^ 63 }
        ensures { result ≡ record {
          low = low;
          readable = readable;
          writable = writable;
          executable = executable;
          bytes = bytes.items;
        } }
    {
        GuestArea {
            low,
            readable,
            writable,
            executable,
            bytes,
        }
    }

    #[inline(always)]
    pub fn holds(&self, addr: u64) -> bool
        ensures { result ≡ holds_of self.now addr }
    {
        addr.wrapping_sub(self.low) < self.bytes.len() as u64
    }

    pub fn low(&self) -> u64
        ensures { result ≡ self.now.low }
    {
        self.low
    }

    pub fn end(&self) -> u64
        ensures { result ≡ end_of self.now }
    {
        self.low + self.bytes.len() as u64
    }

    #[inline(always)]
    pub fn is_readable(&self) -> bool
        ensures { result ≡ self.now.readable }
    {
        self.readable
    }

    pub fn is_executable(&self) -> bool
        ensures { result ≡ self.now.executable }
    {
        self.executable
    }

    #[inline(always)]
    pub fn is_writable(&self) -> bool
        ensures { result ≡ self.now.writable }
    {
        self.writable
    }

    pub fn allows(&self, access: Access) -> bool
        ensures { result ≡ permission_of access self.now }
    {
        match access {
            Access::Read => self.readable,
            Access::Write => self.writable,
        }
    }

    pub fn as_slice(&self) -> &[u8]
        ensures { result.now ≡ self.now.bytes }
    {
        self.bytes.as_slice()
    }

    // The bytes from an address on.
    pub fn bytes_from(&self, addr: u64) -> &[u8]
        requires from { self.now.low ≤ addr }
        requires to { addr ≤ end_of self.now }
        ensures { result.now ≡ drop (addr - self.now.low) self.now.bytes }
    {
        &self.bytes.as_slice()[(addr - self.low) as usize..]
    }

    // Sets the bytes from an address on.
    pub fn set_bytes(&mut self, addr: u64, bytes: &[u8])
        requires from { self.old.low ≤ addr }
        requires to { addr + length bytes.now ≤ end_of self.old }
        ensures { self.new ≡ record self.old { bytes = spliced (addr - self.old.low) bytes.now self.old.bytes } }
    {
        let place = (addr - self.low) as usize;
        self.bytes.as_mut_slice()[place..place + bytes.len()].copy_from_slice(bytes);
    }

    #[inline(always)]
    pub fn number(&self, addr: u64, width: Width) -> u64
        requires from { self.now.low ≤ addr }
        requires to { addr + bytes_of width ≤ end_of self.now }
        ensures number { result ≡ little_number (bytes_of width) (drop (addr - self.now.low) self.now.bytes) }
        ensures fits { result < 256 ^ bytes_of width }
    {
        read(self.bytes.as_slice(), (addr - self.low) as usize, width)
    }

    #[inline(always)]
    pub fn set_number(&mut self, addr: u64, width: Width, value: u64)
        requires from { self.old.low ≤ addr }
        requires to { addr + bytes_of width ≤ end_of self.old }
        ensures { self.new ≡ record self.old {
          bytes = with_bytes (bytes_of width) (addr - self.old.low) value self.old.bytes;
        } }
    {
        let place = (addr - self.low) as usize;
        write(self.bytes.as_mut_slice(), place, width, value);
    }
}

#[inline(always)]
fn read(bytes: &[u8], place: usize, width: Width) -> u64
    requires { place + bytes_of width ≤ length bytes.now }
    ensures number { result ≡ little_number (bytes_of width) (drop place bytes.now) }
    ensures fits { result < 256 ^ bytes_of width }
{
    let rest = &bytes[place..];
    match width {
        Width::One => rest[0] as u64,
        Width::Two => LittleEndian::read_u16(rest) as u64,
        Width::Four => LittleEndian::read_u32(rest) as u64,
        Width::Eight => LittleEndian::read_u64(rest),
    }
}

#[inline(always)]
fn write(bytes: &mut [u8], place: usize, width: Width, value: u64)
    requires { place + bytes_of width ≤ length bytes.old }
    ensures { bytes.new ≡ with_bytes (bytes_of width) place value bytes.old }
{
    let all = value.to_le_bytes();
    match width {
        Width::One => bytes[place] = all[0],
        Width::Two => bytes[place..place + 2].copy_from_slice(&all[..2]),
        Width::Four => bytes[place..place + 4].copy_from_slice(&all[..4]),
        Width::Eight => bytes[place..place + 8].copy_from_slice(&all),
    }
}
