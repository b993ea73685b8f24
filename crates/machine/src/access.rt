// Loads and stores: the lowest byte stands first.
ghost use Rattle.std.specs.Prelude.{◌≡◌, ◌+◌, ◌≤◌, is_some};
ghost use Rattle.isa.specs.Form.{bytes as bytes_of};
ghost use Rattle.machine.specs.Memory.{fits, loading, storing, loaded, stored};

use crate::memory::{BYTES, Memory};
use isa::instr::Width;

// Whether an access lies in memory. The test is the rule's, on a number of 64 bits, before the address becomes an index.
fn is_inside(address: u64, width: Width) -> bool
    ensures { result ≡ fits address width }
{
    address <= BYTES as u64 - u64::from(u8::from(width))
}

impl Memory {
    fn read(&self, at: usize, width: Width) -> u32
        requires { at + bytes_of width ≤ 4096 }
        ensures { result ≡ loaded self.now.bytes at width }
    {
        let bytes = &self.bytes;
        match width {
            Width::One => u32::from(bytes[at]),
            Width::Two => u32::from(u16::from_le_bytes([bytes[at], bytes[at + 1]])),
            Width::Four => {
                u32::from_le_bytes([bytes[at], bytes[at + 1], bytes[at + 2], bytes[at + 3]])
            }
        }
    }

    fn write(&mut self, at: usize, width: Width, v: u32)
        requires { at + bytes_of width ≤ 4096 }
        ensures { self.new.bytes ≡ stored self.old.bytes at width v }
    {
        let [b0, b1, b2, b3] = v.to_le_bytes();
        match width {
            Width::One => self.bytes[at] = b0,
            Width::Two => self.bytes[at..at + 2].copy_from_slice(&[b0, b1]),
            Width::Four => self.bytes[at..at + 4].copy_from_slice(&[b0, b1, b2, b3]),
        }
    }

    #[inline(always)]
    fn load_of(&self, address: u64, width: Width) -> Option<u32>
        ensures { result ≡ loading self.now.bytes address width }
    {
        if !is_inside(address, width) {
            return None;
        }
        Some(self.read(address as usize, width))
    }

    #[inline(always)]
    fn store_of(&mut self, address: u64, width: Width, v: u32) -> Option<()>
        ensures answer { is_some result ≡ fits address width }
        ensures memory { self.new.bytes ≡ storing self.old.bytes address width v }
    {
        if !is_inside(address, width) {
            return None;
        }
        self.write(address as usize, width, v);
        Some(())
    }

    /// The number in the bytes from an address on, or none where they pass the end.
    // Each width by itself, here and in a store, so that it is looked at once, and its test and its access are code of their own.
    #[inline(always)]
    pub fn load(&self, address: u64, width: Width) -> Option<u32>
        ensures { result ≡ loading self.now.bytes address width }
    {
        match width {
            Width::One => self.load_of(address, Width::One),
            Width::Two => self.load_of(address, Width::Two),
            Width::Four => self.load_of(address, Width::Four),
        }
    }

    /// Puts the low bytes of v from an address on, or answers none where they pass the end, and then nothing changes.
    #[inline(always)]
    pub fn store(&mut self, address: u64, width: Width, v: u32) -> Option<()>
        ensures answer { is_some result ≡ fits address width }
        ensures memory { self.new.bytes ≡ storing self.old.bytes address width v }
    {
        match width {
            Width::One => self.store_of(address, Width::One, v),
            Width::Two => self.store_of(address, Width::Two, v),
            Width::Four => self.store_of(address, Width::Four, v),
        }
    }
}
