// Hosts, calls, entries and instructions, as they are given.
ghost use Rattle.std.specs.Prelude.{◌≡◌, ◌+◌, ◌*◌, ◌≤◌, length, map};
ghost use Rattle.module.specs.Bytes.{two, four};
ghost use Rattle.module.specs.Layout.{row_from};
ghost use Rattle.drive.specs.View.{call_of};
ghost use Rattle.engine.specs.Given.{row_at, rows_in, call_at, calls_in, entry_at, entries_in, instructions_in};

use drive::call::{Call, Turn};
use host::port::{Flag, Port};
use isa::row::Row;
use module::entry::Entry;

// How many bytes a row of a table has, a call, an entry, and an instruction.
pub(crate) const ROW: usize = 18;

pub(crate) const CALL: usize = 5;

pub(crate) const ENTRY: usize = 4;

pub(crate) const INSTRUCTION: usize = 8;

fn read_four(bytes: &[u8], at: usize) -> u32
    requires { at + 4 ≤ length bytes.now }
    ensures { result ≡ four bytes.now at }
{
    u32::from_le_bytes([bytes[at], bytes[at + 1], bytes[at + 2], bytes[at + 3]])
}

fn row_at(bytes: &[u8], at: usize) -> Port
    requires { at + 18 ≤ length bytes.now }
    ensures { result ≡ row_at bytes.now at }
{
    let flag = match bytes[at + 12] {
        0 => Flag::Order,
        _ => Flag::Sense,
    };
    let rest = match bytes[at + 13] {
        0 => None,
        _ => Some(read_four(bytes, at + 14)),
    };
    Port {
        value: read_four(bytes, at),
        low: read_four(bytes, at + 4),
        high: read_four(bytes, at + 8),
        flag,
        rest,
    }
}

fn call_at(bytes: &[u8], at: usize) -> Call
    requires { at + 5 ≤ length bytes.now }
    ensures { result ≡ call_at bytes.now at }
{
    match bytes[at] {
        0 => Call::Grant {
            fuel: read_four(bytes, at + 1),
        },
        1 => Call::Restart,
        _ => Call::PowerCycle,
    }
}

// Fills rows with those of a table.
pub(crate) fn fill_rows(bytes: &[u8], rows: &mut [Port])
    requires { 18 * length rows.old ≤ length bytes.now }
    ensures { rows.new ≡ rows_in bytes.now (length rows.old) }
{
    for (i, row) in rows.iter_mut().enumerate() {
        *row = row_at(bytes, ROW * i);
    }
}

// Fills turns with calls.
pub(crate) fn fill_turns(bytes: &[u8], turns: &mut [Turn])
    requires { 5 * length turns.old ≤ length bytes.now }
    ensures { map call_of turns.new ≡ calls_in bytes.now (length turns.old) }
{
    for (i, turn) in turns.iter_mut().enumerate() {
        *turn = Turn {
            call: call_at(bytes, CALL * i),
            answer: None,
        };
    }
}

fn entry_at(bytes: &[u8], at: usize) -> Entry
    requires { at + 4 ≤ length bytes.now }
    ensures { result ≡ entry_at bytes.now at }
{
    Entry {
        count: u16::from_le_bytes([bytes[at], bytes[at + 1]]),
        arguments: bytes[at + 2],
        results: bytes[at + 3],
    }
}

fn instruction_at(bytes: &[u8], at: usize) -> Row
    requires { at + 8 ≤ length bytes.now }
    ensures { result ≡ row_from bytes.now at }
{
    Row {
        op: bytes[at],
        a: bytes[at + 1],
        b: bytes[at + 2],
        c: bytes[at + 3],
        n: read_four(bytes, at + 4),
    }
}

// Fills entries.
pub(crate) fn fill_entries(bytes: &[u8], entries: &mut [Entry])
    requires { 4 * length entries.old ≤ length bytes.now }
    ensures { entries.new ≡ entries_in bytes.now (length entries.old) }
{
    for (i, entry) in entries.iter_mut().enumerate() {
        *entry = entry_at(bytes, ENTRY * i);
    }
}

// Fills rows with instructions.
pub(crate) fn fill_instructions(bytes: &[u8], rows: &mut [Row])
    requires { 8 * length rows.old ≤ length bytes.now }
    ensures { rows.new ≡ instructions_in bytes.now (length rows.old) }
{
    for (i, row) in rows.iter_mut().enumerate() {
        *row = instruction_at(bytes, INSTRUCTION * i);
    }
}
