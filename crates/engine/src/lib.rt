//! The engine for callers in other languages: it checks a module, makes calls to a drive of it, takes it apart, or puts one
//! together, and writes what comes of that as bytes.

#![tactic(auto)]

ghost use Rattle.std.specs.Prelude.{◌≡◌, ◌++◌, ◌≤◌, length, take, drop};
ghost use Rattle.engine.specs.Fields.{room};
ghost use Rattle.engine.specs.Parts.{unpacked_fields, packed_fields};
ghost use Rattle.engine.specs.Whole.{checked_fields, ran_fields, fitting, laid};

use drive::call::{Call, Turn};
use field::Text;
use given::{CALL, ENTRY, INSTRUCTION, fill_entries, fill_instructions, fill_turns};
use lent::{LENT_BYTE, LENT_ENTRY, LENT_ROW, LENT_SHAPE, lend};
use module::limits;
use modules::{add_check, add_host_run};
use packing::parts::Parts;
use parts::{add_pack, add_unpack};

mod drives;
mod field;
mod given;
mod lent;
mod modules;
mod parts;
mod text;

// The most calls that are read.
const CALLS: usize = 256;

const BLANK: Turn = Turn {
    call: Call::Restart,
    answer: None,
};

// The most entries and instructions that are read, and the longest output that pack is lent.
const ENTRIES: usize = 128;

const INSTRUCTIONS: usize = 8_192;

const OUTPUT: usize = 40_000;

// Writes as much of a text as fits, and says how much that is.
fn give(text: &Text, out: &mut [u8]) -> usize
    ensures length { result ≡ length (take (length out.old) text.now.items) }
    ensures out { out.new ≡ take (length out.old) text.now.items ++ drop result out.old }
    ensures fits { length text.now.items ≤ room }
{
    let count = text.len().min(out.len());
    out[..count].copy_from_slice(&text.as_slice()[..count]);
    count
}

/// Checks a module over a sheet of so many rows, but not more than 4,096, and writes what check answers, and all rows as it
/// leaves them. It says how much it wrote: as much as fits, and no more than 40,960 bytes.
#[unsafe(no_mangle)]
pub extern "C" fn bench_check(bytes: &[u8], rows: usize, out: &mut [u8]) -> usize
    ensures length { result ≡ length (fitting out.old (checked_fields bytes.now rows)) }
    ensures out { out.new ≡ laid out.old (checked_fields bytes.now rows) }
{
    let mut sheet = [LENT_SHAPE; limits::INSTRUCTIONS];
    let mut text = Text::new();
    add_check(&mut text, bytes, lend(&mut sheet, rows));
    give(&text, out)
}

/// Makes the calls, 256 at most, to a new drive of a module over an axis or a table, of 512 rows at most, and writes how many
/// it made and what comes of them, in the same way.
#[unsafe(no_mangle)]
pub extern "C" fn bench_run(bytes: &[u8], host: &[u8], calls: &[u8], out: &mut [u8]) -> usize
    ensures length { result ≡ length (fitting out.old (ran_fields bytes.now host.now calls.now)) }
    ensures out { out.new ≡ laid out.old (ran_fields bytes.now host.now calls.now) }
{
    let mut turns = [BLANK; CALLS];
    let count = (calls.len() / CALL).min(CALLS);
    let turns = &mut turns[..count];
    fill_turns(calls, turns);
    let mut text = Text::new();
    add_host_run(&mut text, bytes, host, turns);
    give(&text, out)
}

/// Checks a module, unpacks it into so many entries and rows, 64 and 4,096 at most, and writes what comes of that, in the same
/// way.
#[unsafe(no_mangle)]
pub extern "C" fn bench_unpack(bytes: &[u8], entries: usize, rows: usize, out: &mut [u8]) -> usize
    ensures length { result ≡ length (fitting out.old (unpacked_fields bytes.now entries rows)) }
    ensures out { out.new ≡ laid out.old (unpacked_fields bytes.now entries rows) }
{
    let mut lent_entries = [LENT_ENTRY; limits::ROUTINES];
    let mut lent_rows = [LENT_ROW; limits::INSTRUCTIONS];
    let mut text = Text::new();
    add_unpack(
        &mut text,
        bytes,
        lend(&mut lent_entries, entries),
        lend(&mut lent_rows, rows),
    );
    give(&text, out)
}

/// Packs entries, 128 at most, instructions, 8,192 at most, and an image into an output of so many bytes, 40,000 at most, and
/// writes what comes of that, in the same way.
#[unsafe(no_mangle)]
pub extern "C" fn bench_pack(
    entries: &[u8],
    rows: &[u8],
    image: &[u8],
    size: usize,
    out: &mut [u8],
) -> usize
    ensures length { result ≡ length (fitting out.old (packed_fields entries.now rows.now image.now size)) }
    ensures out { out.new ≡ laid out.old (packed_fields entries.now rows.now image.now size) }
{
    let mut given_entries = [LENT_ENTRY; ENTRIES];
    let count = (entries.len() / ENTRY).min(ENTRIES);
    let given_entries = &mut given_entries[..count];
    fill_entries(entries, given_entries);
    let mut given_rows = [LENT_ROW; INSTRUCTIONS];
    let total = (rows.len() / INSTRUCTION).min(INSTRUCTIONS);
    let given_rows = &mut given_rows[..total];
    fill_instructions(rows, given_rows);
    let parts = Parts {
        entries: given_entries,
        rows: given_rows,
        image,
    };
    let mut output = [LENT_BYTE; OUTPUT];
    let mut text = Text::new();
    add_pack(&mut text, parts, lend(&mut output, size));
    give(&text, out)
}
