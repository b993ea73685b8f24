// What comes of a module: of its check, and of calls to a drive of it.
ghost use Rattle.std.specs.Prelude.{◌≡◌, ◌<◌, length, map, drop};
ghost use Rattle.module.specs.Verdict.{sheet_after};
ghost use Rattle.drive.specs.View.{call_of};
ghost use Rattle.engine.specs.Fields.{fields_bytes, Added};
ghost use Rattle.engine.specs.Whole.{counts_fields, verdict_fields, sheet_fields, axis_fields, table_fields, host_fields};

use crate::drives::add_run;
use crate::field::{Field, Text, add, add_all};
use crate::given::{ROW, fill_rows};
use crate::text::{add_refusal, add_rows, add_shapes};
use drive::call::Turn;
use host::axis::AxisHost;
use host::port::{Flag, Port};
use host::table::TableHost;
use module::check::examine;
use module::limits;
use module::opened::Counts;
use module::shape::ShapeRow;

// The most rows of a table that are read.
const ROWS: usize = 512;

const BLANK: Port = Port {
    value: 0,
    low: 0,
    high: 0,
    flag: Flag::Order,
    rest: None,
};

// N, T and D.
fn add_counts(text: &mut Text, counts: Counts)
    ensures { Added text.old.items (fields_bytes (counts_fields counts)) text.new.items }
{
    add_all(
        text,
        &[
            Field::Four((counts.routines % 4_294_967_296) as u32),
            Field::Four((counts.total % 4_294_967_296) as u32),
            Field::Four((counts.image % 4_294_967_296) as u32),
        ],
    );
}

// Checks a module over a sheet, and adds the answer.
fn add_verdict(text: &mut Text, bytes: &[u8], sheet: &mut [ShapeRow])
    ensures text { Added text.old.items (fields_bytes (verdict_fields bytes.now (length sheet.old))) text.new.items }
    ensures sheet { sheet.new ≡ sheet_after bytes.now sheet.old }
{
    match examine(bytes, sheet) {
        Ok(checked) => {
            add(text, Field::One(0));
            add_counts(text, checked.counts());
        }
        Err(refusal) => add_refusal(text, refusal),
    }
}

// Checks a module over a sheet, and adds the answer and all rows as they are then.
pub(crate) fn add_check(text: &mut Text, bytes: &[u8], sheet: &mut [ShapeRow])
    ensures { Added text.old.items (fields_bytes (sheet_fields bytes.now sheet.old)) text.new.items }
{
    add_verdict(text, bytes, sheet);
    add_shapes(text, sheet);
}

// Makes calls over a new axis.
fn add_axis_run(text: &mut Text, bytes: &[u8], turns: &mut [Turn])
    ensures { Added text.old.items (fields_bytes (axis_fields bytes.now (map call_of turns.old))) text.new.items }
{
    let mut sheet = [ShapeRow::BLANK; limits::INSTRUCTIONS];
    match examine(bytes, &mut sheet) {
        Ok(checked) => {
            add(text, Field::One(0));
            add_run(text, checked, &mut AxisHost::new(), turns);
        }
        Err(refusal) => add_refusal(text, refusal),
    }
}

// Makes calls over a table of these rows, and adds the rows afterwards.
fn add_table_run(text: &mut Text, bytes: &[u8], rows: &mut [Port], turns: &mut [Turn])
    ensures { Added text.old.items (fields_bytes (table_fields bytes.now rows.old (map call_of turns.old))) text.new.items }
{
    let mut sheet = [ShapeRow::BLANK; limits::INSTRUCTIONS];
    match examine(bytes, &mut sheet) {
        Ok(checked) => {
            add(text, Field::One(0));
            add_run(text, checked, &mut TableHost::new(rows), turns);
            add_rows(text, rows);
        }
        Err(refusal) => add_refusal(text, refusal),
    }
}

// The bytes after the first.
fn rest(host: &[u8]) -> &[u8]
    requires { 0 < length host.now }
    ensures { result.now ≡ drop 1 host.now }
{
    &host[1..]
}

// Makes calls over the host that is given.
pub(crate) fn add_host_run(text: &mut Text, bytes: &[u8], host: &[u8], turns: &mut [Turn])
    ensures { Added text.old.items (fields_bytes (host_fields bytes.now host.now (map call_of turns.old))) text.new.items }
{
    if host.len() == 0 {
        add_axis_run(text, bytes, turns);
        return;
    }
    let given = rest(host);
    let mut rows = [BLANK; ROWS];
    let count = (given.len() / ROW).min(ROWS);
    let rows = &mut rows[..count];
    fill_rows(given, rows);
    add_table_run(text, bytes, rows, turns);
}
