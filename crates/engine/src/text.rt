// What is written of each thing, number by number.
ghost use Rattle.std.specs.Prelude.{◌≡◌, ◌%◌, ◌∷◌, length, map};
ghost use Rattle.std.specs.List.{flat_map};
ghost use Rattle.refusal.specs.Values.{values_of, told};
ghost use Rattle.faults.specs.Causes.{trip_of};
ghost use Rattle.faults.specs.Faults.{values_of as fault_values};
ghost use Rattle.machine.specs.Parts.{phase_of};
ghost use Rattle.drive.specs.View.{by_values, said_of};
ghost use Rattle.engine.specs.declared.field.Field.TheVariants.{Four};
ghost use Rattle.engine.specs.Fields.{fields_bytes, refusal_fields, refused_fields, trip_fields, state_fields, answer_fields, place_fields, said_fields, fault_fields, row_fields, shape_fields, entry_fields, instruction_fields, Added};

use crate::field::{Field, Text, add, add_all};
use drive::call::{Answer, Turn};
use faults::cause::Cause;
use faults::fault::Fault;
use host::port::{Flag, Port};
use isa::row::Row;
use machine::machine::State;
use module::entry::Entry;
use module::shape::ShapeRow;
use refusal::{Place, Refusal};

fn refusal_fields(refusal: Refusal) -> [Field; 4]
    ensures { result ≡ refusal_fields (values_of refusal) }
{
    [
        Field::One(refusal.number()),
        Field::One(u8::from(refusal.layer())),
        Field::Two(refusal.routine()),
        Field::Two(refusal.instruction()),
    ]
}

fn trip_fields(cause: Cause, place: Place) -> [Field; 5]
    ensures { result ≡ trip_fields (trip_of cause place) }
{
    [
        Field::One(cause.number()),
        Field::One(u8::from(cause.layer())),
        Field::Two(place.routine),
        Field::Two(place.instruction),
        Field::Eight(cause.detail()),
    ]
}

// A 1 and the refusal.
pub(crate) fn add_refusal(text: &mut Text, refusal: Refusal)
    ensures { Added text.old.items (fields_bytes (refused_fields (values_of refusal))) text.new.items }
{
    add(text, Field::One(1));
    add_all(text, &refusal_fields(refusal));
}

pub(crate) fn add_state(text: &mut Text, state: State)
    ensures { Added text.old.items (fields_bytes (state_fields (phase_of state))) text.new.items }
{
    match state {
        State::Running => add(text, Field::One(0)),
        State::Ended => add(text, Field::One(1)),
        State::Tripped { cause, place } => {
            add(text, Field::One(2));
            add_all(text, &trip_fields(cause, place));
        }
    }
}

fn add_answer(text: &mut Text, answer: Answer)
    ensures { Added text.old.items (fields_bytes (answer_fields (by_values answer))) text.new.items }
{
    match answer {
        Ok((made, state)) => {
            add(text, Field::One(0));
            add(text, Field::Four(made));
            add_state(text, state);
        }
        Err(refusal) => add_refusal(text, refusal),
    }
}

fn count_field(turns: &[Turn]) -> Field
    ensures { result ≡ Four (length turns.now % 4294967296) }
{
    Field::Four((turns.len() % 4_294_967_296) as u32)
}

// How many calls there are, and the answers that were filled in.
pub(crate) fn add_answers(text: &mut Text, turns: &[Turn])
    ensures { Added text.old.items (fields_bytes (Four (length turns.now % 4294967296) ∷ flat_map said_fields (map said_of turns.now))) text.new.items }
{
    add(text, count_field(turns));
    for turn in turns {
        if let Some(answer) = turn.answer {
            add_answer(text, answer);
        }
    }
}

// The place, or a 1 and the refusal.
pub(crate) fn add_place(text: &mut Text, place: Result<Place, Refusal>)
    ensures { Added text.old.items (fields_bytes (place_fields (told place))) text.new.items }
{
    match place {
        Ok(place) => add_all(
            text,
            &[
                Field::One(0),
                Field::Two(place.routine),
                Field::Two(place.instruction),
            ],
        ),
        Err(refusal) => add_refusal(text, refusal),
    }
}

pub(crate) fn add_fault(text: &mut Text, fault: Fault)
    ensures { Added text.old.items (fields_bytes (fault_fields (fault_values fault))) text.new.items }
{
    add_all(text, &trip_fields(fault.cause, fault.place));
    add(text, Field::One(fault.mark()));
}

fn row_fields(row: Port) -> [Field; 6]
    ensures { result ≡ row_fields row }
{
    let flag = match row.flag {
        Flag::Order => 0,
        Flag::Sense => 1,
    };
    [
        Field::Four(row.value),
        Field::Four(row.low),
        Field::Four(row.high),
        Field::One(flag),
        Field::One(u8::from(row.rest.is_some())),
        Field::Four(row.rest.unwrap_or(0)),
    ]
}

// The rows of a table.
pub(crate) fn add_rows(text: &mut Text, rows: &[Port])
    ensures { Added text.old.items (fields_bytes (flat_map row_fields rows.now)) text.new.items }
{
    for row in rows {
        add_all(text, &row_fields(*row));
    }
}

fn shape_fields(row: ShapeRow) -> [Field; 2]
    ensures { result ≡ shape_fields row }
{
    [Field::Two(row.depth), Field::Four(row.mask)]
}

// Rows of a sheet.
pub(crate) fn add_shapes(text: &mut Text, rows: &[ShapeRow])
    ensures { Added text.old.items (fields_bytes (flat_map shape_fields rows.now)) text.new.items }
{
    for row in rows {
        add_all(text, &shape_fields(*row));
    }
}

fn entry_fields(entry: Entry) -> [Field; 3]
    ensures { result ≡ entry_fields entry }
{
    [
        Field::Two(entry.count),
        Field::One(entry.arguments),
        Field::One(entry.results),
    ]
}

pub(crate) fn add_entries(text: &mut Text, entries: &[Entry])
    ensures { Added text.old.items (fields_bytes (flat_map entry_fields entries.now)) text.new.items }
{
    for entry in entries {
        add_all(text, &entry_fields(*entry));
    }
}

fn instruction_fields(row: Row) -> [Field; 5]
    ensures { result ≡ instruction_fields row }
{
    [
        Field::One(row.op),
        Field::One(row.a),
        Field::One(row.b),
        Field::One(row.c),
        Field::Four(row.n),
    ]
}

// Rows of instructions.
pub(crate) fn add_instructions(text: &mut Text, rows: &[Row])
    ensures { Added text.old.items (fields_bytes (flat_map instruction_fields rows.now)) text.new.items }
{
    for row in rows {
        add_all(text, &instruction_fields(*row));
    }
}
