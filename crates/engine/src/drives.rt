// What there is of a drive and its host after calls.
ghost use Rattle.std.specs.Prelude.{◌≡◌, List, [], map, length, take};
ghost use Rattle.host.specs.declared.port.Port.{Port};
ghost use Rattle.module.specs.Told.{bytes_of};
ghost use Rattle.drive.specs.Log.{new_log, log_after};
ghost use Rattle.drive.specs.View.{world_in, faults_in, call_of};
ghost use Rattle.engine.specs.declared.field.Field.TheVariants.{One};
ghost use Rattle.engine.specs.Fields.{fields_bytes, Added};
ghost use Rattle.engine.specs.Whole.{memory_size, register_fields, faults_fields, port_fields, world_fields, run_fields};

use crate::field::{Field, Text, add};
use crate::text::{add_answers, add_fault, add_place, add_state};
use drive::call::Turn;
use drive::drive::Drive;
use drive::run::run;
use host::Host;
use host::port::MOST_PORTS;
use module::checked::Checked;

const MEMORY: usize = 4_096;

fn add_registers(text: &mut Text, drive: &Drive<'_>)
    ensures { Added text.old.items (fields_bytes (register_fields (world_in drive.now []).levels)) text.new.items }
{
    let depth = drive.depth();
    add(text, Field::One((depth % 256) as u8));
    for k in 0..depth {
        let Ok(value) = drive.register(k) else {
            break;
        };
        add(text, Field::Four(value));
    }
}

fn add_memory(text: &mut Text, drive: &Drive<'_>)
    ensures { Added text.old.items (fields_bytes (map One (take memory_size (world_in drive.now []).memory))) text.new.items }
{
    for i in 0..MEMORY {
        let Ok(byte) = drive.byte(i) else {
            break;
        };
        add(text, Field::One(byte));
    }
}

fn add_faults(text: &mut Text, drive: &Drive<'_>)
    ensures { Added text.old.items (fields_bytes (faults_fields (faults_in drive.now))) text.new.items }
{
    let count = drive.fault_count();
    add(text, Field::One((count % 256) as u8));
    for i in 0..count {
        let Ok(fault) = drive.fault(i) else {
            break;
        };
        add_fault(text, fault);
    }
}

fn count_ports<H: Host>(host: &H) -> usize
    ensures { result ≡ length (H.ports host.now) }
{
    for p in 0..MOST_PORTS {
        let Ok(_value) = host.read(p) else {
            return p;
        };
    }
    MOST_PORTS
}

fn add_ports<H: Host>(text: &mut Text, host: &H)
    ensures { Added text.old.items (fields_bytes (port_fields (H.ports host.now))) text.new.items }
{
    let count = count_ports(host);
    add(text, Field::Two((count % 65_536) as u16));
    for p in 0..count {
        let Ok(value) = host.read(p) else {
            break;
        };
        add(text, Field::Four(value));
    }
}

fn add_drive(text: &mut Text, drive: &Drive<'_>)
    ensures { (ports : List Port) → Added text.old.items (fields_bytes (world_fields (world_in drive.now ports) (faults_in drive.now))) text.new.items }
{
    add_state(text, drive.state());
    add_place(text, drive.place());
    add_registers(text, drive);
    add_memory(text, drive);
    add_faults(text, drive);
}

// Makes calls to a new drive, and adds what comes of them.
pub(crate) fn add_run<H: Host>(
    text: &mut Text,
    checked: Checked<'_>,
    host: &mut H,
    turns: &mut [Turn],
)
    ensures text { Added text.old.items (fields_bytes (run_fields (bytes_of checked.entry.opened) (H.rule (H.base host.old)) (H.ports host.old) (map call_of turns.old))) text.new.items }
    ensures ports { H.ports host.new ≡ (log_after (bytes_of checked.entry.opened) (H.rule (H.base host.old)) (map call_of turns.old) (new_log (bytes_of checked.entry.opened) (H.ports host.old))).world.ports }
    ensures base { H.base host.new ≡ H.base host.old }
{
    let drive = run(checked, host, turns);
    add_answers(text, turns);
    add_drive(text, &drive);
    add_ports(text, host);
}
