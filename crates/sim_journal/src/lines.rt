ghost use Rattle.std.specs.Prelude.{◌≡◌, ◌++◌, OnOk, IfOk, decimal, codes};
ghost use Rattle.sim_design.specs.Design.{instance_name, net_name, name_in};
ghost use Rattle.sim_journal.specs.Print.{line, end_line, bit_literal};

use crate::{End, Entry, NoMemory};
use itoa::Buffer;
use sim_design::Design;
use std::alloc::Global;

fn put(text: &mut Vec<u8>, bytes: &[u8]) -> Result<(), NoMemory>
    ensures { OnOk result (text.new.items ≡ text.old.items ++ bytes.now) }
{
    text.extend_from_slice(bytes)?;
    Ok(())
}

fn put_number(text: &mut Vec<u8>, number: u64) -> Result<(), NoMemory>
    ensures { OnOk result (text.new.items ≡ text.old.items ++ decimal number) }
{
    let mut buffer = Buffer::new();
    put(text, buffer.format(number).as_bytes())
}

fn put_instance_name(text: &mut Vec<u8>, design: &Design, instance: u32) -> Result<(), NoMemory>
    ensures { OnOk result (text.new.items ≡ text.old.items ++ instance_name design.now instance) }
{
    if let Some(instance) = design.instances.get(instance as usize) {
        put(text, b":")?;
        put(text, instance.name.as_slice())?;
    }
    Ok(())
}

fn put_net_name(text: &mut Vec<u8>, design: &Design, net: u32) -> Result<(), NoMemory>
    ensures { OnOk result (text.new.items ≡ text.old.items ++ net_name design.now net) }
{
    if let Some(net) = design.nets.get(net as usize) {
        put_instance_name(text, design, net.instance)?;
        put(text, b":")?;
        put(text, net.name.as_slice())?;
    }
    Ok(())
}

fn put_bit(text: &mut Vec<u8>, value: i64) -> Result<(), NoMemory>
    ensures { OnOk result (text.new.items ≡ text.old.items ++ bit_literal value) }
{
    if value == 0 {
        put(text, b"'0'")
    } else {
        put(text, b"'1'")
    }
}

fn append_event(text: &mut Vec<u8>, design: &Design, net: u32, value: i64) -> Result<(), NoMemory>
    ensures { OnOk result (text.new.items ≡ text.old.items ++ (codes "! " ++ (net_name design.now net ++ (codes " " ++ (bit_literal value ++ codes "\n"))))) }
{
    put(text, b"! ")?;
    put_net_name(text, design, net)?;
    put(text, b" ")?;
    put_bit(text, value)?;
    put(text, b"\n")
}

fn append_time(text: &mut Vec<u8>, now: u64, delta: u32, cycle: u32) -> Result<(), NoMemory>
    ensures { OnOk result (text.new.items ≡ text.old.items ++ (codes "@ " ++ (decimal now ++ (codes " " ++ (decimal delta ++ (codes " " ++ (decimal cycle ++ codes "\n"))))))) }
{
    put(text, b"@ ")?;
    put_number(text, now)?;
    put(text, b" ")?;
    put_number(text, u64::from(delta))?;
    put(text, b" ")?;
    put_number(text, u64::from(cycle))?;
    put(text, b"\n")
}

fn append_last(text: &mut Vec<u8>, kind: &[u8], now: u64, cycle: u32) -> Result<(), NoMemory>
    ensures { OnOk result (text.new.items ≡ text.old.items ++ (kind.now ++ (decimal now ++ (codes " " ++ (decimal cycle ++ codes "\n"))))) }
{
    put(text, kind)?;
    put_number(text, now)?;
    put(text, b" ")?;
    put_number(text, u64::from(cycle))?;
    put(text, b"\n")
}

fn append_end(text: &mut Vec<u8>, end: End) -> Result<(), NoMemory>
    ensures { OnOk result (text.new.items ≡ text.old.items ++ end_line end) }
{
    match end {
        End::Quiet { now, cycle } => append_last(text, b"# end quiet ", now, cycle),
        End::CycleLimit { now, cycle } => append_last(text, b"# end limit ", now, cycle),
    }
}

/// Puts the line of an entry of this design's run behind `text`.
pub fn append_entry(text: &mut Vec<u8>, design: &Design, entry: &Entry) -> Result<(), NoMemory>
    ensures { OnOk result (text.new.items ≡ text.old.items ++ line design.now entry.now) }
{
    match *entry {
        Entry::Time { now, delta, cycle } => append_time(text, now, delta, cycle),
        Entry::Event { net, value } => append_event(text, design, net, value),
        Entry::Ended(end) => append_end(text, end),
    }
}

/// The line of an entry of this design's run, with its line feed.
pub fn print_entry(alloc: Global, design: &Design, entry: &Entry) -> Result<Vec<u8>, NoMemory>
    ensures { IfOk result (λ text. text.items ≡ line design.now entry.now) }
{
    let mut text = Vec::new(alloc);
    append_entry(&mut text, design, entry)?;
    Ok(text)
}
