//! The texts of entries.
ghost use Rattle.std.specs.Prelude.{◌≡◌, ◌++◌, ◌∷◌, codes, IfOk, OnOk};
ghost use Rattle.std.specs.Fmt.{signed_decimal};
ghost use Rattle.chan_base.specs.Names.{name_text};
ghost use Rattle.chan_machine.specs.Reading.{entry_of, event_of};
ghost use Rattle.history.specs.Texts as spec;

use chan_base::{Bytes, Memory, Name};
use chan_machine::{Entry, Event};
use std::alloc::Global;

fn add_name(alloc: Global, text: &mut Vec<u8>, name: &Name) -> Result<(), Memory>
    ensures { OnOk result (text.new.items ≡ text.old.items ++ name_text name.now) }
{
    let name = name.text(alloc)?;
    text.extend_from_slice(name.as_slice())?;
    Ok(())
}

fn add_print(alloc: Global, text: &mut Vec<u8>, number: i128) -> Result<(), Memory>
    ensures { OnOk result (text.new.items ≡ text.old.items ++ codes " print " ++ signed_decimal number) }
{
    text.extend_from_slice(b" print ")?;
    let number = number.to_string(alloc)?;
    text.extend_from_slice(number.as_bytes())?;
    Ok(())
}

/// Adds what was done.
fn add_event(alloc: Global, text: &mut Vec<u8>, event: &Event) -> Result<(), Memory>
    ensures { OnOk result (text.new.items ≡ text.old.items ++ spec.event_text (event_of event.now)) }
{
    match event {
        Event::Silent => Ok(()),
        Event::Fork(channel) => {
            text.extend_from_slice(b" fork ")?;
            add_name(alloc, text, channel)
        }
        Event::Send(channel) => {
            text.extend_from_slice(b" send ")?;
            add_name(alloc, text, channel)
        }
        Event::Recv(channel) => {
            text.extend_from_slice(b" recv ")?;
            add_name(alloc, text, channel)
        }
        Event::Print(number) => add_print(alloc, text, *number),
        Event::End => {
            text.extend_from_slice(b" end")?;
            Ok(())
        }
    }
}

/// The time, the task and what it did, with no end of the line.
pub fn entry_text(alloc: Global, entry: &Entry) -> Result<Bytes, Memory>
    ensures { IfOk result (λ text. text ≡ spec.entry_text (entry_of entry.now)) }
{
    let mut text = Vec::new(alloc);
    let time = entry.time.to_string(alloc)?;
    text.extend_from_slice(time.as_bytes())?;
    text.push(b' ')?;
    add_name(alloc, &mut text, &entry.name)?;
    add_event(alloc, &mut text, &entry.event)?;
    Ok(Bytes::from_vec(text))
}
