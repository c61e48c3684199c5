//! The lines that the program writes.
#![tactic(auto)]

ghost use Rattle.std.specs.Prelude.{◌≡◌, ◌++◌, ◌∷◌, [], codes, map, IfOk, OnOk};
ghost use Rattle.std.specs.List.{flat_map};
ghost use Rattle.chan_base.specs.Names.{name_text};
ghost use Rattle.machine_values.specs.Reading.{why_of};
ghost use Rattle.chan_machine.specs.Reading.{entry_of, ending_as};
ghost use Rattle.chanl_lines.specs.Lines as spec;

use chan_base::{Bytes, Memory, Name, Span};
use chan_machine::{Ending, Entry, Event, StuckWhy};
use chan_syntax::Ident;
use form_faults::{Ill, IllKind};
use std::alloc::Global;

#[tactic(auto, using(crate::proofs::Prints::by_entries))]
/// What a run writes: each number that was printed on its line, and then how it ended.
pub fn run_text(alloc: Global, entries: &[Entry], ending: &Ending) -> Result<Bytes, Memory>
    ensures { IfOk result (λ text. text ≡ spec.run_text (map entry_of entries.now) (ending_as ending.now)) }
{
    let mut text = Vec::new(alloc);
    add_prints(alloc, &mut text, entries)?;
    add_ending(alloc, &mut text, ending)?;
    Ok(Bytes::from_vec(text))
}

/// The beginning of a line that refuses a text for what stands at a place.
fn refused_text(alloc: Global, span: Span) -> Result<Vec<u8>, Memory>
    ensures { IfOk result (λ text. text.items ≡ codes "refused " ++ (spec.place_text span ++ 32 ∷ [])) }
{
    let mut text = Vec::from_slice(alloc, b"refused ")?;
    let line = span.line.to_string(alloc)?;
    text.extend_from_slice(line.as_bytes())?;
    text.push(b':')?;
    let column = span.column.to_string(alloc)?;
    text.extend_from_slice(column.as_bytes())?;
    text.push(b' ')?;
    Ok(text)
}

/// The line that refuses a text for what stands at a place.
pub fn refused_at(alloc: Global, span: Span, why: &[u8]) -> Result<Bytes, Memory>
    ensures { IfOk result (λ text. text ≡ spec.refused_at span why.now) }
{
    let mut text = refused_text(alloc, span)?;
    text.extend_from_slice(why)?;
    text.push(b'\n')?;
    Ok(Bytes::from_vec(text))
}

fn kind_text(kind: IllKind) -> &'static [u8]
    ensures { result.now ≡ spec.kind_text kind }
{
    match kind {
        IllKind::UnknownName => b"unknown name",
        IllKind::Twice => b"twice",
        IllKind::Arity => b"arity",
        IllKind::NoMain => b"no main",
        IllKind::Unscoped => b"unscoped",
        IllKind::Unguarded => b"unguarded",
        IllKind::TooMany => b"too many",
        IllKind::BadNumber => b"bad number",
        IllKind::WrongSession => b"wrong session",
    }
}

fn add_ident(text: &mut Vec<u8>, name: &Ident) -> Result<(), Memory>
    ensures { OnOk result (text.new.items ≡ text.old.items ++ spec.after_blank name.now) }
{
    text.push(b' ')?;
    text.extend_from_slice(name.as_slice())?;
    Ok(())
}

fn add_idents(text: &mut Vec<u8>, names: &[Ident]) -> Result<(), Memory>
    ensures { OnOk result (text.new.items ≡ text.old.items ++ spec.idents_text names.now) }
{
    for name in names {
        add_ident(text, name)?;
    }
    Ok(())
}

/// The line that refuses a text for a fault of form.
pub fn ill_line(alloc: Global, ill: &Ill) -> Result<Bytes, Memory>
    ensures { IfOk result (λ text. text ≡ spec.ill_line ill.now) }
{
    let mut text = refused_text(alloc, ill.span)?;
    text.extend_from_slice(kind_text(ill.kind))?;
    add_idents(&mut text, ill.names.as_slice())?;
    text.push(b'\n')?;
    Ok(Bytes::from_vec(text))
}

fn add_print(alloc: Global, text: &mut Vec<u8>, entry: &Entry) -> Result<(), Memory>
    ensures { OnOk result (text.new.items ≡ text.old.items ++ spec.entry_lines (entry_of entry.now)) }
{
    if let Event::Print(number) = &entry.event {
        let number = number.to_string(alloc)?;
        text.extend_from_slice(number.as_bytes())?;
        text.push(b'\n')?;
    }
    Ok(())
}

fn add_prints(alloc: Global, text: &mut Vec<u8>, entries: &[Entry]) -> Result<(), Memory>
    ensures { OnOk result (text.new.items ≡ text.old.items ++ flat_map (λ e. spec.entry_lines (entry_of e)) entries.now) }
{
    for entry in entries {
        add_print(alloc, text, entry)?;
    }
    Ok(())
}

fn add_name(alloc: Global, text: &mut Vec<u8>, name: &Name) -> Result<(), Memory>
    ensures { OnOk result (text.new.items ≡ text.old.items ++ 32 ∷ name_text name.now) }
{
    text.push(b' ')?;
    let name = name.text(alloc)?;
    text.extend_from_slice(name.as_slice())?;
    Ok(())
}

fn add_names(alloc: Global, text: &mut Vec<u8>, names: &[Name]) -> Result<(), Memory>
    ensures { OnOk result (text.new.items ≡ text.old.items ++ spec.names_text names.now) }
{
    for name in names {
        add_name(alloc, text, name)?;
    }
    Ok(())
}

fn why_text(why: StuckWhy) -> &'static [u8]
    ensures { result.now ≡ spec.why_text (why_of why) }
{
    match why {
        StuckWhy::NotInt => b"not int",
        StuckWhy::NotEnd => b"not end",
        StuckWhy::NotPair => b"not pair",
        StuckWhy::NotSum => b"not sum",
        StuckWhy::FullChannel => b"full channel",
        StuckWhy::NoChannel => b"no channel",
        StuckWhy::Absurd => b"absurd",
        StuckWhy::Deep => b"deep",
    }
}

/// How a run ended, with no end of the line.
fn add_ending_text(alloc: Global, text: &mut Vec<u8>, ending: &Ending) -> Result<(), Memory>
    ensures { OnOk result (text.new.items ≡ text.old.items ++ spec.ending_text (ending_as ending.now)) }
{
    match ending {
        Ending::Finished => text.extend_from_slice(b"finished")?,
        Ending::Rounds => text.extend_from_slice(b"stopped rounds")?,
        Ending::Range(name) => {
            text.extend_from_slice(b"stopped range")?;
            add_name(alloc, text, name)?;
        }
        Ending::Depth(name) => {
            text.extend_from_slice(b"stopped depth")?;
            add_name(alloc, text, name)?;
        }
        Ending::Stuck(name, why) => {
            text.extend_from_slice(b"stuck")?;
            add_name(alloc, text, name)?;
            text.push(b' ')?;
            text.extend_from_slice(why_text(*why))?;
        }
        Ending::Deadlocked(names) => {
            text.extend_from_slice(b"deadlocked")?;
            add_names(alloc, text, names.as_slice())?;
        }
        Ending::Leaked(names) => {
            text.extend_from_slice(b"leaked")?;
            add_names(alloc, text, names.as_slice())?;
        }
    }
    Ok(())
}

fn add_ending(alloc: Global, text: &mut Vec<u8>, ending: &Ending) -> Result<(), Memory>
    ensures { OnOk result (text.new.items ≡ text.old.items ++ spec.ending_line (ending_as ending.now)) }
{
    add_ending_text(alloc, text, ending)?;
    text.push(b'\n')?;
    Ok(())
}
