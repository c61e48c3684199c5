//! The line that tells why a program isn't outlined.
#![tactic(auto)]

ghost use Rattle.std.specs.Prelude.{◌≡◌, ◌++◌, ◌∷◌, [], codes, IfOk, OnOk};
ghost use Rattle.std.specs.Fmt.{decimal, signed_decimal};
ghost use Rattle.outline_obligations.specs.Reasons.{why_of};
ghost use Rattle.outline_lines.specs.Lines as spec;
ghost use Rattle.outline_lines.specs.Places.{fault_at};

use chan_base::{Bytes, Memory, Span};
use chan_syntax::Ident;
use farkas_check::CertFault;
use outline_obligations::Why;
use std::alloc::Global;

fn add_number(alloc: Global, text: &mut Vec<u8>, number: u32) -> Result<(), Memory>
    ensures { OnOk result (text.new.items ≡ text.old.items ++ decimal number) }
{
    let number = number.to_string(alloc)?;
    text.extend_from_slice(number.as_bytes())?;
    Ok(())
}

/// A space and the number.
fn add_integer(alloc: Global, text: &mut Vec<u8>, number: i128) -> Result<(), Memory>
    ensures { OnOk result (text.new.items ≡ text.old.items ++ 32 ∷ signed_decimal number) }
{
    text.push(b' ')?;
    let number = number.to_string(alloc)?;
    text.extend_from_slice(number.as_bytes())?;
    Ok(())
}

fn add_variable(text: &mut Vec<u8>, names: &[Ident], variable: u32) -> Result<(), Memory>
    ensures { OnOk result (text.new.items ≡ text.old.items ++ spec.variable_text names.now variable) }
{
    if let Some(name) = names.get(variable as usize) {
        text.extend_from_slice(name.as_slice())?;
    }
    Ok(())
}

fn add_cert_fault(
    alloc: Global,
    text: &mut Vec<u8>,
    names: &[Ident],
    fault: &CertFault,
) -> Result<(), Memory>
    ensures { OnOk result (text.new.items ≡ text.old.items ++ spec.cert_text names.now fault.now) }
{
    match fault {
        CertFault::BadIndex(index) => {
            text.extend_from_slice(b"bad index ")?;
            add_number(alloc, text, *index)
        }
        CertFault::Negative(index) => {
            text.extend_from_slice(b"negative ")?;
            add_number(alloc, text, *index)
        }
        CertFault::NotEqual {
            variable,
            left,
            right,
        } => {
            text.extend_from_slice(b"not equal ")?;
            add_variable(text, names, *variable)?;
            add_integer(alloc, text, *left)?;
            add_integer(alloc, text, *right)
        }
        CertFault::Constant { constant, divisor } => {
            text.extend_from_slice(b"constant")?;
            add_integer(alloc, text, *constant)?;
            text.push(b' ')?;
            add_number(alloc, text, *divisor)
        }
    }
}

fn add_obligation(
    alloc: Global,
    text: &mut Vec<u8>,
    names: &[Ident],
    number: u32,
    fault: &CertFault,
) -> Result<(), Memory>
    ensures { OnOk result (text.new.items ≡ text.old.items ++ spec.obligation_text names.now number fault.now) }
{
    add_number(alloc, text, number)?;
    text.extend_from_slice(b": ")?;
    add_cert_fault(alloc, text, names, fault)
}

fn add_named(text: &mut Vec<u8>, words: &[u8], name: &Ident) -> Result<(), Memory>
    ensures { OnOk result (text.new.items ≡ text.old.items ++ words.now ++ name.now) }
{
    text.extend_from_slice(words)?;
    text.extend_from_slice(name.as_slice())?;
    Ok(())
}

fn add_why(alloc: Global, text: &mut Vec<u8>, names: &[Ident], why: &Why) -> Result<(), Memory>
    ensures { OnOk result (text.new.items ≡ text.old.items ++ spec.why_text names.now (why_of why.now)) }
{
    match why {
        Why::NotHeld(name) => add_named(text, b"not held ", name)?,
        Why::WrongForm => text.extend_from_slice(b"wrong form")?,
        Why::Left(name) => add_named(text, b"left ", name)?,
        Why::InstanceCount => text.extend_from_slice(b"instance count")?,
        Why::CertCount => text.extend_from_slice(b"certificate count")?,
        Why::NotProved(number, fault) => {
            text.extend_from_slice(b"not proved ")?;
            add_obligation(alloc, text, names, *number, fault)?;
        }
        Why::TooLarge => text.extend_from_slice(b"too large")?,
        Why::ForkForm => text.extend_from_slice(b"fork form")?,
        Why::BranchNotProved(number, fault) => {
            text.extend_from_slice(b"branch not proved ")?;
            add_obligation(alloc, text, names, *number, fault)?;
        }
    }
    Ok(())
}

/// The line of a fault, which stands at a place: why a rule failed, where the integer variables of its
/// context have these names.
pub fn outline_line(alloc: Global, span: Span, why: &Why, names: &[Ident]) -> Result<Bytes, Memory>
    ensures { IfOk result (λ text. text ≡ spec.outline_line (fault_at span why.now names.now)) }
{
    let mut text = Vec::from_slice(alloc, b"outline ")?;
    add_number(alloc, &mut text, span.line)?;
    text.push(b':')?;
    add_number(alloc, &mut text, span.column)?;
    text.push(b' ')?;
    add_why(alloc, &mut text, names, why)?;
    text.push(b'\n')?;
    Ok(Bytes::from_vec(text))
}
