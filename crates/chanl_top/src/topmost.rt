//! From the words and the input to the output and the status.
ghost use Rattle.std.specs.Prelude.{◌≡◌, ℕ, ◌≤◌, ◌⊎◌, List, [], map, length, Some, string_bytes, IfOk};
ghost use Rattle.std.specs.Io.KnownBytes.{Appends, IsAtEnd};
ghost use Rattle.chan_base.specs.Stream.{Rose, AppendsFront};
ghost use Rattle.chanl_words.specs.Words.{Admits, IsUsage};
ghost use Rattle.chanl_lines.specs.Lines.{read_fault, usage};
ghost use Rattle.chanl_top.specs.Verdict.{IsVerdict, IsCommandVerdict};
ghost use Rattle.chanl_top.specs.Decided.{AreFew, IsSettled, IsOfProgram, ReadsWhole, Decides, Finishes, TellsUsage};

use crate::status::Status;
use crate::verdicts::{Verdict, answer_to};
use chan_base::{Bytes, Memory, ReadAll, Sink, Source, read_all, write_all};
use chanl_words::Command;
use std::alloc::Global;

/// The greatest length of a text.
const LONGEST: usize = 1048576;

const USAGE: &[u8] =
    b"usage: chanl check | run | history | fmt | core | replay | follow | make N\n";

/// Writes the output.
fn finish<K: Sink>(sink: &mut K, status: Status, text: &[u8]) -> Status
    ensures ends { Finishes (K.holds sink.old) (K.holds sink.new) (K.faults sink.old) (K.faults sink.new) status text.now result }
    ensures later { K.faults sink.old ≤ K.faults sink.new }
{
    match write_all(sink, text) {
        Ok(()) => status,
        Err(_) => Status::WriteFault,
    }
}

/// The answer to the bytes of the source.
fn read_and_answer<S: Source>(
    alloc: Global,
    command: Command,
    source: &mut S,
) -> Result<Verdict, Memory>
    requires rounds { AreFew command }
    ensures answer { IfOk result (Decides (IsCommandVerdict command) (S.left source.old) (S.faults source.old) (S.faults source.new)) }
    ensures whole { IfOk result (λ v. ReadsWhole (S.left source.old) (S.left source.new) v.status) }
    ensures of_program { IfOk result (λ v. IsOfProgram v.status → IsAtEnd (S.left source.new)) }
    ensures admitted { IfOk result (λ v. v.status ≡ Status.Usage → ⊥) }
    ensures later { S.faults source.old ≤ S.faults source.new }
{
    match read_all(alloc, source, LONGEST) {
        Ok(bytes) => {
            let verdict = answer_to(alloc, command, bytes.as_slice())?;
            Ok(verdict)
        }
        Err(ReadAll::ReadFault) => {
            let output = Bytes::from_slice(alloc, b"read fault\n")?;
            Ok(Verdict {
                status: Status::ReadFault,
                output,
            })
        }
        Err(ReadAll::TooLong) => {
            let output = Bytes::from_slice(alloc, b"refused too long\n")?;
            Ok(Verdict {
                status: Status::TextRefused,
                output,
            })
        }
        Err(ReadAll::Memory) => Err(Memory),
    }
}

/// The answer to the words, before anything is written.
fn decide<S: Source>(alloc: Global, words: &[String], source: &mut S) -> Result<Verdict, Memory>
    ensures answer { IfOk result (Decides (IsVerdict (map string_bytes words.now)) (S.left source.old) (S.faults source.old) (S.faults source.new)) }
    ensures whole { (command : Command) → Admits (map string_bytes words.now) command → IfOk result (λ v. ReadsWhole (S.left source.old) (S.left source.new) v.status) }
    ensures of_program { IfOk result (λ v. IsOfProgram v.status → IsAtEnd (S.left source.new)) }
    ensures unread { IsUsage (map string_bytes words.now) → source.new ≡ source.old }
    ensures usage { IsUsage (map string_bytes words.now) → IfOk result (λ v. v ≡ record { status = Status.Usage; output = usage }) }
    ensures admitted { (command : Command) → Admits (map string_bytes words.now) command → IfOk result (λ v. v.status ≡ Status.Usage → ⊥) }
    ensures later { S.faults source.old ≤ S.faults source.new }
{
    match Command::of(words) {
        Some(command) => {
            let verdict = read_and_answer(alloc, command, source)?;
            Ok(verdict)
        }
        None => {
            let output = Bytes::from_slice(alloc, USAGE)?;
            Ok(Verdict {
                status: Status::Usage,
                output,
            })
        }
    }
}

/// Does all that the program does: reads the input where the words ask for it, decides the whole
/// output, and writes it.
pub fn top<S: Source, K: Sink>(
    alloc: Global,
    words: &[String],
    source: &mut S,
    sink: &mut K,
) -> Status
    // The status and what was written are the verdict on the words and the bytes.
    ensures verdict { IsSettled result → (bytes : List ℕ) → S.left source.old ≡ Some bytes
        → (output : List ℕ) × IsVerdict (map string_bytes words.now) bytes (record { status = result; output = output })
        × Appends (K.holds sink.old) (K.holds sink.new) output }

    // Usage comes exactly where the words are no command, also where the source tells no bytes.
    ensures usage { IsUsage (map string_bytes words.now) → TellsUsage (K.holds sink.old) (K.holds sink.new) result }
    ensures admitted { (command : Command) → Admits (map string_bytes words.now) command → result ≡ Status.Usage → ⊥ }

    // A fault has its cause.
    ensures read_fault { result ≡ Status.ReadFault → Rose (S.faults source.old) (S.faults source.new)
        × Appends (K.holds sink.old) (K.holds sink.new) read_fault }
    ensures write_fault { result ≡ Status.WriteFault → Rose (K.faults sink.old) (K.faults sink.new) }
    ensures front { result ≡ Status.WriteFault → (bytes : List ℕ) → S.left source.old ≡ Some bytes
        → ((verdict : Verdict) × IsVerdict (map string_bytes words.now) bytes verdict × AppendsFront (K.holds sink.old) (K.holds sink.new) verdict.output)
        ⊎ (Rose (S.faults source.old) (S.faults source.new) × AppendsFront (K.holds sink.old) (K.holds sink.new) read_fault) }
    ensures memory { result ≡ Status.Memory → sink.new ≡ sink.old }

    // What was read.
    ensures unread { IsUsage (map string_bytes words.now) → source.new ≡ source.old }
    ensures of_program { IsOfProgram result → IsAtEnd (S.left source.new) }
    ensures whole { (command : Command) → Admits (map string_bytes words.now) command → ReadsWhole (S.left source.old) (S.left source.new) result }

    // Where nothing fails there is no other answer than the verdict and want of memory.
    ensures complete { (Rose (S.faults source.old) (S.faults source.new) → ⊥) → (Rose (K.faults sink.old) (K.faults sink.new) → ⊥)
        → (bytes : List ℕ) → S.left source.old ≡ Some bytes
        → (result ≡ Status.Memory) ⊎ ((output : List ℕ) × IsVerdict (map string_bytes words.now) bytes (record { status = result; output = output })) }
{
    match decide(alloc, words, source) {
        Err(Memory) => Status::Memory,
        Ok(verdict) => finish(sink, verdict.status, verdict.output.as_slice()),
    }
}
