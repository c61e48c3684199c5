//! What form gives of the tables of headers and protocols.
#![tactic(auto)]

ghost use Rattle.form_tables.specs.Laws.{HeadersFit, ProtocolsFit, HeadersAreOfProgram, NamedHeaderIsFirst};

/// The tables of a program of form are read, and are those of its functions. It does nothing.
pub fn laws()
    ensures headers { HeadersFit }
    ensures protocols { ProtocolsFit }
    ensures program { HeadersAreOfProgram }
    ensures named { NamedHeaderIsFirst }
{}
