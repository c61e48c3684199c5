//! What form gives of the numbers of headers and protocols.
#![tactic(auto)]

ghost use Rattle.narrow_headers.specs.Laws.{HeadersAreNarrow, ProtocolsAreNarrow};

/// The numbers of headers and protocols of a program of form fit 64 bits without names too. It does nothing.
pub fn laws()
    ensures headers { HeadersAreNarrow }
    ensures protocols { ProtocolsAreNarrow }
{}
