//! Names in a program's text.
ghost use Rattle.std.specs.Prelude.{◌≡◌, ◌≤◌, Some, IfOk, length, nat_eq, refl};
ghost use Rattle.std.specs.Ordering.{nat_cmp};
ghost use Rattle.std.specs.Cmp.{partial_equiv_from_equiv};
ghost use Rattle.std.specs.Cmp.Lexicographic.{slice_cmp, pointwise, nat_list_eq_equiv, nat_list_cmp_total, texts_ties, texts_po};

use sqlite_items::Items;
use std::alloc::{AllocError, Global};
use std::cmp::Ordering;
use std::fmt;
use std::marker::Model;
use std::sync::Arc;

pub type Idents = Items<Ident>;

/// At most 22 bytes, with which a `Kept` is as large as a `Vec`.
#[derive(Drop)]
struct Short {
    bytes: [u8; 22],
    len: u8,
}

impl Model for Short {
    ghost use Rattle.std.specs.Prelude.{◌≤◌, List, ℕ, take};

    ghost Value = { List ℕ };

    ghost view = { λ short. take short.len short.bytes };

    ghost invariant = { λ short. short.len ≤ 22 };
}

impl Short {
    fn from_slice(text: &[u8]) -> Short
        requires { length text.now ≤ 22 }
        ensures { result ≡ text.now }
    {
        let mut bytes = [0; 22];
        bytes[..text.len()].copy_from_slice(text);
        Short {
            bytes,
            len: text.len() as u8,
        }
    }

    fn as_slice(&self) -> &[u8]
        ensures { result.now ≡ self.now }
    {
        &self.bytes[..usize::from(self.len)]
    }

    fn copy(&self) -> Short
        ensures { result ≡ self.now }
    {
        Short {
            bytes: self.bytes,
            len: self.len,
        }
    }
}

/// Short bytes are copied in less time than owners are counted, above all where threads share
/// what they copy. Copies of long ones share them.
#[derive(Drop)]
enum Kept {
    Short(Short),
    Long(Arc<Vec<u8>, Global>),
}

/// A name in a program, a list of ASCII bytes.
#[derive(Drop)]
pub struct Ident {
    kept: Kept,
}

impl Model for Ident {
    ghost use Rattle.std.specs.Prelude.{List, ℕ};
    ghost use Rattle.chan_syntax.specs.Kept.{bytes_in};

    ghost Value = { List ℕ };

    ghost view = { λ ident. bytes_in ident.kept };
}

impl Ident {
    pub fn from_slice(alloc: Global, bytes: &[u8]) -> Result<Ident, AllocError>
        ensures { IfOk result (λ ident. ident ≡ bytes.now) }
    {
        if bytes.len() <= 22 {
            let kept = Kept::Short(Short::from_slice(bytes));
            return Ok(Ident { kept });
        }
        let bytes = Vec::from_slice(alloc, bytes)?;
        let bytes = Arc::new(alloc, bytes)?;
        let kept = Kept::Long(bytes);
        Ok(Ident { kept })
    }

    pub fn as_slice(&self) -> &[u8]
        ensures { result.now ≡ self.now }
    {
        match &self.kept {
            Kept::Short(short) => short.as_slice(),
            Kept::Long(bytes) => bytes.as_slice(),
        }
    }

    /// A copy, which takes no memory. It fails where owners are too many to count.
    pub fn copy(&self) -> Result<Ident, AllocError>
        ensures { IfOk result (λ ident. ident ≡ self.now) }
    {
        let kept = match &self.kept {
            Kept::Short(short) => Kept::Short(short.copy()),
            Kept::Long(bytes) => Kept::Long(Arc::try_clone(bytes)?),
        };
        Ok(Ident { kept })
    }
}

impl fmt::Debug for Ident {
    fn fmt<W: fmt::Write>(&self, f: &mut fmt::Formatter<W>) -> fmt::Result {
        fmt::Debug::fmt(self.as_slice(), f)
    }
}

impl PartialEq for Ident {
    ghost eq = { pointwise nat_eq };

    ghost laws = { partial_equiv_from_equiv nat_list_eq_equiv };

    fn eq(&self, other: &Ident) -> bool {
        self.as_slice() == other.as_slice()
    }
}

impl Eq for Ident {
    ghost laws = { nat_list_eq_equiv };
}

impl PartialOrd for Ident {
    ghost partial_cmp = { λ a b. Some (slice_cmp nat_cmp a b) };

    ghost laws = { texts_po };

    fn partial_cmp(&self, other: &Ident) -> Option<Ordering> {
        Some(self.cmp(other))
    }
}

/// Byte by byte, and a prefix comes first.
impl Ord for Ident {
    ghost cmp = { slice_cmp nat_cmp };

    ghost total = { nat_list_cmp_total };

    ghost matches_partial_cmp = { λ a b. refl };

    ghost matches_eq = { texts_ties };

    fn cmp(&self, other: &Ident) -> Ordering {
        self.as_slice().cmp(other.as_slice())
    }
}
