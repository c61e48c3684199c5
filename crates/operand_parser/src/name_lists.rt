//! Lists of names.

ghost use Rattle.std.specs.Prelude.{◌≡◌, [], ◌∷◌, ◌++◌, OnOk};
ghost use Rattle.surface_grammar.specs.Language.{At};
ghost use Rattle.surface_grammar.specs.Grammar as spec;
ghost use Rattle.token_cursor.specs.Syntax.{Answers};

use crate::values::no_names;
use std::alloc::AllocError;
use surface_grammar::{Named, Names, Word};
use token_cursor::{Cursor, Stop};

fn add(found: &mut Names, named: Named) -> Result<(), AllocError>
    ensures names { OnOk result (found.new.names ≡ found.old.names ++ named.name ∷ []) }
    ensures spans { OnOk result (found.new.spans ≡ found.old.spans ++ named.span ∷ []) }
{
    found.names.push(named.name)?;
    found.spans.push(named.span)?;
    Ok(())
}

#[tactic(auto, unfolding(surface_grammar::specs::Grammar::names, token_cursor::specs::Syntax::sees, token_cursor::specs::Syntax::skip, token_cursor::specs::Syntax::name_at, surface_grammar::specs::Grammar::name))]
pub fn names(cursor: &mut Cursor<'_>, depth: usize) -> Result<Names, Stop>
    ensures { Answers (At depth spec.names cursor.old) result cursor.new }
{
    let first = cursor.name()?;
    let mut found = no_names(cursor);
    add(&mut found, first)?;
    for _turn in 0..cursor.left() {
        if !cursor.sees(Word::Comma) {
            return Ok(found);
        }
        cursor.skip(Word::Comma)?;
        let next = cursor.name()?;
        add(&mut found, next)?;
    }
    Ok(found)
}
