//! Reads lists, whose elements have commas between them.

ghost use Rattle.std.specs.Prelude.{◌≡◌, ℕ, ◌<◌, [], ◌∷◌, ◌++◌, length, map, IfOk, IfErr};
ghost use Rattle.wexpressions.specs.declared.fault.ParseFault.TheVariants.{NoMemory};
ghost use Rattle.wtokens.specs.Notation.{Row, Listed, meanings};
ghost use Rattle.wexpressions.specs.Grips.{element_class, list_class};
ghost use Rattle.wexpressions.specs.Finding.{outcome, Answers};

use crate::fault::ParseFault;
use std::alloc::Global;
use wlexer::Token;
use wtokens::behind_comma;

/// What stands between the commas of a list.
pub trait Element {
    /// What is read of an element.
    type Read: Drop;

    /// What an element is to the grammar.
    ghost tree: { Type 0 };

    /// What an element says.
    ghost said: { Self.Read → tree };

    /// The row of the grammar, where so many levels of nesting are left.
    ghost spelling: { ℕ → Row tree };

    /// The element that comes first, and what follows it.
    fn read(
        alloc: Global,
        depth: u32,
        tokens: &[Token],
    ) -> Result<(Self::Read, &[Token]), ParseFault>
        ensures spelled { Answers (spelling depth) element_class (meanings tokens.now) (outcome (λ x. said x.0) (λ x. x.1.now) result) }
        ensures shorter { IfOk result (λ x. length x.1.now < length tokens.now) };
}

/// Adds an item to a list.
pub(crate) fn push<T: Drop>(items: &mut Vec<T>, item: T) -> Result<(), ParseFault>
    ensures added { IfOk result (λ _. items.new.items ≡ items.old.items ++ (item ∷ [])) }
    ensures fault { IfErr result (λ e. e ≡ NoMemory) }
{
    items.push(item)?;
    Ok(())
}

/// One element at least, with commas between them.
pub fn elements<E: Element>(
    alloc: Global,
    depth: u32,
    tokens: &[Token],
) -> Result<(Vec<E::Read>, &[Token]), ParseFault>
    ensures { Answers (Listed (E.spelling depth)) list_class (meanings tokens.now) (outcome (λ x. map E.said x.0.items)
        (λ x. x.1.now) result) }
{
    comma_list!(alloc, tokens, left => E::read(alloc, depth, left))
}
