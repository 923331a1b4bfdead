//! Readings: what a bottom-up parser does with an input.

ghost use Rattle.std.specs.Prelude.{◌≡◌, ◌↔◌, List, [], ◌∷◌, ◌++◌, IsTrue, IfOk};
ghost use Rattle.grammar.specs.declared.symbol.Symbol.{Symbol};
ghost use Rattle.certificate.specs.Readings.{IsReading};

use grammar::{Grammar, Production, Symbol};
use std::alloc::{AllocError, Global};

/// What a bottom-up parser does next.
#[derive(Clone, Copy, Debug, PartialEq, Eq)]
pub enum Action {
    /// The next symbol of the input goes on the stack.
    Shift,
    /// On top of the stack the left side of this production takes the place of its right side.
    Reduce(usize),
}

/// Whether two symbols are one.
pub(crate) fn is_same(a: Symbol, b: Symbol) -> bool
    ensures { IsTrue result ↔ (a ≡ b) }
{
    a == b
}

/// Whether two forms are one.
pub(crate) fn is_same_form(a: &[Symbol], b: &[Symbol]) -> bool
    ensures { IsTrue result ↔ (a.now ≡ b.now) }
{
    a == b
}

// Whether the symbols on top are those of the right side.
fn has_on_top(stack: &[Symbol], right: &[Symbol]) -> bool
    ensures { IsTrue result ↔ ((below : List Symbol) × (stack.now ≡ below ++ right.now)) }
{
    if right.len() > stack.len() {
        return false;
    }
    let below = stack.len() - right.len();
    is_same_form(&stack[below..], right)
}

// Reduces the stack, or answers that the right side is not on top of it.
fn reduce(stack: &mut Vec<Symbol>, production: &Production) -> Result<bool, AllocError>
    ensures reduced { IfOk result (λ b. IsTrue b → (below : List Symbol)
        × (stack.old.items ≡ below ++ production.now.right.items)
        × (stack.new.items ≡ below ++ Symbol.Nonterminal production.now.left ∷ [])) }
    ensures on_top { IfOk result (λ b. (below : List Symbol)
        → stack.old.items ≡ below ++ production.now.right.items → IsTrue b) }
{
    if !has_on_top(stack.as_slice(), production.right.as_slice()) {
        return Ok(false);
    }
    stack.truncate(stack.len() - production.right.len());
    stack.push(Symbol::Nonterminal(production.left))?;
    Ok(true)
}

/// Whether the actions are a reading of the form as the symbol.
pub fn is_reading(
    alloc: Global,
    grammar: &Grammar,
    actions: &[Action],
    form: &[Symbol],
    symbol: Symbol,
) -> Result<bool, AllocError>
    ensures { IfOk result (λ b. IsTrue b
        ↔ IsReading grammar.now.productions.items actions.now form.now symbol) }
{
    let mut stack = Vec::new(alloc);
    let mut read = 0usize;
    for action in actions {
        match *action {
            Action::Shift => {
                if read >= form.len() {
                    return Ok(false);
                }
                stack.push(form[read])?;
                read += 1;
            }
            Action::Reduce(k) => {
                if k >= grammar.productions.len() {
                    return Ok(false);
                }
                if !reduce(&mut stack, &grammar.productions[k])? {
                    return Ok(false);
                }
            }
        }
    }
    Ok(read == form.len() && is_same_form(stack.as_slice(), &[symbol]))
}
