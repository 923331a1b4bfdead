//! Which symbols of a grammar derive a text, and which are derived from the start.

use crate::table::ACCEPT;
use grammar::{Grammar, Production, Symbol};
use std::alloc::{AllocError, Global};

/// Whether a flag is set.
pub fn is_set(flags: &[bool], index: usize) -> bool {
    flags.get(index).copied().unwrap_or(false)
}

/// Sets a flag. Returns whether it was not set before.
pub fn set(flags: &mut [bool], index: usize) -> bool {
    if index >= flags.len() || flags[index] {
        return false;
    }
    flags[index] = true;
    true
}

// The nonterminals that are marked, and those whose productions are still to be looked at.
#[derive(Drop)]
struct Marks {
    flags: Vec<bool>,
    open: Vec<usize>,
}

impl Marks {
    fn new(alloc: Global, count: usize) -> Result<Marks, AllocError> {
        Ok(Marks {
            flags: vec![in alloc; false; count]?,
            open: Vec::new(alloc),
        })
    }

    fn mark(&mut self, nonterminal: usize) -> Result<(), AllocError> {
        if set(self.flags.as_mut_slice(), nonterminal) {
            self.open.push(nonterminal)?;
        }
        Ok(())
    }
}

// Lists of productions, one for each nonterminal.
#[derive(Drop)]
struct Lists {
    lists: Vec<Vec<usize>>,
}

impl Lists {
    fn new(alloc: Global, count: usize) -> Result<Lists, AllocError> {
        let mut lists = Vec::new(alloc);
        for _ in 0..count {
            lists.push(Vec::new(alloc))?;
        }
        Ok(Lists { lists })
    }

    fn add(&mut self, nonterminal: usize, production: usize) -> Result<(), AllocError> {
        if nonterminal < self.lists.len() {
            self.lists[nonterminal].push(production)?;
        }
        Ok(())
    }

    fn of(&self, nonterminal: usize) -> &[usize] {
        match self.lists.get(nonterminal) {
            Some(list) => list.as_slice(),
            None => &[],
        }
    }
}

// Adds a production to the lists of the nonterminals on its right, once for each place. Returns how
// many places there are.
fn add_uses(lists: &mut Lists, production: &Production, index: usize) -> Result<usize, AllocError> {
    let mut places = 0usize;
    for symbol in &production.right {
        if let Symbol::Nonterminal(n) = *symbol {
            lists.add(n, index)?;
            places = places.saturating_add(1);
        }
    }
    Ok(places)
}

// One nonterminal fewer is missing in a production. Whether that was the last.
fn completes(missing: &mut [usize], production: usize) -> bool {
    if production >= missing.len() || missing[production] == 0 {
        return false;
    }
    missing[production] -= 1;
    missing[production] == 0
}

fn left_of(grammar: &Grammar, production: usize) -> usize {
    match grammar.productions.get(production) {
        Some(production) => production.left,
        None => grammar.nonterminals.len(),
    }
}

/// Which nonterminals derive a text of terminals. Each place of a symbol is looked at once.
pub fn productive(alloc: Global, grammar: &Grammar) -> Result<Vec<bool>, AllocError> {
    let count = grammar.nonterminals.len();
    let mut marks = Marks::new(alloc, count)?;
    let mut uses = Lists::new(alloc, count)?;
    let mut missing = Vec::new(alloc);
    for (index, production) in grammar.productions.iter().enumerate() {
        let places = add_uses(&mut uses, production, index)?;
        missing.push(places)?;
        if places == 0 {
            marks.mark(production.left)?;
        }
    }
    // Each nonterminal is marked once.
    for _ in 0..count {
        let Some(nonterminal) = marks.open.pop() else {
            break;
        };
        for production in uses.of(nonterminal) {
            if completes(missing.as_mut_slice(), *production) {
                marks.mark(left_of(grammar, *production))?;
            }
        }
    }
    Ok(marks.flags)
}

// Marks the nonterminals on the right of a production.
fn mark_right(marks: &mut Marks, grammar: &Grammar, production: usize) -> Result<(), AllocError> {
    let Some(production) = grammar.productions.get(production) else {
        return Ok(());
    };
    for symbol in &production.right {
        if let Symbol::Nonterminal(n) = *symbol {
            marks.mark(n)?;
        }
    }
    Ok(())
}

/// Which nonterminals stand in a list of symbols that the start derives. Each place of a symbol is
/// looked at once.
pub fn reachable(alloc: Global, grammar: &Grammar) -> Result<Vec<bool>, AllocError> {
    let count = grammar.nonterminals.len();
    let mut marks = Marks::new(alloc, count)?;
    let mut productions = Lists::new(alloc, count)?;
    for (index, production) in grammar.productions.iter().enumerate() {
        productions.add(production.left, index)?;
    }
    marks.mark(ACCEPT)?;
    // Each nonterminal is marked once.
    for _ in 0..count {
        let Some(nonterminal) = marks.open.pop() else {
            break;
        };
        for production in productions.of(nonterminal) {
            mark_right(&mut marks, grammar, *production)?;
        }
    }
    Ok(marks.flags)
}

/// Which terminals stand in a production, or give it a precedence.
pub fn used(alloc: Global, grammar: &Grammar) -> Result<Vec<bool>, AllocError> {
    let mut flags = vec![in alloc; false; grammar.terminals.len()]?;
    for production in &grammar.productions {
        for symbol in &production.right {
            if let Symbol::Terminal(t) = *symbol {
                let _ = set(flags.as_mut_slice(), t);
            }
        }
        if let Some(t) = production.precedence {
            let _ = set(flags.as_mut_slice(), t);
        }
    }
    Ok(flags)
}
