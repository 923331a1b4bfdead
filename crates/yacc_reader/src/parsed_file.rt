// Reading a yacc text into a table (docs/YACC.md): what is answered and left in the lent words (specs/parsed_file/Outcome).

use lr1_base::repr::NonterminalString;

// Records written, places written, the start nonterminal.
#[derive(Clone, Copy)]
pub struct Reading {
    pub records: u16,
    pub places: u16,
    pub start: NonterminalString,
}
