// The symbols of the ids of a yacc text that are entered (specs/symbols/Symbols; crates yacc_enter, specs/Ids, and yacc_read, specs/Meaning).

ghost use Rattle.std.specs.Prelude.{true, ◌≡◌, ◌≤◌, length};
ghost use Rattle.yacc_reader.specs.parsed_file.Source.{Source};
ghost use Rattle.yacc_reader.specs.events.Said.{id_at};
ghost use Rattle.yacc_reader.specs.symbol_table.Ids.{is_id};
ghost use Rattle.yacc_reader.specs.symbol_table.Table.{Holds};
ghost use Rattle.yacc_reader.specs.symbols.Symbols.{IsSymbol};

use crate::symbol_table::IdTable;
use lr1_base::repr::{NonterminalString, Symbol};
use yacc_syntax::lexer::Lexeme;

// The symbol of an id.
pub fn symbol(ids: &IdTable, lexeme: Lexeme) -> Symbol
    requires { lexeme.past ≤ length ids.now.text.now }
    ensures { is_id lexeme.word ≡ true → (S : Source) → Holds ids.now S.nonterminals S.terminals → IsSymbol S (id_at ids.now.text.now lexeme.word lexeme.from lexeme.past) result }
{
    match ids.left(lexeme) {
        Some(number) => Symbol::Nonterminal(NonterminalString(number)),
        None => Symbol::Terminal(ids.token(lexeme).unwrap_or(0)),
    }
}
