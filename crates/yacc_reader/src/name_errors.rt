// Refusal 21 of a yacc text whose ids are entered: an id of a body that is nowhere, a left side that is a token, a START id that is no left side (specs/name_errors/Fault; module parsed_file, specs/Outcome).

ghost use Rattle.std.specs.Prelude.{IfSome, true, false, ◌≡◌, ◌≤◌, ◌<◌, length};
ghost use Rattle.std.proofs.Math.Option.{some};
ghost use Rattle.yacc_syntax.specs.text.Grammar.{Layout};
ghost use Rattle.yacc_syntax.specs.text.Parse.{parse};
ghost use Rattle.yacc_syntax.specs.text.Places.{placed};
ghost use Rattle.yacc_syntax.specs.text.Forward.{top};
ghost use Rattle.yacc_syntax.specs.lexer.Steps.{token_at, found_at};
ghost use Rattle.lr1_base.specs.repr.Lists.{some?};
ghost use Rattle.yacc_syntax.specs.recognizer.Accepted.{mode_of};
ghost use Rattle.yacc_reader.specs.parsed_file.Source.{Source};
ghost use Rattle.yacc_reader.specs.parsed_file.Events.{event_of};
ghost use Rattle.yacc_reader.specs.parsed_file.Outcome.{misnamed, nowhere, source_in};
ghost use Rattle.yacc_reader.specs.events.Said.{id_at};
ghost use Rattle.yacc_reader.specs.symbol_table.Ids.{is_id};
ghost use Rattle.yacc_reader.specs.symbol_table.Table.{Holds};
ghost use Rattle.yacc_reader.specs.name_errors.Fault.{faulty, fault_from};
ghost use Rattle.yacc_reader.specs.name_errors.Parts.{misnamed_by};

use crate::events::{Saying, Token, TokenIter};
use crate::symbol_table::{IdTable, SymbolTable};

// Is a word's id on no left side and no token.
fn is_nowhere(ids: &IdTable, token: Token) -> bool
    requires { token.lexeme.past ≤ length ids.now.text.now }
    ensures { is_id token.lexeme.word ≡ true → (S : Source) → Holds ids.now S.nonterminals S.terminals → result ≡ nowhere S (id_at ids.now.text.now token.lexeme.word token.lexeme.from token.lexeme.past) }
{
    ids.left(token.lexeme).is_none() && ids.token(token.lexeme).is_none()
}

// Is a word at fault.
fn is_fault(ids: &IdTable, token: Token) -> bool
    requires { token.lexeme.past ≤ length ids.now.text.now }
    ensures { (S : Source) → Holds ids.now S.nonterminals S.terminals → result ≡ some? (faulty S) (event_of (mode_of token.mode) (token_at ids.now.text.now token.lexeme.word token.lexeme.from token.lexeme.past) token.lexeme.from token.lexeme.past) }
{
    match token.what {
        Saying::Opens => ids.left(token.lexeme).is_none(),
        Saying::Defines => ids.token(token.lexeme).is_some(),
        Saying::Uses => is_nowhere(ids, token),
        _ => false,
    }
}

// Where 21 is, of a text whose ids are entered: the first byte of the first token at fault (specs/name_errors/Fault).
pub fn fault_place(symbols: &SymbolTable) -> Option<usize>
    ensures inside { IfSome result (λ at. at ≤ length symbols.now.ids.text.now) }
    ensures first { (l : Layout) → parse symbols.now.ids.text.now ≡ some l → found_at result ≡ fault_from (source_in l.pieces) (top false) (placed 0 l.pieces) }
{
    let token = TokenIter::new(symbols.ids.text).find(|token| is_fault(&symbols.ids, *token))?;
    Some(token.lexeme.from)
}

// 21, of a text whose ids are entered: some token is at fault.
pub fn is_misnamed(symbols: &SymbolTable) -> bool
    ensures misnamed { (l : Layout) → parse symbols.now.ids.text.now ≡ some l → result ≡ misnamed (source_in l.pieces) }
    ensures parts { (l : Layout) → parse symbols.now.ids.text.now ≡ some l → result ≡ misnamed_by (source_in l.pieces) symbols.now.ids.text.now symbols.now.ids.lefts.now symbols.now.ids.tokens.now symbols.now.ids.counts.names }
{
    fault_place(symbols).is_some()
}
