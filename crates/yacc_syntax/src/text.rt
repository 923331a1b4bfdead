// The yacc texts that are read (docs/YACC.md): the grammar without a parser (specs/text/Grammar), a parser and that it is exact (specs/text/Parse, proofs/text/Exact).

ghost use Rattle.std.specs.Prelude.{◌≡◌, length, leb};
ghost use Rattle.yacc_syntax.specs.text.Grammar.{text_limit};

// A place in a text.
#[derive(Clone, Copy)]
pub struct Place(pub u16);

impl Place {
    // Bytes of a text at most (refusal 20).
    pub const LIMIT: usize = 65535;
}

// Does a text have few enough bytes.
pub fn is_short(text: &[u8]) -> bool
    ensures { result ≡ leb (length text.now) text_limit }
{
    text.len() <= Place::LIMIT
}
