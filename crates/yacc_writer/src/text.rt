// Writing a table's grammar as a yacc text (docs/YACC.md): what is answered and left in the lent bytes (specs/text/Outcome).

// No text that is written has more bytes (`text_size`, proofs/text/Layouts).
pub const TEXT_BYTES: usize = 9468;
