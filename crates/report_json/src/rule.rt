use conflict_report::Subject;
use grammar::{Production, Symbol};
use serde_json::{Value, json};
use source::Span;
use std::alloc::{AllocError, Global};

/// Names as an array of texts.
pub fn json_of_names(
    alloc: Global,
    subject: &Subject,
    symbols: &[Symbol],
) -> Result<Value, AllocError> {
    let mut names = Vec::new(alloc);
    for symbol in symbols {
        names.push(json!(in alloc; subject.name(*symbol))?)?;
    }
    Ok(Value::Array(names))
}

/// The names of tokens as an array of texts.
pub fn json_of_tokens(
    alloc: Global,
    subject: &Subject,
    tokens: &[usize],
) -> Result<Value, AllocError> {
    let mut names = Vec::new(alloc);
    for token in tokens {
        names.push(json!(in alloc; subject.name(Symbol::Terminal(*token)))?)?;
    }
    Ok(Value::Array(names))
}

/// Numbers as an array.
pub fn json_of_numbers(alloc: Global, numbers: &[usize]) -> Result<Value, AllocError> {
    let mut list = Vec::new(alloc);
    for number in numbers {
        list.push(json!(in alloc; *number as u64)?)?;
    }
    Ok(Value::Array(list))
}

// A rule as text, with its dot.
fn text_of(
    alloc: Global,
    subject: &Subject,
    production: &Production,
    dot: usize,
) -> Result<String, AllocError> {
    let left = subject.name(Symbol::Nonterminal(production.left));
    let mut text = format!(in alloc; "{left} :")?;
    for (i, symbol) in production.right.iter().enumerate() {
        if i == dot {
            text.push_str(" •")?;
        }
        text.push(' ')?;
        text.push_str(subject.name(*symbol))?;
    }
    if dot >= production.right.len() {
        text.push_str(" •")?;
    }
    Ok(text)
}

// Where the symbol behind the dot stands, or else where the rule begins.
fn place_of(production: &Production, dot: usize, is_shift: bool) -> Span {
    let at = if is_shift { dot } else { 0 };
    match production.places.get(at) {
        Some(place) => *place,
        None => production.span,
    }
}

/// A rule with its dot, and what is done there: `reduce`, or `shift` of a token.
pub fn json_of_rule(
    alloc: Global,
    subject: &Subject,
    number: usize,
    shift: Option<(usize, usize)>,
) -> Result<Value, AllocError> {
    let Some(production) = subject.production(number) else {
        return Ok(Value::Null);
    };
    let dot = match shift {
        Some((dot, _)) => dot,
        None => production.right.len(),
    };
    let right = json_of_names(alloc, subject, production.right.as_slice())?;
    let text = text_of(alloc, subject, production, dot)?;
    let place = subject.place(place_of(production, dot, shift.is_some()));
    let left = subject.name(Symbol::Nonterminal(production.left));
    match shift {
        Some((_, token)) => json!(in alloc; {
            "action": "shift",
            "token": subject.name(Symbol::Terminal(token)),
            "left": left,
            "right": right,
            "dot": dot as u64,
            "text": text.as_str(),
            "line": place.line as u64,
            "column": place.column as u64
        }),
        None => json!(in alloc; {
            "action": "reduce",
            "left": left,
            "right": right,
            "dot": dot as u64,
            "text": text.as_str(),
            "line": place.line as u64,
            "column": place.column as u64
        }),
    }
}
