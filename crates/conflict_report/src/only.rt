use crate::{Entry, Subject};
use automaton::Other;
use grammar::Symbol;
use source::Span;

/// What entries are to be about.
#[derive(Debug, Drop)]
pub enum Only {
    /// A line that one of the rules stands on, from 1.
    Line(usize),
    /// The name of a token, or of a nonterminal that one of the rules is of.
    Name(String),
}

// A token's name without its quotes, where it has some.
fn unquoted(name: &str) -> &str {
    match name
        .strip_prefix('\'')
        .and_then(|rest| rest.strip_suffix('\''))
    {
        Some(inner) => inner,
        None => match name
            .strip_prefix('"')
            .and_then(|rest| rest.strip_suffix('"'))
        {
            Some(inner) => inner,
            None => name,
        },
    }
}

fn covers(subject: &Subject, span: Span, line: usize) -> bool {
    let first = subject.line(span);
    let last = subject
        .lines
        .place(span.end.min(subject.lines.text.len()))
        .line;
    first <= line && line <= last
}

// Whether a rule is of the nonterminal, or stands on the line.
fn is_rule_about(subject: &Subject, only: &Only, number: usize) -> bool {
    match only {
        Only::Line(line) => match subject.production(number) {
            Some(production) => covers(subject, production.span, *line),
            None => false,
        },
        Only::Name(name) => subject.left(number) == name.as_str(),
    }
}

fn is_token_about(subject: &Subject, only: &Only, token: usize) -> bool {
    match only {
        Only::Line(_) => false,
        Only::Name(wanted) => {
            let name = subject.name(Symbol::Terminal(token));
            name == wanted.as_str() || unquoted(name) == wanted.as_str()
        }
    }
}

impl Only {
    /// Whether an entry is about it: by one of its tokens or one of its rules.
    pub fn is_about(&self, subject: &Subject, entry: &Entry) -> bool {
        let by_other = match entry.group.other {
            Other::Shift => entry.shifting.iter().any(|shifting| is_rule_about(
                subject,
                self,
                shifting.item.production,
            )),
            Other::Reduce(later) => is_rule_about(subject, self, later),
        };
        by_other
            || is_rule_about(subject, self, entry.group.production)
            || entry
                .tokens
                .iter()
                .any(|token| is_token_about(subject, self, *token))
    }
}
