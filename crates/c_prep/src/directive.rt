// Directives.
ghost use Rattle.std.specs.Prelude.{◌≡◌, ◌<◌, ℕ, map, option_copied, IfSome, bytes_eq};
ghost use Rattle.std.specs.List.{list_any};
ghost use Rattle.c_prep.specs.Kinds.{kinds_of};
ghost use Rattle.c_prep.specs.Lines.{begins_directive};
ghost use Rattle.c_prep.specs.Directives.{class_in, class_of, define_of, directive_in, directive_of, is_keyword, lone, name_in, of_class, text_in};
ghost use Rattle.c_prep.specs.inner.Inner.{ArePlaced, listed, shown, shown_in};

use crate::kinds::word_in;
use c_lex::{Kind, Punct, Token};
use kit_base::Name;

/// The classes of directives.
#[derive(Clone, Copy, Debug, PartialEq, Eq)]
pub enum Class {
    Include,
    Define,
    Undef,
    IfDef,
    IfNotDef,
    Else,
    EndIf,
    Error,
}

/// A directive; `Bad` is one that is none of the others.
#[derive(Clone, Copy)]
pub enum Directive<'a> {
    Include(&'a str),
    Define(&'a Name, &'a [Token]),
    Undef(&'a Name),
    IfDef(&'a Name),
    IfNotDef(&'a Name),
    Else,
    EndIf,
    Error,
    Bad,
}

/// A line that is a directive, with its `#`.
#[derive(Clone, Copy)]
pub struct Directed<'a> {
    pub hash: &'a Token,
    pub directive: Directive<'a>,
}

const KEYWORDS: [&str; 22] = [
    "int", "bool", "void", "struct", "union", "enum", "typedef", "if", "else", "while", "do",
    "for", "switch", "case", "default", "return", "break", "continue", "sizeof", "true", "false",
    "NULL",
];

const CLASSES: [(&str, Class); 8] = [
    ("include", Class::Include),
    ("define", Class::Define),
    ("undef", Class::Undef),
    ("ifdef", Class::IfDef),
    ("ifndef", Class::IfNotDef),
    ("else", Class::Else),
    ("endif", Class::EndIf),
    ("error", Class::Error),
];

fn is_keyword_among(keywords: &[&'static str], word: &[u8]) -> bool
    ensures { result ≡ list_any (λ k. bytes_eq word.now k.now) keywords.now }
{
    keywords.iter().any(|k| word == k.as_bytes())
}

#[tactic(auto, using(crate::proofs::Directing::any_keyword), unfolding(crate::specs::Directives::is_keyword, crate::specs::Directives::keywords))]
fn is_keyword(word: &[u8]) -> bool
    ensures { result ≡ is_keyword word.now }
{
    is_keyword_among(&KEYWORDS, word)
}

fn class_among(entries: &[(&'static str, Class)], word: &[u8]) -> Option<Class>
    ensures { result ≡ class_in word.now (map listed entries.now) }
{
    for entry in entries {
        if word == entry.0.as_bytes() {
            return Some(entry.1);
        }
    }
    None
}

#[tactic(auto, unfolding(crate::specs::Directives::class_of, crate::specs::Directives::classes))]
fn class_of(word: &[u8]) -> Option<Class>
    ensures { result ≡ class_of word.now }
{
    class_among(&CLASSES, word)
}

/// The name of a macro.
fn name_in(kind: &Kind) -> Option<&Name>
    ensures { option_copied result ≡ name_in kind.now }
{
    match kind {
        Kind::Word(word) => {
            if is_keyword(word.bytes()) {
                None
            } else {
                Some(word)
            }
        }
        _ => None,
    }
}

/// The name of a file.
fn text_in(kind: &Kind) -> Option<&str>
    ensures { option_copied result ≡ text_in kind.now }
{
    match kind {
        Kind::Text(name) => {
            if name.is_text() {
                Some(name.as_str())
            } else {
                None
            }
        }
        _ => None,
    }
}

/// The name of a file that these tokens are.
fn lone_text(tokens: &[Token]) -> Option<&str>
    ensures { option_copied result ≡ lone text_in (kinds_of tokens.now) }
{
    let [token] = tokens else {
        return None;
    };
    text_in(&token.kind)
}

/// The name of a macro that these tokens are.
fn lone_name(tokens: &[Token]) -> Option<&Name>
    ensures { option_copied result ≡ lone name_in (kinds_of tokens.now) }
{
    let [token] = tokens else {
        return None;
    };
    name_in(&token.kind)
}

fn define_of<'a>(tokens: &'a [Token]) -> Directive<'a>
    ensures { shown result ≡ define_of (kinds_of tokens.now) }
{
    let Some((token, body)) = tokens.split_first() else {
        return Directive::Bad;
    };
    match name_in(&token.kind) {
        Some(name) => Directive::Define(name, body),
        None => Directive::Bad,
    }
}

/// A directive of that class, with the tokens behind its word.
fn of_class<'a>(class: Option<Class>, tokens: &'a [Token]) -> Directive<'a>
    ensures { shown result ≡ of_class class (kinds_of tokens.now) }
{
    match class {
        Some(Class::Include) => match lone_text(tokens) {
            Some(name) => Directive::Include(name),
            None => Directive::Bad,
        },
        Some(Class::Define) => define_of(tokens),
        Some(Class::Undef) => match lone_name(tokens) {
            Some(name) => Directive::Undef(name),
            None => Directive::Bad,
        },
        Some(Class::IfDef) => match lone_name(tokens) {
            Some(name) => Directive::IfDef(name),
            None => Directive::Bad,
        },
        Some(Class::IfNotDef) => match lone_name(tokens) {
            Some(name) => Directive::IfNotDef(name),
            None => Directive::Bad,
        },
        Some(Class::Else) => match tokens {
            [] => Directive::Else,
            _ => Directive::Bad,
        },
        Some(Class::EndIf) => match tokens {
            [] => Directive::EndIf,
            _ => Directive::Bad,
        },
        Some(Class::Error) => Directive::Error,
        None => Directive::Bad,
    }
}

/// What stands behind a `#`.
fn directive_of<'a>(tokens: &'a [Token]) -> Directive<'a>
    ensures { shown result ≡ directive_of (kinds_of tokens.now) }
{
    let Some((token, others)) = tokens.split_first() else {
        return Directive::Bad;
    };
    match word_in(&token.kind) {
        Some(word) => of_class(class_of(word.bytes()), others),
        None => Directive::Bad,
    }
}

/// Whether the line that this token begins is a directive.
pub fn begins_directive(token: &Token) -> bool
    ensures { result ≡ begins_directive token.now }
{
    token.first && matches!(token.kind, Kind::Punct(Punct::Hash))
}

/// The directive that a line is.
#[tactic(auto, using(crate::proofs::Directing::no_directive, crate::proofs::Directing::is_directive, crate::proofs::Directing::is_text_line))]
pub fn directive_in<'a>(line: &'a [Token]) -> Option<Directed<'a>>
    ensures told { shown_in result ≡ directive_in line.now }
    ensures numbers { (n : ℕ) → ArePlaced n line.now → IfSome result (λ d. d.hash.now.file < n) }
{
    let Some((hash, tokens)) = line.split_first() else {
        return None;
    };
    if begins_directive(hash) {
        Some(Directed {
            hash,
            directive: directive_of(tokens),
        })
    } else {
        None
    }
}
