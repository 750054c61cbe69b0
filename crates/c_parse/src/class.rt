// What a token is to the grammar.
ghost use Rattle.std.specs.Prelude.{◌≡◌, IfNone, IfSome, [], ◌∷◌, map};
ghost use Rattle.c_parse.specs.Tok.{bytes_of, class_in, class_of, listed, seen, toks, words};

use c_lex::{Kind, Punct, Token};
use kit_base::Name;

#[derive(Clone, Copy)]
pub enum Key {
    Int,
    Bool,
    Void,
    Struct,
    Union,
    Enum,
    Typedef,
    If,
    Else,
    While,
    Do,
    For,
    Switch,
    Case,
    Default,
    Return,
    Break,
    Continue,
    SizeOf,
    True,
    False,
    Null,
}

/// A keyword, a word that the language refuses, with its number, another word, or what else a token is.
#[derive(Clone, Copy)]
pub enum Class {
    Key(Key),
    Refused(u32),
    Word,
    Number(u32),
    Char(u32),
    Text,
    Mark(Punct),
}

const WORDS: [(&str, Class); 38] = [
    ("int", Class::Key(Key::Int)),
    ("bool", Class::Key(Key::Bool)),
    ("void", Class::Key(Key::Void)),
    ("struct", Class::Key(Key::Struct)),
    ("union", Class::Key(Key::Union)),
    ("enum", Class::Key(Key::Enum)),
    ("typedef", Class::Key(Key::Typedef)),
    ("if", Class::Key(Key::If)),
    ("else", Class::Key(Key::Else)),
    ("while", Class::Key(Key::While)),
    ("do", Class::Key(Key::Do)),
    ("for", Class::Key(Key::For)),
    ("switch", Class::Key(Key::Switch)),
    ("case", Class::Key(Key::Case)),
    ("default", Class::Key(Key::Default)),
    ("return", Class::Key(Key::Return)),
    ("break", Class::Key(Key::Break)),
    ("continue", Class::Key(Key::Continue)),
    ("sizeof", Class::Key(Key::SizeOf)),
    ("true", Class::Key(Key::True)),
    ("false", Class::Key(Key::False)),
    ("NULL", Class::Key(Key::Null)),
    ("float", Class::Refused(1)),
    ("asm", Class::Refused(2)),
    ("goto", Class::Refused(3)),
    ("const", Class::Refused(4)),
    ("static", Class::Refused(5)),
    ("extern", Class::Refused(6)),
    ("volatile", Class::Refused(7)),
    ("char", Class::Refused(8)),
    ("short", Class::Refused(9)),
    ("long", Class::Refused(10)),
    ("unsigned", Class::Refused(11)),
    ("signed", Class::Refused(12)),
    ("double", Class::Refused(13)),
    ("embedded", Class::Refused(14)),
    ("inline", Class::Refused(15)),
    ("register", Class::Refused(16)),
];

fn class_in(entries: &[(&'static str, Class)], word: &[u8]) -> Class
    ensures { result ≡ class_in word.now (map listed entries.now) }
{
    for entry in entries {
        if word == entry.0.as_bytes() {
            return entry.1;
        }
    }
    Class::Word
}

fn word_class(word: &[u8]) -> Class
    ensures { result ≡ class_in word.now words }
{
    class_in(&WORDS, word)
}

#[tactic(auto, unfolding(crate::specs::Tok::class_of))]
fn class_of(token: &Token) -> Class
    ensures { result ≡ class_of token.now.kind }
{
    match &token.kind {
        Kind::Word(word) => word_class(word.bytes()),
        Kind::Number(n) => Class::Number(*n),
        Kind::Char(n) => Class::Char(*n),
        Kind::Text(_) => Class::Text,
        Kind::Punct(mark) => Class::Mark(*mark),
    }
}

/// The class of the next token, the token, and those behind it.
pub(crate) fn next(tokens: &[Token]) -> Option<(Class, &Token, &[Token])>
    ensures some { IfSome result (λ x. toks tokens.now ≡ seen x.0 (bytes_of x.1.now.kind) ∷ toks x.2.now) }
    ensures none { IfNone result (toks tokens.now ≡ []) }
{
    match tokens {
        [] => None,
        [first, rest @ ..] => Some((class_of(first), first, rest)),
    }
}
