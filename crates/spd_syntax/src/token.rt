// Tokens, and the tables of words and marks.

use spd_list::Seq;

/// The words of the language. None of them is a name.
#[derive(Clone, Copy, Debug, PartialEq, Eq)]
pub enum Word {
    Column,
    Int,
    Text,
    From,
    Field,
    Lines,
    Fn,
    Task,
    Main,
    Let,
    Finish,
    Sum,
    Least,
    Greatest,
    If,
    Else,
    For,
    In,
    Async,
    Offer,
    Run,
    Return,
    Print,
    Len,
    Size,
    At,
    Same,
    Begins,
}

/// The marks of the language.
#[derive(Clone, Copy, Debug, PartialEq, Eq)]
pub enum Mark {
    /// `(`
    LeftParen,
    /// `)`
    RightParen,
    /// `{`
    LeftBrace,
    /// `}`
    RightBrace,
    /// `[`
    LeftBracket,
    /// `]`
    RightBracket,
    /// `,`
    Comma,
    /// `;`
    Semicolon,
    /// `:`
    Colon,
    /// `=`
    Assign,
    /// `==`
    Equal,
    /// `!=`
    NotEqual,
    /// `<`
    Less,
    /// `<=`
    LessEqual,
    /// `>`
    Greater,
    /// `>=`
    GreaterEqual,
    /// `+`
    Plus,
    /// `-`
    Minus,
    /// `*`
    Star,
    /// `/`
    Slash,
    /// `%`
    Percent,
    /// `&&`
    AndAnd,
    /// `||`
    OrOr,
    /// `!`
    Not,
    /// `..`
    DotDot,
}

/// What a token is.
#[derive(Clone, Copy, Debug, PartialEq, Eq)]
pub enum TokenKind {
    /// A letter or `_` followed by letters, digits and `_`, which isn't a word of the language.
    Name,
    /// One or more digits.
    Number,
    /// A string with its quotes.
    Lit,
    Word(Word),
    Mark(Mark),
}

/// A token of a text: the bytes from place `start` to the one before `end`, counted from 0.
#[derive(Clone, Copy, Debug, PartialEq, Eq)]
pub struct Token {
    pub kind: TokenKind,
    pub start: u32,
    pub end: u32,
    /// One more than the number of ends of line before the token.
    pub line: u32,
}

/// The tokens of a text, in its order.
pub type Tokens = Seq<Token>;

/// How each word is spelled.
pub const WORDS: [(&[u8], Word); 28] = [
    (b"column", Word::Column),
    (b"int", Word::Int),
    (b"text", Word::Text),
    (b"from", Word::From),
    (b"field", Word::Field),
    (b"lines", Word::Lines),
    (b"fn", Word::Fn),
    (b"task", Word::Task),
    (b"main", Word::Main),
    (b"let", Word::Let),
    (b"finish", Word::Finish),
    (b"sum", Word::Sum),
    (b"least", Word::Least),
    (b"greatest", Word::Greatest),
    (b"if", Word::If),
    (b"else", Word::Else),
    (b"for", Word::For),
    (b"in", Word::In),
    (b"async", Word::Async),
    (b"offer", Word::Offer),
    (b"run", Word::Run),
    (b"return", Word::Return),
    (b"print", Word::Print),
    (b"len", Word::Len),
    (b"size", Word::Size),
    (b"at", Word::At),
    (b"same", Word::Same),
    (b"begins", Word::Begins),
];

/// How each mark is spelled.
pub const MARKS: [(&[u8], Mark); 25] = [
    (b"(", Mark::LeftParen),
    (b")", Mark::RightParen),
    (b"{", Mark::LeftBrace),
    (b"}", Mark::RightBrace),
    (b"[", Mark::LeftBracket),
    (b"]", Mark::RightBracket),
    (b",", Mark::Comma),
    (b";", Mark::Semicolon),
    (b":", Mark::Colon),
    (b"=", Mark::Assign),
    (b"==", Mark::Equal),
    (b"!=", Mark::NotEqual),
    (b"<", Mark::Less),
    (b"<=", Mark::LessEqual),
    (b">", Mark::Greater),
    (b">=", Mark::GreaterEqual),
    (b"+", Mark::Plus),
    (b"-", Mark::Minus),
    (b"*", Mark::Star),
    (b"/", Mark::Slash),
    (b"%", Mark::Percent),
    (b"&&", Mark::AndAnd),
    (b"||", Mark::OrOr),
    (b"!", Mark::Not),
    (b"..", Mark::DotDot),
];
