// Finding the first token that is one too many for a limit that is counted.

ghost use Rattle.std.specs.Prelude.{◌≡◌, ◌≤◌, ℕ, List, length, map, IfSome};
ghost use Rattle.spd_syntax.specs.Tokens.{seen};
ghost use Rattle.spd_syntax.specs.Symbols.{all_seen};
ghost use Rattle.spd_syntax.specs.Limits.{ends_stretch_mark, with_name, counts_with, no_counts};
ghost use Rattle.spd_parse.specs.Counting.{first_over, AreWithin};

use spd_syntax::{Counts, Mark, NameRole, Token, TokenKind, Word, is_operator};

fn ends_stretch(mark: Mark) -> bool
    ensures { result ≡ ends_stretch_mark mark }
{
    matches!(mark, Mark::Semicolon | Mark::LeftBrace | Mark::RightBrace)
}

/// What is counted with a name, or nothing where it is one too many.
#[tactic(auto, unfolding(spd_syntax::specs::Limits::with_name))]
fn with_name(counts: Counts) -> Option<Counts>
    requires { AreWithin counts }
    ensures value { result ≡ with_name counts }
    ensures within { IfSome result AreWithin }
{
    let mut counts = counts;
    match counts.role {
        NameRole::Plain => Some(counts),
        NameRole::Callable => {
            if counts.callables >= 256 {
                return None;
            }
            counts.callables += 1;
            counts.role = NameRole::Parameter;
            Some(counts)
        }
        NameRole::Parameter => {
            if counts.names >= 64 {
                return None;
            }
            counts.names += 1;
            Some(counts)
        }
        NameRole::Bound => {
            if counts.names >= 64 {
                return None;
            }
            counts.names += 1;
            counts.role = NameRole::Plain;
            Some(counts)
        }
        NameRole::Column => {
            if counts.columns >= 16 {
                return None;
            }
            counts.columns += 1;
            counts.role = NameRole::Plain;
            Some(counts)
        }
    }
}

/// What is counted with a token, or nothing where it is one too many.
#[tactic(auto, unfolding(spd_syntax::specs::Limits::counts_with))]
fn counts_with(counts: Counts, token: &Token) -> Option<Counts>
    requires { AreWithin counts }
    ensures value { (text : List ℕ) → result ≡ counts_with counts (seen text token.now).0 }
    ensures within { IfSome result AreWithin }
{
    let mut counts = counts;
    match token.kind {
        TokenKind::Name => with_name(counts),
        TokenKind::Word(Word::Fn | Word::Task) => {
            counts.role = NameRole::Callable;
            counts.names = 0;
            Some(counts)
        }
        TokenKind::Word(Word::Main) => {
            counts.names = 0;
            Some(counts)
        }
        TokenKind::Word(Word::Let | Word::For) => {
            counts.role = NameRole::Bound;
            Some(counts)
        }
        TokenKind::Word(Word::Column | Word::Lines) => {
            counts.role = NameRole::Column;
            Some(counts)
        }
        TokenKind::Mark(mark) => {
            if ends_stretch(mark) {
                counts.role = NameRole::Plain;
                counts.operators = 0;
                return Some(counts);
            }
            if !is_operator(mark) {
                return Some(counts);
            }
            if counts.operators >= 1000 {
                return None;
            }
            counts.operators += 1;
            Some(counts)
        }
        _ => Some(counts),
    }
}

/// The place of the first token that is one too many, or the number of tokens.
#[tactic(auto, unfolding(crate::specs::Counting::first_over))]
pub(crate) fn first_over(tokens: &[Token]) -> usize
    ensures place { (text : List ℕ) → result ≡ first_over no_counts (all_seen text tokens.now) }
    ensures bound { result ≤ length tokens.now }
{
    let mut counts = Counts {
        role: NameRole::Plain,
        callables: 0,
        names: 0,
        columns: 0,
        operators: 0,
    };
    let mut place: usize = 0;
    for token in tokens {
        let Some(after) = counts_with(counts, token) else {
            return place;
        };
        counts = after;
        place += 1;
    }
    place
}
