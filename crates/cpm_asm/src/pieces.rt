//! The statements of a source, one after another.
ghost use Rattle.std.specs.Prelude.{◌≡◌, ◌∷◌, ◌+◌, ◌<◌, ◌≤◌, ◌^◌, [], IfSome, MatchOption, length};
ghost use Rattle.cpm_asm.specs.Pieces.{bytes_left, statements_left, pieces, seen_piece};

use crate::lines::{first_line, first_part, line_code, source_text};

/// A statement's text, and its line.
#[derive(Clone, Copy)]
pub(crate) struct Piece<'a> {
    pub line: u64,
    pub text: &'a [u8],
}

/// The statements that are left.
#[derive(Clone, Copy)]
pub(crate) struct Pieces<'a> {
    /// The lines after the one that was begun.
    pub rest: &'a [u8],
    /// The statements of that line which are left.
    pub behind: Option<&'a [u8]>,
    /// Its number.
    pub line: u64,
}

/// The statements of a source.
#[tactic(auto, unfolding(crate::specs::Pieces::pieces))]
pub(crate) fn pieces_of(source: &[u8]) -> Pieces<'_>
    ensures pieces { statements_left result ≡ pieces source.now }
    ensures lines { result.line + length result.rest.now < 2 ^ 64 }
{
    Pieces {
        rest: source_text(source),
        behind: None,
        line: 0,
    }
}

/// The next statement, and those after it.
pub(crate) fn next_piece<'a>(pieces: &Pieces<'a>) -> Option<(Piece<'a>, Pieces<'a>)>
    requires { pieces.now.line + length pieces.now.rest.now < 2 ^ 64 }
    ensures pieces { MatchOption result (statements_left pieces.now ≡ []) (λ p. statements_left pieces.now ≡ seen_piece p.0 ∷ statements_left p.1) }
    ensures smaller { IfSome result (λ p. bytes_left p.1 < bytes_left pieces.now) }
    ensures lines { IfSome result (λ p. p.1.line + length p.1.rest.now < 2 ^ 64) }
{
    match pieces.behind {
        Some(text) => {
            let (text, behind) = first_part(text, b'!');
            Some((
                Piece {
                    line: pieces.line,
                    text,
                },
                Pieces {
                    rest: pieces.rest,
                    behind,
                    line: pieces.line,
                },
            ))
        }
        None => {
            if pieces.rest.is_empty() {
                return None;
            }
            let (line, rest) = first_line(pieces.rest);
            let (text, behind) = first_part(line_code(line), b'!');
            let number = pieces.line + 1;
            Some((
                Piece { line: number, text },
                Pieces {
                    rest,
                    behind,
                    line: number,
                },
            ))
        }
    }
}
