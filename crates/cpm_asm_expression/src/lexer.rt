//! The tokens of a text.
ghost use Rattle.std.specs.Prelude.{◌≡◌, option_map};
ghost use Rattle.cpm_asm_expression.specs.Tokens.{first_token, word_meaning, sign_token, word_token};

use crate::letters::{begins_name, letters_of, split_word};
use crate::names::name_of;
use crate::numbers::number_of;
use crate::quotes::{quoted_text, text_number};
use crate::tokens::{Atom, Operator, Token};
use crate::words::{Keyword, keyword_of};

/// What a word stands for in an expression: a name or an operator.
fn word_token(word: &[u8]) -> Option<Token>
    ensures { result ≡ word_token word.now }
{
    let letters = letters_of(word)?;
    match keyword_of(&letters) {
        None => Some(Token::Atom(Atom::Named(name_of(&letters)))),
        Some(Keyword::Operator(operator)) => Some(Token::Operator(operator)),
        Some(Keyword::Not) => Some(Token::Not),
        Some(Keyword::Register(_) | Keyword::Operation(_)) => None,
    }
}

fn sign_token(sign: u8) -> Option<Token>
    ensures { result ≡ sign_token sign }
{
    match sign {
        b'+' => Some(Token::Operator(Operator::Add)),
        b'-' => Some(Token::Operator(Operator::Subtract)),
        b'*' => Some(Token::Operator(Operator::Multiply)),
        b'/' => Some(Token::Operator(Operator::Divide)),
        b'(' => Some(Token::Open),
        b')' => Some(Token::Close),
        b'$' => Some(Token::Atom(Atom::Here)),
        _ => None,
    }
}

/// The token at the front of a text that begins with no blank, and the text after it.
pub(crate) fn first_token(text: &[u8]) -> Option<(Token, &[u8])>
    ensures { option_map (λ p. (p.0, p.1.now)) result ≡ first_token text.now }
{
    let (first, rest) = text.split_first()?;
    if begins_name(*first) {
        let (word, after) = split_word(text);
        Some((word_token(word)?, after))
    } else if first.is_ascii_digit() {
        let (word, after) = split_word(text);
        Some((Token::Atom(Atom::Number(number_of(word)?)), after))
    } else if *first == b'\'' {
        let (characters, after) = quoted_text(rest)?;
        Some((Token::Atom(Atom::Number(text_number(&characters)?)), after))
    } else {
        Some((sign_token(*first)?, rest))
    }
}
