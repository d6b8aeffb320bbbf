ghost use Rattle.std.specs.Prelude.{◌≡◌, find};
ghost use Rattle.std.specs.Option.{option_copied};
ghost use Rattle.std.specs.Str.{bytes_eq};
ghost use Rattle.hera_syntax.specs.Words.{keyword_text};
ghost use Rattle.hera_lexer.specs.Read.{keyword_of};

use hera_syntax::Keyword;

/// The one of some keywords that is written so.
fn written<'a>(keywords: &'a [Keyword], word: &str) -> Option<&'a Keyword>
    ensures { option_copied result ≡ find (λ k. bytes_eq (keyword_text k) word.now) keywords.now }
{
    keywords.iter().find(|keyword| keyword.text() == word)
}

/// The keyword that is written so.
pub fn keyword(word: &str) -> Option<Keyword>
    ensures { result ≡ keyword_of word.now }
{
    match written(&Keyword::ALL, word) {
        Some(keyword) => Some(*keyword),
        None => None,
    }
}
