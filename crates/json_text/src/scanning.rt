// White space and literal names (RFC 8259 2, 3): what stands behind them.
ghost use Rattle.std.specs.Prelude.{◌≡◌};
ghost use Rattle.json_text.specs.Reads.{skip_space, literal};
ghost use Rattle.json_text.specs.Promise.{Behind};

use octets::Class;

// The text behind the white space that it begins with.
pub(crate) fn past_space(text: &[u8]) -> &[u8]
    ensures { result.now ≡ skip_space text.now }
{
    &text[octets::run_end(text, 0, Class::Space)..]
}

// The text behind a literal name.
pub(crate) fn past_word<'a>(text: &'a [u8], word: &[u8]) -> Option<&'a [u8]>
    ensures { Behind (literal word.now text.now) result }
{
    text.strip_prefix(word)
}
