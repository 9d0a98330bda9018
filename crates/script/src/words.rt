// Words and figures at the front of a text.
ghost use Rattle.std.specs.Prelude.{◌≡◌};
ghost use Rattle.std.specs.Option.{option_map};
ghost use Rattle.script.specs.Words.{seen, past, optional, figure_from, figure_of, figure_to, next_figure, is_end};

// The text behind a word.
pub(crate) fn read_word<'a>(text: &'a [u8], word: &[u8]) -> Option<&'a [u8]>
    ensures { option_map (λ x. x.now) result ≡ past word.now text.now }
{
    text.strip_prefix(word)
}

// Whether a word is there, which is the value that is read, and the text behind it.
pub(crate) fn read_optional<'a>(text: &'a [u8], word: &[u8]) -> (bool, &'a [u8])
    ensures { (result.0, result.1.now) ≡ optional (past word.now text.now) text.now }
{
    match read_word(text, word) {
        Some(rest) => (true, rest),
        None => (false, text),
    }
}

// The digits of a figure that begins with `first`.
fn read_digits(first: u8, text: &[u8]) -> Option<(u32, &[u8])>
    ensures { seen result ≡ figure_from first text.now }
{
    let mut value = u32::from(first);
    let mut rest = text;
    while let [digit @ b'0'..=b'9', more @ ..] = rest {
        value = value
            .checked_mul(10)?
            .checked_add(u32::from(*digit - b'0'))?;
        rest = more;
    }
    Some((value, rest))
}

// A figure without a leading zero.
pub(crate) fn read_figure(text: &[u8]) -> Option<(u32, &[u8])>
    ensures { seen result ≡ figure_of text.now }
{
    match text {
        [b'0', rest @ ..] => Some((0, rest)),
        [first @ b'1'..=b'9', rest @ ..] => read_digits(*first - b'0', rest),
        _ => None,
    }
}

// A figure of at most `most`.
pub(crate) fn read_small(text: &[u8], most: u8) -> Option<(u8, &[u8])>
    ensures { seen result ≡ figure_to most text.now }
{
    let (value, rest) = read_figure(text)?;
    let value = u8::try_from(value).ok().filter(|value| *value <= most)?;
    Some((value, rest))
}

// A figure of at most `most` behind a space.
pub(crate) fn read_next(text: &[u8], most: u8) -> Option<(u8, &[u8])>
    ensures { seen result ≡ next_figure most text.now }
{
    read_small(read_word(text, b" ")?, most)
}

// Whether a text is the end of a line.
pub(crate) fn is_end(text: &[u8]) -> bool
    ensures { result ≡ is_end text.now }
{
    text == b")\n".as_slice()
}
