//! Where a word or a line ends, and which byte is what.
ghost use Rattle.std.specs.Prelude.{◌≡◌, ◌<◌, ◌≤◌, ◌↔◌, false, IsTrue, IfSome, IfNone, length};
ghost use Rattle.fort_theory.specs.Signatures as theory;
ghost use Rattle.fort_grammar.specs.Text as grammar;
ghost use Rattle.fort_sexpr.specs.FormView.{word_ahead};
ghost use Rattle.fort_sexpr.specs.Progress.{comment_before, HasNoLineEnd, IsBehindLine, IsWordEnd, IsLineEnd, IsNextToken};

/// Whether a byte is a space, a tab, a CR or an LF.
pub fn is_blank(byte: u8) -> bool
    ensures { result ≡ grammar.is_blank byte }
{
    matches!(byte, b' ' | b'\t' | b'\r' | b'\n')
}

/// Whether a byte is printable ASCII and none of `(`, `)` and `;`.
pub fn is_word_byte(byte: u8) -> bool
    ensures { result ≡ theory.is_word_byte byte }
{
    matches!(byte, 0x21..=0x7e) && !matches!(byte, b'(' | b')' | b';')
}

/// Where the word ends whose bytes stand from an offset on.
pub(crate) fn end_of_word(bytes: &[u8], from: usize) -> usize
    requires { from ≤ length bytes.now }
    ensures { IsWordEnd bytes.now from result }
{
    for i in from..bytes.len() {
        if !is_word_byte(bytes[i]) {
            return i;
        }
    }
    bytes.len()
}

/// Whether the word that bytes begin with is this text.
pub fn is_ahead(bytes: &[u8], text: &[u8]) -> bool
    ensures { IsTrue result ↔ (word_ahead bytes.now ≡ text.now) }
{
    // the bytes first: most words differ from the text long before they end
    bytes.starts_with(text) && end_of_word(bytes, 0) == text.len()
}

/// The offset behind the first LF from an offset on.
pub(crate) fn behind_line(bytes: &[u8], from: usize) -> Option<usize>
    requires { from ≤ length bytes.now }
    ensures some { IfSome result (IsBehindLine bytes.now from) }
    ensures none { IfNone result (HasNoLineEnd bytes.now from (length bytes.now)) }
{
    for i in from..bytes.len() {
        if bytes[i] == b'\n' {
            return Some(i + 1);
        }
    }
    None
}

/// The offset behind the line of an offset.
pub(crate) fn end_of_line(bytes: &[u8], from: usize) -> usize
    requires { from < length bytes.now }
    ensures { IsLineEnd bytes.now from result }
{
    match behind_line(bytes, from) {
        Some(to) => to,
        None => bytes.len(),
    }
}

/// Where the blanks and comments end that stand from an offset on.
pub(crate) fn next_token(bytes: &[u8], from: usize) -> usize
    requires within { from ≤ length bytes.now }
    requires outside { comment_before bytes.now from ≡ false }
    ensures { IsNextToken bytes.now from result }
{
    let mut at = from;
    while at < bytes.len() {
        if is_blank(bytes[at]) {
            at += 1;
        } else if bytes[at] == b';' {
            at = end_of_line(bytes, at);
        } else {
            return at;
        }
    }
    at
}
