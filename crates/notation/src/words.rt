// A line cut into words, from its front: blanks stand between words.
ghost use Rattle.std.specs.Prelude.{◌≡◌};
ghost use Rattle.notation.specs.Words.{is_blank as is_blank_byte, skipped as skipped_from, front_word as front_word_of, front_rest as front_rest_of, word as word_of, behind as behind_of, is_over as is_over_at};

pub fn is_blank(byte: u8) -> bool
    ensures { result ≡ is_blank_byte byte }
{
    matches!(byte, b' ' | b'\t' | b'\r')
}

// What is left of a line behind the blanks at its front.
fn skipped(line: &[u8]) -> &[u8]
    ensures { result.now ≡ skipped_from line.now }
{
    let start = line
        .iter()
        .position(|byte| !is_blank(*byte))
        .unwrap_or(line.len());
    &line[start..]
}

// The first word of a line that begins with no blank, and what is left behind it.
fn split_front(line: &[u8]) -> (&[u8], &[u8])
    ensures word { result.0.now ≡ front_word_of line.now }
    ensures rest { result.1.now ≡ front_rest_of line.now }
{
    let end = line
        .iter()
        .position(|byte| is_blank(*byte))
        .unwrap_or(line.len());
    line.split_at(end)
}

// The first word of a line, empty where there is none.
pub fn word(line: &[u8]) -> &[u8]
    ensures { result.now ≡ word_of line.now }
{
    let (word, _) = split_front(skipped(line));
    word
}

// What is left of a line behind its first word.
pub fn behind(line: &[u8]) -> &[u8]
    ensures { result.now ≡ behind_of line.now }
{
    let (_, rest) = split_front(skipped(line));
    rest
}

// No word is left.
pub fn is_over(left: &[u8]) -> bool
    ensures { result ≡ is_over_at left.now }
{
    word(left).is_empty()
}
