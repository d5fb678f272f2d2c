// The next line, handed back as the part of the text it occupies.
ghost use Rattle.std.specs.Prelude.{◌≡◌};
ghost use Rattle.desk_lines.specs.Lines.{first_line, end_of};

// The first line of a text, without its line feed. Where the text ends first, what is there of it.
pub fn next_line(text: &[u8]) -> &[u8]
    ensures { result.now ≡ first_line text.now }
{
    let end = find(text, 0, b'\n');
    &text[..end]
}

// Where the byte `stop` next stands, or the text's end.
pub fn find(text: &[u8], from: usize, stop: u8) -> usize
    ensures { result ≡ end_of stop text.now from }
{
    for i in from..text.len() {
        if text[i] == stop {
            return i;
        }
    }
    // a place behind the text is where it ends
    from.max(text.len())
}
