//! The lines of a text, counted by the letters that they begin with.

ghost use Rattle.std.specs.Prelude.{◌≡◌, ◌≢◌, ◌==◌, ◌&&◌, if◌then◌else◌};
ghost use Rattle.hg_cli.specs.Lines as lines_are;

// A line more, where one begins and a byte is the letter.
fn begun(begins: bool, b: u8, letter: u8) -> u64
    ensures { result ≡ (if begins && b == letter then 1 else 0) }
{
    if begins && b == letter { 1 } else { 0 }
}

/// How many lines begin with a letter.
pub(crate) fn lines_with(text: &[u8], letter: u8) -> u64
    requires { letter ≢ 10 }
    ensures { result ≡ lines_are.lines_with letter text.now }
{
    let mut lines = 0;
    let mut begins = true;
    for b in text {
        lines += begun(begins, *b, letter);
        begins = *b == b'\n';
    }
    lines
}
