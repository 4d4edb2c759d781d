// Lines of bytes. A line ends with its break, the byte 10; a last line without one counts too.
ghost use Rattle.std.specs.Prelude.{◌≡◌, Some, None, MatchOption};
ghost use Rattle.script.specs.Paper.{line_size, Splits, is_dot, split_at_dot, FirstDot, NoDot};

// How many bytes the first line has, its break included. By cases, since with `map_or` LLVM has each line wait for the last byte of
// the line before it, and a paper of empty lines is split in 1.8 times the time.
fn measure_line(bytes: &[u8]) -> usize
    ensures { result ≡ line_size bytes.now }
{
    match bytes.iter().position(|byte| *byte == b'\n') {
        Some(place) => place + 1,
        None => bytes.len(),
    }
}

// The first line, with its break where it has one, and what follows it.
#[tactic(auto, using(crate::proofs::FirstLine::size_within, crate::proofs::FirstLine::splits))]
pub fn split_line(bytes: &[u8]) -> (&[u8], &[u8])
    ensures { Splits bytes.now result.0.now result.1.now }
{
    bytes.split_at(measure_line(bytes))
}

// Whether a line is a single dot. The dot is told as a char, as letters of commands are: a rule of the project.
pub fn is_dot_line(line: &[u8]) -> bool
    ensures { result ≡ is_dot line.now }
{
    matches!(line, [mark, stop] if char::from(*mark) == '.' && char::from(*stop) == '\n')
}

// What stands before the first dot line, and what follows it. Lines are taken off the front by hand: no iterator of lines answers
// what follows one.
#[tactic(auto, using(crate::proofs::Dots::go_on))]
pub fn split_at_dot_line(bytes: &[u8]) -> Option<(&[u8], &[u8])>
    ensures exact { MatchOption result (split_at_dot bytes.now ≡ None) (λ p. split_at_dot bytes.now ≡ Some (p.0.now, p.1.now)) }
    ensures first { MatchOption result (NoDot bytes.now) (λ p. FirstDot bytes.now p.0.now p.1.now) }
{
    let mut rest = bytes;
    while !rest.is_empty() {
        let (line, after) = split_line(rest);
        if is_dot_line(line) {
            return Some((&bytes[..bytes.len() - rest.len()], after));
        }
        rest = after;
    }
    None
}
