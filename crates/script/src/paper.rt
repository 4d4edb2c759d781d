// Reads a paper: the set text, up to the first dot line, and the script after it.
ghost use Rattle.std.specs.Prelude.{◌≡◌, IfOk, Ok, Err, MatchResult};
ghost use Rattle.script.specs.Paper.{ends_with_break, paper_of, FirstDot};

use crate::denial::SessionDenial;
use crate::line::split_at_dot_line;

// How many bytes an input may have.
pub const INPUT_LIMIT: usize = 65_536;

#[derive(Clone, Copy, PartialEq, Eq, Debug)]
pub struct Paper<'a> {
    pub set_text: &'a [u8],
    pub script: &'a [u8],
}

// Whether the last byte is a line break.
fn ends_line(bytes: &[u8]) -> bool
    ensures { result ≡ ends_with_break bytes.now }
{
    matches!(bytes, [.., b'\n'])
}

pub fn read_paper(input: &[u8]) -> Result<Paper<'_>, SessionDenial>
    ensures exact { MatchResult result (λ p. paper_of input.now ≡ Ok (p.set_text.now, p.script.now)) (λ d. paper_of input.now ≡ Err d) }
    ensures first { IfOk result (λ p. FirstDot input.now p.set_text.now p.script.now) }
{
    if input.len() > INPUT_LIMIT {
        return Err(SessionDenial::InputTooLong);
    }
    if !ends_line(input) {
        return Err(SessionDenial::NoFinalBreak);
    }
    let (set_text, script) = split_at_dot_line(input).ok_or(SessionDenial::NoDotLine)?;
    Ok(Paper { set_text, script })
}
