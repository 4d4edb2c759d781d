// A session: it reads a paper, that is a set text and a script, and gives what is printed for it.
#![tactic(auto)]

ghost use Rattle.std.specs.Prelude.{◌≡◌, map, IfOk, IfSome, OnOk};
ghost use Rattle.std.specs.Io.KnownBytes.{Appends};
ghost use Rattle.printing.specs.Output.{Prints};
ghost use Rattle.session.specs.Report.{report, totals_of};

use element::Element;
use measure::{Fingerprint, Pair, Tally, fold};
use printing::{NoRoom, Page};
use script::paper::{INPUT_LIMIT, read_paper};
use std::alloc::{AllocError, Global};
use std::io::{Read, Write};

// The hand that a set text is typed by.
const SET_HAND: u8 = 0;

// The bytes of a page that a line is printed on: more than the longest line has.
const LINE_ROOM: usize = 64;

// The totals that a session keeps of every part of its text.
pub type Totals = Pair<Fingerprint, Tally>;

// Reads a paper, and writes what is printed for it.
pub fn answer_paper<E: Element, R: Read + Drop, W: Write>(
    alloc: Global,
    input: R,
    output: &mut W,
) -> anyhow::Result<()>
    ensures { OnOk result (IfSome (R.remaining input) (λ paper. Appends (W.contents output.old) (W.contents output.new) (report E.made E.shown E.typist paper))) }
{
    let mut paper = Vec::new(alloc);
    // One byte above the limit is enough to see that an input is too long.
    input.take(INPUT_LIMIT as u64 + 1).read_to_end(&mut paper)?;
    let printed = run::<E>(alloc, &paper)?;
    output.write_all(&printed)?;
    Ok(())
}

// What is printed for an input: a denial of it, or the totals of its set text.
pub fn run<E: Element>(alloc: Global, input: &[u8]) -> Result<Vec<u8>, AllocError>
    ensures { IfOk result (λ v. v.items ≡ report E.made E.shown E.typist input.now) }
{
    let mut buffer = [0; LINE_ROOM];
    let mut page = Page {
        buffer: &mut buffer,
        end: 0,
    };
    print_paper::<E>(alloc, input, &mut page)?.unwrap();
    let end = page.end;
    Vec::from_slice(alloc, &buffer[..end])
}

// Prints the line of an input on a page, if it has room there.
fn print_paper<E: Element>(
    alloc: Global,
    input: &[u8],
    page: &mut Page<'_>,
) -> Result<Result<(), NoRoom>, AllocError>
    ensures { IfOk result (λ printed. Prints page.old page.new (report E.made E.shown E.typist input.now) printed) }
{
    match read_paper(input) {
        Ok(paper) => print_text::<E>(alloc, paper.set_text, page),
        Err(denial) => Ok(page.write_denial(denial.number())),
    }
}

// Prints the line of totals of a set text on a page, if it has room there.
fn print_text<E: Element>(
    alloc: Global,
    text: &[u8],
    page: &mut Page<'_>,
) -> Result<Result<(), NoRoom>, AllocError>
    ensures { IfOk result (λ printed. Prints page.old page.new (totals_of E.shown E.typist (map (λ b. E.made b 0) text.now)) printed) }
{
    let elements: Vec<E> = set_elements(alloc, text)?;
    let totals: Totals = fold(&elements);
    Ok(page.write_totals(totals.first.value, totals.second.count))
}

// The elements of a set text.
fn set_elements<E: Element>(alloc: Global, text: &[u8]) -> Result<Vec<E>, AllocError>
    ensures { IfOk result (λ v. v.items ≡ map (λ b. E.made b 0) text.now) }
{
    let mut elements = Vec::with_capacity(alloc, text.len())?;
    let made = |byte: &u8|
        ensures { result ≡ E.made byte.now 0 }
    { E::make(*byte, SET_HAND) };
    elements.extend(text.iter().map(made))?;
    Ok(elements)
}

#[cfg(test)]
mod tests {
    use super::*;
    use element::Cell;
    use std::test::Fail;

    // Whether `line` is what is printed for a paper.
    fn prints<E: Element>(alloc: Global, paper: &[u8], line: &[u8]) -> anyhow::Result<bool> {
        let mut output = Vec::new(alloc);
        answer_paper::<E, _, _>(alloc, paper, &mut output)?;
        Ok(output.as_slice() == line)
    }

    #[test]
    fn totals_of_a_set_text(rt: HostRuntime) -> Result<(), Fail> {
        assert!(rt; prints::<u8>(rt.alloc(), b"ab\n.\n,p\n", b"00017bea 0\n")?);
        assert!(rt; prints::<Cell>(rt.alloc(), b".\n", b"00000000 0\n")?);
        Ok(())
    }

    #[test]
    fn denials_of_a_paper(rt: HostRuntime) -> Result<(), Fail> {
        let long = vec![in rt.alloc(); b'\n'; INPUT_LIMIT + 1]?;
        assert!(rt; prints::<u8>(rt.alloc(), &long, b"?20\n")?);
        assert!(rt; prints::<u8>(rt.alloc(), b"", b"?21\n")?);
        assert!(rt; prints::<Cell>(rt.alloc(), b"ab\n", b"?22\n")?);
        Ok(())
    }
}
