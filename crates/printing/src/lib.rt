// Numbers and short lines as bytes, printed on a page, which is memory of the caller's. Nothing is allocated. What does not fit is
// denied, and the page stays as it was.
#![tactic(auto)]

ghost use Rattle.std.specs.Prelude.{◌≡◌, ◌≤◌, length, decimal};
ghost use Rattle.printing.specs.Numerals.{hex8, hex_value, denial_line, totals_line};
ghost use Rattle.printing.specs.Output.{Prints};

use arrayvec::ArrayString;
use hex::encode_to_slice;
use itoa::Buffer;

// The longest line: the eight digits of a value, a space, the ten digits of a tally, the end of the line.
const LONGEST_LINE: usize = 20;

// The text of a line, its end included.
pub type Line = ArrayString<LONGEST_LINE>;

// A buffer of the caller's, and where the bytes printed in it end. No Vec can stand for the two: nothing is allocated here.
#[derive(Debug, Drop)]
pub struct Page<'a> {
    pub buffer: &'a mut [u8],
    pub end: usize,
}

// There is no room on the page for what was to be printed.
#[derive(Clone, Copy, PartialEq, Eq, Debug)]
pub struct NoRoom;

impl Page<'_> {
    // Prints `bytes`, all of them or none.
    pub fn put(&mut self, bytes: &[u8]) -> Result<(), NoRoom>
        ensures { Prints self.old self.new bytes.now result }
    {
        let end = self.end.checked_add(bytes.len()).ok_or(NoRoom)?;
        if end > self.buffer.len() {
            return Err(NoRoom);
        }
        // By an index: std does not say what a write through `get_mut` of a range leaves in the buffer.
        self.buffer[self.end..end].copy_from_slice(bytes);
        self.end = end;
        Ok(())
    }

    // Prints `n` in decimal.
    pub fn write_decimal(&mut self, n: u64) -> Result<(), NoRoom>
        ensures { Prints self.old self.new (decimal n) result }
    {
        let mut buffer = Buffer::new();
        self.put(buffer.format(n).as_bytes())
    }

    // Prints the line of a denial.
    pub fn write_denial(&mut self, number: u8) -> Result<(), NoRoom>
        ensures { Prints self.old self.new (denial_line number) result }
    {
        self.put(denial_line(number).as_bytes())
    }

    // Prints the line of totals.
    pub fn write_totals(&mut self, value: u32, tally: u32) -> Result<(), NoRoom>
        ensures { Prints self.old self.new (totals_line value tally) result }
    {
        self.put(totals_line(value, tally).as_bytes())
    }
}

// The eight lower-case hexadecimal digits of `n`, most significant first.
#[tactic(auto, using(crate::proofs::Hexadecimals::hex_of_bytes, crate::proofs::Hexadecimals::hex_reads_back))]
pub fn hexadecimal(n: u32) -> [u8; 8]
    ensures digits { result ≡ hex8 n }
    ensures reads_back { hex_value result ≡ n }
{
    let mut digits = [0; 8];
    encode_to_slice(n.to_be_bytes(), &mut digits).unwrap();
    digits
}

// How many decimal digits `n` has: at most twenty.
pub fn decimal_width(n: u64) -> usize
    ensures counts { result ≡ length (decimal n) }
    ensures few { result ≤ 20 }
{
    let mut buffer = Buffer::new();
    buffer.format(n).len()
}

// The line of a denial: a question mark, its number in decimal, the end of the line. Lines are pushed together, since no clause of
// std says that `write!` succeeds where there is room.
pub fn denial_line(number: u8) -> Line
    ensures { result.bytes ≡ denial_line number }
{
    let mut buffer = Buffer::new();
    let mut line = Line::new();
    line.push('?');
    line.push_str(buffer.format(number));
    line.push('\n');
    line
}

// The line of totals: the value in hexadecimal, a space, the tally in decimal, the end of the line.
pub fn totals_line(value: u32, tally: u32) -> Line
    ensures { result.bytes ≡ totals_line value tally }
{
    let digits = hexadecimal(value);
    let mut buffer = Buffer::new();
    let mut line = Line::new();
    line.push_str(str::from_utf8(&digits).unwrap());
    line.push(' ');
    line.push_str(buffer.format(tally));
    line.push('\n');
    line
}

#[cfg(test)]
mod tests {
    use super::*;

    // Whether `digits` are what is printed of `n`.
    fn shows(n: u64, digits: &[u8]) -> bool {
        let mut out = [b'.'; 20];
        let mut page = Page {
            buffer: &mut out,
            end: 0,
        };
        let printed = page.write_decimal(n);
        let end = page.end;
        printed.is_ok() && out.get(..end) == Some(digits)
    }

    #[test]
    fn decimal_numbers(rt: HostRuntime) {
        assert!(rt; shows(0, b"0"));
        assert!(rt; shows(9, b"9"));
        assert!(rt; shows(10, b"10"));
        assert!(rt; shows(65535, b"65535"));
        assert!(rt; shows(u64::MAX, b"18446744073709551615"));
    }

    #[test]
    fn eight_digits(rt: HostRuntime) {
        assert_eq!(rt; hexadecimal(97258), *b"00017bea");
    }

    #[test]
    fn a_buffer_just_full(rt: HostRuntime) {
        let mut out = [b'.'; 15];
        let mut page = Page {
            buffer: &mut out,
            end: 1,
        };
        assert_eq!(rt; page.write_totals(97258, 4021), Ok(()));
        assert_eq!(rt; page.end, 15);
        assert_eq!(rt; out, *b".00017bea 4021\n");
        let mut page = Page {
            buffer: &mut out,
            end: 10,
        };
        assert_eq!(rt; page.write_denial(255), Ok(()));
        assert_eq!(rt; page.end, 15);
        assert_eq!(rt; out, *b".00017bea ?255\n");
    }

    #[test]
    fn a_buffer_too_short(rt: HostRuntime) {
        let mut out = [b'.'; 14];
        let mut page = Page {
            buffer: &mut out,
            end: 1,
        };
        assert_eq!(rt; page.write_totals(97258, 4021), Err(NoRoom));
        page.end = 10;
        assert_eq!(rt; page.write_denial(255), Err(NoRoom));
        page.end = 15;
        assert_eq!(rt; page.write_decimal(0), Err(NoRoom));
        assert_eq!(rt; page.end, 15);
        assert_eq!(rt; out, [b'.'; 14]);
    }
}
