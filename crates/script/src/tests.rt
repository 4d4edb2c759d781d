use crate::denial::SessionDenial;
use crate::line::{is_dot_line, split_at_dot_line, split_line};
use crate::paper::{INPUT_LIMIT, Paper, read_paper};
use std::test::Fail;

#[test]
fn first_lines(rt: HostRuntime) {
    assert_eq!(rt; split_line(b"ab\ncd\n"), (&b"ab\n"[..], &b"cd\n"[..]));
    assert_eq!(rt; split_line(b"ab"), (&b"ab"[..], &b""[..]));
    assert_eq!(rt; split_line(b""), (&b""[..], &b""[..]));
}

#[test]
fn dot_lines(rt: HostRuntime) {
    assert!(rt; is_dot_line(b".\n"));
    assert!(rt; !is_dot_line(b"."));
    assert!(rt; !is_dot_line(b"..\n"));
    assert!(rt; !is_dot_line(b" .\n"));
    assert!(rt; !is_dot_line(b"\n"));
}

#[test]
fn splits_at_the_first(rt: HostRuntime) {
    assert_eq!(rt;
        split_at_dot_line(b"a\n..\n.\nb\n.\nc"),
        Some((&b"a\n..\n"[..], &b"b\n.\nc"[..]))
    );
    assert_eq!(rt; split_at_dot_line(b".\n"), Some((&b""[..], &b""[..])));
    assert_eq!(rt; split_at_dot_line(b"a\n."), None);
}

#[test]
fn papers(rt: HostRuntime) {
    assert_eq!(rt;
        read_paper(b".\nlast\n"),
        Ok(Paper {
            set_text: b"",
            script: b"last\n",
        })
    );
    assert_eq!(rt; read_paper(b""), Err(SessionDenial::NoFinalBreak));
    assert_eq!(rt; read_paper(b".\nlast"), Err(SessionDenial::NoFinalBreak));
    assert_eq!(rt; read_paper(b"a\n."), Err(SessionDenial::NoFinalBreak));
    assert_eq!(rt; read_paper(b"a\n..\n .\n"), Err(SessionDenial::NoDotLine));
}

// The number of the denial, where there is one.
fn denied(input: &[u8]) -> Option<u8> {
    read_paper(input).err().map(SessionDenial::number)
}

#[test]
fn the_limit(rt: HostRuntime) -> Result<(), Fail> {
    let mut full = vec![in rt.alloc(); b'\n'; INPUT_LIMIT]?;
    assert_eq!(rt; denied(&full), Some(22));
    if let Some(first) = full.first_mut() {
        *first = b'.';
    }
    assert_eq!(rt; denied(&full), None);
    full.push(b'\n')?;
    assert_eq!(rt; denied(&full), Some(20));
    Ok(())
}

#[test]
fn numbers(rt: HostRuntime) {
    assert_eq!(rt; SessionDenial::InputTooLong.number(), 20);
    assert_eq!(rt; SessionDenial::NoFinalBreak.number(), 21);
    assert_eq!(rt; SessionDenial::NoDotLine.number(), 22);
}
