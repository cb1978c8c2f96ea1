use crate::{Line, MAX_LINE, line_of, put_rows, put_value};
use sql_value::{Row, Text, Value};
use std::alloc::{AllocError, Global};
use std::test::Fail;

// A line in one word, its two numbers and its text.
fn told(line: &[u8]) -> (&'static str, u32, u32, &[u8]) {
    match line_of(line) {
        None => ("bad", 0, 0, b""),
        Some(Line::Nothing) => ("nothing", 0, 0, b""),
        Some(Line::Issue { session, text }) => ("issue", session, 0, text),
        Some(Line::Step { session, count }) => ("step", session, count, b""),
        Some(Line::Run { session }) => ("run", session, 0, b""),
        Some(Line::Settle) => ("settle", 0, 0, b""),
    }
}

#[test]
fn lines_ask_for_what_they_say(rt: HostRuntime) -> Result<(), Fail> {
    let lines: [(&[u8], &str, u32, u32, &[u8]); 24] = [
        (b"", "nothing", 0, 0, b""),
        (b"\r", "nothing", 0, 0, b""),
        (b"#", "nothing", 0, 0, b""),
        (b"# @1 x", "nothing", 0, 0, b""),
        (b"#\r\r", "nothing", 0, 0, b""),
        (b"@1 ", "issue", 1, 0, b""),
        (b"@1 \r", "issue", 1, 0, b""),
        (b"@1 SELECT 1\r", "issue", 1, 0, b"SELECT 1"),
        (b"@1 x\r\r", "issue", 1, 0, b"x\r"),
        (b"@9  x ", "issue", 9, 0, b" x "),
        (b"@10 @1 x", "issue", 10, 0, b"@1 x"),
        (b"@64 \x00\xff", "issue", 64, 0, b"\x00\xff"),
        (b"step 1", "step", 1, 1, b""),
        (b"step 1 1", "step", 1, 1, b""),
        (b"step 64\r", "step", 64, 1, b""),
        (b"step 7 10", "step", 7, 10, b""),
        (b"step 64 9999", "step", 64, 9999, b""),
        (b"step 2 1000\r", "step", 2, 1000, b""),
        (b"run 1", "run", 1, 0, b""),
        (b"run 20", "run", 20, 0, b""),
        (b"run 64", "run", 64, 0, b""),
        (b"run 63\r", "run", 63, 0, b""),
        (b"settle", "settle", 0, 0, b""),
        (b"settle\r", "settle", 0, 0, b""),
    ];
    for (i, (line, word, session, count, text)) in lines.iter().enumerate() {
        let (a, b, c, d) = told(line);
        assert_eq!(rt; a, *word, "line {i}");
        assert_eq!(rt; b, *session, "session of line {i}");
        assert_eq!(rt; c, *count, "count of line {i}");
        assert!(rt; d == *text, "text of line {i}");
    }
    Ok(())
}

#[test]
fn all_other_lines_are_bad(rt: HostRuntime) -> Result<(), Fail> {
    let lines: [&[u8]; 44] = [
        b" ",
        b" #",
        b"@",
        b"@1",
        b"@1\r",
        b"@ x",
        b"@ 1 x",
        b"@0 x",
        b"@01 x",
        b"@65 x",
        b"@100 x",
        b"@+1 x",
        b"@-1 x",
        b"@1\tx",
        b"@1x",
        b"@9999999999999999999999 x",
        b"1 x",
        b" @1 x",
        b"run",
        b"run ",
        b"run 0",
        b"run 01",
        b"run 65",
        b"run  1",
        b"run 1 ",
        b"run 1\r\r",
        b"run 1 1",
        b"run 9999999999999999999999",
        b"RUN 1",
        b"run1",
        b"step",
        b"step ",
        b"step 0",
        b"step 65 1",
        b"step 1 ",
        b"step 1 0",
        b"step 1 01",
        b"step 1 10000",
        b"step 1  2",
        b"step 1 2 3",
        b"Step 1",
        b"settle ",
        b"SETTLE",
        b"settle\r\r",
    ];
    for (i, line) in lines.iter().enumerate() {
        assert_eq!(rt; told(line).0, "bad", "line {i}");
    }
    Ok(())
}

// A line that begins so, filled up to this many bytes.
fn long_line(alloc: Global, front: &[u8], fill: u8, len: usize) -> Result<Vec<u8>, AllocError> {
    let mut line = front.to_vec(alloc)?;
    for _ in front.len()..len {
        line.push(fill)?;
    }
    Ok(line)
}

#[test]
fn front_of_a_long_line_decides(rt: HostRuntime) -> Result<(), Fail> {
    let fronts: [(&[u8], &str); 6] = [
        (b"@64 ", "issue"),
        (b"@1 ", "issue"),
        (b"@65 ", "bad"),
        (b"#", "nothing"),
        (b"run ", "bad"),
        (b"step 1 1", "bad"),
    ];
    for (i, (front, word)) in fronts.iter().enumerate() {
        for len in [MAX_LINE - 1, MAX_LINE, MAX_LINE + 1, MAX_LINE + 9] {
            for fill in [b'1', b'\r'] {
                let line = long_line(rt.alloc(), front, fill, len)?;
                let whole = told(&line);
                let kept = told(&line[..line.len().min(MAX_LINE)]);
                assert_eq!(rt; whole.0, *word, "line {i} of {len} bytes");
                assert_eq!(rt; kept.0, *word, "front of line {i} of {len} bytes");
                assert_eq!(rt; kept.1, whole.1, "session of line {i} of {len} bytes");
                let cut = line.len() > MAX_LINE && whole.0 == "issue";
                assert!(rt;
                    !cut || kept.3.len() > 65_536,
                    "text of line {i} of {len} bytes"
                );
            }
        }
    }
    Ok(())
}

fn text(alloc: Global, bytes: &[u8]) -> Result<Value, AllocError> {
    Ok(Value::Text(Text::new(bytes.to_vec(alloc)?)))
}

#[test]
fn values_are_printed(rt: HostRuntime) -> Result<(), Fail> {
    let alloc = rt.alloc();
    let values: [(Value, &[u8]); 12] = [
        (Value::Null, b"NULL"),
        (Value::Int(0), b"0"),
        (Value::Int(-1), b"-1"),
        (Value::Int(10), b"10"),
        (Value::Int(9223372036854775807), b"9223372036854775807"),
        (Value::Int(-9223372036854775808), b"-9223372036854775808"),
        (text(alloc, b"")?, b"''"),
        (text(alloc, b"NULL")?, b"'NULL'"),
        (text(alloc, b"it's \\")?, b"'it\\'s \\\\'"),
        (text(alloc, b"\n\r\t\x00")?, b"'\\n\\r\\t\\0'"),
        (
            text(alloc, b"\x01\x08\x0b\x1a\x7f\"%")?,
            b"'\x01\x08\x0b\x1a\x7f\"%'",
        ),
        (text(alloc, b"\x80\xc3\xa4\xff")?, b"'\x80\xc3\xa4\xff'"),
    ];
    for (i, (value, want)) in values.iter().enumerate() {
        let mut out = b"- ".to_vec(alloc)?;
        put_value(value, &mut out)?;
        assert!(rt; out.len() >= 2);
        assert!(rt; &out[2..] == *want, "value {i}");
    }
    Ok(())
}

// A row of three values.
fn row(alloc: Global, a: Value, b: Value, c: Value) -> Result<Row, AllocError> {
    let mut values = Vec::new(alloc);
    values.push(a)?;
    values.push(b)?;
    values.push(c)?;
    Ok(Row::new(values))
}

#[test]
fn rows_are_lines(rt: HostRuntime) -> Result<(), Fail> {
    let alloc = rt.alloc();
    let mut rows = Vec::new(alloc);
    let mut out = b"- ".to_vec(alloc)?;
    put_rows(7, &rows, &mut out)?;
    assert!(rt; out.as_slice() == b"- 7 rows 0\n".as_slice());
    rows.push(row(alloc, Value::Int(-1), text(alloc, b"a, b\n")?, Value::Null)?)?;
    rows.push(Row::new(Vec::new(alloc)))?;
    rows.push(row(alloc, Value::Null, Value::Int(20), text(alloc, b"")?)?)?;
    out.clear();
    put_rows(64, &rows, &mut out)?;
    let want = b"64 rows 3\n64 | -1, 'a, b\\n', NULL\n64 | \n64 | NULL, 20, ''\n".as_slice();
    assert!(rt; out.as_slice() == want);
    Ok(())
}
