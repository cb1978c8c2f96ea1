//! Whole runs that were worked out by hand: replies, acknowledgements, and faults of each end.
use crate::code_of;
use crate::fixture::{ONE, TABLE, bytes_of, fresh, joined, played, run_between, with_files};
use crate::run::{LOG_LIMIT, Status};
use disk_model::{Veiled, Volume};
use outer_io::{MemorySink, MemorySource};
use std::test::Fail;

#[test]
fn a_schedule_is_answered(rt: HostRuntime) -> Result<(), Fail> {
    let alloc = rt.alloc();
    let volume = Volume::new(Box::new(alloc, fresh(alloc, Vec::new(alloc))?)?);
    let input = joined(alloc, &[TABLE, ONE, ONE])?;
    let (first, replies, mut volume) = played(alloc, volume, &input, 4_096)?;
    assert_eq!(rt; code_of(&first.status), 0);
    let want = b"1 ok 0 #1\n1 ok 0 #2\n1 ok 1 #3\n1 error 1062 duplicate entry\n".as_slice();
    assert!(rt; replies.as_slice() == want);
    let numbers = first.acks.iter().map(|ack| ack.number);
    assert!(rt; numbers.eq([1, 2, 3].into_iter()));
    assert_eq!(rt; volume.len(0)?, 344);
    let more = b"@1 INSERT INTO t VALUES (1, 'y')\n@1 INSERT INTO t VALUES (2, '')\n".as_slice();
    let (second, replies, _) = played(alloc, volume, more, 4_096)?;
    assert_eq!(rt; code_of(&second.status), 0);
    assert!(rt; replies.as_slice() == b"1 error 1062 duplicate entry\n1 ok 1 #4\n".as_slice());
    Ok(())
}

#[test]
fn each_refusal_has_its_order(rt: HostRuntime) -> Result<(), Fail> {
    let alloc = rt.alloc();
    let install = b"@1 INSTALL PLUGIN JOURNAL SONAME 'ha_journal.so'\n".as_slice();
    let create =
        b"@1 CREATE TABLE t (k BIGINT PRIMARY KEY, v VARCHAR(10)) ENGINE = JOURNAL\n".as_slice();
    let cases: [(&[u8], &[u8]); 8] = [
        (create, b"1 error 1286 unknown engine\n"),
        (ONE, b"1 error 1146 no such table\n"),
        (install, b"1 ok 0 #1\n"),
        (install, b"1 error 9001 plugin is installed\n"),
        (ONE, b"1 error 1146 no such table\n"),
        (create, b"1 ok 0 #2\n"),
        (create, b"1 error 1050 table exists\n"),
        (ONE, b"1 ok 1 #3\n"),
    ];
    let mut input = Vec::new(alloc);
    let mut want = Vec::new(alloc);
    let mut volume = Volume::new(Box::new(alloc, fresh(alloc, Vec::new(alloc))?)?);
    for (line, reply) in cases {
        input.extend_from_slice(line)?;
        want.extend_from_slice(reply)?;
        let (_, replies, left) = played(alloc, volume, line, 4_096)?;
        assert!(rt; replies.as_slice() == reply, "a run of its own");
        volume = left;
    }
    let volume = Volume::new(Box::new(alloc, fresh(alloc, Vec::new(alloc))?)?);
    let (_, replies, _) = played(alloc, volume, &input, 4_096)?;
    assert!(rt; replies.as_slice() == want.as_slice(), "in one run");
    Ok(())
}

#[test]
fn lines_are_answered_in_order(rt: HostRuntime) -> Result<(), Fail> {
    let alloc = rt.alloc();
    let cases: [(&[u8], &[u8]); 7] = [
        (b"", b""),
        (b"\n", b"? 1\n"),
        (b"settle\n\nno line\r\nsettle\r\n", b"? 2\n? 3\n"),
        (
            b"settle\n@1 INSTALL PLUGIN JOURNAL SONAME 'ha_journal.so'",
            b"1 ok 0 #1\n",
        ),
        (b"settle\nsettle\nsettl", b"? 3\n"),
        (
            b"# settle\nrun 1\n@2 INSERT INTO t VALUES (1, 'x')\nstep 1",
            b"? 1\n? 2\n? 3\n? 4\n",
        ),
        (
            b"@1 INSERT INTO t VALUES (1, '')                                                 and more\nno",
            b"1 error 1064 syntax at 77\n? 2\n",
        ),
    ];
    for (i, (input, want)) in cases.iter().enumerate() {
        for piece in [1, 7, 4_096] {
            let volume = Volume::new(Box::new(alloc, fresh(alloc, Vec::new(alloc))?)?);
            let (outcome, replies, _) = played(alloc, volume, input, piece)?;
            assert_eq!(rt; code_of(&outcome.status), 0, "input {i} by {piece}");
            assert!(rt; replies.as_slice() == *want, "input {i} by {piece}");
        }
    }
    Ok(())
}

#[test]
fn a_long_line_is_one_line(rt: HostRuntime) -> Result<(), Fail> {
    let alloc = rt.alloc();
    let blanks = [b' '; 1_000];
    let mut input = joined(alloc, &[TABLE, b"@1 INSERT INTO t VALUES (1, 'x')"])?;
    for _ in 0..70 {
        input.extend_from_slice(&blanks)?;
    }
    input.extend_from_slice(b"\nsettle\nno\n")?;
    input.extend_from_slice(ONE)?;
    let volume = Volume::new(Box::new(alloc, fresh(alloc, Vec::new(alloc))?)?);
    let (outcome, replies, _) = played(alloc, volume, &input, 4_096)?;
    assert_eq!(rt; code_of(&outcome.status), 0);
    let long = b"1 error 9007 statement too long\n".as_slice();
    let want = joined(
        alloc,
        &[b"1 ok 0 #1\n1 ok 0 #2\n", long, b"? 7\n1 ok 1 #3\n"],
    )?;
    assert!(rt; replies.as_slice() == want.as_slice());
    Ok(())
}

#[test]
fn statements_of_each_kind_are_answered(rt: HostRuntime) -> Result<(), Fail> {
    let alloc = rt.alloc();
    let cases: [(&[u8], &[u8]); 16] = [
        (TABLE, b"1 ok 0 #1\n1 ok 0 #2\n"),
        (
            b"@1 CREATE TABLE u (a VARCHAR(3)) ENGINE = JOURNAL\n",
            b"1 ok 0 #3\n",
        ),
        (
            b"@1 insert into t values (2, 'y'), (1, null);\n",
            b"1 ok 2 #4\n",
        ),
        (
            b"@1 SELECT * FROM t\n",
            b"1 rows 2\n1 | 1, NULL\n1 | 2, 'y'\n",
        ),
        (b"@1 SELECT v FROM t WHERE k = 2\n", b"1 rows 1\n1 | 'y'\n"),
        (b"@1 SELECT * FROM t WHERE v = 'z'\n", b"1 rows 0\n"),
        (
            b"@1 INSERT INTO t VALUES (3, 'x'), (2, 'x')\n",
            b"1 error 1062 duplicate entry\n",
        ),
        (b"@1 SELECT k FROM t WHERE k > 1\n", b"1 rows 1\n1 | 2\n"),
        (
            b"@1 INSERT INTO u VALUES ('four')\n",
            b"1 error 1406 data too long\n",
        ),
        (b"@1 UPDATE t SET v = 'z'\n", b"1 error 9099 not built\n"),
        (b"@1 DROP TABLE u\n", b"1 ok 0 #5\n"),
        (b"@1 SELECT * FROM u\n", b"1 error 1146 no such table\n"),
        (b"@1 hello\n", b"1 error 1064 syntax at 0\n"),
        (
            b"@1 INSTALL PLUGIN csv SONAME 'ha_csv.so'\n",
            b"1 error 9001 plugin is installed\n",
        ),
        (
            b"@1 INSTALL PLUGIN pages SONAME 'ha_pages.so'\n",
            b"1 error 9003 no such library\n",
        ),
        (b"@1 INSERT INTO t VALUES (3, 'it''s')\n", b"1 ok 1 #6\n"),
    ];
    let mut volume = Volume::new(Box::new(alloc, fresh(alloc, Vec::new(alloc))?)?);
    for (i, (line, want)) in cases.iter().enumerate() {
        let (_, replies, left) = played(alloc, volume, line, 4_096)?;
        assert!(rt; replies.as_slice() == *want, "case {i}");
        volume = left;
    }
    Ok(())
}

#[test]
fn a_log_has_its_limit(rt: HostRuntime) -> Result<(), Fail> {
    let alloc = rt.alloc();
    let volume = Volume::new(Box::new(alloc, fresh(alloc, Vec::new(alloc))?)?);
    let two = b"@1 INSERT INTO t VALUES (2, 'x')\n".as_slice();
    let input = joined(alloc, &[TABLE, ONE, two, two])?;
    let source = MemorySource::new(input, 4_096, Vec::new(alloc));
    let sink = MemorySink::new(alloc, Vec::new(alloc));
    let (outcome, replies, volume) = run_between(alloc, "play", volume, source, sink, 344)?;
    assert_eq!(rt; (code_of(&outcome.status), outcome.acks.len()), (0, 3));
    let spent = b"1 error 9009 log spent\n".as_slice();
    let want = joined(alloc, &[b"1 ok 0 #1\n1 ok 0 #2\n1 ok 1 #3\n", spent, spent])?;
    assert!(rt; replies.as_slice() == want.as_slice());
    let (_, replies, _) = played(alloc, volume, two, 4_096)?;
    assert!(rt;
        replies.as_slice() == b"1 ok 1 #4\n".as_slice(),
        "what was refused was rolled back"
    );
    Ok(())
}

#[test]
fn what_is_no_volume_is_left_alone(rt: HostRuntime) -> Result<(), Fail> {
    let alloc = rt.alloc();
    let foreign = [b'A'; 40];
    for file in [0, 16] {
        let storage = with_files(alloc, &[(file, foreign.as_slice())])?;
        let volume = Volume::new(Box::new(alloc, storage)?);
        let (outcome, replies, mut volume) = played(alloc, volume, TABLE, 4_096)?;
        assert!(rt; matches!(outcome.status, Status::NotAVolume { file: f } if f == file));
        assert_eq!(rt; (replies.len(), outcome.acks.len()), (0, 0));
        let left = bytes_of(alloc, &mut volume, file)?;
        assert!(rt; left.as_slice() == foreign.as_slice());
    }
    Ok(())
}

#[test]
fn an_engine_ahead_of_the_log_is_named(rt: HostRuntime) -> Result<(), Fail> {
    let alloc = rt.alloc();
    let volume = Volume::new(Box::new(alloc, fresh(alloc, Vec::new(alloc))?)?);
    let input = joined(alloc, &[TABLE, ONE])?;
    let (_, _, mut volume) = played(alloc, volume, &input, 4_096)?;
    let log = bytes_of(alloc, &mut volume, 0)?;
    let journal = bytes_of(alloc, &mut volume, 16)?;
    let header = &log.as_slice()[..log.len().min(32)];
    let storage = with_files(alloc, &[(0, header), (16, journal.as_slice())])?;
    let volume = Volume::new(Box::new(alloc, storage)?);
    let (outcome, replies, _) = played(alloc, volume, ONE, 4_096)?;
    match &outcome.status {
        Status::Ahead {
            engine,
            engine_last,
            log_last,
        } => {
            assert!(rt; engine.as_bytes() == b"JOURNAL".as_slice());
            assert_eq!(rt; (*engine_last, *log_last), (3, 0));
        }
        _ => assert!(rt; false, "another status"),
    }
    assert_eq!(rt; replies.len(), 0);
    Ok(())
}

#[test]
fn other_words_do_nothing(rt: HostRuntime) -> Result<(), Fail> {
    let alloc = rt.alloc();
    for word in ["", "pla", "plays", "Play"] {
        let volume = Volume::new(Box::new(alloc, fresh(alloc, Vec::new(alloc))?)?);
        let source = MemorySource::new(TABLE.to_vec(alloc)?, 4_096, Vec::new(alloc));
        let sink = MemorySink::new(alloc, Vec::new(alloc));
        let (outcome, replies, volume) = run_between(alloc, word, volume, source, sink, LOG_LIMIT)?;
        assert!(rt;
            matches!(outcome.status, Status::Usage { place: 0 }),
            "{word}"
        );
        assert_eq!(rt; (volume.calls(), replies.len()), (0, 0), "{word}");
    }
    Ok(())
}

#[test]
fn a_failing_end_is_told(rt: HostRuntime) -> Result<(), Fail> {
    let alloc = rt.alloc();
    let input = joined(alloc, &[TABLE, ONE])?;
    let cases = [(3, 9, 6, 1), (9, 2, 7, 2), (9, 9, 0, 3)];
    for (read, write, code, acks) in cases {
        let volume = Volume::new(Box::new(alloc, fresh(alloc, Vec::new(alloc))?)?);
        let source = MemorySource::new(input.to_vec(alloc)?, 40, [read].to_vec(alloc)?);
        let sink = MemorySink::new(alloc, [write].to_vec(alloc)?);
        let (outcome, replies, _) = run_between(alloc, "play", volume, source, sink, LOG_LIMIT)?;
        assert_eq!(rt; code_of(&outcome.status), code);
        assert_eq!(rt; outcome.acks.len(), acks, "{code}");
        assert!(rt; replies.as_slice().starts_with(b"1 ok 0 #1\n"), "{code}");
    }
    Ok(())
}

#[test]
fn a_volume_that_tells_nothing_gives_the_same_replies(rt: HostRuntime) -> Result<(), Fail> {
    let alloc = rt.alloc();
    let veiled = Veiled::new(fresh(alloc, Vec::new(alloc))?);
    let volume = Volume::new(Box::new(alloc, veiled)?);
    let input = joined(alloc, &[TABLE, ONE])?;
    let (outcome, replies, _) = played(alloc, volume, &input, 4_096)?;
    assert_eq!(rt; code_of(&outcome.status), 0);
    assert!(rt; replies.as_slice() == b"1 ok 0 #1\n1 ok 0 #2\n1 ok 1 #3\n".as_slice());
    Ok(())
}
