//! Values from outside: records that were spelt by hand, areas that end early, and areas of many pieces.
ghost use Rattle.row_format.specs.Schemas.{IsSchema};
ghost use Rattle.row_format.specs.Rows.{IsRow};

use crate::Record;
use crate::scan::{Scan, read_area};
use crate::spell::{prepare_body, row_body, short_frame, table_body};
use binlog_events::items_of;
use disk_model::{Failed, FileBytes, MemoryStorage};
use frame_codec::put_frame;
use log_tables::{Definition, Prepared};
use row_format::{Change, Name, Row, Schema, name_of, row_of, schema_of};
use std::alloc::{AllocError, Global};
use std::process::Abort;
use std::test::Fail;

// The checksum of some header.
const HEADER_SUM: u32 = 0x2b64_5976;

// The body of the table t (k BIGINT PRIMARY KEY, v VARCHAR(10)) of JOURNAL.
const TABLE: [u8; 21] = [
    1, b't', 7, b'J', b'O', b'U', b'R', b'N', b'A', b'L', 2, 0, 1, b'k', 8, 0, 1, b'v', 15, 10, 1,
];

// The body of the row (1, 'x') of t.
const ROW: [u8; 13] = [1, b't', 0, 1, 0, 0, 0, 0, 0, 0, 0, 1, b'x'];

// The body of the same row of u.
const OTHER_ROW: [u8; 13] = [1, b'u', 0, 1, 0, 0, 0, 0, 0, 0, 0, 1, b'x'];

// The body of a SnapLast with the number 7.
const LAST: [u8; 8] = [7, 0, 0, 0, 0, 0, 0, 0];

// The body of a Prepare of the transaction 9, without changes.
const PREPARE: [u8; 12] = [9, 0, 0, 0, 0, 0, 0, 0, 0, 0, 0, 0];

// The body of a Prepare of the transaction 9 with an UPDATE of that row to (2, NULL), a DELETE of it then, and DROP TABLE t.
const CHANGES: [u8; 69] = [
    9, 0, 0, 0, 0, 0, 0, 0, 4, 0, 0, 0, 19, 1, b't', 2, 0, 1, b'k', 8, 0, 1, b'v', 15, 10, 1, 31,
    0, 0, 0, 0, 0, 1, 0, 0, 0, 0, 0, 0, 0, 1, b'x', 2, 2, 0, 0, 0, 0, 0, 0, 0, 32, 0, 0, 0, 0, 2,
    2, 0, 0, 0, 0, 0, 0, 0, 2, 3, 1, b't',
];

// The body of a Commit of the transaction 9 as number 8.
const COMMIT: [u8; 16] = [9, 0, 0, 0, 0, 0, 0, 0, 8, 0, 0, 0, 0, 0, 0, 0];

// The body of a Rollback of the transaction 9.
const ROLLBACK: [u8; 8] = [9, 0, 0, 0, 0, 0, 0, 0];

// The body of a Rollback, and one byte more.
const ROLLBACK_MORE: [u8; 9] = [9, 0, 0, 0, 0, 0, 0, 0, 0];

// The event that a letter stands for: a table, a row, a last number, a Prepare, one that changes the row and Drops t, a Commit, a rollBack; a
// row of an unknown table, a Rollback with a byte too many, and an event of another type.
fn event_of(letter: u8) -> (u8, &'static [u8]) {
    match letter {
        b't' => (128, &TABLE),
        b'r' => (129, &ROW),
        b'l' => (130, &LAST),
        b'p' => (131, &PREPARE),
        b'd' => (131, &CHANGES),
        b'c' => (132, &COMMIT),
        b'b' => (133, &ROLLBACK),
        b'u' => (129, &OTHER_ROW),
        b'm' => (133, &ROLLBACK_MORE),
        _ => (134, &ROLLBACK),
    }
}

// The letter of a Prepare with these changes.
fn letter_of_changes(changes: &[Change]) -> u8 {
    match changes {
        [] => b'p',
        [
            Change::Update { place: 0, .. },
            Change::Delete { place: 0, .. },
            Change::Drop { .. },
        ] => b'd',
        _ => b'?',
    }
}

// The letter of a record.
fn letter_of(record: &Record) -> u8 {
    match record {
        Record::SnapTable(it) if it.table.as_bytes() == b"t".as_slice() => b't',
        Record::SnapRow { table, .. } if table.as_bytes() == b"t".as_slice() => b'r',
        Record::SnapLast { number: 7 } => b'l',
        Record::Prepare(it) if it.xid == 9 => letter_of_changes(it.changes.as_slice()),
        Record::Commit { xid: 9, number: 8 } => b'c',
        Record::Rollback { xid: 9 } => b'b',
        _ => b'?',
    }
}

// Adds one frame to an area.
fn add(
    rt: &impl Abort,
    kind: u8,
    body: &[u8],
    sum: u32,
    area: &mut Vec<u8>,
) -> Result<u32, AllocError> {
    assert!(rt; area.len() < 1_000_000);
    assert!(rt; body.len() < 1_000_000);
    put_frame(sum, area.len() as u32, kind, body, area)
}

// An area with these events behind a header of zeros, and the checksum of the last frame.
fn area_of(rt: &impl Abort, alloc: Global, letters: &[u8]) -> Result<(Vec<u8>, u32), AllocError> {
    let mut area = vec![in alloc; 0u8; 32]?;
    let mut sum = HEADER_SUM;
    for letter in letters {
        let (kind, body) = event_of(*letter);
        sum = add(rt, kind, body, sum, &mut area)?;
    }
    Ok((area, sum))
}

// What a reading of these bytes gives.
fn read(alloc: Global, bytes: &[u8], sum: u32) -> Result<Scan, Fail> {
    let bytes = bytes.to_vec(alloc)?;
    let files = vec![in alloc; FileBytes { file: 5, bytes }]?;
    let mut storage = MemoryStorage::new(alloc, files, Vec::new(alloc))?;
    Ok(read_area(alloc, &mut storage, 5, sum)?)
}

// The letters of these records.
fn letters_of(alloc: Global, records: &[Record]) -> Result<Vec<u8>, AllocError> {
    let mut letters = Vec::new(alloc);
    for record in records {
        letters.push(letter_of(record))?;
    }
    Ok(letters)
}

#[test]
fn records_are_read_as_far_as_they_fit(rt: HostRuntime) -> Result<(), Fail> {
    let alloc = rt.alloc();
    let cases: [(&[u8], usize); 20] = [
        (b"", 0),
        (b"trlpc", 5),
        (b"trlpb", 5),
        (b"tpbpc", 5),
        (b"b", 0),
        (b"c", 0),
        (b"r", 0),
        (b"tt", 1),
        (b"trr", 2),
        (b"tll", 2),
        (b"pp", 1),
        (b"pbb", 2),
        (b"pcl", 2),
        (b"pc?", 2),
        (b"trdc", 4),
        (b"trdct", 5),
        (b"trpct", 4),
        (b"trdcr", 4),
        (b"tdc", 2),
        (b"dc", 1),
    ];
    for (letters, count) in cases {
        let (area, _) = area_of(&rt, alloc, letters)?;
        let scan = read(alloc, area.as_slice(), HEADER_SUM)?;
        let read = letters_of(alloc, scan.records.as_slice())?;
        assert!(rt; letters.starts_with(read.as_slice()));
        assert_eq!(rt; read.len(), count);
    }
    let (area, _) = area_of(&rt, alloc, b"tu")?;
    assert_eq!(rt; read(alloc, area.as_slice(), HEADER_SUM)?.records.len(), 1);
    let (area, _) = area_of(&rt, alloc, b"pm")?;
    assert_eq!(rt; read(alloc, area.as_slice(), HEADER_SUM)?.records.len(), 1);
    let (area, sum) = area_of(&rt, alloc, b"trlpc")?;
    let scan = read(alloc, area.as_slice(), HEADER_SUM)?;
    assert_eq!(rt; (scan.len as usize, scan.crc), (area.len(), sum));
    assert_eq!(rt;
        read(alloc, area.as_slice(), HEADER_SUM + 1)?.records.len(),
        0
    );
    Ok(())
}

#[test]
fn an_area_that_is_cut_has_a_first_part(rt: HostRuntime) -> Result<(), Fail> {
    let alloc = rt.alloc();
    let (area, _) = area_of(&rt, alloc, b"trlpcpb")?;
    let ends = [76, 112, 143, 178, 217, 252, 283];
    assert_eq!(rt; area.len(), 283);
    for len in 32..area.len() + 1 {
        let scan = read(alloc, &area[..len], HEADER_SUM)?;
        let whole = ends.iter().filter(|end| **end <= len).count();
        assert!(rt; scan.records.len() == whole, "{len} bytes");
        let mut other = area.as_slice().to_vec(alloc)?;
        if len < other.len() {
            other[len] ^= 1;
            let scan = read(alloc, other.as_slice(), HEADER_SUM)?;
            assert!(rt; scan.records.len() == whole, "byte {len} is another");
        }
    }
    Ok(())
}

#[test]
fn areas_of_many_pieces_are_read(rt: HostRuntime) -> Result<(), Fail> {
    let alloc = rt.alloc();
    let mut letters = Vec::new(alloc);
    for _ in 0..2_500 {
        letters.extend_from_slice(b"pb")?;
    }
    let (area, sum) = area_of(&rt, alloc, letters.as_slice())?;
    let scan = read(alloc, area.as_slice(), HEADER_SUM)?;
    assert_eq!(rt;
        (scan.records.len(), scan.len as usize, scan.crc),
        (5_000, area.len(), sum)
    );
    let mut body = Vec::from_slice(
        alloc,
        &[9, 0, 0, 0, 0, 0, 0, 0, 0x71, 0x17, 0, 0, 19, 1, b't'],
    )?;
    body.extend_from_slice(&TABLE[10..])?;
    for _ in 0..6_000 {
        body.push(30)?;
        body.extend_from_slice(&ROW[2..])?;
    }
    let mut long = vec![in alloc; 0u8; 32]?;
    let first = add(&rt, 130, &LAST, HEADER_SUM, &mut long)?;
    let second = add(&rt, 131, body.as_slice(), first, &mut long)?;
    let last = add(&rt, 133, &ROLLBACK, second, &mut long)?;
    let scan = read(alloc, long.as_slice(), HEADER_SUM)?;
    assert_eq!(rt; (scan.records.len(), scan.crc), (3, last));
    assert!(rt; long.len() > 70_000);
    for len in [63, 64, 100, 65_568, 65_600, long.len() - 32] {
        let scan = read(alloc, &long[..len], HEADER_SUM)?;
        assert_eq!(rt; (scan.records.len(), scan.crc), (1, first));
    }
    Ok(())
}

#[tactic(auto, unfolding(frame_codec::specs::Bytes::le64))]
#[test]
fn records_have_these_bytes(rt: HostRuntime) -> Result<(), Fail> {
    let alloc = rt.alloc();
    let commit = Record::Commit { xid: 9, number: 8 };
    let frame = short_frame(&commit, 32, HEADER_SUM);
    let bytes = [
        0, 0, 0, 0, 0x84, 1, 0, 0, 0, 0x27, 0, 0, 0, 0x47, 0, 0, 0, 0, 0, 9, 0, 0, 0, 0, 0, 0, 0,
        8, 0, 0, 0, 0, 0, 0, 0, 0x35, 0x04, 0xbc, 0x04,
    ];
    assert!(rt; matches!(&frame, Some(it) if it.as_slice() == bytes.as_slice()));
    let rollback = Record::Rollback { xid: 9 };
    let frame = short_frame(&rollback, 32, HEADER_SUM);
    let bytes = [
        0, 0, 0, 0, 0x85, 1, 0, 0, 0, 0x1f, 0, 0, 0, 0x3f, 0, 0, 0, 0, 0, 9, 0, 0, 0, 0, 0, 0, 0,
        0x22, 0x14, 0x98, 0x03,
    ];
    assert!(rt; matches!(&frame, Some(it) if it.as_slice() == bytes.as_slice()));
    assert!(rt; short_frame(&Record::SnapLast { number: 7 }, 32, HEADER_SUM).is_none());
    Ok(())
}

// The body of a row that is one of a schema's.
fn body_of_row(
    alloc: Global,
    table: &Name,
    schema: &Schema,
    row: &Row,
) -> Result<Vec<u8>, AllocError>
    requires schema { IsSchema schema.now }
    requires row { IsRow schema.now row.now }
{
    let _columns = schema.columns.as_slice();
    row_body(alloc, table, row)
}

#[test]
fn bodies_are_written_as_they_were_read(rt: HostRuntime) -> Result<(), Fail> {
    let alloc = rt.alloc();
    let Some((schema, 11)) = schema_of(alloc, &TABLE[10..])? else {
        return Err(Fail::from(Failed));
    };
    let Some((table, 2)) = name_of(alloc, TABLE.as_slice())? else {
        return Err(Fail::from(Failed));
    };
    let Some((engine, 8)) = name_of(alloc, &TABLE[2..])? else {
        return Err(Fail::from(Failed));
    };
    let Some((row, 11)) = row_of(alloc, &schema, &ROW[2..])? else {
        return Err(Fail::from(Failed));
    };
    let body = body_of_row(alloc, &table, &schema, &row)?;
    assert_eq!(rt; body.as_slice(), ROW.as_slice());
    let definition = Definition {
        table,
        engine,
        schema,
    };
    let body = table_body(alloc, &definition)?;
    assert_eq!(rt; body.as_slice(), TABLE.as_slice());
    let Some((changes, 4)) = items_of(alloc, &PREPARE[8..])? else {
        return Err(Fail::from(Failed));
    };
    let body = prepare_body(alloc, &Prepared { xid: 9, changes })?;
    assert_eq!(rt; body.as_slice(), PREPARE.as_slice());
    let Some((changes, 61)) = items_of(alloc, &CHANGES[8..])? else {
        return Err(Fail::from(Failed));
    };
    let body = prepare_body(alloc, &Prepared { xid: 9, changes })?;
    assert_eq!(rt; body.as_slice(), CHANGES.as_slice());
    Ok(())
}
