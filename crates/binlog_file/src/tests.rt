//! Values from outside: a log's first bytes, cut and strange files, crash images, failing calls, a log of many pieces, and
//! transactions longer than a piece.
ghost use Rattle.std.specs.Prelude.{◌≡◌, ◌≤◌, ◌<◌, ◌^◌, length, IfOk, OnOk};
ghost use Rattle.disk_model.specs.Disk.{Disk};
ghost use Rattle.sql_value.specs.Names.{IsName};
ghost use Rattle.row_format.specs.Changes.{IsMap};
ghost use Rattle.binlog_events.specs.Transaction.{IsFit};
ghost use Rattle.binlog_file.specs.Binlog.{IsOpen};

use crate::scan::{HEADER, HEADER_CRC};
use crate::{Binlog, BinlogFault, Visit, logged_in};
use binlog_events::{put_transaction, transaction_len};
use disk_model::{Choice, Failed, FileBytes, MemoryStorage, Storage};
use frame_codec::put_frame;
use row_format::{
    Change, Changes, Column, Kind, Name, Row, Schema, TableMap, Text, Transaction, Value, check_row,
};
use sql_value::value_order;
use std::alloc::{AllocError, Global};
use std::cmp::Ordering;
use std::test::Fail;

const LIMIT: u32 = 2_147_483_647;

// A visitor that keeps all that it is given.
#[derive(Drop)]
struct Kept {
    list: Vec<Transaction>,
}

impl Visit for Kept {
    ghost use Rattle.std.specs.Prelude.{◌≡◌};

    ghost stands = { λ kept list. kept.list.items ≡ list };

    fn take(&mut self, txn: Transaction) -> Result<(), AllocError> {
        self.list.push(txn)?;
        Ok(())
    }
}

// A name of one letter.
fn name(alloc: Global, letter: u8) -> Result<Name, Fail>
    ensures { IfOk result IsName }
{
    match Name::new([letter].to_vec(alloc)?) {
        Ok(name) => Ok(name),
        Err(_) => Err(Fail::from("no name")),
    }
}

// The table map of t (k BIGINT PRIMARY KEY, v VARCHAR(10)).
fn table(alloc: Global) -> Result<TableMap, Fail>
    ensures { IfOk result IsMap }
{
    let mut columns = Vec::new(alloc);
    columns.push(Column {
        name: name(alloc, b'k')?,
        kind: Kind::BigInt,
        nullable: false,
    })?;
    columns.push(Column {
        name: name(alloc, b'v')?,
        kind: Kind::VarChar(10),
        nullable: true,
    })?;
    let table = name(alloc, b't')?;
    match Schema::new(columns, Some(0)) {
        Ok(schema) => Ok(TableMap { table, schema }),
        Err(_) => Err(Fail::from("no schema")),
    }
}

// An insert into t.
fn insert(alloc: Global, xid: u64, key: i64, text: &[u8]) -> Result<Transaction, Fail>
    ensures fit { IfOk result IsFit }
    ensures one { IfOk result (λ t. length t.changes ≡ 1) }
{
    let map = table(alloc)?;
    let mut values = Vec::new(alloc);
    values.push(Value::Int(key))?;
    values.push(Value::Text(Text::new(text.to_vec(alloc)?)))?;
    let row = Row::new(values);
    if check_row(&map.schema, &row).is_err() {
        return Err(Fail::from("no row"));
    }
    let mut changes = Vec::new(alloc);
    changes.push(Change::Insert { map, row })?;
    Ok(Transaction {
        xid,
        changes: Changes::new(changes),
    })
}

fn opened(
    alloc: Global,
    volume: &mut dyn Storage,
) -> Result<(Binlog, u64, Vec<Transaction>), BinlogFault>
    ensures { IfOk result (λ o. IsOpen o.0 (disk volume.new)) }
{
    let mut kept = Kept {
        list: Vec::new(alloc),
    };
    let opened = Binlog::open(alloc, volume, &mut kept)?;
    Ok((opened.log, opened.cut, kept.list))
}

// Appends one transaction.
fn put(
    alloc: Global,
    volume: &mut dyn Storage,
    log: &mut Binlog,
    txn: &Transaction,
) -> Result<(), BinlogFault>
    requires open { IsOpen log.old (disk volume.old) }
    requires fit { IsFit txn.now }
    requires few { length txn.now.changes < 2 ^ 31 }
    ensures { OnOk result (IsOpen log.new (disk volume.new)) }
{
    if u64::from(log.room(LIMIT)) < transaction_len(&txn.changes) {
        return Err(BinlogFault::Memory);
    }
    let mut bytes = Vec::new(alloc);
    put_transaction(txn, log.len(), log.last_crc(), &mut bytes)?;
    log.append(volume, bytes.as_slice(), 1)?;
    Ok(())
}

// Opens, appends two transactions, and syncs: eight device calls on an empty volume.
fn append_two(
    alloc: Global,
    volume: &mut dyn Storage,
    first: &Transaction,
    second: &Transaction,
) -> Result<(), BinlogFault>
    requires fit { IsFit first.now × IsFit second.now }
    requires few { (length first.now.changes < 2 ^ 31) × (length second.now.changes < 2 ^ 31) }
{
    let (mut log, _, _) = opened(alloc, volume)?;
    put(alloc, volume, &mut log, first)?;
    put(alloc, volume, &mut log, second)?;
    log.sync(volume)?;
    Ok(())
}

// The same with the inserts of (1, 'x') and (2, 'x') as 1 and 2; whether the log is refused.
fn run(alloc: Global, volume: &mut dyn Storage) -> Result<Result<(), BinlogFault>, Fail> {
    let first = insert(alloc, 1, 1, b"x")?;
    let second = insert(alloc, 2, 2, b"x")?;
    Ok(append_two(alloc, volume, &first, &second))
}

fn bytes_of(alloc: Global, volume: &mut dyn Storage) -> Result<Vec<u8>, Fail> {
    let len = volume.len(0)?;
    let mut bytes = vec![in alloc; 0u8; len as usize]?;
    volume.read(0, 0, bytes.as_mut_slice())?;
    Ok(bytes)
}

fn storage_of(alloc: Global, bytes: &[u8]) -> Result<MemoryStorage, AllocError> {
    let bytes = bytes.to_vec(alloc)?;
    let files = vec![in alloc; FileBytes { file: 0, bytes }]?;
    MemoryStorage::new(alloc, files, Vec::new(alloc))
}

fn is_same_change(one: &Change, other: &Change) -> bool {
    match (one, other) {
        (
            Change::Insert { map, row },
            Change::Insert {
                map: other_map,
                row: other_row,
            },
        ) => {
            map.is_same(other_map)
                && row.values().len() == other_row.values().len()
                && row
                    .values()
                    .iter()
                    .zip(other_row.values())
                    .all(|(a, b)| value_order(a, b) == Ordering::Equal)
        }
        _ => false,
    }
}

fn is_same(one: &Transaction, other: &Transaction) -> bool {
    let some = one.changes.as_slice();
    let others = other.changes.as_slice();
    one.xid == other.xid
        && some.len() == others.len()
        && some.iter().zip(others).all(|(a, b)| is_same_change(a, b))
}

fn are_same(some: &[Transaction], others: &[Transaction]) -> bool {
    some.len() == others.len() && some.iter().zip(others).all(|(a, b)| is_same(a, b))
}

// What an opening of these bytes gives: how many transactions, what was cut, and the file then; None where it is no log. It fails
// where the plain reading gives something else.
fn read_both(alloc: Global, bytes: &[u8]) -> Result<Option<(usize, u64, Vec<u8>)>, Fail> {
    let plain = logged_in(alloc, bytes)?;
    let mut storage = storage_of(alloc, bytes)?;
    let read = opened(alloc, &mut storage);
    let left = bytes_of(alloc, &mut storage)?;
    match (read, plain) {
        (Ok((_, cut, list)), Some(other)) => {
            if !are_same(&list, &other) {
                return Err(Fail::from(Failed));
            }
            Ok(Some((list.len(), cut, left)))
        }
        (Err(BinlogFault::NotAVolume { file: 0 }), None) => {
            if left.as_slice() != bytes {
                return Err(Fail::from(Failed));
            }
            Ok(None)
        }
        _ => Err(Fail::from(Failed)),
    }
}

// The file with two inserts.
fn two_inserts(alloc: Global) -> Result<Vec<u8>, Fail> {
    let mut storage = MemoryStorage::new(alloc, Vec::new(alloc), Vec::new(alloc))?;
    run(alloc, &mut storage)??;
    bytes_of(alloc, &mut storage)
}

#[test]
fn files_have_these_bytes(rt: HostRuntime) -> Result<(), Fail> {
    let alloc = rt.alloc();
    let mut empty = MemoryStorage::new(alloc, Vec::new(alloc), Vec::new(alloc))?;
    let (_, cut, list) = opened(alloc, &mut empty)?;
    assert_eq!(rt; (cut, list.len()), (0, 0));
    let header = [
        0x50, 0x4c, 0x55, 0x47, 0x44, 0x4c, 0x4f, 0x47, 1, 0, 0, 0, 1, 0, 0, 0, 0, 0, 0, 0, 0, 0,
        0, 0, 0, 0, 0, 0, 0x76, 0x59, 0x64, 0x2b,
    ];
    let fresh = bytes_of(alloc, &mut empty)?;
    assert_eq!(rt; fresh.as_slice(), header.as_slice());
    let bytes = two_inserts(alloc)?;
    assert!(rt; bytes.len() == 282);
    let begin = [
        0, 0, 0, 0, 2, 1, 0, 0, 0, 0x18, 0, 0, 0, 0x38, 0, 0, 0, 0, 0, 1,
    ];
    assert!(rt; &bytes[32..52] == begin.as_slice());
    let row = [0, 1, 0, 0, 0, 0, 0, 0, 0, 1, 0x78];
    assert!(rt; &bytes[111..122] == row.as_slice());
    let both = read_both(alloc, bytes.as_slice())?;
    assert!(rt; matches!(&both, Some((2, 0, left)) if left.len() == 282));
    Ok(())
}

#[test]
fn what_stands_behind_the_last_transaction_is_cut(rt: HostRuntime) -> Result<(), Fail> {
    let alloc = rt.alloc();
    let bytes = two_inserts(alloc)?;
    let Some((_, most)) = bytes.as_slice().split_last() else {
        return Err(Fail::from(Failed));
    };
    let first = read_both(alloc, most)?;
    assert!(rt; matches!(&first, Some((1, 124, left)) if left.len() == 157));
    for len in 0..32 {
        let short = read_both(alloc, &HEADER[..len])?;
        assert!(rt;
            matches!(&short, Some((0, cut, left)) if *cut == len as u64 && left.len() == 32),
            "{len} bytes of the header"
        );
    }
    let few = read_both(alloc, &[b'A'; 20])?;
    assert!(rt; matches!(&few, Some((0, 20, left)) if left.as_slice() == HEADER.as_slice()));
    assert!(rt; read_both(alloc, &[b'A'; 40])?.is_none());
    let chained = log_of(alloc, &[1], 0)?;
    let other = read_both(alloc, chained.as_slice())?;
    assert!(rt; matches!(&other, Some((0, 134, left)) if left.len() == 32));
    Ok(())
}

// What an opening of a crash image gives.
fn image_of(
    alloc: Global,
    storage: &MemoryStorage,
    moment: u64,
    choice: Choice,
) -> Result<Option<(usize, u64, Vec<u8>)>, Fail> {
    if moment > storage.calls() {
        return Err(Fail::from(Failed));
    }
    let mut image = storage.image(alloc, moment, choice)?;
    let bytes = bytes_of(alloc, &mut image)?;
    read_both(alloc, bytes.as_slice())
}

#[test]
fn crash_images_have_a_first_part(rt: HostRuntime) -> Result<(), Fail> {
    let alloc = rt.alloc();
    let mut storage = MemoryStorage::new(alloc, Vec::new(alloc), Vec::new(alloc))?;
    run(alloc, &mut storage)??;
    assert_eq!(rt; storage.calls(), 8);
    let whole = [0, 0, 0, 0, 0, 0, 1, 2, 2];
    let synced = [0, 0, 0, 0, 0, 0, 0, 0, 2];
    for (moment, counts) in whole.iter().zip(synced.iter()).enumerate() {
        let moment = moment as u64;
        let all = image_of(alloc, &storage, moment, Choice::Whole)?;
        assert!(rt;
            matches!(&all, Some((n, _, _)) if n == counts.0),
            "whole at {moment}"
        );
        let least = image_of(alloc, &storage, moment, Choice::Synced)?;
        assert!(rt;
            matches!(&least, Some((n, _, _)) if n == counts.1),
            "synced at {moment}"
        );
        for n in 0..41 {
            let part = image_of(alloc, &storage, moment, Choice::FirstBytes(n))?;
            assert!(rt;
                matches!(&part, Some((n, _, _)) if n == counts.1),
                "{n} bytes at {moment}"
            );
        }
    }
    Ok(())
}

#[test]
fn a_failing_call_is_told(rt: HostRuntime) -> Result<(), Fail> {
    let alloc = rt.alloc();
    for k in 1..10 {
        let failing = [k].to_vec(alloc)?;
        let mut storage = MemoryStorage::new(alloc, Vec::new(alloc), failing)?;
        let ended = run(alloc, &mut storage)?;
        if k < 9 {
            assert_eq!(rt; ended, Err(BinlogFault::Device), "call {k}");
            assert_eq!(rt; storage.faults(), 1, "call {k}");
        } else {
            assert_eq!(rt; ended, Ok(()));
            assert_eq!(rt; storage.faults(), 0);
        }
    }
    Ok(())
}

// Appends the frame of an event at the end of a log, behind this checksum.
fn put_event(kind: u8, body: &[u8], prev: u32, log: &mut Vec<u8>) -> Result<u32, Fail> {
    let at = log.len();
    if at > 1_000_000_000 || body.len() > 1_000 {
        return Err(Fail::from("too long"));
    }
    Ok(put_frame(prev, at as u32, kind, body, log)?)
}

// Appends the events of so many inserts into t, without the one that ends a transaction.
fn put_rows(count: u32, prev: u32, log: &mut Vec<u8>) -> Result<u32, Fail> {
    let map = [1, b't', 2, 0, 1, b'k', 8, 0, 1, b'v', 15, 10, 1];
    let row = [
        0, 7, 0, 0, 0, 0, 0, 0, 0, 10, 48, 49, 50, 51, 52, 53, 54, 55, 56, 57,
    ];
    let mut sum = put_event(2, &[1], prev, log)?;
    sum = put_event(19, &map, sum, log)?;
    for _ in 0..count {
        sum = put_event(30, &row, sum, log)?;
    }
    Ok(sum)
}

// A log with a transaction of so many inserts for each of these counts, the first of them chained to this checksum.
fn log_of(alloc: Global, counts: &[u32], prev: u32) -> Result<Vec<u8>, Fail> {
    let mut log = HEADER.to_vec(alloc)?;
    let mut sum = prev;
    for count in counts {
        sum = put_rows(*count, sum, &mut log)?;
        sum = put_event(16, &[9, 0, 0, 0, 0, 0, 0, 0], sum, &mut log)?;
    }
    Ok(log)
}

#[test]
fn a_log_of_many_pieces_is_read_whole(rt: HostRuntime) -> Result<(), Fail> {
    let alloc = rt.alloc();
    let bytes = log_of(alloc, &[1; 1_000], HEADER_CRC)?;
    assert_eq!(rt; bytes.len(), 134_032);
    let all = read_both(alloc, bytes.as_slice())?;
    assert!(rt; matches!(&all, Some((1_000, 0, left)) if left.len() == 134_032));
    Ok(())
}

// The middle one of three transactions has 3,000 rows, and 129,091 bytes.
#[test]
fn a_transaction_longer_than_a_piece_is_read_whole_or_not_at_all(
    rt: HostRuntime,
) -> Result<(), Fail> {
    let alloc = rt.alloc();
    let mut bytes = log_of(alloc, &[1, 3_000, 1], HEADER_CRC)?;
    assert_eq!(rt; bytes.len(), 129_391);
    for (len, count, whole) in [
        (129_391, 3, 129_391),
        (129_390, 2, 129_257),
        (129_257, 2, 129_257),
        (129_256, 1, 166),
        (129_226, 1, 166),
        (70_000, 1, 166),
        (65_568, 1, 166),
        (166, 1, 166),
        (165, 0, 32),
    ] {
        if len <= bytes.len() {
            let read = read_both(alloc, &bytes[..len])?;
            assert!(rt;
                matches!(&read, Some((n, _, left)) if *n == count && left.len() == whole),
                "{len} bytes"
            );
        }
    }
    if let Some(byte) = bytes.get_mut(120_000) {
        *byte ^= 1;
    }
    let spoilt = read_both(alloc, bytes.as_slice())?;
    assert!(rt; matches!(&spoilt, Some((1, 129_225, _))));
    Ok(())
}

#[test]
fn a_long_transaction_is_read_in_a_few_calls(rt: HostRuntime) -> Result<(), Fail> {
    let alloc = rt.alloc();
    let bytes = log_of(alloc, &[1, 3_000, 1], HEADER_CRC)?;
    let mut storage = storage_of(alloc, bytes.as_slice())?;
    let before = storage.calls();
    let (_, _, list) = opened(alloc, &mut storage)?;
    assert!(rt; storage.calls() <= before.saturating_add(10));
    let counts = [1, 3_000, 1];
    assert_eq!(rt; list.len(), 3);
    for (txn, count) in list.iter().zip(counts) {
        assert_eq!(rt; txn.xid, 9);
        assert_eq!(rt; txn.changes.as_slice().len(), count);
    }
    Ok(())
}

#[test]
fn rows_without_an_xid_are_no_transaction(rt: HostRuntime) -> Result<(), Fail> {
    let alloc = rt.alloc();
    for count in [0, 1, 3_000] {
        let mut bytes = HEADER.to_vec(alloc)?;
        let sum = put_rows(count, HEADER_CRC, &mut bytes)?;
        let open = read_both(alloc, bytes.as_slice())?;
        assert!(rt;
            matches!(&open, Some((0, _, left)) if left.len() == 32),
            "{count} rows"
        );
        put_event(2, &[1], sum, &mut bytes)?;
        let begun = read_both(alloc, bytes.as_slice())?;
        assert!(rt;
            matches!(&begun, Some((0, _, left)) if left.len() == 32),
            "{count} rows"
        );
    }
    Ok(())
}
