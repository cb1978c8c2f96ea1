//! Rows worked by hand, and calls at random against a plain program.
use crate::plain::{Answer, Asked, Plain};
use crate::{Lock, LockName, LockTable, Mode, Want};
use sql_value::{Name, Value};
use std::alloc::{AllocError, Global};
use std::process::Abort;
use std::test::Fail;

fn is_send<T: Send>(_: &T) {}

fn name(rt: &impl Abort, alloc: Global, bytes: &[u8]) -> Result<Name, AllocError> {
    match Name::new(bytes.to_vec(alloc)?) {
        Ok(name) => Ok(name),
        Err(_) => rt.abort(),
    }
}

// Name 0 is the list of plugins, name 1 the table t, and any other one a key in it.
fn lock(rt: &impl Abort, alloc: Global, number: u8, mode: Mode) -> Result<Lock, AllocError> {
    let name = match number {
        0 => LockName::Plugins,
        1 => LockName::Table(name(rt, alloc, b"t")?),
        key => LockName::Key(name(rt, alloc, b"t")?, Value::Int(key as i64)),
    };
    Ok(Lock { name, mode })
}

// What a row of a table of calls asks, and what must be answered.
#[derive(Drop)]
enum Row {
    Granted(u32, u8, Mode),
    Waits(u32, u8, Mode, u32),
    Deadlock(u32, u8, Mode, &'static [u32]),
    // An owner leaves, and so many waits are granted.
    Leaves(u32, u32),
    // An owner waits for this one.
    IsFor(u32, u32),
}

fn wish(
    rt: &impl Abort,
    alloc: Global,
    table: &mut LockTable,
    owner: u32,
    number: u8,
    mode: Mode,
) -> Result<Want, AllocError> {
    let lock = lock(rt, alloc, number, mode)?;
    match table.waits(owner) {
        None => table.want(owner, &lock),
        Some(_) => rt.abort(),
    }
}

fn play(
    rt: &impl Abort,
    alloc: Global,
    table: &mut LockTable,
    row: &Row,
) -> Result<bool, AllocError> {
    match *row {
        Row::Granted(owner, number, mode) => {
            let answer = wish(rt, alloc, table, owner, number, mode)?;
            Ok(matches!(answer, Want::Granted))
        }
        Row::Waits(owner, number, mode, first) => {
            match wish(rt, alloc, table, owner, number, mode)? {
                Want::Waits { holder } => Ok(holder == first && table.waits(owner) == Some(first)),
                _ => Ok(false),
            }
        }
        Row::Deadlock(owner, number, mode, owners) => {
            match wish(rt, alloc, table, owner, number, mode)? {
                Want::Deadlock { cycle } => Ok(
                    cycle.owners() == owners && table.waits(owner).is_none(),
                ),
                _ => Ok(false),
            }
        }
        Row::Leaves(owner, count) => Ok(table.release_all(owner) == count),
        Row::IsFor(owner, other) => Ok(table.waits(owner) == Some(other)),
    }
}

fn play_all(rt: &impl Abort, alloc: Global, rows: &[Row]) -> Result<(), AllocError> {
    let mut table = LockTable::new(alloc);
    is_send(&table);
    for (i, row) in rows.iter().enumerate() {
        assert!(rt; play(rt, alloc, &mut table, row)?, "row {i}");
    }
    Ok(())
}

#[test]
fn cycles_are_refused_with_the_least_one(rt: HostRuntime) -> Result<(), Fail> {
    // Two owners share a key, the third has another one: what each waits for counts, not the first alone.
    let both = [
        Row::Granted(1, 2, Mode::S),
        Row::Granted(2, 2, Mode::S),
        Row::Granted(3, 3, Mode::X),
        Row::Waits(3, 2, Mode::X, 1),
        Row::Deadlock(2, 3, Mode::X, &[2, 3]),
        Row::IsFor(3, 1),
        Row::Leaves(1, 0),
        Row::IsFor(3, 2),
        Row::Leaves(2, 1),
    ];
    play_all(&rt, rt.alloc(), &both)?;
    let ring = [
        Row::Granted(1, 2, Mode::X),
        Row::Granted(2, 3, Mode::X),
        Row::Granted(3, 4, Mode::X),
        Row::Granted(4, 5, Mode::X),
        Row::Waits(1, 3, Mode::X, 2),
        Row::Waits(2, 4, Mode::X, 3),
        Row::Waits(3, 5, Mode::X, 4),
        Row::Deadlock(4, 2, Mode::X, &[4, 1, 2, 3]),
        Row::Leaves(4, 1),
    ];
    play_all(&rt, rt.alloc(), &ring)?;
    // Two ways back: by 2 and 4, or by 3; the lesser owner goes first, though its way is longer.
    let two = [
        Row::Granted(1, 2, Mode::X),
        Row::Granted(2, 3, Mode::S),
        Row::Granted(3, 3, Mode::S),
        Row::Granted(4, 4, Mode::X),
        Row::Waits(2, 4, Mode::X, 4),
        Row::Waits(3, 2, Mode::X, 1),
        Row::Waits(4, 2, Mode::X, 1),
        Row::Deadlock(1, 3, Mode::X, &[1, 2, 4]),
    ];
    play_all(&rt, rt.alloc(), &two)?;
    Ok(())
}

#[test]
fn waits_are_granted_in_order(rt: HostRuntime) -> Result<(), Fail> {
    let rows = [
        Row::Granted(1, 1, Mode::X),
        // What X covers is granted, and changes nothing.
        Row::Granted(1, 1, Mode::IX),
        Row::Waits(2, 1, Mode::S, 1),
        Row::Waits(3, 1, Mode::S, 1),
        Row::Waits(4, 1, Mode::X, 1),
        // This one would go with those that are shared, but waits behind X.
        Row::Waits(5, 1, Mode::IS, 1),
        Row::Leaves(1, 2),
        Row::IsFor(4, 2),
        Row::IsFor(5, 4),
        Row::Granted(2, 1, Mode::IS),
        Row::Leaves(2, 0),
        Row::IsFor(4, 3),
        Row::Leaves(4, 1),
        // Intentions go together, and with no lock on another name.
        Row::Granted(6, 0, Mode::IX),
        Row::Granted(7, 0, Mode::IX),
        Row::Granted(6, 0, Mode::IX),
        Row::Granted(8, 2, Mode::X),
        Row::Waits(8, 0, Mode::S, 6),
        Row::Leaves(6, 0),
        Row::IsFor(8, 7),
        Row::Leaves(7, 1),
    ];
    play_all(&rt, rt.alloc(), &rows)?;
    Ok(())
}

fn mode_of(number: u8) -> Mode {
    match number {
        0 => Mode::IS,
        1 => Mode::IX,
        2 => Mode::S,
        _ => Mode::X,
    }
}

// One wish in both tables; which kind of answer came.
fn ask(
    rt: &impl Abort,
    alloc: Global,
    table: &mut LockTable,
    plain: &mut Plain,
    it: Asked,
) -> Result<u8, AllocError> {
    let answer = wish(rt, alloc, table, it.owner, it.name, mode_of(it.mode))?;
    match (answer, plain.want(it)?) {
        (Want::Granted, Answer::Granted) => Ok(0),
        (Want::Waits { holder }, Answer::Waits(owner)) => {
            assert_eq!(rt; holder, owner);
            Ok(1)
        }
        (Want::Deadlock { cycle }, Answer::Deadlock(order)) => {
            assert!(rt; cycle.owners() == order.as_slice());
            Ok(2)
        }
        _ => rt.abort(),
    }
}

// Both tables tell the same of each owner.
fn compare(
    rt: &impl Abort,
    alloc: Global,
    table: &LockTable,
    plain: &Plain,
) -> Result<(), AllocError> {
    for code in 0..48u32 {
        let owner = code % 4 + 1;
        let name = (code / 4 % 3) as u8;
        let mode = (code / 12 % 4) as u8;
        let it = Asked { owner, name, mode };
        let lock = lock(rt, alloc, name, mode_of(mode))?;
        assert!(rt; table.waits(owner) == plain.waits(owner));
        assert!(rt; table.holds(owner, &lock) == plain.holds(it));
    }
    Ok(())
}

// One call, by the digits of a number; 3 is a release.
fn call(
    rt: &impl Abort,
    alloc: Global,
    table: &mut LockTable,
    plain: &mut Plain,
    code: u32,
) -> Result<u8, AllocError> {
    let owner = code % 4 + 1;
    let name = (code / 4 % 3) as u8;
    let mode = (code / 12 % 4) as u8;
    if plain.waits(owner).is_some() || code / 48 % 8 == 0 {
        assert!(rt; table.release_all(owner) == plain.release_all(owner)?);
        return Ok(3);
    }
    ask(rt, alloc, table, plain, Asked { owner, name, mode })
}

#[test]
fn answers_are_those_of_a_plain_program(rt: HostRuntime) -> Result<(), Fail> {
    let alloc = rt.alloc();
    let mut table = LockTable::new(alloc);
    let mut plain = Plain::new(alloc);
    let mut seed = 1u32;
    let mut kinds = [0u32; 4];
    for k in 1..=300u32 {
        seed = seed.wrapping_mul(1_103_515_245).wrapping_add(12_345);
        let kind = call(&rt, alloc, &mut table, &mut plain, seed >> 8)?;
        kinds[(kind % 4) as usize] = k;
        compare(&rt, alloc, &table, &plain)?;
    }
    // Each kind of answer came, and late too.
    for last in kinds {
        assert!(rt; last > 200);
    }
    Ok(())
}
