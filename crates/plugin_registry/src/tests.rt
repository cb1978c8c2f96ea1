//! Rows by hand, and pseudo-random calls against a plain program that keeps only what happened.

use crate::{GetFault, Holder, InstallFault, Phase, Registry, UninstallFault};
use sql_value::Name;
use std::alloc::{AllocError, Global};
use std::process::Abort;
use std::test::Fail;

fn is_send<T: Send>(_: &T) {}

fn name(rt: &impl Abort, alloc: Global, bytes: &[u8]) -> Result<Name, AllocError> {
    match Name::new(bytes.to_vec(alloc)?) {
        Ok(name) => Ok(name),
        Err(_) => rt.abort(),
    }
}

#[test]
fn who_had_it_goes_on_and_nobody_else_gets_it(rt: HostRuntime) -> Result<(), Fail> {
    let alloc = rt.alloc();
    let journal = name(&rt, alloc, b"JOURNAL")?;
    let idle = Holder::Idle(name(&rt, alloc, b"t")?);
    let (first, second, third) = (Holder::Session(1), Holder::Session(2), Holder::Session(3));
    let mut plugins = Registry::new(alloc);
    is_send(&plugins);
    assert!(rt; plugins.phase(&journal) == None);
    assert!(rt; plugins.get(&journal, &first) == Err(GetFault::UnknownEngine));
    assert!(rt; plugins.accept_uninstall(&journal) == Err(UninstallFault::NotInstalled));
    assert!(rt; plugins.install(&journal) == Ok(0));
    assert!(rt; plugins.install(&journal) == Err(InstallFault::Installed));
    assert!(rt; plugins.get(&journal, &first) == Ok(0));
    assert!(rt; plugins.get(&journal, &idle) == Ok(0));
    assert!(rt; plugins.get(&journal, &second) == Ok(0));
    assert!(rt; plugins.get(&journal, &second) == Ok(0));
    assert!(rt; !plugins.reap(0));
    assert!(rt; plugins.accept_uninstall(&journal) == Ok(0));
    assert!(rt; plugins.accept_uninstall(&journal) == Err(UninstallFault::Dying));
    assert!(rt; plugins.install(&journal) == Err(InstallFault::Dying));
    assert!(rt; plugins.get(&journal, &third) == Err(GetFault::UnknownEngine));
    assert!(rt; plugins.get(&journal, &second) == Ok(0));
    plugins.leave(0, &second);
    assert!(rt; plugins.get(&journal, &second) == Err(GetFault::UnknownEngine));
    plugins.leave(0, &idle);
    plugins.leave(0, &third);
    plugins.leave(7, &first);
    assert!(rt; !plugins.reap(0), "session 1 has it");
    plugins.leave(0, &first);
    assert!(rt; plugins.phase(&journal) == Some(Phase::Dying));
    assert!(rt; plugins.reap(0));
    assert!(rt; !plugins.reap(0), "it is gone");
    assert!(rt; plugins.phase(&journal) == Some(Phase::Gone));
    assert!(rt; plugins.install(&journal) == Ok(1), "another slot");
    assert!(rt; plugins.phase(&journal) == Some(Phase::Live));
    assert!(rt; plugins.slots_used() == 2);
    Ok(())
}

#[test]
fn slots_are_spent_behind_256(rt: HostRuntime) -> Result<(), Fail> {
    let alloc = rt.alloc();
    let journal = name(&rt, alloc, b"JOURNAL")?;
    let pages = name(&rt, alloc, b"PAGES")?;
    let mut plugins = Registry::new(alloc);
    for slot in 0u16..255 {
        assert!(rt; plugins.install(&journal) == Ok(slot), "slot {slot}");
        assert!(rt;
            plugins.accept_uninstall(&journal) == Ok(slot),
            "slot {slot}"
        );
        assert!(rt; plugins.reap(slot), "slot {slot}");
    }
    assert!(rt; plugins.install(&journal) == Ok(255));
    assert!(rt; plugins.install(&pages) == Err(InstallFault::SlotsSpent));
    assert!(rt; plugins.install(&journal) == Err(InstallFault::Installed));
    assert!(rt; plugins.accept_uninstall(&journal) == Ok(255));
    assert!(rt; plugins.install(&journal) == Err(InstallFault::Dying));
    assert!(rt; plugins.reap(255));
    assert!(rt; plugins.install(&journal) == Err(InstallFault::SlotsSpent));
    assert!(rt; plugins.slots_used() == 256);
    Ok(())
}

// What happened to a slot. Names and holders have numbers here.
#[derive(Clone, Copy)]
enum Event {
    Installed(u16, u8),
    Got(u16, u8),
    Left(u16, u8),
    Accepted(u16),
    Reaped(u16),
}

// How many slots were used.
fn used(past: &[Event]) -> u32 {
    let mut n: u32 = 0;
    for it in past {
        if let Event::Installed(..) = *it {
            n = n.wrapping_add(1);
        }
    }
    n
}

// The last slot of a name, and how far it has come.
fn last_of(past: &[Event], name: u8) -> Option<(u16, Phase)> {
    let mut last = None;
    for it in past {
        match (*it, last) {
            (Event::Installed(slot, its), _) if its == name => last = Some((slot, Phase::Live)),
            (Event::Accepted(slot), Some((s, _))) if s == slot => last = Some((s, Phase::Dying)),
            (Event::Reaped(slot), Some((s, _))) if s == slot => last = Some((s, Phase::Gone)),
            _ => {}
        }
    }
    last
}

// Whether a holder refers to a slot.
fn has(past: &[Event], slot: u16, holder: u8) -> bool {
    let mut has = false;
    for it in past {
        match *it {
            Event::Got(s, h) if s == slot && h == holder => has = true,
            Event::Left(s, h) if s == slot && h == holder => has = false,
            _ => {}
        }
    }
    has
}

const NAMES: u8 = 3;

const HOLDERS: u8 = 4;

fn install(past: &[Event], name: u8) -> Result<u16, InstallFault> {
    match last_of(past, name) {
        Some((_, Phase::Live)) => Err(InstallFault::Installed),
        Some((_, Phase::Dying)) => Err(InstallFault::Dying),
        Some((_, Phase::Gone)) | None => {
            let n = used(past);
            if n < 256 {
                Ok(n as u16)
            } else {
                Err(InstallFault::SlotsSpent)
            }
        }
    }
}

fn get(past: &[Event], name: u8, holder: u8) -> Result<u16, GetFault> {
    match last_of(past, name) {
        Some((slot, Phase::Live)) => Ok(slot),
        Some((slot, Phase::Dying)) if has(past, slot, holder) => Ok(slot),
        _ => Err(GetFault::UnknownEngine),
    }
}

fn accept_uninstall(past: &[Event], name: u8) -> Result<u16, UninstallFault> {
    match last_of(past, name) {
        Some((slot, Phase::Live)) => Ok(slot),
        Some((_, Phase::Dying)) => Err(UninstallFault::Dying),
        Some((_, Phase::Gone)) | None => Err(UninstallFault::NotInstalled),
    }
}

fn reap(past: &[Event], slot: u16) -> bool {
    let mut is_dying = false;
    for it in past {
        match *it {
            Event::Accepted(s) if s == slot => is_dying = true,
            Event::Reaped(s) if s == slot => is_dying = false,
            _ => {}
        }
    }
    is_dying && (0..HOLDERS).all(|holder| !has(past, slot, holder))
}

// The names and holders of the calls.
#[derive(Drop)]
struct Cast {
    names: [Name; 3],
    holders: [Holder; 4],
}

fn make_cast(rt: &impl Abort, alloc: Global) -> Result<Cast, AllocError> {
    Ok(Cast {
        names: [
            name(rt, alloc, b"JOURNAL")?,
            name(rt, alloc, b"PAGES")?,
            name(rt, alloc, b"t")?,
        ],
        holders: [
            Holder::Session(1),
            Holder::Session(2),
            Holder::Idle(name(rt, alloc, b"t")?),
            Holder::Idle(name(rt, alloc, b"tt")?),
        ],
    })
}

// One call, which the draw says, and what happened by it.
fn call(
    rt: &impl Abort,
    plugins: &mut Registry,
    past: &[Event],
    cast: &Cast,
    draw: u64,
) -> Option<Event> {
    let n = (draw / 10 % 3) as u8;
    let h = (draw / 30 % 4) as u8;
    let name = &cast.names[n as usize];
    let holder = &cast.holders[h as usize];
    let slot = last_of(past, n).map_or(0, |last| last.0);
    match draw % 10 {
        0 => {
            let answer = plugins.install(name);
            assert!(rt; answer == install(past, n));
            answer.ok().map(|slot| Event::Installed(slot, n))
        }
        1..=3 => {
            let answer = plugins.get(name, holder);
            assert!(rt; answer == get(past, n, h));
            answer.ok().map(|slot| Event::Got(slot, h))
        }
        4..=6 => {
            plugins.leave(slot, holder);
            Some(Event::Left(slot, h))
        }
        7 => {
            let answer = plugins.accept_uninstall(name);
            assert!(rt; answer == accept_uninstall(past, n));
            answer.ok().map(Event::Accepted)
        }
        _ => {
            let answer = plugins.reap(slot);
            assert!(rt; answer == reap(past, slot));
            answer.then_some(Event::Reaped(slot))
        }
    }
}

// Whether the registry tells what happened.
fn tells(plugins: &Registry, past: &[Event], cast: &Cast) -> bool {
    let mut is_so = plugins.slots_used() == used(past);
    for n in 0..NAMES {
        let phase = last_of(past, n).map(|last| last.1);
        is_so = is_so && plugins.phase(&cast.names[n as usize]) == phase;
    }
    is_so
}

#[test]
fn pseudo_random_calls_answer_as_what_happened_says(rt: HostRuntime) -> Result<(), Fail> {
    let cast = make_cast(&rt, rt.alloc())?;
    let mut plugins = Registry::new(rt.alloc());
    let mut past: Vec<Event> = Vec::new(rt.alloc());
    let mut seed: u64 = 20250117;
    for step in 0u32..900 {
        seed = seed
            .wrapping_mul(6364136223846793005)
            .wrapping_add(1442695040888963407);
        if let Some(it) = call(&rt, &mut plugins, &past, &cast, seed >> 33) {
            past.push(it)?;
        }
        assert!(rt; tells(&plugins, &past, &cast), "step {step}");
    }
    assert!(rt; used(&past) > 20, "slots were reaped and others used");
    Ok(())
}
