//! A lock table of four owners in the simplest way, for tests: the least cycle is the first of all orders of owners that is one.
use std::alloc::{AllocError, Global};
use std::mem;

/// A lock that an owner has or waits for. Names and modes are numbers; the modes are IS, IX, S and X.
#[derive(Clone, Copy)]
pub(crate) struct Asked {
    pub(crate) owner: u32,
    pub(crate) name: u8,
    pub(crate) mode: u8,
}

#[derive(Drop)]
pub(crate) enum Answer {
    Granted,
    Waits(u32),
    Deadlock(Vec<u32>),
}

#[derive(Drop)]
pub(crate) struct Plain {
    alloc: Global,
    granted: Vec<Asked>,
    waits: Vec<Asked>,
}

fn conflict(a: u8, b: u8) -> bool {
    matches!(
        (a, b),
        (0, 3) | (3, 0) | (1, 2) | (2, 1) | (1, 3) | (3, 1) | (2, 3) | (3, 2) | (3, 3)
    )
}

fn covers(a: u8, b: u8) -> bool {
    matches!((a, b), (0, 0) | (1, 0) | (1, 1) | (2, 0) | (2, 2) | (3, _))
}

fn first_in_way(before: &[Asked], it: Asked) -> Option<u32> {
    for other in before {
        if other.owner != it.owner && other.name == it.name && conflict(other.mode, it.mode) {
            return Some(other.owner);
        }
    }
    None
}

fn is_in_way(before: &[Asked], it: Asked, owner: u32) -> bool {
    for other in before {
        if other.owner == owner && first_in_way(&[*other], it).is_some() {
            return true;
        }
    }
    false
}

// The owner, and up to three others behind it: the digits of a number to the base of 5, where 0 is nobody.
fn order_of(alloc: Global, owner: u32, code: u32) -> Result<Option<Vec<u32>>, AllocError> {
    let digits = [code / 25 % 5, code / 5 % 5, code % 5];
    let mut order = Vec::new(alloc);
    order.push(owner)?;
    let mut ended = false;
    for digit in digits {
        if digit == 0 {
            ended = true;
        } else if ended || order.contains(&digit) {
            return Ok(None);
        } else {
            order.push(digit)?;
        }
    }
    Ok(Some(order))
}

impl Plain {
    pub(crate) fn new(alloc: Global) -> Plain {
        Plain {
            alloc,
            granted: Vec::new(alloc),
            waits: Vec::new(alloc),
        }
    }

    pub(crate) fn holds(&self, it: Asked) -> bool {
        for lock in &self.granted {
            if lock.owner == it.owner && lock.name == it.name && covers(lock.mode, it.mode) {
                return true;
            }
        }
        false
    }

    fn in_way(&self, waits: &[Asked], it: Asked) -> Option<u32> {
        match first_in_way(&self.granted, it) {
            Some(owner) => Some(owner),
            None => first_in_way(waits, it),
        }
    }

    pub(crate) fn waits(&self, owner: u32) -> Option<u32> {
        for (k, it) in self.waits.iter().enumerate() {
            if it.owner == owner {
                return self.in_way(&self.waits[..k], *it);
            }
        }
        None
    }

    fn waits_for(&self, a: u32, b: u32) -> bool {
        for (k, it) in self.waits.iter().enumerate() {
            if it.owner == a
                && (is_in_way(&self.granted, *it, b) || is_in_way(&self.waits[..k], *it, b))
            {
                return true;
            }
        }
        false
    }

    fn is_cycle(&self, order: &[u32]) -> bool {
        for i in 0..order.len() {
            let next = if i + 1 < order.len() {
                order[i + 1]
            } else {
                order[0]
            };
            if !self.waits_for(order[i], next) {
                return false;
            }
        }
        true
    }

    fn least_cycle(&self, owner: u32) -> Result<Option<Vec<u32>>, AllocError> {
        for code in 0..125u32 {
            if let Some(order) = order_of(self.alloc, owner, code)?
                && self.is_cycle(&order)
            {
                return Ok(Some(order));
            }
        }
        Ok(None)
    }

    pub(crate) fn want(&mut self, it: Asked) -> Result<Answer, AllocError> {
        if self.holds(it) {
            return Ok(Answer::Granted);
        }
        let Some(holder) = self.in_way(&self.waits, it) else {
            self.granted.push(it)?;
            return Ok(Answer::Granted);
        };
        self.waits.push(it)?;
        match self.least_cycle(it.owner)? {
            Some(order) => {
                let _ = self.waits.pop();
                Ok(Answer::Deadlock(order))
            }
            None => Ok(Answer::Waits(holder)),
        }
    }

    pub(crate) fn release_all(&mut self, owner: u32) -> Result<u32, AllocError> {
        self.granted.retain(|it| it.owner != owner);
        let waits = mem::replace(&mut self.waits, Vec::new(self.alloc));
        let mut count = 0u32;
        for it in waits {
            if it.owner != owner {
                if self.in_way(&self.waits, it).is_some() {
                    self.waits.push(it)?;
                } else {
                    self.granted.push(it)?;
                    count = count.wrapping_add(1);
                }
            }
        }
        Ok(count)
    }
}
