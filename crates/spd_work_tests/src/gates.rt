// Gates that note each start, and that hold workers until others have come.

use spd_work::Gate;
use std::alloc::{AllocError, Global};
use std::sync::Wait;
use std::sync::atomic::{AtomicU64, Ordering};
use std::thread;

/// Notes how often each vertex was started, and which start it was, counted from 1.
#[derive(Drop)]
pub struct Noting {
    starts: AtomicU64,
    times: Vec<AtomicU64>,
    order: Vec<AtomicU64>,
}

impl Noting {
    /// For so many vertices.
    pub fn new(alloc: Global, vertices: u32) -> Result<Noting, AllocError> {
        Ok(Noting {
            starts: AtomicU64::new(0),
            times: zeros(alloc, vertices)?,
            order: zeros(alloc, vertices)?,
        })
    }

    /// How many starts there were.
    pub fn starts(&self) -> u64 {
        self.starts.load(Ordering::SeqCst)
    }

    /// How often a vertex was started, and which start was its last.
    pub fn of(&self, vertex: u32) -> (u64, u64) {
        (
            noted(self.times.as_slice(), vertex),
            noted(self.order.as_slice(), vertex),
        )
    }
}

impl Gate for Noting {
    fn started(&self, _worker: u32, vertex: u32) {
        let before = self.starts.fetch_add(1, Ordering::SeqCst);
        if let Some(times) = self.times.get(vertex as usize) {
            times.fetch_add(1, Ordering::SeqCst);
        }
        if let Some(order) = self.order.get(vertex as usize) {
            order.store(before.wrapping_add(1), Ordering::SeqCst);
        }
    }
}

/// Notes which workers started a vertex: a bit for each.
#[derive(Drop)]
pub struct Starters {
    numbers: AtomicU64,
}

impl Starters {
    pub fn new() -> Starters {
        Starters {
            numbers: AtomicU64::new(0),
        }
    }

    pub fn numbers(&self) -> u64 {
        self.numbers.load(Ordering::SeqCst)
    }
}

impl Gate for Starters {
    fn started(&self, worker: u32, _vertex: u32) {
        self.numbers
            .fetch_or(1u64.checked_shl(worker).unwrap_or(0), Ordering::SeqCst);
    }
}

fn zeros(alloc: Global, count: u32) -> Result<Vec<AtomicU64>, AllocError> {
    let mut all = Vec::new(alloc);
    for _ in 0..count {
        all.push(AtomicU64::new(0))?;
    }
    Ok(all)
}

fn noted(all: &[AtomicU64], vertex: u32) -> u64 {
    match all.get(vertex as usize) {
        Some(one) => one.load(Ordering::SeqCst),
        None => 0,
    }
}

/// Holds each worker that starts a leaf, until as many leaves are started as there are workers. Vertex 0
/// spawns the leaves 2, 4 and so on, one behind the other, and the last leaf is what is left of it.
#[derive(Drop)]
pub struct Meeting<'r, R> {
    rt: &'r R,
    workers: u32,
    come: AtomicU64,
    /// A bit for each worker that came.
    numbers: AtomicU64,
}

impl<'r, R: Wait> Meeting<'r, R> {
    pub fn new(rt: &'r R, workers: u32) -> Meeting<'r, R> {
        Meeting {
            rt,
            workers,
            come: AtomicU64::new(0),
            numbers: AtomicU64::new(0),
        }
    }

    /// How many leaves were started, and a bit for each worker that started one.
    pub fn come(&self) -> (u64, u64) {
        (
            self.come.load(Ordering::SeqCst),
            self.numbers.load(Ordering::SeqCst),
        )
    }

    fn is_leaf(&self, vertex: u32) -> bool {
        let last = self.workers.wrapping_mul(2).wrapping_sub(1);
        vertex > 1 && (vertex % 2 == 0 || vertex == last)
    }

    /// Waits until all have come.
    fn meet(&self) {
        for _ in self.rt.forever() {
            if self.come.load(Ordering::SeqCst) >= u64::from(self.workers) {
                return;
            }
            thread::yield_now();
        }
    }
}

impl<'r, R: Wait + Sync> Gate for Meeting<'r, R> {
    fn started(&self, worker: u32, vertex: u32) {
        if vertex == 0 {
            pause();
        }
        if self.is_leaf(vertex) {
            self.numbers
                .fetch_or(1u64.checked_shl(worker).unwrap_or(0), Ordering::SeqCst);
            self.come.fetch_add(1, Ordering::SeqCst);
            self.meet();
        }
    }
}

/// Lets the other workers look meanwhile, who find nothing that is ready.
fn pause() {
    for _ in 0..20 {
        thread::yield_now();
    }
}
