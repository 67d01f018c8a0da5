// How long it takes what a closure does, and the median of samples.
use std::alloc::{AllocError, Global};
use std::io;
use std::time::Instant;

// What came of it, and how many nanoseconds it took.
#[derive(Clone, Copy)]
pub struct Timed<T> {
    pub value: T,
    pub nanoseconds: u128,
}

pub fn time<T: Drop, F: FnOnce() -> T + Drop>(rt: &HostRuntime, work: F) -> io::Result<Timed<T>>
    requires { F.IsAlwaysCallable work }
{
    let start = Instant::now(rt)?;
    let value = work();
    Ok(Timed {
        value,
        nanoseconds: start.elapsed(rt)?.as_nanos(),
    })
}

// How many nanoseconds it took, each time.
#[derive(Drop)]
pub struct Samples {
    nanoseconds: Vec<u128>,
}

impl Samples {
    pub fn new(heap: Global) -> Samples {
        Samples {
            nanoseconds: Vec::new(heap),
        }
    }

    pub fn add(&mut self, nanoseconds: u128) -> Result<(), AllocError> {
        self.nanoseconds.push(nanoseconds)?;
        Ok(())
    }

    pub fn median(&mut self) -> Result<u128, AllocError> {
        self.nanoseconds.sort()?;
        let middle = self.nanoseconds.len() / 2;
        Ok(self.nanoseconds.get(middle).copied().unwrap_or(0))
    }
}
