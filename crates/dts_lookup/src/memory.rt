//! The memory that is lent to the lookups.
use dts_resolver::{Lent, Step};
use replay::Lengths;
use script::{Command, LENT, Line, MemorySizes};
use std::alloc::{AllocError, Global};

/// One piece for each of the four; each lookup is lent as much of it as the script last asked for.
#[derive(Drop)]
pub struct Memory {
    path: Vec<u8>,
    work: Vec<u8>,
    steps: Vec<Step>,
    bytes: Vec<u8>,
}

impl Memory {
    /// As much as any of the lines asks for.
    pub fn for_lines(heap: Global, lines: &[Line<'_>]) -> Result<Memory, AllocError> {
        let mut most = LENT;
        for line in lines {
            if let Command::Memory(sizes) = &line.command {
                most = larger(most, *sizes);
            }
        }
        let path = vec![in heap; 0u8; most.path]?;
        let work = vec![in heap; 0u8; most.work]?;
        let steps = vec![in heap; Step::default(); most.steps]?;
        let bytes = vec![in heap; 0u8; most.bytes]?;
        Ok(Memory {
            path,
            work,
            steps,
            bytes,
        })
    }

    pub fn lent(&mut self) -> Lent<'_> {
        Lent {
            path: self.path.as_mut_slice(),
            work: self.work.as_mut_slice(),
            steps: self.steps.as_mut_slice(),
            bytes: self.bytes.as_mut_slice(),
        }
    }
}

// The larger of each of the four sizes.
fn larger(some: MemorySizes, others: MemorySizes) -> MemorySizes {
    MemorySizes {
        path: some.path.max(others.path),
        work: some.work.max(others.work),
        steps: some.steps.max(others.steps),
        bytes: some.bytes.max(others.bytes),
    }
}

/// The lengths that a lookup is lent, by the sizes that the script asked for.
pub fn lengths(sizes: MemorySizes) -> Lengths {
    let MemorySizes {
        path,
        work,
        steps,
        bytes,
    } = sizes;
    Lengths {
        path,
        work,
        steps,
        bytes,
    }
}
