// Bufferevents that hold nothing.

use bev_core::{Bev, BevFault};
use std::alloc::Global;

/// So many bufferevents at once, none of which has a byte; how many they are. Their memory is what the process holds then.
pub fn idle_bevs(alloc: Global, count: u32) -> Result<u64, BevFault> {
    let mut bevs = Vec::new(alloc);
    for _ in 0..count {
        let bev = Bev::new(alloc)?;
        if bevs.push(bev).is_err() {
            return Err(BevFault::Memory);
        }
    }
    Ok(bevs.len() as u64)
}
