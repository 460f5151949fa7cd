// Which of the ready tasks takes the next step.
use crate::engine::{Engine, Unfinished};
use dc_tree::DeclId;

/// The order of steps: always the first ready task, or one that a number leads to.
#[derive(Clone, Copy)]
pub enum Order {
    First,
    Mixed(u64),
}

/// The multiplier and the increment of the next state of a mixed order.
const FACTOR: u64 = 6_364_136_223_846_793_005;

const STEP: u64 = 1_442_695_040_888_963_407;

impl Order {
    /// The number of the task that takes the next step, below the number of those that are ready.
    pub fn pick(&mut self, ready: usize) -> usize {
        match self {
            Order::First => 0,
            Order::Mixed(state) => {
                *state = state.wrapping_mul(FACTOR).wrapping_add(STEP);
                match u64::try_from(ready) {
                    Ok(count) if count > 0 => {
                        usize::try_from((*state >> 33) % count).unwrap_or(0)
                    }
                    _ => 0,
                }
            }
        }
    }
}

/// Takes steps in an order until nothing is ready. Gives the program's `main`.
pub fn elaborate(engine: &mut Engine, order: Order) -> Result<DeclId, Unfinished> {
    let mut order = order;
    for _ in 0..u64::MAX {
        let ready = engine.ready();
        if ready == 0 {
            break;
        }
        let choice = order.pick(ready);
        engine.advance(choice);
    }
    engine.finish()
}
