//! The longest queue per worker under a plan.

use plan_model::{Answer, Certified, FuncId, Input, MAX_FUNCTIONS, Plan};

/// A function's queue under a plan.
#[derive(Clone, Copy, Debug, PartialEq, Eq)]
pub struct Queue {
    /// The function.
    pub function: FuncId,
    /// How many jobs wait for it.
    pub waiting: u32,
    /// How many workers the plan gives it.
    pub workers: u32,
}

/// How many workers the plan gives each function.
fn workers_by_function(plan: &Plan) -> [u32; MAX_FUNCTIONS] {
    let mut workers = [0u32; MAX_FUNCTIONS];
    for (_, function) in plan.entries() {
        if let Some(function) = function {
            if let Some(count) = workers.get_mut(function.number() as usize) {
                *count = count.saturating_add(1);
            }
        }
    }
    workers
}

impl Queue {
    /// How many jobs wait for each worker, rounded up, and the greatest number if there is none.
    fn jobs_a_worker(&self) -> u32 {
        match self.workers {
            0 => u32::MAX,
            workers => self.waiting.div_ceil(workers),
        }
    }

    /// Whether this queue is longer per worker, or as long with more jobs.
    fn is_longer(&self, other: &Queue) -> bool {
        (self.jobs_a_worker(), self.waiting) > (other.jobs_a_worker(), other.waiting)
    }
}

/// The longest queue per worker if the input's workers are given so. None if no job waits.
fn longest_of(input: &Input, workers: &[u32]) -> Option<Queue> {
    let waiting = input.waiting();
    let mut longest: Option<Queue> = None;
    for number in 0..input.functions() as u32 {
        let queue = Queue {
            function: FuncId::new(number),
            waiting: waiting[number as usize],
            workers: workers.get(number as usize).copied().unwrap_or(0),
        };
        let is_longest = match &longest {
            Some(other) => queue.is_longer(other),
            None => true,
        };
        if queue.waiting > 0 && is_longest {
            longest = Some(queue);
        }
    }
    longest
}

/// The longest queue per worker under the answer's plan. None if it has none, or if no job waits. It takes no memory.
pub fn longest_queue(certified: &Certified) -> Option<Queue> {
    match certified.answer() {
        Answer::Planned { plan, .. } => {
            longest_of(certified.input(), &workers_by_function(plan))
        }
        Answer::NoPlan { .. } => None,
    }
}
