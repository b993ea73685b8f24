// Rounds of work, and the best of them.
use std::time::{Clock, Duration, Instant};

// How often the work is timed.
const ROUNDS: u32 = 7;

// So many milliseconds a round takes at least, so that the clock tells it well.
const SHORTEST: u128 = 200;

// How often the work was done, and in which time.
#[derive(Clone, Copy)]
pub(crate) struct Round {
    times: u32,
    time: Duration,
}

fn repeat<F: FnMut() -> anyhow::Result<()>>(
    rt: &impl Clock,
    times: u32,
    mut work: F,
) -> anyhow::Result<Round>
    requires { (state : F) → F.pre state }
{
    let start = Instant::now(rt)?;
    for _ in 0..times {
        work()?;
    }
    Ok(Round {
        times,
        time: start.elapsed(rt)?,
    })
}

// The best of the rounds. Their length is found first, twice as often each time.
pub(crate) fn best_round<F: FnMut() -> anyhow::Result<()>>(
    rt: &impl Clock,
    mut work: F,
) -> anyhow::Result<Round>
    requires { (state : F) → F.pre state }
{
    let mut best = repeat(rt, 1, &mut work)?;
    for _ in 0..u32::BITS {
        if best.time.as_millis() >= SHORTEST {
            break;
        }
        best = repeat(rt, best.times.saturating_mul(2), &mut work)?;
    }
    for _ in 1..ROUNDS {
        let next = repeat(rt, best.times, &mut work)?;
        if next.time < best.time {
            best = next;
        }
    }
    Ok(best)
}

impl Round {
    // Prints how fast a round is whose work is so many of a unit each time.
    pub(crate) fn print(
        self,
        rt: &impl Print,
        name: &str,
        each: u32,
        unit: &str,
    ) -> anyhow::Result<()> {
        let done = f64::from(self.times) * f64::from(each);
        let seconds = self.time.as_secs_f64();
        let rate = done / seconds;
        let nanoseconds = 1e9 * seconds / done;
        println!(rt; "{name} {rate:.0} {unit}s/s {nanoseconds:.2} ns/{unit}")?;
        Ok(())
    }
}
