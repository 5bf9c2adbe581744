// One probe and a tick: whether it holds the tick, and when it starts next.
#![tactic(auto, unfolding(crate::specs::Moments::phase, crate::specs::Moments::candidate))]

ghost use Rattle.std.specs.Prelude.{◌≡◌, ◌≤◌, ◌<◌};
ghost use Rattle.words.specs.Ticks.{last_tick};
ghost use Rattle.wire.specs.Window.{holds};
ghost use Rattle.moments.specs.Moments.{phase, candidate};

// Ticks since the start of the read or pause that the tick lies in.
fn phase(period: u32, start: u32, tick: u64) -> u32
    requires period_nonzero { 0 < period }
    requires start_le_tick { start ≤ tick }
    ensures { result ≡ phase period start tick }
{
    ((tick - start as u64) % period as u64) as u32
}

// Whether a probe holds the tick: not before its start, and within the first ticks of a turn.
pub fn holds(period: u32, length: u32, start: u32, tick: u64) -> bool
    requires { 0 < period }
    ensures { result ≡ holds period length start tick }
{
    start as u64 <= tick && phase(period, start, tick) < length
}

// The first start of one probe from the tick on.
pub fn first_from(period: u32, start: u32, tick: u64) -> u64
    requires period_nonzero { 0 < period }
    requires tick_le_last_tick { tick ≤ last_tick }
    ensures { result ≡ candidate period start tick }
{
    if tick <= start as u64 {
        return start as u64;
    }
    match phase(period, start, tick) {
        0 => tick,
        since => tick + (period - since) as u64,
    }
}
