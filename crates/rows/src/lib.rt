// The fills of the rows: cleared, searched for the lowest sub-bin with room, and raised.
#![tactic(auto)]

ghost use Rattle.std.specs.Prelude.{◌≡◌, ℕ, ◌+◌, ◌*◌, ◌≤◌, ◌<◌, length, get_or, replicate};
ghost use Rattle.std.specs.Int.{◌∣◌};
ghost use Rattle.stack.specs.Stack.{raise, raised};
ghost use Rattle.rows.specs.Seeking.{FirstRow};

// All rows begin with fill 0.
pub fn clear(rows: &mut [u32])
    ensures { rows.new ≡ replicate (length rows.old) 0 }
{
    rows.fill(0);
}

// The first row of the lowest sub-bin of h rows with room for p in w.
pub fn lowest_row(rows: &[u32], h: usize, p: u32, w: u32) -> Option<usize>
    requires h_nonzero { 0 < h }
    requires h { h ∣ length rows.now }
    requires p_le_w { p ≤ w }
    ensures { FirstRow rows.now h p w result }
{
    let room = w - p;
    let mut y = 0;
    while y < rows.len() {
        if rows[y] <= room {
            return Some(y);
        }
        y += h;
    }
    None
}

// Every row of a part raised by p.
fn raise(part: &mut [u32], p: u32)
    requires { (k : ℕ) → k < length part.old → get_or part.old k 0 + p < 4294967296 }
    ensures { part.new ≡ raise p part.old }
{
    for fill in part {
        *fill += p;
    }
}

// The rows from y for h raised by p, and no other row.
pub fn raise_rows(rows: &mut [u32], y: usize, h: usize, p: u32)
    requires h_in_bounds { y + h ≤ length rows.old }
    requires by_index { (k : ℕ) → k < length rows.old → get_or rows.old k 0 + p < 4294967296 }
    ensures { rows.new ≡ raised rows.old y h p }
{
    raise(&mut rows[y..y + h], p);
}
