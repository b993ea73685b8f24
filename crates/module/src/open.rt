ghost use Rattle.std.specs.Prelude.{◌≡◌, ◌+◌, ◌*◌, ◌<◌, ◌≤◌, length, IfOk, Ok};
ghost use Rattle.refusal.specs.Values.{told};
ghost use Rattle.module.specs.Bytes.{Octets};
ghost use Rattle.module.specs.First.{first_failing};
ghost use Rattle.module.specs.Layout.{routines as routines_of, before, counts, entry_right, unless_wrong, opening};
ghost use Rattle.module.specs.Told.{bytes_of, by_counts};

use crate::bytes::read_two;
use crate::contents::{entry_of, offset_of};
use crate::limits;
use crate::opened::{Counts, Opened};
use refusal::Refusal;

// The number of instructions in all routines, if every entry is right.
fn sum_entries(bytes: &[u8], routines: usize) -> Result<usize, Refusal>
    requires room { 4 + 8 * routines ≤ length bytes.now }
    requires all { routines ≡ routines_of bytes.now }
    requires few { routines ≤ 64 }
    ensures verdict { told result ≡ unless_wrong (first_failing (entry_right bytes.now) routines 0) (Ok (before bytes.now routines)) }
    ensures short { IfOk result (λ t. t ≤ 4096) }
    ensures octets { Octets bytes.now }
{
    // Over a range, as the number is the place of the refusal. pack has a loop of its own: one function for both would take
    // closures for the entry and its test, and be no plainer than two loops.
    let mut sum = 0;
    for routine in 0..routines {
        let entry = entry_of(bytes, routine);
        let at = 4 + 8 * routines + 8 * sum;
        if offset_of(bytes, routine) != at || !entry.is_right(routine, sum) {
            return Err(Refusal::Entry(routine as u16));
        }
        sum += usize::from(entry.count);
    }
    Ok(sum)
}

/// Opens a module over the caller's bytes.
pub fn open(bytes: &[u8]) -> Result<Opened<'_>, Refusal>
    ensures verdict { by_counts result ≡ opening bytes.now }
    ensures shows { IfOk result (λ o. bytes_of o ≡ bytes.now) }
    ensures counts { IfOk result (λ o. o.counts ≡ counts bytes.now) }
    ensures octets { IfOk result (λ o. Octets (bytes_of o)) }
{
    if bytes.len() < 4 {
        return Err(Refusal::Truncated);
    }
    let routines = usize::from(read_two(bytes, 0));
    let image = usize::from(read_two(bytes, 2));
    if !limits::admit(routines, image) {
        return Err(Refusal::Counts);
    }
    if bytes.len() < 4 + 8 * routines {
        return Err(Refusal::Truncated);
    }
    let total = sum_entries(bytes, routines)?;
    if bytes.len() != 4 + 8 * routines + 8 * total + image {
        return Err(Refusal::Length);
    }
    Ok(Opened {
        bytes,
        counts: Counts {
            routines,
            image,
            total,
        },
    })
}
