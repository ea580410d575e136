// What jobs cost in slots.
ghost use Rattle.std.specs.Prelude.{◌≡◌, ◌+◌, ◌*◌, ◌<◌, ◌≤◌, ◌^◌, pos, ◌*ℤ◌, unsigned_abs, length};
ghost use Rattle.msp_class.specs.declared.sizes.TheConstants.{GREATEST};
ghost use Rattle.msp_instance.specs.Conditions.{LiesWithin};
ghost use Rattle.msp_total.specs.Slots.{greatest_past, past_due, slot_cost};

use crate::slot_table::Slots;
use msp_assign::Costs;

/// More than any schedule costs: what a job costs in a slot that begins before its release date.
const FORBIDDEN: i128 = 1 << 90;

fn product(a: i128, b: i128) -> i128
    requires { unsigned_abs a * unsigned_abs b < 2 ^ 127 }
    ensures { result ≡ a *ℤ b }
{
    a * b
}

fn weighed(weight: u64, past: i128) -> i128
    requires weight { weight ≤ GREATEST }
    requires past { LiesWithin greatest_past past }
    ensures { result ≡ pos weight *ℤ past }
{
    product(i128::from(weight), past)
}

/// How far the end of the slot that begins at `start` is past the due date, or where `late` is false, 1 where it is past it.
fn past(late: bool, start: u64, due: &i64) -> i128
    ensures value { result ≡ past_due late (pos (start + 1)) due.now }
    ensures size { LiesWithin greatest_past result }
{
    let end = i128::from(start) + 1;
    let date = i128::from(*due);
    if late {
        return (end - date).max(0);
    }
    if date < end { 1 } else { 0 }
}

impl Costs for Slots {
    ghost row_count = { λ s. length s.release };

    ghost column_count = { λ s. length s.start };

    ghost cost = { slot_cost };

    fn rows(&self) -> u32 {
        self.release.len() as u32
    }

    fn columns(&self) -> u32 {
        self.start.len() as u32
    }

    fn at(&self, row: u32, column: u32) -> i128 {
        let job = row as usize;
        let start = self.start.as_slice()[column as usize];
        if start < self.release.as_slice()[job] {
            return FORBIDDEN;
        }
        let due = &self.due.as_slice()[job];
        weighed(self.weight.as_slice()[job], past(self.late, start, due))
    }
}
