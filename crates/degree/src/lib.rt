// The two counters of document 000, deg and deg_d, as types of their own, so that one cannot stand in for the other.
#![tactic(auto)]

ghost use Rattle.std.specs.Prelude.{◌≡◌, ◌<◌, ◌^◌, pos, ◌-ℤ◌};
ghost use Rattle.sizes.specs.Entry.{entry_of};

// deg: the plain degree of an entry. It has no order, so that none can decide between rows.
#[derive(Clone, Copy)]
pub struct Degree(pub usize);

// deg_d: the shifted degree of a row. It can be negative.
#[derive(Clone, Copy, PartialEq, Eq, PartialOrd, Ord)]
pub struct ShiftedDegree(pub i64);

impl ShiftedDegree {
    // Of a row of pivot degree deg, for the type entry that the word d says.
    pub fn of(deg: Degree, d: u32) -> ShiftedDegree
        requires { deg.0 < 2 ^ 63 }
        ensures { result.0 ≡ pos deg.0 -ℤ entry_of d }
    {
        ShiftedDegree(deg.0 as i64 - d as i64)
    }
}
