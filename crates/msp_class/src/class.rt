// The parts of a class's name.
/// The machine environment: the first field of a class's name.
///
/// `J2Short` and `JShort` are `J2` and `J` where each job has at most two operations (`n<=2`).
#[derive(Clone, Copy, PartialEq, Eq)]
pub enum Env {
    One,
    P2,
    P3,
    P,
    Q2,
    Q,
    R2,
    R,
    O2,
    O3,
    O,
    F2,
    F3,
    F,
    J2Short,
    JShort,
    J2,
    J,
}

/// The kind of precedence constraints.
#[derive(Clone, Copy, PartialEq, Eq)]
pub enum Order {
    Free,
    Chains,
    Intree,
    Outtree,
    Prec,
}

/// The optimality criterion: the third field of a class's name.
#[derive(Clone, Copy, PartialEq, Eq)]
pub enum Crit {
    Cmax,
    Lmax,
    Fmax,
    SumC,
    SumWC,
    SumU,
    SumWU,
    SumT,
    SumWT,
}

/// The processing times: arbitrary, all 1 (`p=1`), or all equal to a number of the instance (`p=p`).
#[derive(Clone, Copy, PartialEq, Eq)]
pub enum Times {
    General,
    Unit,
    Equal,
}

/// A class of scheduling problems in the three-field notation of Graham, Lawler, Lenstra and Rinnooy Kan (1979).
#[derive(Clone, Copy, PartialEq, Eq)]
pub struct Class {
    pub env: Env,
    /// Whether operations may be cut into pieces (`pmtn`).
    pub cut: bool,
    pub order: Order,
    /// Whether jobs have release dates (`r`).
    pub heads: bool,
    pub times: Times,
    pub crit: Crit,
}
