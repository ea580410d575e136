// The statuses of the program, by their names.

/// The report was written.
pub const WRITTEN: u8 = 0;
/// The report was written, and what it says is no: the results clash, the checked schedule is not feasible or has another cost, or
/// the certificate is not accepted.
pub const NO: u8 = 1;
/// The words fit no command.
pub const USAGE: u8 = 2;
/// The input has a fault.
pub const BAD_INPUT: u8 = 3;
/// The input breaks a limit.
pub const LIMIT: u8 = 4;
/// There is no solver or no certificate for the class of the instance, or its schedules are not checked.
pub const NO_SOLVER: u8 = 5;
/// The class that is named has no solver, or no chain leads to it.
pub const NO_ROUTE: u8 = 6;
/// The source failed.
pub const READ_FAULT: u8 = 7;
/// The sink of the report failed.
pub const WRITE_FAULT: u8 = 8;
/// There was no memory left.
pub const NO_MEMORY: u8 = 9;
