// The faults of texts, and what is said of them.
ghost use Rattle.std.specs.Prelude.{◌≡◌, ◌+◌, ◌≤◌, ◌++◌, length, codes};
ghost use Rattle.msp_name.specs.declared.fault.TheConstants.{FAULT_ROOM};
ghost use Rattle.msp_text.specs.declared.job_name.TheConstants.{LONGEST_NAME};
ghost use Rattle.msp_grammar.specs.declared.lines.fault.FileFault.TheVariants.{Memory};
ghost use Rattle.msp_grammar.specs.lines.Faults.{quantity_text, longest_quantity, longest_line_head, at_line, broken_text, file_text};

use msp_class::NoMemory;
use msp_instance::ClassFault;
use msp_name::{FAULT_ROOM, ShortText};
use msp_text::JobName;

/// A quantity that texts keep within limits.
#[derive(Clone, Copy)]
pub enum What {
    Jobs,
    Arcs,
    Name,
    Machines,
    Speed,
    Multiple,
    Time,
    Release,
    Due,
    Weight,
    Slope,
    Base,
    Above,
    Add,
    Steps,
    Route,
    Place,
    Unit,
    Moment,
    Cost,
    Pieces,
    Level,
    Head,
    Price,
    Lines,
}

/// The first fault of a text. `at` is the number of its line, from 1.
#[derive(Clone, Copy)]
pub enum FileFault {
    /// The first line is not `msp 1`, or the second is not `class` and a name of a class.
    Head {
        at: u32,
    },
    /// The line is not there.
    Missing {
        at: u32,
    },
    /// The line has no line feed at its end.
    Cut {
        at: u32,
    },
    /// The first word is not that of a line that may stand here.
    Line {
        at: u32,
    },
    /// The number of fields is not the one needed.
    Count {
        at: u32,
    },
    /// A key is not the one expected.
    Key {
        at: u32,
    },
    /// A job name has another byte than those of names, or no byte.
    Name {
        at: u32,
    },
    /// A number is misspelled.
    Number {
        at: u32,
    },
    /// A quantity is out of range.
    Limit {
        at: u32,
        what: What,
    },
    /// An earlier job has the name.
    Again {
        at: u32,
    },
    /// The arc stands a second time.
    ArcAgain {
        at: u32,
    },
    /// No job has the name.
    Unknown {
        at: u32,
    },
    /// A byte follows the end.
    After {
        at: u32,
    },
    /// A condition of the class is broken. The name is that of the job that the fault names, if it names one.
    Class {
        fault: ClassFault,
        name: Option<JobName>,
    },
    /// The arcs have a cycle, on which this job is the least.
    Cycle {
        job: u32,
        name: JobName,
    },
    /// There was not memory enough.
    Memory,
}

impl From<NoMemory> for FileFault {
    ghost from_gives = { λ _ e. e ≡ Memory };

    fn from(_refusal: NoMemory) -> FileFault {
        FileFault::Memory
    }
}

impl What {
    /// The word for the quantity.
    fn word(self) -> &'static [u8]
        ensures value { result.now ≡ quantity_text self }
        ensures short { length result.now ≤ longest_quantity }
    {
        match self {
            What::Jobs => b"jobs",
            What::Arcs => b"arcs",
            What::Name => b"name",
            What::Machines => b"machines",
            What::Speed => b"speed",
            What::Multiple => b"multiple",
            What::Time => b"time",
            What::Release => b"release",
            What::Due => b"due",
            What::Weight => b"weight",
            What::Slope => b"slope",
            What::Base => b"base",
            What::Above => b"above",
            What::Add => b"add",
            What::Steps => b"steps",
            What::Route => b"route",
            What::Place => b"place",
            What::Unit => b"unit",
            What::Moment => b"moment",
            What::Cost => b"cost",
            What::Pieces => b"pieces",
            What::Level => b"level",
            What::Head => b"head",
            What::Price => b"price",
            What::Lines => b"lines",
        }
    }
}

/// The number of a line, which has at most 10 digits, and what is said of it.
fn at_line(at: u32, what: &[u8]) -> ShortText<FAULT_ROOM>
    requires { length what.now + longest_line_head ≤ FAULT_ROOM }
    ensures text { result ≡ at_line at what.now }
    ensures short { length result ≤ length what.now + longest_line_head }
{
    let mut digits = itoa::Buffer::new();
    let mut text = ShortText::of(b"line ");
    text.put(digits.format(at).as_bytes());
    text.put(b": ");
    text.put(what);
    text
}

fn limit(at: u32, what: What) -> ShortText<FAULT_ROOM>
    ensures { result ≡ at_line at (codes "limit of " ++ quantity_text what) }
{
    let mut text = at_line(at, b"limit of ");
    text.put(what.word());
    text
}

/// The name of a job behind some bytes.
fn headed(head: &[u8], name: &JobName) -> ShortText<FAULT_ROOM>
    requires { length head.now + LONGEST_NAME ≤ FAULT_ROOM }
    ensures text { result ≡ head.now ++ name.now }
    ensures short { length result ≤ length head.now + LONGEST_NAME }
{
    let mut text = ShortText::of(head);
    text.put(name.bytes());
    text
}

fn of_job(name: &JobName, what: &[u8]) -> ShortText<FAULT_ROOM>
    requires { length what.now + LONGEST_NAME + length (codes "job ") ≤ FAULT_ROOM }
    ensures { result ≡ codes "job " ++ name.now ++ what.now }
{
    let mut text = headed(b"job ", name);
    text.put(what);
    text
}

/// The condition of the class that is broken.
fn broken(fault: ClassFault, name: &Option<JobName>) -> ShortText<FAULT_ROOM>
    ensures { result ≡ broken_text fault name.now }
{
    match (fault, name) {
        (ClassFault::Jobs, _) => ShortText::of(b"no jobs"),
        (ClassFault::Need { .. }, Some(name)) => of_job(name, b": needs"),
        (ClassFault::Degree { .. }, Some(name)) => of_job(name, b": degree"),
        _ => ShortText::new(),
    }
}

impl FileFault {
    /// The text of the fault. It takes no memory.
    pub fn text(&self) -> ShortText<FAULT_ROOM>
        ensures { result ≡ file_text self.now }
    {
        match self {
            FileFault::Head { at } => at_line(*at, b"head"),
            FileFault::Missing { at } => at_line(*at, b"missing"),
            FileFault::Cut { at } => at_line(*at, b"cut"),
            FileFault::Line { at } => at_line(*at, b"not expected here"),
            FileFault::Count { at } => at_line(*at, b"count of fields"),
            FileFault::Key { at } => at_line(*at, b"key"),
            FileFault::Name { at } => at_line(*at, b"name"),
            FileFault::Number { at } => at_line(*at, b"number"),
            FileFault::Limit { at, what } => limit(*at, *what),
            FileFault::Again { at } => at_line(*at, b"name again"),
            FileFault::ArcAgain { at } => at_line(*at, b"arc again"),
            FileFault::Unknown { at } => at_line(*at, b"unknown name"),
            FileFault::After { at } => at_line(*at, b"after the end"),
            FileFault::Class { fault, name } => broken(*fault, name),
            FileFault::Cycle { name, .. } => headed(b"cycle at ", name),
            FileFault::Memory => ShortText::of(b"out of memory"),
        }
    }
}
