// What an accepted submission tells of itself, in memory that its caller hands in.
ghost use Rattle.std.specs.Prelude.{◌≡◌, length};
ghost use Rattle.rules.specs.Reports.{blank_report, begun};

// What a read summed, and how many commands of its submission went before it.
#[derive(Clone, Copy, Debug, Default, PartialEq, Eq)]
pub struct ReadSum {
    pub total: u64,
    pub before: u64,
}

#[derive(Clone, Copy, Debug, PartialEq, Eq)]
pub struct Report {
    // How many cells were cleared for reads.
    pub cleared: u64,
    // How many commands the device took.
    pub commands: u64,
    // How many sums there are: one for each read, in order.
    pub reads: u64,
    // The sums. An array and a count: its caller hands the memory in, and places that no read fills stay as they were.
    pub sums: [ReadSum; 64],
}

impl Report {
    // A report of nothing.
    pub fn new() -> Report
        ensures { result ≡ blank_report }
    {
        Report {
            cleared: 0,
            commands: 0,
            reads: 0,
            sums: [ReadSum::default(); 64],
        }
    }

    // Begins the report of a submission, with no sum yet.
    pub fn begin(&mut self, cleared: u64, commands: u64)
        ensures after { self.new ≡ begun self.old cleared commands }
        ensures wide { length self.old.sums ≡ 64 }
    {
        self.cleared = cleared;
        self.commands = commands;
        self.reads = 0;
    }
}

// The memory that a call fills.
#[derive(Clone, Copy, Debug, PartialEq, Eq)]
pub struct Records {
    pub report: Report,
}
