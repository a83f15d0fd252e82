/// `C=HEX`: a message for a chain, by its hex digits.
#[derive(Debug, Drop)]
pub struct MessageWord {
    pub chain: u32,
    pub hex: String,
}

/// What makes the actions of a run: the file of a schedule, the fair rules for so many steps, or the
/// draws of a number for so many.
#[derive(Debug, Drop)]
pub enum Plan {
    Schedule { file: String },
    Fair { steps: u64 },
    Shuffle { number: u64, steps: u64 },
}

/// What words ask for, with the names of files. `keep` is the file that the steps made are recorded
/// in.
#[derive(Debug, Drop)]
pub enum Command {
    Check {
        file: String,
    },
    Compile {
        file: String,
        image: String,
    },
    Run {
        image: String,
        plan: Plan,
        keep: Option<String>,
        messages: Vec<MessageWord>,
    },
    Go {
        file: String,
        image: String,
        plan: Plan,
        keep: Option<String>,
        messages: Vec<MessageWord>,
    },
    Disasm {
        image: String,
    },
    Assemble {
        listing: String,
        image: String,
    },
    Gen {
        number: u32,
        image: String,
    },
}

/// Words are no command; or want of memory.
#[derive(Clone, Copy, Debug, PartialEq, Eq)]
pub enum WordsFault {
    Refused,
    Memory,
}
