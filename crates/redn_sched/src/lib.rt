#![tactic(auto)]

mod choices;
mod fair;
mod laws;
mod line;
mod reader;
mod shuffle;
mod text;
mod turns;
mod written;

pub use fair::Fair;
pub use laws::{
    beginnings_are_read, each_text_is_read, each_text_is_read_once, made_runs_end_whole,
};
pub use line::{Line, read_line};
pub use reader::{Fed, Got, ScheduleReader};
pub use shuffle::Shuffle;
pub use text::Numbered;
pub use written::{action_line, schedule_text};
