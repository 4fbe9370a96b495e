//! The folder that an index is kept in, the folder of journals, and what an audit says of them.
#![tactic(auto)]

mod auditing;
mod damage;
mod data_fault;
mod data_folder;
mod dumping;
mod fields;
mod inspecting;
mod journal_folder;
mod look;
mod mapping_file;
mod model_answer;
mod numbers;
mod parts;
mod salvage;
mod scan;
mod summed;
mod sums;
mod tearing;
mod verdict;

pub use auditing::{AuditingFault, journals_in, judge_folder};
pub use damage::Damage;
pub use data_fault::{DataFault, Difference};
pub use data_folder::{KeptCopy, KeptFolder, open_copy, open_folder};
pub use dumping::{DumpFault, Dumped, dump};
pub use inspecting::{InspectFault, inspect};
pub use journal_folder::{KeepFault, keep_journals};
pub use look::{LogFile, LookFault, TornEnd, looked_through};
pub use mapping_file::{MappingFault, MappingFile};
pub use parts::Parts;
pub use summed::{SumFaults, Summed};
pub use verdict::{VerdictFault, judge};
